// The rows of a lent table after a call: those written hold what the second way gives, all others what stood there before.
ghost use Rattle.std.specs.Prelude.{◌↔◌, IsOk, IsTrue};

use refusals::Refusal;
use second_no::No;
use trial_base::calls::{Call, Column};
use trial_base::line::Unwritten;
use trial_base::tally::Tally;
use trial_base::way::{Case, Way};

// Both refuse, with one number, or neither does.
pub fn same_refusal<T: Drop>(got: Result<T, Refusal>, want: Result<(), No>) -> bool
    ensures { IsTrue result → (IsOk got ↔ IsOk want) }
{
    got.map(|_| ()).map_err(u8::from) == want.map_err(u8::from)
}

// The rows after the first `from`, up to `to`: those that a call writes. They belong to the same readings of the log.
#[derive(Clone, Copy, PartialEq, Eq, Debug)]
pub struct Span {
    pub from: usize,
    pub to: usize,
}

impl Span {
    // A refused call writes none.
    pub fn written(answer: Result<(), No>, from: usize, to: usize) -> Span {
        match answer {
            Ok(()) => Span { from, to },
            Err(_) => Span { from: 0, to: 0 },
        }
    }

    // The readings that the rows belong to: a log of its own.
    pub fn part(self, x: &[u8]) -> &[u8] {
        x.get(self.from..self.to).unwrap_or(&[])
    }
}

// The second way to a column. A match, since a window's columns are gone over by `Column::ALL`, and a table of functions would be handed out.
pub fn second_way(column: Column, x: &[u8], i: usize) -> usize {
    match column {
        Column::Border => second::border(x, i),
        Column::Prefix => second::prefix(x, i),
        Column::Cover => second::cover(x, i),
        Column::Best => second::enhanced(x, i).best,
        Column::Count => second::enhanced(x, i).count,
    }
}

// What the row after r others is held to; none where it is not compared.
fn wanted<F: Fn(&[u8], usize) -> usize>(c: Case, s: Span, r: usize, second: F) -> Option<usize>
    requires { F.IsAlwaysCallable second }
{
    if r < s.from || s.to <= r {
        return Some(usize::from(c.way.before(r)));
    }
    let part = s.part(c.x);
    let i = r - s.from + 1;
    if c.way.picks(i, part.len()) {
        Some(second(part, i))
    } else {
        None
    }
}

pub fn compare<F: Fn(&[u8], usize) -> usize>(
    t: &mut Tally,
    c: Case,
    s: Span,
    call: Call,
    table: &[u16],
    second: F,
) -> Result<(), Unwritten>
    requires { F.IsAlwaysCallable second }
{
    for (r, entry) in table.iter().enumerate() {
        if let Some(want) = wanted(c, s, r, &second) {
            t.see(call, c.x, r + 1, usize::from(*entry) == want)?;
        }
    }
    Ok(())
}

fn summed(x: &[u8]) -> usize {
    (1..=x.len()).fold(0, |sum: usize, i| {
        sum.wrapping_add(finder::weighed_list(x, i).map_or(0, |w| usize::from(w.used)))
    })
}

// The weighed total of a log: by the second way where every row is compared, else the sum over the weighed lists.
pub fn total(way: Way, x: &[u8]) -> usize {
    if way.is_whole() {
        second::total(x)
    } else {
        summed(x)
    }
}
