// Holds windows of one log to the second way.
#![tactic(auto)]

ghost use Rattle.std.specs.Prelude.{◌≤◌};

use refusals::Refusal;
use trial_base::calls::{Call, Column};
use trial_base::line::Unwritten;
use trial_base::tally::Tally;
use trial_base::way::Case;
use trial_tables::ROOM;
use trial_tables::rows::{Span, compare, same_refusal, second_way, total};

// The finder is lent five tables one by one, as C lends them, and five parts of one array of tables can't be lent at once (the borrow check doesn't
// cover it): so they stay five slices up to the call, and are an array after it.
fn asked(
    c: Case,
    a: usize,
    m: usize,
    border: &mut [u16],
    prefix: &mut [u16],
    cover: &mut [u16],
    best: &mut [u16],
    count: &mut [u16],
) -> Result<u32, Refusal> {
    c.way.fill(border);
    c.way.fill(prefix);
    c.way.fill(cover);
    c.way.fill(best);
    c.way.fill(count);
    finder::window(c.x, a, m, border, prefix, cover, best, count)
}

fn compare_answer(
    t: &mut Tally,
    c: Case,
    a: usize,
    m: usize,
    got: Result<u32, Refusal>,
    tables: [&[u16]; 5],
) -> Result<(), Unwritten> {
    let room = tables.iter().map(|table| table.len()).min().unwrap_or(0);
    let want = second_no::window(c.x.len(), a, m, room);
    let s = Span::written(want, a, a.wrapping_add(m));
    t.see(Call::Window, c.x, 0, same_refusal(got, want))?;
    let total = total(c.way, s.part(c.x));
    t.see(Call::Window, c.x, 0, got.unwrap_or(0) as usize == total)?;
    for (column, table) in Column::ALL.into_iter().zip(tables) {
        compare(
            t,
            c,
            s,
            Call::WindowTable(column),
            table,
            |x, i| second_way(column, x, i),
        )?;
    }
    Ok(())
}

// How many rows the five tables have: more than the window needs, more but for one table that is a row too short, or exactly as many.
#[derive(Clone, Copy, PartialEq, Eq, Debug)]
pub enum Rooms {
    More,
    Short(Column),
    Exact,
}

impl Rooms {
    // Of one table, where the window ends at `end` in a log of n readings.
    fn rows(self, column: Column, n: usize, end: usize) -> usize
        ensures { result ≤ ROOM }
    {
        let rows = match self {
            Rooms::Exact => end,
            Rooms::Short(short) if short == column => end.saturating_sub(1),
            Rooms::Short(_) | Rooms::More => n.wrapping_add(2),
        };
        rows.min(ROOM)
    }
}

// A window of m readings after the first a.
pub fn with_rooms(
    t: &mut Tally,
    c: Case,
    a: usize,
    m: usize,
    rooms: Rooms,
) -> Result<(), Unwritten> {
    let [mut border, mut prefix, mut cover, mut best, mut count] = [[0u16; ROOM]; 5];
    let n = c.x.len();
    let end = a.wrapping_add(m);
    let border = &mut border[..rooms.rows(Column::Border, n, end)];
    let prefix = &mut prefix[..rooms.rows(Column::Prefix, n, end)];
    let cover = &mut cover[..rooms.rows(Column::Cover, n, end)];
    let best = &mut best[..rooms.rows(Column::Best, n, end)];
    let count = &mut count[..rooms.rows(Column::Count, n, end)];
    let got = asked(c, a, m, border, prefix, cover, best, count);
    compare_answer(t, c, a, m, got, [border, prefix, cover, best, count])
}

// The window with tables of each size.
pub fn at(t: &mut Tally, c: Case, a: usize, m: usize) -> Result<(), Unwritten> {
    with_rooms(t, c, a, m, Rooms::More)?;
    for column in Column::ALL {
        with_rooms(t, c, a, m, Rooms::Short(column))?;
    }
    with_rooms(t, c, a, m, Rooms::Exact)
}
