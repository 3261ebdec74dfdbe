// Holds the left covers and left seeds of one log to the second way.
#![tactic(auto)]

use refusals::Refusal;
use second::Worth;
use trial_base::calls::{Call, Left};
use trial_base::line::Unwritten;
use trial_base::tally::Tally;
use trial_base::way::Case;
use trial_tables::ROOM;
use trial_tables::rows::{Span, compare, same_refusal};

fn compare_both<S: Fn(&[u8], usize) -> Worth>(
    t: &mut Tally,
    c: Case,
    left: Left,
    got: Result<(), Refusal>,
    best: &[u16],
    count: &[u16],
    second: S,
) -> Result<(), Unwritten>
    requires { S.IsAlwaysCallable second }
{
    let want = second_no::table(c.x.len(), best.len().min(count.len()));
    let s = Span::written(want, 0, c.x.len());
    t.see(Call::Left(left), c.x, 0, same_refusal(got, want))?;
    compare(
        t,
        c,
        s,
        Call::LeftBest(left),
        best,
        |x, i| second(x, i).best,
    )?;
    compare(
        t,
        c,
        s,
        Call::LeftCount(left),
        count,
        |x, i| second(x, i).count,
    )
}

// One of the two calls, as `ask` writes it, with tables of a and of b rows. Both rooms are asked here, and not by `trial_tables`, since the edit
// second_room_not_asked tries that they are.
fn one<A: Fn(&[u8], &mut [u16], &mut [u16]) -> Result<(), Refusal>, S: Fn(&[u8], usize) -> Worth>(
    t: &mut Tally,
    c: Case,
    left: Left,
    a: usize,
    b: usize,
    ask: A,
    second: S,
) -> Result<(), Unwritten>
    requires asked { A.IsAlwaysCallable ask }
    requires held { S.IsAlwaysCallable second }
{
    let mut best = [0u16; ROOM];
    let mut count = [0u16; ROOM];
    if ROOM < a {
        return t.see(Call::Left(left), c.x, 0, false);
    }
    if ROOM < b {
        return t.see(Call::Left(left), c.x, 0, false);
    }
    let best = &mut best[..a];
    let count = &mut count[..b];
    c.way.fill(best);
    c.way.fill(count);
    let got = ask(c.x, best, count);
    compare_both(t, c, left, got, best, count, second)
}

// Both calls.
pub fn with_rooms(t: &mut Tally, c: Case, a: usize, b: usize) -> Result<(), Unwritten> {
    one(
        t,
        c,
        Left::Covers,
        a,
        b,
        finder::left_covers,
        second_left::cover,
    )?;
    one(
        t,
        c,
        Left::Seeds,
        a,
        b,
        finder::left_seeds,
        second_left::seed,
    )
}
