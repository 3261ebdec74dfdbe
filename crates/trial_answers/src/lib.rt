// Holds each call that only answers, on one log, to the second way.
#![tactic(auto)]

use refusals::Refusal;
use second::Form;
use second_no::No;
use trial_base::calls::Call;
use trial_base::line::Unwritten;
use trial_base::tally::Tally;
use trial_base::way::Case;
use words::{BREAKDOWN_PLACES, Part, WEIGHED_PLACES};

// Both refuse, with one number, or neither does and the answer is `right`.
fn agree<T: Drop, F: FnOnce(T) -> bool>(
    got: Result<T, Refusal>,
    want: Result<(), No>,
    right: F,
) -> bool
    requires { F.IsAlwaysCallable right }
{
    match (got, want) {
        (Ok(answer), Ok(())) => right(answer),
        (Err(got), Err(want)) => u8::from(got) == u8::from(want),
        _ => false,
    }
}

fn form(p: Part) -> Form {
    Form {
        len: usize::from(p.len),
        k1: usize::from(p.k1),
        k2: usize::from(p.k2),
        k: usize::from(p.k),
    }
}

fn normal(x: &[u8], i: usize) -> bool {
    let want = second_no::prefix(x.len(), i);
    agree(
        finder::normal_form(x, i),
        want,
        |f| form(f) == second::normal(x, i),
    )
}

fn same_places(x: &[u8], i: usize, lens: [u16; WEIGHED_PLACES]) -> bool {
    let mut q = i;
    for len in lens {
        q = second::weighed_below(x, i, q);
        if usize::from(len) != q {
            return false;
        }
    }
    true
}

fn weighed(x: &[u8], i: usize) -> bool {
    let want = second_no::prefix(x.len(), i);
    agree(finder::weighed_list(x, i), want, |w| {
        w.number == 0
            && usize::from(w.used) == second::weighed_used(x, i)
            && usize::from(w.limit) == second::limit(i)
            && same_places(x, i, w.lens)
    })
}

// Number and limit of a weighed list, and that the limit is kept.
fn limit(x: &[u8], i: usize) -> bool {
    let want = second_no::prefix(x.len(), i);
    agree(finder::weighed_list(x, i), want, |w| {
        w.number == 0 && usize::from(w.limit) == second::limit(i) && w.used <= w.limit
    })
}

fn at_place(t: &mut Tally, c: Case, i: usize) -> Result<(), Unwritten> {
    if c.way.picks(i, c.x.len()) {
        t.see(Call::Normal, c.x, i, normal(c.x, i))?;
        t.see(Call::Weighed, c.x, i, weighed(c.x, i))
    } else {
        t.see(Call::Weighed, c.x, i, limit(c.x, i))
    }
}

// Normal forms and weighed lists at every place, those that are refused too.
fn at_places(t: &mut Tally, c: Case) -> Result<(), Unwritten> {
    at_place(t, c, usize::MAX)?;
    for i in 0..=c.x.len().saturating_add(1) {
        at_place(t, c, i)?;
    }
    Ok(())
}

fn covers(x: &[u8], i: usize, q: usize) -> bool {
    let want = second_no::cover_test(x.len(), i, q);
    agree(
        finder::cover_test(x, i, q),
        want,
        |yes| yes == second::covers(x, i, q),
    )
}

fn cover_test(t: &mut Tally, c: Case, i: usize, q: usize) -> Result<(), Unwritten> {
    if c.way.picks(q, i) {
        t.see(Call::CoverTest, c.x, i, covers(c.x, i, q))?;
    }
    Ok(())
}

fn cover_tests_at(t: &mut Tally, c: Case, i: usize) -> Result<(), Unwritten> {
    if !c.way.picks(i, c.x.len()) {
        return Ok(());
    }
    cover_test(t, c, i, usize::MAX)?;
    for q in 0..=c.x.len().saturating_add(1) {
        cover_test(t, c, i, q)?;
    }
    Ok(())
}

// Cover tests of every pattern at every place, those that are refused too.
fn cover_tests(t: &mut Tally, c: Case) -> Result<(), Unwritten> {
    cover_tests_at(t, c, usize::MAX)?;
    for i in 0..=c.x.len().saturating_add(1) {
        cover_tests_at(t, c, i)?;
    }
    Ok(())
}

fn same_parts(x: &[u8], parts: [Part; BREAKDOWN_PLACES]) -> bool {
    parts
        .iter()
        .enumerate()
        .all(|(level, p)| form(*p) == second::part(x, level))
}

fn breakdown(x: &[u8]) -> bool {
    let want = second_no::breakdown(x.len());
    agree(finder::breakdown(x), want, |b| {
        b.number == 0 && usize::from(b.used) == second::parts_used(x) && same_parts(x, b.parts)
    })
}

fn best_pattern(x: &[u8]) -> bool {
    let best = second::enhanced(x, x.len()).best;
    let want = second_no::best_pattern(x.len(), best);
    let number = want.map_or_else(u8::from, |()| 0);
    agree(finder::pattern(x), want, |len| len == best)
        && finder::best_pattern_number(x) == number
        && finder::best_pattern(x) == &x[..best]
}

fn ceiling(x: &[u8]) -> bool {
    let want = second_no::breakdown(x.len());
    agree(finder::ceiling(x), want, |c| {
        c.number == 0
            && c.held == u8::from(second::held(x))
            && usize::from(c.ceiling) == second::ceiling(x)
    })
}

// The ceiling alone, of a log for which every call would take too long.
pub fn at_ceiling(t: &mut Tally, x: &[u8]) -> Result<(), Unwritten> {
    t.see(Call::Ceiling, x, 0, ceiling(x))
}

// Every call that only answers.
pub fn all(t: &mut Tally, c: Case) -> Result<(), Unwritten> {
    at_places(t, c)?;
    cover_tests(t, c)?;
    t.see(Call::Breakdown, c.x, 0, breakdown(c.x))?;
    t.see(Call::BestPattern, c.x, 0, best_pattern(c.x))?;
    at_ceiling(t, c.x)
}
