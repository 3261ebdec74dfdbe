// The list of covers.
use crate::rows::{Span, same_refusal};
use refusals::Refusal;
use trial_base::calls::Call;
use trial_base::line::Unwritten;
use trial_base::tally::Tally;
use trial_base::way::{Case, Way};

// The cover test answers yes.
pub fn accepts(x: &[u8], i: usize, q: usize) -> bool {
    finder::cover_test(x, i, q) == Ok(true)
}

// The first length above q that the cover test accepts.
fn accepted_after(x: &[u8], q: usize) -> Option<usize> {
    (q.saturating_add(1)..=x.len()).find(|p| accepts(x, x.len(), *p))
}

// The next of the list of covers: by the second way where every row is compared, else by the cover test.
fn cover_after(way: Way, x: &[u8], q: usize) -> Option<usize> {
    if way.is_whole() {
        second::cover_after(x, x.len(), q)
    } else {
        accepted_after(x, q)
    }
}

// The row after r others of a list of so many covers, where the second way has this one next, or none.
fn listed(way: Way, next: Option<usize>, used: usize, r: usize, entry: u16) -> bool {
    match next {
        Some(q) => r < used && usize::from(entry) == q,
        None => used <= r && entry == way.before(r),
    }
}

// `of` is the readings that the list is of: all of the log, or none where the call is refused.
fn compare_rows(
    t: &mut Tally,
    c: Case,
    of: &[u8],
    used: usize,
    table: &[u16],
) -> Result<(), Unwritten> {
    let mut next = Some(0);
    for (r, entry) in table.iter().enumerate() {
        next = next.and_then(|q| cover_after(c.way, of, q));
        t.see(
            Call::CoverList,
            c.x,
            r + 1,
            listed(c.way, next, used, r, *entry),
        )?;
    }
    Ok(())
}

fn compare_answer(
    t: &mut Tally,
    c: Case,
    got: Result<u16, Refusal>,
    table: &[u16],
) -> Result<(), Unwritten> {
    let want = second_no::table(c.x.len(), table.len());
    let of = Span::written(want, 0, c.x.len()).part(c.x);
    let used = got.map_or(0, usize::from);
    t.see(Call::CoverList, c.x, 0, same_refusal(got, want))?;
    t.see(Call::CoverList, c.x, 0, used <= of.len())?;
    compare_rows(t, c, of, used, table)
}

pub fn covers_of(t: &mut Tally, c: Case, table: &mut [u16]) -> Result<(), Unwritten> {
    c.way.fill(table);
    let got = finder::cover_list(c.x, table);
    compare_answer(t, c, got, table)
}
