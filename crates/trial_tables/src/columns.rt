// The four tables of a log.
use crate::rows::{Span, compare, same_refusal, second_way, total};
use refusals::Refusal;
use trial_base::calls::{Call, Column};
use trial_base::line::Unwritten;
use trial_base::tally::Tally;
use trial_base::way::Case;

// The border, prefix or cover table, as `ask` writes it.
pub fn plain<F: Fn(&[u8], &mut [u16]) -> Result<(), Refusal>>(
    t: &mut Tally,
    c: Case,
    column: Column,
    table: &mut [u16],
    ask: F,
) -> Result<(), Unwritten>
    requires { F.IsAlwaysCallable ask }
{
    let call = Call::Table(column);
    c.way.fill(table);
    let got = ask(c.x, table);
    let want = second_no::table(c.x.len(), table.len());
    t.see(call, c.x, 0, same_refusal(got, want))?;
    let s = Span::written(want, 0, c.x.len());
    compare(t, c, s, call, table, |x, i| second_way(column, x, i))
}

fn compare_enhanced(
    t: &mut Tally,
    c: Case,
    got: Result<u32, Refusal>,
    best: &[u16],
    count: &[u16],
) -> Result<(), Unwritten> {
    let want = second_no::table(c.x.len(), best.len().min(count.len()));
    let s = Span::written(want, 0, c.x.len());
    t.see(Call::Enhanced, c.x, 0, same_refusal(got, want))?;
    let total = total(c.way, s.part(c.x));
    t.see(Call::Enhanced, c.x, 0, got.unwrap_or(0) as usize == total)?;
    compare(
        t,
        c,
        s,
        Call::Table(Column::Best),
        best,
        |x, i| second_way(Column::Best, x, i),
    )?;
    compare(
        t,
        c,
        s,
        Call::Table(Column::Count),
        count,
        |x, i| second_way(Column::Count, x, i),
    )
}

pub fn enhanced(
    t: &mut Tally,
    c: Case,
    best: &mut [u16],
    count: &mut [u16],
) -> Result<(), Unwritten> {
    c.way.fill(best);
    c.way.fill(count);
    let got = finder::enhanced_table(c.x, best, count);
    compare_enhanced(t, c, got, best, count)
}
