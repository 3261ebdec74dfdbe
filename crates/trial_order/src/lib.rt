// Holds the answers of the cover test on one log to the four sentences of the order among patterns. The sentences speak of the answers alone, so no second
// way is asked. i, q and r are lengths of prefixes.
#![tactic(auto)]

use trial_base::calls::Call;
use trial_base::line::Unwritten;
use trial_base::logs::Kind;
use trial_base::tally::Tally;
use trial_tables::list::accepts;

// 1. Each prefix covers itself.
fn itself(t: &mut Tally, x: &[u8], i: usize) -> Result<(), Unwritten> {
    t.see(Call::Order(1), x, i, accepts(x, i, i))
}

// 2. Two prefixes that cover each other have equal length. Compared where q is shorter than r: not both do.
fn each_other(t: &mut Tally, x: &[u8], q: usize, r: usize) -> Result<(), Unwritten> {
    if q < r {
        let both = accepts(x, r, q) && accepts(x, q, r);
        t.see(Call::Order(2), x, r, !both)?;
    }
    Ok(())
}

// 3. Covering carries over from first to second to third. Compared where q covers r and r covers i; the caller has seen that r does.
fn through(t: &mut Tally, x: &[u8], q: usize, r: usize, i: usize) -> Result<(), Unwritten> {
    if accepts(x, r, q) {
        t.see(Call::Order(3), x, i, accepts(x, i, q))?;
    }
    Ok(())
}

// 4. Of any two covers of one prefix, the shorter covers the longer. Compared where q and r cover i; the caller has seen that r does.
fn nested(t: &mut Tally, x: &[u8], q: usize, r: usize, i: usize) -> Result<(), Unwritten> {
    if q <= r && accepts(x, i, q) {
        t.see(Call::Order(4), x, i, accepts(x, r, q))?;
    }
    Ok(())
}

// What follows from it that r covers i.
fn with_cover(t: &mut Tally, x: &[u8], r: usize, i: usize) -> Result<(), Unwritten> {
    for q in 1..=x.len() {
        through(t, x, q, r, i)?;
        nested(t, x, q, r, i)?;
    }
    Ok(())
}

fn pair(t: &mut Tally, x: &[u8], r: usize, i: usize) -> Result<(), Unwritten> {
    each_other(t, x, r, i)?;
    if accepts(x, i, r) {
        with_cover(t, x, r, i)?;
    }
    Ok(())
}

fn prefix(t: &mut Tally, x: &[u8], i: usize) -> Result<(), Unwritten> {
    itself(t, x, i)?;
    for r in 1..=x.len() {
        pair(t, x, r, i)?;
    }
    Ok(())
}

// All four, at every prefix and every pattern, the longer ones too.
pub fn all(t: &mut Tally, x: &[u8]) -> Result<(), Unwritten> {
    for i in 1..=x.len() {
        prefix(t, x, i)?;
    }
    Ok(())
}

// A log of each kind that has three cycles of 40.
pub fn kinds(t: &mut Tally) -> Result<(), Unwritten> {
    for kind in Kind::ALL {
        let mut x = [0u8; 120];
        kind.write(&mut x);
        t.more();
        all(t, &x)?;
    }
    t.end("logs")
}
