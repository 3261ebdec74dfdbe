// What each call refuses, worked out a second time: the first refusal that applies.
// n is the log's length, room the length of the shortest table that is lent.
#![tactic(auto)]

pub mod plant;

const LONGEST: usize = 4096;

// Why a call is refused, with the scope's numbers.
#[derive(Clone, Copy, PartialEq, Eq, Debug)]
pub enum No {
    Empty = 1,
    Long = 2,
    Place = 3,
    Short = 4,
    Pattern = 5,
    Version = 6,
    File = 7,
    Symbol = 8,
}

impl From<No> for u8 {
    fn from(no: No) -> u8 {
        no as u8
    }
}

// The breakdown. Every other call begins with the same two.
pub fn breakdown(n: usize) -> Result<(), No> {
    match n {
        0 => Err(No::Empty),
        1..=LONGEST => Ok(()),
        _ => Err(No::Long),
    }
}

// The four tables and the list of covers.
pub fn table(n: usize, room: usize) -> Result<(), No> {
    breakdown(n)?;
    if room < n { Err(No::Short) } else { Ok(()) }
}

// The normal form and the weighed list at i.
pub fn prefix(n: usize, i: usize) -> Result<(), No> {
    breakdown(n)?;
    if i == 0 || n < i {
        Err(No::Place)
    } else {
        Ok(())
    }
}

pub fn cover_test(n: usize, i: usize, q: usize) -> Result<(), No> {
    prefix(n, i)?;
    if q == 0 || i < q {
        Err(No::Place)
    } else {
        Ok(())
    }
}

// The best pattern, where Best at n is `best`.
pub fn best_pattern(n: usize, best: usize) -> Result<(), No> {
    breakdown(n)?;
    if best == 0 { Err(No::Pattern) } else { Ok(()) }
}

// A window of m readings after the first a. What is left after the first a says whether a + m is above n, with no sum to wrap.
pub fn window(n: usize, a: usize, m: usize, room: usize) -> Result<(), No> {
    breakdown(n)?;
    if m == 0 || n < a || n - a < m {
        return Err(No::Place);
    }
    if room < a + m { Err(No::Short) } else { Ok(()) }
}
