// Long logs. The second way is too slow to be taken at each of their rows.
use crate::small::{STRANGE, every_call};
use trial_base::line::Unwritten;
use trial_base::logs::Kind;
use trial_base::tally::Tally;
use trial_base::way::{Case, Way};

fn first_of(x: &[u8], n: usize) -> &[u8] {
    x.get(..n).unwrap_or(&[])
}

fn some_windows(t: &mut Tally, c: Case) -> Result<(), Unwritten> {
    for (a, m) in [(1000, 150), (3946, 150), (4095, 1), (3947, 150)] {
        trial_windows::at(t, c, a, m)?;
    }
    Ok(())
}

// A log of 4096 readings of this kind, its first hundred as a log of their own, and some windows.
pub fn of(t: &mut Tally, kind: Kind) -> Result<(), Unwritten> {
    t.say(
        ", 4096 readings: border, prefix and limit at every row, the rest to row 400 and at every 199th, list of covers and total only by the cover tests and weighed lists of the finder itself; the first 100 and four windows in full:",
    )?;
    let mut x = [0u8; 4096];
    kind.write(&mut x);
    let way = Way {
        was: STRANGE,
        first: 400,
        every: 199,
    };
    every_call(t, Case::whole(STRANGE, first_of(&x, 100)))?;
    every_call(t, Case { way, x: &x })?;
    some_windows(t, Case::whole(STRANGE, &x))?;
    t.end("logs")
}

fn edge(t: &mut Tally, x: &[u8], n: usize) -> Result<(), Unwritten> {
    let way = Way {
        was: STRANGE,
        first: 20,
        every: 1999,
    };
    let c = Case {
        way,
        x: first_of(x, n),
    };
    every_call(t, c)?;
    trial_windows::at(t, c, 0, n)?;
    trial_windows::at(t, c, n, 1)
}

// The least and the greatest lengths, and those just past them.
pub fn edges(t: &mut Tally) -> Result<(), Unwritten> {
    let mut x = [0u8; 4097];
    Kind::Cycle.write(&mut x);
    for n in [0, 1, 4096, 4097] {
        edge(t, &x, n)?;
    }
    t.end("logs")
}
