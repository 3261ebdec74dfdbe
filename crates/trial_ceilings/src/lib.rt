// Holds what is said of the ceiling to the second way, on logs that are at it but for two readings at most.
#![tactic(auto)]

ghost use Rattle.std.specs.Prelude.{◌<◌, ◌^◌};

use trial_base::line::Unwritten;
use trial_base::tally::Tally;

const MOST: usize = 124;

const LONGEST: usize = 4097;

// The reading after the first i is 19 and the one after the first j is 21; where they are one, it is 21.
fn with_two(t: &mut Tally, x: &mut [u8], i: usize, j: usize) -> Result<(), Unwritten> {
    if x.len() <= i || x.len() <= j {
        return Ok(());
    }
    x[i] = 19;
    x[j] = 21;
    t.more();
    trial_answers::at_ceiling(t, x)
}

// A log of n readings, in room for ROOM.
fn log<const ROOM: usize>(t: &mut Tally, n: usize, i: usize, j: usize) -> Result<(), Unwritten>
    requires { ROOM < 2 ^ 32 }
{
    let mut x = [20u8; ROOM];
    if ROOM < n {
        return Ok(());
    }
    with_two(t, &mut x[..n], i, j)
}

// The second of the two at every place from the first on.
fn second_from(t: &mut Tally, n: usize, i: usize) -> Result<(), Unwritten> {
    for j in i..n {
        log::<MOST>(t, n, i, j)?;
    }
    Ok(())
}

fn of_length(t: &mut Tally, n: usize) -> Result<(), Unwritten> {
    for i in 0..n {
        second_from(t, n, i)?;
    }
    Ok(())
}

fn flat(t: &mut Tally, n: usize) -> Result<(), Unwritten> {
    let x = [20u8; MOST];
    if MOST < n {
        return Ok(());
    }
    t.more();
    trial_answers::at_ceiling(t, &x[..n])
}

// Flat logs, and logs with two others at all places, of every length to twice sixty and a few more.
pub fn all(t: &mut Tally) -> Result<(), Unwritten> {
    for n in 0..=MOST {
        flat(t, n)?;
        of_length(t, n)?;
    }
    t.end("logs")
}

// With one other, so many places before the end.
pub fn long(t: &mut Tally) -> Result<(), Unwritten> {
    for back in 1..=62 {
        for n in [4095, 4096, 4097] {
            log::<LONGEST>(t, n, n - back, n - back)?;
        }
    }
    t.end("logs")
}
