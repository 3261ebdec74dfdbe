// All logs of a length over a few letters.
use trial_base::line::Unwritten;
use trial_base::logs::{how_many, spell};
use trial_base::tally::Tally;
use trial_base::way::Case;

// What stands in a table before a call: numbers that no answer has, or such as answers have.
pub const STRANGE: u16 = 50000;

const SMALL: u16 = 0;

fn one_less(n: usize) -> usize {
    n.saturating_sub(1)
}

fn two_more(n: usize) -> usize {
    n.wrapping_add(2)
}

// The left covers and left seeds, with tables that fit, that are longer and that are too short.
fn lefts(t: &mut Tally, c: Case) -> Result<(), Unwritten> {
    let n = c.x.len();
    trial_left::with_rooms(t, c, n, two_more(n))?;
    trial_left::with_rooms(t, c, two_more(n), n)?;
    trial_left::with_rooms(t, c, one_less(n), n)?;
    trial_left::with_rooms(t, c, n, one_less(n))
}

// Every call but windows, with such tables.
pub fn every_call(t: &mut Tally, c: Case) -> Result<(), Unwritten> {
    let n = c.x.len();
    t.more();
    trial_tables::with_rooms(t, c, n, two_more(n))?;
    trial_tables::with_rooms(t, c, two_more(n), n)?;
    trial_tables::with_rooms(t, c, one_less(n), n)?;
    trial_tables::enhanced(t, c, n, one_less(n))?;
    lefts(t, c)?;
    trial_answers::all(t, c)
}

// At every row, with tables that held strange numbers, or small ones.
pub fn held_strange(t: &mut Tally, x: &[u8]) -> Result<(), Unwritten> {
    every_call(t, Case::whole(STRANGE, x))
}

pub fn held_small(t: &mut Tally, x: &[u8]) -> Result<(), Unwritten> {
    every_call(t, Case::whole(SMALL, x))
}

// The window of m after a, and two whose sum comes round to a where it is made in a machine word.
fn three_windows(t: &mut Tally, x: &[u8], a: usize, m: usize) -> Result<(), Unwritten> {
    let c = Case::whole(STRANGE, x);
    let far = a.wrapping_sub(m);
    trial_windows::at(t, c, a, m)?;
    trial_windows::at(t, c, far, m)?;
    trial_windows::at(t, c, m, far)
}

fn windows_after(t: &mut Tally, x: &[u8], a: usize) -> Result<(), Unwritten> {
    for m in 0..two_more(x.len()) {
        three_windows(t, x, a, m)?;
    }
    Ok(())
}

pub fn windows(t: &mut Tally, x: &[u8]) -> Result<(), Unwritten> {
    t.more();
    for a in 0..two_more(x.len()) {
        windows_after(t, x, a)?;
    }
    Ok(())
}

pub fn order(t: &mut Tally, x: &[u8]) -> Result<(), Unwritten> {
    t.more();
    trial_order::all(t, x)
}

fn file(t: &mut Tally, f: &[u8]) -> Result<(), Unwritten> {
    t.more();
    trial_files::compare(t, f)
}

fn numbered<F: Fn(&mut Tally, &[u8]) -> Result<(), Unwritten>>(
    t: &mut Tally,
    letters: &[u8],
    n: usize,
    v: usize,
    try_one: F,
) -> Result<(), Unwritten>
    requires { F.IsAlwaysCallable try_one }
{
    let mut x = [0u8; 16];
    if 16 < n {
        return Ok(());
    }
    let x = &mut x[..n];
    spell(x, letters, v);
    try_one(t, x)
}

fn of_length<F: Fn(&mut Tally, &[u8]) -> Result<(), Unwritten>>(
    t: &mut Tally,
    letters: &[u8],
    n: usize,
    try_one: F,
) -> Result<(), Unwritten>
    requires { F.IsAlwaysCallable try_one }
{
    for v in 0..how_many(letters, n) {
        numbered(t, letters, n, v, &try_one)?;
    }
    Ok(())
}

// Tries all logs of 1 to `most` letters.
pub fn logs<F: Fn(&mut Tally, &[u8]) -> Result<(), Unwritten>>(
    t: &mut Tally,
    letters: &[u8],
    most: usize,
    try_one: F,
) -> Result<(), Unwritten>
    requires { F.IsAlwaysCallable try_one }
{
    for n in 1..=most {
        of_length(t, letters, n, &try_one)?;
    }
    t.end("logs")
}

// Tries all files of up to `most` bytes.
pub fn files(t: &mut Tally, letters: &[u8], most: usize) -> Result<(), Unwritten> {
    for n in 0..=most {
        of_length(t, letters, n, file)?;
    }
    t.end("files")
}
