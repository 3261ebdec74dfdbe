// Holds the file reader to the second way.
#![tactic(auto)]

use trial_base::calls::Call;
use trial_base::line::Unwritten;
use trial_base::tally::Tally;

const BYTES: usize = 4104;

pub fn compare(t: &mut Tally, f: &[u8]) -> Result<(), Unwritten> {
    let want = second_no::plant::symbols(f);
    let number = want.map_or_else(u8::from, |_| 0);
    let symbols = want.unwrap_or(&[]);
    let same = logfile::read(f).map_err(u8::from) == want.map_err(u8::from);
    t.see(Call::File, f, 0, same && logfile::number(f) == number)?;
    t.see(Call::File, f, 1, logfile::symbols(f) == symbols)
}

// Every symbol is the ceiling's, but for the last.
fn write(f: &mut [u8], n: usize, last: u8) {
    let header = [1, (n / 256 % 256) as u8, (n % 256) as u8];
    for (byte, b) in f.iter_mut().zip(header) {
        *byte = b;
    }
    if let Some(end) = f.last_mut() {
        *end = last;
    }
}

// A file of so many bytes.
fn file(t: &mut Tally, n: usize, bytes: usize, last: u8) -> Result<(), Unwritten> {
    let mut f = [20u8; BYTES];
    if BYTES < bytes {
        return Ok(());
    }
    let f = &mut f[..bytes];
    write(f, n, last);
    t.more();
    compare(t, f)
}

// With a symbol too few, as many as the header says, and one too many.
fn about(t: &mut Tally, n: usize, symbols: usize, last: u8) -> Result<(), Unwritten> {
    for more in 2..=4 {
        file(t, n, symbols.saturating_add(more), last)?;
    }
    Ok(())
}

fn last_symbols(t: &mut Tally, n: usize, symbols: usize) -> Result<(), Unwritten> {
    for last in [0, 20, 21, 255] {
        about(t, n, symbols, last)?;
    }
    Ok(())
}

// Files of up to the greatest length, and just past it.
pub fn long(t: &mut Tally) -> Result<(), Unwritten> {
    for n in [1, 255, 256, 4095, 4096, 4097] {
        last_symbols(t, n, n)?;
    }
    last_symbols(t, 65535, 4096)?;
    t.end("files")
}
