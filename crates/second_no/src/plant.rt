// The plant's file.
ghost use Rattle.std.specs.Prelude.{◌≡◌, ◌+◌, length, IfOk};

use crate::{No, breakdown};

const CEILING: u8 = 20;

// The symbols of a file, or why it is refused.
pub fn symbols(f: &[u8]) -> Result<&[u8], No>
    ensures { IfOk result (λ s. length s.now + 3 ≡ length f.now) }
{
    if f.len() < 3 {
        return Err(No::File);
    }
    let (header, symbols) = f.split_at(3);
    if header[0] != 1 {
        return Err(No::Version);
    }
    let n = usize::from(header[1]) * 256 + usize::from(header[2]);
    breakdown(n)?;
    if symbols.len() != n {
        return Err(No::File);
    }
    if symbols.iter().any(|s| CEILING < *s) {
        Err(No::Symbol)
    } else {
        Ok(symbols)
    }
}
