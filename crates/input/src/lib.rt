// Floor 4: what a program is given: bytes to read, and arguments that name files to say something of.
#![tactic(auto)]

ghost use Rattle.std.specs.Prelude.{◌≤◌, length, IfSome};

use std::env::{Env, FillError};
use std::fs::{File, Files};
use std::io::Read;

// The room for an argument: any path fits.
pub const ARGUMENT: usize = 4096;

// Reads until the buffer is full, the input ends or a read fails, and answers how many bytes it put at the buffer's start.
// A loop of its own: `read_exact` would not say how many bytes a short input has.
pub fn read_full(from: &mut impl Read, buffer: &mut [u8]) -> usize
    ensures { result ≤ length buffer.new }
{
    let mut done = 0;
    while done < buffer.len() {
        match from.read(&mut buffer[done..]) {
            Ok(n) if 0 < n => done += n,
            _ => break,
        }
    }
    done
}

// The file that an argument names, where it can be opened.
pub fn open<R: Files>(rt: &R, path: &[u8]) -> Option<R::File> {
    let name = str::from_utf8(path).ok()?;
    File::open(rt, name).ok()
}

// Argument k, put into the buffer: no bytes where it does not fit; nothing where there is no such argument.
pub fn argument<'a>(rt: &impl Env, k: usize, buffer: &'a mut [u8]) -> Option<&'a [u8]>
    ensures { IfSome result (λ s. length s.now ≤ length buffer.old) }
{
    match rt.arg(k, buffer) {
        Ok(n) => Some(&buffer[..n]),
        Err(FillError::TooLong) => Some(b""),
        Err(FillError::NotPresent) => None,
    }
}

// Goes over the files that the arguments name, in their order: writes each name and what stands behind it, and then `say` is to write of the file. One
// that cannot be opened is called missing. Ends with the arguments, or where a piece cannot be written, which `say` tells by answering no.
pub fn each_file<R: Env + Files + Print + Eprint, F: FnMut(&mut R::File) -> bool>(
    rt: &R,
    behind: &[u8],
    mut say: F,
)
    requires { F.IsAlwaysCallable say }
{
    let mut path = [0u8; ARGUMENT];
    for k in 1..usize::MAX {
        let Some(name) = argument(rt, k, &mut path) else {
            return;
        };
        let said = output::write(rt, name)
            && output::write(rt, behind)
            && match open(rt, name) {
                Some(mut file) => say(&mut file),
                None => output::write(rt, b"missing\n"),
            };
        if !said {
            return;
        }
    }
}
