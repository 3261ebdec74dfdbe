// Floor 4: from a text of readings in whole ppm, one a line, to the plant's file.
#![tactic(auto)]

ghost use Rattle.std.specs.Prelude.{◌≡◌, ◌≤◌, length, take, IfOk};
ghost use Rattle.ppm_text.specs.Texts.{Made};
ghost use Rattle.ppm_text.specs.States.{After};

use ppm_text::{Fault, State};
use std::error::Error;
use std::io::Read;
use std::{fmt, io};

// How much is asked for at once.
const PIECE: usize = 4096;

// Why there is no file: the input cannot be read, or its text has a fault, which was found at this line.
#[derive(Clone, Copy, Debug, PartialEq, Eq)]
pub enum Wrong {
    Input,
    Text { fault: Fault, line: u64 },
}

impl From<io::Error> for Wrong {
    fn from(_e: io::Error) -> Wrong {
        Wrong::Input
    }
}

impl fmt::Display for Wrong {
    fn fmt<W: fmt::Write>(&self, f: &mut fmt::Formatter<W>) -> fmt::Result {
        match *self {
            Wrong::Input => f.write_str("the input cannot be read"),
            Wrong::Text {
                fault: Fault::Empty,
                ..
            } => write!(f, "{}", Fault::Empty),
            Wrong::Text { fault, line } => write!(f, "line {line}: {fault}"),
        }
    }
}

impl Error for Wrong {}

impl Wrong {
    // Writes it as a line: the text of `Display`. The number in it, and what stands on either side, are writes of their own, and where one fails those before it stand.
    pub fn say(self, to: &impl Print) -> io::Result<()> {
        match self {
            Wrong::Input
            | Wrong::Text {
                fault: Fault::Empty,
                ..
            } => to.println(self),
            Wrong::Text { fault, line } => {
                to.print("line ")?;
                to.print(line)?;
                to.print(": ")?;
                to.print(fault)?;
                to.print("\n")
            }
        }
    }
}

// Reads to the end. A proved loop has to end, and nothing says that an input does: so the loop counts its turns, to a number that no run reaches.
fn read_text(from: &mut impl Read, file: &mut [u8; logfile::LONGEST_FILE]) -> Result<State, Wrong>
    ensures { IfOk result (λ s. After s file.new) }
{
    let mut buf = [0u8; PIECE];
    let mut s = State::new();
    for _ in 0..u64::MAX {
        match from.read(&mut buf)? {
            0 => return Ok(s),
            n => s = s.feed(&buf[..n], file),
        }
    }
    Err(Wrong::Input)
}

// Reads a text to its end and makes its file, at the front of the room. Answers how long it is.
pub fn make_file(
    from: &mut impl Read,
    room: &mut [u8; logfile::LONGEST_FILE],
) -> Result<usize, Wrong>
    ensures within { IfOk result (λ n. n ≤ length room.new) }
    ensures made { IfOk result (λ n. Made (take n room.new)) }
{
    let s = read_text(from, room)?.end_text(room);
    match s.fault {
        None => Ok(3 + s.readings),
        Some(fault) => Err(Wrong::Text {
            fault,
            line: s.number,
        }),
    }
}

// The same, with the file as that part of the room. No clause here can say what the room holds once the part is let go: `make_file` says it.
pub fn make_part<'a>(
    from: &mut impl Read,
    room: &'a mut [u8; logfile::LONGEST_FILE],
) -> Result<&'a [u8], Wrong>
    ensures made { IfOk result (λ file. Made file.now) }
    ensures place { IfOk result (λ file. file.ref_ptr ≡ room.entry.ref_ptr) }
{
    let n = make_file(from, room)?;
    Ok(&room[..n])
}

// Writes a file: of some text, and one that the plant's reader accepts.
fn put(rt: &(impl Print + Eprint), file: &[u8])
    requires { Made file.now }
{
    output::write(rt, file);
}

// From a text of readings to the plant's file. What is wrong is said on standard error.
pub fn run(rt: &HostRuntime, from: &mut impl Read) {
    let mut room = [0u8; logfile::LONGEST_FILE];
    match make_part(from, &mut room) {
        Ok(file) => put(rt, file),
        Err(wrong) => {
            let _ = wrong.say(&rt.stderr());
        }
    }
}
