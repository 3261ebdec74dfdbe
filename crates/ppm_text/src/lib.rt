// Floor 2: a text of readings, taken byte by byte, and the plant's file that is made of it.
#![tactic(auto)]

ghost use Rattle.std.specs.Prelude.{◌≡◌, ◌≤◌, [], ◌∷◌, Ok, Some};
ghost use Rattle.words.specs.Refusals.{longest};
ghost use Rattle.ppm_line.specs.Lines.{says_after};
ghost use Rattle.ppm_text.specs.Texts.{fault_of};

use ppm_line::{Line, LineFault};
use std::fmt;

// The room for a file: its header and the longest log.
pub const ROOM: usize = 3 + words::LONGEST;

// What is wrong with a text.
#[derive(Clone, Copy, Debug, PartialEq, Eq)]
pub enum Fault {
    NoNumber,
    LongNumber,
    Many,
    Empty,
}

impl From<LineFault> for Fault {
    ghost from_gives = { λ f r. r ≡ fault_of f };

    fn from(f: LineFault) -> Fault {
        match f {
            LineFault::NoNumber => Fault::NoNumber,
            LineFault::LongNumber => Fault::LongNumber,
        }
    }
}

impl fmt::Display for Fault {
    fn fmt<W: fmt::Write>(&self, f: &mut fmt::Formatter<W>) -> fmt::Result {
        f.write_str(match self {
            Fault::NoNumber => "not a number",
            Fault::LongNumber => "more than 6 digits",
            Fault::Many => "more than 4096 readings",
            Fault::Empty => "no reading",
        })
    }
}

// How far a text has been read: its present line, that line's number from 1, the readings before it, and what is wrong.
// The file stays a parameter: it is the caller's memory, and a state that held it by `&mut` could not be copied.
#[derive(Clone, Copy, Debug, PartialEq, Eq)]
pub struct State {
    pub line: Line,
    pub number: u64,
    pub readings: usize,
    pub fault: Option<Fault>,
    pub ghost few: { readings ≤ longest },
}

impl State {
    ghost use Rattle.ppm_text.specs.States.{start_state, stop_at, with_line, line_after, EndsLine, Takes, AtFront, EndsText, headed};

    // Before the first byte.
    pub fn new() -> State
        ensures { result ≡ start_state }
    {
        State {
            line: Line::Blank,
            number: 1,
            readings: 0,
            fault: None,
        }
    }

    // The reading stops at a fault.
    fn stop(mut self, f: Fault) -> State
        ensures { result ≡ stop_at self f }
    {
        self.fault = Some(f);
        self
    }

    // The line after, with n readings before it.
    fn new_line(self, n: usize) -> State
        requires { n ≤ longest }
        ensures { (h : _) × (result ≡ line_after self n h) }
    {
        State {
            line: Line::Blank,
            number: self.number.saturating_add(1),
            readings: n,
            fault: None,
        }
    }

    // A line with a reading ends.
    fn with_reading(self, ppm: u32, file: &mut [u8; ROOM]) -> State
        ensures { EndsLine self file.old (Ok (Some ppm)) result file.new }
    {
        let n = self.readings;
        if n < words::LONGEST {
            file[3 + n] = ppm_line::symbol(ppm);
            return self.new_line(n + 1);
        }
        self.stop(Fault::Many)
    }

    // A line ends.
    fn end_line(self, file: &mut [u8; ROOM]) -> State
        ensures { EndsLine self file.old (says_after self.line []) result file.new }
    {
        match self.line.says() {
            Ok(None) => self.new_line(self.readings),
            Ok(Some(ppm)) => self.with_reading(ppm, file),
            Err(f) => self.stop(f.into()),
        }
    }

    // The line goes on.
    fn with_line(mut self, line: Line) -> State
        ensures { result ≡ with_line self line }
    {
        self.line = line;
        self
    }

    // The text goes on with one more byte.
    fn step(self, b: u8, file: &mut [u8; ROOM]) -> State
        ensures { Takes (b ∷ []) self file.old result file.new }
    {
        match self.fault {
            Some(_) => self,
            None if b == b'\n' => self.end_line(file),
            None => self.with_line(self.line.next(b)),
        }
    }

    // The text goes on with one more piece.
    pub fn feed(self, piece: &[u8], file: &mut [u8; ROOM]) -> State
        ensures { Takes piece.now self file.old result file.new }
    {
        let mut s = self;
        for b in piece {
            s = s.step(*b, file);
        }
        s
    }

    // The version and the number of readings, in front of them.
    fn put_header(self, file: &mut [u8; ROOM])
        ensures { file.new ≡ headed self.readings file.old }
    {
        let [high, low] = (self.readings as u16).to_be_bytes();
        file[0] = 1;
        file[1] = high;
        file[2] = low;
    }

    // The text ends at the front of a line.
    fn close(self, file: &mut [u8; ROOM]) -> State
        requires { AtFront self file.old }
        ensures { EndsText self file.old result file.new }
    {
        match self.fault {
            Some(_) => self,
            None if self.readings == 0 => self.stop(Fault::Empty),
            None => {
                self.put_header(file);
                self
            }
        }
    }

    // The text ends, and with it its last line.
    #[tactic(auto, using(crate::proofs::Endings::wrong_before, crate::proofs::Endings::then_ends))]
    pub fn end_text(self, file: &mut [u8; ROOM]) -> State
        ensures { EndsText self file.old result file.new }
    {
        match self.fault {
            Some(_) => self,
            None => self.end_line(file).close(file),
        }
    }
}
