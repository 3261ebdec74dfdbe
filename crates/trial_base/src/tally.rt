// How much of one kind was compared, and how much differed. The kind's name is printed before, so that the first difference stands in its line.
use crate::calls::Call;
use crate::line::{Unwritten, number, say};
use std::fmt::Display;

// `before` is how much of the kinds before differed. At the greatest number a count stays: it must not come round to 0.
#[derive(Clone, Copy)]
pub struct Tally {
    pub tried: u64,
    pub compared: u64,
    pub different: u64,
    pub before: u64,
    rt: HostRuntime,
}

// The first twelve readings: the whole of a small log.
fn readings(rt: &HostRuntime, x: &[u8]) -> Result<(), Unwritten> {
    for reading in x.iter().take(12) {
        number(rt, u64::from(*reading))?;
    }
    Ok(())
}

fn tell(rt: &HostRuntime, call: Call, x: &[u8], row: usize) -> Result<(), Unwritten> {
    say(rt, format_args!(" FIRST DIFFERENT: {call}, row"))?;
    number(rt, row as u64)?;
    say(rt, ", length")?;
    number(rt, x.len() as u64)?;
    say(rt, ":")?;
    readings(rt, x)?;
    say(rt, ";")
}

impl Tally {
    pub fn new(rt: HostRuntime) -> Tally {
        Tally {
            tried: 0,
            compared: 0,
            different: 0,
            before: 0,
            rt,
        }
    }

    // Begins the line of a kind.
    pub fn begin(&mut self, name: impl Display + Drop) -> Result<(), Unwritten> {
        self.tried = 0;
        self.compared = 0;
        self.different = 0;
        self.say(name)
    }

    // Goes on with it.
    pub fn say(&self, text: impl Display + Drop) -> Result<(), Unwritten> {
        say(&self.rt, text)
    }

    // One more log or file.
    pub fn more(&mut self) {
        self.tried = self.tried.saturating_add(1);
    }

    // One comparison, at a row of a call on x. Row 0 is the call's own answer.
    pub fn see(&mut self, call: Call, x: &[u8], row: usize, same: bool) -> Result<(), Unwritten> {
        self.compared = self.compared.saturating_add(1);
        if same {
            return Ok(());
        }
        self.different = self.different.saturating_add(1);
        if self.different == 1 {
            tell(&self.rt, call, x, row)?;
        }
        Ok(())
    }

    // Ends the kind's line. What was tried is logs or files.
    pub fn end(&mut self, tried: &str) -> Result<(), Unwritten> {
        self.before = self.before.saturating_add(self.different);
        number(&self.rt, self.tried)?;
        self.say(format_args!(" {tried},"))?;
        number(&self.rt, self.compared)?;
        self.say(" comparisons,")?;
        number(&self.rt, self.different)?;
        self.say(" different\n")
    }

    // The last line: what differed of all kinds.
    pub fn close(&self) -> Result<(), Unwritten> {
        self.say(self.before)?;
        self.say(" different\n")
    }
}
