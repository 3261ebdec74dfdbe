// What the trial prints, piece by piece: after the first that cannot be written no other is tried.
use std::fmt::Display;

// A piece cannot be written. Standard error says so already, and no more is compared.
#[derive(Clone, Copy, PartialEq, Eq, Debug)]
pub struct Unwritten;

pub fn say(rt: &HostRuntime, piece: impl Display + Drop) -> Result<(), Unwritten> {
    if rt.print(piece).is_ok() || output::fail(rt) {
        Ok(())
    } else {
        Err(Unwritten)
    }
}

// A number after a space.
pub fn number(rt: &HostRuntime, n: u64) -> Result<(), Unwritten> {
    say(rt, " ")?;
    say(rt, n)
}
