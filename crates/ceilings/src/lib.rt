// Floor 2: how a log stands to the ceiling: how many of its readings are at it, and whether the head is held there now. The definitions stand in specs/.
#![tactic(auto)]

ghost use Rattle.std.specs.Prelude.{◌≡◌, ◌≤◌, length};
ghost use Rattle.words.specs.Refusals.{longest};
ghost use Rattle.ceilings.specs.Ceilings as Ceilings;

// How many of the last readings say where the head stands now (`recent` of specs/).
pub const RECENT: usize = 60;

// held is 1 where the head is held at the ceiling now, else 0; ceiling is how many readings are at it.
#[repr(C)]
#[derive(Clone, Copy)]
pub struct Ceiling {
    pub number: u8,
    pub held: u8,
    pub ceiling: u16,
}

fn count(x: &[u8]) -> usize
    ensures { result ≡ Ceilings.ceiling x.now }
{
    // A loop, which is compiled to vector instructions: the chain `x.iter().filter(..).count()` is not, and takes ten times as many.
    let mut count = 0;
    for symbol in x {
        if *symbol == words::CEILING {
            count += 1;
        }
    }
    count
}

fn stuck(x: &[u8]) -> bool
    ensures { result ≡ Ceilings.stuck x.now }
{
    x.iter().all(|symbol| *symbol == words::CEILING)
}

// The last sixty readings; all of them where they are fewer.
fn latest(x: &[u8]) -> &[u8]
    ensures { result.now ≡ Ceilings.latest x.now }
{
    &x[x.len().saturating_sub(RECENT)..]
}

// How a log that is not too long stands to the ceiling.
pub fn of(x: &[u8]) -> Ceiling
    requires { length x.now ≤ longest }
    ensures { result ≡ Ceilings.ceiling_of x.now }
{
    Ceiling {
        number: 0,
        held: u8::from(stuck(latest(x))),
        ceiling: count(x) as u16,
    }
}
