// Floor 4: how a picture says in words what it shows of the readings. The words stand in specs/.
#![tactic(auto)]

ghost use Rattle.std.specs.Prelude.{◌≤◌, length};
ghost use Rattle.words.specs.Refusals.{longest};
ghost use Rattle.pen.specs.Pens.{Wrote};
ghost use Rattle.wording.specs.Wording as Wording;

use ceilings::Ceiling;
use pen::Pen;

pub fn readings(pen: &mut Pen, n: usize)
    ensures { Wrote pen.old (Wording.readings n) pen.new }
{
    if n == 1 {
        pen.say(b" reading");
    } else {
        pen.say(b" readings");
    }
}

// `held` is a number, as `Ceiling` has it for C.
fn kind(pen: &mut Pen, held: u8)
    ensures { Wrote pen.old (Wording.kind held) pen.new }
{
    if held == 1 {
        pen.say(b"HELD AT CEILING: ");
    } else {
        pen.say(b"ENDS AT CEILING: ");
    }
}

fn last_of(pen: &mut Pen, n: usize, last: usize)
    ensures { Wrote pen.old (Wording.last_of n last) pen.new }
{
    if last == n {
        pen.put(b"", last);
    } else {
        pen.put(b"the last ", last);
    }
}

fn standing(pen: &mut Pen, n: usize, c: Ceiling, last: usize)
    ensures { Wrote pen.old (Wording.standing n c last) pen.new }
{
    if last == 0 {
        pen.put(b"REACHED CEILING: ", usize::from(c.ceiling));
    } else {
        kind(pen, c.held);
        last_of(pen, n, last);
    }
}

fn told(pen: &mut Pen, n: usize, c: Ceiling, last: usize)
    ensures { Wrote pen.old (Wording.told n c last) pen.new }
{
    if c.ceiling == 0 {
        pen.say(b"No reading at the ceiling, 2000 ppm.");
    } else {
        standing(pen, n, c, last);
        pen.put(b" of ", n);
        readings(pen, n);
    }
}

// The words of the band under a picture's title.
pub fn band(pen: &mut Pen, x: &[u8])
    requires { length x.now ≤ longest }
    ensures { Wrote pen.old (Wording.band x.now) pen.new }
{
    let last = marks::last_run(x, words::CEILING);
    told(pen, x.len(), ceilings::of(x), last);
}
