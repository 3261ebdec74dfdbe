// Floor 4: what stands around the chart: the band under the picture's title, and the report below.
#![tactic(auto)]

ghost use Rattle.std.specs.Prelude.{◌≤◌, length};
ghost use Rattle.words.specs.Refusals.{longest};
ghost use Rattle.pen.specs.Pens.{Keeps};

use ceilings::Ceiling;
use pen::Pen;

// What the report says of a log.
#[derive(Clone, Copy)]
pub struct Findings<'a> {
    pub normal: words::Part,
    pub covers: &'a [u16],
    pub best: u16,
    pub count: u16,
    pub weighed: &'a [u16],
    pub ceiling: Ceiling,
}

// ---- the band under the title: how the readings stand to the ceiling

// What stands before the band's words and behind them: calm where no reading is at the ceiling, red where the log ends there. `ceiling` is how many of its
// readings are.
fn frame(x: &[u8], ceiling: u16) -> (&'static [u8], &'static [u8]) {
    if ceiling == 0 {
        return (
            b"<rect x='40' y='76' width='1120' height='72' fill='#f2f2f2'/>\n<text x='60' y='119'>",
            b"</text>\n",
        );
    }
    if x.last() == Some(&words::CEILING) {
        return (
            b"<rect x='40' y='76' width='1120' height='72' fill='#b00020'/>\n<text class='alarm white' x='60' y='108'>",
            b"</text>\n<text class='white' x='60' y='136'>The room may hold far more than 2000 ppm.</text>\n",
        );
    }
    (
        b"<rect x='41' y='77' width='1118' height='70' fill='#fff' stroke='#b00020' stroke-width='2'/>
<text class='alarm red' x='60' y='108'>",
        b"</text>\n<text class='red' x='60' y='136'>There the room may have held far more than 2000 ppm.</text>\n",
    )
}

// The band's words in their frame.
pub fn alarm(pen: &mut Pen, x: &[u8], ceiling: u16)
    requires { length x.now ≤ longest }
    ensures { Keeps pen.old pen.new }
{
    let (before, after) = frame(x, ceiling);
    pen.say(before);
    wording::band(pen, x);
    pen.say(after);
}

// ---- the report: each line after its meaning, which stands to the right of it

// The numbers of a list, at most `most` of them, and how many more there are.
fn list<T: Copy + Into<usize>>(pen: &mut Pen, t: &[T], most: usize)
    ensures { Keeps pen.old pen.new }
{
    for n in t.iter().take(most) {
        pen.put(b" ", (*n).into());
    }
    if most < t.len() {
        pen.put(b" &#8230; ", t.len() - most);
        pen.say(b" more");
    }
}

// A line with the first numbers of a list.
fn line<T: Copy + Into<usize>>(pen: &mut Pen, head: &[u8], t: &[T], most: usize)
    ensures { Keeps pen.old pen.new }
{
    pen.say(head);
    list(pen, t, most);
    pen.say(b"</tspan></text>\n");
}

// A line has room for six lengths of four digits; and for every weighed list, since each of its lengths is less than half of the one before.
fn patterns(pen: &mut Pen, r: &Findings)
    ensures { Keeps pen.old pen.new }
{
    line(
        pen,
        b"<text class='note' x='660' y='712'>length that repeats, readings left over, times</text>
<text class='report' x='40' y='712'>normal<tspan x='144'>",
        &[r.normal.k1, r.normal.k2, r.normal.k],
        3,
    );
    line(
        pen,
        b"<text class='note' x='660' y='740'>lengths of patterns that cover the whole log</text>
<text class='report' x='40' y='740'>covers<tspan x='144'>",
        r.covers,
        6,
    );
    line(
        pen,
        b"<text class='note' x='660' y='768'>length of the best pattern, readings it covers</text>
<text class='report' x='40' y='768'>best<tspan x='144'>",
        &[r.best, r.count],
        2,
    );
    line(
        pen,
        b"<text class='note' x='660' y='796'>lengths weighed against it, longest first</text>
<text class='report' x='40' y='796'>weighed<tspan x='144'>",
        r.weighed,
        words::WEIGHED_PLACES,
    );
}

// The report of a log of n readings.
pub fn report(pen: &mut Pen, n: usize, r: &Findings)
    ensures { Keeps pen.old pen.new }
{
    line(
        pen,
        b"<text class='note' x='660' y='684'>readings in the log</text>
<text class='report' x='40' y='684'>log<tspan x='144'>",
        &[n],
        1,
    );
    patterns(pen, r);
    line(
        pen,
        b"<text class='note' x='660' y='824'>readings at 2000 ppm or above</text>
<text class='report' x='40' y='824'>ceiling<tspan x='144'>",
        &[r.ceiling.ceiling],
        1,
    );
    pen.put(
        b"<text class='note' x='660' y='852'>1 if the last ",
        ceilings::RECENT,
    );
    line(
        pen,
        b", or all if fewer, are at 2000</text>
<text class='report' x='40' y='852'>held<tspan x='144'>",
        &[r.ceiling.held],
        1,
    );
}
