// Floor 4: the sheet of a picture, and on it the readings with the occurrences of the best pattern below them.
//
// The sheet is 1200 wide and 876 high, and is to be read at half that size too. Every text has room for the widest common letters, those of DejaVu Sans.
#![tactic(auto)]

ghost use Rattle.std.specs.Prelude.{◌≤◌, ◌<◌, length};
ghost use Rattle.words.specs.Refusals.{longest};
ghost use Rattle.pen.specs.Pens.{Keeps};

use pen::Pen;
use strokes::Strip;

fn sheet(pen: &mut Pen, n: usize)
    ensures { Keeps pen.old pen.new }
{
    pen.put(
        b"<svg xmlns='http://www.w3.org/2000/svg' viewBox='0 0 1200 876' width='1200' height='876' role='img'>
<title>Log of a CO&#8322; head</title>
<style>
text{font-family:Helvetica,Arial,sans-serif;font-size:20px;fill:#1b1b1b}
.title{font-size:34px;font-weight:bold}
.alarm{font-size:26px;font-weight:bold}
.sub{font-size:24px}
.report{font-family:Menlo,Consolas,monospace}
.note{fill:#4d4d4d}
.red{fill:#b00020}
.white{fill:#fff}
.end{text-anchor:end}
.ticks text{font-size:2000px;text-anchor:middle}
path{fill:none;stroke:none}
.grid{stroke:#d9d9d9;stroke-width:100}
.tick{stroke:#1b1b1b;stroke-width:100}
.readings{fill:#0b5394;fill-opacity:.14;stroke:#0b5394;stroke-linejoin:round}
.stuck{fill:#f0a0ab}
.ceiling{stroke:#b00020;stroke-width:200;stroke-dasharray:900 500}
.top{fill:#b00020;stroke:#b00020;stroke-width:100}
.pattern{fill:#0072b2}
.missed{fill:#e69f00;stroke:#e69f00;stroke-width:100}
</style>
<rect width='1200' height='876' fill='#fff'/>
<text class='title' x='40' y='54' xml:space='preserve'>CO<tspan class='sub' dy='8'>2</tspan><tspan dy='-8'> log: ",
        n,
    );
    wording::readings(pen, n);
    pen.say(
        b"</tspan></text>
<text class='note end' x='148' y='180'>ppm</text>
<text class='red end' x='148' y='207'>ceiling 2000</text>
<text class='end' x='148' y='282'>1500</text>
<text class='end' x='148' y='357'>1000</text>
<text class='end' x='148' y='432'>500</text>
<text class='end' x='148' y='507'>0</text>
<text class='note end' x='1160' y='636'>number of the reading</text>
<g transform='translate(160 170) scale(.01)'>
<clipPath id='plot'><path d='M0 0H100000V33000H0z'/></clipPath>
<path class='grid' d='M0 33000H100000M0 25500H100000M0 18000H100000M0 10500H100000'/>
",
    );
}

// How thick the line of n readings is.
fn thickness(n: usize) -> usize {
    match n {
        0..=500 => 140,
        501..=1500 => 90,
        _ => 50,
    }
}

// The readings.
fn line(pen: &mut Pen, x: &[u8])
    requires { 0 < length x.now }
    ensures { Keeps pen.old pen.new }
{
    pen.put(
        b"<path class='readings' clip-path='url(#plot)' stroke-width='",
        thickness(x.len()),
    );
    pen.put(b"' d='M0 33000V", strokes::down(x[0]));
    strokes::steps(pen, x);
    pen.say(b"H100000V33000'/>\n");
}

// The whole height of the plot, and a bar over it at the ceiling.
const PLOT: Strip = Strip {
    top: 0,
    bottom: 33000,
};

const TOP: Strip = Strip {
    top: 2600,
    bottom: 3400,
};

// What is at the ceiling, in red.
fn stuck(pen: &mut Pen, x: &[u8])
    ensures { Keeps pen.old pen.new }
{
    pen.say(b"<path class='stuck' d='");
    strokes::enclose_runs(pen, x, words::CEILING, PLOT);
    pen.say(b"'/>\n<path class='ceiling' d='M0 3000H100000'/>\n<path class='top' d='");
    strokes::enclose_runs(pen, x, words::CEILING, TOP);
    pen.say(b"'/>\n");
}

// How the pattern of length q lies in the log; nothing where there is none.
fn lanes(pen: &mut Pen, x: &[u8], q: usize)
    requires { length x.now ≤ longest }
    ensures { Keeps pen.old pen.new }
{
    if q == 0 {
        return;
    }
    let mut marks = [0u8; words::LONGEST];
    marks::mark_all(x, q, &mut marks);
    marked(pen, &marks[..x.len()], q);
}

fn marked(pen: &mut Pen, marks: &[u8], q: usize)
    ensures { Keeps pen.old pen.new }
{
    pen.say(b"<path class='pattern' d='");
    strokes::occurrences(pen, marks, q);
    pen.say(b"'/>\n<path class='missed' d='");
    strokes::gaps(pen, marks);
    pen.say(b"'/>\n");
}

fn axis(pen: &mut Pen, n: usize)
    ensures { Keeps pen.old pen.new }
{
    pen.say(b"<g class='ticks'>\n");
    strokes::labels(pen, n);
    pen.say(b"</g>\n</g>\n");
}

pub fn draw(pen: &mut Pen, x: &[u8], q: usize)
    requires { (0 < length x.now) × (length x.now ≤ longest) }
    ensures { Keeps pen.old pen.new }
{
    sheet(pen, x.len());
    line(pen, x);
    stuck(pen, x);
    lanes(pen, x, q);
    axis(pen, x.len());
}

// What stands at the lanes: the best pattern, of length q, covers count of n readings.
pub fn name_lanes(pen: &mut Pen, q: usize, count: usize, n: usize)
    ensures { Keeps pen.old pen.new }
{
    if q == 0 {
        pen.say(
            b"<text class='note' x='160' y='544'>No pattern: no first part of the log comes again at its end.</text>\n",
        );
        return;
    }
    pen.put(
        b"<text class='end' x='148' y='532'>best pattern</text>
<text class='end' x='148' y='567'>not covered</text>
<text x='160' y='636'>Best pattern: length ",
        q,
    );
    pen.put(b". It covers ", count);
    pen.put(b" of ", n);
    pen.say(b" readings.</text>\n");
}
