// Floor 4: the strokes of a log's picture, put into the text as the data of SVG paths.
//
// Places are whole numbers, in hundredths of a pixel from the upper left corner of the plot.
// The plot is 100000 wide, one reading beside the other, and 33000 high: 1500 for each hundred ppm, up to 2200 ppm.
// Below it lie two lanes for the occurrences of the best pattern and one for the readings that it does not cover.
#![tactic(auto)]

ghost use Rattle.std.specs.Prelude.{◌<◌, ◌≤◌, length};
ghost use Rattle.pen.specs.Pens.{Keeps};

use pen::Pen;

// A strip across the plot, from one height down to another.
#[derive(Clone, Copy)]
pub struct Strip {
    pub top: usize,
    pub bottom: usize,
}

const LANES: [Strip; 2] = [
    Strip {
        top: 34000,
        bottom: 35400,
    },
    Strip {
        top: 35600,
        bottom: 37000,
    },
];

const MISSED: Strip = Strip {
    top: 38400,
    bottom: 39600,
};

// Where the reading after the first k of n begins.
#[tactic(auto, using(crate::proofs::Places::part_of_width))]
fn across(k: usize, n: usize) -> usize
    ensures { result ≤ 100000 }
{
    if n <= k || words::LONGEST < k {
        return 100000;
    }
    k * 100000 / n
}

// How far down a reading lies.
pub fn down(symbol: u8) -> usize {
    33000 - usize::from(symbol.min(words::CEILING)) * 1500
}

// A box around the readings after the first a, up to the first e of n, if there are any.
fn enclose(pen: &mut Pen, a: usize, e: usize, n: usize, strip: Strip)
    ensures { Keeps pen.old pen.new }
{
    if e <= a {
        return;
    }
    let left = across(a, n);
    pen.put(b"M", left);
    pen.put(b" ", strip.top);
    pen.put(b"H", across(e, n));
    pen.put(b"V", strip.bottom);
    pen.put(b"H", left);
    pen.say(b"z");
}

// A box around each run of v. After a run comes another reading, or none: the loop goes from run to run, and counts no index.
pub fn enclose_runs(pen: &mut Pen, x: &[u8], v: u8, strip: Strip)
    ensures { Keeps pen.old pen.new }
{
    let mut a = 0;
    while a < x.len() {
        let e = marks::end_of_run(x, v, a);
        enclose(pen, a, e, x.len(), strip);
        a = e + 1;
    }
}

// The readings as steps: one wherever a reading differs from that before it.
pub fn steps(pen: &mut Pen, x: &[u8])
    ensures { Keeps pen.old pen.new }
{
    for (k, pair) in (1..x.len()).zip(x.windows(2)) {
        if let [before, symbol] = pair
            && before != symbol
        {
            pen.put(b"H", across(k, x.len()));
            pen.put(b"V", down(*symbol));
        }
    }
}

// The occurrences of the first q readings, in two lanes by turns: the best pattern has no proper cover, so no three of its occurrences share a reading.
pub fn occurrences(pen: &mut Pen, marks: &[u8], q: usize)
    ensures { Keeps pen.old pen.new }
{
    let starts = marks
        .iter()
        .enumerate()
        .filter(|(_, mark)| **mark == marks::START);
    for ((a, _), lane) in starts.zip(LANES.iter().cycle()) {
        enclose(pen, a, a.wrapping_add(q), marks.len(), *lane);
    }
}

// The readings outside every occurrence.
pub fn gaps(pen: &mut Pen, marks: &[u8])
    ensures { Keeps pen.old pen.new }
{
    enclose_runs(pen, marks, marks::OUTSIDE, MISSED);
}

// How many readings there are from one tick of the axis to the next: at most ten ticks.
fn tick(n: usize) -> usize
    ensures { result ≤ 500 }
{
    match n {
        0..=10 => 1,
        11..=20 => 2,
        21..=50 => 5,
        51..=100 => 10,
        101..=200 => 20,
        201..=500 => 50,
        501..=1000 => 100,
        1001..=2000 => 200,
        _ => 500,
    }
}

// A tick and its number under the middle of reading k of n.
fn label(pen: &mut Pen, k: usize, n: usize)
    ensures { Keeps pen.old pen.new }
{
    if k == 0 || n < k {
        return;
    }
    let at = (across(k - 1, n) + across(k, n)) / 2;
    pen.put(b"<path class='tick' d='M", at);
    pen.put(b" 40400v700'/><text x='", at);
    pen.put(b"' y='43000'>", k);
    pen.say(b"</text>\n");
}

pub fn labels(pen: &mut Pen, n: usize)
    ensures { Keeps pen.old pen.new }
{
    let t = tick(n);
    for i in 1..11 {
        label(pen, i * t, n);
    }
}
