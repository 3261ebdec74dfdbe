// A second way to every answer, straight from the definitions: every length is tried, the readings themselves are compared, and every
// covered position is marked. It is slow on purpose and shares nothing with the finder, so that a fault would have to be made twice to stay unseen.
//
// i, q and m are lengths of prefixes of the log x. j is a number of readings skipped, from 0. Where there is none, a table's row or an entry is 0: so the scope
// has it, and no length is 0.
#![tactic(auto)]

ghost use Rattle.std.specs.Prelude.{◌≤◌, length};

const LONGEST: usize = 4096;

// The first q readings occur after j readings.
pub fn occurs(x: &[u8], q: usize, j: usize) -> bool {
    q <= x.len() && j <= x.len() - q && x[..q] == x[j..j + q]
}

fn is_border(x: &[u8], i: usize, m: usize) -> bool {
    m < i && occurs(x, m, i - m)
}

// Border table: the greatest border, 0 if none is nonempty.
pub fn border(x: &[u8], i: usize) -> usize {
    (1..i).rev().find(|m| is_border(x, i, *m)).unwrap_or(0)
}

// Prefix table: the greatest length that occurs at i.
pub fn prefix(x: &[u8], i: usize) -> usize {
    let Some(j) = i.checked_sub(1) else { return 0 };
    (1..=x.len()).rev().find(|m| occurs(x, *m, j)).unwrap_or(0)
}

// Marks what the occurrence of the first q readings after j readings lies on, if there is one and it ends where the marks end or before.
// A mark is a byte: these functions are lent any bytes, and a slice of `bool` would ask more.
pub fn mark_occurrence(marks: &mut [u8], x: &[u8], q: usize, j: usize) {
    if q <= marks.len() && j <= marks.len() - q && occurs(x, q, j) {
        marks[j..j + q].fill(1);
    }
}

pub fn mark_occurrences(marks: &mut [u8], x: &[u8], q: usize) {
    for j in 0..marks.len() {
        mark_occurrence(marks, x, q, j);
    }
}

pub fn marked(marks: &[u8]) -> usize
    ensures { result ≤ length marks.now }
{
    marks.iter().filter(|m| **m == 1).count()
}

// How many of the first i positions are marked, where `mark` marks them; none past the limit.
pub fn marked_by<F: Fn(&mut [u8])>(i: usize, mark: F) -> usize
    requires { F.IsAlwaysCallable mark }
    ensures { result ≤ i }
{
    let mut marks = [0u8; LONGEST];
    if LONGEST < i {
        return 0;
    }
    let marks = &mut marks[..i];
    mark(marks);
    marked(marks)
}

// How many positions of x[1..i] the pattern x[1..q] covers.
pub fn covered(x: &[u8], i: usize, q: usize) -> usize {
    marked_by(i, |marks| mark_occurrences(marks, x, q))
}

// The cover test.
pub fn covers(x: &[u8], i: usize, q: usize) -> bool {
    covered(x, i, q) == i
}

// List of covers: the shortest cover of x[1..i] that is longer than q.
pub fn cover_after(x: &[u8], i: usize, q: usize) -> Option<usize> {
    (q.saturating_add(1)..=i).find(|p| covers(x, i, *p))
}

// Cover table: the longest proper cover, 0 if none.
pub fn cover(x: &[u8], i: usize) -> usize {
    (1..i).rev().find(|q| covers(x, i, *q)).unwrap_or(0)
}

// A pattern's length, and what it is worth.
#[derive(Clone, Copy, Default, PartialEq, Eq, Debug)]
pub struct Worth {
    pub best: usize,
    pub count: usize,
}

// The shortest nonempty length below i that is worth the most, zeros if none is worth anything: a longer one has to be worth more. Nothing is worth more
// than all i positions.
pub fn most<F: Fn(usize) -> usize>(i: usize, worth: F) -> Worth
    requires { F.IsAlwaysCallable worth }
    ensures { result.best ≤ i }
{
    let mut most = Worth::default();
    for q in 1..i {
        let count = worth(q);
        if most.count < count {
            most = Worth { best: q, count };
        }
        if most.count == i {
            return most;
        }
    }
    most
}

// Enhanced table: a border is worth the positions that it covers.
pub fn enhanced(x: &[u8], i: usize) -> Worth
    ensures { result.best ≤ i }
{
    most(
        i,
        |q| if is_border(x, i, q) {
            covered(x, i, q)
        } else {
            0
        },
    )
}

// A normal form with its length.
#[derive(Clone, Copy, Default, PartialEq, Eq, Debug)]
pub struct Form {
    pub len: usize,
    pub k1: usize,
    pub k2: usize,
    pub k: usize,
}

// The normal form of x[1..i]; zeros where i is 0.
pub fn normal(x: &[u8], i: usize) -> Form {
    let f = border(x, i);
    if i <= f {
        return Form::default();
    }
    let k1 = i - f;
    Form {
        len: i,
        k1,
        k2: i % k1,
        k: i / k1,
    }
}

// The length of the part after that of length i in the breakdown; 0 after the last.
fn next(x: &[u8], i: usize) -> usize {
    match normal(x, i) {
        Form { k2, .. } if 0 < k2 => k2,
        Form { k, k1, .. } if 1 < k => k1,
        _ => 0,
    }
}

// The part of the breakdown at a level, from 0; zeros after the last.
pub fn part(x: &[u8], level: usize) -> Form {
    normal(x, (0..level).fold(x.len(), |i, _| next(x, i)))
}

// How many parts the breakdown has.
pub fn parts_used(x: &[u8]) -> usize {
    (0..LONGEST)
        .find(|level| part(x, *level).len == 0)
        .unwrap_or(LONGEST)
}

// x[1..q] is a nonempty border of x[1..i] that has no proper cover.
fn weighs(x: &[u8], i: usize, q: usize) -> bool {
    q != 0 && is_border(x, i, q) && cover(x, q) == 0
}

// The longest entry of the weighed list at i that is shorter than `top`; 0 if none.
pub fn weighed_below(x: &[u8], i: usize, top: usize) -> usize {
    (0..top).rev().find(|q| weighs(x, i, *q)).unwrap_or(0)
}

// The number used in the weighed list at i.
pub fn weighed_used(x: &[u8], i: usize) -> usize {
    (0..i).filter(|q| weighs(x, i, *q)).count()
}

// The exponent of the greatest power of two not above i, by doubling; 0 where i is 0.
pub fn limit(i: usize) -> usize {
    let mut e = 0;
    let mut power = 1;
    while power <= i / 2 {
        power *= 2;
        e += 1;
    }
    e
}

// The weighed total of a log that is accepted.
pub fn total(x: &[u8]) -> usize {
    (1..=x.len()).fold(0, |sum: usize, i| sum.wrapping_add(weighed_used(x, i)))
}

const CEILING: u8 = 20;

const RECENT: usize = 60;

// How many readings are at the ceiling: all but the others.
pub fn ceiling(x: &[u8]) -> usize {
    x.len() - x.iter().filter(|b| **b != CEILING).count()
}

// Held: none of the last sixty readings, or of fewer, is another than the ceiling's. Each reading is asked how many there are from it to the end.
pub fn held(x: &[u8]) -> bool {
    !(0..x.len()).any(|p| x.len() - p <= RECENT && x[p] != CEILING)
}
