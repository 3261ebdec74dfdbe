// The logs that are tried: all of a length over a few letters, and long ones of six kinds.
use std::fmt;

fn at(x: &[u8], k: usize) -> u8 {
    x.get(k).copied().unwrap_or(0)
}

// The letter that the last digit of v names.
fn letter(letters: &[u8], v: usize) -> u8 {
    v.checked_rem(letters.len())
        .map_or(0, |digit| at(letters, digit))
}

fn without_last_digit(letters: &[u8], v: usize) -> usize {
    v.checked_div(letters.len()).unwrap_or(0)
}

// Writes the log whose letters are the digits of v.
pub fn spell(x: &mut [u8], letters: &[u8], v: usize) {
    let mut rest = v;
    for reading in x.iter_mut() {
        *reading = letter(letters, rest);
        rest = without_last_digit(letters, rest);
    }
}

// How many logs of n readings there are over these letters.
pub fn how_many(letters: &[u8], n: usize) -> usize {
    (0..n).fold(1, |count: usize, _| count.saturating_mul(letters.len()))
}

#[derive(Clone, Copy, PartialEq, Eq, Debug)]
pub enum Kind {
    Flat,
    Fibonacci,
    Cycle,
    Defects,
    Runs,
    Random,
}

// A congruential generator; its upper bits are used.
fn next(seed: u64) -> u64 {
    (seed % 2147483648 * 1103515245 + 12345) % 2147483648
}

// Forty readings up and down again, in steps of five.
fn cycle(k: usize) -> u8 {
    let c = k % 40;
    let step = if c < 20 { c / 5 } else { (39 - c) / 5 };
    (4 + step) as u8
}

// The greatest Fibonacci number, from 1 and 2 on, that is at most k.
fn fibonacci_below(k: usize) -> usize {
    let (mut a, mut b) = (1usize, 2usize);
    for _ in 0..24 {
        if k < b {
            return a;
        }
        (a, b) = (b, a.saturating_add(b));
    }
    a
}

// The reading after k others of a Fibonacci word: the one that stood the greatest Fibonacci number before.
fn fibonacci(x: &[u8], k: usize) -> u8 {
    match k {
        0 => 4,
        1 => 20,
        _ => k
            .checked_sub(fibonacci_below(k))
            .map_or(0, |back| at(x, back)),
    }
}

impl fmt::Display for Kind {
    fn fmt<W: fmt::Write>(&self, f: &mut fmt::Formatter<W>) -> fmt::Result {
        f.write_str(match self {
            Kind::Flat => "flat",
            Kind::Fibonacci => "Fibonacci word",
            Kind::Cycle => "cycle of 40",
            Kind::Defects => "cycle of 40 with defects",
            Kind::Runs => "runs of 63 and one other",
            Kind::Random => "random over 2 letters",
        })
    }
}

impl Kind {
    pub const ALL: [Kind; 6] = [
        Kind::Flat,
        Kind::Fibonacci,
        Kind::Cycle,
        Kind::Defects,
        Kind::Runs,
        Kind::Random,
    ];

    // The reading after the first k, which x begins with.
    fn reading(self, x: &[u8], k: usize, seed: u64) -> u8 {
        let toss = seed / 65536;
        match self {
            Kind::Fibonacci => fibonacci(x, k),
            Kind::Cycle => cycle(k),
            Kind::Defects if toss % 100 != 0 => cycle(k),
            Kind::Runs if k % 64 == 63 => 5,
            Kind::Random if toss % 2 == 0 => 4,
            Kind::Flat | Kind::Defects | Kind::Runs | Kind::Random => 20,
        }
    }

    // Writes a long log, each reading made from those before it.
    pub fn write(self, x: &mut [u8]) {
        let mut seed: u64 = 40;
        for k in 0..x.len() {
            x[k] = self.reading(x, k, seed);
            seed = next(seed);
        }
    }
}
