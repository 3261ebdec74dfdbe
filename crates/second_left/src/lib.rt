// A second way to the left covers and left seeds, straight from the definitions as `second` goes it: every length is tried, and every covered position
// is marked.
#![tactic(auto)]

use second::{Worth, covered, mark_occurrence, mark_occurrences, marked_by, most, occurs};

// The first q readings occur in x[1..i] a second time: after j others too.
fn occurs_twice(x: &[u8], i: usize, q: usize) -> bool {
    q <= i && (1..=i - q).any(|j| occurs(x, q, j))
}

// Marks the last m positions, if the readings there are the first m.
fn mark_end(marks: &mut [u8], x: &[u8], m: usize) {
    if m <= marks.len() {
        mark_occurrence(marks, x, m, marks.len() - m);
    }
}

// Marks what the starts of the first q readings lie on that are not yet read to their end.
fn mark_starts(marks: &mut [u8], x: &[u8], q: usize) {
    for m in 1..q {
        mark_end(marks, x, m);
    }
}

// How many positions of x[1..i] the pattern x[1..q] covers with its occurrences and its starts.
fn sown(x: &[u8], i: usize, q: usize) -> usize {
    marked_by(i, |marks| {
        mark_occurrences(marks, x, q);
        mark_starts(marks, x, q);
    })
}

// A pattern is worth something if it occurs twice. Zeros if none does.
fn row<F: Fn(&[u8], usize, usize) -> usize>(x: &[u8], i: usize, worth: F) -> Worth
    requires { F.IsAlwaysCallable worth }
{
    most(
        i,
        |q| if occurs_twice(x, i, q) {
            worth(x, i, q)
        } else {
            0
        },
    )
}

// Left covers: a pattern is worth the positions that it covers.
pub fn cover(x: &[u8], i: usize) -> Worth {
    row(x, i, covered)
}

// Left seeds: with its starts.
pub fn seed(x: &[u8], i: usize) -> Worth {
    row(x, i, sown)
}
