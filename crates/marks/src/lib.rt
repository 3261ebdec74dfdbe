// Floor 2: how a pattern lies in a log, and runs of one symbol: what a picture shows.
#![tactic(auto)]

ghost use Rattle.std.specs.Prelude.{◌≡◌, ◌+◌, ◌≤◌, ◌<◌, length, get_or};
ghost use Rattle.words.specs.Tables.{written};
ghost use Rattle.marks.specs.Marks.{starts as Marks·starts, mark_of, Reaches, Run, LastRun};

// Whether the first q readings come again after the first p, within the log.
#[tactic(auto, using(crate::proofs::Parts::tested))]
fn starts(x: &[u8], q: usize, p: usize) -> bool
    requires { p < length x.now }
    ensures { result ≡ Marks·starts x.now q p }
{
    q <= x.len() - p && x[..q] == x[p..p + q]
}

// A reading's mark for a pattern: an occurrence starts there; elsewhere inside one; outside. They are numbers, as `mark_of` of specs/ says, and no enum: a
// table of marks is a lent table of bytes (`mark_all`), whose runs end where a log's do (`end_of_run`).
pub const START: u8 = 2;

const INSIDE: u8 = 1;

pub const OUTSIDE: u8 = 0;

// The mark; `reach` is how far the occurrences up to the reading reach.
#[tactic(auto, using(crate::proofs::Reaching::start_fits, crate::proofs::Reaching::start_marked))]
fn judge(x: &[u8], q: usize, p: usize, reach: &mut usize) -> u8
    requires { (p < length x.now) × Reaches x.now q p reach.old }
    ensures mark { result ≡ mark_of q x.now p }
    ensures reach { Reaches x.now q (p + 1) reach.new }
{
    if starts(x, q, p) {
        *reach = p + q;
        START
    } else if p < *reach {
        INSIDE
    } else {
        OUTSIDE
    }
}

// Marks each reading for the pattern of length q.
#[tactic(auto, using(words::proofs::Tables::rows_none, words::proofs::Tables::rows_more, crate::proofs::Reaching::reaches_none))]
pub fn mark_all(x: &[u8], q: usize, marks: &mut [u8])
    requires { length x.now ≤ length marks.old }
    ensures { marks.new ≡ written (mark_of q x.now) (length x.now) marks.old }
{
    let mut reach = 0;
    for p in 0..x.len() {
        marks[p] = judge(x, q, p, &mut reach);
    }
}

// Where the run of v ends that starts after p readings.
pub fn end_of_run(x: &[u8], v: u8, p: usize) -> usize
    requires { p ≤ length x.now }
    ensures { Run x.now v p result × (result < length x.now → get_or x.now result 0 ≡ v → ⊥) }
{
    for e in p..x.len() {
        if x[e] != v {
            return e;
        }
    }
    x.len()
}

// How many readings the run of v has that ends the log.
pub fn last_run(x: &[u8], v: u8) -> usize
    ensures { LastRun x.now v result }
{
    x.iter().rev().take_while(|symbol| **symbol == v).count()
}
