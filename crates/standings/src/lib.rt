// Floor 2: how a prefix stands, from how the prefix one reading shorter does. A seed that goes on, or a pattern that ends there, mostly decides; else the
// candidates are weighed.
#![tactic(auto)]

ghost use Rattle.std.specs.Prelude.{◌≡◌, ◌+◌, ◌≤◌, ◌<◌, length};
ghost use Rattle.tallies.specs.Tallies.{Judgement};
ghost use Rattle.candidates.specs.Candidates.{Sown};
ghost use Rattle.standings.specs.Standings.{Goes, Ends, Turns, Stands, Ended, After};

use candidates::{Row, Seed};
use repeats::Found;
use tallies::Pick;

// How a prefix stands: its left seed, its left cover, and the longest prefix that repeats in it. All are 0 before the first reading.
#[derive(Clone, Copy, Default)]
pub struct Standing {
    pub seed: Seed,
    pub left: Found,
    pub far: usize,
}

// The longest start of a pattern after one reading more, which follows the start of s: one longer, or, of a pattern that ends there, its border.
fn start_after(border: &[u16], s: Seed, len: usize) -> usize
    requires { (0 < len) × (len ≤ length border.now) × (s.start < 65536) }
    ensures { After border.now s len result }
{
    if len == s.len && s.start + 1 < len {
        s.start + 1
    } else {
        usize::from(border[len - 1])
    }
}

// The seed goes on over one reading more, or a better pattern ends there.
fn on(row: &Row, s: Seed, b: Found) -> Seed
    requires { Goes row.now.columns.x.now row.now.j s b }
    ensures { Sown row.now.columns.x.now (row.now.j + 1) result }
{
    let more = Found {
        len: s.len,
        count: s.count + 1,
    };
    let f = more.max(b);
    Seed {
        len: f.len,
        count: f.count,
        start: start_after(row.columns.border, s, f.len),
    }
}

// The pattern b ends there, and covers more than any that does not end there can reach.
fn ending(row: &Row, s: Seed, b: Found) -> Seed
    requires { Ends row.now.columns.x.now row.now.j s b }
    ensures { Sown row.now.columns.x.now (row.now.j + 1) result }
{
    Seed {
        len: b.len,
        count: b.count,
        start: usize::from(row.columns.border[b.len - 1]),
    }
}

// The left cover, where its last end leaves room for the whole border after it; else the best of the candidates.
fn rest(row: &Row, left: Found, far: usize) -> Seed
    requires { Turns row.now.columns.x.now row.now.j left far }
    ensures { Sown row.now.columns.x.now (row.now.j + 1) result }
{
    let b = usize::from(row.columns.border[row.j]);
    if b < left.len && usize::from(row.last[left.len - 1]) + b <= row.j + 1 {
        Seed {
            len: left.len,
            count: left.count + b,
            start: b,
        }
    } else {
        candidates::best(row, far, b)
    }
}

// The left seed after one reading more: s was the one before, and b is the best pattern that ends there.
fn next(row: &Row, s: Seed, b: Found, left: Found, far: usize) -> Seed
    requires { Sown row.now.columns.x.now row.now.j s × Ended row.now.columns.x.now row.now.j b × Turns row.now.columns.x.now row.now.j left far }
    ensures { Sown row.now.columns.x.now (row.now.j + 1) result }
{
    let x = row.columns.x;
    if s.len != 0 && x[s.start] == x[row.j] {
        on(row, s, b)
    } else if s.count + 1 < b.count {
        ending(row, s, b)
    } else {
        rest(row, left, far)
    }
}

// How the row's prefix stands, from how the prefix before it does and that row of the enhanced table.
pub fn stand(row: &Row, was: Standing, p: Pick) -> Standing
    requires { Stands row.now.columns.x.now row.now.j was × Judgement row.now.columns.x.now row.now.j 0 p }
    ensures { Stands row.now.columns.x.now (row.now.j + 1) result }
{
    let b = Found {
        len: p.best,
        count: p.count,
    };
    let left = was.left.max(b);
    let far = was.far.max(usize::from(row.columns.border[row.j]));
    let seed = next(row, was.seed, b, left, far);
    Standing { seed, left, far }
}
