// Floor 2: the patterns that can be a left seed. Only those that have no proper cover can, and each is weighed with its longest start that ends the prefix.
#![tactic(auto)]

ghost use Rattle.std.specs.Prelude.{◌≡◌, ◌+◌, ◌<◌, eqb, length};
ghost use Rattle.words.specs.Words as Words;
ghost use Rattle.words.specs.Tables.{written};
ghost use Rattle.words.proofs.Tables.{Room, Filled};
ghost use Rattle.repeats.specs.Repeats.{reached};
ghost use Rattle.repeats.proofs.Starts as Starts;
ghost use Rattle.repeats.proofs.LeftSeeds.{Bare};
ghost use Rattle.candidates.specs.Candidates.{bare_row, fall_row, Sown, Far, Ready, Taken};

mod columns;

use bases::Bases;
pub use columns::{Columns, Row};

// The left seed of a prefix: its length, the positions that it reaches, and its longest start that ends the prefix.
#[derive(Clone, Copy, Default)]
pub struct Seed {
    pub len: usize,
    pub count: usize,
    pub start: usize,
}

impl Seed {
    // Weighs one pattern more, q, which reaches k positions and whose longest start is m. Of equals it takes q, the shorter.
    fn weigh(self, q: usize, k: usize, m: usize) -> Seed
        ensures { Taken self q k m result }
    {
        if self.count <= k {
            Seed {
                len: q,
                count: k,
                start: m,
            }
        } else {
            self
        }
    }
}

// Row r, from the rows before it: the longest length up to r that has no proper cover.
fn bare_at(bases: &Bases, bare: &[u16], r: usize) -> usize
    requires { Filled bare_row bases.now.x.now bare.now r }
    ensures { result ≡ bare_row bases.now.x.now r }
{
    if r == 0 {
        0
    } else if bases.cover[r - 1] == 0 {
        r
    } else {
        usize::from(bare[r - 1])
    }
}

// Row r, from the rows before it: the longest border of the first r readings that is shorter than q, the longest length up to r without a proper cover.
fn fall_at(bases: &Bases, fall: &[u16], r: usize, q: usize) -> usize
    requires { Filled fall_row bases.now.x.now fall.now r × (q ≡ bare_row bases.now.x.now r) }
    ensures { result ≡ fall_row bases.now.x.now r }
{
    if r == 0 {
        return 0;
    }
    let b = usize::from(bases.border[r - 1]);
    if b < q { b } else { usize::from(fall[b]) }
}

// Row r of `bare` becomes the longest length up to r that has no proper cover, row r of `fall` the longest border of the first r readings that is shorter
// than that: where a start falls to when the pattern becomes one that is no longer than it.
pub fn rows(bases: &Bases, bare: &mut [u16], fall: &mut [u16])
    requires { Room bases.now.x.now bare.old × Room bases.now.x.now fall.old }
    ensures bare { bare.new ≡ written (bare_row bases.now.x.now) (length bases.now.x.now) bare.old }
    ensures fall { fall.new ≡ written (fall_row bases.now.x.now) (length bases.now.x.now) fall.old }
{
    for r in 0..bases.x.len() {
        let q = bare_at(bases, bare, r);
        let m = fall_at(bases, fall, r, q);
        bare[r] = q as u16;
        fall[r] = m as u16;
    }
}

// The longest start of q that ends the row's prefix, where m is that of the pattern before q.
fn start_of(row: &Row, m: usize, q: usize) -> usize
    requires { Ready row.now.columns.x.now (row.now.j + 1) q m × (0 < q) }
    ensures { result ≡ Starts.start eqb row.now.columns.x.now (row.now.j + 1) q }
{
    if q <= m {
        usize::from(row.columns.fall[m])
    } else {
        m
    }
}

// Weighs one pattern more, q, whose longest start is m. Where what it covers and all of the start are not enough, its last end is not asked.
fn weighed(row: &Row, q: usize, m: usize, s: Seed) -> Seed
    requires { Bare row.now.columns.x.now (row.now.j + 1) 0 q × (m ≡ Starts.start eqb row.now.columns.x.now (row.now.j + 1) q) }
    ensures { Taken s q (reached eqb row.now.columns.x.now (row.now.j + 1) q) m result }
{
    let c = usize::from(row.held[q - 1]);
    if c + m < s.count {
        return s;
    }
    let k = tallies::grown(m, row.j + 1, usize::from(row.last[q - 1]), c);
    s.weigh(q, k, m)
}

// The left seed of the row's prefix: every pattern without a proper cover that repeats, from the longest down. `far` is the longest prefix that
// repeats, b the border.
pub fn best(row: &Row, far: usize, b: usize) -> Seed
    requires { Far row.now.columns.x.now (row.now.j + 1) far × (b ≡ Words.border eqb row.now.columns.x.now (row.now.j + 1)) }
    ensures { Sown row.now.columns.x.now (row.now.j + 1) result }
{
    let mut s = Seed::default();
    let mut m = b;
    let mut q = usize::from(row.columns.bare[far]);
    while q != 0 {
        m = start_of(row, m, q);
        s = weighed(row, q, m, s);
        q = usize::from(row.columns.bare[q - 1]);
    }
    s
}
