// Floor 2, on top: a log that is accepted, judged as a whole, with work arrays of its own.
#![tactic(auto)]

ghost use Rattle.std.specs.Prelude.{◌≡◌, ◌++◌, ◌≤◌, ◌<◌, eqb, length, drop};
ghost use Rattle.words.specs.Words as Words;
ghost use Rattle.words.specs.Tables.{border_row, cover_row, best_row, count_row, written};
ghost use Rattle.words.specs.Refusals.{longest};
ghost use Rattle.words.specs.Answers.{breakdown_places, broken, listed};
ghost use Rattle.words.proofs.Tables.{Room, Holds};
ghost use Rattle.words.proofs.Refusals.{Judged};

use bases::Bases;

// By how much the array of the chain is longer than the others. Where two lie a multiple of 4,096 bytes apart, a read of the one waits for a store to the same
// row of the other: no instruction more, but time.
const APART: usize = 96;

// Writes the cover table of x into the first rows of t.
pub fn cover(x: &[u8], t: &mut [u16])
    requires { Room x.now t.old }
    ensures { t.new ≡ written (cover_row x.now) (length x.now) t.old }
{
    let mut up = [0u16; words::LONGEST + 1];
    let mut kids = [0u16; words::LONGEST + 1];
    border::rows(x, t);
    cover::rows(x, &mut up, &mut kids, t);
}

// Writes the enhanced table of x into the first rows of the two tables, and returns the weighed total. `best` carries the border table until Best is laid over
// it; the tree of the cover table, dead once that is made, leaves its arrays to the last ends and the counts.
pub fn enhanced(x: &[u8], best: &mut [u16], count: &mut [u16]) -> u32
    requires { Room x.now best.old × Room x.now count.old }
    ensures best { best.new ≡ written (best_row x.now) (length x.now) best.old }
    ensures count { count.new ≡ written (count_row x.now) (length x.now) count.old }
    ensures total { result ≡ Words.total eqb x.now }
{
    let mut chain = [0u16; words::LONGEST + APART];
    let mut up = [0u16; words::LONGEST + 1];
    let mut kids = [0u16; words::LONGEST + 1];
    bases::borders_and_covers(x, best, &mut chain, &mut up, &mut kids);
    enhanced::rows(x, &mut chain, &mut up, &mut kids, best, count)
}

// The length of the best pattern of x; 0 if there is none.
pub fn best(x: &[u8]) -> usize
    requires { Judged (length x.now) }
    ensures { result ≡ Words.best eqb x.now (length x.now) }
{
    let mut best = [0u16; words::LONGEST];
    let mut count = [0u16; words::LONGEST];
    enhanced(x, &mut best, &mut count);
    usize::from(best[x.len() - 1])
}

// The border table of x, in an array of its own.
fn border_table(x: &[u8]) -> [u16; words::LONGEST]
    requires { length x.now ≤ longest }
    ensures { Holds border_row x.now result }
{
    let mut border = [0u16; words::LONGEST];
    border::rows(x, &mut border);
    border
}

// The normal form of x.
pub fn normal(x: &[u8]) -> words::Part
    requires { Judged (length x.now) }
    ensures { result ≡ Words.normal eqb x.now (length x.now) }
{
    parts::normal(x, &border_table(x), x.len())
}

// The breakdown of x.
pub fn breakdown(x: &[u8]) -> words::Breakdown
    requires { Judged (length x.now) }
    ensures { result ≡ broken 0 (Words.breakdown eqb x.now breakdown_places (length x.now)) }
{
    parts::breakdown(x, &border_table(x))
}

// Whether the first q readings of x cover all of it.
pub fn covered_by(x: &[u8], q: usize) -> bool
    requires { Judged (length x.now) × (0 < q) × (q ≤ length x.now) }
    ensures { result ≡ Words.covers eqb x.now (length x.now) q }
{
    let mut prefix = [0u16; words::LONGEST];
    prefix::rows(x, &mut prefix);
    coverings::sweep(x, &prefix, q)
}

// Writes the covers of x, rising, into the first entries of t, and returns how many they are.
pub fn covers(x: &[u8], t: &mut [u16]) -> usize
    requires { Room x.now t.old × (0 < length x.now) }
    ensures number { result ≡ length (Words.cover_list eqb x.now) }
    ensures table { t.new ≡ Words.cover_list eqb x.now ++ drop (length (Words.cover_list eqb x.now)) t.old }
{
    let mut table = [0u16; words::LONGEST];
    cover(x, &mut table);
    coverings::list(x, &table, t)
}

// The weighed list of the whole of x.
pub fn weighed(x: &[u8]) -> words::Weighed
    requires { Judged (length x.now) }
    ensures { result ≡ listed 0 (Words.weighed eqb x.now (length x.now)) (Words.limit (length x.now)) }
{
    let mut border = [0u16; words::LONGEST];
    let mut cover = [0u16; words::LONGEST];
    let mut up = [0u16; words::LONGEST + 1];
    let mut kids = [0u16; words::LONGEST + 1];
    bases::borders_and_covers(x, &mut border, &mut cover, &mut up, &mut kids);
    let bases = Bases {
        x,
        border: &border,
        cover: &cover,
    };
    weighing::list(&bases)
}
