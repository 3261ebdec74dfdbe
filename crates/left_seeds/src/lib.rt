// Floor 2: the left seeds of a log, row by row.
#![tactic(auto)]

ghost use Rattle.std.specs.Prelude.{◌≡◌, ◌+◌, length, get_or, set};
ghost use Rattle.words.specs.Tables.{cover_row, written};
ghost use Rattle.words.proofs.Tables.{Room, Holds, Filled};
ghost use Rattle.words.proofs.Weighs.{heaviest_row};
ghost use Rattle.cover.specs.Tree.{Blank};
ghost use Rattle.tallies.specs.Tallies.{Tallies};
ghost use Rattle.repeats.specs.Repeats.{left_seed_row, seed_count_row};
ghost use Rattle.candidates.specs.Candidates.{Made};
ghost use Rattle.standings.specs.Standings.{Stands};

use bases::Bases;
use candidates::{Columns, Row};
use standings::Standing;

// One row: its weighed borders are tallied, and its entry in their chain is laid over its cover.
fn row(
    columns: &Columns,
    chain: &mut [u16],
    last: &mut [u16],
    held: &mut [u16],
    j: usize,
    was: Standing,
) -> Standing
    requires { Filled heaviest_row columns.now.x.now chain.old j × (get_or chain.old j 0 ≡ cover_row columns.now.x.now j) × Tallies columns.now.x.now last.old held.old j × Stands columns.now.x.now j was }
    ensures chain { chain.new ≡ set chain.old j (heaviest_row columns.now.x.now j) }
    ensures tallies { Tallies columns.now.x.now last.new held.new (j + 1) }
    ensures stands { Stands columns.now.x.now (j + 1) result }
{
    let b = usize::from(columns.border[j]);
    let p = tallies::row(columns.x, chain, last, held, j, b, 0);
    let row = Row {
        columns: *columns,
        last,
        held,
        j,
    };
    standings::stand(&row, was, p)
}

// The rows, from the columns that every row reads and the cover table, with which `chain` comes, with room to work in.
fn judge(
    columns: &Columns,
    chain: &mut [u16],
    last: &mut [u16],
    held: &mut [u16],
    best: &mut [u16],
    count: &mut [u16],
)
    requires { Holds cover_row columns.now.x.now chain.old × Room columns.now.x.now last.old × Room columns.now.x.now held.old × Room columns.now.x.now best.old × Room columns.now.x.now count.old }
    ensures best { best.new ≡ written (left_seed_row columns.now.x.now) (length columns.now.x.now) best.old }
    ensures count { count.new ≡ written (seed_count_row columns.now.x.now) (length columns.now.x.now) count.old }
{
    let mut s = Standing::default();
    for j in 0..columns.x.len() {
        s = row(columns, chain, last, held, j, s);
        best[j] = s.seed.len as u16;
        count[j] = s.seed.count as u16;
    }
}

// The columns that every row reads, and the cover table.
fn columns(
    x: &[u8],
    border: &mut [u16],
    cover: &mut [u16],
    bare: &mut [u16],
    fall: &mut [u16],
    up: &mut [u16],
    kids: &mut [u16],
)
    requires { Room x.now border.old × Room x.now cover.old × Room x.now bare.old × Room x.now fall.old × Blank x.now up.old kids.old }
    ensures { Made x.now border.new bare.new fall.new × Holds cover_row x.now cover.new }
{
    bases::borders_and_covers(x, border, cover, up, kids);
    let bases = Bases { x, border, cover };
    candidates::rows(&bases, bare, fall);
}

// Writes the left seed of each prefix of x and the positions that it reaches into the first rows of the two tables. The chain is laid over the cover table, and
// the tree of that table leaves its arrays to the last ends and the counts.
pub fn rows(x: &[u8], best: &mut [u16], count: &mut [u16])
    requires { Room x.now best.old × Room x.now count.old }
    ensures best { best.new ≡ written (left_seed_row x.now) (length x.now) best.old }
    ensures count { count.new ≡ written (seed_count_row x.now) (length x.now) count.old }
{
    let mut border = [0u16; words::LONGEST];
    let mut bare = [0u16; words::LONGEST];
    let mut fall = [0u16; words::LONGEST];
    let mut chain = [0u16; words::LONGEST];
    let mut up = [0u16; words::LONGEST + 1];
    let mut kids = [0u16; words::LONGEST + 1];
    columns(
        x,
        &mut border,
        &mut chain,
        &mut bare,
        &mut fall,
        &mut up,
        &mut kids,
    );
    let made = Columns {
        x,
        border: &border,
        bare: &bare,
        fall: &fall,
    };
    judge(&made, &mut chain, &mut up, &mut kids, best, count);
}
