// Floor 2, on top: all five columns of a log, in the caller's tables.
#![tactic(auto)]

ghost use Rattle.std.specs.Prelude.{◌≡◌, eqb, length};
ghost use Rattle.words.specs.Words as Words;
ghost use Rattle.words.specs.Tables.{border_row, prefix_row, cover_row, best_row, count_row, written};
ghost use Rattle.words.proofs.Tables.{Room};
ghost use Rattle.words.proofs.Weighs.{heaviest_row};
ghost use Rattle.cover.specs.Tree.{Blank};

use bases::Bases;

// Writes Best and Count of the log into the first rows of the two tables, from a border and a cover table that stay, with three arrays to work in, and
// returns the weighed total. Of these `chain` is left with the chain of weighed borders.
fn weighed_beside(
    bases: &Bases,
    best: &mut [u16],
    count: &mut [u16],
    chain: &mut [u16],
    last: &mut [u16],
    held: &mut [u16],
) -> u32
    requires { Room bases.now.x.now best.old × Room bases.now.x.now count.old × Room bases.now.x.now chain.old × Room bases.now.x.now last.old × Room bases.now.x.now held.old }
    ensures best { best.new ≡ written (best_row bases.now.x.now) (length bases.now.x.now) best.old }
    ensures count { count.new ≡ written (count_row bases.now.x.now) (length bases.now.x.now) count.old }
    ensures chain { chain.new ≡ written (heaviest_row bases.now.x.now) (length bases.now.x.now) chain.old }
    ensures total { result ≡ Words.total eqb bases.now.x.now }
{
    bases::copies(bases, best, chain);
    enhanced::rows(bases.x, chain, last, held, best, count)
}

// Writes four columns of x into the first rows of the lent tables, with three arrays to work in, and returns the weighed total. Of these `chain` is left with
// the chain of weighed borders.
fn four_columns(
    x: &[u8],
    border: &mut [u16],
    cover: &mut [u16],
    best: &mut [u16],
    count: &mut [u16],
    chain: &mut [u16],
    up: &mut [u16],
    kids: &mut [u16],
) -> u32
    requires { Room x.now border.old × Room x.now cover.old × Room x.now best.old × Room x.now count.old × Room x.now chain.old × Blank x.now up.old kids.old }
    ensures border { border.new ≡ written (border_row x.now) (length x.now) border.old }
    ensures cover { cover.new ≡ written (cover_row x.now) (length x.now) cover.old }
    ensures best { best.new ≡ written (best_row x.now) (length x.now) best.old }
    ensures count { count.new ≡ written (count_row x.now) (length x.now) count.old }
    ensures chain { chain.new ≡ written (heaviest_row x.now) (length x.now) chain.old }
    ensures total { result ≡ Words.total eqb x.now }
{
    bases::borders_and_covers(x, border, cover, up, kids);
    let bases = Bases { x, border, cover };
    weighed_beside(&bases, best, count, chain, up, kids)
}

// The tables stay five parameters, as C lends them: of one type a clause would say `tables.exit.border.now` for `border.new`, and so for each of the five.

// Writes all five columns of x into the first rows of the lent tables, each made once from those before it, and returns the weighed total. The prefix
// table is made last: until then the chain stands in its rows.
pub fn rows(
    x: &[u8],
    border: &mut [u16],
    prefix: &mut [u16],
    cover: &mut [u16],
    best: &mut [u16],
    count: &mut [u16],
) -> u32
    requires { Room x.now border.old × Room x.now prefix.old × Room x.now cover.old × Room x.now best.old × Room x.now count.old }
    ensures border { border.new ≡ written (border_row x.now) (length x.now) border.old }
    ensures prefix { prefix.new ≡ written (prefix_row x.now) (length x.now) prefix.old }
    ensures cover { cover.new ≡ written (cover_row x.now) (length x.now) cover.old }
    ensures best { best.new ≡ written (best_row x.now) (length x.now) best.old }
    ensures count { count.new ≡ written (count_row x.now) (length x.now) count.old }
    ensures total { result ≡ Words.total eqb x.now }
{
    let mut up = [0u16; words::LONGEST + 1];
    let mut kids = [0u16; words::LONGEST + 1];
    let total = four_columns(x, border, cover, best, count, prefix, &mut up, &mut kids);
    prefix::rows(x, prefix);
    total
}
