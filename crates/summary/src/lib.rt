// Floor 2, on top: what a program says of a whole log, every table made once.
#![tactic(auto)]

ghost use Rattle.std.specs.Prelude.{◌≡◌, ◌++◌, ◌≤◌, ◌<◌, eqb, length, drop};
ghost use Rattle.words.specs.Words.{cover_list};
ghost use Rattle.words.specs.Tables.{border_row, cover_row, written};
ghost use Rattle.words.specs.Refusals.{longest};
ghost use Rattle.words.proofs.Tables.{Room, Holds};
ghost use Rattle.cover.specs.Tree.{Blank};
ghost use Rattle.summary.specs.Whole.{outline_of, summary_of, Made};

use bases::Bases;

// What the border and the cover table say of the whole log: its normal form, how many covers it has, and its weighed list.
#[derive(Clone, Copy)]
pub struct Outline {
    pub normal: words::Part,
    pub covers: usize,
    pub weighed: words::Weighed,
}

// The outline, and Best and Count of the whole log.
#[derive(Clone, Copy)]
pub struct Summary {
    pub outline: Outline,
    pub best: u16,
    pub count: u16,
}

// Reads the outline off the border and the cover table, and writes the covers, rising, into the first entries of the lent table.
fn read_bases(bases: &Bases, covers: &mut [u16]) -> Outline
    requires { Room bases.now.x.now covers.old × (0 < length bases.now.x.now) }
    ensures whole { result ≡ outline_of bases.now.x.now }
    ensures table { covers.new ≡ cover_list eqb bases.now.x.now ++ drop (length (cover_list eqb bases.now.x.now)) covers.old }
{
    Outline {
        normal: parts::normal(bases.x, bases.border, bases.x.len()),
        covers: coverings::list(bases.x, bases.cover, covers),
        weighed: weighing::list(bases),
    }
}

// Makes the border and the cover table, with two arrays to work in, and reads the outline off them.
fn begin(
    x: &[u8],
    border: &mut [u16],
    cover: &mut [u16],
    up: &mut [u16],
    kids: &mut [u16],
    covers: &mut [u16],
) -> Outline
    requires { Room x.now border.old × Room x.now cover.old × Blank x.now up.old kids.old × Room x.now covers.old × (0 < length x.now) }
    ensures whole { result ≡ outline_of x.now }
    ensures border { border.new ≡ written (border_row x.now) (length x.now) border.old }
    ensures cover { cover.new ≡ written (cover_row x.now) (length x.now) cover.old }
    ensures table { covers.new ≡ cover_list eqb x.now ++ drop (length (cover_list eqb x.now)) covers.old }
{
    bases::borders_and_covers(x, border, cover, up, kids);
    let bases = Bases { x, border, cover };
    read_bases(&bases, covers)
}

// Lays Best over the border table and the chain over the cover table, and makes Count.
fn lay(
    x: &[u8],
    best: &mut [u16],
    count: &mut [u16],
    chain: &mut [u16],
    last: &mut [u16],
    held: &mut [u16],
)
    requires { Holds border_row x.now best.old × Holds cover_row x.now chain.old × Room x.now last.old × Room x.now held.old × Room x.now count.old }
    ensures { Made x.now best.new count.new }
{
    enhanced::rows(x, chain, last, held, best, count);
}

// Reads off the last rows what is left to say.
fn read_rest(x: &[u8], best: &[u16], count: &[u16], outline: Outline) -> Summary
    requires { Made x.now best.now count.now × (outline ≡ outline_of x.now) × (0 < length x.now) × (length x.now ≤ longest) }
    ensures { result ≡ summary_of x.now }
{
    let last = x.len() - 1;
    Summary {
        outline,
        best: best[last],
        count: count[last],
    }
}

// Sums x up, and writes its covers, rising, into the first entries of the lent table. The border and the cover table are read before they are laid over.
pub fn of(x: &[u8], covers: &mut [u16]) -> Summary
    requires { Room x.now covers.old × (0 < length x.now) }
    ensures whole { result ≡ summary_of x.now }
    ensures table { covers.new ≡ cover_list eqb x.now ++ drop (length (cover_list eqb x.now)) covers.old }
{
    let mut best = [0u16; words::LONGEST];
    let mut count = [0u16; words::LONGEST];
    let mut chain = [0u16; words::LONGEST];
    let mut up = [0u16; words::LONGEST + 1];
    let mut kids = [0u16; words::LONGEST + 1];
    let outline = begin(x, &mut best, &mut chain, &mut up, &mut kids, covers);
    lay(x, &mut best, &mut count, &mut chain, &mut up, &mut kids);
    read_rest(x, &best, &count, outline)
}
