// Floor 2: the two tables that the others are made from, in arrays that are lent.
#![tactic(auto)]

ghost use Rattle.std.specs.Prelude.{◌≡◌, ◌≤◌, length};
ghost use Rattle.words.specs.Tables.{border_row, cover_row, written};
ghost use Rattle.words.specs.Refusals.{longest};
ghost use Rattle.words.proofs.Tables.{Room, Holds};
ghost use Rattle.cover.specs.Tree.{Blank};
ghost use Rattle.bases.specs.Copies.{copy_row};

// A log that is not too long, with its border table and its cover table.
#[derive(Clone, Copy)]
pub struct Bases<'a> {
    pub x: &'a [u8],
    pub border: &'a [u16],
    pub cover: &'a [u16],
    pub ghost most: { length x.now ≤ longest },
    pub ghost borders: { Holds border_row x.now border.now },
    pub ghost covers: { Holds cover_row x.now cover.now },
}

// Copies the rows of one table of x into another. Row by row: `copy_from_slice` would be a call of the C library's `memmove`, which the archive for C asks for nowhere else.
fn copy(x: &[u8], from: &[u16], to: &mut [u16])
    requires { (length x.now ≤ length from.now) × Room x.now to.old }
    ensures { to.new ≡ written (copy_row from.now x.now) (length x.now) to.old }
{
    for r in 0..x.len() {
        to[r] = from[r];
    }
}

// The border table of x, then its cover table, with two arrays lent for the cover table's tree.
pub fn borders_and_covers(
    x: &[u8],
    border: &mut [u16],
    cover: &mut [u16],
    up: &mut [u16],
    kids: &mut [u16],
)
    requires { Room x.now border.old × Room x.now cover.old × Blank x.now up.old kids.old }
    ensures border { border.new ≡ written (border_row x.now) (length x.now) border.old }
    ensures cover { cover.new ≡ written (cover_row x.now) (length x.now) cover.old }
{
    border::rows(x, border);
    copy(x, border, cover);
    cover::rows(x, up, kids, cover);
}

// The border and the cover table once more, in b and c, which will be laid over.
pub fn copies(bases: &Bases, b: &mut [u16], c: &mut [u16])
    requires { Room bases.now.x.now b.old × Room bases.now.x.now c.old }
    ensures border { b.new ≡ written (border_row bases.now.x.now) (length bases.now.x.now) b.old }
    ensures cover { c.new ≡ written (cover_row bases.now.x.now) (length bases.now.x.now) c.old }
{
    copy(bases.x, bases.border, b);
    copy(bases.x, bases.cover, c);
}
