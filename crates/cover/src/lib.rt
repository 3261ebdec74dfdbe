// Floor 2: the cover table of a log, on line, by the tree of longest proper covers (specs/Tree).
// up and kids stay two parameters: `Forest`, the fact about them, speaks of a period and a row that change in every step, so that a type that carried it would be broken in
// each. And no array of pairs: the enhanced table has its last ends and its counts in the two afterwards.
#![tactic(auto)]

ghost use Rattle.std.specs.Prelude.{◌≡◌, ◌+◌, ◌-◌, ◌≤◌, length};
ghost use Rattle.words.specs.Tables.{border_row, cover_row, written};
ghost use Rattle.words.specs.Refusals.{longest};
ghost use Rattle.words.proofs.Tables.{Holds, Filled};
ghost use Rattle.cover.specs.Tree.{Forest, Found, Blank, Ready};

// The length p falls out of the window: it dies if it has no living child, and so does each cover above it that is left with none.
fn retire(x: &[u8], t: &[u16], up: &mut [u16], kids: &mut [u16], j: usize, p: usize)
    requires { Filled cover_row x.now t.now j × Forest x.now up.old kids.old p j 0 × (p ≤ j) × (length x.now ≤ longest) }
    ensures { Forest x.now up.new kids.new (p + 1) j 0 }
{
    let mut q = p;
    while kids[q] == 0 {
        let c = t[q - 1];
        up[q] = c;
        q = usize::from(c);
        kids[q] -= 1;
    }
}

// The window starts at `to`, no longer at `from`.
fn advance(x: &[u8], t: &[u16], up: &mut [u16], kids: &mut [u16], j: usize, from: usize, to: usize)
    requires { Filled cover_row x.now t.now j × Forest x.now up.old kids.old from j 0 × (from ≤ to) × (to ≤ j + 1) × (length x.now ≤ longest) }
    ensures { Forest x.now up.new kids.new to j 0 }
{
    for p in from..to {
        retire(x, t, up, kids, j, p);
    }
}

// The longest proper cover at row j, whose border is b: the first of b and the covers above it that lives. The dead on the way are to name one further up.
fn find(x: &[u8], up: &mut [u16], kids: &[u16], j: usize, b: usize) -> usize
    requires { Forest x.now up.old kids.now (j + 1 - b) j 0 × (length x.now ≤ longest) × (b ≡ border_row x.now j) }
    ensures { Found x.now up.new kids.now j b result }
{
    let mut q = b;
    loop {
        let u = usize::from(up[q]);
        if u == q {
            return q;
        }
        let g = up[u];
        up[q] = g;
        q = usize::from(g);
    }
}

// The rows, with room to work in. A row's border is asked for at that row alone: its cover is laid over it.
fn grow(x: &[u8], up: &mut [u16], kids: &mut [u16], t: &mut [u16])
    requires { Ready x.now up.old kids.old t.old }
    ensures { t.new ≡ written (cover_row x.now) (length x.now) t.old }
{
    let mut period = 1;
    for j in 0..x.len() {
        let b = usize::from(t[j]);
        let i = j + 1;
        advance(x, t, up, kids, j, period, i - b);
        let q = find(x, up, kids, j, b);
        t[j] = q as u16;
        up[i] = i as u16;
        kids[q] += 1;
        period = i - b;
    }
}

// Lays the cover table of x over its border table, with which t comes. Two arrays to work in are lent; what is in them afterwards means nothing.
pub fn rows(x: &[u8], up: &mut [u16], kids: &mut [u16], t: &mut [u16])
    requires { Holds border_row x.now t.old × (length x.now ≤ longest) × Blank x.now up.old kids.old }
    ensures { t.new ≡ written (cover_row x.now) (length x.now) t.old }
{
    kids[0] = 1;
    grow(x, up, kids, t);
}
