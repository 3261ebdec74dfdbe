// Floor 2: the border table of a log, by the failure function.
#![tactic(auto)]

ghost use Rattle.std.specs.Prelude.{◌≡◌, ◌-◌, ◌<◌, length, get_or};
ghost use Rattle.words.specs.Tables.{border_row, written};
ghost use Rattle.words.proofs.Tables.{Room, Filled};

// The border at row r, from the one of the row before it, b, and the rows before that: along the chain of borders, the first that x[r] can follow.
#[tactic(auto, using(words::proofs::Borders::candidate_hit, words::proofs::Borders::candidate_none))]
fn extend(x: &[u8], t: &[u16], r: usize, b: usize) -> usize
    requires { Filled border_row x.now t.now r × (0 < r) × (b ≡ border_row x.now (r - 1)) }
    ensures { result ≡ border_row x.now r }
{
    let reading = x[r];
    let mut k = b;
    'chain: loop {
        if x[k] == reading {
            return k + 1;
        }
        if k == 0 {
            return 0;
        }
        k = usize::from(t[k - 1]);
    }
}

// The rows after the first, with the last border at hand.
fn fill(x: &[u8], t: &mut [u16])
    requires { Room x.now t.old × (0 < length x.now) × (get_or t.old 0 0 ≡ 0) }
    ensures { t.new ≡ written (border_row x.now) (length x.now) t.old }
{
    let mut b = 0;
    for r in 1..x.len() {
        b = extend(x, t, r, b);
        t[r] = b as u16;
    }
}

// Writes the border table of x into the first rows of t.
pub fn rows(x: &[u8], t: &mut [u16])
    requires { Room x.now t.old }
    ensures { t.new ≡ written (border_row x.now) (length x.now) t.old }
{
    if x.is_empty() {
        return;
    }
    t[0] = 0;
    fill(x, t);
}
