// Floor 2: the prefix table of a log, by the stretch known to occur that reaches furthest right.
#![tactic(auto)]

ghost use Rattle.std.specs.Prelude.{◌≡◌, ◌+◌, ◌-◌, ◌≤◌, ◌<◌, eqb, length, get_or};
ghost use Rattle.words.specs.Tables.{prefix_row, written};
ghost use Rattle.words.proofs.Tables.{Room, Filled};
ghost use Rattle.words.proofs.Prefixes.{Reaches};
ghost use Rattle.prefix.specs.Stretch.{Stretch, Reached};

// A row, and the stretch after it: the readings of x from `from` up to `to` are its first ones again.
#[derive(Clone, Copy)]
struct Reach {
    row: usize,
    from: usize,
    to: usize,
}

// Where the stretch that begins at r ends. Its readings up to `to` are known to agree.
fn scan(x: &[u8], r: usize, to: usize) -> usize
    requires { (r ≤ to) × Reaches eqb x.now r (to - r) }
    ensures { result ≡ r + prefix_row x.now r }
{
    for k in to..x.len() {
        if x[k - r] != x[k] {
            return k;
        }
    }
    x.len()
}

// The row at r with the stretch that begins there, of which the readings up to `to` are known to agree.
fn compare(x: &[u8], r: usize, to: usize) -> Reach
    requires { (r ≤ to) × Reaches eqb x.now r (to - r) × (0 < r) × (r < length x.now) }
    ensures { Reached x.now r result.row result.from result.to }
{
    let end = scan(x, r, to);
    Reach {
        row: end - r,
        from: r,
        to: end,
    }
}

// The row at r, from the rows before it and the stretch s: inside the stretch an earlier row tells, past it readings are compared.
// Two calls compare, where one with the later of the two places would do: so each has a loop of its own, and takes less time.
fn step(x: &[u8], t: &[u16], r: usize, s: Reach) -> Reach
    requires { Filled prefix_row x.now t.now r × Stretch x.now r s.from s.to × (0 < r) }
    ensures { Reached x.now r result.row result.from result.to }
{
    let known = usize::from(t[r - s.from]);
    if r + known < s.to {
        Reach { row: known, ..s }
    } else if r < s.to {
        compare(x, r, s.to)
    } else {
        compare(x, r, r)
    }
}

// The rows after the first.
fn fill(x: &[u8], t: &mut [u16])
    requires { Room x.now t.old × (0 < length x.now) × (get_or t.old 0 0 ≡ length x.now) }
    ensures { t.new ≡ written (prefix_row x.now) (length x.now) t.old }
{
    let mut s = Reach {
        row: 0,
        from: 1,
        to: 1,
    };
    for r in 1..x.len() {
        s = step(x, t, r, s);
        t[r] = s.row as u16;
    }
}

// Writes the prefix table of x into the first rows of t.
pub fn rows(x: &[u8], t: &mut [u16])
    requires { Room x.now t.old }
    ensures { t.new ≡ written (prefix_row x.now) (length x.now) t.old }
{
    if x.is_empty() {
        return;
    }
    t[0] = x.len() as u16;
    fill(x, t);
}
