// Floor 2: one cover tested, and all covers listed.
// The log and a table stay two parameters, and no type as `bases::Bases` is: a caller has them for one call, and would make and name a value for it.
#![tactic(auto)]

ghost use Rattle.std.specs.Prelude.{◌≡◌, ◌++◌, ◌≤◌, ◌<◌, eqb, length, drop};
ghost use Rattle.words.specs.Words.{covers, cover_list};
ghost use Rattle.words.specs.Tables.{prefix_row, cover_row};
ghost use Rattle.words.specs.Refusals.{longest};
ghost use Rattle.words.proofs.Tables.{Room, Holds};

// Whether the first q readings of x cover all of it: one pass over the places, with the last end kept. The prefix table says where they occur.
pub fn sweep(x: &[u8], prefix: &[u16], q: usize) -> bool
    requires { Holds prefix_row x.now prefix.now × (0 < q) × (q ≤ length x.now) × (length x.now ≤ longest) }
    ensures { result ≡ covers eqb x.now (length x.now) q }
{
    let places = x.len() - q + 1;
    let mut end = 0;
    for s in 0..places {
        if end < s {
            return false;
        }
        if q <= usize::from(prefix[s]) {
            end = s + q;
        }
    }
    end == x.len()
}

// How many covers x has: the length of the chain of the cover table from x on.
fn chain_length(x: &[u8], cover: &[u16]) -> usize
    requires { Holds cover_row x.now cover.now × (0 < length x.now) × (length x.now ≤ longest) }
    ensures { result ≡ length (cover_list eqb x.now) }
{
    let mut k = 0;
    let mut q = x.len();
    while q != 0 {
        k += 1;
        q = usize::from(cover[q - 1]);
    }
    k
}

// Writes the k covers of x into the first entries of t, from the longest down.
#[tactic(auto, using(crate::proofs::Lists::placed_cover))]
fn write_chain(x: &[u8], cover: &[u16], k: usize, t: &mut [u16])
    requires { Room x.now t.old × Holds cover_row x.now cover.now × (0 < length x.now) × (k ≡ length (cover_list eqb x.now)) }
    ensures { t.new ≡ cover_list eqb x.now ++ drop (length (cover_list eqb x.now)) t.old }
{
    let mut q = x.len();
    for left in (0..k).rev() {
        t[left] = q as u16;
        q = usize::from(cover[q - 1]);
    }
}

// Writes the covers of x, rising, into the first entries of t, from its cover table, and returns how many they are.
pub fn list(x: &[u8], cover: &[u16], t: &mut [u16]) -> usize
    requires { Room x.now t.old × Holds cover_row x.now cover.now × (0 < length x.now) }
    ensures number { result ≡ length (cover_list eqb x.now) }
    ensures table { t.new ≡ cover_list eqb x.now ++ drop (length (cover_list eqb x.now)) t.old }
{
    let k = chain_length(x, cover);
    write_chain(x, cover, k, t);
    k
}
