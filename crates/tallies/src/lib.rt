// Floor 2: one row of the enhanced table. Only the weighed borders of a prefix are walked, each with its last end and its count kept.
#![tactic(auto)]

ghost use Rattle.std.specs.Prelude.{◌≡◌, ◌+◌, ◌-◌, ◌*◌, ◌≤◌, ◌<◌, min, length, get_or, set, eqb};
ghost use Rattle.words.specs.Words.{covered};
ghost use Rattle.words.specs.Tables.{border_row, cover_row};
ghost use Rattle.words.specs.Refusals as Refusals;
ghost use Rattle.words.proofs.Tables.{Filled};
ghost use Rattle.words.proofs.Weighs as Weighs;
ghost use Rattle.words.proofs.Weighs.{heaviest_row};
ghost use Rattle.tallies.specs.Tallies.{most_weighed, Flags, Tallies, Round, Better, Judgement};

// The best of the borders weighed so far, the positions that it covers, and how many were weighed, those of the rows before counted in.
#[derive(Clone, Copy)]
pub struct Pick {
    pub best: usize,
    pub count: usize,
    pub total: u32,
}

impl Pick {
    // Weighs one border more, w, which covers k positions. Of equals it takes w, the shorter. There is room to count those of the rows before and of this one.
    fn weigh(self, w: usize, k: usize) -> Pick
        requires { self.total < 2 * most_weighed }
        ensures { Better self w k result }
    {
        let total = self.total + 1;
        if self.count <= k {
            Pick {
                best: w,
                count: k,
                total,
            }
        } else {
            Pick { total, ..self }
        }
    }
}

// The positions covered once a pattern, or a start of it, of length w ends at i, where k were covered up to its last end e.
pub fn grown(w: usize, i: usize, e: usize, k: usize) -> usize
    requires { (e ≤ i) × (k + i ≤ 65536) }
    ensures { result ≡ k + min w (i - e) }
{
    k + w.min(i - e)
}

// The new prefix, the first j + 1 readings of a log that is not too long.
// Its last ends and its counts stay two parameters: a type that holds `Tallies` would be broken, a `Round`, in every step of a row.
#[derive(Clone, Copy)]
struct Prefix<'a> {
    x: &'a [u8],
    j: usize,
    ghost inside: { j < length x.now },
    ghost most: { length x.now ≤ Refusals.longest },
}

impl Prefix<'_> {
    // It has no proper cover: it ends at its own end and covers all of itself.
    fn enter(&self, last: &mut [u16], held: &mut [u16])
        requires { Tallies self.now.x.now last.old held.old self.now.j × (cover_row self.now.x.now self.now.j ≡ 0) }
        ensures { Round self.now.x.now last.new held.new self.now.j (heaviest_row self.now.x.now self.now.j) }
    {
        let i = (self.j + 1) as u16;
        held[self.j] = i;
        last[self.j] = i;
    }

    // Its longest proper cover is c. One that has a cover is never weighed.
    fn place(&self, last: &mut [u16], held: &mut [u16], c: u16)
        requires { Tallies self.now.x.now last.old held.old self.now.j × (c ≡ cover_row self.now.x.now self.now.j) }
        ensures { Round self.now.x.now last.new held.new self.now.j (heaviest_row self.now.x.now self.now.j) }
    {
        if c != 0 {
            last[self.j] = 0;
        } else {
            self.enter(last, held);
        }
    }

    // It has no border, and so no proper cover: nothing is weighed.
    fn alone(&self, last: &mut [u16], held: &mut [u16], total: u32) -> Pick
        requires { Tallies self.now.x.now last.old held.old self.now.j × (0 ≡ border_row self.now.x.now self.now.j) }
        ensures { Tallies self.now.x.now last.new held.new (self.now.j + 1) × Judgement self.now.x.now self.now.j total result }
    {
        self.enter(last, held);
        Pick {
            best: 0,
            count: 0,
            total,
        }
    }

    // The weighed border w ends where it ends: the positions that w covers up to there.
    fn tally(&self, last: &mut [u16], held: &mut [u16], w: usize) -> usize
        requires { Round self.now.x.now last.old held.old self.now.j w × (0 < w) }
        ensures { Round self.now.x.now last.new held.new self.now.j (Weighs.heaviest self.now.x.now w) × (result ≡ covered eqb self.now.x.now (self.now.j + 1) w) }
    {
        let e = usize::from(last[w - 1]);
        let c = usize::from(held[w - 1]);
        let i = self.j + 1;
        let k = grown(w, i, e, c);
        last[w - 1] = i as u16;
        held[w - 1] = k as u16;
        k
    }

    // Its best border, down the chain of its weighed borders, of which the longest is `longest`. `total` were weighed in the rows before.
    fn weigh(
        &self,
        chain: &[u16],
        last: &mut [u16],
        held: &mut [u16],
        longest: usize,
        total: u32,
    ) -> Pick
        requires { Round self.now.x.now last.old held.old self.now.j longest × Filled heaviest_row self.now.x.now chain.now self.now.j × (longest ≡ heaviest_row self.now.x.now self.now.j) × (total ≤ most_weighed) }
        ensures { Tallies self.now.x.now last.new held.new (self.now.j + 1) × Judgement self.now.x.now self.now.j total result }
    {
        let mut b = Pick {
            best: 0,
            count: 0,
            total,
        };
        let mut w = longest;
        while w != 0 {
            let k = self.tally(last, held, w);
            b = b.weigh(w, k);
            w = usize::from(chain[w - 1]);
        }
        b
    }

    // Its longest weighed border, where its border b is not empty: b, if it has no proper cover, as its last end says; else what its own row of the chain says.
    fn heaviest(&self, chain: &[u16], last: &[u16], b: usize) -> usize
        requires { Flags self.now.x.now last.now self.now.j × Filled heaviest_row self.now.x.now chain.now self.now.j × (b ≡ border_row self.now.x.now self.now.j) × (0 < b) }
        ensures { result ≡ heaviest_row self.now.x.now self.now.j }
    {
        if last[b - 1] != 0 {
            b
        } else {
            usize::from(chain[b - 1])
        }
    }
}

// Row j, whose border is b: its entry of the chain is laid over its cover, and its weighed borders are tallied. `total` were weighed in the rows before.
pub fn row(
    x: &[u8],
    chain: &mut [u16],
    last: &mut [u16],
    held: &mut [u16],
    j: usize,
    b: usize,
    total: u32,
) -> Pick
    requires { Tallies x.now last.old held.old j × Filled heaviest_row x.now chain.old j × (get_or chain.old j 0 ≡ cover_row x.now j) × (b ≡ border_row x.now j) × (length x.now ≤ Refusals.longest) × (total ≤ most_weighed) }
    ensures chain { chain.new ≡ set chain.old j (heaviest_row x.now j) }
    ensures tallies { Tallies x.now last.new held.new (j + 1) }
    ensures judged { Judgement x.now j total result }
{
    let new = Prefix { x, j };
    if b == 0 {
        // Its cover is 0, and so is its entry of the chain: nothing to store.
        return new.alone(last, held, total);
    }
    let w = new.heaviest(chain, last, b);
    new.place(last, held, chain[j]);
    chain[j] = w as u16;
    new.weigh(chain, last, held, w, total)
}
