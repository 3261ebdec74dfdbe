// Floor 2: the weighed list of a log, from its border and its cover table.
#![tactic(auto)]

ghost use Rattle.std.specs.Prelude.{◌≡◌, ◌≤◌, ◌<◌, eqb, length};
ghost use Rattle.words.specs.Words as Words;
ghost use Rattle.words.specs.Refusals.{longest};
ghost use Rattle.words.specs.Answers.{listed};
ghost use Rattle.words.proofs.Weighs as Weighs;

use bases::Bases;

// The exponent of the greatest power of two not above i.
#[tactic(auto, using(crate::proofs::Steps::exponent_limit))]
fn exponent(i: usize) -> u16
    requires { (0 < i) × (i ≤ longest) }
    ensures { result ≡ Words.limit i }
{
    (usize::BITS - 1 - i.leading_zeros()) as u16
}

// The longest weighed border of the first i readings: down the chain of their borders, the first that has no proper cover.
fn heaviest(bases: &Bases, i: usize) -> usize
    requires { (0 < i) × (i ≤ length bases.now.x.now) }
    ensures { result ≡ Weighs.heaviest bases.now.x.now i }
{
    let mut q = i;
    loop {
        let b = usize::from(bases.border[q - 1]);
        if b == 0 || bases.cover[b - 1] == 0 {
            return b;
        }
        q = b;
    }
}

// The weighed borders of the whole log, longest first.
pub fn list(bases: &Bases) -> words::Weighed
    requires { 0 < length bases.now.x.now }
    ensures { result ≡ listed 0 (Words.weighed eqb bases.now.x.now (length bases.now.x.now)) (Words.limit (length bases.now.x.now)) }
{
    let n = bases.x.len();
    let limit = exponent(n);
    let mut lens = [0u16; words::WEIGHED_PLACES];
    // The chain ends by itself, and k counts what it wrote: a `for` over the places would need a way out in its middle.
    let mut k = 0;
    let mut w = heaviest(bases, n);
    while w != 0 {
        lens[k] = w as u16;
        k += 1;
        w = heaviest(bases, w);
    }
    words::Weighed {
        number: 0,
        used: k as u16,
        limit,
        lens,
    }
}
