// Floor 2: normal forms and breakdowns, from the border table.
// The log and that table stay two parameters, and no type as `bases::Bases` is: a caller has them for one call, and would make and name a value for it.
#![tactic(auto)]

ghost use Rattle.std.specs.Prelude.{◌≡◌, ◌≤◌, ◌<◌, eqb, length};
ghost use Rattle.words.specs.Words as Words;
ghost use Rattle.words.specs.Tables.{border_row};
ghost use Rattle.words.specs.Refusals.{longest};
ghost use Rattle.words.specs.Answers.{breakdown_places, broken};
ghost use Rattle.words.proofs.Tables.{Holds};
ghost use Rattle.parts.specs.Depth.{Deep, Broken};

// The normal form of the prefix of length i, with its length.
pub fn normal(x: &[u8], border: &[u16], i: usize) -> words::Part
    requires { Holds border_row x.now border.now × (0 < i) × (i ≤ length x.now) × (length x.now ≤ longest) }
    ensures { result ≡ Words.normal eqb x.now i }
{
    let k1 = i - usize::from(border[i - 1]);
    words::Part {
        len: i as u16,
        k1: k1 as u16,
        k2: (i % k1) as u16,
        k: (i / k1) as u16,
    }
}

// The length of the part after p; 0 if the breakdown stops.
#[tactic(auto, using(std::proofs::lemmas::Bool::Decides::nat_tests), unfolding(words::specs::Words::next))]
fn next(p: words::Part) -> usize
    ensures { result ≡ Words.next p }
{
    if p.k2 > 0 {
        usize::from(p.k2)
    } else if p.k > 1 {
        usize::from(p.k1)
    } else {
        0
    }
}

// The parts from the prefix of length i on, into the places from d on. Each part is at most half of the one before, so there is a place for each.
fn descend(
    x: &[u8],
    border: &[u16],
    i: usize,
    above: words::Breakdown,
    d: usize,
) -> words::Breakdown
    requires { Holds border_row x.now border.now × Deep x.now i d }
    ensures { Broken x.now i d above result }
{
    if i == 0 {
        return words::Breakdown {
            used: d as u16,
            ..above
        };
    }
    let p = normal(x, border, i);
    let mut more = above;
    more.parts[d] = p;
    descend(x, border, next(p), more, d + 1)
}

// The breakdown of a log.
pub fn breakdown(x: &[u8], border: &[u16]) -> words::Breakdown
    requires { Holds border_row x.now border.now × (length x.now ≤ longest) }
    ensures { result ≡ broken 0 (Words.breakdown eqb x.now breakdown_places (length x.now)) }
{
    let zero = words::Part {
        len: 0,
        k1: 0,
        k2: 0,
        k: 0,
    };
    let none = words::Breakdown {
        number: 0,
        used: 0,
        parts: [zero; words::BREAKDOWN_PLACES],
    };
    descend(x, border, x.len(), none, 0)
}
