// Floor 1: patterns that need not end the log. The definitions of left covers and left seeds stand in specs/, the laws about them in proofs/.
#![tactic(auto)]

ghost use Rattle.std.specs.Prelude.{ℕ};
ghost use Rattle.std.proofs.Common.{rules};
ghost use Rattle.std.specs.Cmp.{partial_order_from_own_ties};
ghost use Rattle.std.specs.Cmp.Rules.{comparing};
ghost use Rattle.std.specs.Ordering.{nat_cmp, on, flip_args, then_cmp, as_partial_cmp};

use std::cmp::Ordering;

// A pattern's length, and the positions that it accounts for. Both are 0 where there is none.
#[derive(Clone, Copy, Default, PartialEq, Eq)]
pub struct Found {
    pub len: usize,
    pub count: usize,
}

// The greater of two accounts for more, or for as much and is shorter.
impl Ord for Found {
    ghost cmp = { then_cmp (on (λ f. f.count) nat_cmp) (flip_args (on (λ f. f.len) nat_cmp)) };

    ghost total = { Prim.search (comparing, rules) };

    ghost matches_partial_cmp = { Prim.search (comparing, rules) };

    ghost matches_eq = { Prim.search (comparing, rules) };

    fn cmp(&self, other: &Found) -> Ordering {
        // The counts mostly decide: `then` would compare the lengths each time.
        if self.count < other.count {
            Ordering::Less
        } else if other.count < self.count {
            Ordering::Greater
        } else {
            other.len.cmp(&self.len)
        }
    }
}

impl PartialOrd for Found {
    ghost partial_cmp = { as_partial_cmp (then_cmp (on (λ f. f.count) nat_cmp) (flip_args (on (λ f. f.len) nat_cmp))) };

    ghost laws = { partial_order_from_own_ties (Prim.search (comparing, rules)) (Prim.search (comparing, rules)) };

    fn partial_cmp(&self, other: &Found) -> Option<Ordering> {
        Some(self.cmp(other))
    }
}
