// Floor 2: the enhanced table of a log.
#![tactic(auto)]

ghost use Rattle.std.specs.Prelude.{◌≡◌, length, eqb};
ghost use Rattle.words.specs.Words.{total};
ghost use Rattle.words.specs.Tables.{border_row, cover_row, best_row, count_row, written};
ghost use Rattle.words.proofs.Tables.{Room, Holds};
ghost use Rattle.words.proofs.Weighs.{heaviest_row};

// Writes Best and Count of each prefix of x into the first rows of the two tables, and returns the weighed total. `best` comes with the border table and
// `chain` with the cover table, which is laid over with the chain; what `last` and `held` come with makes no difference.
pub fn rows(
    x: &[u8],
    chain: &mut [u16],
    last: &mut [u16],
    held: &mut [u16],
    best: &mut [u16],
    count: &mut [u16],
) -> u32
    requires { Holds border_row x.now best.old × Holds cover_row x.now chain.old × Room x.now last.old × Room x.now held.old × Room x.now count.old }
    ensures best { best.new ≡ written (best_row x.now) (length x.now) best.old }
    ensures count { count.new ≡ written (count_row x.now) (length x.now) count.old }
    ensures chain { chain.new ≡ written (heaviest_row x.now) (length x.now) chain.old }
    ensures total { result ≡ total eqb x.now }
{
    let mut sum: u32 = 0;
    for j in 0..x.len() {
        let b = usize::from(best[j]);
        let p = tallies::row(x, chain, last, held, j, b, sum);
        best[j] = p.best as u16;
        count[j] = p.count as u16;
        sum = p.total;
    }
    sum
}
