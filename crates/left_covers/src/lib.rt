// Floor 2: the left covers of a log, as the best so far of its enhanced table.
#![tactic(auto)]

ghost use Rattle.std.specs.Prelude.{◌≡◌, ◌<◌, length, get_or, set};
ghost use Rattle.words.specs.Tables.{best_row, count_row, written};
ghost use Rattle.words.proofs.Tables.{Room, Holds};
ghost use Rattle.repeats.specs.Better.{Better};
ghost use Rattle.repeats.specs.Repeats.{left_cover_row, left_count_row};

use repeats::Found;

// The row's own pattern, or the best of the rows before it: the greater stands in the row, and is returned. A row that is no less stands as it is.
fn settle(best: &mut [u16], count: &mut [u16], r: usize, left: Found) -> Found
    requires { (r < length best.old) × (r < length count.old) × (left.len < 65536) × (left.count < 65536) }
    ensures choice { Better (record { len = get_or best.old r 0; count = get_or count.old r 0 }) left result }
    ensures best { best.new ≡ set best.old r result.len }
    ensures count { count.new ≡ set count.old r result.count }
{
    let row = Found {
        len: usize::from(best[r]),
        count: usize::from(count[r]),
    };
    if row < left {
        best[r] = left.len as u16;
        count[r] = left.count as u16;
        left
    } else {
        row
    }
}

// Each row of an enhanced table becomes the best of the rows up to it.
fn run(x: &[u8], best: &mut [u16], count: &mut [u16])
    requires { Room x.now best.old × Room x.now count.old × Holds best_row x.now best.old × Holds count_row x.now count.old }
    ensures best { best.new ≡ written (left_cover_row x.now) (length x.now) best.old }
    ensures count { count.new ≡ written (left_count_row x.now) (length x.now) count.old }
{
    let mut left = Found::default();
    for r in 0..x.len() {
        left = settle(best, count, r, left);
    }
}

// Writes the left cover of each prefix of x and the positions that it covers into the first rows of the two tables.
pub fn rows(x: &[u8], best: &mut [u16], count: &mut [u16])
    requires { Room x.now best.old × Room x.now count.old }
    ensures best { best.new ≡ written (left_cover_row x.now) (length x.now) best.old }
    ensures count { count.new ≡ written (left_count_row x.now) (length x.now) count.old }
{
    judged::enhanced(x, best, count);
    run(x, best, count);
}
