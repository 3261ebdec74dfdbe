// Floor 2, on top: a window of a log, judged as a log of its own, with its rows in the middle of the lent tables.
#![tactic(auto)]

ghost use Rattle.std.specs.Prelude.{◌≡◌, eqb};
ghost use Rattle.words.specs.Words as Words;
ghost use Rattle.words.specs.Tables.{border_row, prefix_row, cover_row, best_row, count_row, window, placed};
ghost use Rattle.windowed.specs.Within.{Within};

// The tables stay five parameters, as C lends them: of one type a clause would say `tables.exit.border.now` for `border.new`, and so for each of the five.

// Writes the five columns of the window of m readings after the first a into the m rows after the first a, and returns its weighed total.
pub fn rows(
    x: &[u8],
    a: usize,
    m: usize,
    border: &mut [u16],
    prefix: &mut [u16],
    cover: &mut [u16],
    best: &mut [u16],
    count: &mut [u16],
) -> u32
    requires { Within x.now a m border.old prefix.old cover.old best.old count.old }
    ensures border { border.new ≡ placed (border_row (window a m x.now)) a m border.old }
    ensures prefix { prefix.new ≡ placed (prefix_row (window a m x.now)) a m prefix.old }
    ensures cover { cover.new ≡ placed (cover_row (window a m x.now)) a m cover.old }
    ensures best { best.new ≡ placed (best_row (window a m x.now)) a m best.old }
    ensures count { count.new ≡ placed (count_row (window a m x.now)) a m count.old }
    ensures total { result ≡ Words.total eqb (window a m x.now) }
{
    let e = a + m;
    five_columns::rows(
        &x[a..e],
        &mut border[a..e],
        &mut prefix[a..e],
        &mut cover[a..e],
        &mut best[a..e],
        &mut count[a..e],
    )
}
