// Floor 3: the calls. Each takes every log and every lent table, refuses in the order of `refusals`, and hands an accepted log to floor 2.
#![tactic(auto, using(crate::proofs::Answers::accepted), unfolding(words::specs::Answers::outcome, words::specs::Answers::answer, words::specs::Answers::accepted, words::specs::Answers::rooms, words::specs::Answers::column, words::specs::Answers::middle, words::specs::Answers::weighing, words::specs::Answers::table_outcome, words::specs::Answers::pair_outcome, words::specs::Answers::enhanced_outcome, words::specs::Answers::window_outcome, words::specs::Answers::cover_list_outcome, words::specs::Answers::normal_answer, words::specs::Answers::breakdown_answer, words::specs::Answers::cover_test_answer, words::specs::Answers::weighed_answer, words::specs::Answers::pattern_answer, words::specs::Answers::best_pattern_no, refusals::specs::Numbers::told))]

ghost use Rattle.std.specs.Prelude.{◌≡◌, [], ◌∷◌, eqb, length};
ghost use Rattle.words.specs.Words.{normal, weighed, breakdown, limit};
ghost use Rattle.words.specs.Tables.{border_row, prefix_row, cover_row};
ghost use Rattle.words.specs.Refusals.{log_no, table_no, prefix_no};
ghost use Rattle.words.specs.Answers as Answers;
ghost use Rattle.ceilings.specs.Ceilings as Ceilings;
ghost use Rattle.repeats.specs.Repeats.{left_cover_row, left_count_row, left_seed_row, seed_count_row};
ghost use Rattle.refusals.specs.Numbers.{number, told};
ghost use Rattle.finder.specs.Told.{written_of, weighing_of, listed_of, test_of, pattern_of};

use refusals::Refusal;

// ---- tables: refuse, write, accept. One function that took the writer would have to state what each writer asks and gives, and be no shorter.

// Writes the border table of x into the first rows of t.
pub fn border_table(x: &[u8], t: &mut [u16]) -> Result<(), Refusal>
    ensures { record { answer = written_of result; tables = t.new ∷ [] } ≡ Answers.table_outcome border_row x.now t.old }
{
    refusals::tables(x.len(), [t.len()])?;
    border::rows(x, t);
    Ok(())
}

// Writes the prefix table of x into the first rows of t.
pub fn prefix_table(x: &[u8], t: &mut [u16]) -> Result<(), Refusal>
    ensures { record { answer = written_of result; tables = t.new ∷ [] } ≡ Answers.table_outcome prefix_row x.now t.old }
{
    refusals::tables(x.len(), [t.len()])?;
    prefix::rows(x, t);
    Ok(())
}

// Writes the cover table of x into the first rows of t.
pub fn cover_table(x: &[u8], t: &mut [u16]) -> Result<(), Refusal>
    ensures { record { answer = written_of result; tables = t.new ∷ [] } ≡ Answers.table_outcome cover_row x.now t.old }
{
    refusals::tables(x.len(), [t.len()])?;
    judged::cover(x, t);
    Ok(())
}

// Lent the two tables of a row's pattern and its number.
fn two_tables(x: &[u8], best: &[u16], count: &[u16]) -> Result<(), Refusal>
    ensures { number result ≡ table_no (length x.now) (length best.now ∷ length count.now ∷ []) }
{
    refusals::tables(x.len(), [best.len(), count.len()])
}

// Writes Best and Count of each prefix of x into the first rows of the two tables, and returns the weighed total.
pub fn enhanced_table(x: &[u8], best: &mut [u16], count: &mut [u16]) -> Result<u32, Refusal>
    ensures { record { answer = weighing_of result; tables = best.new ∷ count.new ∷ [] } ≡ Answers.enhanced_outcome x.now best.old count.old }
{
    two_tables(x, best, count)?;
    Ok(judged::enhanced(x, best, count))
}

// Writes the left cover of each prefix of x, and how many positions it covers, into the first rows of the two tables.
pub fn left_covers(x: &[u8], best: &mut [u16], count: &mut [u16]) -> Result<(), Refusal>
    ensures { record { answer = written_of result; tables = best.new ∷ count.new ∷ [] } ≡ Answers.pair_outcome left_cover_row left_count_row x.now best.old count.old }
{
    two_tables(x, best, count)?;
    left_covers::rows(x, best, count);
    Ok(())
}

// Writes the left seed of each prefix of x, and how many positions it reaches, into the first rows of the two tables.
pub fn left_seeds(x: &[u8], best: &mut [u16], count: &mut [u16]) -> Result<(), Refusal>
    ensures { record { answer = written_of result; tables = best.new ∷ count.new ∷ [] } ≡ Answers.pair_outcome left_seed_row seed_count_row x.now best.old count.old }
{
    two_tables(x, best, count)?;
    left_seeds::rows(x, best, count);
    Ok(())
}

// ---- one prefix

// The normal form of the first i readings, with their number.
pub fn normal_form(x: &[u8], i: usize) -> Result<words::Part, Refusal>
    ensures { result ≡ told (prefix_no (length x.now) i) (normal eqb x.now i) }
{
    refusals::prefix(x.len(), i)?;
    Ok(judged::normal(&x[..i]))
}

// Whether the first q readings cover the first i.
pub fn cover_test(x: &[u8], i: usize, q: usize) -> Result<bool, Refusal>
    ensures { test_of result ≡ Answers.cover_test_answer x.now i q }
{
    refusals::cover_test(x.len(), i, q)?;
    Ok(judged::covered_by(&x[..i], q))
}

// The weighed list of the first i readings.
pub fn weighed_list(x: &[u8], i: usize) -> Result<words::Weighed, Refusal>
    ensures { result ≡ told (prefix_no (length x.now) i) (Answers.listed 0 (weighed eqb x.now i) (limit i)) }
{
    refusals::prefix(x.len(), i)?;
    Ok(judged::weighed(&x[..i]))
}

// ---- the whole log

// The breakdown of x.
pub fn breakdown(x: &[u8]) -> Result<words::Breakdown, Refusal>
    ensures { result ≡ told (log_no (length x.now)) (Answers.broken 0 (breakdown eqb x.now Answers.breakdown_places (length x.now))) }
{
    refusals::log(x.len())?;
    Ok(judged::breakdown(x))
}

// Writes all covers of x, rising, into the first entries of t, and returns how many they are.
pub fn cover_list(x: &[u8], t: &mut [u16]) -> Result<u16, Refusal>
    ensures { record { answer = listed_of result; tables = t.new ∷ [] } ≡ Answers.cover_list_outcome x.now t.old }
{
    refusals::tables(x.len(), [t.len()])?;
    Ok(judged::covers(x, t) as u16)
}

// The length of the best pattern.
pub fn pattern(x: &[u8]) -> Result<usize, Refusal>
    ensures { pattern_of result ≡ Answers.pattern_answer x.now }
{
    refusals::log(x.len())?;
    let b = judged::best(x);
    refusals::best(x.len(), b)?;
    Ok(b)
}

// The number alone: 0 where there is a best pattern.
pub fn best_pattern_number(x: &[u8]) -> u8
    ensures { result ≡ Answers.best_pattern_no x.now }
{
    refusals::number(pattern(x))
}

// The best pattern, as that part of the caller's log, which lies where the log begins; the empty part where the call is refused.
pub fn best_pattern(x: &[u8]) -> &[u8]
    ensures part { result.now ≡ Answers.best_pattern_part x.now }
    ensures place { result.ref_ptr ≡ x.entry.ref_ptr }
{
    let b = pattern(x).unwrap_or(0);
    &x[..b]
}

// How many readings of x are at the ceiling, and whether the head is held there now.
pub fn ceiling(x: &[u8]) -> Result<ceilings::Ceiling, Refusal>
    ensures { result ≡ told (log_no (length x.now)) (Ceilings.ceiling_of x.now) }
{
    refusals::log(x.len())?;
    Ok(ceilings::of(x))
}

// ---- a window

// Writes the five columns of the window of m readings after the first a into the rows a + 1 to a + m of the lent tables, and returns the window's own
// weighed total. The window is judged as a log of its own.
pub fn window(
    x: &[u8],
    a: usize,
    m: usize,
    border: &mut [u16],
    prefix: &mut [u16],
    cover: &mut [u16],
    best: &mut [u16],
    count: &mut [u16],
) -> Result<u32, Refusal>
    ensures { record { answer = weighing_of result; tables = border.new ∷ prefix.new ∷ cover.new ∷ best.new ∷ count.new ∷ [] } ≡ Answers.window_outcome x.now a m border.old prefix.old cover.old best.old count.old }
{
    let rooms = [
        border.len(),
        prefix.len(),
        cover.len(),
        best.len(),
        count.len(),
    ];
    refusals::window(x.len(), a, m, rooms)?;
    Ok(windowed::rows(x, a, m, border, prefix, cover, best, count))
}
