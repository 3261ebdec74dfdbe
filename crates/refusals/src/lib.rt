// Floor 3: what a call refuses, each test in its order.
#![tactic(auto, using(crate::proofs::Rooms::fewer_any), unfolding(words::specs::Refusals::first_no, words::specs::Refusals::log_no, words::specs::Refusals::table_no, words::specs::Refusals::prefix_no, words::specs::Refusals::cover_test_no, words::specs::Refusals::best_no, words::specs::Refusals::window_no))]

ghost use Rattle.std.specs.Prelude.{◌≡◌, ltb};
ghost use Rattle.std.specs.List.{list_any};
ghost use Rattle.words.specs.Refusals.{log_no, table_no, prefix_no, cover_test_no, best_no, window_no};
ghost use Rattle.refusals.specs.Numbers.{number, number_of};

// Why a call is refused, with the document's numbers: 0 is none of them.
#[derive(Clone, Copy, PartialEq, Eq, Debug)]
pub enum Refusal {
    Empty = 1,
    Long = 2,
    Place = 3,
    Short = 4,
    NoPattern = 5,
    Version = 6,
    File = 7,
    Symbol = 8,
}

impl From<Refusal> for u8 {
    ghost from_gives = { λ r n. n ≡ number_of r };

    fn from(r: Refusal) -> u8 {
        r as u8
    }
}

// The number of an answer: 0 where nothing is refused.
pub fn number<T: Drop>(answer: Result<T, Refusal>) -> u8
    ensures { result ≡ number answer }
{
    match answer {
        Ok(_) => 0,
        Err(r) => u8::from(r),
    }
}

// A log of n readings.
pub fn log(n: usize) -> Result<(), Refusal>
    ensures { number result ≡ log_no n }
{
    if n == 0 {
        return Err(Refusal::Empty);
    }
    if words::LONGEST < n {
        return Err(Refusal::Long);
    }
    Ok(())
}

// Whether one of the lent tables, of these lengths, has fewer than n entries.
fn fewer(rooms: &[usize], n: usize) -> bool
    ensures { result ≡ list_any (λ r. ltb r n) rooms.now }
{
    rooms.iter().any(|r| *r < n)
}

// With lent tables of so many entries each.
pub fn tables<const K: usize>(n: usize, rooms: [usize; K]) -> Result<(), Refusal>
    ensures { number result ≡ table_no n rooms.entry }
{
    log(n)?;
    if fewer(&rooms, n) {
        return Err(Refusal::Short);
    }
    Ok(())
}

// At the prefix of length i.
pub fn prefix(n: usize, i: usize) -> Result<(), Refusal>
    ensures { number result ≡ prefix_no n i }
{
    log(n)?;
    if i == 0 || n < i {
        return Err(Refusal::Place);
    }
    Ok(())
}

// With a pattern of length q at the prefix of length i.
pub fn cover_test(n: usize, i: usize, q: usize) -> Result<(), Refusal>
    ensures { number result ≡ cover_test_no n i q }
{
    prefix(n, i)?;
    if q == 0 || i < q {
        return Err(Refusal::Place);
    }
    Ok(())
}

// Where Best of the whole log is b.
pub fn best(n: usize, b: usize) -> Result<(), Refusal>
    ensures { number result ≡ best_no n b }
{
    log(n)?;
    if b == 0 {
        return Err(Refusal::NoPattern);
    }
    Ok(())
}

// A window of m readings after the first a, with lent tables of so many entries each. The sum of a and m may be above every usize.
pub fn window<const K: usize>(
    n: usize,
    a: usize,
    m: usize,
    rooms: [usize; K],
) -> Result<(), Refusal>
    ensures { number result ≡ window_no n a m rooms.entry }
{
    log(n)?;
    if m == 0 || n < m || n - m < a {
        return Err(Refusal::Place);
    }
    if fewer(&rooms, a + m) {
        return Err(Refusal::Short);
    }
    Ok(())
}
