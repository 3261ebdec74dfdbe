// Floor 4: the C face. Each call of floor 3 under a C name, with the same promise; a part is answered as its start and its length. C has no `Result`, so here
// the number stands beside the value.
#![tactic(auto, using(crate::proofs::Faces::faces), unfolding(words::specs::Answers::accepted, words::specs::Answers::answer, words::specs::Answers::broken, words::specs::Answers::listed, words::specs::Answers::normal_answer, words::specs::Answers::breakdown_answer, words::specs::Answers::weighed_answer, ceilings::specs::Ceilings::ceiling_answer, refusals::specs::Numbers::told, words::specs::PlantFile::symbols, crate::specs::Faces::covers_of, crate::specs::Faces::pattern_span, crate::specs::Faces::file_span))]

ghost use Rattle.std.specs.Prelude.{◌≡◌, [], ◌∷◌};
ghost use Rattle.words.specs.Tables.{border_row, prefix_row, cover_row};
ghost use Rattle.words.specs.Answers as Answers;
ghost use Rattle.ceilings.specs.Ceilings.{ceiling_answer};
ghost use Rattle.repeats.specs.Repeats.{left_cover_row, left_count_row, left_seed_row, seed_count_row};
ghost use Rattle.finder.specs.Told.{weighing_of};
ghost use Rattle.cabinet.specs.Faces.{covers_of, pattern_span, file_span};

use refusals::Refusal;

// The cover test: covers is 1 for yes and 0 for no, and 0 where the call is refused.
#[repr(C)]
#[derive(Clone, Copy)]
pub struct Covers {
    pub number: u8,
    pub covers: u8,
}

// A part of the caller's bytes: so many readings skipped, so many in it.
#[repr(C)]
#[derive(Clone, Copy)]
pub struct Span {
    pub number: u8,
    pub start: usize,
    pub len: usize,
}

// A weighed total, 0 where the call is refused.
fn weighing(answer: Result<u32, Refusal>) -> words::Weighing
    ensures { result ≡ weighing_of answer }
{
    words::Weighing {
        number: refusals::number(answer),
        total: answer.unwrap_or(0),
    }
}

#[unsafe(no_mangle)]
pub extern "C" fn finder_border_table(x: &[u8], t: &mut [u16]) -> words::Written
    ensures { record { answer = result; tables = t.new ∷ [] } ≡ Answers.table_outcome border_row x.now t.old }
{
    words::Written {
        number: refusals::number(finder::border_table(x, t)),
    }
}

#[unsafe(no_mangle)]
pub extern "C" fn finder_prefix_table(x: &[u8], t: &mut [u16]) -> words::Written
    ensures { record { answer = result; tables = t.new ∷ [] } ≡ Answers.table_outcome prefix_row x.now t.old }
{
    words::Written {
        number: refusals::number(finder::prefix_table(x, t)),
    }
}

#[unsafe(no_mangle)]
pub extern "C" fn finder_cover_table(x: &[u8], t: &mut [u16]) -> words::Written
    ensures { record { answer = result; tables = t.new ∷ [] } ≡ Answers.table_outcome cover_row x.now t.old }
{
    words::Written {
        number: refusals::number(finder::cover_table(x, t)),
    }
}

#[unsafe(no_mangle)]
pub extern "C" fn finder_enhanced_table(
    x: &[u8],
    best: &mut [u16],
    count: &mut [u16],
) -> words::Weighing
    ensures { record { answer = result; tables = best.new ∷ count.new ∷ [] } ≡ Answers.enhanced_outcome x.now best.old count.old }
{
    weighing(finder::enhanced_table(x, best, count))
}

#[unsafe(no_mangle)]
pub extern "C" fn finder_window(
    x: &[u8],
    a: usize,
    m: usize,
    border: &mut [u16],
    prefix: &mut [u16],
    cover: &mut [u16],
    best: &mut [u16],
    count: &mut [u16],
) -> words::Weighing
    ensures { record { answer = result; tables = border.new ∷ prefix.new ∷ cover.new ∷ best.new ∷ count.new ∷ [] } ≡ Answers.window_outcome x.now a m border.old prefix.old cover.old best.old count.old }
{
    weighing(finder::window(x, a, m, border, prefix, cover, best, count))
}

#[unsafe(no_mangle)]
pub extern "C" fn finder_left_covers(
    x: &[u8],
    best: &mut [u16],
    count: &mut [u16],
) -> words::Written
    ensures { record { answer = result; tables = best.new ∷ count.new ∷ [] } ≡ Answers.pair_outcome left_cover_row left_count_row x.now best.old count.old }
{
    words::Written {
        number: refusals::number(finder::left_covers(x, best, count)),
    }
}

#[unsafe(no_mangle)]
pub extern "C" fn finder_left_seeds(x: &[u8], best: &mut [u16], count: &mut [u16]) -> words::Written
    ensures { record { answer = result; tables = best.new ∷ count.new ∷ [] } ≡ Answers.pair_outcome left_seed_row seed_count_row x.now best.old count.old }
{
    words::Written {
        number: refusals::number(finder::left_seeds(x, best, count)),
    }
}

#[unsafe(no_mangle)]
pub extern "C" fn finder_normal_form(x: &[u8], i: usize) -> words::Normal
    ensures { result ≡ Answers.normal_answer x.now i }
{
    match finder::normal_form(x, i) {
        Ok(p) => words::Normal {
            number: 0,
            k1: p.k1,
            k2: p.k2,
            k: p.k,
        },
        Err(r) => words::Normal {
            number: u8::from(r),
            k1: 0,
            k2: 0,
            k: 0,
        },
    }
}

#[unsafe(no_mangle)]
pub extern "C" fn finder_breakdown(x: &[u8]) -> words::Breakdown
    ensures { result ≡ Answers.breakdown_answer x.now }
{
    let none = words::Part {
        len: 0,
        k1: 0,
        k2: 0,
        k: 0,
    };
    finder::breakdown(x).unwrap_or_else(|r| words::Breakdown {
        number: u8::from(r),
        used: 0,
        parts: [none; words::BREAKDOWN_PLACES],
    })
}

#[unsafe(no_mangle)]
pub extern "C" fn finder_cover_list(x: &[u8], t: &mut [u16]) -> words::Listed
    ensures { record { answer = result; tables = t.new ∷ [] } ≡ Answers.cover_list_outcome x.now t.old }
{
    let answer = finder::cover_list(x, t);
    words::Listed {
        number: refusals::number(answer),
        used: answer.unwrap_or(0),
    }
}

#[unsafe(no_mangle)]
pub extern "C" fn finder_cover_test(x: &[u8], i: usize, q: usize) -> Covers
    ensures { result ≡ covers_of (Answers.cover_test_answer x.now i q) }
{
    let answer = finder::cover_test(x, i, q);
    Covers {
        number: refusals::number(answer),
        covers: u8::from(answer.unwrap_or(false)),
    }
}

#[unsafe(no_mangle)]
pub extern "C" fn finder_weighed_list(x: &[u8], i: usize) -> words::Weighed
    ensures { result ≡ Answers.weighed_answer x.now i }
{
    finder::weighed_list(x, i).unwrap_or_else(|r| words::Weighed {
        number: u8::from(r),
        used: 0,
        limit: 0,
        lens: [0u16; words::WEIGHED_PLACES],
    })
}

#[unsafe(no_mangle)]
pub extern "C" fn finder_best_pattern(x: &[u8]) -> Span
    ensures { result ≡ pattern_span x.now }
{
    let answer = finder::pattern(x);
    Span {
        number: refusals::number(answer),
        start: 0,
        len: answer.unwrap_or(0),
    }
}

#[unsafe(no_mangle)]
pub extern "C" fn finder_ceiling(x: &[u8]) -> ceilings::Ceiling
    ensures { result ≡ ceiling_answer x.now }
{
    finder::ceiling(x).unwrap_or_else(|r| ceilings::Ceiling {
        number: u8::from(r),
        held: 0,
        ceiling: 0,
    })
}

#[unsafe(no_mangle)]
pub extern "C" fn finder_file(f: &[u8]) -> Span
    ensures { result ≡ file_span f.now }
{
    match logfile::read(f) {
        Ok(symbols) => Span {
            number: 0,
            start: 3,
            len: symbols.len(),
        },
        Err(r) => Span {
            number: u8::from(r),
            start: 0,
            len: 0,
        },
    }
}
