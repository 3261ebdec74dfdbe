// Floor 4: the bodies of the programs `report` and `rows`. A file's way: bytes, symbols or refusal, answers, text; the text is written once.
#![tactic(auto)]

pub mod table;

ghost use Rattle.std.specs.Prelude.{◌≡◌, ◌++◌, ℕ, List, length, IfNone, IfSome};
ghost use Rattle.words.proofs.Refusals.{Judged};
ghost use Rattle.lines.specs.Text.{page, Fits};
ghost use Rattle.facts.specs.Report.{line_room, report_room, report_text};
ghost use Rattle.reporting.specs.Texts.{file_text, rows_room, rows_text};

use lines::Text;
use std::io::Read;

// The symbols of a file. A refused one has none: its text is put.
pub fn accepted<'f>(f: &'f [u8], text: &mut Text) -> Option<&'f [u8]>
    requires { Fits (page text.old) (line_room 1) }
    ensures refused { IfNone result ((said : List ℕ → List ℕ) → (page text.new).said ≡ (page text.old).said ++ file_text said f.now) }
    ensures room { (page text.new).room ≡ (page text.old).room }
    ensures buffer { (page text.new).buffer ≡ (page text.old).buffer }
    ensures judged { IfSome result (λ x. Judged (length x.now)) }
    ensures accepted { IfSome result (λ x. (said : List ℕ → List ℕ) → file_text said f.now ≡ said x.now) }
    ensures same { IfSome result (λ _. text.new ≡ text.old) }
{
    match logfile::read(f) {
        Ok(x) => Some(x),
        Err(no) => {
            facts::refused(u8::from(no), text);
            None
        }
    }
}

// The text of the report on a file. This, the next and `left_text::file_text` are one shape: one function for them would state of its writer what their clauses say of theirs.
pub fn report_text(f: &[u8], text: &mut Text)
    requires { Fits (page text.old) report_room }
    ensures said { (page text.new).said ≡ (page text.old).said ++ file_text report_text f.now }
    ensures room { (page text.new).room ≡ (page text.old).room }
    ensures buffer { (page text.new).buffer ≡ (page text.old).buffer }
{
    if let Some(x) = accepted(f, text) {
        facts::report(x, text);
    }
}

// The text of the rows of a file.
pub fn rows_text(f: &[u8], text: &mut Text)
    requires { Fits (page text.old) rows_room }
    ensures said { (page text.new).said ≡ (page text.old).said ++ file_text rows_text f.now }
    ensures room { (page text.new).room ≡ (page text.old).room }
    ensures buffer { (page text.new).buffer ≡ (page text.old).buffer }
{
    if let Some(x) = accepted(f, text) {
        table::put(x, text);
    }
}

// Reads a file, and writes what `say` puts of it into the lent room. Whether that was written whole.
pub fn run<F: FnOnce(&[u8], &mut Text)>(
    rt: &(impl Print + Eprint),
    from: &mut impl Read,
    room: &mut [u8],
    say: F,
) -> bool
    requires { (f : _) (t : _) → Fits (page t.now) (length room.old) → F.pre say f t }
{
    let mut file = [0u8; logfile::FILE_ROOM];
    let n = input::read_full(from, &mut file);
    let mut text = Text::new(room);
    say(&file[..n], &mut text);
    output::write(rt, text.as_slice())
}

// Reads a file and writes the report on it. Whether it was written whole.
pub fn report(rt: &(impl Print + Eprint), from: &mut impl Read) -> bool {
    run(rt, from, &mut [0u8; facts::TEXT], report_text)
}

// Reads a file and writes every row of its tables. Whether they were written whole.
pub fn rows(rt: &(impl Print + Eprint), from: &mut impl Read) -> bool {
    run(rt, from, &mut [0u8; table::TEXT], rows_text)
}
