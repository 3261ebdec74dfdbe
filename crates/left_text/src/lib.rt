// Floor 4: the body of the program `left`: a line for each reading, with its left cover and its left seed. The text is written once.
#![tactic(auto)]

ghost use Rattle.std.specs.Prelude.{◌≡◌, ◌++◌, length};
ghost use Rattle.words.proofs.Refusals.{Judged};
ghost use Rattle.lines.specs.Text.{page, Fits};
ghost use Rattle.reporting.specs.Texts.{file_text, rows_room};
ghost use Rattle.left_text.specs.Lefts as Lefts;

use lines::Text;
use reporting::table;
use std::io::Read;

// Puts the whole text of an accepted log.
fn put(x: &[u8], text: &mut Text)
    requires { Judged (length x.now) × Fits (page text.old) rows_room }
    ensures said { (page text.new).said ≡ (page text.old).said ++ Lefts.left_text x.now }
    ensures room { (page text.new).room ≡ (page text.old).room }
    ensures buffer { (page text.new).buffer ≡ (page text.old).buffer }
{
    let [mut cover, mut count, mut seed, mut reach] = [[0u16; words::LONGEST]; 4];
    left_covers::rows(x, &mut cover, &mut count);
    left_seeds::rows(x, &mut seed, &mut reach);
    table::rows(x.len(), &[&cover, &count, &seed, &reach], text);
}

// The text of a file.
pub fn file_text(f: &[u8], text: &mut Text)
    requires { Fits (page text.old) rows_room }
    ensures said { (page text.new).said ≡ (page text.old).said ++ file_text Lefts.left_text f.now }
    ensures room { (page text.new).room ≡ (page text.old).room }
    ensures buffer { (page text.new).buffer ≡ (page text.old).buffer }
{
    if let Some(x) = reporting::accepted(f, text) {
        put(x, text);
    }
}

// Reads a file and writes its left covers and left seeds. Whether they were written whole.
pub fn left(rt: &(impl Print + Eprint), from: &mut impl Read) -> bool {
    reporting::run(rt, from, &mut [0u8; table::TEXT], file_text)
}
