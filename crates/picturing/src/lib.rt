// Floor 4: from a plant's file to its picture.
#![tactic(auto)]

ghost use Rattle.std.specs.Prelude.{length};
ghost use Rattle.words.proofs.Refusals.{Judged};
ghost use Rattle.pen.specs.Pens.{Keeps};

use legend::Findings;
use pen::Pen;
use std::io::Read;

// The first n entries of a list.
fn front(t: &[u16], n: usize) -> &[u16] {
    t.get(..n).unwrap_or(t)
}

// The picture of an accepted log.
fn draw(pen: &mut Pen, x: &[u8])
    requires { Judged (length x.now) }
    ensures { Keeps pen.old pen.new }
{
    let mut covers = [0u16; words::LONGEST];
    let s = summary::of(x, &mut covers);
    let findings = Findings {
        normal: s.outline.normal,
        covers: front(&covers, s.outline.covers),
        best: s.best,
        count: s.count,
        weighed: front(&s.outline.weighed.lens, usize::from(s.outline.weighed.used)),
        ceiling: ceilings::of(x),
    };
    drawing::draw(pen, x, &findings);
}

// The picture of a file's bytes.
pub fn picture_of(pen: &mut Pen, file: &[u8])
    ensures { Keeps pen.old pen.new }
{
    match logfile::read(file) {
        Ok(x) => draw(pen, x),
        Err(no) => drawing::refuse(pen, no),
    }
}

// Reads a file and writes its picture. Whether it was written whole. The way of `reporting::run`, but with a pen, which may run out of room, where a text may not: no plainer
// as one function over both.
pub fn run(rt: &(impl Print + Eprint), from: &mut impl Read) -> bool {
    let mut file = [0u8; logfile::FILE_ROOM];
    let mut out = [0u8; drawing::ROOM];
    let n = input::read_full(from, &mut file);
    let mut pen = Pen::new(&mut out);
    picture_of(&mut pen, &file[..n]);
    match pen.whole() {
        Some(text) => output::write(rt, text),
        None => output::fail(rt),
    }
}
