// Floor 4: the report on an accepted log, as one text.
#![tactic(auto)]

ghost use Rattle.std.specs.Prelude.{◌≡◌, ◌++◌, ◌+◌, ◌*◌, ◌≤◌, length};
ghost use Rattle.words.specs.Refusals.{longest};
ghost use Rattle.words.specs.Answers.{weighed_places};
ghost use Rattle.words.proofs.Refusals.{Judged};
ghost use Rattle.lines.specs.Text.{page, Fits};
ghost use Rattle.facts.specs.Report as Report;

use lines::Text;

// The room of a line that lists the entries of a weighed list or fewer, and of the whole text, where one line lists the covers of the longest log
// (`line_room` and `report_room` of specs/).
const LINE: usize = 8 + lines::FIELD * words::WEIGHED_PLACES;

pub const TEXT: usize = 6 * LINE + 8 + lines::FIELD * words::LONGEST;

// The text on a refused file. It takes any number and no `Refusal`: the text is defined of any.
#[tactic(auto, unfolding(crate::specs::Report::refused_text))]
pub fn refused(no: u8, text: &mut Text)
    requires { Fits (page text.old) (Report.line_room 1) }
    ensures said { (page text.new).said ≡ (page text.old).said ++ Report.refused_text no }
    ensures room { (page text.new).room ≡ (page text.old).room }
    ensures buffer { (page text.new).buffer ≡ (page text.old).buffer }
{
    text.line(b"refused", &[u16::from(no)]);
}

// The length, the normal form and the covers.
#[tactic(auto, unfolding(crate::specs::Report::shape_lines))]
fn shape(n: u16, f: words::Part, covers: &[u16], text: &mut Text)
    requires { (length covers.now ≤ longest) × Fits (page text.old) Report.report_room }
    ensures said { (page text.new).said ≡ (page text.old).said ++ Report.shape_lines n f covers.now }
    ensures room { (page text.new).room ≡ (page text.old).room }
    ensures buffer { (page text.new).buffer ≡ (page text.old).buffer }
    ensures short { length (page text.new).said ≤ length (page text.old).said + 2 * Report.line_room weighed_places + Report.line_room longest }
{
    text.line(b"log", &[n]);
    text.line(b"normal", &[f.k1, f.k2, f.k]);
    text.line(b"covers", covers);
}

// Best, Count and the weighed borders.
#[tactic(auto, unfolding(crate::specs::Report::border_lines))]
fn borders(best: u16, count: u16, weighed: &[u16], text: &mut Text)
    requires { (length weighed.now ≤ weighed_places) × Fits (page text.old) (2 * Report.line_room weighed_places) }
    ensures said { (page text.new).said ≡ (page text.old).said ++ Report.border_lines best count weighed.now }
    ensures room { (page text.new).room ≡ (page text.old).room }
    ensures buffer { (page text.new).buffer ≡ (page text.old).buffer }
    ensures short { length (page text.new).said ≤ length (page text.old).said + 2 * Report.line_room weighed_places }
{
    text.line(b"best", &[best, count]);
    text.line(b"weighed", weighed);
}

// How many readings are at the ceiling, and whether the head is held there now.
#[tactic(auto, unfolding(crate::specs::Report::ceiling_lines))]
fn ceiling(c: ceilings::Ceiling, text: &mut Text)
    requires { Fits (page text.old) (2 * Report.line_room weighed_places) }
    ensures said { (page text.new).said ≡ (page text.old).said ++ Report.ceiling_lines c }
    ensures room { (page text.new).room ≡ (page text.old).room }
    ensures buffer { (page text.new).buffer ≡ (page text.old).buffer }
{
    text.line(b"ceiling", &[c.ceiling]);
    text.line(b"held", &[u16::from(c.held)]);
}

// All of them, in this order.
fn told(x: &[u8], s: summary::Summary, covers: &[u16], weighed: &[u16], text: &mut Text)
    requires { Report.Facts x.now s covers.now weighed.now (page text.old) }
    ensures said { (page text.new).said ≡ (page text.old).said ++ Report.report_text x.now }
    ensures room { (page text.new).room ≡ (page text.old).room }
    ensures buffer { (page text.new).buffer ≡ (page text.old).buffer }
{
    shape(x.len() as u16, s.outline.normal, covers, text);
    borders(s.best, s.count, weighed, text);
    ceiling(ceilings::of(x), text);
}

// The text of the report on an accepted log. That a log is judged stays a clause, here and wherever it is one: x is a part of a lent file or log, cut anew for each call,
// and a type for it would be made at each cut, taken apart at each loop, and name x in every other clause as a field.
pub fn report(x: &[u8], text: &mut Text)
    requires { Judged (length x.now) × Fits (page text.old) Report.report_room }
    ensures said { (page text.new).said ≡ (page text.old).said ++ Report.report_text x.now }
    ensures room { (page text.new).room ≡ (page text.old).room }
    ensures buffer { (page text.new).buffer ≡ (page text.old).buffer }
{
    let mut covers = [0u16; words::LONGEST];
    let s = summary::of(x, &mut covers);
    let lens = s.outline.weighed.lens;
    let used = usize::from(s.outline.weighed.used);
    told(x, s, &covers[..s.outline.covers], &lens[..used], text);
}
