// Floor 4: a log as a picture, in SVG of a fixed size, whatever the log's length.
#![tactic(auto)]

ghost use Rattle.pen.specs.Pens.{Keeps};

use legend::Findings;
use pen::Pen;

// The most bytes of a picture. A box has at most 32 of them, as `M99975 35600H100000V37000H99975z`, and a step 12, as `H99975V31500`.
// For each reading there is at most one step and one occurrence; for each two readings one run at the ceiling, with two boxes, and one run that is not
// covered: 12 + 32 + 32 + 16 = 92. All else together has less than 4 for each reading of the longest log.
pub const ROOM: usize = 96 * words::LONGEST;

// The picture of a log with its report.
#[tactic(auto, unfolding(words::specs::Refusals::log_no, words::specs::Refusals::first_no))]
pub fn draw(pen: &mut Pen, x: &[u8], r: &Findings)
    ensures { Keeps pen.old pen.new }
{
    if let Err(no) = refusals::log(x.len()) {
        return refuse(pen, no);
    }
    let q = usize::from(r.best);
    chart::draw(pen, x, q);
    chart::name_lanes(pen, q, usize::from(r.count), x.len());
    legend::alarm(pen, x, r.ceiling.ceiling);
    legend::report(pen, x.len(), r);
    pen.say(b"</svg>\n");
}

// The picture of a file that was refused.
pub fn refuse(pen: &mut Pen, number: impl Into<u8>)
    ensures { Keeps pen.old pen.new }
{
    pen.put(
        b"<svg xmlns='http://www.w3.org/2000/svg' viewBox='0 0 400 100' width='400' height='100' role='img'>
<title>Log of a CO&#8322; head</title>
<rect width='400' height='100' fill='#fff'/>
<text x='40' y='62' style='font-family:Helvetica,Arial,sans-serif;font-size:30px;font-weight:bold;fill:#b00020'>refused ",
        usize::from(number.into()),
    );
    pen.say(b"</text>\n</svg>\n");
}
