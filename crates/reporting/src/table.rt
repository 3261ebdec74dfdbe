// The text of a log's tables, a line for each row.
ghost use Rattle.std.specs.Prelude.{◌≡◌, ◌++◌, ◌+◌, ◌*◌, ◌≤◌, ◌<◌, length};
ghost use Rattle.words.proofs.Refusals.{Judged};
ghost use Rattle.lines.specs.Text.{decimal, line, page, Fits};
ghost use Rattle.reporting.specs.Texts as Texts;

use lines::Text;

// The room of the whole text, one line a reading and one for the total (`rows_room` of specs/).
pub const TEXT: usize = (lines::DECIMAL + lines::FIELD * 5 + 1) * (words::LONGEST + 1);

// Puts row r, from 0: its number, and what each column has there.
fn row(r: usize, columns: &[&[u16]], text: &mut Text)
    requires { Texts.Tables columns.now (r + 1) × Fits (page text.old) Texts.row_room }
    ensures said { (page text.new).said ≡ (page text.old).said ++ line (decimal (r + 1)) (Texts.entries columns.now r) }
    ensures room { (page text.new).room ≡ (page text.old).room }
    ensures buffer { (page text.new).buffer ≡ (page text.old).buffer }
    ensures short { length (page text.new).said ≤ length (page text.old).said + Texts.row_room }
{
    text.number(r + 1);
    for column in columns {
        let n = column[r];
        text.field(usize::from(n));
    }
    text.end();
}

// Puts the first n rows of no more than five columns.
pub fn rows(n: usize, columns: &[&[u16]], text: &mut Text)
    requires { Texts.Tables columns.now n × Fits (page text.old) (Texts.row_room * n) }
    ensures said { (page text.new).said ≡ (page text.old).said ++ Texts.table_lines columns.now n }
    ensures room { (page text.new).room ≡ (page text.old).room }
    ensures buffer { (page text.new).buffer ≡ (page text.old).buffer }
    ensures short { length (page text.new).said ≤ length (page text.old).said + Texts.row_room * n }
{
    for r in 0..n {
        row(r, columns, text);
    }
}

// Puts the whole text of an accepted log: every row of its tables, and the weighed total.
pub fn put(x: &[u8], text: &mut Text)
    requires { Judged (length x.now) × Fits (page text.old) Texts.rows_room }
    ensures said { (page text.new).said ≡ (page text.old).said ++ Texts.rows_text x.now }
    ensures room { (page text.new).room ≡ (page text.old).room }
    ensures buffer { (page text.new).buffer ≡ (page text.old).buffer }
{
    let [mut border, mut prefix, mut cover, mut best, mut count] = [[0u16; words::LONGEST]; 5];
    let total = five_columns::rows(
        x,
        &mut border,
        &mut prefix,
        &mut cover,
        &mut best,
        &mut count,
    );
    rows(x.len(), &[&border, &prefix, &cover, &best, &count], text);
    text.counted(b"total", total as usize);
}
