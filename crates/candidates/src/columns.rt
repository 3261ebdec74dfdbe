// What every row's left seed is read from.

ghost use Rattle.std.specs.Prelude.{◌+◌, ◌<◌, length};
ghost use Rattle.tallies.specs.Tallies.{Tallies};
ghost use Rattle.candidates.specs.Candidates.{Made};

// A log that is not too long, its border table, and the two columns for the walk over the candidates.
#[derive(Clone, Copy)]
pub struct Columns<'a> {
    pub x: &'a [u8],
    pub border: &'a [u16],
    pub bare: &'a [u16],
    pub fall: &'a [u16],
    pub ghost made: { Made x.now border.now bare.now fall.now },
}

// One row, j: the columns, and the tallies of the first j + 1 prefixes.
#[derive(Clone, Copy)]
pub struct Row<'a> {
    pub columns: Columns<'a>,
    pub last: &'a [u16],
    pub held: &'a [u16],
    pub j: usize,
    pub ghost inside: { j < length columns.x.now },
    pub ghost tallied: { Tallies columns.x.now last.now held.now (j + 1) },
}
