// The calls that are held to the second way, and the tables that they write.
use std::fmt;

// A column of a log or of a window.
#[derive(Clone, Copy, PartialEq, Eq, Debug)]
pub enum Column {
    Border,
    Prefix,
    Cover,
    Best,
    Count,
}

impl Column {
    // In the order in which a window's tables are lent.
    pub const ALL: [Column; 5] = [
        Column::Border,
        Column::Prefix,
        Column::Cover,
        Column::Best,
        Column::Count,
    ];
}

impl fmt::Display for Column {
    fn fmt<W: fmt::Write>(&self, f: &mut fmt::Formatter<W>) -> fmt::Result {
        f.write_str(match self {
            Column::Border => "border_table",
            Column::Prefix => "prefix_table",
            Column::Cover => "cover_table",
            Column::Best => "enhanced_table, best",
            Column::Count => "enhanced_table, count",
        })
    }
}

#[derive(Clone, Copy, PartialEq, Eq, Debug)]
pub enum Left {
    Covers,
    Seeds,
}

impl fmt::Display for Left {
    fn fmt<W: fmt::Write>(&self, f: &mut fmt::Formatter<W>) -> fmt::Result {
        f.write_str(match self {
            Left::Covers => "left_covers",
            Left::Seeds => "left_seeds",
        })
    }
}

// What is compared: a call's own answer, or a table that it writes.
#[derive(Clone, Copy, PartialEq, Eq, Debug)]
pub enum Call {
    Table(Column),
    Enhanced,
    Window,
    WindowTable(Column),
    Normal,
    Breakdown,
    CoverTest,
    CoverList,
    Weighed,
    BestPattern,
    File,
    Ceiling,
    Left(Left),
    LeftBest(Left),
    LeftCount(Left),
    // A sentence of the order among patterns, by its number.
    Order(u8),
}

impl fmt::Display for Call {
    fn fmt<W: fmt::Write>(&self, f: &mut fmt::Formatter<W>) -> fmt::Result {
        match self {
            Call::Table(column) => write!(f, "{column}"),
            Call::Enhanced => write!(f, "enhanced_table"),
            Call::Window => write!(f, "window"),
            Call::WindowTable(column) => write!(f, "window, {column}"),
            Call::Normal => write!(f, "normal_form"),
            Call::Breakdown => write!(f, "breakdown"),
            Call::CoverTest => write!(f, "cover_test"),
            Call::CoverList => write!(f, "cover_list"),
            Call::Weighed => write!(f, "weighed_list"),
            Call::BestPattern => write!(f, "best_pattern"),
            Call::File => write!(f, "file"),
            Call::Ceiling => write!(f, "ceiling"),
            Call::Left(left) => write!(f, "{left}"),
            Call::LeftBest(left) => write!(f, "{left}, best"),
            Call::LeftCount(left) => write!(f, "{left}, count"),
            Call::Order(sentence) => write!(f, "cover_test, sentence {sentence}"),
        }
    }
}
