// Floor 2: what one line of a text of readings says.
#![tactic(auto, unfolding(crate::specs::Lines::blank, crate::specs::Lines::digit, crate::specs::Lines::blanks, crate::specs::Lines::no_digits, crate::specs::Lines::longer, crate::specs::Lines::of_number, crate::specs::Lines::after_number, crate::specs::Lines::after_digits, crate::specs::Lines::says, crate::specs::Lines::says_after))]

ghost use Rattle.std.specs.Prelude.{true, ◌≡◌, List, [], ◌∷◌, ℕ};
ghost use Rattle.ppm_line.specs.Lines.{symbol_of, blank, digit, longer, of_number, says, says_after};

// The digits of a line's number: how many, counted to seven, and the value of the last six.
#[derive(Clone, Copy, Debug, Default, PartialEq, Eq)]
pub struct Number {
    pub digits: u8,
    pub ppm: u32,
}

// What the first bytes of a line amount to.
#[derive(Clone, Copy, Debug, PartialEq, Eq)]
pub enum Line {
    Blank,
    Remark,
    Digits(Number),
    Spaced(Number),
    Other,
}

// What is wrong with a line.
#[derive(Clone, Copy, Debug, PartialEq, Eq)]
pub enum LineFault {
    NoNumber,
    LongNumber,
}

// The symbol of a reading: whole hundreds of ppm, rounded down, with 20 for 2000 and above.
pub fn symbol(ppm: u32) -> u8
    ensures { result ≡ symbol_of ppm }
{
    if 2000 <= ppm { 20 } else { (ppm / 100) as u8 }
}

// A space, a tab or a carriage return.
fn is_blank(b: u8) -> bool
    ensures { result ≡ blank b }
{
    matches!(b, b' ' | b'\t' | b'\r')
}

impl Number {
    fn with_digit(self, b: u8) -> Number
        requires { digit b ≡ true }
        ensures { result ≡ longer self b }
    {
        Number {
            digits: self.digits.saturating_add(1).min(7),
            ppm: self.ppm % 100000 * 10 + u32::from(b - b'0'),
        }
    }

    // What a line says that holds the whole number.
    fn says(self) -> Result<Option<u32>, LineFault>
        ensures { result ≡ of_number self }
    {
        if self.digits <= 6 {
            Ok(Some(self.ppm))
        } else {
            Err(LineFault::LongNumber)
        }
    }
}

impl Line {
    // What a line amounts to after its first byte.
    fn first(b: u8) -> Line
        ensures { (t : List ℕ) → says_after result t ≡ says (b ∷ t) }
    {
        match b {
            _ if is_blank(b) => Line::Blank,
            b'#' => Line::Remark,
            b'0'..=b'9' => Line::Digits(Number::default().with_digit(b)),
            _ => Line::Other,
        }
    }

    // What a line amounts to with one more byte.
    pub fn next(self, b: u8) -> Line
        ensures { (t : List ℕ) → says_after result t ≡ says_after self (b ∷ t) }
    {
        match self {
            Line::Blank => Line::first(b),
            Line::Remark => Line::Remark,
            Line::Digits(n) if b.is_ascii_digit() => Line::Digits(n.with_digit(b)),
            Line::Digits(n) | Line::Spaced(n) if is_blank(b) => Line::Spaced(n),
            _ => Line::Other,
        }
    }

    // What a line says that is at its end: a reading, nothing, or what is wrong with it.
    pub fn says(self) -> Result<Option<u32>, LineFault>
        ensures { result ≡ says_after self [] }
    {
        match self {
            Line::Blank | Line::Remark => Ok(None),
            Line::Digits(n) | Line::Spaced(n) => n.says(),
            Line::Other => Err(LineFault::NoNumber),
        }
    }
}
