// How a call is tried: what stands in a lent table before it, and at which rows its answers are held to the second way.
ghost use Rattle.std.specs.Prelude.{◌≡◌, ◌↔◌, IsTrue};

#[derive(Clone, Copy, PartialEq, Eq, Debug)]
pub struct Way {
    pub was: u16,
    pub first: usize,
    pub every: usize,
}

impl Way {
    // Every row is compared.
    pub fn whole(was: u16) -> Way {
        Way {
            was,
            first: usize::MAX,
            every: 1,
        }
    }

    pub fn is_whole(self) -> bool
        ensures { IsTrue result ↔ (self.every ≡ 1) }
    {
        self.every == 1
    }

    // Of n rows the first ones, then one in every so many, and the last; and every place past them, where calls are refused.
    pub fn picks(self, row: usize, n: usize) -> bool {
        row <= self.first || n <= row || row.checked_rem(self.every) == Some(0)
    }

    // What stands before a call in the row after r others: numbers that rise by one.
    pub fn before(self, r: usize) -> u16 {
        self.was.wrapping_add((r % 4096) as u16)
    }

    // Fills a table with it.
    pub fn fill(self, t: &mut [u16]) {
        for (r, entry) in t.iter_mut().enumerate() {
            *entry = self.before(r);
        }
    }
}

// A log, and how calls are tried on it.
#[derive(Clone, Copy)]
pub struct Case<'a> {
    pub way: Way,
    pub x: &'a [u8],
}

impl<'a> Case<'a> {
    // Every row is compared.
    pub fn whole(was: u16, x: &'a [u8]) -> Case<'a>
        ensures { result.x.now ≡ x.now }
    {
        Case {
            way: Way::whole(was),
            x,
        }
    }
}
