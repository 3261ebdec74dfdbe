// Floor 4: a text made in a lent buffer, piece behind piece, to be written at once. A pen stands behind the last piece.
//
// What does not fit is not put, and neither is anything after it: a text is whole or it is none. So nobody has to show beforehand that there is room.
#![tactic(auto)]

ghost use Rattle.std.specs.Prelude.{◌≡◌, ◌↔◌, ◌++◌, length, true, IsSome, IfSome};
ghost use Rattle.lines.specs.Text.{decimal};
ghost use Rattle.pen.specs.Pens as Pens;

// Where the text ends, and whether every piece has been put. It keeps its end where a piece was left out (`pen_after` of specs/), so it is no Option.
#[derive(Clone, Copy)]
pub struct Place {
    pub at: usize,
    pub fits: bool,
}

impl Place {
    // Whether a piece of n bytes is put: so were all before it, and there is room behind them.
    #[tactic(auto, unfolding(crate::specs::Pens::takes))]
    fn takes(self, room: usize, n: usize) -> bool
        ensures { result ≡ Pens.takes room self n }
    {
        self.fits && self.at <= room && n <= room - self.at
    }

    // The text in this buffer, or the empty part where it is not whole.
    #[tactic(auto, unfolding(crate::specs::Pens::text_of, crate::specs::Pens::takes))]
    pub fn text(self, out: &[u8]) -> &[u8]
        ensures { result.now ≡ Pens.text_of out.now self }
    {
        if self.takes(out.len(), 0) {
            &out[..self.at]
        } else {
            &out[..0]
        }
    }
}

#[derive(Drop)]
pub struct Pen<'a> {
    pub out: &'a mut [u8],
    pub place: Place,
}

impl<'a> Pen<'a> {
    // Before the first piece.
    #[tactic(auto, unfolding(crate::specs::Pens::first))]
    pub fn new(out: &'a mut [u8]) -> Pen<'a>
        ensures buffer { result.out.ghost_name ≡ out.entry.ghost_name }
        ensures same { result.out.now ≡ out.old }
        ensures pen { result.place ≡ Pens.first }
    {
        Pen {
            out,
            place: Place { at: 0, fits: true },
        }
    }

    // Puts a piece.
    #[tactic(auto, unfolding(crate::specs::Pens::takes, crate::specs::Pens::pen_after, crate::specs::Pens::out_after))]
    pub fn say(&mut self, piece: &[u8])
        ensures pen { self.new.place ≡ Pens.pen_after (length self.old.out.now) self.old.place piece.now }
        ensures text { self.new.out.now ≡ Pens.out_after self.old.out.now self.old.place piece.now }
        ensures wrote { Pens.Wrote self.old piece.now self.new }
    {
        if !self.place.takes(self.out.len(), piece.len()) {
            self.place.fits = false;
            return;
        }
        let at = self.place.at;
        let end = at + piece.len();
        self.out[at..end].copy_from_slice(piece);
        self.place.at = end;
    }

    // Puts a piece, and a number's digits after it.
    pub fn put(&mut self, piece: &[u8], n: usize)
        ensures pen { self.new.place ≡ Pens.pen_after_number (length self.old.out.now) self.old.place piece.now n }
        ensures text { self.new.out.now ≡ Pens.out_after_number self.old.out.now self.old.place piece.now n }
        ensures wrote { Pens.Wrote self.old (piece.now ++ decimal n) self.new }
    {
        let mut digits = [0u8; lines::DECIMAL];
        let k = io::decimal(n as u64, &mut digits);
        self.say(piece);
        self.say(&digits[..k]);
    }

    // The text, or none where it is not whole.
    #[tactic(auto, unfolding(crate::specs::Pens::text_of, crate::specs::Pens::takes))]
    pub fn whole(&self) -> Option<&[u8]>
        ensures whether { IsSome result ↔ (Pens.takes (length self.now.out.now) self.now.place 0 ≡ true) }
        ensures text { IfSome result (λ t. t.now ≡ Pens.text_of self.now.out.now self.now.place) }
    {
        if self.place.takes(self.out.len(), 0) {
            Some(&self.out[..self.place.at])
        } else {
            None
        }
    }

    // The text, or the empty part where it is not whole.
    pub fn text(&self) -> &[u8]
        ensures { result.now ≡ Pens.text_of self.now.out.now self.now.place }
    {
        self.place.text(self.out)
    }
}
