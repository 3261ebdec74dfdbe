// Floor 4: lines of text, made in a lent buffer. A text knows how much of the buffer it takes so far; each method puts something behind that.
#![tactic(auto)]

ghost use Rattle.std.specs.Prelude.{◌≡◌, [], ◌∷◌, ◌++◌, ◌+◌, ◌*◌, ◌≤◌, length, drop};

// The most digits of a number, and the most bytes that a table's entry takes in a line (`decimal_room` and `field_room` of specs/).
pub const DECIMAL: usize = 20;

pub const FIELD: usize = 6;

// The room is no const parameter, which would spare a clause of each method: a caller may lend a buffer of any length. Contracts speak of the text's `page`,
// and there is no `impl Model` to say it: behind one a caller does not see what becomes of the buffer that it lent.
#[derive(Drop)]
pub struct Text<'a> {
    bytes: &'a mut [u8],
    len: usize,
    ghost within: { len ≤ length bytes.now },
}

#[tactic(auto, using(crate::proofs::Texts::decimal_most), unfolding(crate::specs::Text::field, crate::specs::Text::tail, crate::specs::Text::line))]
impl<'a> Text<'a> {
    ghost use Rattle.lines.specs.Text as Lines;

    // No text yet.
    #[tactic(auto, unfolding(crate::specs::Text::page))]
    pub fn new(bytes: &'a mut [u8]) -> Text<'a>
        ensures { Lines.page result ≡ record { said = []; room = length bytes.old; rest = bytes.old; buffer = bytes.entry.ghost_name } }
    {
        Text { bytes, len: 0 }
    }

    #[tactic(auto, unfolding(crate::specs::Text::page))]
    pub fn as_slice(&self) -> &[u8]
        ensures said { result.now ≡ (Lines.page self.now).said }
        ensures within { length (Lines.page self.now).said ≤ (Lines.page self.now).room }
    {
        &self.bytes[..self.len]
    }

    // ---- pieces

    // Puts a word.
    #[tactic(auto, unfolding(crate::specs::Text::page))]
    pub fn word(&mut self, w: &[u8])
        requires { Lines.Fits (Lines.page self.old) (length w.now) }
        ensures said { (Lines.page self.new).said ≡ (Lines.page self.old).said ++ w.now }
        ensures room { (Lines.page self.new).room ≡ (Lines.page self.old).room }
        ensures buffer { (Lines.page self.new).buffer ≡ (Lines.page self.old).buffer }
        ensures rest { (Lines.page self.new).rest ≡ drop (length w.now) (Lines.page self.old).rest }
    {
        let end = self.len + w.len();
        self.bytes[self.len..end].copy_from_slice(w);
        self.len = end;
    }

    // Puts a number's digits.
    pub fn number(&mut self, n: usize)
        requires { Lines.Fits (Lines.page self.old) (length (Lines.decimal n)) }
        ensures said { (Lines.page self.new).said ≡ (Lines.page self.old).said ++ Lines.decimal n }
        ensures room { (Lines.page self.new).room ≡ (Lines.page self.old).room }
        ensures buffer { (Lines.page self.new).buffer ≡ (Lines.page self.old).buffer }
        ensures short { length (Lines.page self.new).said ≤ length (Lines.page self.old).said + Lines.decimal_room }
    {
        let mut digits = [0u8; DECIMAL];
        let k = io::decimal(n as u64, &mut digits);
        self.word(&digits[..k]);
    }

    // Puts a space and a number.
    pub fn field(&mut self, n: usize)
        requires { Lines.Fits (Lines.page self.old) (1 + length (Lines.decimal n)) }
        ensures said { (Lines.page self.new).said ≡ (Lines.page self.old).said ++ Lines.field n }
        ensures room { (Lines.page self.new).room ≡ (Lines.page self.old).room }
        ensures buffer { (Lines.page self.new).buffer ≡ (Lines.page self.old).buffer }
        ensures short { length (Lines.page self.new).said ≤ length (Lines.page self.old).said + 1 + Lines.decimal_room }
    {
        self.word(b" ");
        self.number(n);
    }

    // Puts a space and an entry, for each entry of t.
    fn fields(&mut self, t: &[u16])
        requires { Lines.Fits (Lines.page self.old) (Lines.field_room * length t.now) }
        ensures said { (Lines.page self.new).said ≡ (Lines.page self.old).said ++ Lines.fields t.now }
        ensures room { (Lines.page self.new).room ≡ (Lines.page self.old).room }
        ensures buffer { (Lines.page self.new).buffer ≡ (Lines.page self.old).buffer }
        ensures short { length (Lines.page self.new).said ≤ length (Lines.page self.old).said + Lines.field_room * length t.now }
    {
        for n in t {
            self.field(usize::from(*n));
        }
    }

    // Ends the line.
    pub fn end(&mut self)
        requires { Lines.Fits (Lines.page self.old) 1 }
        ensures said { (Lines.page self.new).said ≡ (Lines.page self.old).said ++ 10 ∷ [] }
        ensures room { (Lines.page self.new).room ≡ (Lines.page self.old).room }
        ensures buffer { (Lines.page self.new).buffer ≡ (Lines.page self.old).buffer }
        ensures short { length (Lines.page self.new).said ≤ length (Lines.page self.old).said + 1 }
    {
        self.word(b"\n");
    }

    // Puts the entries of t, and ends the line.
    fn tail(&mut self, t: &[u16])
        requires { Lines.Fits (Lines.page self.old) (Lines.field_room * length t.now + 1) }
        ensures said { (Lines.page self.new).said ≡ (Lines.page self.old).said ++ Lines.tail t.now }
        ensures room { (Lines.page self.new).room ≡ (Lines.page self.old).room }
        ensures buffer { (Lines.page self.new).buffer ≡ (Lines.page self.old).buffer }
        ensures short { length (Lines.page self.new).said ≤ length (Lines.page self.old).said + Lines.field_room * length t.now + 1 }
    {
        self.fields(t);
        self.end();
    }

    // ---- lines

    // A word and the entries of t.
    pub fn line(&mut self, w: &[u8], t: &[u16])
        requires { Lines.Fits (Lines.page self.old) (length w.now + Lines.field_room * length t.now + 1) }
        ensures said { (Lines.page self.new).said ≡ (Lines.page self.old).said ++ Lines.line w.now t.now }
        ensures room { (Lines.page self.new).room ≡ (Lines.page self.old).room }
        ensures buffer { (Lines.page self.new).buffer ≡ (Lines.page self.old).buffer }
        ensures short { length (Lines.page self.new).said ≤ length (Lines.page self.old).said + length w.now + Lines.field_room * length t.now + 1 }
    {
        self.word(w);
        self.tail(t);
    }

    // A word and one number of any size.
    pub fn counted(&mut self, w: &[u8], n: usize)
        requires { Lines.Fits (Lines.page self.old) (length w.now + 1 + Lines.decimal_room + 1) }
        ensures said { (Lines.page self.new).said ≡ (Lines.page self.old).said ++ Lines.line w.now (n ∷ []) }
        ensures room { (Lines.page self.new).room ≡ (Lines.page self.old).room }
        ensures buffer { (Lines.page self.new).buffer ≡ (Lines.page self.old).buffer }
        ensures short { length (Lines.page self.new).said ≤ length (Lines.page self.old).said + length w.now + 1 + Lines.decimal_room + 1 }
    {
        self.word(w);
        self.field(n);
        self.end();
    }
}
