// A line of the console's language, read byte by byte: whatever its length, what is kept of it has a fixed size.
ghost use Rattle.std.specs.Prelude.{◌≡◌};
ghost use Rattle.console.specs.Bytes.{blanked, counted, ended, fresh, lettered, noted, released, says_nothing, spelled, stepped};
ghost use Rattle.console.specs.Decimal.{with_byte};

// Where in a line the next byte stands.
#[derive(Clone, Copy)]
pub enum Place {
    // at the line's start
    Start,
    // in a comment
    Comment,
    // in the blanks before the first word
    Lead,
    // in the first word
    Word,
    // in the blanks after a word or a number
    Gap,
    // in a number
    Number,
}

// What is kept of a line. `key` is 1 and then the bytes of the first word, as the digits of a number to the base 256; `value` is the number
// that is being read, and the first `count` of `numbers` came before it. `held` is a carriage return, which belongs to the line only if
// something comes after it. `bad` is a word that is too long, a number that is none or too great, or a number too many.
#[derive(Clone, Copy)]
pub struct Line {
    pub place: Place,
    pub held: bool,
    pub bad: bool,
    pub key: u64,
    pub value: u32,
    pub count: usize,
    pub numbers: [u32; 17],
}

// A number with one more byte; none where that is no digit, or where a word does not hold the number.
#[tactic(auto, unfolding(crate::specs::Decimal::with_byte))]
fn with_byte(value: u32, byte: u8) -> Option<u32>
    ensures { result ≡ with_byte value byte }
{
    match byte {
        b'0'..=b'9' => value.checked_mul(10)?.checked_add((byte - b'0').into()),
        _ => None,
    }
}

impl Line {
    // A line of no bytes.
    pub fn new() -> Line
        ensures { result ≡ fresh }
    {
        Line {
            place: Place::Start,
            held: false,
            bad: false,
            key: 1,
            value: 0,
            count: 0,
            numbers: [0; 17],
        }
    }

    // One more byte of the first word.
    #[tactic(auto, unfolding(crate::specs::Bytes::spelled))]
    fn spell(&mut self, byte: u8)
        ensures { self.new ≡ spelled self.old byte }
    {
        self.place = Place::Word;
        if self.key < 0x1_00_00_00_00_00_00_00 {
            self.key = self.key * 256 + byte as u64;
        } else {
            self.bad = true;
        }
    }

    // One more byte of a number.
    #[tactic(auto, unfolding(crate::specs::Bytes::counted))]
    fn digit(&mut self, byte: u8)
        ensures { self.new ≡ counted self.old byte }
    {
        self.place = Place::Number;
        match with_byte(self.value, byte) {
            Some(value) => self.value = value,
            None => self.bad = true,
        }
    }

    // The number that was being read is whole.
    #[tactic(auto, unfolding(crate::specs::Bytes::noted))]
    fn keep(&mut self)
        ensures { self.new ≡ noted self.old }
    {
        self.place = Place::Gap;
        if self.count < self.numbers.len() {
            self.numbers[self.count] = self.value;
            self.count += 1;
        } else {
            self.bad = true;
        }
        self.value = 0;
    }

    // A blank.
    #[tactic(auto, unfolding(crate::specs::Bytes::blanked))]
    fn blank(&mut self)
        ensures { self.new ≡ blanked self.old }
    {
        match self.place {
            Place::Start => self.place = Place::Lead,
            Place::Word => self.place = Place::Gap,
            Place::Number => self.keep(),
            Place::Comment | Place::Lead | Place::Gap => {}
        }
    }

    // A byte that is no blank.
    #[tactic(auto, unfolding(crate::specs::Bytes::lettered))]
    fn letter(&mut self, byte: u8)
        ensures { self.new ≡ lettered self.old byte }
    {
        match self.place {
            Place::Start if byte == b'#' => self.place = Place::Comment,
            Place::Start | Place::Lead | Place::Word => self.spell(byte),
            Place::Comment => {}
            Place::Gap | Place::Number => self.digit(byte),
        }
    }

    // A carriage return that was held belongs to the line, now that something comes after it.
    #[tactic(auto, unfolding(crate::specs::Bytes::released))]
    fn release(&mut self)
        ensures { self.new ≡ released self.old }
    {
        if self.held {
            self.letter(b'\r');
            self.held = false;
        }
    }

    // One more byte of a line, no line feed.
    #[tactic(auto, unfolding(crate::specs::Bytes::stepped))]
    pub fn step(&mut self, byte: u8)
        ensures { self.new ≡ stepped self.old byte }
    {
        self.release();
        match byte {
            b'\r' => self.held = true,
            b' ' | b'\t' => self.blank(),
            _ => self.letter(byte),
        }
    }

    // The line is whole: a number at its end is kept.
    #[tactic(auto, unfolding(crate::specs::Bytes::ended))]
    pub fn whole(&mut self)
        ensures { self.new ≡ ended self.old }
    {
        if let Place::Number = self.place {
            self.keep();
        }
    }

    // A line of blanks, or a comment.
    pub fn says_nothing(&self) -> bool
        ensures { result ≡ says_nothing self.now }
    {
        matches!(self.place, Place::Start | Place::Comment | Place::Lead)
    }
}
