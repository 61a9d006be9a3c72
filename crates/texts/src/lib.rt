// Texts for people, put into a lent buffer piece by piece.
#![tactic(auto)]

ghost use Rattle.std.specs.Prelude.{◌≡◌, ◌+◌, ◌<◌, length};
ghost use Rattle.texts.specs.Written.{number, numbered, refusal};
ghost use Rattle.texts.specs.Put.{Begun, Put, Room};

// A text in a lent buffer, and the offset after what was put.
#[derive(Drop)]
pub struct Text<'a> {
    out: &'a mut [u8],
    at: usize,
}

impl<'a> Text<'a> {
    // Nothing yet. What is put first begins at an offset of the buffer.
    pub fn new(out: &'a mut [u8], at: usize) -> Text<'a>
        ensures { Begun out.entry at result }
    {
        Text { out, at }
    }

    // The offset after what was put.
    pub fn end(&self) -> usize
        ensures { result ≡ self.now.at }
    {
        self.at
    }

    // Bytes that are fixed, as a word is.
    pub fn word(&mut self, word: &[u8])
        requires { Room (length word.now) self.old }
        ensures { Put word.now self.old self.new }
    {
        buffers::put_bytes(self.out, self.at, word);
        self.at += word.len();
    }

    // A number in decimal. No number of a text has more than 16 bits; those who put one know less room for smaller ones, so the bound is a clause.
    pub fn number(&mut self, n: usize)
        requires { (n < 65536) × Room (length (number n)) self.old }
        ensures { Put (number n) self.old self.new }
    {
        let mut digits = [0u8; 20];
        let count = io::decimal(n as u64, &mut digits);
        self.word(&digits[..count]);
    }

    // A line of a word and a number.
    pub fn numbered(&mut self, word: &[u8], n: usize)
        requires { (n < 65536) × Room (length word.now + length (number n) + 1) self.old }
        ensures { Put (numbered word.now n) self.old self.new }
    {
        self.word(word);
        self.number(n);
        self.word(b"\n");
    }

    // The one line of a refused table (PROFILE 7.2).
    pub fn refused(&mut self, n: usize)
        requires { (n < 1000) × Room 12 self.old }
        ensures { Put (refusal n) self.old self.new }
    {
        self.numbered(b"refused ", n);
    }
}
