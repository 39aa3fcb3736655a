// Text put into lent bytes, one piece after the other: words, numbers and strokes.
ghost use Rattle.std.specs.Prelude.{◌≡◌, [], ◌∷◌, ◌++◌, cond, ◌+◌, ◌≤◌, ◌<◌, length};
ghost use Rattle.prints.specs.Text.{decimal, dot, stroke_of};

// The letter of each bit of a stroke, bit 0 first.
const LETTERS: [u8; 23] = *b"#STKPWHRAO*EUFRPBLGTSDZ";

// The character of a key: its letter, or a dot where it is up.
fn key_character(letter: u8, is_down: bool) -> u8
    ensures { result ≡ cond is_down letter dot }
{
    if is_down { letter } else { b'.' }
}

// Lent bytes, and the offset where the next byte goes.
#[derive(Drop)]
pub struct Out<'a> {
    pub bytes: &'a mut [u8],
    pub at: usize,
    ghost within: { at ≤ length bytes.now },
}

impl Out<'_> {
    ghost use Rattle.prints.specs.Put.{Puts};

    fn put_byte(&mut self, byte: u8)
        requires { self.old.at < length self.old.bytes.now }
        ensures { Puts self.old self.new (byte ∷ []) }
    {
        self.bytes[self.at] = byte;
        self.at += 1;
    }

    pub fn put_text(&mut self, text: &[u8])
        requires { self.old.at + length text.now ≤ length self.old.bytes.now }
        ensures { Puts self.old self.new text.now }
    {
        let end = self.at + text.len();
        self.bytes[self.at..end].copy_from_slice(text);
        self.at = end;
    }

    // A number in decimal, with no zeros in front.
    fn put_number(&mut self, n: u32)
        requires { self.old.at + length (decimal n) ≤ length self.old.bytes.now }
        ensures { Puts self.old self.new (decimal n) }
    {
        if n < 10 {
            return self.put_byte(b'0' + n as u8);
        }
        self.put_number(n / 10);
        self.put_byte(b'0' + (n % 10) as u8);
    }

    // A word, and a number after it.
    pub fn put_labelled(&mut self, word: &[u8], n: u32)
        requires { self.old.at + length word.now + 10 ≤ length self.old.bytes.now }
        ensures put { Puts self.old self.new (word.now ++ decimal n) }
        ensures within { self.new.at ≤ self.old.at + length word.now + 10 }
    {
        self.put_text(word);
        self.put_number(n);
    }

    // A stroke's 23 characters, bit 0 first.
    pub fn put_stroke(&mut self, key: u32)
        requires { self.old.at + 23 ≤ length self.old.bytes.now }
        ensures { Puts self.old self.new (stroke_of key) }
    {
        let mut rest = key;
        for letter in LETTERS {
            self.put_byte(key_character(letter, rest % 2 == 1));
            rest /= 2;
        }
    }
}
