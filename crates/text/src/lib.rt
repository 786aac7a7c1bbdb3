// Text, written into a slice that the caller lends. What does not fit is left out and still counted, so no function
// asks for room, and a slice of no room measures a text.
#![tactic(auto)]

ghost use Rattle.std.specs.Prelude.{[], ◌∷◌, ◌+◌, ◌*◌, ◌<◌, ◌^◌, length};
ghost use Rattle.text.specs.Text.{decimal, spaced, Wrote};

// A slice that a text is written into, and the place behind what is written.
#[derive(Drop)]
pub struct Text<'a> {
    pub out: &'a mut [u8],
    pub at: usize,
}

impl Text<'_> {
    // Writes one byte.
    pub fn put_byte(&mut self, b: u8)
        requires { self.old.at + 1 < 2 ^ 64 }
        ensures { Wrote self.old (b ∷ []) 1 self.new }
    {
        if self.at < self.out.len() {
            self.out[self.at] = b;
        }
        self.at += 1;
    }

    // Writes the bytes of a word.
    pub fn put_word(&mut self, word: &[u8])
        requires { self.old.at < 2 ^ 63 }
        ensures { Wrote self.old word.now (length word.now) self.new }
    {
        // in a text of its own the place goes along in a register; through `self` it would be loaded and stored for each byte
        let mut text = Text {
            out: self.out,
            at: self.at,
        };
        for b in word {
            text.put_byte(*b);
        }
        self.at = text.at;
    }

    // Writes a number in decimal.
    pub fn put_decimal(&mut self, v: u64)
        requires { self.old.at < 2 ^ 63 }
        ensures { Wrote self.old (decimal v) 20 self.new }
    {
        if v < 10 {
            return self.put_byte(48 + v as u8);
        }
        self.put_decimal(v / 10);
        self.put_byte(48 + (v % 10) as u8);
    }

    // Writes numbers in decimal, each with a space in front.
    pub fn put_spaced(&mut self, numbers: &[u64])
        requires { self.old.at + 21 * length numbers.now < 2 ^ 63 }
        ensures { Wrote self.old (spaced numbers.now) (21 * length numbers.now) self.new }
    {
        for v in numbers {
            self.put_byte(b' ');
            self.put_decimal(*v);
        }
    }
}
