// Numbers as text: decimal and hexadecimal digits, the highest first, with no zero in front. One loop writes for every base.
ghost use Rattle.std.specs.Prelude.{◌≡◌, [], ◌∷◌, ◌<◌, ◌≤◌};
ghost use Rattle.text.specs.Page.{Wrote};
ghost use Rattle.text.specs.Numerals.{glyph_of, places_of, numeral_of};

use crate::page::Page;

// The digit `d` as a byte: 0 to 9, then a to f.
fn glyph(d: u64) -> u8
    requires { d < 16 }
    ensures answer { result ≡ glyph_of d }
{
    if d < 10 {
        b'0' + d as u8
    } else {
        b'a' - 10 + d as u8
    }
}

// How many digits `n` takes.
fn places(n: u64, base: u64) -> usize
    requires { 1 < base }
    ensures answer { result ≡ places_of base n }
{
    1 + n.checked_ilog(base).unwrap_or(0) as usize
}

impl<'a> Page<'a> {
    // The digits of `n`, written from the lowest up.
    fn numeral(&mut self, n: u64, base: u64)
        requires { (1 < base) × (base ≤ 16) }
        ensures wrote { Wrote self.old self.new (numeral_of base n ∷ []) }
    {
        let end = self.at.saturating_add(places(n, base));
        if end <= self.bytes.len() {
            let mut rest = n;
            for i in (self.at..end).rev() {
                self.bytes[i] = glyph(rest % base);
                rest /= base;
            }
            self.at = end;
        }
    }

    // `decimal`, `hex`, `labelled` and `labelled_hex` stay four names of one loop, with no base as a parameter: docs/STAMP.md and every line that
    // is written name them.
    // The decimal digits of `n`.
    pub fn decimal(&mut self, n: u64)
        ensures wrote { Wrote self.old self.new (numeral_of 10 n ∷ []) }
    {
        self.numeral(n, 10);
    }

    // The hexadecimal digits of `n`, in lower case.
    pub fn hex(&mut self, n: u64)
        ensures wrote { Wrote self.old self.new (numeral_of 16 n ∷ []) }
    {
        self.numeral(n, 16);
    }

    // Words and, after them, the digits of `n`.
    fn worded(&mut self, words: &[u8], n: u64, base: u64)
        requires { (1 < base) × (base ≤ 16) }
        ensures wrote { Wrote self.old self.new (words.now ∷ numeral_of base n ∷ []) }
    {
        self.put(words);
        self.numeral(n, base);
    }

    // Words and, after them, a number in decimal.
    pub fn labelled(&mut self, words: &[u8], n: u64)
        ensures wrote { Wrote self.old self.new (words.now ∷ numeral_of 10 n ∷ []) }
    {
        self.worded(words, n, 10);
    }

    // Words and, after them, a number in hexadecimal.
    pub fn labelled_hex(&mut self, words: &[u8], n: u64)
        ensures wrote { Wrote self.old self.new (words.now ∷ numeral_of 16 n ∷ []) }
    {
        self.worded(words, n, 16);
    }
}
