// The bytes that a string stands for, handed out one after the other.
ghost use Rattle.strings.specs.Spans.{Span};

use crate::{Escape, encoded, escape_at};

// A place in a string that is being decoded: what stands before `at` is decoded. `word` holds the bytes of an escape that are still to be handed out, the
// next one in its lowest eight bits, and `left` how many they are.
#[derive(Drop)]
pub struct Decoder<'a> {
    pub text: &'a [u8],
    pub at: usize,
    pub end: usize,
    pub word: u32,
    pub left: u32,
    pub ghost span: { Span text.now at end },
}

impl<'a> Decoder<'a> {
    ghost use Rattle.std.specs.Prelude.{◌+◌, ◌-◌, ◌<◌, ◌≡◌, ◌∷◌};
    ghost use Rattle.strings.specs.Spans.{decode_at};
    ghost use Rattle.strings.specs.Ahead.{ahead, away};

    // At the start of a string, or of what is left of one.
    pub fn new(text: &'a [u8], at: usize, end: usize) -> Decoder<'a>
        requires { Span text.now at end }
        ensures bytes { ahead result ≡ decode_at text.now at end }
        ensures far { away result ≡ end - at }
    {
        Decoder {
            text,
            at,
            end,
            word: 0,
            left: 0,
        }
    }

    // The next byte of a character that is begun.
    #[inline(always)]
    fn pop_byte(&mut self) -> u8
        requires { 0 < self.old.left }
        ensures bytes { ahead self.old ≡ result ∷ ahead self.new }
        ensures nearer { away self.new + 1 ≡ away self.old }
    {
        let b = (self.word % 256) as u8;
        self.word /= 256;
        self.left -= 1;
        b
    }
}

impl<'a> Iterator for Decoder<'a> {
    ghost use Rattle.std.specs.Iterator.{YieldsFirst, at_most};
    ghost use Rattle.strings.specs.Ahead.{ahead, away};

    type Item = u8;

    ghost next_gives = { YieldsFirst ahead };

    ghost remaining = { λ s. at_most (away s) };

    // Inlined, so that a loop over the bytes keeps the decoder in registers.
    #[inline(always)]
    fn next(&mut self) -> Option<u8> {
        if self.left > 0 {
            return Some(self.pop_byte());
        }
        if self.at >= self.end {
            return None;
        }
        let b = self.text[self.at];
        if b != b'\\' {
            self.at += 1;
            return Some(b);
        }
        match escape_at(self.text, self.at, self.end)? {
            Escape::Short(s) => {
                self.at += 2;
                Some(s)
            }
            Escape::Long(u, to) => {
                self.at = to;
                (self.word, self.left) = encoded(u);
                Some(self.pop_byte())
            }
        }
    }
}
