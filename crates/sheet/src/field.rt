// Lists of 32-bit fields by their numbers: those of a byte string, and words.
ghost use Rattle.std.specs.Prelude.{◌≡◌, ℕ, ◌*◌, ◌/◌, ◌<◌, length, get_or};
ghost use Rattle.sheet.specs.Words.{word_length, word as word_at};

use crate::words::{WORD, word};

pub trait Fields {
    ghost count: { Self → ℕ };

    ghost value: { Self → ℕ → ℕ };

    fn field(&self, i: usize) -> u32
        requires { i < count self.now }
        ensures { result ≡ value self.now i };
}

// The fields of a byte string, from its first byte on.
#[derive(Clone, Copy)]
pub struct Bytes<'a> {
    pub bytes: &'a [u8],
}

impl<'a> Fields for Bytes<'a> {
    ghost count = { λ f. length f.bytes.now / word_length };

    ghost value = { λ f i. word_at f.bytes.now (word_length * i) };

    fn field(&self, i: usize) -> u32 {
        word(self.bytes, WORD * i)
    }
}

// Fields that are given as words.
#[derive(Clone, Copy)]
pub struct Words<'a> {
    pub words: &'a [u32],
}

impl<'a> Fields for Words<'a> {
    ghost count = { λ f. length f.words.now };

    ghost value = { λ f i. get_or f.words.now i 0 };

    fn field(&self, i: usize) -> u32 {
        self.words[i]
    }
}
