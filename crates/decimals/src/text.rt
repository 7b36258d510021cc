// A text as it is made, in an area of its own of N bytes.
ghost use Rattle.std.specs.Prelude.{◌≡◌, ℕ, ◌+◌, ◌≤◌, ◌<◌, List, [], ◌∷◌, ◌++◌, length, take};
ghost use Rattle.decimals.specs.Decimal.{decimal, sign_text};

use crate::write;
use std::marker::Model;

#[derive(Drop)]
pub struct Text<const N: usize> {
    bytes: [u8; N],
    end: usize,
}

// Clauses see the text.
impl<const N: usize> Model for Text<N> {
    ghost Value = { List ℕ };

    ghost view = { λ t. take t.end t.bytes };

    ghost invariant = { λ t. t.end ≤ N };
}

impl<const N: usize> Text<N> {
    // No text yet.
    pub fn new() -> Self
        ensures { result ≡ [] }
    {
        Text {
            bytes: [0; N],
            end: 0,
        }
    }

    // How many bytes it is.
    pub fn len(&self) -> usize
        ensures { result ≡ length self.now }
    {
        self.end
    }

    // Its bytes.
    pub fn bytes(&self) -> &[u8]
        ensures value { result.now ≡ self.now }
        ensures upper_bound { length result.now ≤ N }
    {
        &self.bytes[..self.end]
    }

    // A byte behind it.
    pub fn put_byte(&mut self, byte: u8)
        requires { length self.old < N }
        ensures { self.new ≡ self.old ++ byte ∷ [] }
    {
        self.bytes[self.end] = byte;
        self.end += 1;
    }

    // A minus sign behind it where a number is negative: what follows is its magnitude.
    pub fn put_sign(&mut self, x: i32)
        requires { length self.old < N }
        ensures value { self.new ≡ self.old ++ sign_text x }
        ensures upper_bound { length self.new ≤ length self.old + 1 }
    {
        if x < 0 {
            self.put_byte(b'-');
        }
    }

    // A text behind it.
    pub fn put_text(&mut self, text: &[u8])
        requires { length self.old + length text.now ≤ N }
        ensures { self.new ≡ self.old ++ text.now }
    {
        self.end = write::put_text(&mut self.bytes, self.end, text);
    }

    // A number in decimal behind it.
    pub fn put_decimal(&mut self, x: u32)
        requires { length self.old + 10 ≤ N }
        ensures value { self.new ≡ self.old ++ decimal x }
        ensures upper_bound { length self.new ≤ length self.old + 10 }
    {
        self.end = write::put_decimal(&mut self.bytes, self.end, x);
    }
}
