// The fields of a line, with a space between, and the decimal numbers in them.
ghost use Rattle.std.specs.Prelude.{◌≡◌, ◌≤◌, length};
ghost use Rattle.std.specs.List.{after_first};
ghost use Rattle.stored_cases.specs.Digits.{number_on};
ghost use Rattle.stored_cases.specs.Fields.{is_space, field_of, rest_of};
ghost use Rattle.stored_cases.specs.Parts.{bytes_told};

use crate::bytes::bytes_of;

// A line of stored cases.
#[derive(Clone, Copy)]
pub struct Line<'a> {
    pub text: &'a [u8],
}

// The decimal number that a field begins with, cut off behind its sixth digit: the library's parse
// refuses a field that goes on, and does not cut off.
fn decimal(field: &[u8]) -> usize
    ensures value { result ≡ number_on 0 field.now }
    ensures most { result ≤ 999999 }
{
    let mut n = 0usize;
    for c in field {
        match char::from(*c).to_digit(10) {
            Some(digit) if n <= 99999 => n = 10 * n + digit as usize,
            _ => return n,
        }
    }
    n
}

// What is behind a text's first space, nothing where it has none.
fn behind_space(text: &[u8]) -> &[u8]
    ensures { result.now ≡ after_first is_space text.now }
{
    match text.iter().position(|c| *c == b' ') {
        Some(at) => &text[at + 1..],
        None => &[],
    }
}

impl<'a> Line<'a> {
    // The field behind so many spaces, none where there are fewer.
    pub fn field(&self, spaces: usize) -> &'a [u8]
        ensures { result.now ≡ field_of self.now.text.now spaces }
    {
        self.text.split(|c| *c == b' ').nth(spaces).unwrap_or(&[])
    }

    // The decimal number in the field behind so many spaces.
    pub fn number(&self, spaces: usize) -> usize
        ensures value { result ≡ number_on 0 (field_of self.now.text.now spaces) }
        ensures most { result ≤ 999999 }
    {
        decimal(self.field(spaces))
    }

    // The line from that field on.
    fn rest(&self, spaces: usize) -> &'a [u8]
        ensures { result.now ≡ rest_of self.now.text.now spaces }
    {
        let mut rest = self.text;
        for _ in 0..spaces {
            rest = behind_space(rest);
        }
        rest
    }

    // The bytes in the field behind so many spaces, which are put into a buffer. By the rest of the
    // line: a digit alone takes the character behind it, which may be a space.
    #[inline(always)]
    pub fn bytes<'b>(&self, spaces: usize, out: &'b mut [u8]) -> &'b [u8]
        ensures { result.now ≡ bytes_told (rest_of self.now.text.now spaces) (length out.old) }
    {
        let n = bytes_of(self.rest(spaces), out);
        &out[..n]
    }
}
