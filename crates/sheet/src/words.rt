// 32-bit fields, little-endian, in strings of bytes.
ghost use Rattle.std.specs.Prelude.{◌≡◌, ℕ, ◌+◌, ◌*◌, ◌≤◌, ◌<◌, length, slice_index};
ghost use Rattle.std.proofs.lemmas.List.Edits.{sets};
ghost use Rattle.sheet.specs.Words.{word_length, word as word_at, bytes_of, bytes_of_all};

// The bytes of a field.
pub const WORD: usize = 4;

// The field at an offset.
pub fn word(bytes: &[u8], at: usize) -> u32
    requires { at + word_length ≤ length bytes.now }
    ensures { result ≡ word_at bytes.now at }
{
    u32::from_le_bytes([bytes[at], bytes[at + 1], bytes[at + 2], bytes[at + 3]])
}

// Bytes are below 256, as their type says of each slice; the value of a sheet does not say it.
pub fn are_bytes(bytes: &[u8])
    ensures { (i : ℕ) → slice_index bytes.now i < 256 }
{}

// Stores a field at an offset.
pub fn put_word(bytes: &mut [u8], at: usize, word: u32)
    requires { at + word_length ≤ length bytes.old }
    ensures { bytes.new ≡ sets bytes.old at (bytes_of word) }
{
    bytes[at..at + WORD].copy_from_slice(&word.to_le_bytes());
}

// Stores bytes at an offset.
pub fn put_bytes(bytes: &mut [u8], at: usize, from: &[u8])
    requires { at + length from.now ≤ length bytes.old }
    ensures { bytes.new ≡ sets bytes.old at from.now }
{
    bytes[at..at + from.len()].copy_from_slice(from);
}

// Stores fields one after the other, from an offset.
pub fn put_words(bytes: &mut [u8], at: usize, words: &[u32])
    requires { at + word_length * length words.now ≤ length bytes.old }
    ensures { bytes.new ≡ sets bytes.old at (bytes_of_all words.now) }
{
    for (i, word) in words.iter().enumerate() {
        put_word(bytes, at + WORD * i, *word);
    }
}
