// Distances, a cost where the node is reached, else none; and the two words that hold one, in the work area
// and as it is written. Two words there and no Option: the areas are lent from C.
#![tactic(auto)]

ghost use Rattle.std.specs.Prelude.{◌≡◌, ◌+◌, ◌≤◌, ◌<◌, length};
ghost use Rattle.std.proofs.lemmas.List.Edits.{sets};
ghost use Rattle.sheet.specs.Words.{bytes_of_all};
ghost use Rattle.distance.specs.Held.{weight_in, total_in, distance_from};
ghost use Rattle.distance.specs.Held.{mark_in, bits_in, words_in, distance_in, with_distance};
ghost use Rattle.distance.specs.Written.{written_length};

use sheet::words::put_words;

// The bytes of a written distance.
pub const WRITTEN: usize = 8;

// What a distance adds to a sum: infinity where the node is unreached.
pub fn as_weight(d: Option<f32>) -> f32
    ensures { result ≡ weight_in d }
{
    d.unwrap_or(tropical_weight::zero())
}

// The total of a final node: its distance and the final weight of these bits.
pub fn total(d: Option<f32>, bits: u32) -> f32
    ensures { result ≡ total_in d bits }
{
    tropical_weight::times(as_weight(d), tropical_weight::from_bits(bits))
}

// The distance of a weight: one below infinity is reached.
pub fn of_weight(weight: f32) -> Option<f32>
    ensures { result ≡ distance_from weight }
{
    tropical_weight::natural_less(weight, tropical_weight::zero()).then_some(weight)
}

// The first of its two words: 1 where it is reached, else 0.
fn mark(d: Option<f32>) -> u32
    ensures { result ≡ mark_in d }
{
    u32::from(d.is_some())
}

// The second: the bits of its cost, or 0.
fn bits(d: Option<f32>) -> u32
    ensures { result ≡ bits_in d }
{
    d.map_or(0, tropical_weight::to_bits)
}

// The distance in the two words from `at` on.
#[tactic(auto, unfolding(crate::specs::Held::distance_in))]
pub fn distance_at(work: &[u32], at: usize) -> Option<f32>
    requires { at + 1 < length work.now }
    ensures { result ≡ distance_in work.now at }
{
    if work[at] == 0 {
        return None;
    }
    Some(tropical_weight::from_bits(work[at + 1]))
}

// Stores a distance there. Two functions: one stores words, the other their bytes.
pub fn put_distance(work: &mut [u32], at: usize, d: Option<f32>)
    requires { at + 1 < length work.old }
    ensures { work.new ≡ with_distance work.old at d }
{
    work[at] = mark(d);
    work[at + 1] = bits(d);
}

// Writes a distance, little-endian, at a byte of the result.
pub fn write_distance(res: &mut [u8], at: usize, d: Option<f32>)
    requires { at + written_length ≤ length res.old }
    ensures { res.new ≡ sets res.old at (bytes_of_all (words_in d)) }
{
    let words = [mark(d), bits(d)];
    put_words(res, at, &words);
}
