// Tropical weights in single precision (tropical_weight.rs, semiring.rs of rustfst).
//
// A weight is an f32. On the grid it is a whole number of units, and what these functions answer is
// exact: sums are sums of whole numbers, tests are tests of whole numbers.
#![tactic(auto)]

ghost use Rattle.std.specs.Prelude.{◌≡◌, ℕ, ◌<◌, ◌≤◌, from_bits, to_bits, unsigned_abs};
ghost use Rattle.std.specs.Float.{binary32};
ghost use Rattle.std.specs.Float.Ieee.{add, lt};
ghost use Rattle.tropical_weight.specs.Limits.{finest, weight_limit, sum_limit};
ghost use Rattle.tropical_weight.specs.Tropical as Tropical;
ghost use Rattle.tropical_weight.specs.Tropical.{◌⊕◌, ◌⊗◌, lt_t};
ghost use Rattle.tropical_weight.specs.Grid.{of_k, of_t, grid_bits};
ghost use Rattle.tropical_weight.specs.Units.{places};
ghost use Rattle.tropical_weight.specs.Single.{lesser, Number, number_bits, Computes, Decides, Approx, Costs};

pub mod shifts;
pub mod unit;

use shifts::GridShifts;
use std::num::saturating_f32_to_i32;
use unit::Unit;

// 64ths, the unit of text rows and of old controllers: it is 1 / 2 ^ UNIT.
pub const UNIT: u32 = 6;

// How many 64ths are 1.
pub const UNITS: u32 = 1 << UNIT;

// The finest unit is 1 / 2 ^ FINEST.
pub const FINEST: u32 = 8;

// The bits of positive infinity.
pub const INFINITY: u32 = 0x7f80_0000;

// The most units of a weight, either way.
pub const WEIGHT_LIMIT: u32 = 8192;

// The most units of a sum of weights, either way.
pub const SUM_LIMIT: u32 = 1 << 24;

// The most nodes of a machine, and so the most terms of a sum along a reading.
pub const NODE_LIMIT: usize = 2048;

// The most links of a machine.
pub const LINK_LIMIT: usize = 16384;

// The most readings that a list is asked for.
pub const LIST_LIMIT: u32 = 64;

// The semiring's zero, neutral for `plus`: infinity.
pub fn zero() -> f32
    ensures { (j : ℕ) → j ≤ finest → result ≡ of_t j Tropical.zero }
{
    f32::from_bits(INFINITY)
}

// The semiring's one, neutral for `times`: 0.
pub fn one() -> f32
    ensures { (j : ℕ) → j ≤ finest → result ≡ of_t j Tropical.one }
{
    0.0
}

// The lesser of the two. Not f32::min: where one is a NaN that answers the other.
pub fn plus(a: f32, b: f32) -> f32
    ensures { Computes lesser ◌⊕◌ a b result }
{
    if b < a { b } else { a }
}

// The sum of the two.
pub fn times(a: f32, b: f32) -> f32
    ensures { Computes (add binary32) ◌⊗◌ a b result }
{
    a + b
}

// Whether a comes strictly before b.
pub fn natural_less(a: f32, b: f32) -> bool
    ensures { Decides lt lt_t a b result }
{
    a < b
}

// Whether the two are equal within delta, as the Rust tests it: no PartialEq, which takes no delta.
pub fn approx_equal(a: f32, b: f32, delta: f32) -> bool
    ensures { Approx a b delta result }
{
    a <= b + delta && b <= a + delta
}

// The grid test: whether `bits` is the pattern of a whole number of units within the limit. NaN,
// the infinities and negative zero are off the grid.
pub fn on_grid(unit: Unit, bits: u32) -> bool
    ensures { result ≡ grid_bits (places unit) weight_limit bits }
{
    GridShifts::new(unit).on_grid(bits)
}

// The value of a bit pattern; a NaN's is a NaN, of no particular pattern. The test goes by the bits, since
// f32::from_bits keeps a pattern and asks for a number's.
pub fn from_bits(bits: u32) -> f32
    ensures { result ≡ from_bits binary32 bits }
{
    if INFINITY < bits % 0x8000_0000 {
        return 0.0 / 0.0;
    }
    f32::from_bits(bits)
}

// The bit pattern of a value; of a NaN it is 7FC00000 hexadecimal.
pub fn to_bits(value: f32) -> u32
    ensures { result ≡ to_bits binary32 value }
{
    if value.is_nan() {
        return 0x7fc0_0000;
    }
    f32::to_bits(value)
}

// The value of a pattern that is no NaN's, without a test: the heap reads a rank so at each comparison.
pub fn from_number_bits(bits: u32) -> f32
    requires { Number bits }
    ensures { result ≡ from_bits binary32 bits }
{
    f32::from_bits(bits)
}

// The bit pattern of a value, to be read by `from_number_bits`: of a NaN it is infinity's.
pub fn to_number_bits(value: f32) -> u32
    ensures { result ≡ number_bits value }
{
    if value.is_nan() {
        return INFINITY;
    }
    to_bits(value)
}

// The cost in units, as an i32: cut toward zero, held to the range, and 0 for a NaN.
pub fn cost(unit: Unit, weight: f32) -> i32
    ensures { Costs (places unit) weight result }
{
    saturating_f32_to_i32(weight * (unit.count() as f32))
}

// The weight of so many units: exact up to 2^24 of them.
pub fn from_units(unit: Unit, units: i32) -> f32
    requires { unsigned_abs units ≤ sum_limit }
    ensures { result ≡ of_k (places unit) units }
{
    (units as f32) * unit.weight()
}

// The magnitude of a cost, which a u32 holds at every i32. No function here calls it, but it is public.
pub fn magnitude(cost: i32) -> u32
    ensures { result ≡ unsigned_abs cost }
{
    cost.unsigned_abs()
}
