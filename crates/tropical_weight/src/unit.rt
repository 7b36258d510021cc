// The unit in which a controller scores events.

ghost use Rattle.std.specs.Prelude.{◌≡◌, ◌+◌, ◌^◌, pos};
ghost use Rattle.tropical_weight.specs.Limits as Limits;
ghost use Rattle.tropical_weight.specs.Grid.{of_k};
ghost use Rattle.tropical_weight.specs.Units.{places};

use crate::{FINEST, UNIT, UNITS};

#[derive(Clone, Copy)]
pub enum Unit {
    // 1 / 64, as old controllers have it.
    Of64,
    // 1 / 256, as controllers sold since then.
    Of256,
}

impl Unit {
    // How many units are 1.
    pub fn count(&self) -> u32
        ensures { result ≡ 2 ^ places self.now }
    {
        match *self {
            Unit::Of64 => UNITS,
            Unit::Of256 => 1 << FINEST,
        }
    }

    // How many binary places more than 64ths have.
    pub fn finer(&self) -> u32
        ensures { Limits.unit + result ≡ places self.now }
    {
        match *self {
            Unit::Of64 => 0,
            Unit::Of256 => FINEST - UNIT,
        }
    }

    // One unit, the value 1 / 64 or 1 / 256.
    pub fn weight(&self) -> f32
        ensures { result ≡ of_k (places self.now) (pos 1) }
    {
        match *self {
            Unit::Of64 => 0.015625,
            Unit::Of256 => 0.00390625,
        }
    }
}
