// Rounding a number of 2^-48 to grains.
ghost use Rattle.std.specs.Prelude.{◌≡◌};
ghost use Rattle.arithmetic.specs.Rounding.{floored, ceiled, Floor, Ceiling};

use crate::limits::{HALVINGS, ONE};

// z / g, rounded down.
pub fn floor_grains(z: i64) -> i64
    ensures value { result ≡ floored z }
    ensures floor { Floor z result }
{
    z >> HALVINGS
}

// z / g, rounded up.
pub fn ceil_grains(z: i64) -> i64
    ensures value { result ≡ ceiled z }
    ensures ceiling { Ceiling z result }
{
    ((i128::from(z) + i128::from(ONE - 1)) >> HALVINGS) as i64
}
