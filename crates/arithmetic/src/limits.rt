// The unit, and the limits that every arithmetic keeps, as tests and as checks for whoever writes one.
// Ends are two plain numbers: the one record of two ends is a value of the ends arithmetic, and may be malformed.
ghost use Rattle.std.specs.Prelude.{◌≡◌, ◌*◌, ◌^◌, nat_le};
ghost use Rattle.arithmetic.specs.Intervals.{between, size, proper};
ghost use Rattle.arithmetic.specs.Operations.{checked};
ghost use Rattle.arithmetic.specs.declared.refusal.Refusal.TheVariants.{Making, Product, Sum};

use crate::refusal::Refusal;

// A grain is this many halvings of one.
pub(crate) const HALVINGS: u32 = 24;

// The value one, in grains.
pub const ONE: i64 = 1 << HALVINGS;

// The largest size of a value, in grains.
pub const LARGEST: u64 = 1 << 45;

// The size of the interval with these ends.
pub fn size_of(low: i64, high: i64) -> u64
    ensures { result ≡ size (between low high) }
{
    low.unsigned_abs().max(high.unsigned_abs())
}

// Whether the ends are in order, and their size is at most so many grains.
fn is_proper(low: i64, high: i64, most: u64) -> bool
    ensures { result ≡ proper most (between low high) }
{
    low <= high && size_of(low, high) <= most
}

// Whether a value may mean these ends.
pub fn may_mean(low: i64, high: i64) -> bool
    ensures { result ≡ proper (2 ^ 45) (between low high) }
{
    is_proper(low, high, LARGEST)
}

// Whether a value may be made from these ends.
pub fn may_make(low: i64, high: i64) -> bool
    ensures { result ≡ proper (2 ^ 44) (between low high) }
{
    is_proper(low, high, 1 << 44)
}

// Whether a sum or a difference of this size stands.
pub fn may_stand(size: u64) -> bool
    ensures { result ≡ nat_le size (2 ^ 45) }
{
    size <= LARGEST
}

// Whether values of these sizes may be multiplied.
pub fn may_multiply(size: u64, other: u64) -> bool
    ensures { result ≡ nat_le (size * other) (2 ^ 62) }
{
    let product = u128::from(size) * u128::from(other);
    product <= 1 << 62
}

// The refusal, unless the test holds: an `if`, which says it in fewer words than `then_some(()).ok_or(refusal)`.
fn checked(holds: bool, refusal: Refusal) -> Result<(), Refusal>
    ensures { result ≡ checked holds refusal }
{
    if holds { Ok(()) } else { Err(refusal) }
}

// A refusal, unless a value may be made from these ends.
pub fn check_making(low: i64, high: i64) -> Result<(), Refusal>
    ensures { result ≡ checked (proper (2 ^ 44) (between low high)) Making }
{
    checked(may_make(low, high), Refusal::Making)
}

// A refusal, unless a sum or a difference of this size stands.
pub fn check_sum(size: u64) -> Result<(), Refusal>
    ensures { result ≡ checked (nat_le size (2 ^ 45)) Sum }
{
    checked(may_stand(size), Refusal::Sum)
}

// A refusal, unless values of these sizes may be multiplied.
pub fn check_product(size: u64, other: u64) -> Result<(), Refusal>
    ensures { result ≡ checked (nat_le (size * other) (2 ^ 62)) Product }
{
    checked(may_multiply(size, other), Refusal::Product)
}
