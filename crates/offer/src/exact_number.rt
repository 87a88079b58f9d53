// An exact number in whole units of 2^-48, as sums of products of two numbers in grains are.
ghost use Rattle.std.specs.Prelude.{◌^◌, ◌≤◌, unsigned_abs};

#[derive(Clone, Copy, PartialEq, Eq, Debug)]
pub struct ExactNumber {
    pub units: i64,
    ghost small: { unsigned_abs units ≤ 2 ^ 57 },
}
