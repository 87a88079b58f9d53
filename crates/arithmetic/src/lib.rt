// What every interval arithmetic keeps: the trait, its refusals, its limits and its rounding.
#![tactic(auto)]

ghost use Rattle.std.specs.Prelude.{◌≡◌};
ghost use Rattle.arithmetic.specs.Intervals.{size};
ghost use Rattle.arithmetic.specs.Operations.{Ops, making, adding, subtracting, multiplying};
ghost use Rattle.arithmetic.specs.Rules.{Rules};

mod limits;
mod refusal;
mod rounding;

pub use limits::{
    LARGEST, ONE, check_making, check_product, check_sum, may_make, may_mean, may_multiply,
    may_stand, size_of,
};
pub use refusal::Refusal;
pub use rounding::{ceil_grains, floor_grains};

// An arithmetic of intervals, in whole numbers of grains: a value means a low end and a high end. Its types carry no invariant,
// so every call takes any value. A new arithmetic has to show `rules`, and no more.
pub trait Arithmetic: Copy {
    // What it computes.
    ghost ops: { Ops Self };

    // A value that covers low to high. Refused if low is above high, or one of them has a size above 2^44.
    // Two plain ends, since the one record of two ends is a value of the ends arithmetic, and may be malformed.
    fn make(low: i64, high: i64) -> Result<Self, Refusal>
        ensures { result ≡ making ops low high };

    // The sum, with exact ends. Refused if its size is above 2^45.
    fn sum(self, other: Self) -> Result<Self, Refusal>
        ensures { result ≡ adding ops self other };

    // The difference, with exact ends. Refused if its size is above 2^45.
    fn difference(self, other: Self) -> Result<Self, Refusal>
        ensures { result ≡ subtracting ops self other };

    // A value that covers the products. Refused if the two sizes multiply to more than 2^62.
    fn product(self, other: Self) -> Result<Self, Refusal>
        ensures { result ≡ multiplying ops self other };

    // The low end.
    fn low(self) -> i64
        ensures { result ≡ (ops.means self).low };

    // The high end.
    fn high(self) -> i64
        ensures { result ≡ (ops.means self).high };

    // The larger size of the two ends.
    fn size(self) -> u64
        ensures { result ≡ size (ops.means self) };

    // What is known of it.
    ghost rules: { Rules ops };
}
