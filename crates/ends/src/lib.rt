// The arithmetic that keeps the two ends of an interval.
#![tactic(auto)]

ghost use Rattle.std.specs.Prelude.{◌≡◌, ◌*◌, ◌^◌, ◌≤◌, unsigned_abs};
ghost use Rattle.std.specs.Int.{int_min, int_max};
ghost use Rattle.arithmetic.specs.Intervals.{between, size};
ghost use Rattle.arithmetic.specs.Rounding.{floored, ceiled};
ghost use Rattle.ends.specs.Ends.{kept, means, outward, settled, ends_ops};
ghost use Rattle.ends.specs.Keeping.{ends_rules};

use arithmetic::{
    Arithmetic, Refusal, ceil_grains, check_making, check_product, check_sum, floor_grains,
    may_mean, size_of,
};

// An interval by its two ends, in grains. A record whose fields are no two ends of a value means 0 to 0.
#[derive(Clone, Copy, PartialEq, Eq, Debug)]
pub struct Ends {
    pub low: i64,
    pub high: i64,
}

impl Ends {
    // The ends that the record means.
    fn meant(self) -> Ends
        ensures value { result ≡ kept (means self) }
        ensures low_bound { unsigned_abs result.low ≤ 2 ^ 45 }
        ensures high_bound { unsigned_abs result.high ≤ 2 ^ 45 }
    {
        if may_mean(self.low, self.high) {
            self
        } else {
            Ends { low: 0, high: 0 }
        }
    }

    // The four products of ends, from the least rounded down to the greatest rounded up.
    fn outward(self, other: Ends) -> Ends
        requires { size (between self.low self.high) * size (between other.low other.high) ≤ 2 ^ 62 }
        ensures { result ≡ kept (outward (between self.low self.high) (between other.low other.high)) }
    {
        let (p, q) = (self.low * other.low, self.low * other.high);
        let (s, t) = (self.high * other.low, self.high * other.high);
        round_out(p, q, s, t)
    }
}

// The least of four numbers of 2^-48, rounded down to grains, and the greatest, rounded up.
fn round_out(p: i64, q: i64, s: i64, t: i64) -> Ends
    ensures { result ≡ kept (between (floored (int_min (int_min (int_min p q) s) t)) (ceiled (int_max (int_max (int_max p q) s) t))) }
{
    to_grains(p.min(q).min(s).min(t), p.max(q).max(s).max(t))
}

// Two numbers of 2^-48, in grains: the first rounded down and the second rounded up.
fn to_grains(low: i64, high: i64) -> Ends
    ensures { result ≡ kept (between (floored low) (ceiled high)) }
{
    Ends {
        low: floor_grains(low),
        high: ceil_grains(high),
    }
}

// The two ends of a sum or a difference, if they are small enough. Two numbers, since they may be no ends of a value.
#[tactic(auto, unfolding(crate::specs::Ends::settled))]
fn settle(low: i64, high: i64) -> Result<Ends, Refusal>
    ensures { result ≡ settled (between low high) }
{
    check_sum(size_of(low, high))?;
    Ok(Ends { low, high })
}

// What all arithmetics share, limits and refusals, is in `arithmetic`; these calls, `meant` and `settle` work on fields of their own.
impl Arithmetic for Ends {
    ghost ops = { ends_ops };

    ghost rules = { ends_rules };

    #[tactic(auto, unfolding(arithmetic::specs::Operations::making))]
    fn make(low: i64, high: i64) -> Result<Ends, Refusal> {
        check_making(low, high)?;
        Ok(Ends { low, high })
    }

    fn sum(self, other: Ends) -> Result<Ends, Refusal> {
        let (a, b) = (self.meant(), other.meant());
        settle(a.low + b.low, a.high + b.high)
    }

    fn difference(self, other: Ends) -> Result<Ends, Refusal> {
        let (a, b) = (self.meant(), other.meant());
        settle(a.low - b.high, a.high - b.low)
    }

    fn product(self, other: Ends) -> Result<Ends, Refusal> {
        let (a, b) = (self.meant(), other.meant());
        check_product(size_of(a.low, a.high), size_of(b.low, b.high))?;
        Ok(a.outward(b))
    }

    fn low(self) -> i64 {
        self.meant().low
    }

    fn high(self) -> i64 {
        self.meant().high
    }

    fn size(self) -> u64 {
        let meant = self.meant();
        size_of(meant.low, meant.high)
    }
}
