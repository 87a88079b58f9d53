// The arithmetic that keeps the centre and the radius of an interval.
#![tactic(auto)]

ghost use Rattle.std.specs.Prelude.{◌≡◌, ◌+◌, ◌-◌, ◌*◌, ◌^◌, ◌≤◌, min, pos, unsigned_abs};
ghost use Rattle.arithmetic.specs.Rounding.{ceiled};
ghost use Rattle.centre.specs.Centre.{extent, meant, halved, spread, product, settled, centre_ops};
ghost use Rattle.centre.specs.Keeping.{centre_rules};

use arithmetic::{
    Arithmetic, LARGEST, ONE, Refusal, ceil_grains, check_making, check_product, check_sum,
};

// An interval by its centre and its radius, in grains. A record whose ends are no two ends of a value means 0 to 0.
#[derive(Clone, Copy, PartialEq, Eq, Debug)]
pub struct Centre {
    pub centre: i64,
    pub radius: u64,
}

impl Centre {
    // How far the record's ends lie from 0 at the most; the largest number where that is more.
    fn extent(self) -> u64
        ensures { result ≡ min (extent self) (2 ^ 64 - 1) }
    {
        self.centre.unsigned_abs().saturating_add(self.radius)
    }

    // The centre and the radius that the record means.
    fn meant(self) -> Centre
        ensures value { result ≡ meant self }
        ensures bound { extent result ≤ 2 ^ 45 }
    {
        if self.extent() <= LARGEST {
            self
        } else {
            Centre {
                centre: 0,
                radius: 0,
            }
        }
    }

    // How far a product can lie from that of the centres, in units of 2^-48.
    fn spread(self, other: Centre) -> u64
        requires { extent self * extent other ≤ 2 ^ 62 }
        ensures value { result ≡ spread self other }
        ensures bound { result ≤ 2 ^ 62 }
    {
        let (c, d) = (self.centre.unsigned_abs(), other.centre.unsigned_abs());
        c * other.radius + d * self.radius + self.radius * other.radius
    }

    // The product of two records that hold what they mean. Both steps ask what `check_product` grants;
    // a type for two records that were granted would be made and used once.
    fn times(self, other: Centre) -> Centre
        requires { extent self * extent other ≤ 2 ^ 62 }
        ensures { result ≡ product self other }
    {
        Centre {
            centre: self.centre * other.centre / ONE,
            radius: radius_of(self.spread(other)),
        }
    }
}

// The radius of a product, in grains.
fn radius_of(spread: u64) -> u64
    requires { spread ≤ 2 ^ 62 }
    ensures { result ≡ unsigned_abs (ceiled (pos spread)) + 1 }
{
    ceil_grains(spread as i64).unsigned_abs() + 1
}

// z / 2, rounded down.
fn half(z: i64) -> i64
    ensures { result ≡ halved z }
{
    z >> 1
}

// The centre and the radius of a sum or a difference, if it is small enough.
#[tactic(auto, unfolding(crate::specs::Centre::settled))]
fn settle(centre: i64, radius: u64) -> Result<Centre, Refusal>
    ensures { result ≡ settled centre radius }
{
    let value = Centre { centre, radius };
    check_sum(value.extent())?;
    Ok(value)
}

// What all arithmetics share, limits and refusals, is in `arithmetic`; these calls, `meant` and `settle` work on fields of their own.
impl Arithmetic for Centre {
    ghost ops = { centre_ops };

    ghost rules = { centre_rules };

    #[tactic(auto, unfolding(arithmetic::specs::Operations::making))]
    fn make(low: i64, high: i64) -> Result<Centre, Refusal> {
        check_making(low, high)?;
        let centre = half(low + high);
        let radius = high.abs_diff(centre);
        Ok(Centre { centre, radius })
    }

    fn sum(self, other: Centre) -> Result<Centre, Refusal> {
        let (a, b) = (self.meant(), other.meant());
        settle(a.centre + b.centre, a.radius + b.radius)
    }

    fn difference(self, other: Centre) -> Result<Centre, Refusal> {
        let (a, b) = (self.meant(), other.meant());
        settle(a.centre - b.centre, a.radius + b.radius)
    }

    fn product(self, other: Centre) -> Result<Centre, Refusal> {
        let (a, b) = (self.meant(), other.meant());
        check_product(self.size(), other.size())?;
        Ok(a.times(b))
    }

    fn low(self) -> i64 {
        let a = self.meant();
        a.centre - a.radius as i64
    }

    fn high(self) -> i64 {
        let a = self.meant();
        a.centre + a.radius as i64
    }

    fn size(self) -> u64 {
        self.meant().extent()
    }
}
