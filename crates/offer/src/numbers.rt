// The exact numbers of an admitted offer. Indices count from 0; outside the fit and the offer every number is 0.
ghost use Rattle.std.specs.Prelude.{◌≡◌, ℕ, ◌^◌, ◌<◌, ◌≤◌, ℤ, pos, if◌then◌else◌, nat_lt, unsigned_abs};
ghost use Rattle.exact.specs.Sums.{∑};
ghost use Rattle.exact.specs.Fits.{image};
ghost use Rattle.exact.specs.Offers.{X̂, ρ̂x, ρ̂w, s};
ghost use Rattle.offer.specs.Lent.{fit_in, offer_in};

use crate::admitted::Admitted;
use crate::exact_number::ExactNumber;
use crate::triangle::Triangle;
use arithmetic::ONE;

// The sum of the first n terms. A loop, since `(0..n).map(term).sum()` leaves the bounds of a signed sum unproved.
fn total<F: Fn(usize) -> i64>(n: usize, term: F) -> i64
    requires few { n ≤ 64 }
    requires calls { (k : ℕ) → k < n → F.pre term k }
    requires small { (k : ℕ) (z : ℤ) → k < n → F.post term k z → unsigned_abs z ≤ 2 ^ 54 }
    ensures { (f : ℕ → ℤ) → ((k : ℕ) (z : ℤ) → k < n → F.post term k z → z ≡ f k) → result ≡ ∑ n f }
{
    let mut sum = 0;
    for k in 0..n {
        sum += term(k);
    }
    sum
}

impl Admitted<'_> {
    // S, as a triangle.
    fn upper(&self) -> Triangle<'_>
        ensures columns { result.columns ≡ self.now.fit.columns }
        ensures numbers { result.numbers.now ≡ self.now.offer.s.now }
    {
        Triangle {
            columns: self.fit.columns,
            numbers: self.offer.s,
        }
    }

    // S in row k and column j, in grains.
    pub fn triangle(&self, k: usize, j: usize) -> i64
        ensures value { result ≡ (offer_in self.now).S k j }
        ensures size { unsigned_abs result ≤ 2 ^ 30 }
    {
        self.upper().at(k, j)
    }

    // A S in row i and column j.
    pub fn image(&self, i: usize, j: usize) -> ExactNumber
        ensures { result.units ≡ X̂ (fit_in self.now) (offer_in self.now) i j }
    {
        // A `match`, for the reason that `residual` gives.
        let units = match self.fit.rows.get(i) {
            Some(row) if j < self.fit.columns => {
                total(j + 1, |k| row.entries[k] * self.triangle(k, j))
            }
            _ => 0,
        };
        ExactNumber { units }
    }

    // A x in row i, in units of 2^-48.
    fn product(&self, i: usize) -> i64
        requires { i < (fit_in self.now).rows }
        ensures value { result ≡ image (fit_in self.now) (offer_in self.now).x i }
        ensures size { unsigned_abs result ≤ 2 ^ 55 }
    {
        let row = &self.fit.rows[i];
        total(self.fit.columns, |j| row.entries[j] * self.offer.x[j])
    }

    // b - A x + w in row i.
    pub fn residual(&self, i: usize) -> ExactNumber
        ensures { result.units ≡ ρ̂x (fit_in self.now) (offer_in self.now) i }
    {
        // A `match`, since the search does not prove what the closure of a `map_or` asks of its caller.
        let units = match self.fit.rows.get(i) {
            Some(row) => ONE * row.figure - self.product(i) + ONE * self.offer.w[i],
            None => 0,
        };
        ExactNumber { units }
    }

    // The transpose of A, times w, in row k.
    pub fn normal_residual(&self, k: usize) -> ExactNumber
        ensures { result.units ≡ (if nat_lt k self.now.fit.columns then ρ̂w (fit_in self.now) (offer_in self.now) k else pos 0) }
    {
        let units = if k < self.fit.columns {
            total(
                self.fit.rows.len(),
                |i| self.fit.rows[i].entries[k] * self.offer.w[i],
            )
        } else {
            0
        };
        ExactNumber { units }
    }

    // The sum of the sizes in row j of S, in grains.
    pub fn row_size(&self, j: usize) -> u64
        ensures value { result ≡ s (fit_in self.now) (offer_in self.now) j }
        ensures size { result ≤ 2 ^ 33 }
    {
        (0..self.fit.columns)
            .map(|k| self.triangle(j, k).unsigned_abs())
            .sum()
    }
}
