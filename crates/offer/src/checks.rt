// The checks that an offer meets before it is examined.
ghost use Rattle.std.specs.Prelude.{◌≡◌, length, IfOk};
ghost use Rattle.std.specs.Result.{result_map_both};
ghost use Rattle.offer.specs.Limits.{all_within, work_area};
ghost use Rattle.offer.specs.Entry.{offer_within, entry};

use crate::admitted::Admitted;
use crate::fit::Fit;
use crate::offer::Offer;
use crate::refusal::EntryRefusal;
use crate::triangle::Triangle;

// Whether no number has a size above the limit.
fn all_within(limit: u64, numbers: &[i64]) -> bool
    ensures { result ≡ all_within limit numbers.now }
{
    numbers.iter().all(|z| z.unsigned_abs() <= limit)
}

impl Fit<'_> {
    // How many values a work area needs for an examination.
    pub fn work_area(&self) -> usize
        ensures { result ≡ work_area (length self.now.rows.now) self.now.columns }
    {
        let (m, n) = (self.rows.len(), self.columns);
        m * n + n * n + m + 2 * n
    }
}

impl<'a> Offer<'a> {
    // Whether the numbers of S, x and w are within their limits.
    fn is_within(&self) -> bool
        ensures { result ≡ offer_within self.now }
    {
        all_within(1 << 30, self.s) && all_within(1 << 28, self.x) && all_within(1 << 25, self.w)
    }

    // The entry checks for a fit and a work area of so many values: the first that fails is the answer.
    pub fn admit(self, fit: Fit<'a>, room: usize) -> Result<Admitted<'a>, EntryRefusal>
        ensures answer { result_map_both (λ a. tt) (λ e. e) result ≡ entry fit.entry self.entry room }
        ensures same { IfOk result (λ a. (a.fit ≡ fit.entry) × (a.offer ≡ self.entry)) }
    {
        if room < fit.work_area() {
            return Err(EntryRefusal::ShortWorkArea);
        }
        if fit.rows.len() < fit.columns {
            return Err(EntryRefusal::FewRows);
        }
        let s = Triangle::new(fit.columns, self.s).ok_or(EntryRefusal::WrongLength)?;
        if self.x.len() != fit.columns || self.w.len() != fit.rows.len() {
            return Err(EntryRefusal::WrongLength);
        }
        if !self.is_within() {
            return Err(EntryRefusal::BeyondLimit);
        }
        if !s.has_whole_diagonal() {
            return Err(EntryRefusal::ZeroOnDiagonal);
        }
        Ok(Admitted { fit, offer: self })
    }
}
