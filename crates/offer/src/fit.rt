// A fit, as it is lent.
ghost use Rattle.std.specs.Prelude.{◌≡◌, true};
ghost use Rattle.offer.specs.Limits.{fit_within};

use crate::row::Row;

// The rows and the count of columns, within their limits.
#[derive(Clone, Copy)]
pub struct Fit<'a> {
    pub rows: &'a [Row],
    pub columns: usize,
    ghost within: { fit_within rows.now columns ≡ true },
}
