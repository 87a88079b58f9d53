// An offer that has passed its entry checks, with its fit.
ghost use Rattle.std.specs.Prelude.{◌≡◌, true, is_ok};
ghost use Rattle.offer.specs.Entry.{admission};

use crate::fit::Fit;
use crate::offer::Offer;

#[derive(Clone, Copy)]
pub struct Admitted<'a> {
    pub fit: Fit<'a>,
    pub offer: Offer<'a>,
    ghost passed: { is_ok (admission fit offer) ≡ true },
}
