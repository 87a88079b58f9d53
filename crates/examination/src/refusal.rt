// Why an offer is refused.
ghost use Rattle.std.specs.Prelude.{◌≡◌};
ghost use Rattle.examination.specs.Refusals.{number};
ghost use Rattle.examination.specs.declared.refusal.Refusal.TheVariants.{Entry, Arithmetic};

use offer::EntryRefusal;

#[derive(Clone, Copy, PartialEq, Eq, Debug)]
pub enum Refusal {
    Entry(EntryRefusal),
    RowSum,
    Radius,
    Arithmetic(arithmetic::Refusal),
}

// The refusal's number: a match, since two variants hold refusals with numbers of their own.
impl From<Refusal> for u8 {
    ghost from_gives = { λ r n. n ≡ number r };

    fn from(refusal: Refusal) -> u8 {
        match refusal {
            Refusal::Entry(refusal) => u8::from(refusal),
            Refusal::RowSum => 10,
            Refusal::Radius => 11,
            Refusal::Arithmetic(refusal) => u8::from(refusal),
        }
    }
}

// Both `From` are written by hand, since a derived one cannot state what it gives.
impl From<EntryRefusal> for Refusal {
    ghost from_gives = { λ e r. r ≡ Entry e };

    fn from(refusal: EntryRefusal) -> Refusal {
        Refusal::Entry(refusal)
    }
}

impl From<arithmetic::Refusal> for Refusal {
    ghost from_gives = { λ e r. r ≡ Arithmetic e };

    fn from(refusal: arithmetic::Refusal) -> Refusal {
        Refusal::Arithmetic(refusal)
    }
}
