// Why a file, or an offer in it, is refused. A refusal's number is its discriminant.
ghost use Rattle.std.specs.Prelude.{◌≡◌};
ghost use Rattle.fitfile.specs.Refusals.{file_number, offer_number};

// Why a fit file is refused, in the order in which the tests are made.
#[derive(Clone, Copy, PartialEq, Eq, Debug)]
pub enum FileRefusal {
    WrongLength = 20,
    CountOutOfRange = 21,
    WrongLayout = 22,
}

// Why a single offer of a file is refused.
#[derive(Clone, Copy, PartialEq, Eq, Debug)]
pub enum OfferRefusal {
    UnknownKind = 23,
}

// The refusal's number.
impl From<FileRefusal> for u8 {
    ghost from_gives = { λ refusal number. number ≡ file_number refusal };

    fn from(refusal: FileRefusal) -> u8 {
        refusal as u8
    }
}

// The refusal's number.
impl From<OfferRefusal> for u8 {
    ghost from_gives = { λ refusal number. number ≡ offer_number refusal };

    fn from(refusal: OfferRefusal) -> u8 {
        refusal as u8
    }
}
