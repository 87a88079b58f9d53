// Why an offer is refused before it is examined. A refusal's number is its discriminant.
ghost use Rattle.std.specs.Prelude.{◌≡◌};
ghost use Rattle.offer.specs.Refusals.{entry_number};

#[derive(Clone, Copy, PartialEq, Eq, Debug)]
pub enum EntryRefusal {
    ShortWorkArea = 12,
    FewRows = 6,
    WrongLength = 7,
    BeyondLimit = 8,
    ZeroOnDiagonal = 9,
}

impl From<EntryRefusal> for u8 {
    ghost from_gives = { λ e n. n ≡ entry_number e };

    fn from(refusal: EntryRefusal) -> u8 {
        refusal as u8
    }
}
