// Why a line is not written. A refusal's number is its discriminant.
ghost use Rattle.std.specs.Prelude.{◌≡◌};
ghost use Rattle.printout.specs.Refusals.{number};

#[derive(Clone, Copy, PartialEq, Eq, Debug)]
pub enum Refusal {
    ShortBuffer = 17,
}

impl From<Refusal> for u8 {
    ghost from_gives = { λ e n. n ≡ number e };

    fn from(refusal: Refusal) -> u8 {
        refusal as u8
    }
}
