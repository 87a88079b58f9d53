// The middle and the half width of an interval of whole numbers. Its ends are two plain numbers here, as a line has them.
ghost use Rattle.std.specs.Prelude.{◌≡◌};
ghost use Rattle.printout.specs.Lines.{middle, half_width};

// Half the sum of the ends, rounded down.
#[tactic(auto, using(std::proofs::lemmas::Int::ints))]
pub(crate) fn middle_of(low: i64, high: i64) -> i64
    ensures { result ≡ middle low high }
{
    (i128::from(low) + i128::from(high)).div_euclid(2) as i64
}

// Half the difference of the ends, rounded toward zero.
#[tactic(auto, using(std::proofs::lemmas::Int::ints))]
pub(crate) fn half_width_of(low: i64, high: i64) -> i64
    ensures { result ≡ half_width low high }
{
    ((i128::from(high) - i128::from(low)) / 2) as i64
}
