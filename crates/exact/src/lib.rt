// The exact theory: what an offer proves of a least squares fit. The functions carry the theorems in their contracts and do nothing.
#![tactic(auto)]

ghost use Rattle.exact.specs.Theorems.{Rank, Bound, Enclosed, LeastSquares};

// A largest row sum below one shows full column rank.
pub fn full_rank()
    ensures { Rank }
{}

// How far each solution lies from the offered one.
pub fn distance_bound()
    ensures { Bound }
{}

// The interval of each column, from bounds in whole grains, holds every solution.
pub fn enclosure()
    ensures { Enclosed }
{}

// The solutions of the normal equations are the least squares solutions.
pub fn least_squares()
    ensures { LeastSquares }
{}
