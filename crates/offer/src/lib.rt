// A fit and an offer as they are lent: their limits, the checks that an offer meets before it is examined, and its exact numbers.
#![tactic(auto)]

mod admitted;
mod checks;
mod exact_number;
mod fit;
mod numbers;
mod offer;
mod refusal;
mod row;
mod triangle;

pub use admitted::Admitted;
pub use exact_number::ExactNumber;
pub use fit::Fit;
pub use offer::Offer;
pub use refusal::EntryRefusal;
pub use row::Row;
