// The examination of an offer, in any arithmetic.
#![tactic(auto)]

mod refusal;
mod verdict;

pub use refusal::Refusal;
pub use verdict::Verdict;
