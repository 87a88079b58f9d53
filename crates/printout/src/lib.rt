// The lines of a printout.
//
// A line is ASCII text: words with one space between them and a line feed after the last. Its numbers are decimal, without leading zeros.
#![tactic(auto)]

mod interval;
mod line;
mod refusal;
mod words;

pub use line::Line;
pub use refusal::Refusal;
pub use words::LINE_ROOM;
