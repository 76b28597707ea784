// Sessions: the lines of an input, each carried out on a book and answered.
#![tactic(auto)]

pub mod attend;
pub mod lines;
pub mod serve;
