// Measures: what a redraw, the empty chain and none are worth, which of two values is better, and how two join.
#![tactic(auto)]

mod chain;
mod measure;
mod minutes;
mod weakest;

pub use chain::Chain;
pub use measure::{Measure, Strict};
pub use minutes::Minutes;
pub use weakest::Weakest;
