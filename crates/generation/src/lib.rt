// The first half of a round over lent memory: a table is generated from the redraws, or from the present entries and their joins,
// a row for each junior sheet, so that it comes out in order.
#![tactic(auto)]

mod generating;
mod relaxing;
mod rows;
mod source;
mod ways;

pub use generating::generate;
pub use source::Source;
