// The root builder over lent strips: a pruned search from a root, out along the redraws and in against them,
// gives the root's new entries; they are put into the table in order.
#![tactic(auto)]

mod builder;
mod collect;
mod gathering;
mod search;
mod ways;

pub use builder::grow;
