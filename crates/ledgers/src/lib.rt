// Books whose promises have no premise, under any lawful measure.
#![tactic(auto)]

mod calls;
mod kept_book;

pub use kept_book::{ChainBook, KeptBook, MinutesBook, WeakestBook};
