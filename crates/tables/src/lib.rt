// Lookups in a table whose entries stand in order: by binary search, and by one walk over two sorted lists. And how its entries are written.
#![tactic(auto)]

mod entries;
mod keys;
mod lookups;

pub use entries::{blank_entry, entry_between, in_order, joined};
pub use keys::{first_at, key, list_of};
pub use lookups::{answer, best_over_seniors, find, walk};
