//! Runs of calls: what every sequence of calls on a book leads to, and the promise over all of them. Definitions and theorems only.
#![tactic(auto)]
