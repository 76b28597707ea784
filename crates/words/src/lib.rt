// What an order sheet is written in: lines, words, tokens and numbers.
#![tactic(auto)]

mod bytes;
pub mod numbers;
pub mod split;
pub mod tokens;
