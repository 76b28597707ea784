//! The theory of building by rounds: why the table that rounds come to is the finished one. The definitions stand in the crate theory.
#![tactic(auto)]
