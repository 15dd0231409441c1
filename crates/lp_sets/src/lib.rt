//! Sets of small numbers, and the first sets of a grammar by numbers.
#![tactic(auto)]

pub mod bits;
pub mod first;
pub mod tokens;
