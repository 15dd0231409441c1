//! The tables of a grammar: the canonical states of each start, or why there are none.
#![tactic(auto)]

mod states;
mod tables;

pub use states::build_states;
pub use tables::{TablesFault, tables_of};
