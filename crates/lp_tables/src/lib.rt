//! The check of the tables of a grammar.
#![tactic(auto)]

mod check;
mod edges;
mod item_sets;
mod opened;
mod ranges;
mod reductions;
mod rules;
mod tables;

pub use check::{TableFault, check_tables};
