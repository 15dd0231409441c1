//! What modules ask of LR(1) states: the parts before and after their dots, and their gotos as ranges.
#![tactic(auto)]

pub mod gotos;
mod state_parts;

pub use state_parts::{max_prefix, successors, will_pop, will_produce, will_push};
