//! Canonical LR(1) states of a lowered grammar (Knuth 1965), with the first sets and closures of
//! Aho, Lam, Sethi, Ullman.
#![tactic(auto)]

mod asked;
mod builder;
mod closure;
mod names;
mod rules;
mod state;

pub use builder::{BuildFault, build_states};
