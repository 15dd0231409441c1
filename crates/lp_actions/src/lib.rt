//! The functions of the actions of a grammar.
#![tactic(auto)]

mod body;
mod calls;
mod functions;
mod parameters;
mod spans;
mod symbols;

pub use functions::action_functions;
