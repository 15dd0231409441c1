//! The frame around the modules, and the program of a grammar and its states.
#![tactic(auto)]

pub mod fits;
pub mod intern_token;
pub mod program;
pub mod visibility;

pub use program::build_program;
