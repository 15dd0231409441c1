//! Each beginning that a reader sees can be completed: reading, with all that a refusal tells.
#![tactic(auto)]

pub mod read;

pub use read::read_program;
