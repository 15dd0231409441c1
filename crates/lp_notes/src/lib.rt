//! The notes of programs: where the rows of their tables end, and their comments. They are told by the parts.
#![tactic(auto)]

pub mod notes;
pub mod place;
pub mod rows;
pub mod source;

pub use notes::{noted_module, noted_program};
