//! The causes for which nothing is emitted, and the emission of a whole text.
#![tactic(auto)]

pub mod checks;
pub mod clash;
mod counted;
pub mod emit;
pub mod errors;
mod growing;

pub use emit::{emit_parsers, emitted_text};
pub use errors::EmitError;
pub use lp_assembly::build_program;
