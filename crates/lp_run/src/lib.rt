//! The runner of program texts.
#![tactic(auto)]

mod enter;
mod functions;
pub mod laws;
mod named;
mod parse;
mod promised;
mod run;

pub use run::{Run, run_program};
