//! The calls that print one module, or one part of it, to a writer.
#![tactic(auto)]

mod actions;
pub mod ascent;
mod calls;
pub mod generator;
mod header;
pub mod intern_token;
mod lines;
mod modules;
pub mod parse_table;
mod parsers;

pub use actions::emit_action_code;
pub use generator::CodeGenerator;
