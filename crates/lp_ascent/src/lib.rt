//! The tree of a recursive ascent module.
#![tactic(auto)]

pub mod answers;
pub mod ascent_module;
pub mod back_end;
mod calls;
mod forms;
mod gotos;
mod headers;
mod reductions;
mod shifts;
pub mod slots;
pub mod state;
pub mod states;

pub use ascent_module::{ascent_module_of, build_ascent_module};
pub use back_end::AscentBackEnd;
