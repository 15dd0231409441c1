//! The parts of modules that stand by themselves: table entries, the variants of
//! symbols, filters of type parameters, and the texts that forms share.
#![tactic(auto)]

pub mod comment;
pub mod entries;
pub mod filter;
pub mod machine_parameters;
mod named;
pub mod number_type;
pub mod phantom;
mod referents;
pub mod texts;
pub mod variants;

pub use comment::Comment;
pub use filter::filter_type_parameters_and_where_clauses;
pub use machine_parameters::MachineParameters;
pub use number_type::state_type;
