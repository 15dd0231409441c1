//! The forms of a table-driven module, and what the back ends share.
#![tactic(auto)]

pub mod back_end;
mod forms;
pub mod frame;
pub mod headers;
pub mod machine;
pub mod pieces;
pub mod reductions;
pub mod shared;
pub mod tables;
pub mod tokens;

pub use back_end::BackEnd;
pub use lp_parts::{
    Comment, MachineParameters, filter_type_parameters_and_where_clauses, state_type,
};
