//! The bodies of the functions that a table-driven parser has: action functions, the token source, tables,
//! reductions and the methods that a driver asks.
#![tactic(auto)]

pub mod action;
pub mod arms;
mod inlining;
pub mod lines;
pub mod methods;
pub mod reduce;
pub mod source;
pub mod table;
pub mod trial;
