//! How the lines of a text are spelled: those that count, what stands in their holes and where the
//! holes end, and the entries of tables.
#![tactic(auto)]

pub mod cursor;
mod ends;
mod fill;
pub mod line;
pub mod rows;
pub mod spell;

pub use fill::{holds, may_fill};
