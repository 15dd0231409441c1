//! Whether the texts of a program tree may stand where they do, so that its printed text reads back
//! as it.
#![tactic(auto)]

mod bodies;
mod fills;
mod fitting;
mod notes;
mod parted;

pub use fitting::is_fitting;
