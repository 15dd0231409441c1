//! Reading the forms of a program, without memory.
#![tactic(auto)]

pub mod count;
mod joined;
mod part;
pub mod walk;

pub use count::{form_count, form_number, node_count};
pub use joined::{Joined, Patterns, parts_of, patterns_of};
pub use part::{PartRef, Parts};
pub use walk::{Below, FormRef, end_of, root};
