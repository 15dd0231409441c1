//! What the tool answers, told to a person who writes grammars.
#![tactic(auto)]

mod conflicts;
mod expected;
mod foreign;
mod hints;
mod items;
mod lines;
mod lowering;
mod marks;
mod page;
mod reading;
mod refusals;
mod status;
mod table;

pub use foreign::warnings;
pub use status::{exit_code, message};
