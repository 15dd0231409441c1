//! The rules on the texts of a grammar, without which they can't be printed.
#![tactic(auto)]

mod bars;
mod code;
mod counted;
mod faults;
mod grammar;
mod identifier;
mod line;
mod names;
mod pattern;
mod quotes;
mod rules;
mod types;

pub use bars::first_bar;
pub use faults::{TextFault, TextKind, TextPlace};
pub use grammar::check_texts;
pub use identifier::is_identifier;
pub use line::is_one_line;
