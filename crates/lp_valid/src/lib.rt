//! The check of grammars.
#![tactic(auto)]

mod actions;
mod apart;
mod circles;
mod declared;
mod grammars;
mod names;
mod prefixes;
mod repeats;
mod spelling;
mod starts;
mod terminals;

pub use grammars::{GrammarFault, check_grammar};
pub use names::is_identifier;
