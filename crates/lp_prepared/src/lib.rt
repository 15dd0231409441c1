//! What a call of the tool writes, made whole before the first write, or why nothing is written.
#![tactic(auto)]

mod command;
mod file;
mod generated;
mod prepared;

pub use command::{Command, read_words};
pub use file::Stop;
pub use lp_text_run::{TextRunFault, run_text};
pub use prepared::{Prepared, prepare};
