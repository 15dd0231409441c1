//! The tool: from a grammar file to its parser text and the runs of that text.
#![tactic(auto)]

mod tool;

pub use lp_prepared::{Command, TextRunFault, read_words, run_text};
pub use lp_status::{Status, status_line};
pub use tool::{Report, run_tool};
