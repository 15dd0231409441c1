//! The runs of a parser text, as blocks.
#![tactic(auto)]

mod text_run;

pub use text_run::{TextRunFault, run_text};
