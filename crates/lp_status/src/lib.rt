//! How a call of the tool ends: its status, with its number and its line.
#![tactic(auto)]

mod status;

pub use status::{Status, status_line};
