//! Laws of what is emitted, and read by a reader that looks ahead.
#![tactic(auto)]

pub mod back_ends;
pub mod laws;
