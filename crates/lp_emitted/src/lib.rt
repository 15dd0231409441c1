//! Laws between the building and the printing of programs, for all grammars and tables.
#![tactic(auto)]

pub mod laws;
