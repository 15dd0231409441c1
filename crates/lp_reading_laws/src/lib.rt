//! Laws between the printing and the reading of programs, for all programs: what a printed line, part and
//! program is read as, and what a reader that looks ahead chooses; and printing, with what it leaves.
#![tactic(auto)]

pub mod laws;
mod print;

pub use print::print_program;
