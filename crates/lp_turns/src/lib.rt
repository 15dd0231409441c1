//! A program as a parser's definition: the driver's questions are answered by calls of its methods.
#![tactic(auto)]

pub mod asked;
pub mod calls;
pub mod readings;
pub mod runner;
