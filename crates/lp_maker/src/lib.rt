//! What a program is entered with: the names of a function body and their slots, printed texts, and the
//! code that was made so far.
#![tactic(auto)]

pub mod forms;
pub mod maker;
pub mod methods;
pub mod patterns;
pub mod scope;
pub mod texts;
