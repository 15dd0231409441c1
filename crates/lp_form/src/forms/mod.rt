//! The lines of each part.

pub mod action;
pub mod ascent;
pub mod ascent_reduce;
pub mod frame;
pub mod machine;
pub mod parser;
pub mod reduce;
pub mod table;
