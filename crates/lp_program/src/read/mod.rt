//! Reading a program from its text.

mod growing;
mod prefix;
mod reader;
mod taking;
mod told;

pub use reader::{Parameters, ReadFault, read_program};
