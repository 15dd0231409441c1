//! Printing a program from the templates of its parts.

pub(crate) mod own;
mod table;
mod walk;

pub use walk::{print_node, print_program};
