//! Program trees: parts in the order of the text, with what their holes hold.
#![tactic(auto)]

pub mod piece;
pub mod tree;

pub use piece::{Name, Piece};
pub use tree::{Entry, Node, Program, Reduced, RowNote};
