//! Program trees: their forms, their printing and their reading.
#![tactic(auto)]

pub mod print;
pub mod read;

pub use lp_build as build;
pub use lp_form::FormKind;
pub use lp_texts::{TextFault, TextKind, TextPlace, check_texts};
pub use lp_tree::{Name, Node, Piece, Program, RowNote, piece, tree};
pub use lp_view as view;
pub use lp_view::{FormRef, count, form_count, form_number, node_count};
pub use print::{print_node, print_program};
pub use read::{ReadFault, read_program};
