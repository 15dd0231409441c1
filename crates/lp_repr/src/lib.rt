//! The lowered grammar, its LR(1) states, and the values of a parse.
#![tactic(auto)]

pub mod consts;
mod copies;
pub mod escaped;
mod free_variables;
mod joined;
pub mod lr1;
mod matching;
mod normal;
pub mod numbering;
pub mod parse_tree;
pub mod repr;
pub mod text;
mod type_order;
pub mod values;

pub use escaped::Escaped;
pub use free_variables::FreeVariables;
pub use joined::Shown;
pub use lr1::{Item, Lr1State, ShownItem, ShownToken, StartStates, Token};
pub use matching::{matched_terminal, matches};
pub use normal::norm;
pub use text::{Items, Text};
pub use type_order::compare_types;
