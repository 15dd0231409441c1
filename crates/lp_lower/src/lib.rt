//! Plain grammars, and the lowered grammars that they stand for.
#![tactic(auto)]

mod actions;
mod combine;
mod copies;
mod expand;
mod extents;
mod frame;
mod lists;
mod lowering;
mod names;
mod productions;
mod refusals;
mod symbols;
mod tables;
mod types;

pub use lowering::{LowerFault, lower};
pub use lp_syntax::{
    PlainAlternative, PlainGrammar, PlainKind, PlainRule, PlainSymbol, PlainTerminal,
};
