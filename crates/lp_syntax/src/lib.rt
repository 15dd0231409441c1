//! What a grammar file says, as the types that its reading gives and its lowering takes.
#![tactic(auto)]

mod plain;

pub use plain::{PlainAlternative, PlainGrammar, PlainKind, PlainRule, PlainSymbol, PlainTerminal};
