//! Calls of user code, and what an action does.

use crate::terms::Symbol;
use lp_repr::text::{Items, Text};
use lp_repr::values::{Loc, RunParseError};

/// A call of user code.
#[derive(Drop)]
pub struct Call {
    /// Counted from 0.
    pub number: u64,
    pub code: Text,
    pub params: Items<Text>,
    pub args: Items<(Loc, Symbol, Loc)>,
    /// Where it stands, if it has no arguments.
    pub place: Option<(Loc, Loc)>,
}

/// The calls of an action, and how it ends.
#[derive(Drop)]
pub struct Acted {
    pub calls: Items<Call>,
    pub result: Result<Symbol, RunParseError>,
}
