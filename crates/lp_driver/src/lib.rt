//! The driver over any definition of a parser, and the stack machine.
#![tactic(auto)]

pub mod answers;
pub mod definition;
mod driver;

pub use answers::{Expecting, RunError, Simulated, Stop};
pub use definition::Definition;
pub use driver::drive;
pub use lp_repr::values::{
    Event, Loc, Outcome, ParseError, Recovery, RunItem, RunParseError, Term, TokenValue, UserError,
};
