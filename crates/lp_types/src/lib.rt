//! The reader of a grammar file's tokens, and what it reads of types.
#![tactic(auto)]

mod error;
mod read_bound;
mod read_clause;
mod read_name;
mod read_type;
mod reader;
mod texts;
mod tokens;

pub use error::{ParseError, PlainError, Span, place_of};
pub use reader::{MOST_DEPTH, Read, Reader};
pub use texts::Kind;
pub use tokens::Tokens;
