//! The reader of grammar files: from a text to what it says, over the tokens of lp_tok.
#![tactic(auto)]

mod bytes;
mod prefix;
mod read_extern;
mod read_grammar;
mod read_head;
mod read_literal;
mod read_pattern;
mod read_rule;
mod read_symbol;
mod report;
mod top;

pub use bytes::{BytesFault, plain_of};
pub use lp_types::{ParseError, PlainError, Span, place_of};
pub use report::report_parse_error;
pub use top::{Top, parse_grammar, parse_top};
