//! From a grammar file to a grammar and its canonical LR(1) states.
#![tactic(auto)]

mod file;
mod input;
mod source;

pub use file::{Front, FrontFault};
pub use input::{LIMIT, ReadError, read_all};
pub use lp_lines::{Block, LineFault, TokenLine, append_block, cut_file, read_token_lines};
pub use lp_lower::{LowerFault, lower};
pub use lp_reading::{
    BytesFault, ParseError, PlainError, Span, Top, parse_grammar, parse_top, place_of, plain_of,
    report_parse_error,
};
pub use lp_starts::{TablesFault, build_states, tables_of};
pub use lp_states::BuildFault;
pub use lp_syntax::{
    PlainAlternative, PlainGrammar, PlainKind, PlainRule, PlainSymbol, PlainTerminal,
};
pub use source::{front, lowered_of};
