//! Where texts are refused, and why.

use lp_plain::{
    BytesFault, LowerFault, ParseError, PlainError, PlainGrammar, Span, lower, lowered_of,
    parse_grammar, report_parse_error,
};
use std::alloc::{AllocError, Global};

/// That a text is lowered, or the place of its refusal and the cause.
pub fn told_refusal(alloc: Global, text: &str) -> Result<String, AllocError> {
    match lowered_of(alloc, text.as_bytes()).err() {
        None => String::from_str(alloc, "lowered"),
        Some(fault) => shown_refusal(alloc, text, fault),
    }
}

fn shown_refusal(alloc: Global, text: &str, fault: BytesFault) -> Result<String, AllocError> {
    match fault {
        BytesFault::Grammar { place } => shown_cause(alloc, text, place),
        BytesFault::Memory => Err(AllocError),
    }
}

fn shown_cause(alloc: Global, text: &str, place: usize) -> Result<String, AllocError> {
    let cause = cause(alloc, text)?;
    format!(in alloc; "refused at {place}, {cause}")
}

/// Why a text is not read, or why what is read is not lowered.
fn cause(alloc: Global, text: &str) -> Result<String, AllocError> {
    match parse_grammar(alloc, text) {
        Ok(plain) => lower_cause(alloc, plain),
        Err(error) => read_cause(alloc, text, error),
    }
}

fn read_cause(alloc: Global, text: &str, error: PlainError<'_>) -> Result<String, AllocError> {
    match error {
        PlainError::Parse(error) => reported(alloc, text, error),
        PlainError::Memory => Err(AllocError),
    }
}

/// The message of an error of reading, and its span.
pub fn reported(alloc: Global, text: &str, error: ParseError<'_>) -> Result<String, AllocError> {
    report_parse_error(alloc, text, error, |_text, span, message| {
        let Span(from, to) = span;
        format!(in alloc; "{message} ({from} to {to})")
    })?
}

/// Why a grammar is not lowered, and where.
fn lower_cause(alloc: Global, plain: PlainGrammar) -> Result<String, AllocError> {
    let fault = lower(alloc, &plain).err();
    shown_fault(alloc, fault)
}

fn shown_fault(alloc: Global, fault: Option<LowerFault>) -> Result<String, AllocError> {
    match fault {
        None => String::from_str(alloc, "lowered"),
        Some(LowerFault::UnknownName { place }) => shown(alloc, "unknown name", place),
        Some(LowerFault::InlineOrder { place }) => shown(alloc, "inline order", place),
        Some(LowerFault::Duplicate { place }) => shown(alloc, "duplicate", place),
        Some(LowerFault::TooManyProductions { place }) => {
            shown(alloc, "too many productions", place)
        }
        Some(LowerFault::Memory) => Err(AllocError),
    }
}

fn shown(alloc: Global, cause: &str, place: usize) -> Result<String, AllocError> {
    format!(in alloc; "{cause} ({place})")
}
