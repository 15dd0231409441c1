//! The emission of all parsers, and the checks before it.

use crate::changes::{Example, first_states};
use crate::writers::{Answer, answer_by, options_of, sink_of};
use lp_emit::{EmitError, emit_parsers};
use lp_tables::{TableFault, check_tables};
use lp_texts::{TextFault, check_texts};
use std::alloc::{AllocError, Global};

/// What the emission answers, and what it writes.
pub fn emitted(alloc: Global, words: &str, example: &Example) -> Result<Answer, AllocError> {
    let mut sink = sink_of(alloc, words)?;
    let options = options_of(words);
    let tables = example.tables.as_slice();
    let end = match emit_parsers(alloc, &example.grammar, tables, &options, &mut sink) {
        Ok(()) => String::from_str(alloc, "ok")?,
        Err(error) => told(alloc, &error)?,
    };
    answer_by(alloc, end.as_str(), sink)
}

/// The text of all parsers.
pub fn text_of(alloc: Global, words: &str, example: &Example) -> Result<String, AllocError> {
    let mut sink = sink_of(alloc, "")?;
    let options = options_of(words);
    let tables = example.tables.as_slice();
    let _answer = emit_parsers(alloc, &example.grammar, tables, &options, &mut sink);
    Ok(answer_by(alloc, "", sink)?.output)
}

/// What is answered of the states of the first list, as those of a start.
pub fn checked_tables(
    alloc: Global,
    start: usize,
    example: &Example,
) -> Result<Answer, AllocError> {
    match check_tables(alloc, &example.grammar, start, first_states(example)) {
        Ok(()) => Answer::ended(alloc, "ok"),
        Err(TableFault::Rule { rule, state }) => {
            refused(alloc, &EmitError::BadTables { start, state, rule })
        }
        Err(TableFault::Memory) => Err(AllocError),
    }
}

/// What is answered of the texts of the grammar.
pub fn checked_texts(alloc: Global, example: &Example) -> Result<Answer, AllocError> {
    match check_texts(alloc, &example.grammar) {
        Ok(()) => Answer::ended(alloc, "ok"),
        Err(TextFault::Bad { place, byte }) => refused(alloc, &EmitError::BadText { place, byte }),
        Err(TextFault::Memory) => Err(AllocError),
    }
}

fn refused(alloc: Global, error: &EmitError) -> Result<Answer, AllocError> {
    let end = told(alloc, error)?;
    Answer::ended(alloc, end.as_str())
}

/// A refusal with what it tells.
fn told(alloc: Global, error: &EmitError) -> Result<String, AllocError> {
    match error {
        EmitError::BadGrammar { rule, place } => {
            format!(in alloc; "{error}, rule {rule}, place {place}")
        }
        EmitError::NameClash { first, second } => {
            format!(in alloc; "{error}, {first} and {second}")
        }
        EmitError::BadTables { start, state, rule } => {
            format!(in alloc; "{error}, start {start}, state {state}, rule {rule}")
        }
        EmitError::BadText { place, byte } => {
            let kind = place.kind;
            let number = place.number;
            format!(in alloc; "{error}, {kind:?} {number}, byte {byte}")
        }
        error => error.to_string(alloc),
    }
}
