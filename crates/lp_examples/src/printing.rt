//! The calls that print, by their first word.
//!
//! - `table`, `ascent`: the module of the first start, by tables and by recursive ascent;
//! - `tokens`: the module of tokens; `actions`: the functions of actions;
//! - `program`: the program that is built, whose states aren't checked;
//! - the calls of `parts`.

use crate::changes::Example;
use crate::parts::{first_start, print_module, print_part};
use crate::writers::{Answer, answer_by, options_of, sink_of};
use lp_assembly::fits::all_fit;
use lp_codegen::{emit_action_code, intern_token};
use lp_emit::build_program;
use lp_program::print_program;
use lp_write::{MemorySink, RustWrite, WriteError};
use std::alloc::{AllocError, Global};

/// How a call ends, and what it prints.
pub fn printed(alloc: Global, words: &str, example: &Example) -> Result<Answer, AllocError> {
    let mut out = RustWrite::new(sink_of(alloc, words)?, options_of(words));
    let end = match print_call(alloc, words, example, &mut out) {
        Ok(()) => String::from_str(alloc, "ok")?,
        Err(error) => error.to_string(alloc)?,
    };
    answer_by(alloc, end.as_str(), out.into_inner())
}

/// Prints what the call says.
fn print_call(
    alloc: Global,
    words: &str,
    example: &Example,
    out: &mut RustWrite<MemorySink>,
) -> Result<(), WriteError> {
    let (call, rest) = words.split_once(' ').unwrap_or((words, ""));
    let grammar = &example.grammar;
    match call {
        "actions" => emit_action_code(alloc, grammar, out),
        "program" => {
            let tables = example.tables.as_slice();
            if !all_fit(tables) {
                return Ok(());
            }
            let program = build_program(alloc, grammar, tables, out.options().comments)?;
            print_program(alloc, &program, out)
        }
        "tokens" => match &grammar.intern_token {
            Some(tokens) => intern_token::compile(alloc, grammar, tokens, out),
            None => Ok(()),
        },
        _ => match first_start(grammar) {
            Some(start) if call == "table" || call == "ascent" => {
                print_module(alloc, call, example, start, out)
            }
            Some(start) => print_part(alloc, call, rest, example, start, out),
            None => Ok(()),
        },
    }
}
