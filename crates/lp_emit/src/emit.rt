//! The emission of a whole text.

ghost use Rattle.std.specs.Prelude.{◌≡◌, ℕ, List, OnOk, IfOk, IfErr, MatchResult, string_bytes};
ghost use Rattle.lp_emit.specs.Causes.{AfterRefusal, MayBeEmitted, Refuses, RefusesToWrite};
ghost use Rattle.lp_emit.specs.Texts.{IsEmission};
ghost use Rattle.lp_emit.specs.declared.errors.EmitError.TheVariants.{Memory};
ghost use Rattle.lp_reading_laws.specs.Printing.Laws.{text_of};
ghost use Rattle.lp_write.specs.Sinks.{Took};

use crate::checks::{check, check_fit};
use crate::counted::{see_counted, see_states};
use crate::errors::EmitError;
use crate::growing::GrowingSink;
use lp_assembly::build_program;
use lp_program::print_program;
use lp_repr::StartStates;
use lp_repr::repr::Grammar;
use lp_tree::Program;
use lp_write::sinks::write_all;
use lp_write::{Failed, Options, RustWrite, Sink, WriteError};
use std::alloc::Global;

/// Appends the text of the parsers of a grammar and its states, one list per start. The text is
/// made whole in memory before the first byte is written. It reads as the program that is
/// built of them: that each text in the program may stand where it does is looked at before it is
/// printed.
pub fn emit_parsers<K: Sink>(
    alloc: Global,
    grammar: &Grammar,
    states: &[StartStates],
    options: &Options,
    sink: &mut K,
) -> Result<(), EmitError>
    // The text of the program that is built is appended whole, and reads as that program. Then none of the causes holds.
    ensures whole { OnOk result ((text : List ℕ) × IsEmission grammar.now states.now options.now text × Took (K.told sink.old) (K.told sink.new) text) }
    ensures passes { OnOk result (MayBeEmitted grammar.now states.now) }

    // A refusal tells its cause. A part of the text is appended at a write fault, and else nothing.
    ensures cause { IfErr result (RefusesToWrite grammar.now states.now) }
    ensures sink { IfErr result (AfterRefusal grammar.now states.now options.now (K.told sink.old) (K.told sink.new)) }
{
    let text = emitted_text(alloc, grammar, states, options)?;
    match write_all(sink, text.as_str().as_bytes()) {
        Ok(()) => Ok(()),
        Err(Failed) => Err(EmitError::WriteFault),
    }
}

/// The text of the parsers of a grammar and its states, after all checks.
pub fn emitted_text(
    alloc: Global,
    grammar: &Grammar,
    states: &[StartStates],
    options: &Options,
) -> Result<String, EmitError>
    ensures cause { MatchResult result (λ _. MayBeEmitted grammar.now states.now) (Refuses grammar.now states.now) }
    ensures text { IfOk result (λ text. IsEmission grammar.now states.now options.now (string_bytes text)) }
{
    check(alloc, grammar, states)?;
    see_counted(alloc, grammar)?;
    see_states(states);
    let program = build_program(alloc, grammar, states, options.comments)?;
    check_fit(alloc, grammar, &program)?;
    printed(alloc, &program, *options)
}

/// The text of a program, made in memory that grows.
fn printed(alloc: Global, program: &Program<'_>, options: Options) -> Result<String, EmitError>
    ensures memory { IfErr result (λ error. error ≡ Memory) }
    ensures text { IfOk result (λ text. string_bytes text ≡ text_of options program.now) }
{
    let bytes = written(alloc, program, options)?;
    String::from_utf8(bytes).map_err(|_| EmitError::Memory)
}

/// The bytes of the text of a program.
fn written(alloc: Global, program: &Program<'_>, options: Options) -> Result<Vec<u8>, EmitError>
    ensures memory { IfErr result (λ error. error ≡ Memory) }
    ensures bytes { IfOk result (λ bytes. bytes.items ≡ text_of options program.now) }
{
    let mut text = RustWrite::new(GrowingSink::new(alloc), options);
    print_program(alloc, program, &mut text).map_err(as_memory)?;
    Ok(text.into_inner().into_bytes())
}

/// A sink in memory fails for want of it.
fn as_memory(_error: WriteError) -> EmitError
    ensures { result ≡ Memory }
{
    EmitError::Memory
}
