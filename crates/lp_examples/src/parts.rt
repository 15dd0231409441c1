//! The calls over one start.
//!
//! - `uses`, `parser`, `source`, `end`: the calls of a code generator of these lines, under the action module
//!   that `module=PATH` names, else `super`; `repeatable` says that the tokens are;
//! - `module`: a module whose body is where the tokens come from; `refused`: one whose body is refused;
//! - `phantom`: the type and the expression of phantom data;
//! - `machine`: the parameters of the machine, a line each: type parameters, fields and clauses;
//! - `filter NAME..`: what is filtered by the types of these parameters: type parameters and clauses;
//! - `type N M`: the type of so many states and productions;
//! - `successors N`: the states that follow state N.

ghost use Rattle.std.specs.Prelude.{◌≡◌};
ghost use Rattle.lp_codegen.specs.Printing.{start_number};

use crate::cases::number;
use crate::changes::{Example, first_states};
use crate::writers::{has, value};
use lp_assembly::fits::first_unfit;
use lp_codegen::{CodeGenerator, ascent, parse_table};
use lp_parts::{MachineParameters, filter_type_parameters_and_where_clauses, state_type};
use lp_repr::Lr1State;
use lp_repr::repr::{Grammar, NonterminalString, TypeRepr};
use lp_state_parts::successors;
use lp_write::{MemorySink, RustWrite, WriteError};
use std::alloc::{AllocError, Global};
use std::fmt::Display;

/// A public name and its nonterminal.
pub type Start<'g> = (&'g NonterminalString, &'g NonterminalString);

pub fn first_start(grammar: &Grammar) -> Option<Start<'_>> {
    grammar.start_nonterminals.iter().next()
}

/// Prints the module of a start.
pub fn print_module(
    alloc: Global,
    call: &str,
    example: &Example,
    start: Start<'_>,
    out: &mut RustWrite<MemorySink>,
) -> Result<(), WriteError> {
    let grammar = &example.grammar;
    let states = first_states(example);
    match first_unfit(states) {
        Some(_) => Ok(()),
        None if call == "table" => {
            parse_table::compile(alloc, grammar, start.0, start.1, states, "super", out)
        }
        None => match start_number(grammar, start.0, start.1) {
            Some(_) => ascent::compile(alloc, grammar, start.0, start.1, states, "super", out),
            None => Ok(()),
        },
    }
}

/// The number of the start of a public name and a nonterminal.
fn start_number(
    grammar: &Grammar,
    public_name: &NonterminalString,
    nonterminal: &NonterminalString,
) -> Option<usize>
    ensures { result ≡ start_number grammar.now public_name.now nonterminal.now }
{
    grammar.start_nonterminals.iter().position(|(name, start)| name == public_name
        && start == nonterminal)
}

/// Prints a part of the module of a start.
pub fn print_part<'x>(
    alloc: Global,
    call: &str,
    words: &'x str,
    example: &'x Example,
    start: Start<'x>,
    out: &'x mut RustWrite<MemorySink>,
) -> Result<(), WriteError> {
    match call {
        "machine" => print_machine(alloc, &example.grammar, out),
        "filter" => print_filtered(alloc, words, &example.grammar, out),
        "type" => print_type(words, out),
        "successors" => print_successors(alloc, words, example, out),
        _ => generate(alloc, call, words, example, start, out),
    }
}

/// What a code generator prints.
fn generate<'x>(
    alloc: Global,
    call: &str,
    words: &'x str,
    example: &'x Example,
    start: Start<'x>,
    out: &'x mut RustWrite<MemorySink>,
) -> Result<(), WriteError> {
    let module = value(words, "module=").unwrap_or("super");
    let repeatable = has(words, "repeatable");
    let grammar = &example.grammar;
    let states = first_states(example);
    let mut generator = CodeGenerator::new(
        alloc,
        grammar,
        start.0,
        start.1,
        states,
        out,
        repeatable,
        module,
        (),
    );
    match call {
        "uses" => generator.write_uses(),
        "parser" => generator.start_parser_fn(),
        "source" => generator.define_tokens(),
        "module" => generator.write_parse_mod(|inner| inner.define_tokens()),
        "refused" => generator.write_parse_mod(|_inner| Err(WriteError::Fault)),
        "phantom" => print_phantom(&mut generator),
        _ => {
            generator.end_parser_fn()?;
            Ok(())
        }
    }
}

fn print_phantom(generator: &mut CodeGenerator<'_, '_, MemorySink, ()>) -> Result<(), WriteError> {
    let ty = generator.phantom_data_type()?;
    let expression = generator.phantom_data_expr()?;
    generator.out.line(ty.as_str())?;
    generator.out.line(expression.as_str())?;
    Ok(())
}

fn print_machine(
    alloc: Global,
    grammar: &Grammar,
    out: &mut RustWrite<MemorySink>,
) -> Result<(), WriteError> {
    let machine = MachineParameters::new(alloc, grammar)?;
    print_each(alloc, machine.type_parameters.as_slice(), out)?;
    for field in machine.fields.as_slice() {
        let name = &field.name;
        let ty = &field.ty;
        out.line(format!(in alloc; "{name}: {ty}")?.as_str())?;
    }
    print_each(alloc, machine.where_clauses.as_slice(), out)
}

/// Prints what is filtered by the types of the parameters that the words name.
fn print_filtered(
    alloc: Global,
    words: &str,
    grammar: &Grammar,
    out: &mut RustWrite<MemorySink>,
) -> Result<(), WriteError> {
    let types = types_of(alloc, words, grammar)?;
    let (parameters, clauses) = filter_type_parameters_and_where_clauses(
        alloc,
        grammar,
        types.as_slice(),
    )?;
    print_each(alloc, parameters.as_slice(), out)?;
    print_each(alloc, clauses.as_slice(), out)
}

fn types_of(alloc: Global, words: &str, grammar: &Grammar) -> Result<Vec<TypeRepr>, AllocError> {
    let mut types = Vec::new(alloc);
    for parameter in grammar.parameters.as_slice() {
        if has(words, parameter.name.as_str()) {
            types.push(parameter.ty.clone()?)?;
        }
    }
    Ok(types)
}

fn print_type(words: &str, out: &mut RustWrite<MemorySink>) -> Result<(), WriteError> {
    let (states, productions) = words.split_once(' ').unwrap_or((words, ""));
    out.line(state_type(number(states), number(productions)))?;
    Ok(())
}

fn print_successors(
    alloc: Global,
    words: &str,
    example: &Example,
    out: &mut RustWrite<MemorySink>,
) -> Result<(), WriteError> {
    match first_states(example).get(number(words)) {
        Some(state) => print_each(alloc, successors(alloc, state)?.as_slice(), out),
        None => Ok(()),
    }
}

/// Prints a line for each value.
fn print_each<T: Display>(
    alloc: Global,
    values: &[T],
    out: &mut RustWrite<MemorySink>,
) -> Result<(), WriteError> {
    for value in values {
        out.line(value.to_string(alloc)?.as_str())?;
    }
    Ok(())
}
