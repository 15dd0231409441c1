//! The calls of inlined actions, and the outer call.

ghost use Rattle.std.specs.Prelude.{◌≡◌, ◌+◌, ◌^◌, ◌<◌, ◌++◌, map, vec_len, IfOk, OnOk};
ghost use Rattle.std.specs.List.{flat_map, range_with_len};
ghost use Rattle.lp_build.specs.Actions.{call_lines, outer_lines};
ghost use Rattle.lp_table.specs.Headers.{names_of};
ghost use Rattle.lp_actions.specs.Inlines.{action_fails, argument, argument_behind, call_if, calls_from, inline_call, inlined_count, inner_arguments, outer_argument, outer_arguments, outer_call, outer_from, own_arguments, result_name, span_end_name, span_start_name, type_arguments};
ghost use Rattle.lp_actions.specs.Parameters.{width};

use crate::symbols::{behind, inlined_count};
use lp_build::{InlineCall, OuterCall};
use lp_parts::texts::generic_names;
use lp_repr::repr::{Grammar, InlinedSymbol};
use lp_table::pieces::{lent, made};
use lp_tree::Piece;
use std::alloc::{AllocError, Global};

/// The calls of the inlined actions.
pub fn calls<'t>(
    alloc: Global,
    grammar: &'t Grammar,
    symbols: &[InlinedSymbol],
) -> Result<Vec<InlineCall<'t>>, AllocError>
    ensures { IfOk result (λ v. flat_map call_lines v.items ≡ calls_from grammar.entry.now 0 0 symbols.now) }
{
    let mut calls = Vec::new(alloc);
    let mut before = 0usize;
    for symbol in symbols {
        let next = behind(before, symbol)?;
        push_call(alloc, &mut calls, grammar, before, symbol)?;
        before = next;
    }
    Ok(calls)
}

/// Adds the call of an inlined action.
fn push_call<'t>(
    alloc: Global,
    calls: &mut Vec<InlineCall<'t>>,
    grammar: &'t Grammar,
    before: usize,
    symbol: &InlinedSymbol,
) -> Result<(), AllocError>
    requires { before + width symbol.now < 2 ^ 64 }
    ensures rows { OnOk result (flat_map call_lines calls.new.items ≡ flat_map call_lines calls.old.items ++ call_if grammar.entry.now (vec_len calls.old) before symbol.now) }
    ensures count { OnOk result (vec_len calls.new ≡ vec_len calls.old + inlined_count symbol.now) }
{
    match symbol {
        InlinedSymbol::Original(_) => Ok(()),
        InlinedSymbol::Inlined(action, inner) => {
            let number = calls.len();
            let count = inner.as_slice().len();
            calls.push(inline_call(alloc, grammar, number, before, *action, count)?)?;
            Ok(())
        }
    }
}

/// The call of an inlined action.
fn inline_call<'t>(
    alloc: Global,
    grammar: &'t Grammar,
    number: usize,
    before: usize,
    action: usize,
    count: usize,
) -> Result<InlineCall<'t>, AllocError>
    requires { before + count < 2 ^ 64 }
    ensures { IfOk result (λ c. call_lines c ≡ inline_call grammar.entry.now number before action count) }
{
    let type_arguments = type_arguments(alloc, grammar)?;
    let arguments = inner_arguments(alloc, grammar, number, before, count)?;
    let fallible = action_fails(grammar, action);
    Ok(InlineCall {
        number: number as u64,
        action: action as u64,
        type_arguments,
        arguments,
        fallible,
    })
}

/// The action of a number is fallible.
fn action_fails(grammar: &Grammar, action: usize) -> bool
    ensures { result ≡ action_fails grammar.now action }
{
    match grammar.action_fn_defns.as_slice().get(action) {
        Some(action) => action.fallible,
        None => false,
    }
}

/// The type parameters that aren't lifetimes.
fn type_arguments<'t>(alloc: Global, grammar: &'t Grammar) -> Result<Vec<Piece<'t>>, AllocError>
    ensures { IfOk result (λ v. v.items ≡ type_arguments grammar.entry.now) }
{
    let mut pieces = Vec::new(alloc);
    for name in generic_names(alloc, grammar.type_parameters.as_slice())? {
        pieces.push(lent(name))?;
    }
    Ok(pieces)
}

/// The parameters of the grammar by name.
fn parameter_names<'t>(alloc: Global, grammar: &'t Grammar) -> Result<Vec<Piece<'t>>, AllocError>
    ensures { IfOk result (λ v. v.items ≡ names_of grammar.entry.now) }
{
    let parameters = grammar.parameters.as_slice();
    let mut pieces = Vec::new(alloc);
    for parameter in parameters {
        pieces.push(lent(parameter.name.as_str()))?;
    }
    Ok(pieces)
}

/// The arguments of an inlined action: the parameters, then its arguments, or its span.
fn inner_arguments<'t>(
    alloc: Global,
    grammar: &'t Grammar,
    number: usize,
    before: usize,
    count: usize,
) -> Result<Vec<Piece<'t>>, AllocError>
    requires { before + count < 2 ^ 64 }
    ensures { IfOk result (λ v. v.items ≡ inner_arguments grammar.entry.now number before count) }
{
    let mut pieces = parameter_names(alloc, grammar)?;
    let mut own = own_arguments(alloc, grammar.prefix.as_str(), number, before, count)?;
    pieces.append(&mut own)?;
    Ok(pieces)
}

/// The arguments of an inlined action besides the parameters.
fn own_arguments<'t>(
    alloc: Global,
    prefix: &str,
    number: usize,
    before: usize,
    count: usize,
) -> Result<Vec<Piece<'t>>, AllocError>
    requires { before + count < 2 ^ 64 }
    ensures { IfOk result (λ v. v.items ≡ own_arguments prefix.now number before count) }
{
    if count > 0 {
        return arguments(alloc, prefix, before, count);
    }
    let start = span_start_name(alloc, prefix, number)?;
    let end = span_end_name(alloc, prefix, number)?;
    Ok(vec![in alloc; start, end]?)
}

/// The start of a span by name.
fn span_start_name<'t>(alloc: Global, prefix: &str, number: usize) -> Result<Piece<'t>, AllocError>
    ensures { IfOk result (λ p. p ≡ span_start_name prefix.now number) }
{
    Ok(made(format!(in alloc; "&{prefix}start{number}")?))
}

/// The end of a span by name.
fn span_end_name<'t>(alloc: Global, prefix: &str, number: usize) -> Result<Piece<'t>, AllocError>
    ensures { IfOk result (λ p. p ≡ span_end_name prefix.now number) }
{
    Ok(made(format!(in alloc; "&{prefix}end{number}")?))
}

/// So many arguments after others.
#[tactic(auto, using(std::proofs::lemmas::Grind::common_steps, lp_table::proofs::Ranges::range_next))]
fn arguments<'t>(
    alloc: Global,
    prefix: &str,
    before: usize,
    count: usize,
) -> Result<Vec<Piece<'t>>, AllocError>
    requires { before + count < 2 ^ 64 }
    ensures { IfOk result (λ v. v.items ≡ map (argument_behind prefix.now before) (range_with_len 0 count)) }
{
    let mut pieces = Vec::new(alloc);
    for place in 0..count {
        pieces.push(argument(alloc, prefix, before + place)?)?;
    }
    Ok(pieces)
}

/// An argument by its number.
fn argument<'t>(alloc: Global, prefix: &str, number: usize) -> Result<Piece<'t>, AllocError>
    ensures { IfOk result (λ p. p ≡ argument prefix.now number) }
{
    Ok(made(format!(in alloc; "{prefix}{number}")?))
}

/// The outer call.
pub fn outer_call<'t>(
    alloc: Global,
    grammar: &'t Grammar,
    fallible: bool,
    outer: usize,
    symbols: &[InlinedSymbol],
) -> Result<OuterCall<'t>, AllocError>
    ensures { IfOk result (λ c. outer_lines c ≡ outer_call grammar.entry.now fallible outer symbols.now) }
{
    let type_arguments = type_arguments(alloc, grammar)?;
    let arguments = outer_arguments(alloc, grammar, symbols)?;
    let wrapped = fallible && !action_fails(grammar, outer);
    Ok(OuterCall {
        action: outer as u64,
        type_arguments,
        arguments,
        wrapped,
    })
}

/// The arguments of the outer action: the parameters, then per symbol its argument or the result of
/// its inlined action.
fn outer_arguments<'t>(
    alloc: Global,
    grammar: &'t Grammar,
    symbols: &[InlinedSymbol],
) -> Result<Vec<Piece<'t>>, AllocError>
    ensures { IfOk result (λ v. v.items ≡ outer_arguments grammar.entry.now symbols.now) }
{
    let mut pieces = parameter_names(alloc, grammar)?;
    add_outer(alloc, &mut pieces, grammar.prefix.as_str(), symbols)?;
    Ok(pieces)
}

/// Adds the arguments of the symbols.
fn add_outer<'t>(
    alloc: Global,
    pieces: &mut Vec<Piece<'t>>,
    prefix: &str,
    symbols: &[InlinedSymbol],
) -> Result<(), AllocError>
    ensures { OnOk result (pieces.new.items ≡ pieces.old.items ++ outer_from prefix.now 0 0 symbols.now) }
{
    let mut before = 0usize;
    let mut number = 0usize;
    for symbol in symbols {
        pieces.push(outer_argument(alloc, prefix, number, before, symbol)?)?;
        number += inlined_count(symbol);
        before = behind(before, symbol)?;
    }
    Ok(())
}

/// The argument of a symbol.
fn outer_argument<'t>(
    alloc: Global,
    prefix: &str,
    number: usize,
    before: usize,
    symbol: &InlinedSymbol,
) -> Result<Piece<'t>, AllocError>
    ensures { IfOk result (λ p. p ≡ outer_argument prefix.now number before symbol.now) }
{
    match symbol {
        InlinedSymbol::Original(_) => argument(alloc, prefix, before),
        InlinedSymbol::Inlined(_, _) => result_name(alloc, prefix, number),
    }
}

/// The result of an inlined action by name.
fn result_name<'t>(alloc: Global, prefix: &str, number: usize) -> Result<Piece<'t>, AllocError>
    ensures { IfOk result (λ p. p ≡ result_name prefix.now number) }
{
    Ok(made(format!(in alloc; "{prefix}temp{number}")?))
}
