//! The header of a state's function.

ghost use Rattle.std.specs.Prelude.{◌≡◌, ◌++◌, ◌∷◌, [], IfOk, OnOk, if◌then◌else◌};
ghost use Rattle.lp_table.specs.ReductionLines.{stack_parameter, state_list};
ghost use Rattle.lp_tree.specs.ProgramTree.{items};
ghost use Rattle.lp_ascent.specs.Slots.{layout_of};
ghost use Rattle.lp_ascent.specs.StateLines.{lookahead_if, lookahead_parameter, slot_parameter, slot_parameters, state_answer, state_header, state_parameters, tokens_generic, tokens_parameter};

use crate::slots::Slots;
use crate::states::States;
use lp_build::FunctionName;
use lp_repr::repr::Symbol;
use lp_table::headers::grammar_header;
use lp_table::machine::phantom_parameter;
use lp_table::pieces::{made, vec_of};
use lp_table::shared::{Shared, symbol_type};
use lp_tree::{Node, Piece};
use std::alloc::{AllocError, Global};

/// The header of the function of the state of a number.
pub fn state_header<'t>(
    alloc: Global,
    states: &States<'t>,
    number: usize,
    slots: Slots<'_>,
) -> Result<Node<'t>, AllocError>
    ensures { IfOk result (λ n. items n ≡ state_header states.now.shared.grammar.now states.now.shared.states.now number (layout_of slots.entry)) }
{
    let shared = &states.shared;
    let generics = vec![in alloc; tokens_generic(alloc, shared)?]?;
    let parameters = state_parameters(alloc, shared, slots)?;
    let result = state_answer(alloc, states)?;
    let name = FunctionName::State(number as u64);
    grammar_header(alloc, shared.grammar, name, generics, parameters, result)
}

/// The further type parameter.
#[tactic(auto, unfolding(crate::specs::StateLines::tokens_generic))]
fn tokens_generic<'t>(alloc: Global, shared: &Shared<'t>) -> Result<Piece<'t>, AllocError>
    ensures { IfOk result (λ p. p ≡ tokens_generic shared.now.grammar.now) }
{
    let prefix = shared.grammar.prefix.as_str();
    let triple = shared.types.triple.as_str();
    let error = shared.types.parse_error.as_str();
    Ok(made(format!(in alloc; "{prefix}TOKENS: Iterator<Item=Result<{triple},{error}>>")?))
}

/// What the function answers.
#[tactic(auto, unfolding(crate::specs::StateLines::state_answer))]
fn state_answer<'t>(alloc: Global, states: &States<'t>) -> Result<Piece<'t>, AllocError>
    ensures { IfOk result (λ p. p ≡ state_answer states.now.shared.grammar.now) }
{
    let prefix = states.shared.grammar.prefix.as_str();
    let triple = states.shared.types.triple.as_str();
    let error = states.shared.types.parse_error.as_str();
    let answers = states.answer_texts.parameters.as_str();
    Ok(made(format!(in alloc;
        "Result<(Option<{triple}>, {prefix}Nonterminal<{answers}>), {error}>"
    )?))
}

/// The parameters besides those of the grammar: tokens, the stack of states, the lookahead, the slots.
fn state_parameters<'t>(
    alloc: Global,
    shared: &Shared<'t>,
    slots: Slots<'_>,
) -> Result<Vec<Piece<'t>>, AllocError>
    ensures { IfOk result (λ v. v.items ≡ state_parameters shared.now.grammar.now shared.now.states.now (layout_of slots.entry)) }
{
    let tokens = tokens_parameter(alloc, shared)?;
    let stack = stack_parameter(alloc, shared)?;
    let mut parameters = vec![in alloc; tokens, stack]?;
    add_lookahead(alloc, &mut parameters, shared, slots)?;
    add_slots(
        alloc,
        &mut parameters,
        shared,
        slots.optional(),
        slots.symbols,
    )?;
    parameters.push(phantom_parameter(alloc, shared)?)?;
    Ok(parameters)
}

/// The tokens as a parameter.
#[tactic(auto, unfolding(crate::specs::StateLines::tokens_parameter))]
fn tokens_parameter<'t>(alloc: Global, shared: &Shared<'t>) -> Result<Piece<'t>, AllocError>
    ensures { IfOk result (λ p. p ≡ tokens_parameter shared.now.grammar.now) }
{
    let prefix = shared.grammar.prefix.as_str();
    Ok(made(format!(in alloc; "{prefix}tokens: &mut {prefix}TOKENS")?))
}

/// The stack of states as a parameter.
fn stack_parameter<'t>(alloc: Global, shared: &Shared<'t>) -> Result<Piece<'t>, AllocError>
    ensures { IfOk result (λ p. p ≡ stack_parameter shared.now.grammar.now shared.now.states.now) }
{
    let prefix = shared.grammar.prefix.as_str();
    let ty = shared.state_name();
    let states = vec_of(alloc, ty)?;
    let list = states.as_str();
    state_list(alloc, prefix, list)
}

/// A list of states as a parameter.
#[tactic(auto, unfolding(lp_table::specs::ReductionLines::state_list))]
fn state_list<'t>(alloc: Global, prefix: &str, list: &str) -> Result<Piece<'t>, AllocError>
    ensures { IfOk result (λ p. p ≡ state_list prefix.now list.now) }
{
    Ok(made(format!(in alloc; "{prefix}states: &mut {list}")?))
}

/// The lookahead as a parameter.
#[tactic(auto, unfolding(crate::specs::StateLines::lookahead_parameter))]
fn lookahead_parameter<'t>(alloc: Global, shared: &Shared<'t>) -> Result<Piece<'t>, AllocError>
    ensures { IfOk result (λ p. p ≡ lookahead_parameter shared.now.grammar.now) }
{
    let prefix = shared.grammar.prefix.as_str();
    let triple = shared.types.triple.as_str();
    Ok(made(format!(in alloc; "{prefix}lookahead: Option<{triple}>")?))
}

/// Adds the lookahead, where the function is handed it.
fn add_lookahead<'t>(
    alloc: Global,
    parameters: &mut Vec<Piece<'t>>,
    shared: &Shared<'t>,
    slots: Slots<'_>,
) -> Result<(), AllocError>
    ensures { OnOk result (parameters.new.items ≡ parameters.old.items ++ lookahead_if shared.now.grammar.now (layout_of slots.entry)) }
{
    if slots.has_lookahead() {
        parameters.push(lookahead_parameter(alloc, shared)?)?;
    }
    Ok(())
}

/// Adds the slots of these symbols, of which so many are optional.
fn add_slots<'t>(
    alloc: Global,
    parameters: &mut Vec<Piece<'t>>,
    shared: &Shared<'t>,
    optional: usize,
    symbols: &[Symbol],
) -> Result<(), AllocError>
    ensures { OnOk result (parameters.new.items ≡ parameters.old.items ++ slot_parameters shared.now.grammar.now optional 0 symbols.now) }
{
    for (slot, symbol) in symbols.iter().enumerate() {
        parameters.push(slot_parameter(alloc, shared, optional, slot, symbol)?)?;
    }
    Ok(())
}

/// The slot of a symbol, which is optional where it is one of so many.
fn slot_parameter<'t>(
    alloc: Global,
    shared: &Shared<'t>,
    optional: usize,
    slot: usize,
    symbol: &Symbol,
) -> Result<Piece<'t>, AllocError>
    ensures { IfOk result (λ p. p ≡ slot_parameter shared.now.grammar.now optional slot symbol.now) }
{
    let prefix = shared.grammar.prefix.as_str();
    let ty = shared
        .types
        .spanned(alloc, symbol_type(shared.grammar, symbol))?;
    if slot < optional {
        Ok(made(format!(in alloc; "{prefix}sym{slot}: &mut Option<{ty}>")?))
    } else {
        Ok(made(format!(in alloc; "{prefix}sym{slot}: {ty}")?))
    }
}
