//! The lists of a grammar lie in memory, so they are counted.

ghost use Rattle.std.specs.Prelude.{◌≡◌, ◌<◌, ◌^◌, All, IfOk, OnOk, length, map};
ghost use Rattle.std.specs.BTreeMap.{values};
ghost use Rattle.std.specs.List.{flat_map};
ghost use Rattle.std.specs.Map.Iter.{deref};
ghost use Rattle.lp_actions.specs.Parameters.{symbols_of};
ghost use Rattle.lp_back_end_laws.specs.Filled.InMemory.{AreStatesInMemory, HasOrderedGotos, IsActionInMemory, IsInMemory, IsProductionInMemory};
ghost use Rattle.lp_repr.specs.Numbering.{productions_of};
ghost use Rattle.lp_question_laws.specs.Tokens.Told.{AreFew};

use lp_repr::numbering::productions;
use lp_repr::repr::{
    ActionFnDefn, ActionFnDefnKind, Grammar, InlinedSymbol, Production, TokenPattern,
};
use lp_repr::{Lr1State, StartStates};
use std::alloc::{AllocError, Global};

/// More than memory has places for.
const TOO_MANY: usize = 9_223_372_036_854_775_808;

/// The maps of a grammar are in order, and its lists are no longer than memory. The error is want of
/// that.
pub(crate) fn see_counted(alloc: Global, grammar: &Grammar) -> Result<(), AllocError>
    ensures { OnOk result (IsInMemory grammar.now) }
{
    let _starts = grammar.start_nonterminals.len();
    let _nonterminals = grammar.nonterminals.len();
    see_few(grammar.terminals.all.as_slice().len())?;
    see_productions(alloc, grammar)?;
    see_actions(grammar.action_fn_defns.as_slice())?;
    see_patterns(alloc, grammar)
}

/// A count of a list in memory.
fn see_few(count: usize) -> Result<(), AllocError>
    ensures { OnOk result (count < 2 ^ 63) }
{
    if count < TOO_MANY {
        Ok(())
    } else {
        Err(AllocError)
    }
}

/// The symbols of each production are counted.
fn see_productions(alloc: Global, grammar: &Grammar) -> Result<(), AllocError>
    ensures { OnOk result (All IsProductionInMemory (productions_of grammar.now)) }
{
    let productions = productions(alloc, grammar)?;
    see_symbols(productions.as_slice());
    Ok(())
}

fn see_symbols(productions: &[&Production])
    ensures { All (λ p. IsProductionInMemory p.now) productions.now }
{
    for production in productions {
        let _count = production.symbols.as_slice().len();
    }
}

/// The symbols of each inlining action are counted, with those of the actions that it inlines.
fn see_actions(actions: &[ActionFnDefn]) -> Result<(), AllocError>
    ensures count { length actions.now < 2 ^ 64 }
    ensures kinds { OnOk result (All IsActionInMemory actions.now) }
{
    let _count = actions.len();
    for action in actions {
        see_kind(action)?;
    }
    Ok(())
}

fn see_kind(action: &ActionFnDefn) -> Result<(), AllocError>
    ensures { OnOk result (IsActionInMemory action.now) }
{
    match &action.kind {
        ActionFnDefnKind::Inline { symbols, .. } => see_inlined(symbols.as_slice()),
        ActionFnDefnKind::User { .. } => Ok(()),
        ActionFnDefnKind::Lookaround(_) => Ok(()),
    }
}

fn see_inlined(symbols: &[InlinedSymbol]) -> Result<(), AllocError>
    ensures count { length symbols.now < 2 ^ 64 }
    ensures flat { OnOk result (length (flat_map symbols_of symbols.now) < 2 ^ 64) }
{
    let _count = symbols.len();
    let mut all: usize = 0;
    for symbol in symbols {
        all = all.checked_add(width(symbol)).ok_or(AllocError)?;
    }
    Ok(())
}

/// How many symbols of the production an inlined symbol takes.
fn width(symbol: &InlinedSymbol) -> usize
    ensures { result ≡ length (symbols_of symbol.now) }
{
    match symbol {
        InlinedSymbol::Original(_) => 1,
        InlinedSymbol::Inlined(_, symbols) => symbols.as_slice().len(),
    }
}

/// The holes of each pattern are few.
fn see_patterns(alloc: Global, grammar: &Grammar) -> Result<(), AllocError>
    ensures { OnOk result (AreFew grammar.now) }
{
    let patterns = patterns(alloc, grammar)?;
    see_holes(patterns.as_slice())
}

fn patterns(alloc: Global, grammar: &Grammar) -> Result<Vec<&TokenPattern>, AllocError>
    ensures { IfOk result (λ v. map deref v.items ≡ values grammar.now.conversions) }
{
    grammar.conversions.values().collect(alloc)
}

fn see_holes(patterns: &[&TokenPattern]) -> Result<(), AllocError>
    ensures { OnOk result (All (λ p. length p.now.holes < 2 ^ 63) patterns.now) }
{
    for pattern in patterns {
        see_few(pattern.holes.as_slice().len())?;
    }
    Ok(())
}

/// The gotos of all states are in order.
pub(crate) fn see_states(states: &[StartStates])
    ensures { AreStatesInMemory states.now }
{
    for list in states {
        see_gotos(list.states.as_slice());
    }
}

fn see_gotos(states: &[Lr1State])
    ensures { All HasOrderedGotos states.now }
{
    for state in states {
        let _gotos = state.gotos.len();
    }
}
