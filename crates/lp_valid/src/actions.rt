//! The actions of a grammar: how many symbols they take, and whether they can fail.

ghost use Rattle.std.specs.Prelude.{◌≡◌, ◌==◌, not, length, position, sum_by, ◌||◌};
ghost use Rattle.std.specs.List.{list_any, list_all};
ghost use Rattle.lp_valid.specs.ActionRules.{symbol_count, kind_takes, takes, part_takes, kind_has_counts, is_fallible, part_is_fallible, kind_may_fail};

use lp_repr::repr::{ActionFnDefn, ActionFnDefnKind, InlinedSymbol, Production};

/// The first production with another count of symbols than its action takes.
pub(crate) fn failing_production_count(
    actions: &[ActionFnDefn],
    productions: &[&Production],
) -> Option<usize>
    ensures { result
        ≡ position (λ p. not (takes actions.now p.now.action (length p.now.symbols))) productions.now }
{
    productions
        .iter()
        .position(|p| !takes(actions, p.action, p.symbols.as_slice().len()))
}

/// The first action with another count of names, or of symbols, than is taken.
pub(crate) fn failing_action_count(actions: &[ActionFnDefn]) -> Option<usize>
    ensures { result ≡ position (λ a. not (kind_has_counts actions.now a.kind)) actions.now }
{
    actions
        .iter()
        .position(|a| !has_its_counts(actions, &a.kind))
}

/// Whether the action of this number takes so many symbols.
fn takes(actions: &[ActionFnDefn], action: usize, count: usize) -> bool
    ensures { result ≡ takes actions.now action count }
{
    match actions.get(action) {
        None => false,
        Some(action) => kind_takes(&action.kind, count),
    }
}

fn kind_takes(kind: &ActionFnDefnKind, count: usize) -> bool
    ensures { result ≡ kind_takes kind.now count }
{
    match kind {
        ActionFnDefnKind::User { arg_types, .. } => arg_types.as_slice().len() == count,
        ActionFnDefnKind::Lookaround(_) => count == 0,
        ActionFnDefnKind::Inline { symbols, .. } => flat_count_is(symbols.as_slice(), count),
    }
}

/// Whether the symbols stand for so many, those of inlined actions counted each.
fn flat_count_is(symbols: &[InlinedSymbol], count: usize) -> bool
    ensures { result ≡ (sum_by symbol_count symbols.now == count) }
{
    let mut left = count;
    for symbol in symbols {
        let own = symbol_count(symbol);
        if left < own {
            return false;
        }
        left -= own;
    }
    left == 0
}

fn symbol_count(symbol: &InlinedSymbol) -> usize
    ensures { result ≡ symbol_count symbol.now }
{
    match symbol {
        InlinedSymbol::Original(_) => 1,
        InlinedSymbol::Inlined(_, symbols) => symbols.as_slice().len(),
    }
}

/// A user action has as many names as types; an inline's parts take as many as they are given, and
/// its outer action as many as its symbols.
fn has_its_counts(actions: &[ActionFnDefn], kind: &ActionFnDefnKind) -> bool
    ensures { result ≡ kind_has_counts actions.now kind.now }
{
    match kind {
        ActionFnDefnKind::User {
            arg_patterns,
            arg_types,
            ..
        } => arg_patterns.as_slice().len() == arg_types.as_slice().len(),
        ActionFnDefnKind::Lookaround(_) => true,
        ActionFnDefnKind::Inline { action, symbols } => {
            takes(actions, *action, symbols.as_slice().len())
                && parts_take(actions, symbols.as_slice())
        }
    }
}

/// Whether the actions of all parts take as many symbols as they are given.
fn parts_take(actions: &[ActionFnDefn], parts: &[InlinedSymbol]) -> bool
    ensures { result ≡ list_all (part_takes actions.now) parts.now }
{
    parts.iter().all(|s| part_takes(actions, s))
}

fn part_takes(actions: &[ActionFnDefn], symbol: &InlinedSymbol) -> bool
    ensures { result ≡ part_takes actions.now symbol.now }
{
    match symbol {
        InlinedSymbol::Original(_) => true,
        InlinedSymbol::Inlined(action, symbols) => {
            takes(actions, *action, symbols.as_slice().len())
        }
    }
}

/// The first inline that isn't fallible though its outer action or a part is, or lookaround that
/// is.
pub(crate) fn failing_fallible(actions: &[ActionFnDefn]) -> Option<usize>
    ensures { result ≡ position (λ a. not (kind_may_fail actions.now a.fallible a.kind)) actions.now }
{
    actions
        .iter()
        .position(|a| !may_fail(actions, a.fallible, &a.kind))
}

fn may_fail(actions: &[ActionFnDefn], fallible: bool, kind: &ActionFnDefnKind) -> bool
    ensures { result ≡ kind_may_fail actions.now fallible kind.now }
{
    match kind {
        ActionFnDefnKind::User { .. } => true,
        ActionFnDefnKind::Lookaround(_) => !fallible,
        ActionFnDefnKind::Inline { action, symbols } => {
            fallible || !has_fallible_part(actions, *action, symbols.as_slice())
        }
    }
}

/// Whether the outer action of an inline or a part is fallible.
fn has_fallible_part(actions: &[ActionFnDefn], outer: usize, symbols: &[InlinedSymbol]) -> bool
    ensures { result ≡ (is_fallible actions.now outer || list_any (part_is_fallible actions.now) symbols.now) }
{
    is_fallible(actions, outer) || some_part_is_fallible(actions, symbols)
}

fn some_part_is_fallible(actions: &[ActionFnDefn], parts: &[InlinedSymbol]) -> bool
    ensures { result ≡ list_any (part_is_fallible actions.now) parts.now }
{
    parts.iter().any(|s| part_is_fallible(actions, s))
}

fn is_fallible(actions: &[ActionFnDefn], action: usize) -> bool
    ensures { result ≡ is_fallible actions.now action }
{
    match actions.get(action) {
        None => false,
        Some(action) => action.fallible,
    }
}

fn part_is_fallible(actions: &[ActionFnDefn], symbol: &InlinedSymbol) -> bool
    ensures { result ≡ part_is_fallible actions.now symbol.now }
{
    match symbol {
        InlinedSymbol::Original(_) => false,
        InlinedSymbol::Inlined(action, _) => is_fallible(actions, *action),
    }
}
