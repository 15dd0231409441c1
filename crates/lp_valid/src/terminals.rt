//! The terminals of a grammar: their types, their patterns, and the error terminal.

ghost use Rattle.std.specs.Prelude.{◌≡◌, ◌-◌, not, length, position, is_some, nat_lt, slice_get, false};
ghost use Rattle.std.specs.Map.{lookup};
ghost use Rattle.std.specs.Option.{option_map_or};
ghost use Rattle.lp_repr.specs.Names.{same_nonterminal, same_terminal};
ghost use Rattle.lp_repr.specs.Numbering.{nonterminals_of, terminals_of};
ghost use Rattle.lp_repr.specs.Shown.{pattern_text};
ghost use Rattle.lp_valid.specs.Places.{IsFirstFailing};
ghost use Rattle.lp_valid.specs.TerminalRules.{is_error, is_pattern, terminal_has_type, nonterminal_has_type, ErrorIsLast};

use lp_repr::repr::{Grammar, NonterminalString, TerminalString, TokenPattern, TypeRepr};
use std::collections::BTreeMap;

/// The first terminal without a type or, but for the error terminal, without a pattern.
pub(crate) fn failing_terminal_type(grammar: &Grammar) -> Option<usize>
    ensures { result ≡ position (λ t. not (terminal_has_type grammar.now t)) (terminals_of grammar.now) }
{
    grammar
        .terminals
        .all
        .as_slice()
        .iter()
        .position(|t| !terminal_has_type(grammar, t))
}

/// The first nonterminal without a type.
pub(crate) fn failing_nonterminal_type(grammar: &Grammar) -> Option<usize>
    ensures { result
        ≡ position (λ n. not (nonterminal_has_type grammar.now n)) (nonterminals_of grammar.now) }
{
    grammar
        .nonterminals
        .keys()
        .position(|n| !nonterminal_has_type(grammar, n))
}

fn nonterminal_has_type(grammar: &Grammar, name: &NonterminalString) -> bool
    ensures { result ≡ nonterminal_has_type grammar.now name.now }
{
    grammar.types.nonterminals.contains_key(name)
}

fn terminal_has_type(grammar: &Grammar, terminal: &TerminalString) -> bool
    ensures { result ≡ terminal_has_type grammar.now terminal.now }
{
    is_typed(&grammar.types.terminals, terminal)
        && (is_error(terminal) || has_pattern(&grammar.conversions, terminal))
}

fn is_typed(types: &BTreeMap<TerminalString, TypeRepr>, terminal: &TerminalString) -> bool
    ensures { result ≡ is_some (lookup (same_terminal terminal.now) types.now.entries) }
{
    types.contains_key(terminal)
}

fn is_error(terminal: &TerminalString) -> bool
    ensures { result ≡ is_error terminal.now }
{
    match terminal {
        TerminalString::Quoted(_) => false,
        TerminalString::Bare(_) => false,
        TerminalString::Error => true,
    }
}

fn has_pattern(patterns: &BTreeMap<TerminalString, TokenPattern>, terminal: &TerminalString) -> bool
    ensures { result
        ≡ option_map_or is_pattern (lookup (same_terminal terminal.now) patterns.now.entries) false }
{
    match patterns.get(terminal) {
        None => false,
        Some(pattern) => is_pattern(pattern),
    }
}

/// One piece more than holes, and a text that isn't empty, with `_` in the holes.
fn is_pattern(pattern: &TokenPattern) -> bool
    ensures { result ≡ is_pattern pattern.now }
{
    let pieces = pattern.pieces.as_slice().len();
    let holes = pattern.holes.as_slice().len();
    holes < pieces && pieces - holes == 1 && has_text(pattern)
}

/// Whether the pattern's text isn't empty: two pieces have a hole between them.
fn has_text(pattern: &TokenPattern) -> bool
    ensures { result ≡ nat_lt 0 (length (pattern_text pattern.now)) }
{
    match pattern.pieces.as_slice() {
        [] => false,
        [piece] => !piece.as_str().is_empty(),
        [_, _, ..] => true,
    }
}

/// The first place but the last at which the error terminal stands.
pub(crate) fn failing_error(terminals: &[TerminalString]) -> Option<usize>
    ensures { IsFirstFailing (ErrorIsLast terminals.now) result }
{
    match first_error(terminals) {
        Some(place) if place < terminals.len().saturating_sub(1) => Some(place),
        _ => None,
    }
}

fn first_error(terminals: &[TerminalString]) -> Option<usize>
    ensures { result ≡ position is_error terminals.now }
{
    terminals.iter().position(is_error)
}

/// Whether the error terminal is the last one.
pub(crate) fn ends_in_error(terminals: &[TerminalString]) -> bool
    ensures { result
        ≡ option_map_or is_error (slice_get terminals.now (length terminals.now - 1)) false }
{
    match terminals.get(terminals.len().saturating_sub(1)) {
        None => false,
        Some(terminal) => is_error(terminal),
    }
}
