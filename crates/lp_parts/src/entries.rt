//! The entries of the tables.

ghost use Rattle.std.specs.Prelude.{FitsSigned, ◌≡◌, ◌∷◌, [], ◌==◌, if◌then◌else◌, ◌+◌, ◌++◌, ◌<◌, All, ◌^◌, ℕ, OnOk, IfOk, Option, length, vec_len};
ghost use Rattle.std.specs.Int.{w32};
ghost use Rattle.std.specs.Option.{ForSome};
ghost use Rattle.std.specs.Prelude.{slice_index_or, None, Some};
ghost use Rattle.std.specs.List.{list_any};
ghost use Rattle.lp_parts.specs.Entries.{EntriesFit, action_entries, action_entry, action_row, end_entries, end_entry, entry_of, first_of_two, is_terminal, is_eof, reduced_by, reduced_on};

use lp_repr::Items;
use lp_repr::lr1::{Lr1State, Token};
use std::alloc::{AllocError, Global};

/// An entry: the new state plus 1 for a shift, `-(number + 1)` for a reduction by the production
/// of that number, and 0 for an error. A shift goes before a reduction.
pub fn entry(shifted: Option<usize>, reduced: Option<usize>) -> i32
    requires target { ForSome shifted (λ t. t + 1 < 2 ^ 31) }
    requires production { ForSome reduced (λ p. p + 1 < 2 ^ 31) }
    ensures value { result ≡ entry_of shifted reduced }
    ensures fits { FitsSigned w32 result }
{
    match (shifted, reduced) {
        (Some(target), _) => target as i32 + 1,
        (None, Some(production)) => -(production as i32) - 1,
        (None, None) => 0,
    }
}

/// The entries of all states, row after row, with one entry per terminal.
pub fn action_table_entries(
    alloc: Global,
    terminals: usize,
    states: &[Lr1State],
) -> Result<Vec<i32>, AllocError>
    requires { All EntriesFit states.now }
    ensures { IfOk result (λ v. v.items ≡ action_entries terminals states.now) }
{
    let mut entries = Vec::new(alloc);
    for state in states {
        push_row(alloc, &mut entries, terminals, state)?;
    }
    Ok(entries)
}

/// Adds the entries of a state.
fn push_row(
    alloc: Global,
    entries: &mut Vec<i32>,
    terminals: usize,
    state: &Lr1State,
) -> Result<(), AllocError>
    requires { EntriesFit state.now }
    ensures { OnOk result (entries.new.items ≡ entries.old.items ++ action_row terminals state.now) }
{
    let reduced = reduced_by_terminal(alloc, terminals, state.reductions.as_slice())?;
    for terminal in 0..terminals {
        push_entry(entries, entry_at(state, terminal, reduced[terminal]))?;
    }
    Ok(())
}

/// The entry of a state for a terminal, on which it reduces by this production.
fn entry_at(state: &Lr1State, terminal: usize, reduced: Option<usize>) -> i32
    requires fits { EntriesFit state.now }
    requires reduced { reduced ≡ reduced_on (is_terminal terminal) state.now.reductions }
    ensures value { result ≡ action_entry state.now terminal }
    ensures fits { FitsSigned w32 result }
{
    entry(state.shifts.get(&terminal).copied(), reduced)
}

/// Adds an entry at the end.
fn push_entry(entries: &mut Vec<i32>, entry: i32) -> Result<(), AllocError>
    ensures { OnOk result (entries.new.items ≡ entries.old.items ++ entry ∷ []) }
{
    entries.push(entry)?;
    Ok(())
}

/// The entries of all states at the end of input.
pub fn end_table_entries(alloc: Global, states: &[Lr1State]) -> Result<Vec<i32>, AllocError>
    requires { All EntriesFit states.now }
    ensures { IfOk result (λ v. v.items ≡ end_entries states.now) }
{
    let mut entries = Vec::new(alloc);
    for state in states {
        push_entry(&mut entries, end_entry_of(state))?;
    }
    Ok(entries)
}

/// The entry of a state at the end of input.
fn end_entry_of(state: &Lr1State) -> i32
    requires { EntriesFit state.now }
    ensures value { result ≡ end_entry state.now }
    ensures fits { FitsSigned w32 result }
{
    entry(None, reduced_at_end(state.reductions.as_slice()))
}

/// The production that is reduced at the end of input.
pub fn reduced_at_end(reductions: &[(Items<Token>, usize)]) -> Option<usize>
    ensures { result ≡ reduced_on is_eof reductions.now }
{
    for reduction in reductions {
        if names_end(reduction.0.as_slice()) {
            return Some(reduction.1);
        }
    }
    None
}

/// The end of input is among the tokens.
fn names_end(tokens: &[Token]) -> bool
    ensures { result ≡ list_any is_eof tokens.now }
{
    tokens.iter().any(|token| matches!(token, Token::Eof))
}

/// Per terminal the production that is reduced on it: that of the first reduction that names it.
pub fn reduced_by_terminal(
    alloc: Global,
    terminals: usize,
    reductions: &[(Items<Token>, usize)],
) -> Result<Vec<Option<usize>>, AllocError>
    ensures count { IfOk result (λ v. vec_len v ≡ terminals) }
    ensures each { IfOk result (λ v. (i : ℕ) → i < terminals →
        slice_index_or v.items i None ≡ reduced_on (is_terminal i) reductions.now) }
{
    let mut reduced = vec![in alloc; None; terminals]?;
    for reduction in reductions {
        note_reduction(&mut reduced, reduction.0.as_slice(), reduction.1);
    }
    Ok(reduced)
}

/// Notes a production at the terminals of its tokens that have none yet.
fn note_reduction(reduced: &mut Vec<Option<usize>>, tokens: &[Token], production: usize)
    ensures count { vec_len reduced.new ≡ vec_len reduced.old }
    ensures each { (i : ℕ) → i < vec_len reduced.old →
        slice_index_or reduced.new.items i None
        ≡ first_of_two (slice_index_or reduced.old.items i None) (reduced_by (is_terminal i) tokens.now production) }
{
    for token in tokens {
        if let Token::Terminal(terminal) = token {
            note(reduced, *terminal, production);
        }
    }
}

/// Notes a production at a terminal that has none yet.
fn note(reduced: &mut Vec<Option<usize>>, terminal: usize, production: usize)
    ensures count { vec_len reduced.new ≡ vec_len reduced.old }
    ensures each { (i : ℕ) → i < vec_len reduced.old →
        slice_index_or reduced.new.items i None
        ≡ first_of_two (slice_index_or reduced.old.items i None) (if i == terminal then Some production else None) }
{
    if terminal < reduced.len() && reduced[terminal].is_none() {
        reduced[terminal] = Some(production);
    }
}
