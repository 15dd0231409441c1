//! The causes for which no text is emitted, in their order.

ghost use Rattle.std.specs.Prelude.{◌≡◌, ℕ, ◌<◌, ◌↔◌, Some, IsTrue, MatchResult, IfOk, IfErr, map, slice_get};
ghost use Rattle.std.specs.Map.Iter.{deref};
ghost use Rattle.std.specs.BTreeMap.{keys};
ghost use Rattle.lp_repr.specs.ValidTables.{IsValidTables};
ghost use Rattle.lp_emit.specs.Causes.{IsBuildable, IsByAscent, IsSound, IsSupported, MayBeEmitted, Refuses, RefusesAlways, SuitsAscent};
ghost use Rattle.lp_emit.specs.Misfits.{RefusesProgram};
ghost use Rattle.lp_emit.specs.Steps.{RefusesLists, RefusesStates};
ghost use Rattle.lp_emitted.specs.Emittable.{AreTabled, HasItsList, IsTabled, greatest_of};
ghost use Rattle.lp_fitting.specs.Fitting.{IsFitting};

use crate::clash::name_clash;
use crate::errors::EmitError;
use lp_fitting::is_fitting;
use lp_repr::numbering::production_count;
use lp_repr::repr::{Grammar, LrCodeGeneration, NonterminalString};
use lp_repr::{Lr1State, StartStates};
use lp_tables::{TableFault, check_tables};
use lp_texts::{TextFault, TextKind, TextPlace, check_texts};
use lp_tree::Program;
use lp_valid::{GrammarFault, check_grammar};
use std::alloc::{AllocError, Global};

/// The most states of a start, and the most productions.
pub const MOST: usize = 2_147_483_647;

/// The first cause for which nothing is emitted.
pub fn check(alloc: Global, grammar: &Grammar, states: &[StartStates]) -> Result<(), EmitError>
    ensures { MatchResult result (λ _. MayBeEmitted grammar.now states.now) (Refuses grammar.now states.now) }
{
    check_asked(grammar)?;
    check_rules(alloc, grammar)?;
    check_ascent(alloc, grammar)?;
    check_counts(grammar, states)?;
    check_lists(alloc, grammar, states)?;
    check_all_texts(alloc, grammar, states)
}

/// There is a start, and the code of one back end is asked for.
fn check_asked(grammar: &Grammar) -> Result<(), EmitError>
    ensures { MatchResult result (λ _. IsSupported grammar.now) (RefusesAlways grammar.now) }
{
    if grammar.start_nonterminals.is_empty() {
        return Err(EmitError::NoStart);
    }
    match grammar.algorithm.codegen {
        LrCodeGeneration::TestAll => Err(EmitError::Unsupported),
        LrCodeGeneration::TableDriven | LrCodeGeneration::RecursiveAscent => Ok(()),
    }
}

/// The grammar is valid.
fn check_rules(alloc: Global, grammar: &Grammar) -> Result<(), EmitError>
    requires { IsSupported grammar.now }
    ensures { MatchResult result (λ _. IsSound grammar.now) (RefusesAlways grammar.now) }
{
    match check_grammar(alloc, grammar) {
        Ok(()) => Ok(()),
        Err(GrammarFault::Rule { rule, place }) => Err(EmitError::BadGrammar { rule, place }),
        Err(GrammarFault::Memory) => Err(EmitError::Memory),
    }
}

/// What recursive ascent is asked for suits it.
fn check_ascent(alloc: Global, grammar: &Grammar) -> Result<(), EmitError>
    requires { IsSound grammar.now }
    ensures { MatchResult result (λ _. SuitsAscent grammar.now) (RefusesAlways grammar.now) }
{
    match grammar.algorithm.codegen {
        LrCodeGeneration::RecursiveAscent => check_names(alloc, grammar),
        LrCodeGeneration::TableDriven | LrCodeGeneration::TestAll => Ok(()),
    }
}

/// What recursive ascent can't do: recover from errors, and tell apart nonterminals whose names are
/// escaped alike.
fn check_names(alloc: Global, grammar: &Grammar) -> Result<(), EmitError>
    requires sound { IsSound grammar.now }
    requires by_ascent { IsByAscent grammar.now }
    ensures { MatchResult result (λ _. SuitsAscent grammar.now) (RefusesAlways grammar.now) }
{
    if grammar.uses_error_recovery {
        return Err(EmitError::RecoveryInAscent);
    }
    match name_clash(alloc, grammar) {
        Ok(None) => Ok(()),
        Ok(Some((first, second))) => Err(EmitError::NameClash { first, second }),
        Err(AllocError) => Err(EmitError::Memory),
    }
}

/// The counts fit the greatest integer type of states.
fn check_counts(grammar: &Grammar, states: &[StartStates]) -> Result<(), EmitError>
    requires sound { IsSound grammar.now }
    requires by_ascent { SuitsAscent grammar.now }
    ensures { MatchResult result (λ _. IsBuildable grammar.now states.now) (Refuses grammar.now states.now) }
{
    let count = greatest_count(production_count(grammar), states);
    if count > MOST {
        return Err(EmitError::TooMany { count });
    }
    Ok(())
}

/// The greatest of a number and of the lengths of the lists of states.
fn greatest_count(number: usize, states: &[StartStates]) -> usize
    ensures { result ≡ greatest_of number states.now }
{
    let mut greatest = number;
    for list in states {
        greatest = greatest.max(list.states.as_slice().len());
    }
    greatest
}

/// There is one list of states per start, in key order and under its name, and its tables are
/// valid.
fn check_lists(alloc: Global, grammar: &Grammar, states: &[StartStates]) -> Result<(), EmitError>
    ensures { MatchResult result (λ _. AreTabled grammar.now states.now) (RefusesLists grammar.now states.now) }
{
    let names = start_names(alloc, grammar)?;
    for (start, name) in names.iter().enumerate() {
        check_list(alloc, grammar, states, start, name)?;
    }
    if states.len() > names.len() {
        return Err(no_list(names.len()));
    }
    Ok(())
}

/// The public names of the starts, by number.
fn start_names(alloc: Global, grammar: &Grammar) -> Result<Vec<&NonterminalString>, AllocError>
    ensures { IfOk result (λ v. map deref v.items ≡ keys grammar.now.start_nonterminals) }
{
    grammar.start_nonterminals.keys().collect(alloc)
}

/// The list of the start of this number and name.
fn check_list(
    alloc: Global,
    grammar: &Grammar,
    states: &[StartStates],
    start: usize,
    name: &NonterminalString,
) -> Result<(), EmitError>
    requires named { slice_get (keys grammar.now.start_nonterminals) start ≡ Some name.now }
    requires earlier { (k : ℕ) → k < start → IsTabled grammar.now states.now k }
    ensures { MatchResult result (λ _. IsTabled grammar.now states.now start) (RefusesLists grammar.now states.now) }
{
    let Some(list) = states.get(start) else {
        return Err(no_list(start));
    };
    if !is_of(list, name) {
        return Err(no_list(start));
    }
    check_states(alloc, grammar, start, list.states.as_slice())
}

/// Whether a list has this name and a state.
fn is_of(list: &StartStates, name: &NonterminalString) -> bool
    ensures { IsTrue result ↔ HasItsList (Some name.now) (Some list.now) }
{
    list.start == *name && !list.states.as_slice().is_empty()
}

/// The tables of a start are valid.
fn check_states(
    alloc: Global,
    grammar: &Grammar,
    start: usize,
    states: &[Lr1State],
) -> Result<(), EmitError>
    ensures { MatchResult result (λ _. IsValidTables grammar.now start states.now) (RefusesStates grammar.now start states.now) }
{
    match check_tables(alloc, grammar, start, states) {
        Ok(()) => Ok(()),
        Err(TableFault::Rule { rule, state }) => Err(EmitError::BadTables { start, state, rule }),
        Err(TableFault::Memory) => Err(EmitError::Memory),
    }
}

/// A list of states is missing, surplus, misnamed or empty.
fn no_list(start: usize) -> EmitError
    ensures { result ≡ EmitError.BadTables start 0 1 }
{
    EmitError::BadTables {
        start,
        state: 0,
        rule: 1,
    }
}

/// The texts can stand in a program.
fn check_all_texts(
    alloc: Global,
    grammar: &Grammar,
    states: &[StartStates],
) -> Result<(), EmitError>
    requires buildable { IsBuildable grammar.now states.now }
    requires tabled { AreTabled grammar.now states.now }
    ensures { MatchResult result (λ _. MayBeEmitted grammar.now states.now) (Refuses grammar.now states.now) }
{
    match check_texts(alloc, grammar) {
        Ok(()) => Ok(()),
        Err(TextFault::Bad { place, byte }) => Err(EmitError::BadText { place, byte }),
        Err(TextFault::Memory) => Err(EmitError::Memory),
    }
}

/// The texts of the program that is built may stand where they do. Else the place behind all texts
/// of the grammar is told, since each meets its rule by itself.
pub(crate) fn check_fit(
    alloc: Global,
    grammar: &Grammar,
    program: &Program<'_>,
) -> Result<(), EmitError>
    ensures { MatchResult result (λ _. IsFitting program.now) (RefusesProgram grammar.now program.now) }
{
    if is_fitting(alloc, program)? {
        return Ok(());
    }
    let place = TextPlace {
        kind: TextKind::Code,
        number: grammar.action_fn_defns.as_slice().len(),
    };
    Err(EmitError::BadText { place, byte: 0 })
}
