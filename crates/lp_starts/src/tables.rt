//! The canonical states of each start of a grammar.

ghost use Rattle.std.specs.Prelude.{◌≡◌, map, Some, IfOk, IfErr, MatchResult, slice_get};
ghost use Rattle.std.specs.Map.Iter.{deref};
ghost use Rattle.std.specs.BTreeMap.{keys};
ghost use Rattle.lp_repr.specs.ValidTables.{IsValidTables};
ghost use Rattle.lp_valid.specs.ValidGrammar.{IsValidGrammar};
ghost use Rattle.lp_starts.specs.Tables.{AreTablesOf, AreValid, HasNoTables, IsFaultAt, IsTableOf, StopsAt};

use crate::states::build_states;
use lp_repr::repr::{Grammar, NonterminalString, Symbol};
use lp_repr::{Items, StartStates, Token};
use lp_states::BuildFault;
use lp_valid::{GrammarFault, check_grammar};
use std::alloc::{AllocError, AllocFailed, Global};

/// Why a grammar has no tables.
#[derive(Drop)]
pub enum TablesFault {
    /// The least rule of valid grammars that fails, by number, and the least place at which it does.
    BadGrammar {
        rule: u8,
        place: usize,
    },
    /// After the path two actions stand on the token. The start is the least one without states, by
    /// key order.
    Conflict {
        start: usize,
        path: Items<Symbol>,
        token: Token,
    },
    /// The paths reach more item sets than are kept. The start is the least one without states.
    TooManyStates {
        start: usize,
        paths: Items<Items<Symbol>>,
    },
    Memory,
}

impl From<AllocError> for TablesFault {
    ghost use Rattle.std.specs.Prelude.{◌≡◌};
    ghost use Rattle.lp_starts.specs.declared.tables.TablesFault.TheVariants.{Memory};

    ghost from_gives = { λ _ e. e ≡ Memory };

    fn from(_e: AllocError) -> TablesFault {
        TablesFault::Memory
    }
}

impl<T: Drop> From<AllocFailed<T>> for TablesFault {
    ghost use Rattle.std.specs.Prelude.{◌≡◌};
    ghost use Rattle.lp_starts.specs.declared.tables.TablesFault.TheVariants.{Memory};

    ghost from_gives = { λ _ e. e ≡ Memory };

    fn from(_e: AllocFailed<T>) -> TablesFault {
        TablesFault::Memory
    }
}

/// The canonical LR(1) states of each start, under its public name, in key order; they are valid
/// tables. A grammar that isn't valid is refused first, then the least start that has no states.
pub fn tables_of(alloc: Global, grammar: &Grammar) -> Result<Vec<StartStates>, TablesFault>
    ensures tables { IfOk result (λ v. AreTablesOf grammar.now v.items) }
    ensures valid { IfOk result (λ v. AreValid grammar.now v.items) }
    ensures fault { IfErr result (HasNoTables grammar.now) }
{
    check(alloc, grammar)?;
    let names = start_names(alloc, grammar)?;
    let mut tables = Vec::new(alloc);
    for (start, name) in names.iter().enumerate() {
        let table = table_of(alloc, grammar, start, name)?;
        tables.push(table)?;
    }
    Ok(tables)
}

/// The grammar is valid.
fn check(alloc: Global, grammar: &Grammar) -> Result<(), TablesFault>
    ensures { MatchResult result (λ _. IsValidGrammar grammar.now) (HasNoTables grammar.now) }
{
    match check_grammar(alloc, grammar) {
        Ok(()) => Ok(()),
        Err(GrammarFault::Rule { rule, place }) => Err(TablesFault::BadGrammar { rule, place }),
        Err(GrammarFault::Memory) => Err(TablesFault::Memory),
    }
}

/// The public names of the starts, by number.
fn start_names(alloc: Global, grammar: &Grammar) -> Result<Vec<&NonterminalString>, AllocError>
    ensures { IfOk result (λ v. map deref v.items ≡ keys grammar.now.start_nonterminals) }
{
    grammar.start_nonterminals.keys().collect(alloc)
}

/// The table of the start of this number and name.
fn table_of(
    alloc: Global,
    grammar: &Grammar,
    start: usize,
    name: &NonterminalString,
) -> Result<StartStates, TablesFault>
    requires valid { IsValidGrammar grammar.now }
    requires name { slice_get (keys grammar.now.start_nonterminals) start ≡ Some name.now }
    ensures table { IfOk result (IsTableOf grammar.now start) }
    ensures valid { IfOk result (λ t. IsValidTables grammar.now start t.states) }
    ensures fault { IfErr result (IsFaultAt grammar.now start) }
{
    let start_name = NonterminalString(name.0.clone()?);
    match build_states(alloc, grammar, start) {
        Ok(states) => Ok(StartStates {
            start: start_name,
            states: Items(states),
        }),
        Err(fault) => Err(at_start(start, fault)),
    }
}

/// The fault of a start of this number.
fn at_start(start: usize, fault: BuildFault) -> TablesFault
    ensures { StopsAt start fault result }
{
    match fault {
        BuildFault::Conflict { path, token } => TablesFault::Conflict { start, path, token },
        BuildFault::TooManyStates { paths } => TablesFault::TooManyStates { start, paths },
        BuildFault::Memory => TablesFault::Memory,
    }
}
