//! From the bytes of a grammar file to its grammar and states.

ghost use Rattle.std.specs.Prelude.{◌≡◌, ℕ, List, Option, None, Some, IfOk, IfErr};
ghost use Rattle.lp_plain.specs.Front.{IsTextFault, LowersTo};
ghost use Rattle.lp_repr.specs.declared.repr.Grammar.{Grammar};
ghost use Rattle.lp_prepared.specs.Causes.{IsOfFile};
ghost use Rattle.lp_prepared.specs.LinesTold.{IsBeforeLines, TellsRunLine, ToldOfLines};
ghost use Rattle.lp_prepared.specs.Outputs.{IsTailIn};
ghost use Rattle.lp_prepared.specs.TextTold.{OfText, Spells, ToldOfText};
ghost use Rattle.lp_prepared.specs.Told.{AreTablesOrNone, Holds, IsAnswered, IsFile, IsOfLowered, Tells, ToldOf};

use lp_plain::{BytesFault, PlainGrammar, TablesFault, cut_file, lowered_of, tables_of};
use lp_repr::StartStates;
use lp_repr::repr::Grammar;
use lp_status::Status;
use std::alloc::Global;

/// A grammar file that was read.
#[derive(Drop)]
pub struct File {
    pub plain: PlainGrammar,
    pub lowered: Grammar,
    /// The states of each start, in key order; none where the grammar breaks a rule of valid
    /// grammars, which the emission then names.
    pub tables: Vec<StartStates>,
    /// What follows the line `%%`.
    pub tail: Vec<u8>,
}

/// Why nothing is written.
#[derive(Drop)]
pub struct Stop {
    pub status: Status,
    /// The plain grammar, once it is lowered; none for want of memory.
    pub grammar: Option<PlainGrammar>,
}

impl Stop {
    /// An answer before a grammar is there.
    pub fn bare(status: Status) -> Stop
        ensures status { result.status ≡ status }
        ensures grammar { result.grammar ≡ None }
    {
        Stop {
            status,
            grammar: None,
        }
    }

    /// An answer with the plain grammar that was lowered.
    pub fn with(status: Status, grammar: PlainGrammar) -> Stop
        ensures status { result.status ≡ status }
        ensures grammar { Holds grammar status result.grammar }
        ensures answered { IsOfLowered status → IsAnswered result.grammar result.status }
        ensures told { (g : Grammar) → LowersTo grammar g → ToldOf g status → IsOfFile status → Tells result.grammar result.status }
        ensures text { (text : List ℕ) → Spells grammar text → IsOfLowered status → ToldOfText result.grammar result.status text }
        ensures line { (g : Grammar) → (left : Option (List ℕ)) → (tail : List ℕ) → LowersTo grammar g → IsTailIn left tail → ToldOfLines g tail status → TellsRunLine left result.grammar result.status }
    {
        match status {
            Status::Memory => Stop::bare(status),
            _ => Stop {
                status,
                grammar: Some(grammar),
            },
        }
    }
}

/// The grammar file that the bytes are.
pub fn file_of(alloc: Global, bytes: &[u8]) -> Result<File, Stop>
    ensures file { IfOk result (IsFile bytes.now) }
    ensures stops { IfErr result (λ stop. IsOfFile stop.status) }
    ensures answered { IfErr result (λ stop. IsAnswered stop.grammar stop.status) }
    ensures told { IfErr result (λ stop. Tells stop.grammar stop.status) }
    ensures no_line { IfErr result (λ stop. IsBeforeLines stop.status) }
    ensures text { IfErr result (λ stop. OfText bytes.now (ToldOfText stop.grammar stop.status)) }
{
    let (text, tail) = cut_file(bytes);
    let (plain, lowered) = match lowered_of(alloc, text) {
        Ok(both) => both,
        Err(fault) => return Err(unread(fault)),
    };
    match tables_and_tail(alloc, &lowered, tail) {
        Ok((tables, tail)) => Ok(File {
            plain,
            lowered,
            tables,
            tail,
        }),
        Err(status) => Err(Stop::with(status, plain)),
    }
}

/// The answer on bytes that spell no plain grammar, or one whose lowering is refused.
fn unread(fault: BytesFault) -> Stop
    ensures stops { IsOfFile result.status }
    ensures answered { IsAnswered result.grammar result.status }
    ensures told { Tells result.grammar result.status }
    ensures no_line { IsBeforeLines result.status }
    ensures text { (text : List ℕ) → IsTextFault text fault → ToldOfText result.grammar result.status text }
{
    match fault {
        BytesFault::Grammar { place } => Stop::bare(Status::Grammar { place }),
        BytesFault::Memory => Stop::bare(Status::Memory),
    }
}

fn tables_and_tail(
    alloc: Global,
    grammar: &Grammar,
    tail: &[u8],
) -> Result<(Vec<StartStates>, Vec<u8>), Status>
    ensures tables { IfOk result (λ both. AreTablesOrNone grammar.now both.0.items) }
    ensures tail { IfOk result (λ both. both.1.items ≡ tail.now) }
    ensures stops { IfErr result IsOfFile }
    ensures grammar { IfErr result IsOfLowered }
    ensures told { IfErr result (ToldOf grammar.now) }
    ensures no_line { IfErr result IsBeforeLines }
{
    let tables = tables_or_none(alloc, grammar)?;
    match Vec::from_slice(alloc, tail) {
        Ok(tail) => Ok((tables, tail)),
        Err(_) => Err(Status::Memory),
    }
}

/// The states of each start, in key order; none where the grammar isn't valid.
fn tables_or_none(alloc: Global, grammar: &Grammar) -> Result<Vec<StartStates>, Status>
    ensures tables { IfOk result (λ v. AreTablesOrNone grammar.now v.items) }
    ensures stops { IfErr result IsOfFile }
    ensures grammar { IfErr result IsOfLowered }
    ensures told { IfErr result (ToldOf grammar.now) }
    ensures no_line { IfErr result IsBeforeLines }
{
    match tables_of(alloc, grammar) {
        Ok(tables) => Ok(tables),
        Err(TablesFault::BadGrammar { .. }) => Ok(Vec::new(alloc)),
        Err(TablesFault::Conflict { start, path, token }) => {
            Err(Status::Conflict { start, path, token })
        }
        Err(TablesFault::TooManyStates { start, paths }) => {
            Err(Status::TooManyStates { start, paths })
        }
        Err(TablesFault::Memory) => Err(Status::Memory),
    }
}
