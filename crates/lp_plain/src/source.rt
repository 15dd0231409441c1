//! A grammar file, from its source to its grammar and states.

ghost use Rattle.std.specs.Prelude.{IfOk, IfErr};
ghost use Rattle.lp_plain.specs.Front.{IsFileFault, IsFront, IsFrontFault, IsTextFault, LowersTo, OfSource, StopsReading, Unlowered, Unspelled, Untabled};
ghost use Rattle.lp_reading.specs.Bytes.{IsPlainOf};

use crate::file::{Front, FrontFault};
use crate::input::{ReadError, read_all};
use lp_lines::cut_file;
use lp_lower::{LowerFault, lower};
use lp_reading::{BytesFault, plain_of};
use lp_repr::repr::Grammar;
use lp_starts::{TablesFault, tables_of};
use lp_syntax::PlainGrammar;
use lp_write::Source;
use std::alloc::Global;

/// Reads a source to its end, and gives the grammar that the text before the line `%%` spells, its
/// lowering, the states of each start, and what follows that line.
pub fn front<S: Source>(alloc: Global, source: &mut S) -> Result<Front, FrontFault>
    ensures front { IfOk result (λ f. OfSource (S.left source.old) (λ bytes. IsFront bytes f)) }
    ensures fault { IfErr result (IsFrontFault (S.left source.old) (S.faults source.old) (S.faults source.new)) }
{
    match read_all(alloc, source) {
        Ok(bytes) => front_of(alloc, bytes.as_slice()),
        Err(error) => Err(unread(error)),
    }
}

/// The fault of a source that was not read to its end.
fn unread(error: ReadError) -> FrontFault
    ensures { StopsReading error result }
{
    match error {
        ReadError::Fault => FrontFault::ReadFault,
        ReadError::TooLong => FrontFault::TooLong,
        ReadError::Memory => FrontFault::Memory,
    }
}

/// What the bytes of a file give.
fn front_of(alloc: Global, bytes: &[u8]) -> Result<Front, FrontFault>
    ensures front { IfOk result (IsFront bytes.now) }
    ensures fault { IfErr result (IsFileFault bytes.now) }
{
    let (text, tail) = cut_file(bytes);
    let (plain, grammar) = match lowered_of(alloc, text) {
        Ok(both) => both,
        Err(fault) => return Err(unspelled(fault)),
    };
    let tables = match tables_of(alloc, &grammar) {
        Ok(tables) => tables,
        Err(fault) => return Err(untabled(fault)),
    };
    let tail = Vec::from_slice(alloc, tail)?;
    Ok(Front {
        plain,
        grammar,
        tables,
        tail,
    })
}

/// The plain grammar that bytes spell, and its lowering. The place of a fault is that of the first
/// byte of no character, of the error of reading, or of the refusal.
pub fn lowered_of(alloc: Global, bytes: &[u8]) -> Result<(PlainGrammar, Grammar), BytesFault>
    ensures lowered { IfOk result (λ both. LowersTo both.0 both.1) }
    ensures spelled { IfOk result (λ both. IsPlainOf bytes.now both.0) }
    ensures fault { IfErr result (IsTextFault bytes.now) }
{
    let plain = plain_of(alloc, bytes)?;
    match lower(alloc, &plain) {
        Ok(grammar) => Ok((plain, grammar)),
        Err(fault) => Err(unlowered(fault)),
    }
}

/// The fault of a grammar whose lowering is refused.
fn unlowered(fault: LowerFault) -> BytesFault
    ensures { Unlowered fault result }
{
    match fault {
        LowerFault::UnknownName { place }
        | LowerFault::InlineOrder { place }
        | LowerFault::Duplicate { place }
        | LowerFault::TooManyProductions { place } => BytesFault::Grammar { place },
        LowerFault::Memory => BytesFault::Memory,
    }
}

/// The fault of a text that gives no grammar.
fn unspelled(fault: BytesFault) -> FrontFault
    ensures { Unspelled fault result }
{
    match fault {
        BytesFault::Grammar { place } => FrontFault::Grammar { place },
        BytesFault::Memory => FrontFault::Memory,
    }
}

/// The fault of a grammar without tables.
fn untabled(fault: TablesFault) -> FrontFault
    ensures { Untabled fault result }
{
    match fault {
        TablesFault::BadGrammar { rule, place } => FrontFault::BadGrammar { rule, place },
        TablesFault::Conflict { start, path, token } => FrontFault::Conflict { start, path, token },
        TablesFault::TooManyStates { start, paths } => FrontFault::TooManyStates { start, paths },
        TablesFault::Memory => FrontFault::Memory,
    }
}
