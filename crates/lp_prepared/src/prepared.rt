//! What a call of the tool is asked for, made whole.

ghost use Rattle.std.specs.Prelude.{◌≡◌, ◌≤◌, ◌++◌, ◌∷◌, ℕ, List, length, codes, string_bytes, IfErr, IfOk, OnOk, None, Some};
ghost use Rattle.lp_emit.specs.Causes.{MayBeEmitted};
ghost use Rattle.lp_emit.specs.Texts.{IsEmission};
ghost use Rattle.lp_plain.specs.Front.{LowersTo};
ghost use Rattle.lp_prepared.specs.Command.{command_of};
ghost use Rattle.lp_prepared.specs.Causes.{Causes, IsOfFile, IsOfReading, IsPastReading, IsStop, StopsReading};
ghost use Rattle.lp_prepared.specs.LinesTold.{IsBeforeLines, IsOfNoLine, TellsLine, TellsRunLine, ToldOfLines};
ghost use Rattle.lp_prepared.specs.Outputs.{AreLinesOf, IsRunOutput};
ghost use Rattle.lp_prepared.specs.Runs.{values_of};
ghost use Rattle.lp_prepared.specs.TextTold.{OfFile, OfText, Spells, TellsText, ToldOfText};
ghost use Rattle.lp_prepared.specs.Told.{AreTablesOrNone, HasTables, IsAnswered, IsOfLowered, IsPrepared, IsRefusal, Tells, ToldOf};

use crate::command::{Command, read_words};
use crate::file::{File, Stop, file_of};
use crate::generated::prepare_generated;
use lp_emit::{EmitError, emitted_text};
use lp_plain::{LineFault, PlainGrammar, ReadError, TokenLine, read_all, read_token_lines};
use lp_repr::repr::Grammar;
use lp_repr::{StartStates, Text};
use lp_status::Status;
use lp_text_run::{TextRunFault, run_text};
use lp_write::{Options, Source};
use std::alloc::{AllocError, Global};

/// All that a call writes, made whole before the first write.
#[derive(Drop)]
pub struct Prepared {
    pub grammar: PlainGrammar,
    pub tables: Vec<StartStates>,
    pub output: Vec<u8>,
    pub text_len: usize,
}

/// All that the words ask for, made from the source. The checks come in this order: the words, the source, the grammar, its
/// states, the token lines, what the emission refuses; the first that fails is the answer. `Memory` may come anywhere.
pub fn prepare<S: Source>(alloc: Global, words: &[Text], source: &mut S) -> Result<Prepared, Stop>
    ensures causes { IfErr result (λ stop. Causes (command_of words.now) (S.left source.old) (S.faults source.old) (S.faults source.new) stop.status) }
    ensures stops { IfErr result (λ stop. IsStop stop.status) }
    ensures goes { OnOk result (IsPastReading (command_of words.now) (S.left source.old)) }
    ensures answered { IfErr result (λ stop. IsAnswered stop.grammar stop.status) }
    ensures told { IfErr result (λ stop. Tells stop.grammar stop.status) }
    ensures text { IfErr result (λ stop. TellsText (command_of words.now) (S.left source.old) stop.grammar stop.status) }
    ensures spelled { IfOk result (λ p. OfFile (command_of words.now) (S.left source.old) (λ bytes. OfText bytes (Spells p.grammar))) }
    ensures line { IfErr result (λ stop. TellsLine (command_of words.now) (S.left source.old) stop.grammar stop.status) }
    ensures prepared { IfOk result (IsPrepared (command_of words.now) (S.left source.old)) }
{
    match read_words(words) {
        None => Err(Stop::bare(Status::Usage)),
        Some(Command::Emit(options)) => {
            let bytes = taken(alloc, source)?;
            prepare_emit(alloc, bytes.as_slice(), options)
        }
        Some(Command::Run(options)) => {
            let bytes = taken(alloc, source)?;
            prepare_run(alloc, bytes.as_slice(), options)
        }
        Some(Command::Make(levels)) => prepare_generated(alloc, levels),
    }
}

/// All bytes of the source.
fn taken<S: Source>(alloc: Global, source: &mut S) -> Result<Vec<u8>, Stop>
    ensures bytes { IfOk result (λ v. (bytes : List ℕ) → S.left source.old ≡ Some bytes → v.items ≡ bytes) }
    ensures few { IfOk result (λ v. length v.items ≤ 16777216) }
    ensures stops { IfErr result (λ stop. StopsReading (S.left source.old) (S.faults source.old) (S.faults source.new) stop.status) }
    ensures ended { IfErr result (λ stop. IsOfReading stop.status) }
    ensures answered { IfErr result (λ stop. IsAnswered stop.grammar stop.status) }
    ensures told { IfErr result (λ stop. Tells stop.grammar stop.status) }
    ensures no_line { IfErr result (λ stop. IsBeforeLines stop.status) }
{
    match read_all(alloc, source) {
        Ok(bytes) => Ok(bytes),
        Err(ReadError::TooLong) => Err(Stop::bare(Status::TooLong)),
        Err(ReadError::Fault) => Err(Stop::bare(Status::ReadFault)),
        Err(ReadError::Memory) => Err(Stop::bare(Status::Memory)),
    }
}

/// The output of `emit`: the parser text.
fn prepare_emit(alloc: Global, bytes: &[u8], options: Options) -> Result<Prepared, Stop>
    ensures stops { IfErr result (λ stop. IsOfFile stop.status) }
    ensures answered { IfErr result (λ stop. IsAnswered stop.grammar stop.status) }
    ensures told { IfErr result (λ stop. Tells stop.grammar stop.status) }
    ensures no_line { IfErr result (λ stop. IsOfNoLine stop.status) }
    ensures text { IfErr result (λ stop. OfText bytes.now (ToldOfText stop.grammar stop.status)) }
    ensures spelled { IfOk result (λ p. OfText bytes.now (Spells p.grammar)) }
    ensures prepared { IfOk result (IsPrepared (Some (Command.Emit options)) (Some bytes.now)) }
{
    let file = file_of(alloc, bytes)?;
    match emitted(alloc, &file, &options) {
        Err(status) => Err(Stop::with(status, file.plain)),
        Ok(text) => Ok(Prepared {
            grammar: file.plain,
            tables: file.tables,
            text_len: text.len(),
            output: text.into_bytes(),
        }),
    }
}

/// The output of `run`: the parser text, the line `---`, and the block of each token line.
fn prepare_run(alloc: Global, bytes: &[u8], options: Options) -> Result<Prepared, Stop>
    ensures stops { IfErr result (λ stop. IsOfFile stop.status) }
    ensures answered { IfErr result (λ stop. IsAnswered stop.grammar stop.status) }
    ensures told { IfErr result (λ stop. Tells stop.grammar stop.status) }
    ensures line { IfErr result (λ stop. TellsRunLine (Some bytes.now) stop.grammar stop.status) }
    ensures text { IfErr result (λ stop. OfText bytes.now (ToldOfText stop.grammar stop.status)) }
    ensures spelled { IfOk result (λ p. OfText bytes.now (Spells p.grammar)) }
    ensures prepared { IfOk result (IsPrepared (Some (Command.Run options)) (Some bytes.now)) }
{
    let file = file_of(alloc, bytes)?;
    match text_and_runs(alloc, &file, &options) {
        Err(status) => Err(Stop::with(status, file.plain)),
        Ok((text_len, output)) => Ok(Prepared {
            grammar: file.plain,
            tables: file.tables,
            text_len,
            output,
        }),
    }
}

fn text_and_runs(alloc: Global, file: &File, options: &Options) -> Result<(usize, Vec<u8>), Status>
    requires spelled { (text : List ℕ) × Spells file.now.plain text }
    requires lowered { LowersTo file.now.plain file.now.lowered }
    requires tables { AreTablesOrNone file.now.lowered file.now.tables.items }
    ensures stops { IfErr result IsOfFile }
    ensures grammar { IfErr result IsOfLowered }
    ensures told { IfErr result (ToldOf file.now.lowered) }
    ensures lines { IfErr result (ToldOfLines file.now.lowered file.now.tail.items) }
    ensures emitted { OnOk result (MayBeEmitted file.now.lowered file.now.tables.items) }
    ensures output { IfOk result (λ both. IsRunOutput file.now.lowered file.now.tables.items options.now file.now.tail.items both.0 both.1.items) }
{
    let lines = token_lines(alloc, &file.lowered, file.tail.as_slice())?;
    let text = emitted(alloc, file, options)?;
    let params = match parameter_values(alloc, &file.lowered) {
        Ok(params) => params,
        Err(AllocError) => return Err(Status::Memory),
    };
    match run_text(alloc, text.as_str(), lines.as_slice(), params.as_slice()) {
        Ok(blocks) => match joined(text, blocks.as_slice()) {
            Ok(output) => Ok(output),
            Err(AllocError) => Err(Status::Memory),
        },
        Err(TextRunFault::Memory) => Err(Status::Memory),
        // What is emitted is read, its token lines name its starts, and each parameter has a value.
        Err(TextRunFault::NoForm { .. }) => unreachable!(),
        Err(TextRunFault::NoStart { .. }) => unreachable!(),
        Err(TextRunFault::ParameterCount { .. }) => unreachable!(),
    }
}

/// The parser text of a file.
pub fn emitted(alloc: Global, file: &File, options: &Options) -> Result<String, Status>
    requires spelled { (text : List ℕ) × Spells file.now.plain text }
    requires lowered { LowersTo file.now.plain file.now.lowered }
    requires tables { AreTablesOrNone file.now.lowered file.now.tables.items }
    ensures stops { IfErr result IsOfFile }
    ensures grammar { IfErr result IsOfLowered }
    ensures told { IfErr result (ToldOf file.now.lowered) }
    ensures no_line { IfErr result IsOfNoLine }
    ensures emitted { OnOk result (MayBeEmitted file.now.lowered file.now.tables.items) }
    ensures text { IfOk result (λ text. IsEmission file.now.lowered file.now.tables.items options.now (string_bytes text)) }
{
    match emitted_text(alloc, &file.lowered, file.tables.as_slice(), options) {
        Ok(text) => Ok(text),
        Err(error) => Err(refused(error)),
    }
}

fn token_lines(alloc: Global, grammar: &Grammar, tail: &[u8]) -> Result<Vec<TokenLine>, Status>
    requires tables { HasTables grammar.now }
    ensures lines { IfOk result (λ lines. AreLinesOf grammar.now tail.now lines.items) }
    ensures stops { IfErr result IsOfFile }
    ensures grammar { IfErr result IsOfLowered }
    ensures told { IfErr result (ToldOf grammar.now) }
    ensures misfit { IfErr result (ToldOfLines grammar.now tail.now) }
{
    match read_token_lines(alloc, grammar, tail) {
        Ok(lines) => Ok(lines),
        Err(LineFault::Line { line }) => Err(Status::TokenLine { line }),
        Err(LineFault::Memory) => Err(Status::Memory),
    }
}

/// The value of each parameter: its name.
pub fn parameter_values(alloc: Global, grammar: &Grammar) -> Result<Vec<Text>, AllocError>
    ensures { IfOk result (λ values. values.items ≡ values_of grammar.now) }
{
    let mut values = Vec::new(alloc);
    for parameter in grammar.parameters.as_slice() {
        values.push(parameter.name.clone()?)?;
    }
    Ok(values)
}

/// The text, the line `---`, and the blocks.
fn joined(text: String, blocks: &[u8]) -> Result<(usize, Vec<u8>), AllocError>
    ensures length { IfOk result (λ both. both.0 ≡ length (string_bytes text)) }
    ensures whole { IfOk result (λ both. both.1.items ≡ string_bytes text ++ (codes "---" ++ 10 ∷ blocks.now)) }
{
    let text_len = text.len();
    let mut output = text.into_bytes();
    output.extend_from_slice(b"---\n")?;
    output.extend_from_slice(blocks)?;
    Ok((text_len, output))
}

/// The status that tells of a refused emission.
fn refused(error: EmitError) -> Status
    ensures stops { IsOfFile result }
    ensures grammar { IsOfLowered result }
    ensures refusal { IsRefusal error result }
    ensures no_line { IsOfNoLine result }
{
    match error {
        EmitError::Memory => Status::Memory,
        error => Status::Refused(error),
    }
}
