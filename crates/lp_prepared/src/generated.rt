//! The generated grammar, emitted and run.

ghost use Rattle.std.specs.Prelude.{◌≡◌, ◌++◌, ◌<◌, ℕ, true, false, List, [], Option, Some, IfErr, IfOk, IfSome, IsSome, OnOk, length, string_bytes};
ghost use Rattle.std.specs.BTreeMap.{btree_map_len};
ghost use Rattle.lp_program.specs.Choosing.{IsProgramOf};
ghost use Rattle.lp_prepared.specs.Causes.{IsOfFile};
ghost use Rattle.lp_prepared.specs.LinesTold.{IsOfNoLine};
ghost use Rattle.lp_emit.specs.Causes.{MayBeEmitted};
ghost use Rattle.lp_emit.specs.Texts.{IsEmission};
ghost use Rattle.lp_plain.specs.Front.{LowersTo};
ghost use Rattle.lp_run.specs.ProgramRun.{Finish};
ghost use Rattle.lp_run.specs.RunTold.{RunsProgram, run_finish};
ghost use Rattle.lp_prepared.specs.Command.{looks};
ghost use Rattle.lp_prepared.specs.Outputs.{IsFirstName, IsNeverRefused, IsReport, course_text, first_count, size_text};
ghost use Rattle.lp_prepared.specs.Runs.{IsOver};
ghost use Rattle.lp_prepared.specs.TextTold.{OfFile, OfText, Spells, TellsText};
ghost use Rattle.lp_prepared.specs.Told.{IsAnswered, IsPrepared, Tells};
ghost use Rattle.lp_prepared.specs.declared.command.Command.{Command};

use crate::file::{File, Stop, file_of};
use crate::prepared::{Prepared, emitted, parameter_values};
use lp_driver::RunError;
use lp_generated::{make_items, make_text};
use lp_program::{Program, ReadFault};
use lp_repr::repr::{Grammar, NonterminalString};
use lp_repr::values::RunItem;
use lp_repr::{StartStates, Text};
use lp_run::{Run, run_program};
use lp_status::Status;
use lp_viable::read_program;
use lp_write::Options;
use std::alloc::{AllocError, Global};

/// The most steps of the run.
const BUDGET: u64 = 1_000_000;

/// The output of `make`: the number of states, the length of the text, and the calls, outcome and
/// steps of the program that the text is read as.
pub fn prepare_generated(alloc: Global, levels: u8) -> Result<Prepared, Stop>
    ensures stops { IfErr result (λ stop. IsOfFile stop.status) }
    ensures answered { IfErr result (λ stop. IsAnswered stop.grammar stop.status) }
    ensures told { IfErr result (λ stop. Tells stop.grammar stop.status) }
    ensures no_line { IfErr result (λ stop. IsOfNoLine stop.status) }
    ensures text { (left : Option (List ℕ)) → IfErr result (λ stop. TellsText (Some (Command.Make levels)) left stop.grammar stop.status) }
    ensures spelled { (left : Option (List ℕ)) → IfOk result (λ p. OfFile (Some (Command.Make levels)) left (λ bytes. OfText bytes (Spells p.grammar))) }
    ensures prepared { (left : Option (List ℕ)) → IfOk result (IsPrepared (Some (Command.Make levels)) left) }
{
    let Ok(source) = make_text(alloc, u32::from(levels)) else {
        return Err(Stop::bare(Status::Memory));
    };
    let file = file_of(alloc, source.as_str().as_bytes())?;
    let text = match emitted(alloc, &file, &Options::default()) {
        Ok(text) => text,
        Err(status) => return Err(Stop::with(status, file.plain)),
    };
    let output = match report(alloc, &file, text.as_str(), levels) {
        Ok(output) => output,
        Err(AllocError) => return Err(Stop::bare(Status::Memory)),
    };
    Ok(Prepared {
        grammar: file.plain,
        tables: file.tables,
        text_len: text.len(),
        output: output.into_bytes(),
    })
}

/// The number of the states of the first start.
fn state_count(tables: &[StartStates]) -> usize
    ensures { result ≡ first_count tables.now }
{
    match tables.first() {
        Some(table) => table.states.as_slice().len(),
        None => 0,
    }
}

/// The lines that tell of the text of a generated grammar, and of its run from the first public
/// name, where each parameter has its name as its value.
fn report(alloc: Global, file: &File, text: &str, levels: u8) -> Result<String, AllocError>
    requires lowered { LowersTo file.now.plain file.now.lowered }
    requires emitted { MayBeEmitted file.now.lowered file.now.tables.items }
    requires text { IsEmission file.now.lowered file.now.tables.items (looks false true) text.now }
    ensures { IfOk result (λ output. IsReport file.now.lowered file.now.tables.items levels text.now (length text.now) (string_bytes output)) }
{
    let mut output = sizes(alloc, state_count(file.tables.as_slice()), text.len())?;
    let program = read_back(alloc, text)?;
    let items = make_items(alloc, u32::from(levels))?;
    let values = parameter_values(alloc, &file.lowered)?;
    let start = first_start(&file.lowered).unwrap();
    let run = run_over(
        alloc,
        &program,
        start.0.as_str(),
        items.as_slice(),
        values.as_slice(),
    )?;
    write_run(&mut output, &run)?;
    Ok(output)
}

/// The first public name.
fn first_start(grammar: &Grammar) -> Option<&NonterminalString>
    ensures there { 0 < btree_map_len grammar.now.start_nonterminals → IsSome result }
    ensures first { IfSome result (λ name. IsFirstName grammar.now name.now) }
{
    match grammar.start_nonterminals.iter().nth(0) {
        Some((name, _)) => Some(name),
        None => None,
    }
}

/// The program that a text is read as which is never refused.
fn read_back<'t>(alloc: Global, text: &'t str) -> Result<Program<'t>, AllocError>
    requires { IsNeverRefused text.now }
    ensures { IfOk result (IsProgramOf text.now) }
{
    match read_program(alloc, text) {
        Ok(program) => Ok(program),
        Err(ReadFault::NoForm { .. }) => unreachable!(),
        Err(ReadFault::Memory) => Err(AllocError),
    }
}

/// The run from a public name, which comes to an end or spends its budget.
fn run_over(
    alloc: Global,
    program: &Program<'_>,
    start: &str,
    items: &[RunItem],
    values: &[Text],
) -> Result<Run, AllocError>
    requires { (finish : Finish) → RunsProgram program.now start.now items.now values.now [] 1000000 finish → IsOver finish }
    ensures { IfOk result (λ run. RunsProgram program.now start.now items.now values.now [] 1000000 (run_finish run)) }
{
    match run_program(alloc, program, start, items, values, &[], BUDGET) {
        Ok(run) => Ok(run),
        Err(RunError::Memory) => Err(AllocError),
        Err(RunError::NoStart) => unreachable!(),
        Err(RunError::ParameterCount) => unreachable!(),
        Err(RunError::Stuck { .. }) => unreachable!(),
    }
}

/// The number of states, and the length of the text.
#[tactic(auto, unfolding(crate::specs::Outputs::size_text))]
fn sizes(alloc: Global, states: usize, length: usize) -> Result<String, AllocError>
    ensures { IfOk result (λ output. string_bytes output ≡ size_text states length) }
{
    format!(in alloc; "states {states}\ntext {length}\n")
}

/// Appends what is told of a run.
#[tactic(auto, unfolding(crate::specs::Outputs::course_text))]
fn write_run(output: &mut String, run: &Run) -> Result<(), AllocError>
    ensures { OnOk result (string_bytes output.new ≡ string_bytes output.old ++ course_text run.now.events run.now.outcome run.now.steps) }
{
    let calls = run.events.as_slice().len();
    let outcome = &run.outcome;
    let steps = run.steps;
    write!(output, "calls {calls}\n{outcome}\nsteps {steps}\n")
}
