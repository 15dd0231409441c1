//! The runs of a parser text.

ghost use Rattle.std.specs.Prelude.{◌≡◌, ◌++◌, [], string_bytes, IfOk, IfErr, OnOk, None, Some};
ghost use Rattle.lp_lines.specs.Blocks.{block_text};
ghost use Rattle.lp_text_run.specs.Blocks.{AreRuns, IsLineFault, IsRunFault, RunsLine};
ghost use Rattle.lp_text_run.specs.Courses.{Course};

use lp_driver::RunError;
use lp_lines::{Block, TokenLine, append_block};
use lp_program::{Program, ReadFault};
use lp_repr::Text;
use lp_run::{Run, run_program};
use lp_viable::read_program;
use std::alloc::{AllocError, Global};

/// Why a text has no runs.
#[derive(Clone, Copy)]
pub enum TextRunFault {
    /// The text reads as no program; the line, counted from 1, is the first that fits no form, or one
    /// past the last.
    NoForm { line: usize },
    /// No parse module has the start of this token line, counted from 1.
    NoStart { line: usize },
    /// The program of this token line, counted from 1, takes another number of parameters.
    ParameterCount { line: usize },
    Memory,
}

impl From<AllocError> for TextRunFault {
    ghost use Rattle.lp_text_run.specs.declared.text_run.TextRunFault.TheVariants.{Memory};

    ghost from_gives = { λ _ e. e ≡ Memory };

    fn from(_error: AllocError) -> TextRunFault {
        TextRunFault::Memory
    }
}

/// The blocks of the token lines, numbered from 1: each has the events, the outcome and the number
/// of steps of the program that the text is read as. A run that is stuck gives a block without
/// events, with the outcome `stuck` and the steps made until then.
pub fn run_text(
    alloc: Global,
    text: &str,
    lines: &[TokenLine],
    params: &[Text],
) -> Result<Vec<u8>, TextRunFault>
    ensures blocks { IfOk result (λ blocks. AreRuns text.now params.now lines.now blocks.items) }
    ensures fault { IfErr result (IsRunFault text.now params.now lines.now) }
{
    let program = match read_program(alloc, text) {
        Ok(program) => program,
        Err(ReadFault::NoForm { line }) => return Err(TextRunFault::NoForm { line }),
        Err(ReadFault::Memory) => return Err(TextRunFault::Memory),
    };
    let mut out = String::new(alloc);
    for (i, line) in lines.iter().enumerate() {
        run_line(alloc, &program, i + 1, line, params, &mut out)?;
    }
    Ok(out.into_bytes())
}

fn run_line(
    alloc: Global,
    program: &Program<'_>,
    number: usize,
    line: &TokenLine,
    params: &[Text],
    out: &mut String,
) -> Result<(), TextRunFault>
    ensures block { OnOk result ((course : Course) × RunsLine program.now params.now line.now course × (string_bytes out.new ≡ string_bytes out.old ++ block_text number line.now.start course.events course.outcome (Some course.steps))) }
    ensures fault { IfErr result (IsLineFault program.now params.now line.now number) }
{
    let start = line.start.as_str();
    let items = line.items.as_slice();
    let failing = line.failing.as_slice();
    match run_program(alloc, program, start, items, params, failing, line.budget) {
        Ok(run) => append_run(out, number as u64, start, &run)?,
        Err(RunError::Stuck { steps }) => append_stuck(out, number as u64, start, steps)?,
        Err(RunError::NoStart) => return Err(TextRunFault::NoStart { line: number }),
        Err(RunError::ParameterCount) => return Err(TextRunFault::ParameterCount { line: number }),
        Err(RunError::Memory) => return Err(TextRunFault::Memory),
    }
    Ok(())
}

/// Appends the block of a run.
fn append_run(out: &mut String, number: u64, start: &str, run: &Run) -> Result<(), AllocError>
    ensures { OnOk result (string_bytes out.new ≡ string_bytes out.old ++ block_text number start.now run.now.events (Some run.now.outcome) (Some run.now.steps)) }
{
    let events = run.events.as_slice();
    let outcome = Some(&run.outcome);
    let block = Block {
        number,
        start,
        events,
        outcome,
        steps: Some(run.steps),
    };
    append_block(out, &block)
}

/// Appends the block of a run that is stuck.
fn append_stuck(out: &mut String, number: u64, start: &str, steps: u64) -> Result<(), AllocError>
    ensures { OnOk result (string_bytes out.new ≡ string_bytes out.old ++ block_text number start.now [] None (Some steps)) }
{
    let outcome = None;
    let block = Block {
        number,
        start,
        events: &[],
        outcome,
        steps: Some(steps),
    };
    append_block(out, &block)
}
