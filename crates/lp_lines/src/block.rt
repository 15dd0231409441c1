//! The block of a run.

ghost use Rattle.std.specs.Prelude.{◌≡◌, ◌++◌, OnOk, option_copied, string_bytes};
ghost use Rattle.std.specs.Fmt.{WritesOnOk};
ghost use Rattle.lp_lines.specs.Blocks.{block_text, ending_text, events_text, head_text, line_text, steps_text};

use lp_repr::values::{Event, Outcome};
use std::alloc::{AllocError, Global};
use std::fmt;
use std::fmt::Display;

/// The run of a token line, as it is printed.
#[derive(Clone, Copy)]
pub struct Block<'r> {
    /// The number of the line.
    pub number: u64,
    /// The public name.
    pub start: &'r str,
    pub events: &'r [Event],
    /// None where the run is stuck.
    pub outcome: Option<&'r Outcome>,
    /// How many steps the run made, where that is printed.
    pub steps: Option<u64>,
}

impl fmt::Display for Block<'_> {
    ghost use Rattle.std.specs.Prelude.{Some, option_copied};
    ghost use Rattle.lp_lines.specs.Blocks.{block_text};

    ghost output = { λ b. Some (block_text b.number b.start.now b.events.now (option_copied b.outcome) b.steps) };

    /// `run {n} {start}`, a line per event, the outcome or `stuck`, and `steps {n}`.
    fn fmt<W: fmt::Write>(&self, f: &mut fmt::Formatter<W>) -> fmt::Result {
        write_head(f, self.number, self.start)?;
        write_events(f, self.events)?;
        write_ending(f, self.outcome)?;
        write_steps(f, self.steps)
    }
}

/// `run {n} {start}`
fn write_head<W: fmt::Write>(f: &mut fmt::Formatter<W>, number: u64, start: &str) -> fmt::Result
    ensures { WritesOnOk W.write_str_gives f.old result (line_text (head_text number start.now)) f.new }
{
    f.write_str("run ")?;
    number.fmt(f)?;
    f.write_str(" ")?;
    f.write_str(start)?;
    f.write_str("\n")
}

/// A line for each call of user code.
fn write_events<W: fmt::Write>(f: &mut fmt::Formatter<W>, events: &[Event]) -> fmt::Result
    ensures { WritesOnOk W.write_str_gives f.old result (events_text events.now) f.new }
{
    for event in events {
        event.fmt(f)?;
        f.write_str("\n")?;
    }
    Ok(())
}

/// The outcome, or `stuck`.
fn write_ending<W: fmt::Write>(f: &mut fmt::Formatter<W>, outcome: Option<&Outcome>) -> fmt::Result
    ensures { WritesOnOk W.write_str_gives f.old result (line_text (ending_text (option_copied outcome.entry))) f.new }
{
    match outcome {
        None => f.write_str("stuck")?,
        Some(outcome) => outcome.fmt(f)?,
    }
    f.write_str("\n")
}

/// `steps {n}`, where it is printed.
fn write_steps<W: fmt::Write>(f: &mut fmt::Formatter<W>, steps: Option<u64>) -> fmt::Result
    ensures { WritesOnOk W.write_str_gives f.old result (steps_text steps) f.new }
{
    match steps {
        None => Ok(()),
        Some(steps) => {
            f.write_str("steps ")?;
            steps.fmt(f)?;
            f.write_str("\n")
        }
    }
}

/// Appends the block of a run.
pub fn append_block(out: &mut String, block: &Block<'_>) -> Result<(), AllocError>
    ensures { OnOk result (string_bytes out.new ≡ string_bytes out.old ++ block_text block.now.number block.now.start.now block.now.events.now (option_copied block.now.outcome) block.now.steps) }
{
    write!(out, "{block}")?;
    Ok(())
}
