//! Printing a program, with what that leaves.

ghost use Rattle.std.specs.Prelude.{OnOk};
ghost use Rattle.lp_reading_laws.specs.Printing.Printing.{KeepsIndent};
ghost use Rattle.lp_program.specs.Printed.{lines};
ghost use Rattle.lp_write.specs.Writes.{options_of, writing, Writes, write_ending};

use lp_program::Program;
use lp_write::{RustWrite, Sink, WriteError};
use std::alloc::Global;

/// Appends the lines of the program, as `print_program` of lp_program does. Behind a well-formed
/// program the indent is what it was.
pub fn print_program<W: Sink>(
    alloc: Global,
    program: &Program<'_>,
    out: &mut RustWrite<W>,
) -> Result<(), WriteError>
    ensures lines { Writes (write_ending result) (writing W.told out.old) (writing W.told out.new) (lines (options_of out.old) program.now) }
    ensures indent { OnOk result (KeepsIndent (writing W.told out.old) (writing W.told out.new) program.now) }
{
    lp_program::print_program(alloc, program, out)
}
