//! Reading a program, with all that its text and a refusal tell.

ghost use Rattle.std.specs.Prelude.{IfErr, IfOk};
ghost use Rattle.lp_program.specs.Choosing.{IsProgramOf, IsRefused};
ghost use Rattle.lp_viable.specs.Misfits.{TellsMisfit};

use lp_program::{Program, ReadFault};
use std::alloc::Global;

/// The program that a text is read as, as `read_program` of lp_program answers it. Where it is
/// refused, the lines before the one that is named go on to a program, and with that line none does,
/// whatever the prefix.
pub fn read_program<'t>(alloc: Global, text: &'t str) -> Result<Program<'t>, ReadFault>
    ensures program { IfOk result (IsProgramOf text.now) }
    ensures refused { IfErr result (IsRefused text.now) }
    ensures misfit { IfErr result (TellsMisfit text.now) }
{
    lp_program::read_program(alloc, text)
}
