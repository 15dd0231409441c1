//! Programs whose texts may stand where they do.

ghost use Rattle.std.specs.Prelude.{◌↔◌, All, IsTrue, IfOk};
ghost use Rattle.lp_fitting.specs.Fitting.{HolesFit, IsFitting};

use crate::bodies::bodies_suit;
use crate::fills::holes_fill;
use crate::notes::are_notes;
use crate::parted::is_parted;
use lp_form::holes;
use lp_tree::{Entry, Program};
use std::alloc::{AllocError, Global};

/// Whether the texts of a part, and its notes, may stand where they do.
fn is_entry_fitting(alloc: Global, prefix: &str, entry: &Entry<'_>) -> Result<bool, AllocError>
    ensures { IfOk result (λ b. IsTrue b ↔ HolesFit prefix.now entry.now) }
{
    if !are_notes(&entry.notes) {
        return Ok(false);
    }
    if !holes_fill(alloc, prefix, holes(entry.part), &entry.holes)? {
        return Ok(false);
    }
    is_parted(alloc, prefix, entry.part, &entry.holes)
}

/// Whether the texts of all parts, and their notes, may stand where they do.
fn are_fitting(alloc: Global, prefix: &str, entries: &[Entry<'_>]) -> Result<bool, AllocError>
    ensures { IfOk result (λ b. IsTrue b ↔ All (HolesFit prefix.now) entries.now) }
{
    for entry in entries {
        if !is_entry_fitting(alloc, prefix, entry)? {
            return Ok(false);
        }
    }
    Ok(true)
}

/// Whether the texts of a program may stand where they do: its prefix isn't empty, each hole of a
/// part holds what its kind allows, with no pattern empty, they are found again in the lines that
/// they are printed on, each note is comments, of which no line ends with an opening bracket, and each
/// body of an action is told by the last parameter before it, or by its own first line. It doesn't look
/// at the uses and the tables, nor at where user code ends. An `Err` says that memory ran out.
pub fn is_fitting(alloc: Global, program: &Program<'_>) -> Result<bool, AllocError>
    ensures { IfOk result (λ b. IsTrue b ↔ IsFitting program.now) }
{
    let prefix = program.prefix.as_str();
    if prefix.is_empty() {
        return Ok(false);
    }
    let entries = program.entries.as_slice();
    if !are_fitting(alloc, prefix, entries)? {
        return Ok(false);
    }
    bodies_suit(alloc, prefix, entries)
}
