//! Which holes of a part are told.

ghost use Rattle.std.specs.Prelude.{◌≡◌, ◌==◌, ◌≤◌, ◌&&◌, length};
ghost use Rattle.lp_form.specs.Templates.{holes_of, steps_of};
ghost use Rattle.lp_program.specs.Reads.{hole_count, is_text_step, text_steps};

use crate::read::growing::Growing;
use lp_form::{Part, Step, holes, steps};

/// One for a step that is a text of its own.
fn text_step(step: Step) -> usize
    ensures value { result ≡ is_text_step step }
    ensures bound { result ≤ 1 }
{
    match step {
        Step::Use => 1,
        Step::Code => 1,
        _ => 0,
    }
}

/// How many steps of a part are texts of their own.
fn text_count(part: Part) -> usize
    ensures { result ≡ text_steps (steps_of part) }
{
    let mut count = 0usize;
    for step in steps(part) {
        count += text_step(step.0);
    }
    count
}

/// Whether all holes of a part are told, and no others.
pub(crate) fn is_told(growing: &Growing<'_>) -> bool
    ensures { result ≡ (length growing.now.holes.items == hole_count growing.now.part) }
{
    let told = growing.holes.len();
    let texts = text_count(growing.part);
    texts <= told && told - texts == holes(growing.part).len()
}

/// Whether a part that is being read has no hole that a line tells, and none so far.
pub(crate) fn is_blank_part(growing: &Growing<'_>) -> bool
    ensures { result ≡ ((length (holes_of growing.now.part) == 0) && (length growing.now.holes.items == 0)) }
{
    holes(growing.part).is_empty() && growing.holes.is_empty()
}
