//! What a step itself takes off a text.

ghost use Rattle.std.specs.Prelude.{◌≡◌, ℕ, List, map, length, IfOk, IfSome};
ghost use Rattle.std.specs.Bool.{OnTrue};
ghost use Rattle.lp_form.specs.Templates.{piece, holes_of};
ghost use Rattle.lp_form.specs.declared.template.Step.TheVariants as step_of;
ghost use Rattle.lp_spelling.specs.Lines.{line_of};
ghost use Rattle.lp_program.specs.OwnLines.{hole};
ghost use Rattle.lp_spelling.specs.Cursors.{left, IsTaken};
ghost use Rattle.lp_program.specs.CodeReading.{IsUse, IsCode};
ghost use Rattle.lp_program.specs.Reads.{TakesLine, TakesLines};
ghost use Rattle.lp_program.specs.Growing.{Grows, MayBecome};
ghost use Rattle.lp_program.specs.Looking.{AnswersLine, OfLines};
ghost use Rattle.lp_program.specs.Nearby.{next_number};
ghost use Rattle.lp_program.specs.Starting.{OfNewLook, StepStarts};
ghost use Rattle.lp_program.specs.Telling.{told, TellsLine, TellsLines, TellsText, AnswersLines, AnswersPlace};

use crate::read::taking::{take_code, take_use};
use lp_form::Part;
use lp_form::template::Piece as LinePart;
use lp_spelling::cursor::Cursor;
use lp_spelling::line::{Scope, read_line};
use lp_tree::piece::Piece;
use std::alloc::AllocError;
use std::borrow::CowStr;

/// A part that is being read: what its holes and its table hold so far.
#[derive(Drop)]
pub(crate) struct Growing<'t> {
    pub(crate) part: Part,
    pub(crate) holes: Vec<Piece<'t>>,
    pub(crate) numbers: Vec<i32>,
    /// Whether its table was read.
    pub(crate) tabled: bool,
}

/// Whether the next line is spelled by the pieces. The holes that it tells are added to those that are
/// known.
pub(crate) fn line_fits<'t>(
    scope: Scope<'_>,
    pieces: &[LinePart],
    known: &mut Vec<Piece<'t>>,
    cursor: Cursor<'t>,
) -> Result<bool, AllocError>
    ensures { IfOk result (λ b. OfLines (left cursor.entry) (AnswersLine scope.entry.prefix.now scope.entry.kinds.now (map piece pieces.now) known.old.items known.new.items b)) }
{
    match cursor.line() {
        Some(line) => read_line(scope, pieces, known, line),
        None => Ok(false),
    }
}

/// Takes a line that the pieces spell, and gives the place behind it.
pub(crate) fn line_step<'t>(
    scope: Scope<'_>,
    pieces: &[LinePart],
    growing: &mut Growing<'t>,
    cursor: Cursor<'t>,
) -> Result<Option<Cursor<'t>>, AllocError>
    requires { scope.kinds.now ≡ holes_of growing.old.part }
    ensures same { IfOk result (λ r. IfSome r (IsTaken cursor.entry)) }
    ensures grows { IfOk result (λ r. IfSome r (λ next. Grows scope.entry.prefix.now growing.old growing.new)) }
    ensures takes { IfOk result (λ r. IfSome r (λ next. (c : _) → MayBecome growing.new c → TakesLine (line_of scope.entry.prefix.now c.holes (map piece pieces.now)) (left cursor.entry) (left next))) }
    ensures tells { IfOk result (AnswersPlace (λ new rest. TellsLine scope.entry.prefix.now scope.entry.kinds.now (map piece pieces.now) (told growing.old) new (left cursor.entry) rest) growing.new) }
{
    let Some(line) = cursor.line() else {
        return Ok(None);
    };
    if !read_line(scope, pieces, &mut growing.holes, line)? {
        return Ok(None);
    }
    Ok(Some(cursor.after_line()))
}

/// Takes so many lines of one spelling, and gives the place behind them, and whether all were there.
pub(crate) fn lines_step<'t>(
    scope: Scope<'_>,
    count: usize,
    pieces: &[LinePart],
    growing: &mut Growing<'t>,
    cursor: Cursor<'t>,
) -> Result<(Cursor<'t>, bool), AllocError>
    requires { scope.kinds.now ≡ holes_of growing.old.part }
    ensures same { IfOk result (λ r. IsTaken cursor.entry r.0) }
    ensures grows { IfOk result (λ r. OnTrue r.1 (Grows scope.entry.prefix.now growing.old growing.new)) }
    ensures takes { IfOk result (λ r. OnTrue r.1 ((c : _) → MayBecome growing.new c → TakesLines count (line_of scope.entry.prefix.now c.holes (map piece pieces.now)) (left cursor.entry) (left r.0))) }
    ensures tells { IfOk result (λ r. AnswersLines cursor.entry (λ text new rest. TellsLines count scope.entry.prefix.now scope.entry.kinds.now (map piece pieces.now) (told growing.old) new text rest) r.1 growing.new r.0) }
    ensures begun { IfOk result (λ r. (blanks : ℕ) → OfNewLook (next_number cursor.entry) cursor.entry (next_number r.0) (StepStarts scope.entry.prefix.now growing.old count (step_of.Each blanks, map piece pieces.now))) }
{
    let mut place = cursor;
    for _i in 0..count {
        let Some(next) = line_step(scope, pieces, growing, place)? else {
            return Ok((place, false));
        };
        place = next;
    }
    Ok((place, true))
}

/// Takes the use of a part that has no other hole.
pub(crate) fn use_step<'t>(
    growing: &mut Growing<'t>,
    cursor: Cursor<'t>,
) -> Result<Option<Cursor<'t>>, AllocError>
    requires kinds { length (holes_of growing.old.part) ≡ 0 }
    requires first { length growing.old.holes.items ≡ 0 }
    ensures same { IfOk result (λ r. IfSome r (IsTaken cursor.entry)) }
    ensures grows { IfOk result (λ r. IfSome r (λ next. (prefix : List ℕ) → Grows prefix growing.old growing.new)) }
    ensures takes { IfOk result (λ r. IfSome r (λ next. (c : _) → MayBecome growing.new c → IsUse (left cursor.entry) (hole c 0) (left next))) }
    ensures tells { IfOk result (AnswersPlace (TellsText growing.old.part (IsUse (left cursor.entry)) (told growing.old)) growing.new) }
{
    let Some(taken) = take_use(cursor) else {
        return Ok(None);
    };
    growing
        .holes
        .push(Piece::new(CowStr::Borrowed(taken.text)))?;
    Ok(Some(taken.next))
}

/// Takes the code of a part that has no other hole.
pub(crate) fn code_step<'t>(
    growing: &mut Growing<'t>,
    cursor: Cursor<'t>,
) -> Result<Option<Cursor<'t>>, AllocError>
    requires kinds { length (holes_of growing.old.part) ≡ 0 }
    requires first { length growing.old.holes.items ≡ 0 }
    ensures same { IfOk result (λ r. IfSome r (IsTaken cursor.entry)) }
    ensures grows { IfOk result (λ r. IfSome r (λ next. (prefix : List ℕ) → Grows prefix growing.old growing.new)) }
    ensures takes { IfOk result (λ r. IfSome r (λ next. (c : _) → MayBecome growing.new c → IsCode (left cursor.entry) (hole c 0) (left next))) }
    ensures tells { IfOk result (AnswersPlace (TellsText growing.old.part (IsCode (left cursor.entry)) (told growing.old)) growing.new) }
{
    let Some(taken) = take_code(cursor) else {
        return Ok(None);
    };
    growing
        .holes
        .push(Piece::new(CowStr::Borrowed(taken.text)))?;
    Ok(Some(taken.next))
}
