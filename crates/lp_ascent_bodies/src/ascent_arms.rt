//! Recursive ascent: the arms of a state function's match on the lookahead.

ghost use Rattle.std.specs.Prelude.{◌≡◌, ◌+◌, ◌<◌, ◌^◌, IfOk, OnOk};
ghost use Rattle.std.specs.Option.{option_map};
ghost use Rattle.lp_view.specs.PartLists.{listed};
ghost use Rattle.lp_maker.specs.Making.{making};
ghost use Rattle.lp_bodies.specs.Arms.{gathered};
ghost use Rattle.lp_bodies.specs.Lines.{lines_of};
ghost use Rattle.lp_bodies.specs.Reductions.{done_of};
ghost use Rattle.lp_bodies.specs.Tables.{reading_of};
ghost use Rattle.lp_ascent_bodies.specs.AscentArms.{arming_of, token_case, shift_value, shifted, token_parts, shift_lines, shift_arm, is_token, case_row, first_case, reduce_cases, lines_below, found_reduce, reduce_arm};

use crate::ascent::{Lines, found_transition};
use crate::ascent_reduce::ascent_reduce;
use lp_bodies::arms::Arms;
use lp_bodies::lines::push_let;
use lp_bodies::table::captured;
use lp_core::{Case, Expr, Join, Op, Place, Tag, Test};
use lp_form::Part;
use lp_maker::forms::{Form, first, is_a};
use lp_maker::maker::Maker;
use lp_maker::patterns::form_of;
use lp_maker::scope::Scope;
use lp_maker::texts::parted;
use std::alloc::AllocError;

// A test of the token inside for a pattern, which leads to the next body.
fn token_case<'p>(maker: &mut Maker<'p>, pattern: &str, arms: &mut Arms) -> Result<(), AllocError>
    ensures { OnOk result (reading_of (gathered arms.new) (making maker.new) ≡ token_case pattern.now (reading_of (gathered arms.old) (making maker.old))) }
{
    let form = form_of(maker.alloc, maker.prefix, pattern)?;
    let form = maker.text(form)?;
    let body = arms.bodies.len();
    arms.cases.push(Case {
        place: Place::TokenInside,
        test: Test::Form(form),
        body,
    })?;
    Ok(())
}

/// The shift of a terminal.
pub fn shift_arm<'p>(
    maker: &mut Maker<'p>,
    scope: &mut Scope,
    lines: Lines,
    line: Form<'p>,
    arms: &mut Arms,
) -> Result<(), AllocError>
    ensures { OnOk result (arming_of scope.new (gathered arms.new) (making maker.new) ≡ shift_arm lines (listed line.entry) (arming_of scope.old (gathered arms.old) (making maker.old))) }
{
    let mark = scope.open();
    let parts = shift_lines(maker, scope, lines, line)?;
    scope.close(mark);
    token_case(maker, line.hole(0), arms)?;
    arms.body(Expr::block(parts))
}

// The symbol of the token, and the move to another state.
fn shift_lines<'p>(
    maker: &Maker<'p>,
    scope: &mut Scope,
    lines: Lines,
    line: Form<'p>,
) -> Result<Vec<Expr>, AllocError>
    ensures { IfOk result (λ parts. lines_of scope.new parts.items ≡ shift_lines (making maker.now) lines scope.old (listed line.entry)) }
{
    let mut parts = Vec::new(maker.alloc);
    let start = token_parts(maker, scope, lines, &mut parts)?;
    let triple = shifted(maker, start, line)?;
    push_let(maker, scope, "~sym", line.hole(1), triple, &mut parts)?;
    found_transition(maker, scope, lines, first(line), &mut parts)?;
    Ok(parts)
}

// Puts the lookahead's parts into three slots, the first of which is answered.
fn token_parts<'p>(
    maker: &Maker<'p>,
    scope: &mut Scope,
    lines: Lines,
    parts: &mut Vec<Expr>,
) -> Result<usize, AllocError>
    ensures slot { IfOk result (λ slot. slot ≡ scope.old.next) }
    ensures fits { IfOk result (λ slot. slot + 2 < 2 ^ 64) }
    ensures lines { OnOk result (lines_of scope.new parts.new.items ≡ token_parts lines (lines_of scope.old parts.old.items)) }
{
    let triple = maker.apply(Op::Part(0), Expr::read(lines.lookahead))?;
    let (start, unpacked) = maker.unpack(scope, 3, triple)?;
    parts.push(unpacked)?;
    Ok(start)
}

// `(~loc1, .., ~loc2)`.
fn shifted<'p>(maker: &Maker<'p>, start: usize, line: Form<'p>) -> Result<Expr, AllocError>
    requires { start + 2 < 2 ^ 64 }
    ensures { IfOk result (λ v. v ≡ shifted (making maker.now).prefix start (listed line.entry)) }
{
    let value = shift_value(maker, start + 1, line)?;
    let end = Expr::read(start + 2);
    let triple = vec![in maker.alloc; Expr::read(start), value, end]?;
    Ok(Expr::join(Join::Make(Tag::Tuple), triple))
}

// What is shifted of the token in a slot: the whole, or what its names capture.
fn shift_value<'p>(maker: &Maker<'p>, token: usize, line: Form<'p>) -> Result<Expr, AllocError>
    ensures { IfOk result (λ v. v ≡ shift_value (making maker.now).prefix token (listed line.entry)) }
{
    if is_a(Part::ShiftWhole, line) {
        Ok(Expr::read(token))
    } else {
        let names = parted(maker.alloc, line.hole(2), ", ")?;
        captured(maker, token, line.hole(0), names.as_slice())
    }
}

/// A reduction, on its tokens.
pub fn reduce_arm<'p>(
    maker: &mut Maker<'p>,
    scope: &mut Scope,
    lines: Lines,
    line: Form<'p>,
    arms: &mut Arms,
) -> Result<(), AllocError>
    ensures { OnOk result (arming_of scope.new (gathered arms.new) (making maker.new) ≡ reduce_arm lines (listed line.entry) (arming_of scope.old (gathered arms.old) (making maker.old))) }
{
    reduce_cases(maker, line, arms)?;
    let body = found_reduce(maker, scope, lines, lines_below(line))?;
    arms.body(body)
}

// The tests for the tokens of a reduction.
fn reduce_cases<'p>(
    maker: &mut Maker<'p>,
    line: Form<'p>,
    arms: &mut Arms,
) -> Result<(), AllocError>
    ensures { OnOk result (reading_of (gathered arms.new) (making maker.new) ≡ reduce_cases (listed line.entry) (reading_of (gathered arms.old) (making maker.old))) }
{
    first_case(maker, line, arms)?;
    for row in line.parts() {
        case_row(maker, row, arms)?;
    }
    Ok(())
}

fn first_case<'p>(maker: &mut Maker<'p>, line: Form<'p>, arms: &mut Arms) -> Result<(), AllocError>
    ensures { OnOk result (reading_of (gathered arms.new) (making maker.new) ≡ first_case (listed line.entry) (reading_of (gathered arms.old) (making maker.old))) }
{
    if is_a(Part::ReduceEnd, line) {
        arms.case(Test::Is(Tag::Absent))
    } else {
        token_case(maker, line.hole(0), arms)
    }
}

fn is_token(row: Form<'_>) -> bool
    ensures { result ≡ is_token (listed row.entry) }
{
    is_a(Part::TokenRow, row) || is_a(Part::LastToken, row)
}

// A row may be a further token, or the end.
fn case_row<'p>(maker: &mut Maker<'p>, row: Form<'p>, arms: &mut Arms) -> Result<(), AllocError>
    ensures { OnOk result (reading_of (gathered arms.new) (making maker.new) ≡ case_row (reading_of (gathered arms.old) (making maker.old)) (listed row.entry)) }
{
    if is_token(row) {
        token_case(maker, row.hole(0), arms)
    } else if is_a(Part::LastEnd, row) {
        arms.case(Test::Is(Tag::Absent))
    } else {
        Ok(())
    }
}

// The lines of a reduction below its arm.
fn lines_below(line: Form<'_>) -> Option<Form<'_>>
    ensures { option_map listed result ≡ lines_below (listed line.entry) }
{
    for row in line.parts() {
        if is_a(Part::ReduceLines, row) {
            return Some(row);
        }
    }
    None
}

// The reduction, if its lines are there.
fn found_reduce<'p>(
    maker: &mut Maker<'p>,
    scope: &mut Scope,
    lines: Lines,
    form: Option<Form<'p>>,
) -> Result<Expr, AllocError>
    ensures { IfOk result (λ v. done_of v scope.new (making maker.new) ≡ found_reduce lines (making maker.old) scope.old (option_map listed form.entry)) }
{
    match form {
        None => Ok(Expr::stuck()),
        Some(form) => ascent_reduce(maker, scope, lines, form),
    }
}
