//! The lines of an action that calls inlined actions.

ghost use Rattle.std.specs.Prelude.{◌≡◌, IfOk, OnOk};
ghost use Rattle.std.specs.Option.{option_map};
ghost use Rattle.lp_view.specs.PartLists.{listed};
ghost use Rattle.lp_maker.specs.Making.{making};
ghost use Rattle.lp_bodies.specs.Actions.{body_of, body_of_lines};
ghost use Rattle.lp_bodies.specs.Lines.{lines_of};
ghost use Rattle.lp_bodies.specs.Inlining.{side, dotted, place_value, inline_span, argument_row, call_arguments, action_call, ends_so, is_tried, inlined_value, inlined_names, spanned, inline_call, is_inline_call, is_outer_call, is_wrapped_call, outer_line, inline_line, inline_lines};

use crate::lines::push_let;
use lp_core::{Expr, Join, Op, Tag};
use lp_form::Part;
use lp_maker::forms::{Form, is_a};
use lp_maker::maker::Maker;
use lp_maker::scope::Scope;
use lp_maker::texts::{after_front, begins, cut_at, numbered};
use std::alloc::AllocError;

/// The lines of the body: lets, and at last the value.
pub fn inline_body<'p>(
    maker: &Maker<'p>,
    scope: &mut Scope,
    body: Form<'p>,
) -> Result<Expr, AllocError>
    ensures { IfOk result (λ v. body_of v scope.new ≡ body_of_lines (inline_lines (making maker.now) scope.old (listed body.entry))) }
{
    let mut parts = Vec::new(maker.alloc);
    for line in body.parts() {
        inline_line(maker, scope, line, &mut parts)?;
    }
    Ok(Expr::block(parts))
}

fn inline_line<'p>(
    maker: &Maker<'p>,
    scope: &mut Scope,
    line: Form<'p>,
    parts: &mut Vec<Expr>,
) -> Result<(), AllocError>
    ensures { OnOk result (lines_of scope.new parts.new.items ≡ inline_line (making maker.now) (lines_of scope.old parts.old.items) (listed line.entry)) }
{
    if is_a(Part::InlineSpan, line) {
        inline_span(maker, scope, line, parts)
    } else if is_inline_call(line) {
        inline_call(maker, scope, line, parts)
    } else {
        let value = outer_line(maker, scope, line)?;
        parts.push(value)?;
        Ok(())
    }
}

fn is_inline_call(line: Form<'_>) -> bool
    ensures { result ≡ is_inline_call (listed line.entry) }
{
    is_a(Part::InlineCall, line) || is_a(Part::InlineCallTyped, line)
}

fn is_outer_call(line: Form<'_>) -> bool
    ensures { result ≡ is_outer_call (listed line.entry) }
{
    is_a(Part::OuterCall, line) || is_a(Part::OuterCallTyped, line)
}

fn is_wrapped_call(line: Form<'_>) -> bool
    ensures { result ≡ is_wrapped_call (listed line.entry) }
{
    is_a(Part::OuterCallOk, line) || is_a(Part::OuterCallOkTyped, line)
}

// The last line: the call of the action that the others are inlined into.
fn outer_line<'p>(maker: &Maker<'p>, scope: &Scope, line: Form<'p>) -> Result<Expr, AllocError>
    ensures { IfOk result (λ v. v ≡ outer_line (making maker.now) scope.now (listed line.entry)) }
{
    if is_outer_call(line) {
        action_call(maker, scope, line, 0)
    } else if is_wrapped_call(line) {
        let call = action_call(maker, scope, line, 0)?;
        maker.apply(Op::Wrap(Tag::Success), call)
    } else {
        Ok(Expr::stuck())
    }
}

// `let ~startN = ..; let ~endN = ..;`
fn inline_span<'p>(
    maker: &Maker<'p>,
    scope: &mut Scope,
    line: Form<'p>,
    parts: &mut Vec<Expr>,
) -> Result<(), AllocError>
    ensures { OnOk result (lines_of scope.new parts.new.items ≡ inline_span (making maker.now).prefix (listed line.entry) (lines_of scope.old parts.old.items)) }
{
    let number = line.hole(0);
    let start = place_value(maker, scope, line.hole(1))?;
    push_let(maker, scope, "~start", number, start, parts)?;
    let end = place_value(maker, scope, line.hole(2))?;
    push_let(maker, scope, "~end", number, end, parts)?;
    Ok(())
}

// `~j.0`, `~j.2`, `*~lookbehind` or `*~lookahead`.
fn place_value<'p>(maker: &Maker<'p>, scope: &Scope, text: &str) -> Result<Expr, AllocError>
    ensures { IfOk result (λ v. v ≡ place_value (making maker.now).prefix scope.now text.now) }
{
    match after_front("*", text) {
        None => dotted(maker, scope, cut_at(".", text)),
        Some(name) => maker.written(scope, name),
    }
}

fn dotted<'p>(
    maker: &Maker<'p>,
    scope: &Scope,
    cut: Option<(&str, &str)>,
) -> Result<Expr, AllocError>
    ensures { IfOk result (λ v. v ≡ dotted (making maker.now).prefix scope.now (option_map (λ p. (p.0.now, p.1.now)) cut.entry)) }
{
    match cut {
        None => Ok(Expr::stuck()),
        Some((name, place)) => {
            let value = maker.written(scope, name)?;
            side(maker, value, place)
        }
    }
}

fn side<'p>(maker: &Maker<'p>, value: Expr, place: &str) -> Result<Expr, AllocError>
    ensures { IfOk result (λ v. v ≡ side value place.now) }
{
    if begins("0", place) {
        maker.apply(Op::Part(0), value)
    } else if begins("2", place) {
        maker.apply(Op::Part(2), value)
    } else {
        Ok(Expr::stuck())
    }
}

// A call of an action function, whose number stands in this hole.
fn action_call<'p>(
    maker: &Maker<'p>,
    scope: &Scope,
    line: Form<'p>,
    hole: usize,
) -> Result<Expr, AllocError>
    ensures { IfOk result (λ v. v ≡ action_call hole (making maker.now) scope.now (listed line.entry)) }
{
    let args = call_arguments(maker, scope, line)?;
    maker.call("super::action", line.hole(hole), args)
}

fn call_arguments<'p>(
    maker: &Maker<'p>,
    scope: &Scope,
    line: Form<'p>,
) -> Result<Vec<Expr>, AllocError>
    ensures { IfOk result (λ args. args.items ≡ call_arguments (making maker.now).prefix scope.now (listed line.entry)) }
{
    let mut args = Vec::new(maker.alloc);
    for row in line.parts() {
        argument_row(maker, scope, row, &mut args)?;
    }
    Ok(args)
}

// A row of a call is an argument, or it is none.
fn argument_row<'p>(
    maker: &Maker<'p>,
    scope: &Scope,
    row: Form<'p>,
    args: &mut Vec<Expr>,
) -> Result<(), AllocError>
    ensures { OnOk result (args.new.items ≡ argument_row (making maker.now).prefix scope.now args.old.items (listed row.entry)) }
{
    if is_a(Part::ArgumentRow, row) {
        let value = maker.written(scope, row.hole(0))?;
        args.push(value)?;
        Ok(())
    } else {
        Ok(())
    }
}

// Whether a call ends with `?`.
fn is_tried(line: Form<'_>) -> bool
    ensures { result ≡ is_tried (listed line.entry) }
{
    let mut found = false;
    for row in line.parts() {
        found = ends_so(found, row);
    }
    found
}

fn ends_so(found: bool, row: Form<'_>) -> bool
    ensures { result ≡ ends_so found (listed row.entry) }
{
    found || is_a(Part::CallEndFallible, row)
}

// What an inlined action answers.
fn inlined_value<'p>(
    maker: &Maker<'p>,
    scope: &mut Scope,
    line: Form<'p>,
) -> Result<Expr, AllocError>
    ensures value { IfOk result (λ v. v ≡ inlined_value (making maker.now) scope.old (listed line.entry)) }
    ensures names { OnOk result (scope.new ≡ inlined_names scope.old (listed line.entry)) }
{
    let call = action_call(maker, scope, line, 1)?;
    if is_tried(line) {
        maker.tried(scope, call)
    } else {
        Ok(call)
    }
}

// The value in a slot, with the span of the line's number.
fn spanned<'p>(
    maker: &Maker<'p>,
    scope: &Scope,
    line: Form<'p>,
    slot: usize,
) -> Result<Expr, AllocError>
    ensures { IfOk result (λ v. v ≡ spanned slot (listed line.entry) scope.now) }
{
    let number = line.hole(0);
    let start = numbered(maker.alloc, "~start", number)?;
    let end = numbered(maker.alloc, "~end", number)?;
    let triple = vec![in maker.alloc;
        maker.name(scope, start.as_str()),
        Expr::take(slot),
        maker.name(scope, end.as_str()),
    ]?;
    Ok(Expr::join(Join::Make(Tag::Tuple), triple))
}

// `let ~tempN = ..; let ~tempN = (~startN, ~tempN, ~endN);`
fn inline_call<'p>(
    maker: &Maker<'p>,
    scope: &mut Scope,
    line: Form<'p>,
    parts: &mut Vec<Expr>,
) -> Result<(), AllocError>
    ensures { OnOk result (lines_of scope.new parts.new.items ≡ inline_call (making maker.now) (listed line.entry) (lines_of scope.old parts.old.items)) }
{
    let number = line.hole(0);
    let value = inlined_value(maker, scope, line)?;
    let slot = push_let(maker, scope, "~temp", number, value, parts)?;
    let triple = spanned(maker, scope, line, slot)?;
    push_let(maker, scope, "~temp", number, triple, parts)?;
    Ok(())
}
