//! Recursive ascent: reductions and errors.

ghost use Rattle.std.specs.Prelude.{◌≡◌, [], ◌∷◌, Some, length, IfOk, OnOk};
ghost use Rattle.lp_view.specs.PartLists.{listed};
ghost use Rattle.lp_maker.specs.Constructs.{call_function};
ghost use Rattle.lp_maker.specs.Making.{making, with_function};
ghost use Rattle.lp_maker.specs.Slots.{after_slots};
ghost use Rattle.lp_bodies.specs.Lines.{lines_of};
ghost use Rattle.lp_bodies.specs.Reductions.{work_of, done_of};
ghost use Rattle.lp_ascent_bodies.specs.AscentReductions.{top_slot, inner_function, bottom, with_bottom, lookahead_start, with_lookahead_start, bottom_line, ascent_call, ascent_value, ascent_names, ascent_call_line, is_bottom, is_ascent_call, quiet_line, ascent_line, ascent_lines, return_row, returns, made_value, with_made, ascent_reduce};

use crate::ascent::{Lines, give_made, take_line};
pub use crate::ascent_trial::{ascent_accepts, ascent_expected, ascent_simulate};
use lp_bodies::lines::push_let;
use lp_bodies::reduce::{part_closure, span_at, span_popped};
use lp_bodies::source::{default_location, function};
use lp_core::{Expr, Join, Op, Tag};
use lp_form::Part;
use lp_maker::forms::{Form, is_a};
use lp_maker::maker::Maker;
use lp_maker::scope::Scope;
use lp_maker::texts::numbered;
use std::alloc::AllocError;

/// The lines of a reduction, in a block of their own.
pub fn ascent_reduce<'p>(
    maker: &mut Maker<'p>,
    scope: &mut Scope,
    lines: Lines,
    form: Form<'p>,
) -> Result<Expr, AllocError>
    ensures { IfOk result (λ v. done_of v scope.new (making maker.new) ≡ ascent_reduce lines (making maker.old) scope.old (listed form.entry)) }
{
    let mark = scope.open();
    let mut parts = ascent_lines(maker, scope, lines, form)?;
    made_lines(maker, scope, lines, form, &mut parts)?;
    scope.close(mark);
    Ok(Expr::block(parts))
}

fn ascent_lines<'p>(
    maker: &mut Maker<'p>,
    scope: &mut Scope,
    lines: Lines,
    form: Form<'p>,
) -> Result<Vec<Expr>, AllocError>
    ensures { IfOk result (λ parts. work_of (lines_of scope.new parts.items) (making maker.new) ≡ ascent_lines lines (making maker.old) scope.old (listed form.entry)) }
{
    let mut parts = Vec::new(maker.alloc);
    for line in form.parts() {
        ascent_line(maker, scope, lines, line, &mut parts)?;
    }
    Ok(parts)
}

// A line of a reduction.
fn ascent_line<'p>(
    maker: &mut Maker<'p>,
    scope: &mut Scope,
    lines: Lines,
    line: Form<'p>,
    parts: &mut Vec<Expr>,
) -> Result<(), AllocError>
    ensures { OnOk result (work_of (lines_of scope.new parts.new.items) (making maker.new) ≡ ascent_line lines (work_of (lines_of scope.old parts.old.items) (making maker.old)) (listed line.entry)) }
{
    if is_bottom(line) {
        bottom_line(maker, scope, lines, line, parts)
    } else {
        quiet_line(maker, scope, line, parts)
    }
}

fn is_bottom(line: Form<'_>) -> bool
    ensures { result ≡ is_bottom (listed line.entry) }
{
    is_a(Part::AscentFixed, line)
        || (is_a(Part::AscentOptional, line) || is_a(Part::AscentBottom, line))
}

fn is_ascent_call(line: Form<'_>) -> bool
    ensures { result ≡ is_ascent_call (listed line.entry) }
{
    is_a(Part::AscentCall, line) || is_a(Part::AscentCallFallible, line)
}

// A line that makes nothing but lines.
fn quiet_line<'p>(
    maker: &Maker<'p>,
    scope: &mut Scope,
    line: Form<'p>,
    parts: &mut Vec<Expr>,
) -> Result<(), AllocError>
    ensures { OnOk result (lines_of scope.new parts.new.items ≡ quiet_line (making maker.now) (listed line.entry) (lines_of scope.old parts.old.items)) }
{
    if is_a(Part::TakeLine, line) {
        take_line(maker, scope, line, parts)
    } else if is_a(Part::AscentPopped, line) {
        span_popped(maker, scope, line, parts)
    } else if is_ascent_call(line) {
        ascent_call_line(maker, scope, line, parts)
    } else {
        Ok(())
    }
}

/// Whether the lines end with a return.
pub fn returns(form: Form<'_>) -> bool
    ensures { result ≡ returns (listed form.entry) }
{
    let mut found = false;
    for line in form.parts() {
        found = return_row(found, line);
    }
    found
}

fn return_row(found: bool, line: Form<'_>) -> bool
    ensures { result ≡ return_row found (listed line.entry) }
{
    found || is_a(Part::ReturnLine, line)
}

// `let ~nt = ~Nonterminal::..((~start, ~nt, ~end)); ~result = (~lookahead, ~nt);`, and the return.
fn made_lines<'p>(
    maker: &mut Maker<'p>,
    scope: &Scope,
    lines: Lines,
    form: Form<'p>,
    parts: &mut Vec<Expr>,
) -> Result<(), AllocError>
    ensures { OnOk result (work_of (lines_of scope.now parts.new.items) (making maker.new) ≡ with_made lines (listed form.entry) (work_of (lines_of scope.now parts.old.items) (making maker.old))) }
{
    let variant = maker.variant(form.hole(0))?;
    let made = made_value(maker, scope, variant)?;
    let written = maker.write(lines.made, made)?;
    parts.push(written)?;
    if returns(form) {
        let back = give_made(maker, lines)?;
        parts.push(back)?;
        Ok(())
    } else {
        Ok(())
    }
}

// `(~lookahead, ~Nonterminal::..((~start, ~nt, ~end)))`.
fn made_value<'p>(maker: &Maker<'p>, scope: &Scope, variant: Tag) -> Result<Expr, AllocError>
    ensures { IfOk result (λ v. v ≡ made_value variant scope.now) }
{
    let start = maker.name(scope, "~start");
    let value = maker.name(scope, "~nt");
    let end = maker.name(scope, "~end");
    let triple = vec![in maker.alloc; start, value, end]?;
    let triple = Expr::join(Join::Make(Tag::Tuple), triple);
    let symbol = maker.apply(Op::Wrap(variant), triple)?;
    maker.pair(
        Join::Make(Tag::Tuple),
        maker.name(scope, "~lookahead"),
        symbol,
    )
}

// The lookahead's start, else the end of the top slot, else the default, as both ends of the span.
fn bottom_line<'p>(
    maker: &mut Maker<'p>,
    scope: &mut Scope,
    lines: Lines,
    line: Form<'p>,
    parts: &mut Vec<Expr>,
) -> Result<(), AllocError>
    ensures lines { OnOk result (lines_of scope.new parts.new.items ≡ bottom_line (making maker.old) lines (listed line.entry) (lines_of scope.old parts.old.items)) }
    ensures made { OnOk result (making maker.new ≡ with_lookahead_start (listed line.entry) (making maker.old)) }
{
    let start = lookahead_start(maker, scope, lines, line)?;
    span_at(maker, scope, start, parts)
}

fn lookahead_start<'p>(
    maker: &mut Maker<'p>,
    scope: &mut Scope,
    lines: Lines,
    line: Form<'p>,
) -> Result<Expr, AllocError>
    ensures value { IfOk result (λ v. v ≡ lookahead_start (making maker.old) lines (listed line.entry) scope.old) }
    ensures names { OnOk result (scope.new ≡ after_slots 1 scope.old) }
    ensures made { OnOk result (making maker.new ≡ with_lookahead_start (listed line.entry) (making maker.old)) }
{
    let start = part_closure(maker, 0)?;
    let slot = scope.fresh()?;
    let args = vec![in maker.alloc; Expr::take(slot)]?;
    let some = Expr::call(start, args);
    let none = bottom(maker, scope, line)?;
    maker.on_option(Expr::read(lines.lookahead), slot, none, some)
}

// Where the span begins without a lookahead: at the end of the top slot, or at the default.
fn bottom<'p>(maker: &mut Maker<'p>, scope: &Scope, line: Form<'p>) -> Result<Expr, AllocError>
    ensures value { IfOk result (λ v. v ≡ bottom (making maker.old) (listed line.entry) scope.now) }
    ensures made { OnOk result (making maker.new ≡ with_bottom (listed line.entry) (making maker.old)) }
{
    if is_a(Part::AscentFixed, line) {
        let last = part_closure(maker, 2)?;
        end_of_top(maker, scope, line, last)
    } else if is_a(Part::AscentOptional, line) {
        let last = inner_closure(maker)?;
        end_of_top(maker, scope, line, last)
    } else {
        Ok(default_location())
    }
}

// `|x| x.as_ref().unwrap().2`.
fn inner_closure<'p>(maker: &mut Maker<'p>) -> Result<usize, AllocError>
    ensures number { IfOk result (λ n. n ≡ length (making maker.old).functions) }
    ensures made { OnOk result (making maker.new ≡ with_function (Some inner_function) (making maker.old)) }
{
    let inside = maker.apply(Op::ReadIn, Expr::read(0))?;
    let body = maker.apply(Op::Part(2), inside)?;
    maker.closure(function(1, 0, body))
}

fn end_of_top<'p>(
    maker: &Maker<'p>,
    scope: &Scope,
    line: Form<'p>,
    last: usize,
) -> Result<Expr, AllocError>
    ensures { IfOk result (λ v. v ≡ call_function last (top_slot (listed line.entry) scope.now ∷ [])) }
{
    let top = top_slot(maker, scope, line)?;
    Ok(Expr::call(last, vec![in maker.alloc; top]?))
}

/// What the name of the line's number holds.
pub fn top_slot<'p>(maker: &Maker<'p>, scope: &Scope, line: Form<'p>) -> Result<Expr, AllocError>
    ensures { IfOk result (λ v. v ≡ top_slot (listed line.entry) scope.now) }
{
    let name = numbered(maker.alloc, "~sym", line.hole(0))?;
    Ok(maker.name(scope, name.as_str()))
}

// `let ~nt = ..;`.
fn ascent_call_line<'p>(
    maker: &Maker<'p>,
    scope: &mut Scope,
    line: Form<'p>,
    parts: &mut Vec<Expr>,
) -> Result<(), AllocError>
    ensures { OnOk result (lines_of scope.new parts.new.items ≡ ascent_call_line (making maker.now) (listed line.entry) (lines_of scope.old parts.old.items)) }
{
    let value = ascent_value(maker, scope, line)?;
    push_let(maker, scope, "~nt", "", value, parts)?;
    Ok(())
}

fn ascent_value<'p>(
    maker: &Maker<'p>,
    scope: &mut Scope,
    line: Form<'p>,
) -> Result<Expr, AllocError>
    ensures value { IfOk result (λ v. v ≡ ascent_value (making maker.now) (listed line.entry) scope.old) }
    ensures names { OnOk result (scope.new ≡ ascent_names (listed line.entry) scope.old) }
{
    let call = ascent_call(maker, scope, line)?;
    if is_a(Part::AscentCall, line) {
        Ok(call)
    } else {
        maker.tried(scope, call)
    }
}

fn ascent_call<'p>(maker: &Maker<'p>, scope: &Scope, line: Form<'p>) -> Result<Expr, AllocError>
    ensures { IfOk result (λ v. v ≡ ascent_call (making maker.now) (listed line.entry) scope.now) }
{
    let mut args = Vec::new(maker.alloc);
    maker.arguments(scope, line.hole(2), &mut args)?;
    maker.call("super::action", line.hole(0), args)
}
