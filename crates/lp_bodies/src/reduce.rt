//! Reductions of table-driven code.

ghost use Rattle.std.specs.Prelude.{◌≡◌, ◌+◌, ◌<◌, ◌^◌, Some, length, IfOk, OnOk};
ghost use Rattle.std.specs.Option.{option_copied, option_map};
ghost use Rattle.lp_view.specs.PartLists.{hole_of, listed};
ghost use Rattle.lp_maker.specs.Making.{making, with_function, with_variant};
ghost use Rattle.lp_maker.specs.Texts.{after_front};
ghost use Rattle.lp_bodies.specs.Arms.{gathered};
ghost use Rattle.lp_bodies.specs.Lines.{lines_of};
ghost use Rattle.lp_bodies.specs.Reductions.{work_of, symbols, assert_line, pop_line, symbol_side, span_popped, span_at, part_function, with_last_end, last_end_number, empty_place, span_empty, reduced_call, checked, called_value, called_names, call_line, start_line, symbol_triple, push_line, is_call, quiet_line, reduce_line, reduce_lines, done_of, reduce_body, found_body, arm_call, reduce_arm, after_both, type_row, element_type, vec_type, slice_type, arming_of, is_arm, arm_row, with_arm, reduce_row, reduce_from, states, push_next, top_of, reduced, reduce_with, reduce_function, with_reduce, production_function, with_production_of, reduce_fn, with_reduce_fn, mismatch, pop_match, pop_lines, pop_function};

use crate::arms::Arms;
use crate::lines::push_let;
use crate::source::{default_location, function};
pub use crate::trial::{accepts, answer_if, production_of, simulate_reduce, state_at};
use lp_core::{Expr, Function, Join, Op, StateType, Tag, Test};
use lp_form::Part;
use lp_maker::forms::{Form, first, is_a, second};
use lp_maker::maker::{Maker, here};
use lp_maker::scope::Scope;
use lp_maker::texts::{after_front, number, numbered, state_type_of, without_end};
use std::alloc::AllocError;

/// The reductions by production.
pub fn reduce<'p>(maker: &mut Maker<'p>, form: Form<'p>) -> Result<Function, AllocError>
    ensures function { IfOk result (λ f. f ≡ reduce_function (making maker.old) (listed form.entry)) }
    ensures made { OnOk result (making maker.new ≡ with_reduce (listed form.entry) (making maker.old)) }
{
    let mut arms = Arms::new(maker.alloc);
    let kind = reduce_rows(maker, form, &mut arms)?;
    reduce_with(maker, kind, arms)
}

// The arms and the state type that the rows give.
fn reduce_rows<'p>(
    maker: &mut Maker<'p>,
    form: Form<'p>,
    arms: &mut Arms,
) -> Result<Option<StateType>, AllocError>
    ensures { IfOk result (λ kind. arming_of (gathered arms.new) kind (making maker.new) ≡ reduce_from (gathered arms.old) (making maker.old) (listed form.entry)) }
{
    let mut kind = None;
    for row in form.parts() {
        kind = reduce_row(maker, arms, kind, row)?;
    }
    Ok(kind)
}

// A row is an arm, or the header.
fn reduce_row<'p>(
    maker: &mut Maker<'p>,
    arms: &mut Arms,
    kind: Option<StateType>,
    row: Form<'p>,
) -> Result<Option<StateType>, AllocError>
    ensures { IfOk result (λ next. arming_of (gathered arms.new) next (making maker.new) ≡ reduce_row (arming_of (gathered arms.old) kind (making maker.old)) (listed row.entry)) }
{
    if is_arm(row) {
        arm_row(maker, arms, row)?;
        Ok(kind)
    } else {
        arms.header(maker, row)?;
        Ok(vec_type(maker.prefix, row))
    }
}

fn is_arm(row: Form<'_>) -> bool
    ensures { result ≡ is_arm (listed row.entry) }
{
    is_a(Part::ReduceCallArm, row) || is_a(Part::ReduceBodyArm, row)
}

fn arm_row<'p>(maker: &mut Maker<'p>, arms: &mut Arms, row: Form<'p>) -> Result<(), AllocError>
    ensures arms { OnOk result (gathered arms.new ≡ arm_row (making maker.old) (listed row.entry) (gathered arms.old)) }
    ensures made { OnOk result (making maker.new ≡ with_arm (listed row.entry) (gathered arms.old) (making maker.old)) }
{
    let body = reduce_arm(maker, &mut arms.scope, row)?;
    arms.number_case(row.hole(0))?;
    arms.body(body)
}

// The function of what the arms produce.
fn reduce_with<'p>(
    maker: &Maker<'p>,
    kind: Option<StateType>,
    arms: Arms,
) -> Result<Function, AllocError>
    ensures { IfOk result (λ f. f ≡ reduce_with (making maker.now) kind (gathered arms)) }
{
    let action = maker.name(&arms.scope, "~action");
    let (params, mut scope, produced) = arms.choice(maker.alloc, action, Expr::stuck())?;
    let first = scope.fresh_many(4)?;
    let body = reduced(maker, &scope, kind, first, produced)?;
    Ok(maker.function(params, &scope, body))
}

fn states<'p>(maker: &Maker<'p>, scope: &Scope) -> Expr
    ensures { result ≡ states scope.now }
{
    maker.name(scope, "~states")
}

fn symbols<'p>(maker: &Maker<'p>, scope: &Scope) -> Expr
    ensures { result ≡ symbols scope.now }
{
    maker.name(scope, "~symbols")
}

fn top_of<'p>(maker: &Maker<'p>, kind: Option<StateType>, list: Expr) -> Result<Expr, AllocError>
    ensures { IfOk result (λ v. v ≡ top_of kind list) }
{
    match kind {
        None => Ok(Expr::stuck()),
        Some(kind) => maker.apply(Op::Top(kind), list),
    }
}

// Takes the states of what was reduced off, and pushes the goto. The first one of four slots is here.
fn reduced<'p>(
    maker: &Maker<'p>,
    scope: &Scope,
    kind: Option<StateType>,
    first: usize,
    produced: Expr,
) -> Result<Expr, AllocError>
    requires { first + 4 < 2 ^ 64 }
    ensures { IfOk result (λ v. v ≡ reduced (making maker.now) scope.now kind first produced) }
{
    let length = first + 2;
    let state = first + 3;
    let unpacked = maker.apply(Op::Parts(first, 2), produced)?;
    let measured = maker.apply(Op::Length, states(maker, scope))?;
    let measured = maker.write(length, measured)?;
    let cut = maker.pair(Join::Subtract, Expr::read(length), Expr::read(first))?;
    let truncated = maker.pair(Join::Truncate, states(maker, scope), cut)?;
    let top = top_of(maker, kind, states(maker, scope))?;
    let top = maker.write(state, top)?;
    let pushed = push_next(maker, scope, state, first + 1)?;
    let parts = vec![in maker.alloc; unpacked, measured, truncated, top, pushed, maker.absent()]?;
    Ok(Expr::block(parts))
}

// Pushes the goto of a state and a nonterminal in slots.
fn push_next<'p>(
    maker: &Maker<'p>,
    scope: &Scope,
    state: usize,
    nonterminal: usize,
) -> Result<Expr, AllocError>
    ensures { IfOk result (λ v. v ≡ push_next (making maker.now) scope.now state nonterminal) }
{
    let args = vec![in maker.alloc; Expr::read(state), Expr::read(nonterminal)]?;
    let next = maker.call("goto", "", args)?;
    maker.pair(Join::Push, states(maker, scope), next)
}

// What an arm does.
fn reduce_arm<'p>(
    maker: &mut Maker<'p>,
    scope: &mut Scope,
    row: Form<'p>,
) -> Result<Expr, AllocError>
    ensures { IfOk result (λ v. done_of v scope.new (making maker.new) ≡ reduce_arm (making maker.old) scope.old (listed row.entry)) }
{
    if is_a(Part::ReduceCallArm, row) {
        arm_call(maker, scope, row)
    } else {
        found_body(maker, scope, first(row))
    }
}

// A call of the function of one production.
fn arm_call<'p>(maker: &Maker<'p>, scope: &Scope, row: Form<'p>) -> Result<Expr, AllocError>
    ensures { IfOk result (λ v. v ≡ arm_call (making maker.now) scope.now (listed row.entry)) }
{
    let mut args = Vec::new(maker.alloc);
    maker.arguments(scope, row.hole(1), &mut args)?;
    args.push(maker.name(scope, "~lookahead_start"))?;
    args.push(symbols(maker, scope))?;
    maker.call("reduce", row.hole(0), args)
}

/// The function of one production.
pub fn reduce_fn<'p>(maker: &mut Maker<'p>, form: Form<'p>) -> Result<Function, AllocError>
    ensures function { IfOk result (λ f. f ≡ reduce_fn (making maker.old) (listed form.entry)) }
    ensures made { OnOk result (making maker.new ≡ with_reduce_fn (listed form.entry) (making maker.old)) }
{
    match first(form) {
        None => Ok(maker.function(0, &Scope::new(maker.alloc), Expr::stuck())),
        Some(header) => production(maker, header, second(form)),
    }
}

fn production<'p>(
    maker: &mut Maker<'p>,
    header: Form<'p>,
    body: Option<Form<'p>>,
) -> Result<Function, AllocError>
    ensures function { IfOk result (λ f. f ≡ production_function (making maker.old) (Some (listed header.entry)) (option_map listed body.entry)) }
    ensures made { OnOk result (making maker.new ≡ with_production_of (Some (listed header.entry)) (option_map listed body.entry) (making maker.old)) }
{
    let mut scope = maker.parameters(header)?;
    let params = scope.slots();
    let value = found_body(maker, &mut scope, body)?;
    Ok(maker.function(params, &scope, value))
}

// The reduction of one production, if its lines are there.
fn found_body<'p>(
    maker: &mut Maker<'p>,
    scope: &mut Scope,
    body: Option<Form<'p>>,
) -> Result<Expr, AllocError>
    ensures { IfOk result (λ v. done_of v scope.new (making maker.new) ≡ found_body (making maker.old) scope.old (option_map listed body.entry)) }
{
    match body {
        None => Ok(Expr::stuck()),
        Some(body) => reduce_body(maker, scope, body),
    }
}

// The reduction of one production, in a block of its own.
fn reduce_body<'p>(
    maker: &mut Maker<'p>,
    scope: &mut Scope,
    form: Form<'p>,
) -> Result<Expr, AllocError>
    ensures { IfOk result (λ v. done_of v scope.new (making maker.new) ≡ reduce_body (making maker.old) scope.old (listed form.entry)) }
{
    let mark = scope.open();
    let parts = reduce_lines(maker, scope, form)?;
    scope.close(mark);
    Ok(Expr::block(parts))
}

fn reduce_lines<'p>(
    maker: &mut Maker<'p>,
    scope: &mut Scope,
    form: Form<'p>,
) -> Result<Vec<Expr>, AllocError>
    ensures { IfOk result (λ parts. work_of (lines_of scope.new parts.items) (making maker.new) ≡ reduce_lines (making maker.old) scope.old (listed form.entry)) }
{
    let mut parts = Vec::new(maker.alloc);
    for line in form.parts() {
        reduce_line(maker, scope, line, &mut parts)?;
    }
    Ok(parts)
}

// A line of a reduction.
fn reduce_line<'p>(
    maker: &mut Maker<'p>,
    scope: &mut Scope,
    line: Form<'p>,
    parts: &mut Vec<Expr>,
) -> Result<(), AllocError>
    ensures { OnOk result (work_of (lines_of scope.new parts.new.items) (making maker.new) ≡ reduce_line (work_of (lines_of scope.old parts.old.items) (making maker.old)) (listed line.entry)) }
{
    if is_a(Part::SpanEmpty, line) {
        span_empty(maker, scope, parts)
    } else if is_a(Part::OutcomePush, line) {
        push_line(maker, scope, line, parts)
    } else {
        quiet_line(maker, scope, line, parts)
    }
}

fn is_call(line: Form<'_>) -> bool
    ensures { result ≡ is_call (listed line.entry) }
{
    is_a(Part::CallPlain, line) || is_a(Part::CallFallible, line)
}

// A line that makes nothing but lines.
fn quiet_line<'p>(
    maker: &Maker<'p>,
    scope: &mut Scope,
    line: Form<'p>,
    parts: &mut Vec<Expr>,
) -> Result<(), AllocError>
    ensures { OnOk result (lines_of scope.new parts.new.items ≡ quiet_line (making maker.now) (listed line.entry) (lines_of scope.old parts.old.items)) }
{
    if is_a(Part::AssertLine, line) {
        assert_line(maker, scope, line, parts)
    } else if is_a(Part::PopLine, line) {
        pop_line(maker, scope, line, parts)
    } else if is_a(Part::SpanPopped, line) {
        span_popped(maker, scope, line, parts)
    } else if is_call(line) {
        call_line(maker, scope, line, parts)
    } else if is_a(Part::OutcomeStart, line) {
        start_line(maker, scope, parts)
    } else {
        parts.push(Expr::stuck())?;
        Ok(())
    }
}

// `assert!(~symbols.len() >= n);`.
fn assert_line<'p>(
    maker: &Maker<'p>,
    scope: &Scope,
    line: Form<'p>,
    parts: &mut Vec<Expr>,
) -> Result<(), AllocError>
    ensures { OnOk result (lines_of scope.now parts.new.items ≡ assert_line (listed line.entry) (lines_of scope.now parts.old.items)) }
{
    let length = maker.apply(Op::Length, symbols(maker, scope))?;
    let least = maker.index(number(line.hole(0)));
    let test = maker.pair(Join::AtLeast, length, least)?;
    let line = maker.apply(Op::Assert, test)?;
    parts.push(line)?;
    Ok(())
}

// `let ~symN = ~pop_V(~symbols);`.
fn pop_line<'p>(
    maker: &Maker<'p>,
    scope: &mut Scope,
    line: Form<'p>,
    parts: &mut Vec<Expr>,
) -> Result<(), AllocError>
    ensures { OnOk result (lines_of scope.new parts.new.items ≡ pop_line (making maker.now) (listed line.entry) (lines_of scope.old parts.old.items)) }
{
    let args = vec![in maker.alloc; symbols(maker, scope)]?;
    let popped = maker.call("pop_", line.hole(1), args)?;
    push_let(maker, scope, "~sym", line.hole(0), popped, parts)?;
    Ok(())
}

// A side of the symbol of this number.
fn symbol_side<'p>(
    maker: &Maker<'p>,
    scope: &Scope,
    place: usize,
    number: &str,
) -> Result<Expr, AllocError>
    ensures { IfOk result (λ v. v ≡ symbol_side place number.now scope.now) }
{
    let name = numbered(maker.alloc, "~sym", number)?;
    maker.apply(Op::Part(place), maker.name(scope, name.as_str()))
}

/// `let ~start = ~symi.0.clone(); let ~end = ~symj.2.clone();`.
pub fn span_popped<'p>(
    maker: &Maker<'p>,
    scope: &mut Scope,
    line: Form<'p>,
    parts: &mut Vec<Expr>,
) -> Result<(), AllocError>
    ensures { OnOk result (lines_of scope.new parts.new.items ≡ span_popped (listed line.entry) (lines_of scope.old parts.old.items)) }
{
    let start = symbol_side(maker, scope, 0, line.hole(0))?;
    push_let(maker, scope, "~start", "", start, parts)?;
    let end = symbol_side(maker, scope, 2, line.hole(1))?;
    push_let(maker, scope, "~end", "", end, parts)?;
    Ok(())
}

/// Binds the start, and the end to the same.
pub fn span_at<'p>(
    maker: &Maker<'p>,
    scope: &mut Scope,
    value: Expr,
    parts: &mut Vec<Expr>,
) -> Result<(), AllocError>
    ensures { OnOk result (lines_of scope.new parts.new.items ≡ span_at value (lines_of scope.old parts.old.items)) }
{
    let start = push_let(maker, scope, "~start", "", value, parts)?;
    push_let(maker, scope, "~end", "", Expr::read(start), parts)?;
    Ok(())
}

// The lookahead's start, else the end of the last symbol, else the default.
fn span_empty<'p>(
    maker: &mut Maker<'p>,
    scope: &mut Scope,
    parts: &mut Vec<Expr>,
) -> Result<(), AllocError>
    ensures lines { OnOk result (lines_of scope.new parts.new.items ≡ span_empty (making maker.old) (lines_of scope.old parts.old.items)) }
    ensures made { OnOk result (making maker.new ≡ with_last_end (making maker.old)) }
{
    let last_end = last_end_closure(maker)?;
    let slot = scope.fresh()?;
    let value = empty_place(maker, scope, last_end, slot)?;
    span_at(maker, scope, value, parts)
}

// `|| ~symbols.last().map(|x| x.2)`.
fn last_end_closure<'p>(maker: &mut Maker<'p>) -> Result<usize, AllocError>
    ensures number { IfOk result (λ n. n ≡ last_end_number (making maker.old)) }
    ensures made { OnOk result (making maker.new ≡ with_last_end (making maker.old)) }
{
    let end = part_closure(maker, 2)?;
    let last = maker.apply(Op::Last, Expr::read(0))?;
    let args = vec![in maker.alloc; Expr::read(1)]?;
    let located = maker.apply(Op::Wrap(Tag::Present), Expr::call(end, args))?;
    let body = maker.on_option(last, 1, maker.absent(), located)?;
    maker.closure(function(1, 1, body))
}

fn empty_place<'p>(
    maker: &Maker<'p>,
    scope: &Scope,
    last_end: usize,
    slot: usize,
) -> Result<Expr, AllocError>
    ensures { IfOk result (λ v. v ≡ empty_place last_end slot scope.now) }
{
    let args = vec![in maker.alloc; symbols(maker, scope)]?;
    let else_value = maker.on_option(
        Expr::call(last_end, args),
        slot,
        default_location(),
        Expr::read(slot),
    )?;
    let start = maker.name(scope, "~lookahead_start");
    maker.on_option(start, slot, else_value, Expr::read(slot))
}

/// The closure that answers a part of its argument.
pub fn part_closure<'p>(maker: &mut Maker<'p>, part: usize) -> Result<usize, AllocError>
    ensures number { IfOk result (λ n. n ≡ length (making maker.old).functions) }
    ensures made { OnOk result (making maker.new ≡ with_function (Some (part_function part)) (making maker.old)) }
{
    let body = maker.apply(Op::Part(part), Expr::read(0))?;
    maker.closure(function(1, 0, body))
}

// `let ~nt = ..;`.
fn call_line<'p>(
    maker: &Maker<'p>,
    scope: &mut Scope,
    line: Form<'p>,
    parts: &mut Vec<Expr>,
) -> Result<(), AllocError>
    ensures { OnOk result (lines_of scope.new parts.new.items ≡ call_line (making maker.now) (listed line.entry) (lines_of scope.old parts.old.items)) }
{
    let value = called_value(maker, scope, line)?;
    push_let(maker, scope, "~nt", "", value, parts)?;
    Ok(())
}

fn called_value<'p>(
    maker: &Maker<'p>,
    scope: &mut Scope,
    line: Form<'p>,
) -> Result<Expr, AllocError>
    ensures value { IfOk result (λ v. v ≡ called_value (making maker.now) (listed line.entry) scope.old) }
    ensures names { OnOk result (scope.new ≡ called_names (listed line.entry) scope.old) }
{
    let call = reduced_call(maker, scope, line)?;
    if is_a(Part::CallPlain, line) {
        Ok(call)
    } else {
        let slot = scope.fresh()?;
        checked(maker, slot, call)
    }
}

// The call of the action of a line.
fn reduced_call<'p>(maker: &Maker<'p>, scope: &Scope, line: Form<'p>) -> Result<Expr, AllocError>
    ensures { IfOk result (λ v. v ≡ reduced_call (making maker.now) (listed line.entry) scope.now) }
{
    let mut args = Vec::new(maker.alloc);
    maker.arguments(scope, line.hole(2), &mut args)?;
    maker.call("super::action", line.hole(0), args)
}

// A value, or the return of its error.
fn checked<'p>(maker: &Maker<'p>, slot: usize, call: Expr) -> Result<Expr, AllocError>
    ensures { IfOk result (λ v. v ≡ checked slot call) }
{
    let bad = maker.apply(Op::Wrap(Tag::Failure), Expr::take(slot))?;
    let some = maker.apply(Op::Wrap(Tag::Present), bad)?;
    let back = maker.give_back(some)?;
    maker.on_result(call, slot, Expr::take(slot), back)
}

// `return Some(Ok(~nt));`.
fn start_line<'p>(maker: &Maker<'p>, scope: &Scope, parts: &mut Vec<Expr>) -> Result<(), AllocError>
    ensures { OnOk result (lines_of scope.now parts.new.items ≡ start_line (lines_of scope.now parts.old.items)) }
{
    let good = maker.apply(Op::Wrap(Tag::Success), maker.name(scope, "~nt"))?;
    let some = maker.apply(Op::Wrap(Tag::Present), good)?;
    let back = maker.give_back(some)?;
    parts.push(back)?;
    Ok(())
}

// `~symbols.push(..); (pop, nonterminal)`.
fn push_line<'p>(
    maker: &mut Maker<'p>,
    scope: &Scope,
    line: Form<'p>,
    parts: &mut Vec<Expr>,
) -> Result<(), AllocError>
    ensures lines { OnOk result (lines_of scope.now parts.new.items ≡ push_line (making maker.old) (listed line.entry) (lines_of scope.now parts.old.items)) }
    ensures made { OnOk result (making maker.new ≡ with_variant (hole_of 0 (listed line.entry)) (making maker.old)) }
{
    let variant = maker.variant(line.hole(0))?;
    let triple = symbol_triple(maker, scope, variant)?;
    let pushed = maker.pair(Join::Push, symbols(maker, scope), triple)?;
    parts.push(pushed)?;
    let pop = maker.index(number(line.hole(1)));
    let nonterminal = maker.index(number(line.hole(2)));
    let outcome = maker.pair(Join::Make(Tag::Tuple), pop, nonterminal)?;
    parts.push(outcome)?;
    Ok(())
}

// `(~start, ~Symbol::V(~nt), ~end)`.
fn symbol_triple<'p>(maker: &Maker<'p>, scope: &Scope, variant: Tag) -> Result<Expr, AllocError>
    ensures { IfOk result (λ v. v ≡ symbol_triple variant scope.now) }
{
    let symbol = maker.apply(Op::Wrap(variant), maker.name(scope, "~nt"))?;
    let start = maker.name(scope, "~start");
    let end = maker.name(scope, "~end");
    let parts = vec![in maker.alloc; start, symbol, end]?;
    Ok(Expr::join(Join::Make(Tag::Tuple), parts))
}

/// The state type of the parameter that is a slice of states.
pub fn slice_type(prefix: &str, header: Form<'_>) -> Option<StateType>
    ensures { result ≡ slice_type prefix.now (listed header.entry) }
{
    element_type(prefix, "states: &[", b']', header)
}

/// The state type of the parameter that is a list of states.
pub fn vec_type(prefix: &str, header: Form<'_>) -> Option<StateType>
    ensures { result ≡ vec_type prefix.now (listed header.entry) }
{
    element_type(prefix, "states: &mut alloc::vec::Vec<", b'>', header)
}

// The state type of the parameter whose row has the prefix and `before` in front of it, and only bytes
// `after` behind it.
fn element_type(prefix: &str, before: &str, after: u8, header: Form<'_>) -> Option<StateType>
    ensures { result ≡ element_type prefix.now before.now after (listed header.entry) }
{
    let mut kind = None;
    for row in header.parts() {
        kind = type_row(prefix, before, after, kind, row);
    }
    kind
}

fn type_row(
    prefix: &str,
    before: &str,
    after: u8,
    kind: Option<StateType>,
    row: Form<'_>,
) -> Option<StateType>
    ensures { result ≡ type_row prefix.now before.now after kind (listed row.entry) }
{
    if !is_a(Part::ParameterRow, row) {
        return kind;
    }
    match after_both(prefix, before, row.hole(0)) {
        None => kind,
        Some(rest) => state_type_of(without_end(after, rest.as_bytes())),
    }
}

// What follows the two texts at the front of another.
fn after_both<'t>(prefix: &str, before: &str, text: &'t str) -> Option<&'t str>
    ensures { option_copied result ≡ after_both before.now (after_front prefix.now text.now) }
{
    match after_front(prefix, text) {
        None => None,
        Some(rest) => after_front(before, rest),
    }
}

fn mismatch<'p>(maker: &Maker<'p>) -> Result<Expr, AllocError>
    ensures { IfOk result (λ v. v ≡ mismatch (making maker.now)) }
{
    maker.call("symbol_type_mismatch", "", Vec::new(maker.alloc))
}

/// The function that takes a symbol of one variant off.
pub fn pop<'p>(maker: &mut Maker<'p>, form: Form<'p>) -> Result<Function, AllocError>
    ensures function { IfOk result (λ f. f ≡ pop_function (making maker.old) (listed form.entry)) }
    ensures made { OnOk result (making maker.new ≡ with_variant (hole_of 0 (listed form.entry)) (making maker.old)) }
{
    let variant = maker.variant(form.hole(0))?;
    let none = mismatch(maker)?;
    let some = pop_lines(maker, variant)?;
    let popped = maker.apply(Op::Pop, Expr::read(0))?;
    let body = maker.on_option(popped, 1, none, some)?;
    Ok(function(1, 7, body))
}

// The popped triple in its parts: the span stands in the slots 1 and 4, the symbol in 2.
fn pop_lines<'p>(maker: &Maker<'p>, variant: Tag) -> Result<Expr, AllocError>
    ensures { IfOk result (λ v. v ≡ pop_lines (making maker.now) variant) }
{
    let matched = pop_match(maker, variant)?;
    let spread = maker.apply(Op::Parts(5, 3), Expr::take(1))?;
    let start = maker.write(1, Expr::take(5))?;
    let symbol = maker.write(2, Expr::take(6))?;
    let end = maker.write(4, Expr::take(7))?;
    Ok(Expr::block(vec![in maker.alloc; spread, start, symbol, end, matched]?))
}

// The triple with what its symbol holds.
fn pop_match<'p>(maker: &Maker<'p>, variant: Tag) -> Result<Expr, AllocError>
    ensures { IfOk result (λ v. v ≡ pop_match (making maker.now) variant) }
{
    let unlike = mismatch(maker)?;
    let open = maker.apply(Op::Parts(2, 1), Expr::take(3))?;
    let triple = vec![in maker.alloc; Expr::take(1), Expr::take(2), Expr::take(4)]?;
    let triple = Expr::join(Join::Make(Tag::Tuple), triple);
    let fits = Expr::block(vec![in maker.alloc; open, triple]?);
    let cases = vec![in maker.alloc; here(Test::Is(variant), 0)]?;
    let bodies = vec![in maker.alloc; fits, unlike]?;
    Expr::select(maker.alloc, Expr::take(2), 3, cases, bodies)
}
