//! Action functions.

ghost use Rattle.std.specs.Prelude.{◌≡◌, IfOk, OnOk};
ghost use Rattle.std.specs.Option.{option_map};
ghost use Rattle.lp_view.specs.PartLists.{listed};
ghost use Rattle.lp_maker.specs.Texts.{binding};
ghost use Rattle.lp_maker.specs.Making.{making, with_text};
ghost use Rattle.lp_bodies.specs.Actions.{can_fail, fallible_row, is_fallible, is_own, is_parameter, counted_row, parameter_count, takes, code_of, user_call, body_of, plain_body, action_body, found_body, headed, action_function, with_code, with_found_code, with_action};

use crate::inlining::inline_body;
use lp_core::{Expr, Function, Join};
use lp_form::Part;
use lp_maker::forms::{Form, first, is_a, second};
use lp_maker::maker::Maker;
use lp_maker::scope::Scope;
use lp_maker::texts::{Bound, begins, bound_by, holds, numbered};
use lp_repr::{Text, norm};
use std::alloc::{AllocError, Global};

/// The function of one action.
pub fn action_fn<'p>(maker: &mut Maker<'p>, form: Form<'p>) -> Result<Function, AllocError>
    ensures function { IfOk result (λ f. f ≡ action_function (making maker.old) (listed form.entry)) }
    ensures made { OnOk result (making maker.new ≡ with_action (listed form.entry) (making maker.old)) }
{
    match first(form) {
        None => Ok(maker.function(0, &Scope::new(maker.alloc), Expr::stuck())),
        Some(header) => headed(maker, header, second(form)),
    }
}

fn headed<'p>(
    maker: &mut Maker<'p>,
    header: Form<'p>,
    body: Option<Form<'p>>,
) -> Result<Function, AllocError>
    ensures function { IfOk result (λ f. f ≡ headed (making maker.old) (listed header.entry) (option_map listed body.entry)) }
    ensures made { OnOk result (making maker.new ≡ with_found_code (option_map listed body.entry) (making maker.old)) }
{
    let mut scope = maker.parameters(header)?;
    let params = scope.slots();
    let value = found_body(maker, &mut scope, header, body)?;
    Ok(maker.function(params, &scope, value))
}

fn found_body<'p>(
    maker: &mut Maker<'p>,
    scope: &mut Scope,
    header: Form<'p>,
    body: Option<Form<'p>>,
) -> Result<Expr, AllocError>
    ensures body { IfOk result (λ v. body_of v scope.new ≡ found_body (making maker.old) (listed header.entry) scope.old (option_map listed body.entry)) }
    ensures made { OnOk result (making maker.new ≡ with_found_code (option_map listed body.entry) (making maker.old)) }
{
    match body {
        None => Ok(Expr::stuck()),
        Some(body) => action_body(maker, scope, header, body),
    }
}

fn action_body<'p>(
    maker: &mut Maker<'p>,
    scope: &mut Scope,
    header: Form<'p>,
    body: Form<'p>,
) -> Result<Expr, AllocError>
    ensures body { IfOk result (λ v. body_of v scope.new ≡ action_body (making maker.old) (listed header.entry) scope.old (listed body.entry)) }
    ensures made { OnOk result (making maker.new ≡ with_code (listed body.entry) (making maker.old)) }
{
    if is_a(Part::UserBody, body) {
        user_call(maker, scope, header, body)
    } else {
        plain_body(maker, scope, body)
    }
}

// The lookahead, the lookbehind, or calls of inlined actions.
fn plain_body<'p>(maker: &Maker<'p>, scope: &mut Scope, body: Form<'p>) -> Result<Expr, AllocError>
    ensures { IfOk result (λ v. body_of v scope.new ≡ plain_body (making maker.now) scope.old (listed body.entry)) }
{
    if is_a(Part::LookaheadBody, body) {
        Ok(maker.name(scope, "~lookahead"))
    } else if is_a(Part::LookbehindBody, body) {
        Ok(maker.name(scope, "~lookbehind"))
    } else if is_a(Part::InlineBody, body) {
        inline_body(maker, scope, body)
    } else {
        Ok(Expr::stuck())
    }
}

// A call of user code, with all arguments of the function in order.
fn user_call<'p>(
    maker: &mut Maker<'p>,
    scope: &Scope,
    header: Form<'p>,
    body: Form<'p>,
) -> Result<Expr, AllocError>
    ensures value { IfOk result (λ v. v ≡ user_call (making maker.old) (listed header.entry) scope.now) }
    ensures made { OnOk result (making maker.new ≡ with_text (code_of (listed body.entry)) (making maker.old)) }
{
    let code = Text::from_str(maker.alloc, norm(body.hole(0)))?;
    let code = maker.text(code)?;
    let args = takes(maker.alloc, scope.slots())?;
    let error = numbered(maker.alloc, maker.prefix, "lalrpop_util::ParseError<")?;
    let fallible = is_fallible(error.as_str(), header);
    let params = parameter_count(maker.prefix, header)?;
    let join = Join::Event {
        code,
        fallible,
        params,
    };
    Ok(Expr::join(join, args))
}

/// The first slots, each for the last time.
#[tactic(auto, using(crate::proofs::Takes::takes_next))]
pub fn takes(alloc: Global, count: usize) -> Result<Vec<Expr>, AllocError>
    ensures { IfOk result (λ args. args.items ≡ takes count) }
{
    let mut args = Vec::new(alloc);
    for slot in 0..count {
        args.push(Expr::take(slot))?;
    }
    Ok(args)
}

// Whether a printed type is a result with this in it.
fn can_fail(error: &str, answer: &str) -> bool
    ensures { result ≡ can_fail error.now answer.now }
{
    begins("Result<", answer) && holds(error, answer)
}

// Whether the function of this header can fail with what begins so.
fn is_fallible(error: &str, header: Form<'_>) -> bool
    ensures { result ≡ is_fallible error.now (listed header.entry) }
{
    let mut fallible = false;
    for row in header.parts() {
        fallible = fallible_row(error, fallible, row);
    }
    fallible
}

fn fallible_row(error: &str, before: bool, row: Form<'_>) -> bool
    ensures { result ≡ fallible_row error.now before (listed row.entry) }
{
    if is_a(Part::ResultType, row) {
        can_fail(error, row.hole(0))
    } else {
        before
    }
}

// How many parameters of the grammar this header has: those with a name that isn't the form's own.
fn parameter_count(prefix: &str, header: Form<'_>) -> Result<usize, AllocError>
    ensures { IfOk result (λ n. n ≡ parameter_count prefix.now (listed header.entry)) }
{
    let mut count = 0usize;
    for row in header.parts() {
        count = counted_row(prefix, count, row)?;
    }
    Ok(count)
}

fn counted_row(prefix: &str, count: usize, row: Form<'_>) -> Result<usize, AllocError>
    ensures { IfOk result (λ n. n ≡ counted_row prefix.now count (listed row.entry)) }
{
    if is_parameter(prefix, row) {
        count.checked_add(1).ok_or(AllocError)
    } else {
        Ok(count)
    }
}

fn is_parameter(prefix: &str, row: Form<'_>) -> bool
    ensures { result ≡ is_parameter prefix.now (listed row.entry) }
{
    is_a(Part::ParameterRow, row) && is_own(prefix, bound_by(row.hole(0)))
}

// Whether a name is the grammar's own.
fn is_own(prefix: &str, bound: Bound<'_>) -> bool
    ensures { result ≡ is_own prefix.now (binding bound.entry) }
{
    match bound {
        Bound::Nothing => false,
        Bound::Triple => false,
        Bound::Named(name) => !begins(prefix, name),
    }
}
