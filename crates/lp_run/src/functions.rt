//! The functions of a module and of actions, made where all of them are declared.

ghost use Rattle.std.specs.Prelude.{◌≡◌, IfOk, OnOk};
ghost use Rattle.std.specs.Option.{option_map};
ghost use Rattle.lp_view.specs.PartLists.{listed};
ghost use Rattle.lp_maker.specs.Making.{making};
ghost use Rattle.lp_run.specs.Promised.{promise_of, promises_of};
ghost use Rattle.lp_run.specs.Functions.{made_of, without_meaning, lookup_made, expected_made, accepts_made, trial_made, reduction_made, ascent_made, function_made, one_made, all_made, action_made, actions_made};

use crate::promised::{is_action_lookup, is_lookup, is_reduction, is_trial};
use lp_ascent_bodies::ascent::state_fn;
use lp_ascent_bodies::ascent_reduce::{ascent_accepts, ascent_expected, ascent_simulate};
use lp_bodies::action::action_fn;
use lp_bodies::reduce::{accepts, pop, reduce, reduce_fn, simulate_reduce};
use lp_bodies::table::{
    action_lookup, expected, expected_from_states, goto_fn, token_to_integer, token_to_symbol,
};
use lp_core::{Expr, Function};
use lp_form::Part;
use lp_maker::forms::{Form, first, is_a};
use lp_maker::maker::Maker;
use lp_maker::scope::Scope;
use std::alloc::AllocError;

// As `panic!`.
fn without_meaning(maker: &Maker<'_>) -> Function
    ensures { result ≡ without_meaning }
{
    maker.function(0, &Scope::new(maker.alloc), Expr::stuck())
}

fn lookup_made<'p>(maker: &mut Maker<'p>, form: Form<'p>) -> Result<Function, AllocError>
    ensures { IfOk result (λ f. made_of f (making maker.new) ≡ lookup_made (making maker.old) (listed form.entry)) }
{
    if is_action_lookup(form) {
        action_lookup(maker, form)
    } else if is_a(Part::GotoFn, form) {
        goto_fn(maker, form)
    } else if is_a(Part::TokenToInteger, form) {
        token_to_integer(maker, form)
    } else {
        token_to_symbol(maker, form)
    }
}

fn expected_made<'p>(
    maker: &mut Maker<'p>,
    header: Option<Form<'p>>,
) -> Result<Function, AllocError>
    ensures { IfOk result (λ f. made_of f (making maker.new) ≡ expected_made (making maker.old) (option_map listed header.entry)) }
{
    match header {
        None => Ok(without_meaning(maker)),
        Some(header) => expected_from_states(maker, header),
    }
}

fn accepts_made<'p>(maker: &Maker<'p>, header: Option<Form<'p>>) -> Result<Function, AllocError>
    ensures { IfOk result (λ f. made_of f (making maker.now) ≡ accepts_made (making maker.now) (option_map listed header.entry)) }
{
    match header {
        None => Ok(without_meaning(maker)),
        Some(header) => accepts(maker, header),
    }
}

fn trial_made<'p>(maker: &mut Maker<'p>, form: Form<'p>) -> Result<Function, AllocError>
    ensures { IfOk result (λ f. made_of f (making maker.new) ≡ trial_made (making maker.old) (listed form.entry)) }
{
    if is_a(Part::Expected, form) {
        expected(maker)
    } else if is_a(Part::ExpectedFromStates, form) {
        expected_made(maker, first(form))
    } else if is_a(Part::SimulateReduce, form) {
        simulate_reduce(maker, form)
    } else {
        accepts_made(maker, first(form))
    }
}

fn reduction_made<'p>(maker: &mut Maker<'p>, form: Form<'p>) -> Result<Function, AllocError>
    ensures { IfOk result (λ f. made_of f (making maker.new) ≡ reduction_made (making maker.old) (listed form.entry)) }
{
    if is_a(Part::Pop, form) {
        pop(maker, form)
    } else if is_a(Part::ReduceFn, form) {
        reduce_fn(maker, form)
    } else if is_a(Part::Reduce, form) {
        reduce(maker, form)
    } else {
        Ok(without_meaning(maker))
    }
}

// A function of recursive ascent.
fn ascent_made<'p>(maker: &mut Maker<'p>, form: Form<'p>) -> Result<Function, AllocError>
    ensures { IfOk result (λ f. made_of f (making maker.new) ≡ ascent_made (making maker.old) (listed form.entry)) }
{
    if is_a(Part::StateFn, form) {
        state_fn(maker, form)
    } else if is_a(Part::AscentSimulate, form) {
        ascent_simulate(maker, form)
    } else if is_a(Part::AscentAccepts, form) {
        ascent_accepts(maker, form)
    } else {
        ascent_expected(maker)
    }
}

// The function of a form of a module.
#[tactic(auto, unfolding(crate::specs::Functions::function_made))]
fn function_made<'p>(maker: &mut Maker<'p>, form: Form<'p>) -> Result<Function, AllocError>
    ensures { IfOk result (λ f. made_of f (making maker.new) ≡ function_made (making maker.old) (listed form.entry)) }
{
    if is_lookup(form) {
        lookup_made(maker, form)
    } else if is_trial(form) {
        trial_made(maker, form)
    } else if is_reduction(form) {
        reduction_made(maker, form)
    } else {
        ascent_made(maker, form)
    }
}

fn one_made<'p>(maker: &mut Maker<'p>, one: &(usize, Form<'p>)) -> Result<(), AllocError>
    ensures { OnOk result (making maker.new ≡ one_made (making maker.old) (promise_of one.now)) }
{
    let (number, form) = *one;
    let function = function_made(maker, form)?;
    maker.define(number, function);
    Ok(())
}

/// The functions of a module.
pub fn all_made<'p>(maker: &mut Maker<'p>, promises: &[(usize, Form<'p>)]) -> Result<(), AllocError>
    ensures { OnOk result (making maker.new ≡ all_made (making maker.old) (promises_of promises.now)) }
{
    for one in promises {
        one_made(maker, one)?;
    }
    Ok(())
}

fn action_made<'p>(maker: &mut Maker<'p>, one: &(usize, Form<'p>)) -> Result<(), AllocError>
    ensures { OnOk result (making maker.new ≡ action_made (making maker.old) (promise_of one.now)) }
{
    let (number, form) = *one;
    let function = action_fn(maker, form)?;
    maker.define(number, function);
    Ok(())
}

/// The functions of actions.
pub fn actions_made<'p>(
    maker: &mut Maker<'p>,
    promises: &[(usize, Form<'p>)],
) -> Result<(), AllocError>
    ensures { OnOk result (making maker.new ≡ actions_made (making maker.old) (promises_of promises.now)) }
{
    for one in promises {
        action_made(maker, one)?;
    }
    Ok(())
}
