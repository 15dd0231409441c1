//! Calls of user code.

ghost use Rattle.std.specs.Prelude.{◌≡◌, ◌++◌, ◌==◌, length, IfOk, OnOk};
ghost use Rattle.std.specs.List.{list_any};
ghost use Rattle.std.specs.Option.{option_map, option_copied};
ghost use Rattle.lp_core.specs.declared.expr.Join.TheVariants as join;
ghost use Rattle.lp_core.specs.Store.{program_of, store_of, calls_of, call_of, spanned_value};
ghost use Rattle.lp_core.specs.Effect.{effect};
ghost use Rattle.lp_core.specs.JoinMeaning.{join_meaning, join_calls};
ghost use Rattle.lp_core.specs.CallMeaning.{user_call, made_call, answer, fallible_answer, arguments, argument, no_arguments, with_param, with_triple, with_location, param_of, spanned_term};
ghost use Rattle.lp_core.specs.ArgumentsView.{arguments_of};

use crate::act::{error_value, text_at};
use crate::copies::copied_text;
use crate::value::{Atom, Tag, Value};
use crate::world::{Done, Setting, World};
use lp_repr::values::{Event, Loc, ParseError, SpannedTerm, Term, UserError};
use lp_repr::{Items, Text};
use std::alloc::{AllocError, Global};

// What a call of user code is made with.
#[derive(Drop)]
struct CallArguments {
    params: Vec<Text>,
    args: Vec<SpannedTerm>,
    start: Option<Loc>,
    place: Option<(Loc, Loc)>,
}

/// Makes a call of user code: of the text of a number, after so many parameters.
pub fn user_call(
    alloc: Global,
    setting: &Setting<'_>,
    world: &mut World,
    code: usize,
    fallible: bool,
    params: usize,
    values: Vec<Value>,
) -> Result<Done, AllocError>
    ensures does { IfOk result (λ d. effect d (store_of world.new) ≡ join_meaning (program_of setting.now) (length (calls_of world.old)) (join.Event code fallible params) values.items (store_of world.old)) }
    ensures calls { OnOk result (calls_of world.new ≡ calls_of world.old ++ join_calls (program_of setting.now) (length (calls_of world.old)) (join.Event code fallible params) values.items) }
{
    let number = world.events.len() as u64;
    match event(alloc, setting, number, code, params, values)? {
        None => Ok(Done::Stuck),
        Some(event) => {
            world.events.push(event)?;
            Ok(Done::Valued(answer(alloc, setting, fallible, number)?))
        }
    }
}

fn event(
    alloc: Global,
    setting: &Setting<'_>,
    number: u64,
    code: usize,
    params: usize,
    values: Vec<Value>,
) -> Result<Option<Event>, AllocError>
    ensures { IfOk result (λ o. option_map call_of o ≡ user_call (program_of setting.now) number code params values.items) }
{
    match text_at(&setting.code.texts, code) {
        None => Ok(None),
        Some(text) => match arguments(alloc, setting, params, values)? {
            None => Ok(None),
            Some(given) => Ok(Some(made_event(number, copied_text(text)?, given))),
        },
    }
}

fn made_event(number: u64, code: Text, given: CallArguments) -> Event
    ensures { call_of result ≡ made_call number code (arguments_of given) }
{
    Event {
        number,
        code,
        params: Items(given.params),
        args: Items(given.args),
        place: given.place,
    }
}

// What a call of user code gives.
fn answer(
    alloc: Global,
    setting: &Setting<'_>,
    fallible: bool,
    number: u64,
) -> Result<Value, AllocError>
    ensures { IfOk result (λ v. v ≡ answer (program_of setting.now) fallible number) }
{
    if fallible {
        fallible_answer(alloc, number, fails(setting.failing, number))
    } else {
        Ok(Value::term(Term::Result(number)))
    }
}

fn fails(failing: &[u64], number: u64) -> bool
    ensures { result ≡ list_any (λ k. k == number) failing.now }
{
    failing.contains(&number)
}

fn fallible_answer(alloc: Global, number: u64, fails: bool) -> Result<Value, AllocError>
    ensures { IfOk result (λ v. v ≡ fallible_answer number fails) }
{
    if fails {
        let error = ParseError::User {
            error: UserError::Call(number),
        };
        let error = error_value(alloc, error)?;
        Value::wrapped(alloc, Tag::Failure, error)
    } else {
        Value::wrapped(alloc, Tag::Success, Value::term(Term::Result(number)))
    }
}

// The parameters, then the triples; two locations are the place.
fn arguments(
    alloc: Global,
    setting: &Setting<'_>,
    params: usize,
    values: Vec<Value>,
) -> Result<Option<CallArguments>, AllocError>
    ensures { IfOk result (λ o. option_map arguments_of o ≡ arguments (program_of setting.now) params no_arguments values.items) }
{
    let mut given = CallArguments {
        params: Vec::new(alloc),
        args: Vec::new(alloc),
        start: None,
        place: None,
    };
    for v in values {
        match argument(setting, params, given, v)? {
            None => return Ok(None),
            Some(next) => given = next,
        }
    }
    Ok(Some(given))
}

// One more value: the parameters come first.
fn argument(
    setting: &Setting<'_>,
    params: usize,
    given: CallArguments,
    v: Value,
) -> Result<Option<CallArguments>, AllocError>
    ensures { IfOk result (λ o. option_map arguments_of o ≡ argument (program_of setting.now) params (arguments_of given) v) }
{
    if given.params.len() < params {
        match param_of(setting, &v) {
            None => Ok(None),
            Some(text) => Ok(Some(with_param(given, copied_text(text)?)?)),
        }
    } else {
        match v.as_location() {
            Some(l) => Ok(Some(with_location(given, l))),
            None => match spanned_term(v) {
                None => Ok(None),
                Some(triple) => Ok(Some(with_triple(given, triple)?)),
            },
        }
    }
}

fn with_param(mut given: CallArguments, text: Text) -> Result<CallArguments, AllocError>
    ensures { IfOk result (λ g. arguments_of g ≡ with_param (arguments_of given) text) }
{
    given.params.push(text)?;
    Ok(given)
}

fn with_triple(mut given: CallArguments, triple: SpannedTerm) -> Result<CallArguments, AllocError>
    ensures { IfOk result (λ g. arguments_of g ≡ with_triple (arguments_of given) (spanned_value triple)) }
{
    given.args.push(triple)?;
    Ok(given)
}

// The first location begins the place, a later one ends it.
fn with_location(mut given: CallArguments, l: Loc) -> CallArguments
    ensures { arguments_of result ≡ with_location (arguments_of given) l (arguments_of given).start }
{
    match given.start {
        None => given.start = Some(l),
        Some(first) => given.place = Some((first, l)),
    }
    given
}

fn param_of<'p>(setting: &Setting<'p>, v: &Value) -> Option<&'p Text>
    ensures { option_copied result ≡ param_of (program_of setting.now) v.now }
{
    match v.as_atom() {
        Some(Atom::Param(n)) => text_at(setting.params, *n),
        _ => None,
    }
}

fn spanned_term(v: Value) -> Option<SpannedTerm>
    ensures { option_map spanned_value result ≡ spanned_term v }
{
    match v.into_spanned() {
        None => None,
        Some((start, v, end)) => match v.into_term() {
            None => None,
            Some(t) => Some((start, t, end)),
        },
    }
}
