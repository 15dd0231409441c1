//! What is done with several values.

ghost use Rattle.std.specs.Prelude.{◌≡◌, [], ◌++◌, Some, None, length, IfOk, OnOk, MatchOption};
ghost use Rattle.std.specs.Option.{option_map, option_and_then, option_copied};
ghost use Rattle.lp_core.specs.Reading.{one, two, index_of};
ghost use Rattle.lp_core.specs.Store.{program_of, store_of, calls_of, held};
ghost use Rattle.lp_core.specs.Effect.{effect};
ghost use Rattle.lp_core.specs.JoinMeaning.{join_meaning, join_calls, pair_meaning, sides_meaning, indices, sum, product, difference, at_least, state_in, option_of, collected, list_val, payloads, tuple_val, with_option, payload_of, texts_of, texts_among, named_text, state_val, truncated, extended, unrecognized_token, unrecognized_eof};

use crate::act::{error_value, spanned_token, text_at};
use crate::cell::{Cell, typed};
use crate::copies::copied_text;
use crate::events::user_call;
use crate::expr::Join;
use crate::numbers::{difference, product, sum};
use crate::slots::{cell_at, cut, done, given, push_on};
use crate::value::{Atom, StateType, Tag, Value};
use crate::world::{Done, Setting, World};
use lp_repr::values::{ParseError, Term};
use lp_repr::{Items, Text};
use std::alloc::{AllocError, Global};

/// What is done with several values.
pub fn do_join(
    alloc: Global,
    setting: &Setting<'_>,
    world: &mut World,
    join: &Join,
    values: Vec<Value>,
) -> Result<Done, AllocError>
    ensures does { IfOk result (λ d. effect d (store_of world.new) ≡ join_meaning (program_of setting.now) (length (calls_of world.old)) join.now values.items (store_of world.old)) }
    ensures calls { OnOk result (calls_of world.new ≡ calls_of world.old ++ join_calls (program_of setting.now) (length (calls_of world.old)) join.now values.items) }
{
    match join {
        Join::Make(tag) => Ok(Done::Valued(Value::made(*tag, values))),
        Join::Collect => Ok(given(collected_list(alloc, values)?)),
        Join::Payloads => Ok(given(payload_tuple(alloc, values)?)),
        Join::Event {
            code,
            fallible,
            params,
        } => user_call(alloc, setting, world, *code, *fallible, *params, values),
        _ => match two(values) {
            None => Ok(Done::Stuck),
            Some((a, b)) => do_pair(alloc, setting, world, join, a, b),
        },
    }
}

// The two of a list of two.
fn two(mut values: Vec<Value>) -> Option<(Value, Value)>
    ensures { result ≡ two values.items }
{
    if values.len() != 2 {
        return None;
    }
    let second = values.pop()?;
    let first = values.pop()?;
    Some((first, second))
}

fn do_pair(
    alloc: Global,
    setting: &Setting<'_>,
    world: &mut World,
    join: &Join,
    a: Value,
    b: Value,
) -> Result<Done, AllocError>
    ensures does { IfOk result (λ d. effect d (store_of world.new) ≡ pair_meaning (program_of setting.now) join.now a b (store_of world.old)) }
    ensures events { OnOk result (world.new.events ≡ world.old.events) }
{
    match join {
        Join::Push => push_on(alloc, world, &a, b),
        Join::Extend => extend(alloc, world, &a, b),
        Join::UnrecognizedToken => Ok(given(unrecognized_token(alloc, setting, a, b)?)),
        Join::UnrecognizedEof => Ok(given(unrecognized_eof(alloc, setting, a, b)?)),
        _ => Ok(do_sides(alloc, world, join, &a, &b)),
    }
}

// What is done with two values that stay.
fn do_sides(alloc: Global, world: &mut World, join: &Join, a: &Value, b: &Value) -> Done
    ensures does { effect result (store_of world.new) ≡ sides_meaning join.now a.now b.now (store_of world.old) }
    ensures events { world.new.events ≡ world.old.events }
{
    match join {
        Join::Add => given(add(a, b)),
        Join::Multiply => given(multiply(a, b)),
        Join::Subtract => given(subtract(a, b)),
        Join::AtLeast => given(at_least(a, b)),
        Join::StateAt(kind) => given(state_at(world, *kind, a, b)),
        Join::Truncate => truncate(alloc, world, a, b),
        _ => Done::Stuck,
    }
}

// Two `usize`.
fn indices(a: &Value, b: &Value) -> Option<(usize, usize)>
    ensures { result ≡ indices a.now b.now }
{
    match a.as_index() {
        None => None,
        Some(m) => match b.as_index() {
            None => None,
            Some(n) => Some((m, n)),
        },
    }
}

fn add(a: &Value, b: &Value) -> Option<Value>
    ensures { result ≡ option_and_then sum (indices a.now b.now) }
{
    match indices(a, b) {
        None => None,
        Some((m, n)) => sum(m, n),
    }
}

fn multiply(a: &Value, b: &Value) -> Option<Value>
    ensures { result ≡ option_and_then product (indices a.now b.now) }
{
    match indices(a, b) {
        None => None,
        Some((m, n)) => product(m, n),
    }
}

fn subtract(a: &Value, b: &Value) -> Option<Value>
    ensures { result ≡ option_and_then difference (indices a.now b.now) }
{
    match indices(a, b) {
        None => None,
        Some((m, n)) => difference(m, n),
    }
}

fn at_least(a: &Value, b: &Value) -> Option<Value>
    ensures { result ≡ option_map at_least (indices a.now b.now) }
{
    match indices(a, b) {
        None => None,
        Some((m, n)) => Some(Value::bool(n <= m)),
    }
}

fn state_at(world: &World, kind: StateType, a: &Value, b: &Value) -> Option<Value>
    ensures { result ≡ state_in kind a.now b.now (store_of world.now) }
{
    match b.as_index() {
        None => None,
        Some(i) => match cell_at(world, a) {
            None => None,
            Some(cell) => state_of_cell(kind, i, cell),
        },
    }
}

fn state_of_cell(kind: StateType, i: usize, cell: &Cell) -> Option<Value>
    ensures { result ≡ state_val kind i (held cell.now) }
{
    match cell.state(i) {
        None => None,
        Some(state) => typed(kind, i64::from(state)),
    }
}

fn truncate(alloc: Global, world: &mut World, a: &Value, b: &Value) -> Done
    ensures does { effect result (store_of world.new) ≡ truncated a.now (index_of b.now) (store_of world.old) }
    ensures events { world.new.events ≡ world.old.events }
{
    match b.as_index() {
        None => Done::Stuck,
        Some(length) => cut(alloc, world, a, length),
    }
}

// `extend` by an option: pushes what it holds.
fn extend(alloc: Global, world: &mut World, a: &Value, b: Value) -> Result<Done, AllocError>
    ensures does { IfOk result (λ d. effect d (store_of world.new) ≡ extended a.now (option_of b) (store_of world.old)) }
    ensures events { OnOk result (world.new.events ≡ world.old.events) }
{
    match option_of(b) {
        None => Ok(Done::Stuck),
        Some(None) => match a.as_cell() {
            None => Ok(Done::Stuck),
            Some(_) => Ok(done(alloc, true)),
        },
        Some(Some(v)) => push_on(alloc, world, a, v),
    }
}

// What an option holds; nothing where the value is no option.
fn option_of(v: Value) -> Option<Option<Value>>
    ensures { result ≡ option_of v }
{
    match v.into_parts() {
        Some((Tag::Present, parts)) => match one(parts) {
            None => None,
            Some(v) => Some(Some(v)),
        },
        Some((Tag::Absent, _)) => Some(None),
        _ => None,
    }
}

// The one of a list of one.
fn one(mut parts: Vec<Value>) -> Option<Value>
    ensures { result ≡ one parts.items }
{
    if parts.len() != 1 {
        return None;
    }
    parts.pop()
}

fn collected_list(alloc: Global, values: Vec<Value>) -> Result<Option<Value>, AllocError>
    ensures { IfOk result (λ o. o ≡ option_map list_val (collected [] values.items)) }
{
    match collected(alloc, values)? {
        None => Ok(None),
        Some(kept) => Ok(Some(Value::made(Tag::List, kept))),
    }
}

fn collected(alloc: Global, values: Vec<Value>) -> Result<Option<Vec<Value>>, AllocError>
    ensures { IfOk result (λ o. MatchOption o (collected [] values.items ≡ None) (λ l. collected [] values.items ≡ Some l.items)) }
{
    let mut kept = Vec::new(alloc);
    for v in values {
        match option_of(v) {
            None => return Ok(None),
            Some(o) => kept = with_option(kept, o)?,
        }
    }
    Ok(Some(kept))
}

fn with_option(mut held: Vec<Value>, o: Option<Value>) -> Result<Vec<Value>, AllocError>
    ensures { IfOk result (λ l. l.items ≡ with_option held.items o) }
{
    match o {
        None => Ok(held),
        Some(v) => {
            held.push(v)?;
            Ok(held)
        }
    }
}

fn payload_tuple(alloc: Global, values: Vec<Value>) -> Result<Option<Value>, AllocError>
    ensures { IfOk result (λ o. o ≡ option_map tuple_val (payloads [] values.items)) }
{
    match payloads(alloc, values)? {
        None => Ok(None),
        Some(texts) => Ok(Some(Value::term(Term::Tuple(texts)))),
    }
}

fn payloads(alloc: Global, values: Vec<Value>) -> Result<Option<Items<Text>>, AllocError>
    ensures { IfOk result (λ o. o ≡ payloads [] values.items) }
{
    let mut texts = Vec::new(alloc);
    for v in values {
        match payload_text(v) {
            None => return Ok(None),
            Some(text) => texts.push(text)?,
        }
    }
    Ok(Some(Items(texts)))
}

fn payload_text(v: Value) -> Option<Text>
    ensures { result ≡ payload_of v }
{
    match v.into_term() {
        Some(Term::Payload(text)) => Some(text),
        _ => None,
    }
}

/// The texts that a list of texts names.
pub fn texts_of(
    alloc: Global,
    setting: &Setting<'_>,
    v: &Value,
) -> Result<Option<Vec<Text>>, AllocError>
    ensures { IfOk result (λ o. MatchOption o (texts_of (program_of setting.now) v.now ≡ None) (λ l. texts_of (program_of setting.now) v.now ≡ Some l.items)) }
{
    match v.as_list() {
        None => Ok(None),
        Some(parts) => texts_among(alloc, setting, parts),
    }
}

fn texts_among(
    alloc: Global,
    setting: &Setting<'_>,
    values: &[Value],
) -> Result<Option<Vec<Text>>, AllocError>
    ensures { IfOk result (λ o. MatchOption o (texts_among (program_of setting.now) [] values.now ≡ None) (λ l. texts_among (program_of setting.now) [] values.now ≡ Some l.items)) }
{
    let mut texts = Vec::new(alloc);
    for v in values {
        match named_text(setting, v) {
            None => return Ok(None),
            Some(text) => texts.push(copied_text(text)?)?,
        }
    }
    Ok(Some(texts))
}

// The text that a value names.
fn named_text<'p>(setting: &Setting<'p>, v: &Value) -> Option<&'p Text>
    ensures { option_copied result ≡ named_text (program_of setting.now) v.now }
{
    match v.as_atom() {
        Some(Atom::Text(n)) => text_at(&setting.code.texts, *n),
        _ => None,
    }
}

fn unrecognized_token(
    alloc: Global,
    setting: &Setting<'_>,
    token: Value,
    expected: Value,
) -> Result<Option<Value>, AllocError>
    ensures { IfOk result (λ o. o ≡ unrecognized_token (program_of setting.now) token expected) }
{
    match spanned_token(token) {
        None => Ok(None),
        Some(token) => match texts_of(alloc, setting, &expected)? {
            None => Ok(None),
            Some(texts) => {
                let expected = Items(texts);
                let error = ParseError::UnrecognizedToken { token, expected };
                Ok(Some(error_value(alloc, error)?))
            }
        },
    }
}

fn unrecognized_eof(
    alloc: Global,
    setting: &Setting<'_>,
    location: Value,
    expected: Value,
) -> Result<Option<Value>, AllocError>
    ensures { IfOk result (λ o. o ≡ unrecognized_eof (program_of setting.now) location expected) }
{
    match location.as_location() {
        None => Ok(None),
        Some(location) => match texts_of(alloc, setting, &expected)? {
            None => Ok(None),
            Some(texts) => {
                let expected = Items(texts);
                let error = ParseError::UnrecognizedEof { location, expected };
                Ok(Some(error_value(alloc, error)?))
            }
        },
    }
}
