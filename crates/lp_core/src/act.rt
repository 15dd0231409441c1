//! What is done with no value, and with one.

ghost use Rattle.std.specs.Prelude.{◌≡◌, ◌<◌, pos, [], ◌∷◌, length, IfSome, IfOk, OnOk, slice_get};
ghost use Rattle.std.specs.Option.{option_map, option_and_then, option_copied};
ghost use Rattle.lp_core.specs.Reading.{term_of};
ghost use Rattle.lp_core.specs.Store.{States, program_of, store_of};
ghost use Rattle.lp_core.specs.Effect.{effect, stored, written};
ghost use Rattle.lp_core.specs.Effect as effects;
ghost use Rattle.lp_core.specs.declared.expr.Leaf.TheVariants as leaf;
ghost use Rattle.lp_core.specs.OpMeaning as meaning;
ghost use Rattle.lp_core.specs.OpMeaning.{place, item_val, leaf_meaning, op_meaning, part_of, entry_in, entry, user_error, spanned_token, extra_token, payload, payload_in};

use crate::cell::{Cell, typed};
use crate::copies::{copied_text, copied_value};
use crate::expr::{Leaf, Op, Table};
use crate::numbers::{as_index, is_positive, is_zero, negated, predecessor, successor};
use crate::slots::{
    change_cell, copy_states, done, given, new_cell, read, take, write, write_parts,
};
use crate::value::{Atom, Tag, Value};
use crate::world::{Done, Setting, World};
use lp_repr::Text;
use lp_repr::values::{
    Loc, ParseError, RunItem, RunParseError, SpannedToken, Term, TokenValue, UserError,
};
use std::alloc::{AllocError, Global};

/// What needs no value first.
pub fn do_leaf(
    alloc: Global,
    setting: &Setting<'_>,
    world: &mut World,
    leaf: &Leaf,
) -> Result<Done, AllocError>
    ensures does { IfOk result (λ d. effect d (store_of world.new) ≡ leaf_meaning (program_of setting.now) leaf.now (store_of world.old)) }
    ensures events { OnOk result (world.new.events ≡ world.old.events) }
{
    match leaf {
        Leaf::Empty(tag) => Ok(Done::Valued(Value::empty(alloc, *tag))),
        Leaf::Bool(b) => Ok(Done::Valued(Value::bool(*b))),
        Leaf::Index(n) => Ok(Done::Valued(Value::index(*n))),
        Leaf::State(kind, n) => Ok(given(typed(*kind, i64::from(*n)))),
        Leaf::Text(n) => Ok(Done::Valued(Value::plain(Atom::Text(*n)))),
        Leaf::DefaultLocation => Ok(Done::Valued(Value::location(Loc::Default))),
        Leaf::Read(x) => read(alloc, world, *x),
        Leaf::Take(x) => Ok(take(world, *x)),
        Leaf::NextItem => next_item(alloc, setting, world),
        Leaf::NewStates => new_states(alloc, world),
        Leaf::Stuck => Ok(Done::Stuck),
    }
}

fn new_states(alloc: Global, world: &mut World) -> Result<Done, AllocError>
    ensures does { IfOk result (λ d. effect d (store_of world.new) ≡ effects.new_cell (States (pos 0 ∷ [])) (store_of world.old)) }
    ensures events { OnOk result (world.new.events ≡ world.old.events) }
{
    let mut states = Vec::new(alloc);
    states.push(0)?;
    new_cell(world, Cell::States(states))
}

fn next_item(alloc: Global, setting: &Setting<'_>, world: &mut World) -> Result<Done, AllocError>
    ensures does { IfOk result (λ d. effect d (store_of world.new) ≡ leaf_meaning (program_of setting.now) leaf.NextItem (store_of world.old)) }
    ensures events { OnOk result (world.new.events ≡ world.old.events) }
{
    match item_at(setting.items, world.taken) {
        None => Ok(Done::Valued(Value::empty(alloc, Tag::Absent))),
        Some(item) => {
            world.taken += 1;
            let v = item_value(alloc, item, setting.located)?;
            Ok(Done::Valued(Value::wrapped(alloc, Tag::Present, v)?))
        }
    }
}

fn item_at(items: &[RunItem], i: usize) -> Option<&RunItem>
    ensures item { option_copied result ≡ slice_get items.now i }
    ensures bound { IfSome result (λ _. i < length items.now) }
{
    items.get(i)
}

fn place(located: bool, l: Loc) -> Loc
    ensures { result ≡ place located l }
{
    if located { l } else { Loc::Default }
}

/// An item as the token source gives it: `Ok` of its triple, or `Err` of its fault.
pub fn item_value(alloc: Global, item: &RunItem, located: bool) -> Result<Value, AllocError>
    ensures { IfOk result (λ v. v ≡ item_val located item.now) }
{
    match item {
        RunItem::Fault(name) => {
            let fault = Value::plain(Atom::User(UserError::Fault(copied_text(name)?)));
            Value::wrapped(alloc, Tag::Failure, fault)
        }
        RunItem::Token(start, token, end) => {
            let value = Value::term(Term::Token(copied_value(alloc, token)?));
            let start = place(located, *start);
            let end = place(located, *end);
            let triple = Value::triple(alloc, start, value, end)?;
            Value::wrapped(alloc, Tag::Success, triple)
        }
    }
}

/// What is done with one value.
pub fn do_op(
    alloc: Global,
    setting: &Setting<'_>,
    world: &mut World,
    op: &Op,
    v: Value,
) -> Result<Done, AllocError>
    ensures does { IfOk result (λ d. effect d (store_of world.new) ≡ op_meaning (program_of setting.now) op.now v (store_of world.old)) }
    ensures events { OnOk result (world.new.events ≡ world.old.events) }
{
    match op {
        Op::Write(x) => Ok(written(alloc, world, *x, v)),
        Op::Part(i) => Ok(given(nth_part(v, *i))),
        Op::Parts(first, count) => Ok(parts_written(alloc, world, *first, *count, v)),
        Op::Wrap(tag) => Ok(Done::Valued(Value::wrapped(alloc, *tag, v)?)),
        Op::AsIndex => Ok(given(as_index(&v))),
        Op::Successor => Ok(given(successor(&v))),
        Op::Predecessor => Ok(given(predecessor(&v))),
        Op::Negate => Ok(given(negated(&v))),
        Op::IsZero => Ok(given(is_zero(&v))),
        Op::IsPositive => Ok(given(is_positive(&v))),
        Op::Entry(table) => Ok(given(entry(setting, *table, &v))),
        Op::Return => Ok(Done::Returned(v)),
        Op::UserError => Ok(given(user_error(alloc, v)?)),
        Op::ExtraToken => Ok(given(extra_token(alloc, v)?)),
        Op::Payload(j) => Ok(given(payload(alloc, &v, *j)?)),
        Op::Assert => Ok(done(alloc, holds(v.as_bool()))),
        Op::NewCell => new_cell(world, Cell::Slot(Some(v))),
        Op::CopyStates => copy_states(alloc, world, &v),
        _ => change_cell(alloc, world, op, &v),
    }
}

fn written(alloc: Global, world: &mut World, x: usize, v: Value) -> Done
    ensures does { effect result (store_of world.new) ≡ stored (written x v (store_of world.old)) }
    ensures events { world.new.events ≡ world.old.events }
{
    let could = write(world, x, v);
    done(alloc, could)
}

fn parts_written(alloc: Global, world: &mut World, first: usize, count: usize, v: Value) -> Done
    ensures does { effect result (store_of world.new) ≡ stored (meaning.parts_stored first count v (store_of world.old)) }
    ensures events { world.new.events ≡ world.old.events }
{
    let could = write_parts(world, first, count, v);
    done(alloc, could)
}

fn holds(o: Option<bool>) -> bool
    ensures { result ≡ meaning.holds o }
{
    match o {
        None => false,
        Some(b) => b,
    }
}

fn nth_part(v: Value, i: usize) -> Option<Value>
    ensures { result ≡ part_of i v }
{
    match v.into_parts() {
        None => None,
        Some((_, parts)) => nth_of(parts, i),
    }
}

fn nth_of(mut parts: Vec<Value>, i: usize) -> Option<Value>
    ensures { result ≡ slice_get parts.items i }
{
    if i >= parts.len() {
        return None;
    }
    Some(parts.swap_remove(i))
}

fn entry(setting: &Setting<'_>, table: usize, v: &Value) -> Option<Value>
    ensures { result ≡ entry (program_of setting.now) table v.now }
{
    match table_at(&setting.code.tables, table) {
        None => None,
        Some(table) => match v.as_index() {
            None => None,
            Some(i) => entry_of(table, i),
        },
    }
}

fn table_at(tables: &[Table], table: usize) -> Option<&Table>
    ensures { option_copied result ≡ slice_get tables.now table }
{
    tables.get(table)
}

fn entry_of(table: &Table, i: usize) -> Option<Value>
    ensures { result ≡ entry_in table.now i }
{
    match number_at(&table.entries, i) {
        None => None,
        Some(n) => match table.entry_type {
            None => None,
            Some(kind) => typed(kind, n),
        },
    }
}

fn number_at(entries: &[i64], i: usize) -> Option<i64>
    ensures { result ≡ slice_get entries.now i }
{
    entries.get(i).copied()
}

/// A parse error as a value.
pub fn error_value(alloc: Global, e: RunParseError) -> Result<Value, AllocError>
    ensures { IfOk result (λ v. v ≡ meaning.failure_val e) }
{
    Ok(Value::plain(Atom::Error(Box::new(alloc, e)?)))
}

fn user_error(alloc: Global, v: Value) -> Result<Option<Value>, AllocError>
    ensures { IfOk result (λ o. o ≡ user_error v) }
{
    match v.into_atom() {
        Some(Atom::User(error)) => Ok(Some(error_value(alloc, ParseError::User { error })?)),
        _ => Ok(None),
    }
}

/// The token of a triple that holds one.
pub fn spanned_token(v: Value) -> Option<SpannedToken>
    ensures { result ≡ spanned_token v }
{
    match v.into_spanned() {
        None => None,
        Some((start, token, end)) => match token.into_term() {
            Some(Term::Token(token)) => Some((start, token, end)),
            _ => None,
        },
    }
}

fn extra_token(alloc: Global, v: Value) -> Result<Option<Value>, AllocError>
    ensures { IfOk result (λ o. o ≡ extra_token v) }
{
    match spanned_token(v) {
        None => Ok(None),
        Some(token) => Ok(Some(error_value(alloc, ParseError::ExtraToken { token })?)),
    }
}

/// The token that a value is.
pub fn token_of(v: &Value) -> Option<&TokenValue>
    ensures { option_copied result ≡ option_and_then meaning.token_in (term_of v.now) }
{
    match v.as_atom() {
        Some(Atom::Term(Term::Token(token))) => Some(token),
        _ => None,
    }
}

// A payload that isn't there is the empty text.
fn payload(alloc: Global, v: &Value, j: usize) -> Result<Option<Value>, AllocError>
    ensures { IfOk result (λ o. o ≡ payload j v.now) }
{
    match token_of(v) {
        None => Ok(None),
        Some(token) => {
            let text = payload_text(alloc, token, j)?;
            Ok(Some(Value::term(Term::Payload(text))))
        }
    }
}

fn payload_text(alloc: Global, token: &TokenValue, j: usize) -> Result<Text, AllocError>
    ensures { IfOk result (λ t. t ≡ meaning.text_or_empty (slice_get token.now.payloads j)) }
{
    match text_at(token.payloads.as_slice(), j) {
        None => Ok(Text(String::new(alloc))),
        Some(text) => copied_text(text),
    }
}

/// The text of a number.
pub fn text_at(texts: &[Text], n: usize) -> Option<&Text>
    ensures { option_copied result ≡ slice_get texts.now n }
{
    texts.get(n)
}
