//! What the values that a program's methods give are read as.

ghost use Rattle.std.specs.Prelude.{◌≡◌, [], ◌∷◌, Some, None, IfOk, MatchOption, map, string_bytes};
ghost use Rattle.std.specs.Option.{option_map};
ghost use Rattle.lp_driver.specs.Values.{ending_of, ending_option};
ghost use Rattle.lp_core.specs.Reading.{one, two, location};
ghost use Rattle.lp_core.specs.Store.{held, States, Symbols};
ghost use Rattle.lp_core.specs.OpMeaning.{place};
ghost use Rattle.lp_turns.specs.Readings.{index_option, failure_of, fault_in, fault_of, located_item, item_of, success_in, error_in, result_of, some_result, reduction_of, would_reduce, reduce_with, simulated_of, pair_of, stacks_of, with_value, field_values, reduce_arguments};

use lp_core::act::spanned_token;
use lp_core::cell::Cell;
use lp_core::copies::{copied_text, copied_value};
use lp_core::{Atom, Tag, Value};
use lp_driver::Simulated;
use lp_repr::Text;
use lp_repr::values::{Loc, ParseError, RunItem, RunParseError, Term, UserError};
use std::alloc::{AllocError, Global};

/// A symbol's value with its span.
pub type Triple = (Loc, Value, Loc);

// The one of a list of one.
fn one(mut parts: Vec<Value>) -> Option<Value>
    ensures { result ≡ one parts.items }
{
    if parts.len() != 1 {
        return None;
    }
    parts.pop()
}

// The two of a list of two.
fn two(mut parts: Vec<Value>) -> Option<(Value, Value)>
    ensures { result ≡ two parts.items }
{
    if parts.len() != 2 {
        return None;
    }
    let second = parts.pop()?;
    let first = parts.pop()?;
    Some((first, second))
}

/// A list of one value.
pub fn single(alloc: Global, v: Value) -> Result<Vec<Value>, AllocError>
    ensures { IfOk result (λ l. l.items ≡ v ∷ []) }
{
    let mut values = Vec::new(alloc);
    values.push(v)?;
    Ok(values)
}

/// A list of two values.
pub fn both(alloc: Global, first: Value, second: Value) -> Result<Vec<Value>, AllocError>
    ensures { IfOk result (λ l. l.items ≡ first ∷ second ∷ []) }
{
    let mut values = Vec::new(alloc);
    values.push(first)?;
    values.push(second)?;
    Ok(values)
}

/// What an option of a `usize` holds.
pub fn index_option(v: Value) -> Option<Option<usize>>
    ensures { result ≡ index_option v }
{
    match v.into_parts() {
        Some((Tag::Present, parts)) => match one(parts) {
            None => None,
            Some(part) => match part.as_index() {
                None => None,
                Some(i) => Some(Some(i)),
            },
        },
        Some((Tag::Absent, _)) => Some(None),
        _ => None,
    }
}

// A parse error.
fn failure_of(v: Value) -> Option<RunParseError>
    ensures { result ≡ failure_of v }
{
    match v.into_atom() {
        Some(Atom::Error(error)) => Some(Box::into_inner(error)),
        _ => None,
    }
}

// The name of the fault that a parse error tells of.
fn fault_in(error: RunParseError) -> Option<Text>
    ensures { result ≡ fault_in error }
{
    match error {
        ParseError::User { error } => match error {
            UserError::Fault(name) => Some(name),
            UserError::Call(_) => None,
        },
        _ => None,
    }
}

fn fault_of(v: Value) -> Option<Text>
    ensures { result ≡ fault_of v }
{
    match failure_of(v) {
        None => None,
        Some(error) => fault_in(error),
    }
}

// A location of an item.
fn place(located: bool, l: Loc) -> Loc
    ensures { result ≡ place located l }
{
    if located { l } else { Loc::Default }
}

/// An item as it stands, or without its locations.
pub fn located_item(alloc: Global, located: bool, item: &RunItem) -> Result<RunItem, AllocError>
    ensures { IfOk result (λ copy. copy ≡ located_item located item.now) }
{
    match item {
        RunItem::Fault(name) => Ok(RunItem::Fault(copied_text(name)?)),
        RunItem::Token(start, token, end) => Ok(RunItem::Token(
            place(located, *start),
            copied_value(alloc, token)?,
            place(located, *end),
        )),
    }
}

/// What `to_triple` gives: `Ok` of a token with its span, or `Err` of a fault.
pub fn item_of(v: Value) -> Option<RunItem>
    ensures { result ≡ item_of v }
{
    match v.into_parts() {
        Some((Tag::Success, parts)) => match one(parts) {
            None => None,
            Some(triple) => match spanned_token(triple) {
                None => None,
                Some((start, token, end)) => Some(RunItem::Token(start, token, end)),
            },
        },
        Some((Tag::Failure, parts)) => match one(parts) {
            None => None,
            Some(error) => match fault_of(error) {
                None => None,
                Some(name) => Some(RunItem::Fault(name)),
            },
        },
        _ => None,
    }
}

fn success_in(parts: Vec<Value>) -> Option<Result<Term, RunParseError>>
    ensures { option_map ending_of result ≡ success_in parts.items }
{
    match one(parts) {
        None => None,
        Some(v) => match v.into_term() {
            None => None,
            Some(term) => Some(Ok(term)),
        },
    }
}

fn error_in(parts: Vec<Value>) -> Option<Result<Term, RunParseError>>
    ensures { option_map ending_of result ≡ error_in parts.items }
{
    match one(parts) {
        None => None,
        Some(v) => match failure_of(v) {
            None => None,
            Some(error) => Some(Err(error)),
        },
    }
}

/// The result of a parse: `Ok` of what stands for a term, or `Err` of a parse error.
pub fn result_of(v: Value) -> Option<Result<Term, RunParseError>>
    ensures { option_map ending_of result ≡ result_of v }
{
    match v.into_parts() {
        Some((Tag::Success, parts)) => success_in(parts),
        Some((Tag::Failure, parts)) => error_in(parts),
        _ => None,
    }
}

fn some_result(parts: Vec<Value>) -> Option<Option<Result<Term, RunParseError>>>
    ensures { option_map ending_option result ≡ some_result parts.items }
{
    match one(parts) {
        None => None,
        Some(v) => match result_of(v) {
            None => None,
            Some(ended) => Some(Some(ended)),
        },
    }
}

/// How a reduction ends the parse, if it does.
pub fn reduction_of(v: Value) -> Option<Option<Result<Term, RunParseError>>>
    ensures { option_map ending_option result ≡ reduction_of v }
{
    match v.into_parts() {
        Some((Tag::Present, parts)) => some_result(parts),
        Some((Tag::Absent, _)) => Some(None),
        _ => None,
    }
}

fn reduce_with(pop: Option<usize>, nonterminal: Option<usize>) -> Option<Simulated>
    ensures { result ≡ reduce_with pop nonterminal }
{
    match pop {
        None => None,
        Some(pop) => match nonterminal {
            None => None,
            Some(nonterminal) => Some(Simulated::Reduce { pop, nonterminal }),
        },
    }
}

fn would_reduce(parts: Vec<Value>) -> Option<Simulated>
    ensures { result ≡ would_reduce parts.items }
{
    match two(parts) {
        None => None,
        Some((pop, nonterminal)) => reduce_with(pop.as_index(), nonterminal.as_index()),
    }
}

/// What a reduction would do.
pub fn simulated_of(v: Value) -> Option<Simulated>
    ensures { result ≡ simulated_of v }
{
    match v.into_parts() {
        Some((Tag::Accept, _)) => Some(Simulated::Accept),
        Some((Tag::Reduce, parts)) => would_reduce(parts),
        _ => None,
    }
}

/// The two stacks, in cells.
pub fn lent(alloc: Global, states: Vec<i32>, symbols: Vec<Triple>) -> Result<Vec<Cell>, AllocError>
    ensures { IfOk result (λ cells. map held cells.items ≡ States states.items ∷ Symbols symbols.items ∷ []) }
{
    let mut cells = Vec::new(alloc);
    cells.push(Cell::States(states))?;
    cells.push(Cell::Symbols(symbols))?;
    Ok(cells)
}

/// A list of states, in a cell.
pub fn lent_states(alloc: Global, states: &[i32]) -> Result<Vec<Cell>, AllocError>
    ensures { IfOk result (λ cells. map held cells.items ≡ States states.now ∷ []) }
{
    let copy = Vec::from_slice(alloc, states)?;
    let mut cells = Vec::new(alloc);
    cells.push(Cell::States(copy))?;
    Ok(cells)
}

// The two of a list of two.
fn pair_of(mut cells: Vec<Cell>) -> Option<(Cell, Cell)>
    ensures { result ≡ pair_of cells.items }
{
    if cells.len() != 2 {
        return None;
    }
    let second = cells.pop()?;
    let first = cells.pop()?;
    Some((first, second))
}

/// The two stacks that cells hold.
#[tactic(auto, using(crate::proofs::Cells::pair_of_held))]
pub fn stacks_of(cells: Vec<Cell>) -> Option<(Vec<i32>, Vec<Triple>)>
    ensures { MatchOption result (stacks_of (map held cells.items) ≡ None) (λ r. stacks_of (map held cells.items) ≡ Some (r.0.items, r.1.items)) }
{
    match pair_of(cells) {
        None => None,
        Some((first, second)) => match first {
            Cell::States(states) => match second {
                Cell::Symbols(symbols) => Some((states, symbols)),
                _ => None,
            },
            _ => None,
        },
    }
}

fn with_value(mut values: Vec<Value>, v: Value) -> Result<Vec<Value>, AllocError>
    ensures { IfOk result (λ l. l.items ≡ with_value values.items v) }
{
    values.push(v)?;
    Ok(values)
}

/// The values of fields, if each is a parameter of the grammar.
pub fn field_values(
    alloc: Global,
    fields: &[Option<usize>],
) -> Result<Option<Vec<Value>>, AllocError>
    ensures { IfOk result (λ o. MatchOption o (field_values [] fields.now ≡ None) (λ l. field_values [] fields.now ≡ Some l.items)) }
{
    let mut values = Vec::new(alloc);
    for field in fields {
        match *field {
            None => return Ok(None),
            Some(n) => values = with_value(values, Value::plain(Atom::Param(n)))?,
        }
    }
    Ok(Some(values))
}

/// The fields, the production, the start of the lookahead and the two lists.
pub fn reduce_arguments(
    alloc: Global,
    fields: Vec<Value>,
    production: Value,
    start: Option<Loc>,
) -> Result<Vec<Value>, AllocError>
    ensures { IfOk result (λ l. l.items ≡ reduce_arguments fields.items production start) }
{
    let with_production = with_value(fields, production)?;
    let at = Value::option(alloc, location_option(start))?;
    let with_start = with_value(with_production, at)?;
    let with_states = with_value(with_start, Value::plain(Atom::Cell(0)))?;
    let args = with_value(with_states, Value::plain(Atom::Cell(1)))?;
    Ok(args)
}

fn location_option(start: Option<Loc>) -> Option<Value>
    ensures { result ≡ option_map location start }
{
    match start {
        None => None,
        Some(l) => Some(Value::location(l)),
    }
}

/// The texts as strings.
pub fn strings_of(alloc: Global, texts: Vec<Text>) -> Result<Vec<String>, AllocError>
    ensures { IfOk result (λ l. map string_bytes l.items ≡ texts.items) }
{
    let mut strings = Vec::new(alloc);
    for text in texts {
        strings.push(text.0)?;
    }
    Ok(strings)
}
