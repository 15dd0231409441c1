//! Cells: options and lists that several calls share.

ghost use Rattle.std.specs.Prelude.{◌≡◌, Some, None, IfOk, MatchOption, MatchBool, is_none};
ghost use Rattle.std.specs.Option.{option_map, option_and_then, option_copied};
ghost use Rattle.lp_core.specs.Effect.{unit};
ghost use Rattle.lp_core.specs.Reading.{spanned_val, option_val};
ghost use Rattle.lp_core.specs.Numbers.{index, typed};
ghost use Rattle.lp_core.specs.Store.{held, States};
ghost use Rattle.lp_core.specs.CellMeaning.{last_in, without_last, length_of, popped, last_of, top_of, state_at, states_in, shortened, cut_to, taken_out, read_in, emptiness, pushed, cell_change};

use crate::expr::Op;
use crate::value::{Atom, StateType, Tag, Value};
use lp_repr::values::Loc;
use std::alloc::{AllocError, Global};

/// What a cell holds. The two lists are the driver's, which changes hands with them at no cost.
#[derive(Drop)]
pub enum Cell {
    Slot(Option<Value>),
    States(Vec<i32>),
    Symbols(Vec<(Loc, Value, Loc)>),
}

impl Cell {
    /// What an operation on a reference to this cell gives, if it has a meaning.
    pub fn change(&mut self, alloc: Global, op: &Op) -> Result<Option<Value>, AllocError>
        ensures { IfOk result (λ o. MatchOption o (cell_change op.now (held self.old) ≡ None) (λ v. cell_change op.now (held self.old) ≡ Some (v, held self.new))) }
    {
        match op {
            Op::Length => Ok(self.length_value()),
            Op::Pop => self.pop(alloc),
            Op::Last => self.last(alloc),
            Op::Top(kind) => Ok(self.top_value(*kind)),
            Op::Shorten => Ok(unit_if(alloc, self.shorten())),
            Op::TakeOut => Ok(self.take()),
            Op::ReadIn => self.read(alloc),
            Op::IsEmpty => Ok(self.is_empty()),
            _ => Ok(None),
        }
    }

    /// How long the list is.
    pub fn length(&self) -> Option<usize>
        ensures { result ≡ length_of (held self.now) }
    {
        match self {
            Cell::Slot(_) => None,
            Cell::States(states) => Some(states.len()),
            Cell::Symbols(symbols) => Some(symbols.len()),
        }
    }

    fn length_value(&self) -> Option<Value>
        ensures { result ≡ option_map index (length_of (held self.now)) }
    {
        match self.length() {
            None => None,
            Some(n) => Some(Value::index(n)),
        }
    }

    /// The last symbol, off the list; an option as a value.
    pub fn pop(&mut self, alloc: Global) -> Result<Option<Value>, AllocError>
        ensures { IfOk result (λ o. MatchOption o (popped (held self.old) ≡ None) (λ v. popped (held self.old) ≡ Some (v, held self.new))) }
    {
        match self {
            Cell::Symbols(symbols) => {
                let symbol = last_off(symbols);
                Ok(Some(symbol_option(alloc, symbol)?))
            }
            _ => Ok(None),
        }
    }

    /// The last symbol, which stays; an option as a value.
    pub fn last(&self, alloc: Global) -> Result<Option<Value>, AllocError>
        ensures { IfOk result (λ o. o ≡ last_of (held self.now)) }
    {
        match self {
            Cell::Symbols(symbols) => {
                let symbol = last_copied(alloc, symbols)?;
                Ok(Some(symbol_option(alloc, symbol)?))
            }
            _ => Ok(None),
        }
    }

    /// A state of the list.
    pub fn state(&self, index: usize) -> Option<i32>
        ensures { result ≡ state_at index (held self.now) }
    {
        match self {
            Cell::States(states) => states.get(index).copied(),
            _ => None,
        }
    }

    /// The last state of the list.
    pub fn top(&self) -> Option<i32>
        ensures { result ≡ top_of (held self.now) }
    {
        match self {
            Cell::States(states) => states.last().copied(),
            _ => None,
        }
    }

    // The last state, as a number of a type.
    fn top_value(&self, kind: StateType) -> Option<Value>
        ensures { result ≡ option_and_then (typed kind) (top_of (held self.now)) }
    {
        match self.top() {
            None => None,
            Some(state) => typed(kind, i64::from(state)),
        }
    }

    /// A cell with the same states.
    pub fn copied(&self, alloc: Global) -> Result<Option<Cell>, AllocError>
        ensures { IfOk result (λ o. option_map held o ≡ option_map States (states_in (held self.now))) }
    {
        match self {
            Cell::States(states) => Ok(Some(Cell::States(Vec::from_slice(
                alloc,
                states.as_slice(),
            )?))),
            _ => Ok(None),
        }
    }

    /// Puts one more on the list; false where this can't be.
    pub fn push(&mut self, v: Value) -> Result<bool, AllocError>
        ensures { IfOk result (λ b. MatchBool b (pushed v (held self.old) ≡ Some (held self.new)) (pushed v (held self.old) ≡ None)) }
    {
        match self {
            Cell::Slot(_) => Ok(false),
            Cell::States(states) => match v.as_state() {
                None => Ok(false),
                Some(state) => {
                    states.push(state)?;
                    Ok(true)
                }
            },
            Cell::Symbols(symbols) => match v.into_spanned() {
                None => Ok(false),
                Some(triple) => {
                    symbols.push(triple)?;
                    Ok(true)
                }
            },
        }
    }

    /// Cuts the list of states; false where there is none.
    pub fn truncate(&mut self, length: usize) -> bool
        ensures { MatchBool result (cut_to length (held self.old) ≡ Some (held self.new)) (cut_to length (held self.old) ≡ None) }
    {
        match self {
            Cell::States(states) => {
                states.truncate(length);
                true
            }
            _ => false,
        }
    }

    /// Takes the last state off, if there is one; false where there is no list of states.
    pub fn shorten(&mut self) -> bool
        ensures { MatchBool result (shortened (held self.old) ≡ Some (held self.new)) (shortened (held self.old) ≡ None) }
    {
        match self {
            Cell::States(states) => {
                let _ = states.pop();
                true
            }
            _ => false,
        }
    }

    /// What the option holds, which is empty afterwards.
    pub fn take(&mut self) -> Option<Value>
        ensures { MatchOption result (taken_out (held self.old) ≡ None) (λ v. taken_out (held self.old) ≡ Some (v, held self.new)) }
    {
        match self {
            Cell::Slot(slot) => slot.take(),
            _ => None,
        }
    }

    /// What the option holds.
    pub fn read(&self, alloc: Global) -> Result<Option<Value>, AllocError>
        ensures { IfOk result (λ o. o ≡ read_in (held self.now)) }
    {
        match self {
            Cell::Slot(Some(v)) => Ok(Some(v.copied(alloc)?)),
            _ => Ok(None),
        }
    }

    /// Whether the option holds nothing, as a value.
    pub fn is_empty(&self) -> Option<Value>
        ensures { result ≡ emptiness (held self.now) }
    {
        match self {
            Cell::Slot(slot) => Some(Value::bool(slot.is_none())),
            _ => None,
        }
    }
}

/// `()` where something could be done.
pub fn unit_if(alloc: Global, could: bool) -> Option<Value>
    ensures { MatchBool could (result ≡ Some unit) (result ≡ None) }
{
    if could {
        Some(Value::empty(alloc, Tag::Tuple))
    } else {
        None
    }
}

fn last_off(symbols: &mut Vec<(Loc, Value, Loc)>) -> Option<(Loc, Value, Loc)>
    ensures last { result ≡ last_in symbols.old.items }
    ensures others { symbols.new.items ≡ without_last symbols.old.items }
{
    symbols.pop()
}

fn last_copied(
    alloc: Global,
    symbols: &[(Loc, Value, Loc)],
) -> Result<Option<(Loc, Value, Loc)>, AllocError>
    ensures { IfOk result (λ o. o ≡ last_in symbols.now) }
{
    match last_symbol(symbols) {
        None => Ok(None),
        Some((start, v, end)) => Ok(Some((*start, v.copied(alloc)?, *end))),
    }
}

fn last_symbol(symbols: &[(Loc, Value, Loc)]) -> Option<&(Loc, Value, Loc)>
    ensures { option_copied result ≡ last_in symbols.now }
{
    symbols.last()
}

// A symbol with its span, if there is one, as the value of an option.
fn symbol_option(alloc: Global, symbol: Option<(Loc, Value, Loc)>) -> Result<Value, AllocError>
    ensures { IfOk result (λ v. v ≡ option_val (option_map spanned_val symbol)) }
{
    match symbol {
        None => Ok(Value::empty(alloc, Tag::Absent)),
        Some((start, v, end)) => {
            let triple = Value::triple(alloc, start, v, end)?;
            Value::wrapped(alloc, Tag::Present, triple)
        }
    }
}

/// A number of a state type as a value, if it is in the type's range.
pub fn typed(kind: StateType, number: i64) -> Option<Value>
    ensures { result ≡ typed kind number }
{
    match kind.fitting(number) {
        None => None,
        Some(n) => Some(Value::plain(Atom::State(kind, n))),
    }
}
