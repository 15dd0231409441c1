//! The values of a running program.

ghost use Rattle.std.specs.Prelude.{◌≡◌, ◌||◌, int_lt, if◌then◌else◌, Some, None, IfOk, MatchOption, length, slice_get};
ghost use Rattle.std.specs.Option.{option_copied, option_map};
ghost use Rattle.lp_driver.specs.Values.{value_of};
ghost use Rattle.lp_core.specs.Datum as atom;
ghost use Rattle.lp_core.specs.Datum.{datum_of};
ghost use Rattle.lp_core.specs.Val.{vals_of, Made};
ghost use Rattle.lp_core.specs.Val as val;
ghost use Rattle.lp_core.specs.Reading.{datum, parts_of, parts, tag_of, index_of, state_of, truth_of, cell_of, location_of, term_of, empty, wrapped, triple, location, option_val, three, spanned_of, span_in, list_parts};
ghost use Rattle.lp_core.specs.declared.value.Tag.TheVariants as tag;
ghost use Rattle.lp_core.specs.Numbers.{fitting, index, truth};

use crate::copies::{copied_error, copied_term, copied_user_error};
use lp_repr::values::{Loc, RunParseError, Term, UserError};
use std::alloc::{AllocError, Global};
use std::marker::Model;

/// A printed state type.
#[derive(Clone, Copy)]
pub enum StateType {
    I8,
    I16,
    I32,
}

impl StateType {
    /// The number, if it is in the range of this type.
    pub fn fitting(self, number: i64) -> Option<i32>
        ensures { result ≡ fitting self number }
    {
        match self {
            StateType::I8 => within(number, -128, 127),
            StateType::I16 => within(number, -32768, 32767),
            StateType::I32 => within(number, -2147483648, 2147483647),
        }
    }
}

// The number, if it is between these, both included.
fn within(number: i64, low: i32, high: i32) -> Option<i32>
    ensures { result ≡ (if int_lt number low || int_lt high number then None else Some number) }
{
    if number < i64::from(low) || i64::from(high) < number {
        None
    } else {
        Some(number as i32)
    }
}

/// What a value with parts is.
#[derive(Clone, Copy, PartialEq, Eq)]
pub enum Tag {
    Tuple,
    List,
    /// `None` and `Some`.
    Absent,
    Present,
    /// `Ok` and `Err`.
    Success,
    Failure,
    /// The two simulated reductions.
    Accept,
    Reduce,
    /// An enum value, by the number of its variant's name.
    Variant(usize),
}

/// A value without parts.
#[derive(Drop)]
pub enum Atom {
    /// Of a name that has no value yet.
    Unset,
    Bool(bool),
    /// A `usize`.
    Index(usize),
    /// A number of a state type.
    State(StateType, i32),
    /// The value of a symbol, or a location.
    Term(Term),
    /// A parse error.
    Error(Box<RunParseError>),
    /// The error that a `ParseError::User` holds.
    User(UserError),
    /// A text of the program, by its number.
    Text(usize),
    /// What the parameter of this number was given.
    Param(usize),
    /// A reference to a cell, by its number.
    Cell(usize),
}

/// An atom, which contracts see with no box.
#[derive(Drop)]
struct Plain {
    atom: Atom,
}

impl Model for Plain {
    ghost use Rattle.lp_core.specs.Datum.{Datum, datum_of};

    ghost Value = { Datum };

    ghost view = { λ p. datum_of p.atom };
}

#[cycle(values)]
#[derive(Drop)]
enum Kind {
    Plain(Plain),
    Made(Tag, Vec<Value>),
}

/// A value of a running program, which contracts see with no pointers.
#[cycle(values)]
#[derive(Drop)]
pub struct Value {
    kind: Kind,
}

impl Model for Value {
    ghost use Rattle.lp_core.specs.Val.{Val};

    ghost Value = { Val };

    ghost use Rattle.std.specs.Prelude.{List};
    ghost use Rattle.std.specs.Coded.{codes, code_by};
    ghost use Rattle.lp_core.specs.contracts.value.Tag as tag;
    ghost use Rattle.lp_core.specs.contracts.value.Plain as plain;
    ghost use Rattle.lp_core.specs.ValCode.{Token, tokens, value_from, from_tokens};

    ghost coded = { code_by (List Token) (Prim.hlevel (codes, tag.the_row.coded, plain.the_row.coded)) tokens value_from from_tokens };

    ghost use Rattle.lp_core.specs.ValView.{val_of};
    ghost use Rattle.lp_core.specs.Val.{size_of};

    ghost view = { λ v. val_of v.kind };

    ghost size = { size_of };

    ghost use Rattle.lp_core.specs.ValFalls.{parts_smaller};

    ghost size_decreases = { λ v _. parts_smaller v.kind };
}

impl Atom {
    /// Another atom like this one.
    pub fn copied(&self, alloc: Global) -> Result<Atom, AllocError>
        ensures { IfOk result (λ copy. datum_of copy ≡ datum_of self.now) }
    {
        Ok(match self {
            Atom::Unset => Atom::Unset,
            Atom::Bool(b) => Atom::Bool(*b),
            Atom::Index(n) => Atom::Index(*n),
            Atom::State(kind, n) => Atom::State(*kind, *n),
            Atom::Term(t) => Atom::Term(copied_term(alloc, t)?),
            Atom::Error(e) => Atom::Error(Box::new(alloc, copied_error(alloc, e)?)?),
            Atom::User(e) => Atom::User(copied_user_error(e)?),
            Atom::Text(n) => Atom::Text(*n),
            Atom::Param(n) => Atom::Param(*n),
            Atom::Cell(n) => Atom::Cell(*n),
        })
    }
}

impl Plain {
    fn copied(&self, alloc: Global) -> Result<Plain, AllocError>
        ensures { IfOk result (λ copy. copy ≡ self.now) }
    {
        Ok(Plain {
            atom: self.atom.copied(alloc)?,
        })
    }

    fn as_atom(&self) -> &Atom
        ensures { datum_of result.now ≡ self.now }
    {
        &self.atom
    }

    fn into_atom(self) -> Atom
        ensures { datum_of result ≡ self }
    {
        self.atom
    }
}

impl Value {
    /// A value without parts.
    pub fn plain(atom: Atom) -> Value
        ensures { result ≡ val.Plain (datum_of atom) }
    {
        Value {
            kind: Kind::Plain(Plain { atom }),
        }
    }

    /// A value with these parts.
    pub fn made(tag: Tag, parts: Vec<Value>) -> Value
        ensures { result ≡ Made tag (vals_of parts.items) }
    {
        Value {
            kind: Kind::Made(tag, parts),
        }
    }

    /// The value of a name that has none yet.
    pub fn unset() -> Value
        ensures { result ≡ val.Plain atom.Unset }
    {
        Value::plain(Atom::Unset)
    }

    /// A `usize` as a value.
    pub fn index(n: usize) -> Value
        ensures { result ≡ index n }
    {
        Value::plain(Atom::Index(n))
    }

    /// A `bool` as a value.
    pub fn bool(b: bool) -> Value
        ensures { result ≡ truth b }
    {
        Value::plain(Atom::Bool(b))
    }

    /// A term as a value: that of a symbol, or a location.
    pub fn term(t: Term) -> Value
        ensures { result ≡ val.Plain (atom.Parsed (value_of t)) }
    {
        Value::plain(Atom::Term(t))
    }

    /// A location as a value.
    pub fn location(l: Loc) -> Value
        ensures { result ≡ location l }
    {
        Value::term(Term::Location(l))
    }

    /// A value with no parts, as `()` and `None`.
    pub fn empty(alloc: Global, tag: Tag) -> Value
        ensures { result ≡ empty tag }
    {
        Value::made(tag, Vec::new(alloc))
    }

    /// A value with one part, as `Some(v)`.
    pub fn wrapped(alloc: Global, tag: Tag, v: Value) -> Result<Value, AllocError>
        ensures { IfOk result (λ w. w ≡ wrapped tag v) }
    {
        let mut parts = Vec::new(alloc);
        parts.push(v)?;
        Ok(Value::made(tag, parts))
    }

    /// An option as a value.
    pub fn option(alloc: Global, o: Option<Value>) -> Result<Value, AllocError>
        ensures { IfOk result (λ w. w ≡ option_val o) }
    {
        match o {
            None => Ok(Value::empty(alloc, Tag::Absent)),
            Some(v) => Value::wrapped(alloc, Tag::Present, v),
        }
    }

    /// A symbol's value with its span.
    pub fn triple(alloc: Global, start: Loc, v: Value, end: Loc) -> Result<Value, AllocError>
        ensures { IfOk result (λ w. w ≡ triple start v end) }
    {
        let mut parts = Vec::new(alloc);
        parts.push(Value::location(start))?;
        parts.push(v)?;
        parts.push(Value::location(end))?;
        Ok(Value::made(Tag::Tuple, parts))
    }

    /// Another value like this one.
    pub fn copied(&self, alloc: Global) -> Result<Value, AllocError>
        ensures { IfOk result (λ copy. copy ≡ self.now) }
    {
        match &self.kind {
            Kind::Plain(plain) => Ok(Value {
                kind: Kind::Plain(plain.copied(alloc)?),
            }),
            Kind::Made(tag, parts) => {
                let mut copies = Vec::with_capacity(alloc, parts.len())?;
                for part in parts {
                    copies.push(part.copied(alloc)?)?;
                }
                Ok(Value::made(*tag, copies))
            }
        }
    }

    /// The atom, if the value is one.
    pub fn as_atom(&self) -> Option<&Atom>
        ensures { MatchOption result (datum self.now ≡ None) (λ a. datum self.now ≡ Some (datum_of a.now)) }
    {
        match &self.kind {
            Kind::Plain(plain) => Some(plain.as_atom()),
            Kind::Made(..) => None,
        }
    }

    /// The atom itself, if the value is one.
    pub fn into_atom(self) -> Option<Atom>
        ensures { option_map datum_of result ≡ datum self }
    {
        match self.kind {
            Kind::Plain(plain) => Some(plain.into_atom()),
            Kind::Made(..) => None,
        }
    }

    /// The tag, if the value has one.
    pub fn tag(&self) -> Option<Tag>
        ensures { result ≡ tag_of self.now }
    {
        match &self.kind {
            Kind::Plain(_) => None,
            Kind::Made(tag, _) => Some(*tag),
        }
    }

    /// How many parts the value has.
    #[tactic(auto, using(crate::proofs::Values::list_of_vals))]
    pub fn count(&self) -> usize
        ensures { result ≡ length (parts self.now) }
    {
        match &self.kind {
            Kind::Plain(_) => 0,
            Kind::Made(_, parts) => parts.len(),
        }
    }

    /// A part.
    #[tactic(auto, using(crate::proofs::Values::list_of_vals))]
    pub fn part(&self, i: usize) -> Option<&Value>
        ensures { option_copied result ≡ slice_get (parts self.now) i }
    {
        match &self.kind {
            Kind::Plain(_) => None,
            Kind::Made(_, parts) => nth(parts, i),
        }
    }

    /// The parts, if the value is a list.
    #[tactic(auto, using(crate::proofs::Values::list_of_vals))]
    pub fn as_list(&self) -> Option<&[Value]>
        ensures { MatchOption result (list_parts self.now ≡ None) (λ l. list_parts self.now ≡ Some l.now) }
    {
        match &self.kind {
            Kind::Made(Tag::List, parts) => Some(parts.as_slice()),
            _ => None,
        }
    }

    /// The tag and the parts.
    #[tactic(auto, using(crate::proofs::Values::list_of_vals))]
    pub fn into_parts(self) -> Option<(Tag, Vec<Value>)>
        ensures { MatchOption result (parts_of self ≡ None) (λ r. parts_of self ≡ Some (r.0, r.1.items)) }
    {
        match self.kind {
            Kind::Plain(_) => None,
            Kind::Made(tag, parts) => Some((tag, parts)),
        }
    }

    /// The `usize`, if the value is one.
    pub fn as_index(&self) -> Option<usize>
        ensures { result ≡ index_of self.now }
    {
        match self.as_atom() {
            Some(Atom::Index(n)) => Some(*n),
            _ => None,
        }
    }

    /// A number of a state type.
    pub fn as_state(&self) -> Option<i32>
        ensures { result ≡ state_of self.now }
    {
        match self.as_atom() {
            Some(Atom::State(_, n)) => Some(*n),
            _ => None,
        }
    }

    /// The `bool`, if the value is one.
    pub fn as_bool(&self) -> Option<bool>
        ensures { result ≡ truth_of self.now }
    {
        match self.as_atom() {
            Some(Atom::Bool(b)) => Some(*b),
            _ => None,
        }
    }

    /// The number of the cell, counted from 0, if the value is a reference to one.
    pub fn as_cell(&self) -> Option<usize>
        ensures { result ≡ cell_of self.now }
    {
        match self.as_atom() {
            Some(Atom::Cell(n)) => Some(*n),
            _ => None,
        }
    }

    /// The location, if the value is one.
    pub fn as_location(&self) -> Option<Loc>
        ensures { result ≡ location_of self.now }
    {
        match self.as_atom() {
            Some(Atom::Term(Term::Location(l))) => Some(*l),
            _ => None,
        }
    }

    /// The term, if the value is one; a location is one too.
    pub fn into_term(self) -> Option<Term>
        ensures { option_map value_of result ≡ term_of self }
    {
        match self.into_atom() {
            Some(Atom::Term(t)) => Some(t),
            _ => None,
        }
    }

    /// The start, the value and the end of a triple of locations and a value.
    pub fn into_spanned(self) -> Option<(Loc, Value, Loc)>
        ensures { result ≡ spanned_of self }
    {
        match self.into_parts() {
            Some((Tag::Tuple, parts)) => spanned(parts),
            _ => None,
        }
    }
}

fn nth(parts: &[Value], i: usize) -> Option<&Value>
    ensures { option_copied result ≡ slice_get parts.now i }
{
    parts.get(i)
}

fn spanned(parts: Vec<Value>) -> Option<(Loc, Value, Loc)>
    ensures { result ≡ span_in (tag.Tuple, parts.items) }
{
    match three(parts) {
        None => None,
        Some((start, v, end)) => match (start.as_location(), end.as_location()) {
            (Some(start), Some(end)) => Some((start, v, end)),
            _ => None,
        },
    }
}

// The three of a list of three.
fn three(mut parts: Vec<Value>) -> Option<(Value, Value, Value)>
    ensures { result ≡ three parts.items }
{
    if parts.len() != 3 {
        return None;
    }
    let third = parts.pop()?;
    let second = parts.pop()?;
    let first = parts.pop()?;
    Some((first, second, third))
}
