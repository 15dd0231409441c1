//! What is done with numbers of printed types.

ghost use Rattle.std.specs.Prelude.{◌≡◌, ◌+◌, ◌*◌, Some, None};
ghost use Rattle.std.specs.Option.{option_map};
ghost use Rattle.lp_core.specs.Numbers as meaning;
ghost use Rattle.lp_core.specs.Numbers.{number_of, successor, predecessor, negated, index_within, index_less};
ghost use Rattle.lp_core.specs.OpMeaning.{is_zero, is_positive};

use crate::cell::typed;
use crate::value::{Atom, Value};

/// A number, of whichever type.
pub fn number(v: &Value) -> Option<i128>
    ensures { result ≡ number_of v.now }
{
    match v.as_atom() {
        Some(Atom::State(_, n)) => Some(i128::from(*n)),
        Some(Atom::Index(n)) => Some(*n as i128),
        _ => None,
    }
}

/// `x == 0`.
pub fn is_zero(v: &Value) -> Option<Value>
    ensures { result ≡ option_map is_zero (number_of v.now) }
{
    match number(v) {
        None => None,
        Some(n) => Some(Value::bool(n == 0)),
    }
}

/// `x > 0`.
pub fn is_positive(v: &Value) -> Option<Value>
    ensures { result ≡ option_map is_positive (number_of v.now) }
{
    match number(v) {
        None => None,
        Some(n) => Some(Value::bool(0 < n)),
    }
}

/// `x as usize`.
pub fn as_index(v: &Value) -> Option<Value>
    ensures { result ≡ meaning.as_index v.now }
{
    match v.as_atom() {
        Some(Atom::State(_, n)) => {
            if *n < 0 {
                None
            } else {
                Some(Value::index(*n as usize))
            }
        }
        Some(Atom::Index(n)) => Some(Value::index(*n)),
        _ => None,
    }
}

/// `x + 1`, on the printed type.
pub fn successor(v: &Value) -> Option<Value>
    ensures { result ≡ successor v.now }
{
    match v.as_atom() {
        Some(Atom::State(kind, n)) => typed(*kind, i64::from(*n) + 1),
        Some(Atom::Index(n)) => sum(*n, 1),
        _ => None,
    }
}

/// `x - 1`, on the printed type.
pub fn predecessor(v: &Value) -> Option<Value>
    ensures { result ≡ predecessor v.now }
{
    match v.as_atom() {
        Some(Atom::State(kind, n)) => typed(*kind, i64::from(*n) - 1),
        Some(Atom::Index(n)) => difference(*n, 1),
        _ => None,
    }
}

/// `-x`, on the printed type.
pub fn negated(v: &Value) -> Option<Value>
    ensures { result ≡ negated v.now }
{
    match v.as_atom() {
        Some(Atom::State(kind, n)) => typed(*kind, -i64::from(*n)),
        _ => None,
    }
}

/// The sum of two `usize`, if it is one.
pub fn sum(m: usize, n: usize) -> Option<Value>
    ensures { result ≡ index_within (m + n) }
{
    match m.checked_add(n) {
        None => None,
        Some(sum) => Some(Value::index(sum)),
    }
}

/// The product of two `usize`, if it is one.
pub fn product(m: usize, n: usize) -> Option<Value>
    ensures { result ≡ index_within (m * n) }
{
    match m.checked_mul(n) {
        None => None,
        Some(product) => Some(Value::index(product)),
    }
}

/// The difference of two `usize`, if it is one.
pub fn difference(m: usize, n: usize) -> Option<Value>
    ensures { result ≡ index_less m n }
{
    match m.checked_sub(n) {
        None => None,
        Some(difference) => Some(Value::index(difference)),
    }
}
