//! Things that are counted through up to the first that breaks its rule.

ghost use Rattle.std.specs.Prelude.{◌≡◌, ◌+◌, [], ◌∷◌, MatchOption, IfOk, IfErr};
ghost use Rattle.std.specs.BTreeMap.{keys, values};
ghost use Rattle.lp_texts.specs.Counted.{Counts, IsNext};

use crate::faults::{TextFault, TextKind, TextPlace};
use std::alloc::{AllocError, Global};
use std::collections::BTreeMap;

/// A rule on things: what is answered of each.
pub(crate) trait Rule<T> {
    ghost use Rattle.std.specs.Prelude.{ℕ, Option, IfOk};

    /// None where it meets the rule, else its first wrong byte.
    ghost answers: { T → Option ℕ → Type 0 };

    fn fault(alloc: Global, thing: &T) -> Result<Option<usize>, AllocError>
        ensures { IfOk result (answers thing.now) };
}

/// The number after that of a thing, if nothing is wrong about it.
fn next(kind: TextKind, number: usize, fault: Option<usize>) -> Result<usize, TextFault>
    ensures { IsNext kind number fault result }
{
    match fault {
        None => number.checked_add(1).ok_or(TextFault::Memory),
        Some(byte) => Err(TextFault::Bad {
            place: TextPlace { kind, number },
            byte,
        }),
    }
}

/// The number after that of a thing, if it meets its rule.
pub(crate) fn check_one<T, R: Rule<T>>(
    alloc: Global,
    kind: TextKind,
    number: usize,
    thing: &T,
) -> Result<usize, TextFault>
    ensures { Counts kind R.answers (thing.now ∷ []) number result }
{
    let fault = R::fault(alloc, thing)?;
    next(kind, number, fault)
}

/// The number after those of the elements of a list, if each meets its rule.
pub(crate) fn check_slice<T, R: Rule<T>>(
    alloc: Global,
    kind: TextKind,
    from: usize,
    things: &[T],
) -> Result<usize, TextFault>
    ensures { Counts kind R.answers things.now from result }
{
    let mut number = from;
    for thing in things {
        number = check_one::<T, R>(alloc, kind, number, thing)?;
    }
    Ok(number)
}

/// The number after those of the keys of a map, if each meets its rule.
pub(crate) fn check_keys<K: Ord, V, R: Rule<K>>(
    alloc: Global,
    kind: TextKind,
    from: usize,
    map: &BTreeMap<K, V>,
) -> Result<usize, TextFault>
    ensures { Counts kind R.answers (keys map.now) from result }
{
    let mut number = from;
    for thing in map.keys() {
        number = check_one::<K, R>(alloc, kind, number, thing)?;
    }
    Ok(number)
}

/// The number after those of the values of a map, if each meets its rule.
pub(crate) fn check_values<K: Ord, V, R: Rule<V>>(
    alloc: Global,
    kind: TextKind,
    from: usize,
    map: &BTreeMap<K, V>,
) -> Result<usize, TextFault>
    ensures { Counts kind R.answers (values map.now) from result }
{
    let mut number = from;
    for thing in map.values() {
        number = check_one::<V, R>(alloc, kind, number, thing)?;
    }
    Ok(number)
}
