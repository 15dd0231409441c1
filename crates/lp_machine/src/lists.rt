//! Changes of lists at their ends.

ghost use Rattle.std.specs.Prelude.{◌≡◌, ◌+◌, ◌-◌, ◌≤◌, [], ◌∷◌, ◌++◌, length, take, drop, slice_get, IfOk, MatchOption};
ghost use Rattle.lp_machine.specs.ReductionSpan.{popped, below};
ghost use Rattle.lp_driver.specs.DriverState.{last_of};

use lp_repr::text::Items;
use std::alloc::{AllocError, Global};

/// A list of none.
pub fn none<T>(alloc: Global) -> Items<T>
    ensures { result ≡ [] }
{
    Items(Vec::new(alloc))
}

/// Puts an element at the end.
pub fn push<T: Drop>(list: &mut Items<T>, x: T) -> Result<(), AllocError>
    ensures { IfOk result (λ _. list.new ≡ list.old ++ x ∷ []) }
{
    list.0.push(x)?;
    Ok(())
}

/// Takes off the last n elements.
pub fn cut<T: Drop>(list: &mut Items<T>, n: usize)
    ensures { list.new ≡ below n list.old }
{
    let keep = list.0.len().saturating_sub(n);
    list.0.truncate(keep);
}

/// Keeps the first n elements.
pub fn keep<T: Drop>(list: &mut Items<T>, n: usize)
    ensures { list.new ≡ take n list.old }
{
    list.0.truncate(n);
}

/// The first n elements, or all.
pub fn front<T>(list: &[T], n: usize) -> &[T]
    ensures { result.now ≡ take n list.now }
{
    if n <= list.len() { &list[..n] } else { list }
}

/// The elements after the first n.
pub fn back<T>(list: &[T], n: usize) -> &[T]
    ensures { result.now ≡ drop n list.now }
{
    if n <= list.len() {
        &list[n..]
    } else {
        &list[list.len()..]
    }
}

/// The last n elements.
pub fn popped<T>(list: &Items<T>, n: usize) -> &[T]
    ensures { result.now ≡ popped n list.now }
{
    let list = list.as_slice();
    back(list, list.len().saturating_sub(n))
}

/// The elements below the last n.
pub fn under<T>(list: &[T], n: usize) -> &[T]
    ensures { result.now ≡ below n list.now }
{
    front(list, list.len().saturating_sub(n))
}

/// Takes off the first element.
pub fn take_first<T>(list: &mut Items<T>) -> Option<T>
    ensures { MatchOption result ((list.old ≡ []) × (list.new ≡ [])) (λ x. list.old ≡ x ∷ list.new) }
{
    if list.0.is_empty() {
        return None;
    }
    Some(list.0.remove(0))
}

/// Puts these elements at the end.
pub fn append<T: Drop>(list: &mut Items<T>, mut more: Items<T>) -> Result<(), AllocError>
    ensures { IfOk result (λ _. list.new ≡ list.old ++ more) }
{
    list.0.append(&mut more.0)
}

/// The sum, where memory could hold so many.
pub fn plus(a: usize, b: usize) -> Result<usize, AllocError>
    ensures { IfOk result (λ sum. sum ≡ a + b) }
{
    a.checked_add(b).ok_or(AllocError)
}

/// The number of the next call after these, of which the first has number n.
pub fn number_after<T>(n: u64, calls: &Items<T>) -> Result<u64, AllocError>
    ensures { IfOk result (λ number. number ≡ n + length calls.now) }
{
    n.checked_add(calls.as_slice().len() as u64)
        .ok_or(AllocError)
}

/// The last of these states.
pub fn top(states: &[usize]) -> Option<usize>
    ensures { result ≡ last_of states.now }
{
    states.last().copied()
}
