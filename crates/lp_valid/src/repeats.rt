//! Things that stand twice.

ghost use Rattle.std.specs.Prelude.{◌≡◌, IfOk};
ghost use Rattle.std.specs.List.{list_any};
ghost use Rattle.std.specs.Ordering.{is_eq};
ghost use Rattle.lp_valid.specs.Members.{has_by};
ghost use Rattle.lp_valid.specs.Places.{IsNew, IsFirstFailing};

use std::alloc::{AllocError, Global};
use std::collections::BTreeSet;

/// The first item that is equal to one before it.
pub(crate) fn failing_repeat<T: Ord>(
    alloc: Global,
    items: &[T],
) -> Result<Option<usize>, AllocError>
    ensures { IfOk result (IsFirstFailing (IsNew T.cmp items.now)) }
{
    let mut seen = BTreeSet::new(alloc);
    for (place, item) in items.iter().enumerate() {
        if !seen.insert(item)? {
            return Ok(Some(place));
        }
    }
    Ok(None)
}

/// The items as a set.
pub(crate) fn gathered<T: Ord>(alloc: Global, items: &[T]) -> Result<BTreeSet<&T>, AllocError>
    ensures { IfOk result (λ s. (x : T) → has_by T.cmp s x ≡ list_any (λ y. is_eq (T.cmp y x)) items.now) }
{
    let mut set = BTreeSet::new(alloc);
    for item in items {
        set.insert(item)?;
    }
    Ok(set)
}
