//! Sets of items without their lookaheads.

ghost use Rattle.std.specs.Prelude.{IfOk};
ghost use Rattle.lp_tables.specs.ItemSets.{IsSetOf};

use lp_repr::Item;
use std::alloc::{AllocError, Global};
use std::collections::BTreeSet;

/// Productions, each with how many symbols stand before the dot.
pub(crate) type ItemSet = BTreeSet<(usize, usize)>;

/// The items as a set.
pub(crate) fn item_set(alloc: Global, items: &[Item]) -> Result<ItemSet, AllocError>
    ensures { IfOk result (IsSetOf items.now) }
{
    let mut set = BTreeSet::new(alloc);
    for item in items {
        set.insert((item.production, item.index))?;
    }
    Ok(set)
}
