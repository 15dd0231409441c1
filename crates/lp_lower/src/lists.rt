//! Lists that grow.

ghost use Rattle.std.specs.Prelude.{◌≡◌, ◌++◌, [], ◌∷◌, OnOk};

use lp_repr::text::Items;
use std::alloc::{AllocError, Global};

/// A list of none.
pub fn empty<T>(alloc: Global) -> Items<T>
    ensures { result ≡ [] }
{
    Items(Vec::new(alloc))
}

/// Appends one more.
pub fn push<T: Drop>(list: &mut Items<T>, item: T) -> Result<(), AllocError>
    ensures { OnOk result (list.new ≡ list.old ++ item ∷ []) }
{
    list.0.push(item)?;
    Ok(())
}
