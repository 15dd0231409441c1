//! The order of types.

ghost use Rattle.std.specs.Prelude.{◌≡◌};
ghost use Rattle.std.specs.Cmp.{IsTotalOrder};
ghost use Rattle.lp_repr.specs.TypeOrder.{type_cmp, TiesAreEqual};

use crate::repr::TypeRepr;
use std::cmp::Ordering;

/// How two types are ordered. The order is total, and it ties exactly the types that are equal.
pub fn compare_types(left: &TypeRepr, right: &TypeRepr) -> Ordering
    ensures order { result ≡ type_cmp left.now right.now }
    ensures total { IsTotalOrder type_cmp }
    ensures ties { TiesAreEqual }
{
    left.cmp(right)
}
