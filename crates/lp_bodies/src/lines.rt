//! Lines of a body: expressions, some of which let a name be a value.

ghost use Rattle.std.specs.Prelude.{◌≡◌, ◌++◌, IfOk, OnOk};
ghost use Rattle.lp_bodies.specs.Lines.{lines_of, with_let};

use lp_core::Expr;
use lp_maker::maker::Maker;
use lp_maker::scope::Scope;
use lp_maker::texts::numbered;
use std::alloc::AllocError;

/// `let name = value;`, where the name is in two parts; the slot of the name.
pub fn push_let<'p>(
    maker: &Maker<'p>,
    scope: &mut Scope,
    name: &str,
    rest: &str,
    value: Expr,
    parts: &mut Vec<Expr>,
) -> Result<usize, AllocError>
    ensures slot { IfOk result (λ slot. slot ≡ scope.old.next) }
    ensures lines { OnOk result (lines_of scope.new parts.new.items ≡ with_let (name.now ++ rest.now) value (lines_of scope.old parts.old.items)) }
{
    let whole = numbered(maker.alloc, name, rest)?;
    let slot = scope.bind(maker.alloc, whole.as_str())?;
    let line = maker.write(slot, value)?;
    parts.push(line)?;
    Ok(slot)
}
