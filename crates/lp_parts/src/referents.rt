//! What the references of types that have no lifetime lead to.

ghost use Rattle.std.specs.Prelude.{◌≡◌, ◌++◌, map, IfOk, OnOk};
ghost use Rattle.std.specs.List.{flat_map};
ghost use Rattle.std.specs.Map.Iter.{deref};
ghost use Rattle.lp_parts.specs.MachineParameters.{all_referents, if_bare, referents, ret_referents};

use lp_repr::repr::{Parameter, TypeRepr};
use std::alloc::{AllocError, Global};

/// Those of the types of parameters.
pub(crate) fn all_referents<'t>(
    alloc: Global,
    parameters: &'t [Parameter],
) -> Result<Vec<&'t TypeRepr>, AllocError>
    ensures { IfOk result (λ v. map deref v.items ≡ all_referents parameters.entry.now) }
{
    let mut all = Vec::new(alloc);
    for parameter in parameters {
        push_referents(&parameter.ty, &mut all)?;
    }
    Ok(all)
}

/// Appends those of a type, outer ones before those inside.
#[cycle(referents)]
fn push_referents<'t>(ty: &'t TypeRepr, all: &mut Vec<&'t TypeRepr>) -> Result<(), AllocError>
    ensures { OnOk result (map deref all.new.items ≡ map deref all.old.items ++ referents ty.entry.now) }
{
    match ty {
        TypeRepr::Tuple(types) => push_each(types.as_slice(), all),
        TypeRepr::Slice(element) => push_referents(&**element, all),
        TypeRepr::Nominal(nominal) => push_each(nominal.types.as_slice(), all),
        TypeRepr::TraitObject(nominal) => push_each(nominal.types.as_slice(), all),
        TypeRepr::Associated { .. } => Ok(()),
        TypeRepr::Lifetime(_) => Ok(()),
        TypeRepr::Ref {
            lifetime,
            mutable: _,
            referent,
        } => {
            push_if_bare(lifetime, &**referent, all)?;
            push_referents(&**referent, all)
        }
        TypeRepr::Fn {
            binder: _,
            path: _,
            parameters,
            ret,
        } => {
            push_each(parameters.as_slice(), all)?;
            push_ret(ret, all)
        }
    }
}

/// Appends those of each type.
#[cycle(referents)]
fn push_each<'t>(types: &'t [TypeRepr], all: &mut Vec<&'t TypeRepr>) -> Result<(), AllocError>
    ensures { OnOk result (map deref all.new.items ≡ map deref all.old.items ++ flat_map referents types.entry.now) }
{
    for ty in types {
        push_referents(ty, all)?;
    }
    Ok(())
}

/// Appends those of a result.
#[cycle(referents)]
fn push_ret<'t>(
    ret: &'t Option<Box<TypeRepr>>,
    all: &mut Vec<&'t TypeRepr>,
) -> Result<(), AllocError>
    ensures { OnOk result (map deref all.new.items ≡ map deref all.old.items ++ ret_referents ret.entry.now) }
{
    match ret {
        None => Ok(()),
        Some(ty) => push_referents(&**ty, all),
    }
}

/// Appends what a reference without a lifetime leads to.
fn push_if_bare<'t>(
    lifetime: &Option<String>,
    referent: &'t TypeRepr,
    all: &mut Vec<&'t TypeRepr>,
) -> Result<(), AllocError>
    ensures { OnOk result (map deref all.new.items ≡ map deref all.old.items ++ if_bare lifetime.now referent.entry.now) }
{
    match lifetime {
        None => {
            all.push(referent)?;
            Ok(())
        }
        Some(_) => Ok(()),
    }
}
