//! Types whose references all have lifetimes.

ghost use Rattle.std.specs.Prelude.{◌≡◌, ◌+◌, map, string_bytes, IfOk, OnOk};
ghost use Rattle.lp_repr.specs.TypeTrees.{name_of, nominal_tree, ret_trees, type_tree, types_trees};
ghost use Rattle.lp_parts.specs.Named.{if_unnamed, lifetime_or, named, named_in, named_of, new_lifetime, unnamed, unnamed_in, unnamed_of};

use lp_repr::parse_tree::{Path, TypeParameter};
use lp_repr::repr::{NominalTypeRepr, TypeRepr};
use std::alloc::{AllocError, Global};

/// The type with a lifetime at each reference. One without gets that of the next number, outer ones
/// before those inside.
#[cycle(named)]
pub(crate) fn named_type(
    alloc: Global,
    prefix: &str,
    next: &mut usize,
    ty: &TypeRepr,
) -> Result<TypeRepr, AllocError>
    ensures tree { IfOk result (λ t. type_tree t ≡ named prefix.now next.old (type_tree ty.now)) }
    ensures next { OnOk result (next.new ≡ next.old + unnamed (type_tree ty.now)) }
{
    match ty {
        TypeRepr::Tuple(types) => Ok(TypeRepr::Tuple(named_types(alloc, prefix, next, types)?)),
        TypeRepr::Slice(element) => Ok(TypeRepr::Slice(named_box(alloc, prefix, next, element)?)),
        TypeRepr::Nominal(nominal) => {
            Ok(TypeRepr::Nominal(named_nominal(alloc, prefix, next, nominal)?))
        }
        TypeRepr::TraitObject(nominal) => {
            Ok(TypeRepr::TraitObject(named_nominal(alloc, prefix, next, nominal)?))
        }
        TypeRepr::Associated { type_parameter, id } => Ok(TypeRepr::Associated {
            type_parameter: type_parameter.clone()?,
            id: id.clone()?,
        }),
        TypeRepr::Lifetime(name) => Ok(TypeRepr::Lifetime(name.clone()?)),
        TypeRepr::Ref {
            lifetime,
            mutable,
            referent,
        } => Ok(TypeRepr::Ref {
            lifetime: Some(lifetime_or(alloc, prefix, next, lifetime)?),
            mutable: *mutable,
            referent: named_box(alloc, prefix, next, referent)?,
        }),
        TypeRepr::Fn {
            binder,
            path,
            parameters,
            ret,
        } => Ok(TypeRepr::Fn {
            binder: binder_copy(alloc, binder)?,
            path: path_copy(path)?,
            parameters: named_types(alloc, prefix, next, parameters)?,
            ret: named_ret(alloc, prefix, next, ret)?,
        }),
    }
}

#[cycle(named)]
fn named_box(
    alloc: Global,
    prefix: &str,
    next: &mut usize,
    ty: &Box<TypeRepr>,
) -> Result<Box<TypeRepr>, AllocError>
    ensures tree { IfOk result (λ t. type_tree t.value ≡ named prefix.now next.old (type_tree ty.now.value)) }
    ensures next { OnOk result (next.new ≡ next.old + unnamed (type_tree ty.now.value)) }
{
    let ty = named_type(alloc, prefix, next, ty)?;
    Ok(Box::new(alloc, ty)?)
}

#[cycle(named)]
fn named_ret(
    alloc: Global,
    prefix: &str,
    next: &mut usize,
    ret: &Option<Box<TypeRepr>>,
) -> Result<Option<Box<TypeRepr>>, AllocError>
    ensures trees { IfOk result (λ t. ret_trees t ≡ named_in prefix.now next.old (ret_trees ret.now)) }
    ensures next { OnOk result (next.new ≡ next.old + unnamed_in (ret_trees ret.now)) }
{
    match ret {
        None => Ok(None),
        Some(ty) => {
            let ty = named_type(alloc, prefix, next, ty)?;
            Ok(Some(Box::new(alloc, ty)?))
        }
    }
}

#[cycle(named)]
fn named_nominal(
    alloc: Global,
    prefix: &str,
    next: &mut usize,
    nominal: &NominalTypeRepr,
) -> Result<NominalTypeRepr, AllocError>
    ensures path { IfOk result (λ n. n.path ≡ nominal.now.path) }
    ensures trees { IfOk result (λ n. map type_tree n.types.items ≡ named_of prefix.now next.old (map type_tree nominal.now.types.items)) }
    ensures next { OnOk result (next.new ≡ next.old + unnamed_of (map type_tree nominal.now.types.items)) }
{
    let path = path_copy(&nominal.path)?;
    let types = named_types(alloc, prefix, next, &nominal.types)?;
    Ok(NominalTypeRepr { path, types })
}

#[cycle(named)]
fn named_types(
    alloc: Global,
    prefix: &str,
    next: &mut usize,
    types: &Vec<TypeRepr>,
) -> Result<Vec<TypeRepr>, AllocError>
    ensures trees { IfOk result (λ v. map type_tree v.items ≡ named_of prefix.now next.old (map type_tree types.now.items)) }
    ensures next { OnOk result (next.new ≡ next.old + unnamed_of (map type_tree types.now.items)) }
{
    let mut named = Vec::new(alloc);
    for ty in types {
        named.push(named_type(alloc, prefix, next, ty)?)?;
    }
    Ok(named)
}

/// The lifetime that a reference has, or that of the next number.
fn lifetime_or(
    alloc: Global,
    prefix: &str,
    next: &mut usize,
    lifetime: &Option<String>,
) -> Result<String, AllocError>
    ensures name { IfOk result (λ s. string_bytes s ≡ lifetime_or prefix.now next.old (name_of lifetime.now)) }
    ensures next { OnOk result (next.new ≡ next.old + if_unnamed (name_of lifetime.now)) }
{
    match lifetime {
        Some(name) => name.clone(),
        None => {
            let name = new_lifetime(alloc, prefix, *next)?;
            *next = next.checked_add(1).ok_or(AllocError)?;
            Ok(name)
        }
    }
}

/// The lifetime of a number.
pub(crate) fn new_lifetime(alloc: Global, prefix: &str, number: usize) -> Result<String, AllocError>
    ensures { IfOk result (λ s. string_bytes s ≡ new_lifetime prefix.now number) }
{
    format!(in alloc; "'{prefix}{number}")
}

fn path_copy(path: &Path) -> Result<Path, AllocError>
    ensures { IfOk result (λ copy. copy ≡ path.now) }
{
    path.clone()
}

fn binder_copy(alloc: Global, binder: &Vec<TypeParameter>) -> Result<Vec<TypeParameter>, AllocError>
    ensures { IfOk result (λ copy. copy.items ≡ binder.now.items) }
{
    let mut copy = Vec::new(alloc);
    for parameter in binder {
        copy.push(parameter.clone()?)?;
    }
    Ok(copy)
}
