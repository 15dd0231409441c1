//! Copies of types and clauses: a copy has the tree of what is copied. They are written out, since a
//! derived `clone` says nothing of a type that holds itself.

ghost use Rattle.std.specs.Prelude.{◌≡◌, IfOk, map};
ghost use Rattle.std.specs.Option.{option_map};
ghost use Rattle.lp_repr.specs.TypeTrees.{bound_parameter_tree, bound_tree, clause_tree, name_of, nominal_tree, ret_trees, type_tree, types_trees};

use crate::parse_tree::{Path, TypeBound, TypeBoundParameter, TypeParameter};
use crate::repr::{NominalTypeRepr, TypeRepr, WhereClause};
use crate::text::Items;
use std::alloc::AllocError;

impl Clone for TypeRepr {
    ghost is_clone = { λ ty copy. type_tree copy ≡ type_tree ty };

    fn clone(&self) -> Result<TypeRepr, AllocError> {
        copy_type(self)
    }
}

impl Clone for NominalTypeRepr {
    ghost is_clone = { λ nominal copy. nominal_tree copy ≡ nominal_tree nominal };

    fn clone(&self) -> Result<NominalTypeRepr, AllocError> {
        copy_nominal(self)
    }
}

impl Clone for WhereClause {
    ghost is_clone = { λ clause copy. clause_tree copy ≡ clause_tree clause };

    fn clone(&self) -> Result<WhereClause, AllocError> {
        copy_clause(self)
    }
}

#[cycle(copies)]
fn copy_type(ty: &TypeRepr) -> Result<TypeRepr, AllocError>
    ensures { IfOk result (λ copy. type_tree copy ≡ type_tree ty.now) }
{
    match ty {
        TypeRepr::Tuple(types) => Ok(TypeRepr::Tuple(copy_types(types)?)),
        TypeRepr::Slice(element) => Ok(TypeRepr::Slice(copy_box(element)?)),
        TypeRepr::Nominal(nominal) => Ok(TypeRepr::Nominal(copy_nominal(nominal)?)),
        TypeRepr::Associated { type_parameter, id } => Ok(TypeRepr::Associated {
            type_parameter: type_parameter.clone()?,
            id: id.clone()?,
        }),
        TypeRepr::TraitObject(nominal) => Ok(TypeRepr::TraitObject(copy_nominal(nominal)?)),
        TypeRepr::Lifetime(name) => Ok(TypeRepr::Lifetime(name.clone()?)),
        TypeRepr::Ref {
            lifetime,
            mutable,
            referent,
        } => Ok(TypeRepr::Ref {
            lifetime: copy_name(lifetime)?,
            mutable: *mutable,
            referent: copy_box(referent)?,
        }),
        TypeRepr::Fn {
            binder,
            path,
            parameters,
            ret,
        } => Ok(TypeRepr::Fn {
            binder: copy_binder(binder)?,
            path: copy_path(path)?,
            parameters: copy_types(parameters)?,
            ret: copy_ret(ret)?,
        }),
    }
}

#[cycle(copies)]
fn copy_box(ty: &Box<TypeRepr>) -> Result<Box<TypeRepr>, AllocError>
    ensures { IfOk result (λ copy. type_tree copy.value ≡ type_tree ty.now.value) }
{
    let copy = copy_type(ty)?;
    Ok(Box::new(*Box::allocator(ty), copy)?)
}

#[cycle(copies)]
fn copy_nominal(nominal: &NominalTypeRepr) -> Result<NominalTypeRepr, AllocError>
    ensures tree { IfOk result (λ copy. nominal_tree copy ≡ nominal_tree nominal.now) }
    ensures path { IfOk result (λ copy. copy.path ≡ nominal.now.path) }
    ensures types { IfOk result (λ copy. types_trees copy.types.items ≡ types_trees nominal.now.types.items) }
{
    Ok(NominalTypeRepr {
        path: copy_path(&nominal.path)?,
        types: copy_types(&nominal.types)?,
    })
}

#[cycle(copies)]
fn copy_ret(ret: &Option<Box<TypeRepr>>) -> Result<Option<Box<TypeRepr>>, AllocError>
    ensures { IfOk result (λ copy. ret_trees copy ≡ ret_trees ret.now) }
{
    match ret {
        None => Ok(None),
        Some(ty) => {
            let copy = copy_type(ty)?;
            Ok(Some(Box::new(*Box::allocator(ty), copy)?))
        }
    }
}

#[cycle(copies)]
fn copy_types(types: &Vec<TypeRepr>) -> Result<Vec<TypeRepr>, AllocError>
    ensures { IfOk result (λ copies. map type_tree copies.items ≡ map type_tree types.now.items) }
{
    let mut copies = Vec::new(*types.allocator());
    for ty in types {
        copies.push(copy_type(ty)?)?;
    }
    Ok(copies)
}

fn copy_path(path: &Path) -> Result<Path, AllocError>
    ensures { IfOk result (λ copy. copy ≡ path.now) }
{
    path.clone()
}

fn copy_name(name: &Option<String>) -> Result<Option<String>, AllocError>
    ensures { IfOk result (λ copy. name_of copy ≡ name_of name.now) }
{
    match name {
        None => Ok(None),
        Some(name) => Ok(Some(name.clone()?)),
    }
}

fn copy_binder(binder: &Vec<TypeParameter>) -> Result<Vec<TypeParameter>, AllocError>
    ensures { IfOk result (λ copy. copy.items ≡ binder.now.items) }
{
    let mut copy = Vec::new(*binder.allocator());
    for parameter in binder {
        copy.push(parameter.clone()?)?;
    }
    Ok(copy)
}

#[cycle(copied_clauses)]
fn copy_clause(clause: &WhereClause) -> Result<WhereClause, AllocError>
    ensures { IfOk result (λ copy. clause_tree copy ≡ clause_tree clause.now) }
{
    match clause {
        WhereClause::Forall { binder, clause } => Ok(WhereClause::Forall {
            binder: copy_binder(binder)?,
            clause: copy_inner(clause)?,
        }),
        WhereClause::Bound { subject, bound } => Ok(WhereClause::Bound {
            subject: subject.clone()?,
            bound: copy_bound(bound)?,
        }),
    }
}

#[cycle(copied_clauses)]
fn copy_inner(clause: &Box<WhereClause>) -> Result<Box<WhereClause>, AllocError>
    ensures { IfOk result (λ copy. clause_tree copy.value ≡ clause_tree clause.now.value) }
{
    let copy = copy_clause(clause)?;
    Ok(Box::new(*Box::allocator(clause), copy)?)
}

fn copy_bound(bound: &TypeBound<TypeRepr>) -> Result<TypeBound<TypeRepr>, AllocError>
    ensures { IfOk result (λ copy. bound_tree copy ≡ bound_tree bound.now) }
{
    match bound {
        TypeBound::Lifetime(name) => Ok(TypeBound::Lifetime(name.clone()?)),
        TypeBound::Fn {
            binder,
            path,
            parameters,
            ret,
        } => Ok(TypeBound::Fn {
            binder: Items(copy_binder(&binder.0)?),
            path: copy_path(path)?,
            parameters: Items(copy_types(&parameters.0)?),
            ret: copy_option(ret)?,
        }),
        TypeBound::Trait {
            binder,
            path,
            parameters,
        } => Ok(TypeBound::Trait {
            binder: Items(copy_binder(&binder.0)?),
            path: copy_path(path)?,
            parameters: Items(copy_bound_parameters(&parameters.0)?),
        }),
    }
}

fn copy_option(ty: &Option<TypeRepr>) -> Result<Option<TypeRepr>, AllocError>
    ensures { IfOk result (λ copy. option_map type_tree copy ≡ option_map type_tree ty.now) }
{
    match ty {
        None => Ok(None),
        Some(ty) => Ok(Some(ty.clone()?)),
    }
}

fn copy_bound_parameters(
    parameters: &Vec<TypeBoundParameter<TypeRepr>>,
) -> Result<Vec<TypeBoundParameter<TypeRepr>>, AllocError>
    ensures { IfOk result (λ copies. map bound_parameter_tree copies.items ≡ map bound_parameter_tree parameters.now.items) }
{
    let mut copies = Vec::new(*parameters.allocator());
    for parameter in parameters {
        copies.push(copy_bound_parameter(parameter)?)?;
    }
    Ok(copies)
}

fn copy_bound_parameter(
    parameter: &TypeBoundParameter<TypeRepr>,
) -> Result<TypeBoundParameter<TypeRepr>, AllocError>
    ensures { IfOk result (λ copy. bound_parameter_tree copy ≡ bound_parameter_tree parameter.now) }
{
    match parameter {
        TypeBoundParameter::Lifetime(name) => Ok(TypeBoundParameter::Lifetime(name.clone()?)),
        TypeBoundParameter::TypeParameter(ty) => {
            Ok(TypeBoundParameter::TypeParameter(ty.clone()?))
        }
        TypeBoundParameter::Associated(name, ty) => {
            Ok(TypeBoundParameter::Associated(name.clone()?, ty.clone()?))
        }
    }
}
