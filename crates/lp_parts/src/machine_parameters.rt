//! The type parameters, fields and where clauses of the state machine.

ghost use Rattle.std.specs.Prelude.{◌≡◌, false, [], ◌∷◌, ◌++◌, fold, map, IfOk, OnOk};
ghost use Rattle.std.specs.List.{flat_map};
ghost use Rattle.std.specs.Map.Iter.{deref};
ghost use Rattle.lp_repr.specs.FreeVariables.{free_in_type};
ghost use Rattle.lp_repr.specs.TypeTrees.{clause_tree, nominal_tree, type_tree};
ghost use Rattle.lp_parts.specs.MachineParameters.{distinct, field_tree, fields_from, if_id, if_lifetime, lifetimes_first, lifetimes_from, machine_clauses, machine_fields, machine_parameters, outlived, outlived_from, outlives, parameter_tree, with_parameter};

use crate::filter::{clause_copy, has_parameter, parameter_copy};
use crate::named::{named_type, new_lifetime};
use crate::referents::all_referents;
use lp_repr::parse_tree::{Path, TypeBound, TypeParameter};
use lp_repr::repr::{Grammar, NominalTypeRepr, Parameter, TypeRepr, WhereClause};
use lp_repr::{FreeVariables, Items, Text};
use std::alloc::{AllocError, Global};

/// The parameters of a grammar as fields of a struct: each reference without a lifetime has one of
/// its own, with a clause for each variable of its referent.
#[derive(Drop)]
pub struct MachineParameters {
    /// Lifetimes first.
    pub type_parameters: Items<TypeParameter>,
    pub fields: Items<Parameter>,
    pub where_clauses: Items<WhereClause>,
}

impl MachineParameters {
    /// The parameters of the state machine of a grammar. The error is want of memory.
    #[tactic(auto, unfolding(crate::specs::MachineParameters::machine_parameters, crate::specs::MachineParameters::machine_fields, crate::specs::MachineParameters::machine_clauses))]
    pub fn new(alloc: Global, grammar: &Grammar) -> Result<MachineParameters, AllocError>
        ensures type_parameters { IfOk result (λ m. m.type_parameters ≡ machine_parameters grammar.now) }
        ensures fields { IfOk result (λ m. map field_tree m.fields ≡ machine_fields grammar.now) }
        ensures where_clauses { IfOk result (λ m. map clause_tree m.where_clauses ≡ machine_clauses grammar.now) }
    {
        let prefix = grammar.prefix.as_str();
        let declared = grammar.type_parameters.as_slice();
        let parameters = grammar.parameters.as_slice();
        let first = declared.len();
        let referents = all_referents(alloc, parameters)?;
        let mut generics = declared_copies(alloc, declared)?;
        push_lifetimes(alloc, &mut generics, prefix, first, referents.as_slice())?;
        let fields = named_fields(alloc, prefix, first, parameters)?;
        let mut clauses = stated_copies(alloc, grammar.where_clauses.as_slice())?;
        push_outlived(
            alloc,
            &mut clauses,
            declared,
            prefix,
            first,
            referents.as_slice(),
        )?;
        Ok(MachineParameters {
            type_parameters: Items(lifetimes_first(alloc, generics)?),
            fields: Items(fields),
            where_clauses: Items(clauses),
        })
    }
}

/// Copies of the declared type parameters.
fn declared_copies(
    alloc: Global,
    parameters: &[TypeParameter],
) -> Result<Vec<TypeParameter>, AllocError>
    ensures { IfOk result (λ v. v.items ≡ parameters.now) }
{
    let mut copies = Vec::new(alloc);
    for parameter in parameters {
        copies.push(parameter_copy(parameter)?)?;
    }
    Ok(copies)
}

/// Copies of the stated clauses.
fn stated_copies(alloc: Global, clauses: &[WhereClause]) -> Result<Vec<WhereClause>, AllocError>
    ensures { IfOk result (λ v. map clause_tree v.items ≡ map clause_tree clauses.now) }
{
    let mut copies = Vec::new(alloc);
    for clause in clauses {
        copies.push(clause_copy(clause)?)?;
    }
    Ok(copies)
}

/// Adds the new lifetimes, one for each referent.
fn push_lifetimes(
    alloc: Global,
    generics: &mut Vec<TypeParameter>,
    prefix: &str,
    first: usize,
    referents: &[&TypeRepr],
) -> Result<(), AllocError>
    ensures { OnOk result (generics.new.items ≡ generics.old.items ++ lifetimes_from prefix.now first (map deref referents.now)) }
{
    let mut number = first;
    for _referent in referents {
        let lifetime = Text(new_lifetime(alloc, prefix, number)?);
        generics.push(TypeParameter::Lifetime(lifetime))?;
        number = number.checked_add(1).ok_or(AllocError)?;
    }
    Ok(())
}

/// The fields, whose references have lifetimes from this number on.
fn named_fields(
    alloc: Global,
    prefix: &str,
    first: usize,
    parameters: &[Parameter],
) -> Result<Vec<Parameter>, AllocError>
    ensures { IfOk result (λ v. map field_tree v.items ≡ fields_from prefix.now first parameters.now) }
{
    let mut next = first;
    let mut fields = Vec::new(alloc);
    for parameter in parameters {
        let name = parameter.name.clone()?;
        let ty = named_type(alloc, prefix, &mut next, &parameter.ty)?;
        fields.push(Parameter { name, ty })?;
    }
    Ok(fields)
}

/// Adds the clauses of the new lifetimes: the variables of each referent outlive its lifetime.
fn push_outlived(
    alloc: Global,
    clauses: &mut Vec<WhereClause>,
    declared: &[TypeParameter],
    prefix: &str,
    first: usize,
    referents: &[&TypeRepr],
) -> Result<(), AllocError>
    ensures { OnOk result (map clause_tree clauses.new.items ≡ map clause_tree clauses.old.items ++ outlived_from declared.now prefix.now first (map deref referents.now)) }
{
    let mut number = first;
    for referent in referents {
        let lifetime = Text(new_lifetime(alloc, prefix, number)?);
        push_outlives(alloc, clauses, declared, &lifetime, *referent)?;
        number = number.checked_add(1).ok_or(AllocError)?;
    }
    Ok(())
}

/// Adds the clauses of one lifetime.
fn push_outlives(
    alloc: Global,
    clauses: &mut Vec<WhereClause>,
    declared: &[TypeParameter],
    lifetime: &Text,
    referent: &TypeRepr,
) -> Result<(), AllocError>
    ensures { OnOk result (map clause_tree clauses.new.items ≡ map clause_tree clauses.old.items ++ outlived declared.now lifetime.now referent.now) }
{
    let variables = distinct(alloc, referent.free_variables(alloc, declared)?)?;
    push_clauses(alloc, clauses, lifetime, variables.as_slice())
}

/// Adds a clause for each variable.
fn push_clauses(
    alloc: Global,
    clauses: &mut Vec<WhereClause>,
    lifetime: &Text,
    variables: &[TypeParameter],
) -> Result<(), AllocError>
    ensures { OnOk result (map clause_tree clauses.new.items ≡ map clause_tree clauses.old.items ++ map (outlives lifetime.now) variables.now) }
{
    for variable in variables {
        clauses.push(outlives(alloc, lifetime, variable)?)?;
    }
    Ok(())
}

/// The clause that a parameter outlives a lifetime.
fn outlives(
    alloc: Global,
    lifetime: &Text,
    parameter: &TypeParameter,
) -> Result<WhereClause, AllocError>
    ensures { IfOk result (λ c. clause_tree c ≡ outlives lifetime.now parameter.now) }
{
    let subject = parameter_type(alloc, parameter)?;
    let bound = TypeBound::Lifetime(lifetime.clone()?);
    Ok(WhereClause::Bound { subject, bound })
}

/// A type parameter as a type.
fn parameter_type(alloc: Global, parameter: &TypeParameter) -> Result<TypeRepr, AllocError>
    ensures { IfOk result (λ t. type_tree t ≡ parameter_tree parameter.now) }
{
    match parameter {
        TypeParameter::Lifetime(name) => Ok(TypeRepr::Lifetime(name.0.clone()?)),
        TypeParameter::Id(name) => Ok(TypeRepr::Nominal(type_of_name(alloc, name)?)),
    }
}

/// The type of a name, without arguments.
fn type_of_name(alloc: Global, name: &Text) -> Result<NominalTypeRepr, AllocError>
    ensures { IfOk result (λ n. nominal_tree n ≡ parameter_tree (TypeParameter.Id name.now)) }
{
    let path = path_of_name(alloc, name)?;
    let types = Vec::new(alloc);
    Ok(NominalTypeRepr { path, types })
}

/// The path of one name.
fn path_of_name(alloc: Global, name: &Text) -> Result<Path, AllocError>
    ensures absolute { IfOk result (λ p. p.absolute ≡ false) }
    ensures ids { IfOk result (λ p. p.ids ≡ name.now ∷ []) }
{
    let ids = Items(vec![in alloc; name.clone()?]?);
    Ok(Path {
        absolute: false,
        ids,
    })
}

/// The parameters, each once, in the order of their first places.
fn distinct(alloc: Global, parameters: Vec<TypeParameter>) -> Result<Vec<TypeParameter>, AllocError>
    ensures { IfOk result (λ v. v.items ≡ distinct parameters.items) }
{
    let mut seen = Vec::new(alloc);
    for parameter in parameters {
        push_new(&mut seen, parameter)?;
    }
    Ok(seen)
}

/// Adds a parameter that isn't there.
fn push_new(seen: &mut Vec<TypeParameter>, parameter: TypeParameter) -> Result<(), AllocError>
    ensures { OnOk result (seen.new.items ≡ with_parameter seen.old.items parameter) }
{
    if !has_parameter(seen.as_slice(), &parameter) {
        seen.push(parameter)?;
    }
    Ok(())
}

/// The lifetimes, and then the others, each in their order.
fn lifetimes_first(
    alloc: Global,
    parameters: Vec<TypeParameter>,
) -> Result<Vec<TypeParameter>, AllocError>
    ensures { IfOk result (λ v. v.items ≡ lifetimes_first parameters.items) }
{
    let mut lifetimes = Vec::new(alloc);
    let mut ids = Vec::new(alloc);
    for parameter in parameters {
        push_by_kind(&mut lifetimes, &mut ids, parameter)?;
    }
    lifetimes.append(&mut ids)?;
    Ok(lifetimes)
}

/// Adds a parameter to the lifetimes or to the others.
fn push_by_kind(
    lifetimes: &mut Vec<TypeParameter>,
    ids: &mut Vec<TypeParameter>,
    parameter: TypeParameter,
) -> Result<(), AllocError>
    ensures lifetimes { OnOk result (lifetimes.new.items ≡ lifetimes.old.items ++ if_lifetime parameter) }
    ensures ids { OnOk result (ids.new.items ≡ ids.old.items ++ if_id parameter) }
{
    match parameter {
        TypeParameter::Lifetime(name) => {
            lifetimes.push(TypeParameter::Lifetime(name))?;
            Ok(())
        }
        TypeParameter::Id(name) => {
            ids.push(TypeParameter::Id(name))?;
            Ok(())
        }
    }
}
