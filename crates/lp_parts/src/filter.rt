//! The type parameters and where clauses that some types need.

ghost use Rattle.std.specs.Prelude.{◌≡◌, [], ◌∷◌, ◌++◌, filter, map, IfOk, OnOk, if◌then◌else◌};
ghost use Rattle.std.specs.List.{flat_map, list_all};
ghost use Rattle.std.specs.Map.Iter.{deref};
ghost use Rattle.lp_repr.specs.FreeVariables.{free_in_type, same_parameter};
ghost use Rattle.lp_repr.specs.TypeTrees.{clause_tree};
ghost use Rattle.lp_parts.specs.Filter.{clauses_among, free_in_types, has_parameter, parameters_among, speaks_of};

use lp_repr::FreeVariables;
use lp_repr::parse_tree::TypeParameter;
use lp_repr::repr::{Grammar, TypeRepr, WhereClause};
use std::alloc::{AllocError, Global};

/// The declared type parameters that are free in the types, in their order, and the where clauses
/// all of whose free variables are free in the types.
pub fn filter_type_parameters_and_where_clauses(
    alloc: Global,
    grammar: &Grammar,
    tys: &[TypeRepr],
) -> Result<(Vec<TypeParameter>, Vec<WhereClause>), AllocError>
    ensures parameters { IfOk result (λ r. r.0.items ≡ parameters_among grammar.now (free_in_types grammar.now tys.now)) }
    ensures clauses { IfOk result (λ r. map clause_tree r.1.items ≡ map clause_tree (clauses_among grammar.now (free_in_types grammar.now tys.now))) }
{
    let filter = filter_of(alloc, grammar, tys)?;
    let kept_parameters = filter.type_parameters(alloc)?;
    let kept_clauses = filter.where_clauses(alloc)?;
    let parameters = parameter_copies(alloc, kept_parameters.as_slice())?;
    let clauses = clause_copies(alloc, kept_clauses.as_slice())?;
    Ok((parameters, clauses))
}

/// The filter of these types.
fn filter_of<'g>(
    alloc: Global,
    grammar: &'g Grammar,
    types: &[TypeRepr],
) -> Result<Filter<'g>, AllocError>
    ensures grammar { IfOk result (λ f. f.grammar.now ≡ grammar.entry.now) }
    ensures referenced { IfOk result (λ f. f.referenced.items ≡ free_in_types grammar.entry.now types.now) }
{
    let mut filter = Filter::new(alloc, grammar);
    for ty in types {
        filter.add(alloc, ty)?;
    }
    Ok(filter)
}

/// Copies of type parameters.
fn parameter_copies(
    alloc: Global,
    parameters: &[&TypeParameter],
) -> Result<Vec<TypeParameter>, AllocError>
    ensures { IfOk result (λ v. v.items ≡ map deref parameters.now) }
{
    let mut copies = Vec::new(alloc);
    for parameter in parameters {
        copies.push(parameter_copy(*parameter)?)?;
    }
    Ok(copies)
}

/// A copy of a type parameter.
pub(crate) fn parameter_copy(parameter: &TypeParameter) -> Result<TypeParameter, AllocError>
    ensures { IfOk result (λ copy. copy ≡ parameter.now) }
{
    parameter.clone()
}

/// Copies of where clauses.
fn clause_copies(alloc: Global, clauses: &[&WhereClause]) -> Result<Vec<WhereClause>, AllocError>
    ensures { IfOk result (λ v. map clause_tree v.items ≡ map clause_tree (map deref clauses.now)) }
{
    let mut copies = Vec::new(alloc);
    for clause in clauses {
        copies.push(clause_copy(*clause)?)?;
    }
    Ok(copies)
}

/// A copy of a where clause.
pub(crate) fn clause_copy(clause: &WhereClause) -> Result<WhereClause, AllocError>
    ensures { IfOk result (λ copy. clause_tree copy ≡ clause_tree clause.now) }
{
    clause.clone()
}

/// The variables that are free in some types, and what of a grammar speaks of them alone.
#[derive(Drop)]
pub struct Filter<'g> {
    pub grammar: &'g Grammar,
    /// The free variables of the types in order of occurrence, with repeats.
    pub referenced: Vec<TypeParameter>,
}

impl<'g> Filter<'g> {
    /// That of no types.
    pub fn new(alloc: Global, grammar: &'g Grammar) -> Filter<'g>
        ensures grammar { result.grammar.now ≡ grammar.entry.now }
        ensures referenced { result.referenced.items ≡ [] }
    {
        Filter {
            grammar,
            referenced: Vec::new(alloc),
        }
    }

    /// Adds the variables that are free in a type.
    pub fn add(&mut self, alloc: Global, ty: &TypeRepr) -> Result<(), AllocError>
        ensures grammar { self.new.grammar.now ≡ self.old.grammar.now }
        ensures referenced { OnOk result (self.new.referenced.items ≡ self.old.referenced.items ++ free_in_type self.old.grammar.now.type_parameters ty.now) }
    {
        let grammar = self.grammar;
        let mut free = ty.free_variables(alloc, grammar.type_parameters.as_slice())?;
        self.referenced.append(&mut free)
    }

    /// The type parameters that are free in the types, in the order in which they are declared.
    pub fn type_parameters(&self, alloc: Global) -> Result<Vec<&'g TypeParameter>, AllocError>
        ensures { IfOk result (λ v. map deref v.items ≡ parameters_among self.now.grammar.now self.now.referenced.items) }
    {
        let grammar = self.grammar;
        parameters_among(
            alloc,
            grammar.type_parameters.as_slice(),
            self.referenced.as_slice(),
        )
    }

    /// The where clauses all of whose free variables are free in the types.
    pub fn where_clauses(&self, alloc: Global) -> Result<Vec<&'g WhereClause>, AllocError>
        ensures { IfOk result (λ v. map deref v.items ≡ clauses_among self.now.grammar.now self.now.referenced.items) }
    {
        let grammar = self.grammar;
        clauses_among(
            alloc,
            grammar.type_parameters.as_slice(),
            grammar.where_clauses.as_slice(),
            self.referenced.as_slice(),
        )
    }
}

/// The declared parameters that are among the free ones.
#[tactic(auto, using(std::proofs::lemmas::Grind::common_steps, crate::proofs::Filters::filter_next))]
fn parameters_among<'g>(
    alloc: Global,
    declared: &'g [TypeParameter],
    free: &[TypeParameter],
) -> Result<Vec<&'g TypeParameter>, AllocError>
    ensures { IfOk result (λ v. map deref v.items ≡ filter (has_parameter free.now) declared.entry.now) }
{
    let mut kept = Vec::new(alloc);
    for parameter in declared {
        push_parameter(&mut kept, parameter, has_parameter(free, parameter))?;
    }
    Ok(kept)
}

/// Adds a parameter, if it is kept.
fn push_parameter<'g>(
    kept: &mut Vec<&'g TypeParameter>,
    parameter: &'g TypeParameter,
    keeps: bool,
) -> Result<(), AllocError>
    ensures { OnOk result (map deref kept.new.items ≡ map deref kept.old.items ++ (if keeps then parameter.entry.now ∷ [] else [])) }
{
    if keeps {
        kept.push(parameter)?;
    }
    Ok(())
}

/// The clauses all of whose free variables are among these.
#[tactic(auto, using(std::proofs::lemmas::Grind::common_steps, crate::proofs::Filters::filter_next))]
fn clauses_among<'g>(
    alloc: Global,
    declared: &[TypeParameter],
    clauses: &'g [WhereClause],
    free: &[TypeParameter],
) -> Result<Vec<&'g WhereClause>, AllocError>
    ensures { IfOk result (λ v. map deref v.items ≡ filter (speaks_of declared.now free.now) clauses.entry.now) }
{
    let mut kept = Vec::new(alloc);
    for clause in clauses {
        let keeps = speaks_of(alloc, declared, free, clause)?;
        push_clause(&mut kept, clause, keeps)?;
    }
    Ok(kept)
}

/// Adds a clause, if it is kept.
fn push_clause<'g>(
    kept: &mut Vec<&'g WhereClause>,
    clause: &'g WhereClause,
    keeps: bool,
) -> Result<(), AllocError>
    ensures { OnOk result (map deref kept.new.items ≡ map deref kept.old.items ++ (if keeps then clause.entry.now ∷ [] else [])) }
{
    if keeps {
        kept.push(clause)?;
    }
    Ok(())
}

/// All free variables of a clause are among the free ones.
fn speaks_of(
    alloc: Global,
    declared: &[TypeParameter],
    free: &[TypeParameter],
    clause: &WhereClause,
) -> Result<bool, AllocError>
    ensures { IfOk result (λ b. b ≡ speaks_of declared.now free.now clause.now) }
{
    let variables = clause.free_variables(alloc, declared)?;
    Ok(has_each(free, variables.as_slice()))
}

/// Each variable is among the parameters.
fn has_each(parameters: &[TypeParameter], variables: &[TypeParameter]) -> bool
    ensures { result ≡ list_all (has_parameter parameters.now) variables.now }
{
    variables
        .iter()
        .all(|variable| has_parameter(parameters, variable))
}

/// A parameter is among these.
pub(crate) fn has_parameter(parameters: &[TypeParameter], parameter: &TypeParameter) -> bool
    ensures { result ≡ has_parameter parameters.now parameter.now }
{
    parameters
        .iter()
        .any(|other| same_parameter(parameter, other))
}

/// The parameters are of one kind and have the same name.
fn same_parameter(one: &TypeParameter, other: &TypeParameter) -> bool
    ensures { result ≡ same_parameter one.now other.now }
{
    match (one, other) {
        (TypeParameter::Lifetime(s), TypeParameter::Lifetime(t)) => s.as_str() == t.as_str(),
        (TypeParameter::Lifetime(_), TypeParameter::Id(_)) => false,
        (TypeParameter::Id(_), TypeParameter::Lifetime(_)) => false,
        (TypeParameter::Id(s), TypeParameter::Id(t)) => s.as_str() == t.as_str(),
    }
}
