//! Headers of functions.

ghost use Rattle.std.specs.Prelude.{◌≡◌, ◌++◌, map, IfOk, OnOk};
ghost use Rattle.lp_repr.specs.Shown.{parameter_text};
ghost use Rattle.lp_table.specs.Headers.{declared_text, declared_texts, generics_of, grammar_header, header_lines, names_of, token_header};
ghost use Rattle.lp_tree.specs.ProgramTree.{items};

use crate::pieces::{lent, lent_name, made, piece_of};
use lp_build::{FunctionName, header};
use lp_repr::Shown;
use lp_repr::parse_tree::TypeParameter;
use lp_repr::repr::{Grammar, Parameter};
use lp_tree::{Name, Node, Piece};
use std::alloc::{AllocError, Global};

/// The text of a type parameter.
pub fn parameter_text(parameter: &TypeParameter) -> &str
    ensures { result.now ≡ parameter_text parameter.now }
{
    match parameter {
        TypeParameter::Lifetime(name) => name.as_str(),
        TypeParameter::Id(name) => name.as_str(),
    }
}

/// The type parameters of a grammar.
pub fn type_parameters<'t>(
    alloc: Global,
    grammar: &'t Grammar,
) -> Result<Vec<Piece<'t>>, AllocError>
    ensures { IfOk result (λ v. v.items ≡ generics_of grammar.entry.now) }
{
    let parameters = grammar.type_parameters.as_slice();
    let mut pieces = Vec::new(alloc);
    for parameter in parameters {
        pieces.push(lent(parameter_text(parameter)))?;
    }
    Ok(pieces)
}

/// Adds the parameters of a grammar, as `name: type`.
pub fn add_parameters<'t>(
    alloc: Global,
    pieces: &mut Vec<Piece<'t>>,
    grammar: &Grammar,
) -> Result<(), AllocError>
    ensures { OnOk result (pieces.new.items ≡ pieces.old.items ++ declared_texts grammar.now) }
{
    let parameters = grammar.parameters.as_slice();
    for parameter in parameters {
        pieces.push(declared(alloc, parameter)?)?;
    }
    Ok(())
}

/// A parameter as it is declared.
fn declared<'t>(alloc: Global, parameter: &Parameter) -> Result<Piece<'t>, AllocError>
    ensures { IfOk result (λ p. p ≡ declared_text parameter.now) }
{
    let name = &parameter.name;
    let ty = &parameter.ty;
    Ok(made(format!(in alloc; "{name}: {ty}")?))
}

/// The parameters of a grammar by name.
pub fn parameter_names<'t>(alloc: Global, grammar: &'t Grammar) -> Result<Vec<Name<'t>>, AllocError>
    ensures { IfOk result (λ v. v.items ≡ names_of grammar.entry.now) }
{
    let parameters = grammar.parameters.as_slice();
    let mut names = Vec::new(alloc);
    for parameter in parameters {
        names.push(lent_name(parameter.name.as_str()))?;
    }
    Ok(names)
}

/// What the values show.
pub fn shown_each<'t, T: Shown>(alloc: Global, values: &[T]) -> Result<Vec<Piece<'t>>, AllocError>
    ensures { IfOk result (λ v. v.items ≡ map T.text values.now) }
{
    let mut pieces = Vec::new(alloc);
    for value in values {
        pieces.push(piece_of(alloc, value)?)?;
    }
    Ok(pieces)
}

/// A header of these texts.
#[tactic(auto, unfolding(crate::specs::Headers::header_lines))]
pub fn header_of<'t>(
    alloc: Global,
    name: FunctionName<'t>,
    generics: Vec<Piece<'t>>,
    parameters: Vec<Piece<'t>>,
    returned: Piece<'t>,
    clauses: Vec<Piece<'t>>,
) -> Result<Node<'t>, AllocError>
    ensures { IfOk result (λ n. items n ≡ header_lines name.entry generics.entry.items parameters.entry.items returned.entry clauses.entry.items) }
{
    header(alloc, name, generics, parameters, returned, clauses)
}

/// A header with the type parameters, the parameters and the clauses of a grammar, and further
/// parameters.
pub fn grammar_header<'t>(
    alloc: Global,
    grammar: &'t Grammar,
    name: FunctionName<'t>,
    further_type_parameters: Vec<Piece<'t>>,
    further_parameters: Vec<Piece<'t>>,
    returned: Piece<'t>,
) -> Result<Node<'t>, AllocError>
    ensures { IfOk result (λ n. items n ≡ grammar_header grammar.entry.now name.entry further_type_parameters.entry.items further_parameters.entry.items returned.entry) }
{
    let mut generics = type_parameters(alloc, grammar)?;
    let mut further = further_type_parameters;
    generics.append(&mut further)?;
    let mut parameters = Vec::new(alloc);
    add_parameters(alloc, &mut parameters, grammar)?;
    let mut others = further_parameters;
    parameters.append(&mut others)?;
    let clauses = shown_each(alloc, grammar.where_clauses.as_slice())?;
    header_of(alloc, name, generics, parameters, returned, clauses)
}

/// A header with the type parameters and the clauses of a grammar.
pub fn token_header<'t>(
    alloc: Global,
    grammar: &'t Grammar,
    name: FunctionName<'t>,
    parameters: Vec<Piece<'t>>,
    returned: Piece<'t>,
) -> Result<Node<'t>, AllocError>
    ensures { IfOk result (λ n. items n ≡ token_header grammar.entry.now name.entry parameters.entry.items returned.entry) }
{
    let generics = type_parameters(alloc, grammar)?;
    let clauses = shown_each(alloc, grammar.where_clauses.as_slice())?;
    header_of(alloc, name, generics, parameters, returned, clauses)
}
