//! Copies of what a grammar holds, which contracts see as equal to it.

ghost use Rattle.std.specs.Prelude.{◌≡◌, IfOk, map};
ghost use Rattle.std.specs.Option.{option_map};
ghost use Rattle.lp_repr.specs.TypeTrees.{clause_tree, type_tree};
ghost use Rattle.lp_lower.specs.Lowering.{parameter_tree, pattern_tree};

use crate::lists::{empty, push};
use lp_repr::parse_tree::TypeParameter;
use lp_repr::repr::{
    NonterminalString, Parameter, Symbol, TerminalString, TokenPattern, TypeRepr, WhereClause,
};
use lp_repr::text::{Items, Text};
use std::alloc::{AllocError, Global};

/// A copy of the name of a nonterminal.
pub fn copy_nonterminal(name: &NonterminalString) -> Result<NonterminalString, AllocError>
    ensures { IfOk result (λ copy. copy ≡ name.now) }
{
    Ok(name.clone()?)
}

/// A copy of a terminal.
pub fn copy_terminal(terminal: &TerminalString) -> Result<TerminalString, AllocError>
    ensures { IfOk result (λ copy. copy ≡ terminal.now) }
{
    Ok(terminal.clone()?)
}

/// A copy of a symbol.
pub fn copy_symbol(symbol: &Symbol) -> Result<Symbol, AllocError>
    ensures { IfOk result (λ copy. copy ≡ symbol.now) }
{
    Ok(symbol.clone()?)
}

/// Copies of these symbols.
pub fn copy_symbols(alloc: Global, symbols: &Items<Symbol>) -> Result<Items<Symbol>, AllocError>
    ensures { IfOk result (λ copies. copies ≡ symbols.now) }
{
    let mut copies = empty(alloc);
    for symbol in symbols.as_slice() {
        push(&mut copies, copy_symbol(symbol)?)?;
    }
    Ok(copies)
}

/// Copies of these texts.
pub fn copy_texts(alloc: Global, texts: &Items<Text>) -> Result<Items<Text>, AllocError>
    ensures { IfOk result (λ copies. copies ≡ texts.now) }
{
    let mut copies = empty(alloc);
    for text in texts.as_slice() {
        push(&mut copies, text.clone()?)?;
    }
    Ok(copies)
}

/// Copies of these type parameters.
pub fn copy_type_parameters(
    alloc: Global,
    parameters: &Items<TypeParameter>,
) -> Result<Items<TypeParameter>, AllocError>
    ensures { IfOk result (λ copies. copies ≡ parameters.now) }
{
    let mut copies = empty(alloc);
    for parameter in parameters.as_slice() {
        push(&mut copies, parameter.clone()?)?;
    }
    Ok(copies)
}

/// Copies of these types.
pub fn copy_types(alloc: Global, types: &[TypeRepr]) -> Result<Vec<TypeRepr>, AllocError>
    ensures { IfOk result (λ copies. map type_tree copies.items ≡ map type_tree types.now) }
{
    let mut copies = Vec::new(alloc);
    for ty in types {
        copies.push(ty.clone()?)?;
    }
    Ok(copies)
}

/// A copy of a type that may be given.
pub fn copy_given(ty: &Option<TypeRepr>) -> Result<Option<TypeRepr>, AllocError>
    ensures { IfOk result (λ copy. option_map type_tree copy ≡ option_map type_tree ty.now) }
{
    match ty {
        None => Ok(None),
        Some(ty) => Ok(Some(ty.clone()?)),
    }
}

/// A copy of a parameter.
fn copy_parameter(parameter: &Parameter) -> Result<Parameter, AllocError>
    ensures { IfOk result (λ copy. parameter_tree copy ≡ parameter_tree parameter.now) }
{
    let name = parameter.name.clone()?;
    let ty = parameter.ty.clone()?;
    Ok(Parameter { name, ty })
}

/// Copies of these parameters.
pub fn copy_parameters(
    alloc: Global,
    parameters: &Items<Parameter>,
) -> Result<Items<Parameter>, AllocError>
    ensures { IfOk result (λ copies. map parameter_tree copies ≡ map parameter_tree parameters.now) }
{
    let mut copies = empty(alloc);
    for parameter in parameters.as_slice() {
        push(&mut copies, copy_parameter(parameter)?)?;
    }
    Ok(copies)
}

/// Copies of these clauses.
pub fn copy_clauses(
    alloc: Global,
    clauses: &Items<WhereClause>,
) -> Result<Items<WhereClause>, AllocError>
    ensures { IfOk result (λ copies. map clause_tree copies ≡ map clause_tree clauses.now) }
{
    let mut copies = empty(alloc);
    for clause in clauses.as_slice() {
        push(&mut copies, clause.clone()?)?;
    }
    Ok(copies)
}

/// A copy of a pattern.
pub fn copy_pattern(alloc: Global, pattern: &TokenPattern) -> Result<TokenPattern, AllocError>
    ensures { IfOk result (λ copy. pattern_tree copy ≡ pattern_tree pattern.now) }
{
    let pieces = copy_texts(alloc, &pattern.pieces)?;
    let holes = copy_types(alloc, pattern.holes.as_slice())?;
    Ok(TokenPattern {
        pieces,
        holes: Items(holes),
    })
}
