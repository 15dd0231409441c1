//! The parameters of an action's function.

ghost use Rattle.std.specs.Prelude.{◌≡◌, ◌++◌, map, slice_get, IfOk, OnOk};
ghost use Rattle.std.specs.List.{flat_map};
ghost use Rattle.std.specs.Map.Iter.{deref};
ghost use Rattle.lp_actions.specs.Parameters.{AreTypesOf, action_parameters, ahead_parameter, behind_parameter, inline_parameter, inline_parameters, place_parameters, symbols_of, user_from, user_if, user_parameter};

use crate::symbols::{flat_symbols, takes_any};
use lp_parts::texts::TypeTexts;
use lp_repr::Text;
use lp_repr::repr::{ActionFnDefnKind, Grammar, InlinedSymbol, Symbol, TypeRepr};
use lp_table::pieces::made;
use lp_table::shared::symbol_type;
use lp_tree::Piece;
use std::alloc::{AllocError, Global};

/// The parameters of an action's function besides those of the grammar.
pub fn action_parameters<'t>(
    alloc: Global,
    grammar: &'t Grammar,
    types: &TypeTexts,
    kind: &ActionFnDefnKind,
) -> Result<Vec<Piece<'t>>, AllocError>
    requires { AreTypesOf grammar.now types.now }
    ensures { IfOk result (λ v. v.items ≡ action_parameters grammar.entry.now kind.now) }
{
    match kind {
        ActionFnDefnKind::User {
            arg_patterns,
            arg_types,
            code: _,
        } => {
            if arg_patterns.as_slice().is_empty() {
                place_parameters(alloc, grammar, types)
            } else {
                let patterns = arg_patterns.as_slice();
                user_parameters(alloc, grammar, types, patterns, arg_types.as_slice())
            }
        }
        ActionFnDefnKind::Lookaround(_) => place_parameters(alloc, grammar, types),
        ActionFnDefnKind::Inline { action: _, symbols } => {
            if takes_any(symbols.as_slice()) {
                inline_parameters(alloc, grammar, types, symbols.as_slice())
            } else {
                place_parameters(alloc, grammar, types)
            }
        }
    }
}

/// The arguments of user code, each with its span.
fn user_parameters<'t>(
    alloc: Global,
    grammar: &Grammar,
    types: &TypeTexts,
    patterns: &[Text],
    arg_types: &[TypeRepr],
) -> Result<Vec<Piece<'t>>, AllocError>
    requires { AreTypesOf grammar.now types.now }
    ensures { IfOk result (λ v. v.items ≡ user_from grammar.now arg_types.now 0 patterns.now) }
{
    let mut parameters = Vec::new(alloc);
    for (number, pattern) in patterns.iter().enumerate() {
        push_user(
            alloc,
            &mut parameters,
            grammar,
            types,
            pattern,
            arg_types,
            number,
        )?;
    }
    Ok(parameters)
}

/// Adds the argument of user code of a number, where it has a type.
fn push_user<'t>(
    alloc: Global,
    parameters: &mut Vec<Piece<'t>>,
    grammar: &Grammar,
    types: &TypeTexts,
    pattern: &Text,
    arg_types: &[TypeRepr],
    number: usize,
) -> Result<(), AllocError>
    requires { AreTypesOf grammar.now types.now }
    ensures { OnOk result (parameters.new.items ≡ parameters.old.items ++ user_if grammar.now pattern.now (slice_get arg_types.now number)) }
{
    match arg_types.get(number) {
        None => Ok(()),
        Some(ty) => {
            parameters.push(user_parameter(alloc, grammar, types, pattern, ty)?)?;
            Ok(())
        }
    }
}

/// An argument of user code with its span.
fn user_parameter<'t>(
    alloc: Global,
    grammar: &Grammar,
    types: &TypeTexts,
    pattern: &Text,
    ty: &TypeRepr,
) -> Result<Piece<'t>, AllocError>
    requires { AreTypesOf grammar.now types.now }
    ensures { IfOk result (λ p. p ≡ user_parameter grammar.now pattern.now ty.now) }
{
    let spanned = types.spanned(alloc, ty)?;
    Ok(made(format!(in alloc; "(_, {pattern}, _): {spanned}")?))
}

/// The locations around an action that takes no symbols.
fn place_parameters<'t>(
    alloc: Global,
    grammar: &Grammar,
    types: &TypeTexts,
) -> Result<Vec<Piece<'t>>, AllocError>
    requires { AreTypesOf grammar.now types.now }
    ensures { IfOk result (λ v. v.items ≡ place_parameters grammar.now) }
{
    let prefix = grammar.prefix.as_str();
    let location = types.location.as_str();
    let behind = behind_parameter(alloc, prefix, location)?;
    let ahead = ahead_parameter(alloc, prefix, location)?;
    Ok(vec![in alloc; behind, ahead]?)
}

/// The location behind as a parameter.
fn behind_parameter<'t>(
    alloc: Global,
    prefix: &str,
    location: &str,
) -> Result<Piece<'t>, AllocError>
    ensures { IfOk result (λ p. p ≡ behind_parameter prefix.now location.now) }
{
    Ok(made(format!(in alloc; "{prefix}lookbehind: &{location}")?))
}

/// The location of the lookahead as a parameter.
fn ahead_parameter<'t>(alloc: Global, prefix: &str, location: &str) -> Result<Piece<'t>, AllocError>
    ensures { IfOk result (λ p. p ≡ ahead_parameter prefix.now location.now) }
{
    Ok(made(format!(in alloc; "{prefix}lookahead: &{location}")?))
}

/// The arguments of symbols, each with its span.
fn inline_parameters<'t>(
    alloc: Global,
    grammar: &Grammar,
    types: &TypeTexts,
    symbols: &[InlinedSymbol],
) -> Result<Vec<Piece<'t>>, AllocError>
    requires { AreTypesOf grammar.now types.now }
    ensures { IfOk result (λ v. v.items ≡ inline_parameters grammar.now 0 (flat_map symbols_of symbols.now)) }
{
    let flat = flat_symbols(alloc, symbols)?;
    parameters_of(alloc, grammar, types, flat.as_slice())
}

/// The arguments of these symbols.
fn parameters_of<'t>(
    alloc: Global,
    grammar: &Grammar,
    types: &TypeTexts,
    symbols: &[&Symbol],
) -> Result<Vec<Piece<'t>>, AllocError>
    requires { AreTypesOf grammar.now types.now }
    ensures { IfOk result (λ v. v.items ≡ inline_parameters grammar.now 0 (map deref symbols.now)) }
{
    let mut pieces = Vec::new(alloc);
    for (number, symbol) in symbols.iter().enumerate() {
        pieces.push(inline_parameter(alloc, grammar, types, number, *symbol)?)?;
    }
    Ok(pieces)
}

/// One argument with its span.
fn inline_parameter<'t>(
    alloc: Global,
    grammar: &Grammar,
    types: &TypeTexts,
    number: usize,
    symbol: &Symbol,
) -> Result<Piece<'t>, AllocError>
    requires { AreTypesOf grammar.now types.now }
    ensures { IfOk result (λ p. p ≡ inline_parameter grammar.now number symbol.now) }
{
    let prefix = grammar.prefix.as_str();
    let spanned = types.spanned(alloc, symbol_type(grammar, symbol))?;
    Ok(made(format!(in alloc; "{prefix}{number}: {spanned}")?))
}
