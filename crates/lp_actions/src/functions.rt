//! One function per action, by number.

ghost use Rattle.std.specs.Prelude.{◌≡◌, IfOk};
ghost use Rattle.std.specs.List.{flat_map};
ghost use Rattle.lp_tree.specs.ProgramTree.{items};
ghost use Rattle.lp_actions.specs.ActionFunctions.{action_functions, action_lines, functions_from, has_parameters};
ghost use Rattle.lp_actions.specs.Parameters.{AreTypesOf, result_of, return_text};

use crate::body::action_body;
use crate::parameters::action_parameters;
use lp_build::{FunctionName, action_fn};
use lp_parts::texts::TypeTexts;
use lp_repr::repr::{ActionFnDefn, Grammar};
use lp_table::headers::grammar_header;
use lp_table::pieces::{made, piece_of};
use lp_tree::{Node, Piece};
use std::alloc::{AllocError, Global};

/// The functions of all actions, by number.
#[tactic(auto, unfolding(crate::specs::ActionFunctions::action_functions))]
pub fn action_functions<'t>(
    alloc: Global,
    grammar: &'t Grammar,
) -> Result<Vec<Node<'t>>, AllocError>
    ensures { IfOk result (λ v. flat_map items v.items ≡ action_functions grammar.entry.now) }
{
    let types = types_of(alloc, grammar)?;
    functions_of(alloc, grammar, &types, grammar.action_fn_defns.as_slice())
}

/// The texts of a grammar's types.
fn types_of(alloc: Global, grammar: &Grammar) -> Result<TypeTexts, AllocError>
    ensures { IfOk result (AreTypesOf grammar.now) }
{
    TypeTexts::new(alloc, grammar)
}

/// The functions of these actions.
fn functions_of<'t>(
    alloc: Global,
    grammar: &'t Grammar,
    types: &TypeTexts,
    actions: &'t [ActionFnDefn],
) -> Result<Vec<Node<'t>>, AllocError>
    requires { AreTypesOf grammar.now types.now }
    ensures { IfOk result (λ v. flat_map items v.items ≡ functions_from grammar.entry.now 0 actions.entry.now) }
{
    let mut functions = Vec::new(alloc);
    for (number, action) in actions.iter().enumerate() {
        functions.push(action_function(alloc, grammar, types, number, action)?)?;
    }
    Ok(functions)
}

/// The function of one action.
fn action_function<'t>(
    alloc: Global,
    grammar: &'t Grammar,
    types: &TypeTexts,
    number: usize,
    action: &'t ActionFnDefn,
) -> Result<Node<'t>, AllocError>
    requires { AreTypesOf grammar.now types.now }
    ensures { IfOk result (λ n. items n ≡ action_lines grammar.entry.now number action.entry.now) }
{
    let parameters = action_parameters(alloc, grammar, types, &action.kind)?;
    let name = FunctionName::Action(number as u64);
    let returned = return_type(alloc, grammar, types, action)?;
    let generics = Vec::new(alloc);
    let head = grammar_header(alloc, grammar, name, generics, parameters, returned)?;
    let unused = has_parameters(grammar);
    let body = action_body(alloc, grammar, action.fallible, &action.kind)?;
    action_fn(alloc, unused, body, vec![in alloc; head]?)
}

/// The grammar has parameters.
fn has_parameters(grammar: &Grammar) -> bool
    ensures { result ≡ has_parameters grammar.now }
{
    grammar.parameters.as_slice().len() > 0
}

/// What an action's function returns.
fn return_type<'t>(
    alloc: Global,
    grammar: &Grammar,
    types: &TypeTexts,
    action: &ActionFnDefn,
) -> Result<Piece<'t>, AllocError>
    requires { AreTypesOf grammar.now types.now }
    ensures { IfOk result (λ p. p ≡ return_text grammar.now action.now) }
{
    if !action.fallible {
        return piece_of(alloc, &action.ret_type);
    }
    let ty = action.ret_type.to_string(alloc)?;
    result_of(
        alloc,
        grammar.prefix.as_str(),
        ty.as_str(),
        types.location.as_str(),
        types.token.as_str(),
        types.error.as_str(),
    )
}

/// `Result<type,~lalrpop_util::ParseError<L,T,E>>`
fn result_of<'t>(
    alloc: Global,
    prefix: &str,
    ty: &str,
    location: &str,
    token: &str,
    error: &str,
) -> Result<Piece<'t>, AllocError>
    ensures { IfOk result (λ p. p ≡ result_of prefix.now ty.now location.now token.now error.now) }
{
    Ok(made(format!(in alloc;
        "Result<{ty},{prefix}lalrpop_util::ParseError<{location},{token},{error}>>"
    )?))
}
