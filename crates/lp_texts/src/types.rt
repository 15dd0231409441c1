//! The texts of types, which are counted through all the lists that have some.

ghost use Rattle.std.specs.List.{flat_map};
ghost use Rattle.lp_texts.specs.Counted.{Counts};
ghost use Rattle.lp_texts.specs.TypeTexts.{optional_text, argument_texts, declared_texts, header_texts, action_texts, type_texts};
ghost use Rattle.lp_texts.specs.TextRules.{AnswersLine};
ghost use Rattle.lp_texts.specs.declared.faults.TextKind.TheVariants.{TypeText};

use crate::counted::{check_one, check_slice, check_values};
use crate::faults::{TextFault, TextKind};
use crate::rules::{LineRule, ParameterRule, ReturnRule, VisibilityRule};
use lp_repr::parse_tree::TypeParameter;
use lp_repr::repr::{
    ActionFnDefn, ActionFnDefnKind, Grammar, NonterminalData, NonterminalString, Parameter,
    TerminalString, TypeRepr, Types, WhereClause,
};
use std::alloc::Global;

/// The texts of types, from the first on.
pub(crate) fn check_types(alloc: Global, grammar: &Grammar) -> Result<usize, TextFault>
    ensures { Counts TypeText AnswersLine (type_texts grammar.now) 0 result }
{
    let after_declared = check_declared(alloc, 0, &grammar.types)?;
    let after_headers = check_headers(alloc, after_declared, grammar)?;
    let actions = grammar.action_fn_defns.as_slice();
    check_actions(alloc, after_headers, actions)
}

/// A type, if there is one.
fn check_optional(alloc: Global, from: usize, ty: &Option<TypeRepr>) -> Result<usize, TextFault>
    ensures { Counts TypeText AnswersLine (optional_text ty.now) from result }
{
    match ty {
        None => Ok(from),
        Some(ty) => check_one::<TypeRepr, LineRule>(alloc, TextKind::TypeText, from, ty),
    }
}

/// The location, token and error type, and those of terminals and nonterminals.
fn check_declared(alloc: Global, from: usize, types: &Types) -> Result<usize, TextFault>
    ensures { Counts TypeText AnswersLine (declared_texts types.now) from result }
{
    let kind = TextKind::TypeText;
    let after_location = check_optional(alloc, from, &types.loc)?;
    let after_token = check_one::<TypeRepr, LineRule>(alloc, kind, after_location, &types.token)?;
    let after_error = check_optional(alloc, after_token, &types.error)?;
    let after_terminals = check_values::<TerminalString, TypeRepr, LineRule>(
        alloc,
        kind,
        after_error,
        &types.terminals,
    )?;
    check_values::<NonterminalString, TypeRepr, LineRule>(
        alloc,
        kind,
        after_terminals,
        &types.nonterminals,
    )
}

/// The type parameters, the types of the parameters, the clauses, and the visibilities.
fn check_headers(alloc: Global, from: usize, grammar: &Grammar) -> Result<usize, TextFault>
    ensures { Counts TypeText AnswersLine (header_texts grammar.now) from result }
{
    let kind = TextKind::TypeText;
    let names = grammar.type_parameters.as_slice();
    let after_names = check_slice::<TypeParameter, LineRule>(alloc, kind, from, names)?;
    let parameters = grammar.parameters.as_slice();
    let after_types = check_slice::<Parameter, ParameterRule>(
        alloc,
        kind,
        after_names,
        parameters,
    )?;
    let clauses = grammar.where_clauses.as_slice();
    let after_clauses = check_slice::<WhereClause, LineRule>(alloc, kind, after_types, clauses)?;
    check_values::<NonterminalString, NonterminalData, VisibilityRule>(
        alloc,
        kind,
        after_clauses,
        &grammar.nonterminals,
    )
}

/// The argument types per action, and the types of what the actions give.
fn check_actions(alloc: Global, from: usize, actions: &[ActionFnDefn]) -> Result<usize, TextFault>
    ensures { Counts TypeText AnswersLine (action_texts actions.now) from result }
{
    let after_arguments = check_arguments(alloc, from, actions)?;
    let kind = TextKind::TypeText;
    check_slice::<ActionFnDefn, ReturnRule>(alloc, kind, after_arguments, actions)
}

/// The argument types per action.
fn check_arguments(alloc: Global, from: usize, actions: &[ActionFnDefn]) -> Result<usize, TextFault>
    ensures { Counts TypeText AnswersLine (flat_map (λ a. argument_texts a.kind) actions.now) from result }
{
    let mut number = from;
    for action in actions {
        number = check_kind(alloc, number, &action.kind)?;
    }
    Ok(number)
}

/// The argument types of an action.
fn check_kind(alloc: Global, from: usize, action: &ActionFnDefnKind) -> Result<usize, TextFault>
    ensures { Counts TypeText AnswersLine (argument_texts action.now) from result }
{
    match action {
        ActionFnDefnKind::User { arg_types, .. } => {
            let types = arg_types.as_slice();
            check_slice::<TypeRepr, LineRule>(alloc, TextKind::TypeText, from, types)
        }
        ActionFnDefnKind::Lookaround(_) => Ok(from),
        ActionFnDefnKind::Inline { .. } => Ok(from),
    }
}
