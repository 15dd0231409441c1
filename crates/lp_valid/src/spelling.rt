//! The names of a grammar.

ghost use Rattle.std.specs.Prelude.{◌≡◌, not, position, codes};
ghost use Rattle.std.specs.List.{list_any, list_all};
ghost use Rattle.lp_repr.specs.Names.{same_text};
ghost use Rattle.lp_valid.specs.NameRules.{start_has_names, is_parameter_name, is_argument_name, kind_has_names, has_input};

use crate::names::{is_argument_name, is_identifier, is_parameter_name};
use lp_repr::Text;
use lp_repr::repr::{ActionFnDefn, ActionFnDefnKind, Grammar, NonterminalString, Parameter};

/// The first start with a name that it can't have.
pub(crate) fn failing_start_name(grammar: &Grammar) -> Option<usize>
    ensures { result ≡ position (λ e. not (start_has_names e)) grammar.now.start_nonterminals.entries }
{
    grammar
        .start_nonterminals
        .iter()
        .position(|(public, start)| !start_has_names(public, start))
}

fn start_has_names(public: &NonterminalString, start: &NonterminalString) -> bool
    ensures { result ≡ start_has_names (public.now, start.now) }
{
    is_identifier(public.0.as_str()) && is_identifier(start.0.as_str())
}

/// The first parameter with a name that it can't have.
pub(crate) fn failing_parameter_name(parameters: &[Parameter]) -> Option<usize>
    ensures { result ≡ position (λ p. not (is_parameter_name p.name)) parameters.now }
{
    parameters
        .iter()
        .position(|p| !is_parameter_name(p.name.as_str()))
}

/// The first action with an argument name that it can't have.
pub(crate) fn failing_argument_name(actions: &[ActionFnDefn]) -> Option<usize>
    ensures { result ≡ position (λ a. not (kind_has_names a.kind)) actions.now }
{
    actions.iter().position(|a| !kind_has_names(&a.kind))
}

fn kind_has_names(kind: &ActionFnDefnKind) -> bool
    ensures { result ≡ kind_has_names kind.now }
{
    match kind {
        ActionFnDefnKind::User { arg_patterns, .. } => are_argument_names(arg_patterns.as_slice()),
        ActionFnDefnKind::Lookaround(_) => true,
        ActionFnDefnKind::Inline { .. } => true,
    }
}

fn are_argument_names(patterns: &[Text]) -> bool
    ensures { result ≡ list_all is_argument_name patterns.now }
{
    patterns.iter().all(|p| is_argument_name(p.as_str()))
}

/// Whether the grammar has its own tokens, or the parameter that an interned one needs.
pub(crate) fn has_input(grammar: &Grammar) -> bool
    ensures { result ≡ has_input grammar.now }
{
    grammar.intern_token.is_none() || names_input(grammar.parameters.as_slice())
}

fn names_input(parameters: &[Parameter]) -> bool
    ensures { result ≡ list_any (λ p. same_text p.name (codes "input")) parameters.now }
{
    parameters.iter().any(|p| p.name.as_str() == "input")
}
