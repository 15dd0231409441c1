//! The grammar's prefix stands at the front of the starts' names and nowhere else.

ghost use Rattle.std.specs.Prelude.{◌≡◌, ◌++◌, map, not, position, nat_eq, IfOk, OnOk};
ghost use Rattle.std.specs.BTreeMap.{values};
ghost use Rattle.std.specs.List.{list_any, starts_with};
ghost use Rattle.std.specs.Map.Iter.{deref};
ghost use Rattle.std.specs.Option.{option_to_list};
ghost use Rattle.lp_repr.specs.Names.{same_nonterminal};
ghost use Rattle.lp_repr.specs.Shown.{pattern_text};
ghost use Rattle.lp_repr.specs.Numbering.{nonterminals_of};
ghost use Rattle.lp_valid.specs.Places.{EachPasses, IsFirstFailing};
ghost use Rattle.lp_valid.specs.PrefixRules.{lacks, lacks_or_starts, is_clear, types_of, UsesLack, PatternsLack, ReturnTypesAreClear, TypesAreClear, ParametersLack, NonterminalsLack, PrefixIsApart};

use crate::grammars::then;
use crate::prefixes::{Forbidden, begins, is_clear, lacks};
use lp_repr::Text;
use lp_repr::repr::{
    ActionFnDefn, Grammar, NonterminalString, Parameter, TokenPattern, TypeRepr, Types,
};
use std::alloc::{AllocError, Global};
use std::collections::BTreeMap;

/// The first place at which the prefix is missing or stands where it can't.
pub(crate) fn failing_prefix(alloc: Global, grammar: &Grammar) -> Result<Option<usize>, AllocError>
    ensures { IfOk result (IsFirstFailing (PrefixIsApart grammar.now)) }
{
    let rest = failing_nonterminals(alloc, grammar)?;
    let first = first_other_start(grammar);
    then(grammar.start_nonterminals.len(), first, rest)
}

/// The first start whose name doesn't begin with the prefix.
fn first_other_start(grammar: &Grammar) -> Option<usize>
    ensures { result
        ≡ position (λ s. not (starts_with nat_eq s.0 grammar.now.prefix)) (values grammar.now.start_nonterminals) }
{
    grammar
        .start_nonterminals
        .values()
        .position(|s| !begins_apart(grammar, s))
}

fn begins_apart(grammar: &Grammar, start: &NonterminalString) -> bool
    ensures { result ≡ starts_with nat_eq start.now.0 grammar.now.prefix }
{
    begins(grammar.prefix.as_str(), start.0.as_str())
}

/// Whether the grammar's prefix stands nowhere in the text.
fn lacks_prefix(grammar: &Grammar, text: &str) -> bool
    ensures { result ≡ lacks grammar.now.prefix text.now }
{
    lacks(grammar.prefix.as_str(), text)
}

fn failing_nonterminals(alloc: Global, grammar: &Grammar) -> Result<Option<usize>, AllocError>
    ensures { IfOk result (IsFirstFailing (NonterminalsLack grammar.now)) }
{
    let rest = failing_parameters(alloc, grammar)?;
    let first = first_other_nonterminal(grammar);
    then(grammar.nonterminals.len(), first, rest)
}

/// The first nonterminal whose name holds the prefix and that is no start.
fn first_other_nonterminal(grammar: &Grammar) -> Option<usize>
    ensures { result
        ≡ position (λ n. not (lacks_or_starts grammar.now n)) (nonterminals_of grammar.now) }
{
    grammar
        .nonterminals
        .keys()
        .position(|n| !lacks_or_starts(grammar, n))
}

fn lacks_or_starts(grammar: &Grammar, name: &NonterminalString) -> bool
    ensures { result ≡ lacks_or_starts grammar.now name.now }
{
    lacks_prefix(grammar, name.0.as_str()) || is_start(grammar, name)
}

fn is_start(grammar: &Grammar, name: &NonterminalString) -> bool
    ensures { result
        ≡ list_any (λ s. same_nonterminal s name.now) (values grammar.now.start_nonterminals) }
{
    grammar
        .start_nonterminals
        .values()
        .any(|s| is_same(s, name))
}

fn is_same(name: &NonterminalString, other: &NonterminalString) -> bool
    ensures { result ≡ same_nonterminal name.now other.now }
{
    *name == *other
}

fn failing_parameters(alloc: Global, grammar: &Grammar) -> Result<Option<usize>, AllocError>
    ensures { IfOk result (IsFirstFailing (ParametersLack grammar.now)) }
{
    let rest = failing_types(alloc, grammar)?;
    let parameters = grammar.parameters.as_slice();
    let first = first_parameter(grammar, parameters);
    then(parameters.len(), first, rest)
}

fn first_parameter(grammar: &Grammar, parameters: &[Parameter]) -> Option<usize>
    ensures { result ≡ position (λ p. not (lacks grammar.now.prefix p.name)) parameters.now }
{
    parameters
        .iter()
        .position(|p| !lacks_prefix(grammar, p.name.as_str()))
}

fn failing_types(alloc: Global, grammar: &Grammar) -> Result<Option<usize>, AllocError>
    ensures { IfOk result (IsFirstFailing (TypesAreClear grammar.now)) }
{
    let rest = failing_return_types(alloc, grammar)?;
    let types = types(alloc, &grammar.types)?;
    let types = types.as_slice();
    let first = first_type(grammar, types);
    then(types.len(), first, rest)
}

/// Whether the type holds the grammar's prefix nowhere but inside the error terminal's type.
fn is_clear_type(grammar: &Grammar, ty: &TypeRepr) -> bool
    ensures { result ≡ is_clear grammar.now.prefix grammar.now.types ty.now }
{
    let forbidden = Forbidden {
        prefix: grammar.prefix.as_str(),
        types: &grammar.types,
    };
    is_clear(&forbidden, ty)
}

/// The location type, the token type, the error type, those of terminals and those of
/// nonterminals.
fn types(alloc: Global, types: &Types) -> Result<Vec<&TypeRepr>, AllocError>
    ensures { IfOk result (λ v. map deref v.items ≡ types_of types.now) }
{
    let mut all = Vec::new(alloc);
    push_option(&types.loc, &mut all)?;
    all.push(&types.token)?;
    push_option(&types.error, &mut all)?;
    push_values(&types.terminals, &mut all)?;
    push_values(&types.nonterminals, &mut all)?;
    Ok(all)
}

fn push_option<'g>(ty: &'g Option<TypeRepr>, all: &mut Vec<&'g TypeRepr>) -> Result<(), AllocError>
    ensures { OnOk result (map deref all.new.items ≡ map deref all.old.items ++ option_to_list ty.entry.now) }
{
    match ty {
        None => Ok(()),
        Some(ty) => {
            all.push(ty)?;
            Ok(())
        }
    }
}

fn push_values<'g, K: Ord>(
    types: &'g BTreeMap<K, TypeRepr>,
    all: &mut Vec<&'g TypeRepr>,
) -> Result<(), AllocError>
    ensures { OnOk result (map deref all.new.items ≡ map deref all.old.items ++ values types.entry.now) }
{
    for ty in types.values() {
        all.push(ty)?;
    }
    Ok(())
}

fn first_type(grammar: &Grammar, types: &[&TypeRepr]) -> Option<usize>
    ensures { result
        ≡ position (λ t. not (is_clear grammar.now.prefix grammar.now.types t.now)) types.now }
{
    types.iter().position(|ty| !is_clear_type(grammar, ty))
}

fn failing_return_types(alloc: Global, grammar: &Grammar) -> Result<Option<usize>, AllocError>
    ensures { IfOk result (IsFirstFailing (ReturnTypesAreClear grammar.now)) }
{
    let rest = failing_patterns(alloc, grammar)?;
    let actions = grammar.action_fn_defns.as_slice();
    let first = first_return_type(grammar, actions);
    then(actions.len(), first, rest)
}

fn first_return_type(grammar: &Grammar, actions: &[ActionFnDefn]) -> Option<usize>
    ensures { result
        ≡ position (λ a. not (is_clear grammar.now.prefix grammar.now.types a.ret_type)) actions.now }
{
    actions
        .iter()
        .position(|a| !is_clear_type(grammar, &a.ret_type))
}

fn failing_patterns(alloc: Global, grammar: &Grammar) -> Result<Option<usize>, AllocError>
    ensures { IfOk result (IsFirstFailing (PatternsLack grammar.now)) }
{
    let rest = failing_uses(grammar)?;
    let patterns = patterns(alloc, grammar)?;
    let patterns = patterns.as_slice();
    let first = first_pattern(alloc, grammar, patterns)?;
    then(patterns.len(), first, rest)
}

fn patterns(alloc: Global, grammar: &Grammar) -> Result<Vec<&TokenPattern>, AllocError>
    ensures { IfOk result (λ v. map deref v.items ≡ values grammar.now.conversions) }
{
    grammar.conversions.values().collect(alloc)
}

/// The first pattern whose text holds the prefix.
fn first_pattern(
    alloc: Global,
    grammar: &Grammar,
    patterns: &[&TokenPattern],
) -> Result<Option<usize>, AllocError>
    ensures { IfOk result (IsFirstFailing
        (EachPasses (λ p. lacks grammar.now.prefix (pattern_text p.now)) patterns.now)) }
{
    for (place, pattern) in patterns.iter().enumerate() {
        if !pattern_lacks(alloc, grammar, pattern)? {
            return Ok(Some(place));
        }
    }
    Ok(None)
}

fn pattern_lacks(
    alloc: Global,
    grammar: &Grammar,
    pattern: &TokenPattern,
) -> Result<bool, AllocError>
    ensures { IfOk result (λ b. b ≡ lacks grammar.now.prefix (pattern_text pattern.now)) }
{
    let text = format!(in alloc; "{pattern}")?;
    Ok(lacks_prefix(grammar, text.as_str()))
}

fn failing_uses(grammar: &Grammar) -> Result<Option<usize>, AllocError>
    ensures { IfOk result (IsFirstFailing (UsesLack grammar.now)) }
{
    let uses = grammar.uses.as_slice();
    let attributes = grammar.module_attributes.as_slice();
    let first = first_text(grammar, uses);
    let rest = first_text(grammar, attributes);
    then(uses.len(), first, rest)
}

/// The first text that holds the prefix.
fn first_text(grammar: &Grammar, texts: &[Text]) -> Option<usize>
    ensures { result ≡ position (λ t. not (lacks grammar.now.prefix t)) texts.now }
{
    texts
        .iter()
        .position(|t| !lacks_prefix(grammar, t.as_str()))
}
