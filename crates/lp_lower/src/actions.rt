//! The actions of the lowered grammar, in their order.

ghost use Rattle.std.specs.Prelude.{◌≡◌, ◌++◌, [], ◌∷◌, if◌then◌else◌, IfOk, OnOk, map, filter};
ghost use Rattle.lp_repr.specs.TypeTrees.{type_tree};
ghost use Rattle.lp_lower.specs.Actions.{action_tree, start_action, lookaround_action, lookaround_actions, user_action, inline_action, alternative_actions, rule_actions, actions_from, actions_of};
ghost use Rattle.lp_lower.specs.ActionNumbers.{is_replaced};
ghost use Rattle.lp_lower.specs.Expansion.{all_sources, combined};
ghost use Rattle.lp_lower.specs.Extents.{extent_of};
ghost use Rattle.lp_lower.specs.Framing.{frame_of};
ghost use Rattle.lp_lower.specs.Naming.{target};
ghost use Rattle.lp_lower.specs.RightSides.{inline_sides};
ghost use Rattle.lp_lower.specs.TypeOf.{target_tree};

use crate::combine::Combination;
use crate::expand::{Sources, action_count, actions_in, combined, is_replaced};
use crate::extents::Extent;
use crate::frame::{Frame, sum};
use crate::lists::{empty, push};
use crate::names::Names;
use crate::types::{location_type, prefixed, target_type};
use lp_repr::repr::{ActionFnDefn, ActionFnDefnKind, LookaroundActionFn, TypeRepr};
use lp_repr::text::{Items, Text};
use lp_syntax::{PlainAlternative, PlainGrammar, PlainRule};
use std::alloc::{AllocError, Global};

/// The actions: per public rule its start's, then lookahead and lookbehind where they are used,
/// and then those of the rules.
pub fn actions(
    alloc: Global,
    names: &Names<'_>,
    extents: &[Extent],
    sources: &Sources,
    frame: Frame,
) -> Result<Items<ActionFnDefn>, AllocError>
    requires counted { extents.now ≡ map extent_of (inline_sides names.now.plain.now) }
    requires replaced { sources.now ≡ all_sources names.now.plain.now }
    requires framed { frame ≡ frame_of names.now.plain.now }
    ensures { IfOk result (λ a. map action_tree a ≡ actions_of names.now.plain.now) }
{
    let mut all = empty(alloc);
    push_starts(alloc, names.plain, &mut all)?;
    let ahead = LookaroundActionFn::Lookahead;
    push_lookaround(alloc, names.plain, ahead, frame.uses_lookahead, &mut all)?;
    let behind = LookaroundActionFn::Lookbehind;
    push_lookaround(alloc, names.plain, behind, frame.uses_lookbehind, &mut all)?;
    push_rules(alloc, names, extents, sources, frame.first, &mut all)?;
    Ok(all)
}

/// Adds the actions of the starts.
fn push_starts(
    alloc: Global,
    plain: &PlainGrammar,
    all: &mut Items<ActionFnDefn>,
) -> Result<(), AllocError>
    ensures { OnOk result (map action_tree all.new ≡ map action_tree all.old ++ map (start_action plain.now) (filter (λ r. r.public) plain.now.rules)) }
{
    for rule in plain.rules.as_slice() {
        push_start(alloc, plain, rule, all)?;
    }
    Ok(())
}

/// Adds the action of the start of a public rule.
fn push_start(
    alloc: Global,
    plain: &PlainGrammar,
    rule: &PlainRule,
    all: &mut Items<ActionFnDefn>,
) -> Result<(), AllocError>
    ensures { OnOk result (map action_tree all.new ≡ map action_tree all.old ++ (if rule.now.public then start_action plain.now rule.now ∷ [] else [])) }
{
    if rule.public {
        push(all, start_action(alloc, plain, rule)?)?;
    }
    Ok(())
}

/// The action of a start: its argument and its code are the prefix and `0`.
fn start_action(
    alloc: Global,
    plain: &PlainGrammar,
    rule: &PlainRule,
) -> Result<ActionFnDefn, AllocError>
    ensures { IfOk result (λ a. action_tree a ≡ start_action plain.now rule.now) }
{
    let name = prefixed(alloc, plain, "0")?;
    let patterns = vec![in alloc; name]?;
    let ty = rule.ty.clone()?;
    let types = vec![in alloc; ty]?;
    let code = prefixed(alloc, plain, "0")?;
    let ret_type = rule.ty.clone()?;
    Ok(ActionFnDefn {
        fallible: false,
        ret_type,
        kind: ActionFnDefnKind::User {
            arg_patterns: Items(patterns),
            arg_types: Items(types),
            code,
        },
    })
}

/// Adds the action of a lookaround where it is used.
fn push_lookaround(
    alloc: Global,
    plain: &PlainGrammar,
    which: LookaroundActionFn,
    used: bool,
    all: &mut Items<ActionFnDefn>,
) -> Result<(), AllocError>
    ensures { OnOk result (map action_tree all.new ≡ map action_tree all.old ++ lookaround_actions plain.now which used) }
{
    if used {
        push(all, lookaround_action(alloc, plain, which)?)?;
    }
    Ok(())
}

/// The action of a lookaround.
fn lookaround_action(
    alloc: Global,
    plain: &PlainGrammar,
    which: LookaroundActionFn,
) -> Result<ActionFnDefn, AllocError>
    ensures { IfOk result (λ a. action_tree a ≡ lookaround_action plain.now which) }
{
    let ret_type = location_type(alloc, plain)?;
    Ok(ActionFnDefn {
        fallible: false,
        ret_type,
        kind: ActionFnDefnKind::Lookaround(which),
    })
}

/// Adds the actions of the rules, the first of which has this number.
fn push_rules(
    alloc: Global,
    names: &Names<'_>,
    extents: &[Extent],
    sources: &Sources,
    first: usize,
    all: &mut Items<ActionFnDefn>,
) -> Result<(), AllocError>
    requires { extents.now ≡ map extent_of (inline_sides names.now.plain.now) }
    ensures { OnOk result (map action_tree all.new ≡ map action_tree all.old ++ actions_from names.now.plain.now sources.now first names.now.plain.now.rules) }
{
    let mut next = first;
    for rule in names.plain.rules.as_slice() {
        push_rule(alloc, names, extents, sources, rule, next, all)?;
        let count = actions_in(names, extents, rule.alternatives.as_slice())?;
        next = sum(next, count)?;
    }
    Ok(())
}

/// Adds the actions of a rule, the first of which has this number.
fn push_rule(
    alloc: Global,
    names: &Names<'_>,
    extents: &[Extent],
    sources: &Sources,
    rule: &PlainRule,
    first: usize,
    all: &mut Items<ActionFnDefn>,
) -> Result<(), AllocError>
    requires { extents.now ≡ map extent_of (inline_sides names.now.plain.now) }
    ensures { OnOk result (map action_tree all.new ≡ map action_tree all.old ++ rule_actions names.now.plain.now sources.now rule.now first rule.now.alternatives) }
{
    let mut user = first;
    for alternative in rule.alternatives.as_slice() {
        push_alternative(alloc, names, sources, rule, user, alternative, all)?;
        let count = action_count(names, extents, alternative)?;
        user = sum(user, count)?;
    }
    Ok(())
}

/// Adds the user action of an alternative, which has this number, and its inlines.
fn push_alternative(
    alloc: Global,
    names: &Names<'_>,
    sources: &Sources,
    rule: &PlainRule,
    user: usize,
    alternative: &PlainAlternative,
    all: &mut Items<ActionFnDefn>,
) -> Result<(), AllocError>
    ensures { OnOk result (map action_tree all.new ≡ map action_tree all.old ++ alternative_actions names.now.plain.now sources.now rule.now user alternative.now) }
{
    push(all, user_action(alloc, names, rule, alternative)?)?;
    push_replaced(alloc, names, sources, rule, user, alternative, all)?;
    Ok(())
}

/// Adds the inlines over the user action of this number, where something is replaced.
fn push_replaced(
    alloc: Global,
    names: &Names<'_>,
    sources: &Sources,
    rule: &PlainRule,
    user: usize,
    alternative: &PlainAlternative,
    all: &mut Items<ActionFnDefn>,
) -> Result<(), AllocError>
    ensures { OnOk result (map action_tree all.new ≡ map action_tree all.old ++ (if is_replaced names.now.plain.now alternative.now then map (inline_action rule.now user) (combined names.now.plain.now sources.now alternative.now) else [])) }
{
    if is_replaced(names, alternative) {
        let combinations = combined(alloc, names, sources, alternative)?;
        push_inlines(rule, user, combinations, all)?;
    }
    Ok(())
}

/// The user action of an alternative.
fn user_action(
    alloc: Global,
    names: &Names<'_>,
    rule: &PlainRule,
    alternative: &PlainAlternative,
) -> Result<ActionFnDefn, AllocError>
    ensures { IfOk result (λ a. action_tree a ≡ user_action names.now.plain.now rule.now alternative.now) }
{
    let arg_patterns = argument_names(alloc, alternative)?;
    let arg_types = argument_types(alloc, names, alternative)?;
    let code = alternative.code.clone()?;
    let ret_type = rule.ty.clone()?;
    Ok(ActionFnDefn {
        fallible: alternative.fallible,
        ret_type,
        kind: ActionFnDefnKind::User {
            arg_patterns,
            arg_types,
            code,
        },
    })
}

/// The names that the symbols of an alternative are bound to.
fn argument_names(alloc: Global, alternative: &PlainAlternative) -> Result<Items<Text>, AllocError>
    ensures { IfOk result (λ t. t ≡ map (λ s. s.name) alternative.now.symbols) }
{
    let mut names = empty(alloc);
    for symbol in alternative.symbols.as_slice() {
        push(&mut names, symbol.name.clone()?)?;
    }
    Ok(names)
}

/// The types of the symbols of an alternative.
fn argument_types(
    alloc: Global,
    names: &Names<'_>,
    alternative: &PlainAlternative,
) -> Result<Items<TypeRepr>, AllocError>
    ensures { IfOk result (λ t. map type_tree t ≡ map (λ s. target_tree names.now.plain.now (target names.now.plain.now s.kind)) alternative.now.symbols) }
{
    let mut types = empty(alloc);
    for symbol in alternative.symbols.as_slice() {
        let target = names.target(&symbol.kind);
        let ty = target_type(alloc, names, target)?;
        push(&mut types, ty)?;
    }
    Ok(types)
}

/// Adds an inline per combination, over the user action of this number.
fn push_inlines(
    rule: &PlainRule,
    user: usize,
    combinations: Vec<Combination>,
    all: &mut Items<ActionFnDefn>,
) -> Result<(), AllocError>
    ensures { OnOk result (map action_tree all.new ≡ map action_tree all.old ++ map (inline_action rule.now user) combinations.items) }
{
    for combination in combinations {
        push(all, inline_action(rule, user, combination)?)?;
    }
    Ok(())
}

/// The inline of a combination, over the user action of this number.
fn inline_action(
    rule: &PlainRule,
    user: usize,
    combination: Combination,
) -> Result<ActionFnDefn, AllocError>
    ensures { IfOk result (λ a. action_tree a ≡ inline_action rule.now user combination) }
{
    let Combination {
        inlined,
        fallible,
        symbols: _,
    } = combination;
    let ret_type = rule.ty.clone()?;
    Ok(ActionFnDefn {
        fallible,
        ret_type,
        kind: ActionFnDefnKind::Inline {
            action: user,
            symbols: inlined,
        },
    })
}
