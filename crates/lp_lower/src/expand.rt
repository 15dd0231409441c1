//! How alternatives are expanded, and how many actions they have.

ghost use Rattle.std.specs.Prelude.{◌≡◌, ◌++◌, if◌then◌else◌, IfOk, OnOk, Some, [], ◌∷◌, length, map, slice_index_or};
ghost use Rattle.lp_lower.specs.ActionNumbers.{action_count, actions_in, is_replaced, is_replaced_target};
ghost use Rattle.lp_lower.specs.Expansion.{all_sources, combined, expanded, expanded_all, expanded_from, lookaround, options, rule_pieces, terminal_pieces};
ghost use Rattle.lp_lower.specs.Extents.{extent_of};
ghost use Rattle.lp_lower.specs.Framing.{frame_of};
ghost use Rattle.lp_lower.specs.Naming.{target};
ghost use Rattle.lp_lower.specs.Pieces.{pieces_of};
ghost use Rattle.lp_lower.specs.RightSides.{inline_sides, right_sides};
ghost use Rattle.lp_lower.specs.declared.names.Target.TheVariants.{Rule};

use crate::combine::{Combination, Expanded, Part, combinations};
use crate::copies::{copy_nonterminal, copy_terminal};
use crate::extents::{Extent, alternative_extent};
use crate::frame::{Frame, after, sum};
use crate::lists::{empty, push};
use crate::names::{Names, Target};
use crate::refusals::is_inline;
use lp_repr::repr::{Symbol, TerminalString};
use lp_repr::text::Items;
use lp_syntax::{PlainAlternative, PlainKind, PlainRule};
use std::alloc::{AllocError, Global};

/// What `@L`, `@R` and inline rules are replaced by.
#[derive(Drop)]
pub struct Sources {
    pub lookahead: Items<Expanded>,
    pub lookbehind: Items<Expanded>,
    /// Of each rule so far; none of one that isn't inline.
    pub inlines: Items<Items<Expanded>>,
}

impl Sources {
    /// The expanded alternatives of the rule of this number.
    fn inline(&self, number: usize) -> &[Expanded]
        ensures { result.now ≡ slice_index_or self.now.inlines number [] }
    {
        match self.inlines.as_slice().get(number) {
            None => &[],
            Some(expanded) => expanded.as_slice(),
        }
    }
}

/// What may stand in the place of a symbol.
fn part<'s>(
    names: &Names<'_>,
    sources: &'s Sources,
    target: Option<Target>,
) -> Result<Part<'s>, AllocError>
    ensures { IfOk result (λ p. pieces_of p ≡ options names.now.plain.now sources.entry.now target) }
{
    match target {
        None => Ok(Part::Options(&[])),
        Some(Target::Rule(number)) => Ok(rule_part(names, sources, number)?),
        Some(Target::Terminal(number)) => Ok(terminal_part(names, number)?),
        Some(Target::Lookahead) => Ok(Part::Options(sources.lookahead.as_slice())),
        Some(Target::Lookbehind) => Ok(Part::Options(sources.lookbehind.as_slice())),
        Some(Target::Error) => Ok(Part::Itself(Symbol::Terminal(TerminalString::Error))),
    }
}

/// What may stand in the place of the rule of this number.
fn rule_part<'s>(
    names: &Names<'_>,
    sources: &'s Sources,
    number: usize,
) -> Result<Part<'s>, AllocError>
    ensures { IfOk result (λ p. pieces_of p ≡ options names.now.plain.now sources.entry.now (Some (Rule number))) }
{
    match names.rule(number) {
        None => Ok(Part::Options(&[])),
        Some(rule) => Ok(one_rule_part(rule, sources.inline(number))?),
    }
}

/// What may stand in the place of this rule.
fn one_rule_part<'s>(rule: &PlainRule, expanded: &'s [Expanded]) -> Result<Part<'s>, AllocError>
    ensures { IfOk result (λ p. pieces_of p ≡ rule_pieces rule.now expanded.entry.now) }
{
    if rule.inline {
        Ok(Part::Options(expanded))
    } else {
        Ok(Part::Itself(Symbol::Nonterminal(copy_nonterminal(&rule.name)?)))
    }
}

/// The terminal of this number.
fn terminal_part<'s>(names: &Names<'_>, number: usize) -> Result<Part<'s>, AllocError>
    ensures { IfOk result (λ p. pieces_of p ≡ terminal_pieces names.now.plain.now number) }
{
    match names.terminal(number) {
        None => Ok(Part::Options(&[])),
        Some(terminal) => Ok(Part::Itself(Symbol::Terminal(copy_terminal(&terminal.name)?))),
    }
}

/// What may stand in the place of each symbol of an alternative.
fn parts<'s>(
    alloc: Global,
    names: &Names<'_>,
    sources: &'s Sources,
    alternative: &PlainAlternative,
) -> Result<Vec<Part<'s>>, AllocError>
    ensures { IfOk result (λ v. map pieces_of v.items ≡ map (λ s. options names.now.plain.now sources.entry.now (target names.now.plain.now s.kind)) alternative.now.symbols) }
{
    let mut parts = Vec::new(alloc);
    for symbol in alternative.symbols.as_slice() {
        let target = names.target(&symbol.kind);
        let part = part(names, sources, target)?;
        parts.push(part)?;
    }
    Ok(parts)
}

/// The combinations of an alternative.
pub fn combined(
    alloc: Global,
    names: &Names<'_>,
    sources: &Sources,
    alternative: &PlainAlternative,
) -> Result<Vec<Combination>, AllocError>
    ensures { IfOk result (λ v. v.items ≡ combined names.now.plain.now sources.now alternative.now) }
{
    let parts = parts(alloc, names, sources, alternative)?;
    Ok(combinations(alloc, alternative.fallible, parts.as_slice())?)
}

/// Whether something in an alternative is replaced.
pub fn is_replaced(names: &Names<'_>, alternative: &PlainAlternative) -> bool
    ensures { result ≡ is_replaced names.now.plain.now alternative.now }
{
    for symbol in alternative.symbols.as_slice() {
        if is_replaced_kind(names, &symbol.kind) {
            return true;
        }
    }
    false
}

/// Whether a symbol is replaced.
fn is_replaced_kind(names: &Names<'_>, kind: &PlainKind) -> bool
    ensures { result ≡ is_replaced_target names.now.plain.now (target names.now.plain.now kind.now) }
{
    match names.target(kind) {
        None => false,
        Some(Target::Rule(number)) => is_inline(names.plain.rules.as_slice(), number),
        Some(Target::Terminal(_)) => false,
        Some(Target::Lookahead) => true,
        Some(Target::Lookbehind) => true,
        Some(Target::Error) => false,
    }
}

/// How many actions an alternative has: its user action, and an inline per combination where
/// something is replaced.
pub fn action_count(
    names: &Names<'_>,
    extents: &[Extent],
    alternative: &PlainAlternative,
) -> Result<usize, AllocError>
    requires { extents.now ≡ map extent_of (inline_sides names.now.plain.now) }
    ensures { IfOk result (λ n. n ≡ action_count names.now.plain.now alternative.now) }
{
    if is_replaced(names, alternative) {
        let sides = side_count(names, extents, alternative)?;
        Ok(sum(1, sides)?)
    } else {
        Ok(1)
    }
}

/// How many right sides an alternative has. Memory holds no more than a usize can count.
fn side_count(
    names: &Names<'_>,
    extents: &[Extent],
    alternative: &PlainAlternative,
) -> Result<usize, AllocError>
    requires { extents.now ≡ map extent_of (inline_sides names.now.plain.now) }
    ensures { IfOk result (λ n. n ≡ length (right_sides names.now.plain.now (inline_sides names.now.plain.now) alternative.now)) }
{
    let extent = alternative_extent(names, extents, alternative);
    if extent.alternatives == usize::MAX {
        return Err(AllocError);
    }
    Ok(extent.alternatives)
}

/// How many actions these alternatives have.
pub fn actions_in(
    names: &Names<'_>,
    extents: &[Extent],
    alternatives: &[PlainAlternative],
) -> Result<usize, AllocError>
    requires { extents.now ≡ map extent_of (inline_sides names.now.plain.now) }
    ensures { IfOk result (λ n. n ≡ actions_in names.now.plain.now alternatives.now) }
{
    let mut count: usize = 0;
    for alternative in alternatives {
        let more = action_count(names, extents, alternative)?;
        count = sum(count, more)?;
    }
    Ok(count)
}

/// Adds the expanded alternatives of an alternative whose user action has this number.
fn push_expanded(
    alloc: Global,
    names: &Names<'_>,
    sources: &Sources,
    user: usize,
    alternative: &PlainAlternative,
    all: &mut Items<Expanded>,
) -> Result<(), AllocError>
    ensures { OnOk result (all.new ≡ all.old ++ expanded names.now.plain.now sources.now user alternative.now) }
{
    let combinations = combined(alloc, names, sources, alternative)?;
    let first = after(user, is_replaced(names, alternative))?;
    push_numbered(first, combinations, all)?;
    Ok(())
}

/// Adds these combinations as expanded alternatives, whose actions begin with this number.
fn push_numbered(
    first: usize,
    combinations: Vec<Combination>,
    all: &mut Items<Expanded>,
) -> Result<(), AllocError>
    ensures { OnOk result (all.new ≡ all.old ++ expanded_from first combinations.items) }
{
    let mut action = first;
    for combination in combinations {
        let Combination {
            inlined: _,
            fallible,
            symbols,
        } = combination;
        let expanded = Expanded {
            action,
            fallible,
            symbols,
        };
        push(all, expanded)?;
        action = sum(action, 1)?;
    }
    Ok(())
}

/// The expanded alternatives of these alternatives, whose actions begin with this number.
pub fn expanded_all(
    alloc: Global,
    names: &Names<'_>,
    extents: &[Extent],
    sources: &Sources,
    first: usize,
    alternatives: &[PlainAlternative],
) -> Result<Items<Expanded>, AllocError>
    requires { extents.now ≡ map extent_of (inline_sides names.now.plain.now) }
    ensures { IfOk result (λ e. e ≡ expanded_all names.now.plain.now sources.now first alternatives.now) }
{
    let mut all = empty(alloc);
    let mut user = first;
    for alternative in alternatives {
        push_expanded(alloc, names, sources, user, alternative, &mut all)?;
        let count = action_count(names, extents, alternative)?;
        user = sum(user, count)?;
    }
    Ok(all)
}

/// What `@L`, `@R` and the inline rules, which use inline rules above them, are replaced by.
pub fn make_sources(
    alloc: Global,
    names: &Names<'_>,
    extents: &[Extent],
    frame: Frame,
) -> Result<Sources, AllocError>
    requires counted { extents.now ≡ map extent_of (inline_sides names.now.plain.now) }
    requires framed { frame ≡ frame_of names.now.plain.now }
    ensures { IfOk result (λ s. s ≡ all_sources names.now.plain.now) }
{
    let lookahead = lookaround(alloc, frame.lookahead)?;
    let lookbehind = lookaround(alloc, frame.lookbehind)?;
    let inlines = empty(alloc);
    let mut sources = Sources {
        lookahead,
        lookbehind,
        inlines,
    };
    let mut first = frame.first;
    for rule in names.plain.rules.as_slice() {
        let expanded = inline_expanded(alloc, names, extents, &sources, first, rule)?;
        push(&mut sources.inlines, expanded)?;
        let count = actions_in(names, extents, rule.alternatives.as_slice())?;
        first = sum(first, count)?;
    }
    Ok(sources)
}

/// A lookaround of this action.
fn lookaround(alloc: Global, action: usize) -> Result<Items<Expanded>, AllocError>
    ensures { IfOk result (λ e. e ≡ lookaround action ∷ []) }
{
    let mut one = empty(alloc);
    let symbols = empty(alloc);
    let expanded = Expanded {
        action,
        fallible: false,
        symbols,
    };
    push(&mut one, expanded)?;
    Ok(one)
}

/// Those of an inline rule, whose actions begin with this number; none of another rule.
fn inline_expanded(
    alloc: Global,
    names: &Names<'_>,
    extents: &[Extent],
    sources: &Sources,
    first: usize,
    rule: &PlainRule,
) -> Result<Items<Expanded>, AllocError>
    requires { extents.now ≡ map extent_of (inline_sides names.now.plain.now) }
    ensures { IfOk result (λ e. e ≡ (if rule.now.inline then expanded_all names.now.plain.now sources.now first rule.now.alternatives else [])) }
{
    if rule.inline {
        let alternatives = rule.alternatives.as_slice();
        Ok(expanded_all(alloc, names, extents, sources, first, alternatives)?)
    } else {
        Ok(empty(alloc))
    }
}
