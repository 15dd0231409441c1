//! How much an expansion gives, counted before anything is expanded.

ghost use Rattle.std.specs.Prelude.{◌≡◌, [], ◌∷◌, ◌++◌, if◌then◌else◌, List, IfOk, Some, map, slice_index_or};
ghost use Rattle.lp_repr.specs.declared.repr.Symbol.TheVariants.{Nonterminal};
ghost use Rattle.lp_lower.specs.declared.names.Target.TheVariants.{Rule};
ghost use Rattle.lp_repr.specs.declared.repr.Symbol.{Symbol};
ghost use Rattle.lp_lower.specs.Extents.{extent_of, joined};
ghost use Rattle.lp_lower.specs.RightSides.{rule_options, terminal_options, side_options, right_sides, rule_sides, inline_sides, sides_with_start, are_too_many, too_many};

use crate::names::{Names, Target};
use lp_syntax::{PlainAlternative, PlainRule};
use std::alloc::{AllocError, Global};

/// The most alternatives of all expanded rules together.
const MOST_ALTERNATIVES: usize = 65_536;

/// The most symbols of all expanded rules together.
const MOST_SYMBOLS: usize = 1_048_576;

/// How many expanded alternatives there are, and how many symbols they have together. A number
/// that would pass the greatest one stays there.
#[derive(Clone, Copy)]
pub struct Extent {
    pub alternatives: usize,
    pub symbols: usize,
}

impl Extent {
    pub const NONE: Extent = Extent {
        alternatives: 0,
        symbols: 0,
    };

    /// One alternative of no symbols.
    pub const EMPTY: Extent = Extent {
        alternatives: 1,
        symbols: 0,
    };

    /// One alternative of one symbol.
    pub const ONE: Extent = Extent {
        alternatives: 1,
        symbols: 1,
    };

    /// Of these alternatives and those.
    pub fn plus(self, other: Extent) -> Extent
        ensures { (a : List (List Symbol)) → (b : List (List Symbol)) → self ≡ extent_of a → other ≡ extent_of b → result ≡ extent_of (a ++ b) }
    {
        Extent {
            alternatives: self.alternatives.saturating_add(other.alternatives),
            symbols: self.symbols.saturating_add(other.symbols),
        }
    }

    /// Of each of these alternatives followed by each of those.
    pub fn times(self, other: Extent) -> Extent
        ensures { (a : List (List Symbol)) → (b : List (List Symbol)) → self ≡ extent_of a → other ≡ extent_of b → result ≡ extent_of (joined a b) }
    {
        let left = self.symbols.saturating_mul(other.alternatives);
        let right = other.symbols.saturating_mul(self.alternatives);
        Extent {
            alternatives: self.alternatives.saturating_mul(other.alternatives),
            symbols: left.saturating_add(right),
        }
    }

    /// More than all rules may have together.
    pub fn is_too_large(self) -> bool
        ensures { (sides : List (List Symbol)) → self ≡ extent_of sides → result ≡ are_too_many sides }
    {
        self.alternatives > MOST_ALTERNATIVES || self.symbols > MOST_SYMBOLS
    }
}

/// The extents of the inline rules, none for other rules. Each inline rule uses only inline rules
/// above it.
pub fn inline_extents(alloc: Global, names: &Names<'_>) -> Result<Vec<Extent>, AllocError>
    ensures { IfOk result (λ v. v.items ≡ map extent_of (inline_sides names.now.plain.now)) }
{
    let mut extents = Vec::new(alloc);
    for rule in names.plain.rules.as_slice() {
        let extent = inline_extent(names, extents.as_slice(), rule);
        extents.push(extent)?;
    }
    Ok(extents)
}

/// The extent of an inline rule, none of another rule.
#[tactic(auto, unfolding(crate::specs::Extents::extent_of))]
fn inline_extent(names: &Names<'_>, inlines: &[Extent], rule: &PlainRule) -> Extent
    ensures { (sides : List (List (List Symbol))) → inlines.now ≡ map extent_of sides → result ≡ extent_of (if rule.now.inline then rule_sides names.now.plain.now sides rule.now else []) }
{
    if rule.inline {
        rule_extent(names, inlines, rule)
    } else {
        Extent::NONE
    }
}

/// The extent of a rule, by those of the inline rules that it uses.
#[tactic(auto, unfolding(crate::specs::Extents::extent_of))]
fn rule_extent(names: &Names<'_>, inlines: &[Extent], rule: &PlainRule) -> Extent
    ensures { (sides : List (List (List Symbol))) → inlines.now ≡ map extent_of sides → result ≡ extent_of (rule_sides names.now.plain.now sides rule.now) }
{
    let mut extent = Extent::NONE;
    for alternative in rule.alternatives.as_slice() {
        extent = extent.plus(alternative_extent(names, inlines, alternative));
    }
    extent
}

/// The extent of an alternative.
pub fn alternative_extent(
    names: &Names<'_>,
    inlines: &[Extent],
    alternative: &PlainAlternative,
) -> Extent
    ensures { (sides : List (List (List Symbol))) → inlines.now ≡ map extent_of sides → result ≡ extent_of (right_sides names.now.plain.now sides alternative.now) }
{
    let symbols = alternative.symbols.as_slice();
    let mut extent = Extent::EMPTY;
    let mut place = symbols.len();
    while place > 0 {
        place -= 1;
        let target = names.target(&symbols[place].kind);
        extent = target_extent(names, inlines, target).times(extent);
    }
    extent
}

/// The extent of what may stand in the place of a symbol.
#[tactic(auto, unfolding(crate::specs::Extents::extent_of))]
fn target_extent(names: &Names<'_>, inlines: &[Extent], target: Option<Target>) -> Extent
    ensures { (sides : List (List (List Symbol))) → inlines.now ≡ map extent_of sides → result ≡ extent_of (side_options names.now.plain.now sides target) }
{
    match target {
        None => Extent::NONE,
        Some(Target::Rule(number)) => rule_option_extent(names, inlines, number),
        Some(Target::Terminal(number)) => terminal_extent(names, number),
        Some(Target::Lookahead) => Extent::EMPTY,
        Some(Target::Lookbehind) => Extent::EMPTY,
        Some(Target::Error) => Extent::ONE,
    }
}

/// Of the rule of this number, which stands for itself where it isn't inline.
#[tactic(auto, unfolding(crate::specs::Extents::extent_of))]
fn rule_option_extent(names: &Names<'_>, inlines: &[Extent], number: usize) -> Extent
    ensures { (sides : List (List (List Symbol))) → inlines.now ≡ map extent_of sides → result ≡ extent_of (side_options names.now.plain.now sides (Some (Rule number))) }
{
    match names.rule(number) {
        None => Extent::NONE,
        Some(rule) => option_extent(rule, extent_at(inlines, number)),
    }
}

/// Of a rule, by the extent of its right sides.
#[tactic(auto, unfolding(crate::specs::Extents::extent_of))]
fn option_extent(rule: &PlainRule, extent: Extent) -> Extent
    ensures { (sides : List (List Symbol)) → extent ≡ extent_of sides → result ≡ extent_of (rule_options rule.now sides) }
{
    if rule.inline { extent } else { Extent::ONE }
}

/// The extent of this number.
#[tactic(auto, unfolding(crate::specs::Extents::extent_of))]
fn extent_at(extents: &[Extent], number: usize) -> Extent
    ensures { result ≡ slice_index_or extents.now number (extent_of []) }
{
    match extents.get(number) {
        None => Extent::NONE,
        Some(extent) => *extent,
    }
}

/// Of the terminal of this number.
#[tactic(auto, unfolding(crate::specs::Extents::extent_of))]
fn terminal_extent(names: &Names<'_>, number: usize) -> Extent
    ensures { result ≡ extent_of (terminal_options names.now.plain.now number) }
{
    match names.terminal(number) {
        None => Extent::NONE,
        Some(_) => Extent::ONE,
    }
}

/// The place of the first rule with which the expanded rules are too many.
#[tactic(auto, unfolding(crate::specs::Extents::extent_of))]
pub fn too_many(names: &Names<'_>, inlines: &[Extent]) -> Option<usize>
    requires { inlines.now ≡ map extent_of (inline_sides names.now.plain.now) }
    ensures { result ≡ too_many names.now.plain.now }
{
    let mut extent = Extent::NONE;
    for rule in names.plain.rules.as_slice() {
        extent = extent.plus(extent_with_start(names, inlines, rule));
        if extent.is_too_large() {
            return Some(rule.place);
        }
    }
    None
}

/// The extent of a rule, and of its start where it is public.
#[tactic(auto, unfolding(crate::specs::Extents::extent_of))]
fn extent_with_start(names: &Names<'_>, inlines: &[Extent], rule: &PlainRule) -> Extent
    requires { inlines.now ≡ map extent_of (inline_sides names.now.plain.now) }
    ensures { result ≡ extent_of (sides_with_start names.now.plain.now rule.now) }
{
    rule_extent(names, inlines, rule).plus(start_extent(rule))
}

/// The extent of the start of a public rule, none of another rule.
#[tactic(auto, unfolding(crate::specs::Extents::extent_of))]
fn start_extent(rule: &PlainRule) -> Extent
    ensures { result ≡ extent_of (if rule.now.public then (Nonterminal rule.now.name ∷ []) ∷ [] else []) }
{
    if rule.public {
        Extent::ONE
    } else {
        Extent::NONE
    }
}
