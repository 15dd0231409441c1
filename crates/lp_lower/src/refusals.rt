//! The refusals that need no more than what the names stand for.

ghost use Rattle.std.specs.Prelude.{◌≡◌, IfOk, map};
ghost use Rattle.std.specs.Map.Iter.{deref};
ghost use Rattle.std.specs.Ordering.{is_eq};
ghost use Rattle.lp_repr.specs.Shown.{pattern_text};
ghost use Rattle.lp_lower.specs.Naming.{target};
ghost use Rattle.lp_lower.specs.Places.{least, least_of};
ghost use Rattle.lp_lower.specs.Repeats.{repeats};
ghost use Rattle.lp_lower.specs.Refusals.{unknown_among, is_inline, is_inline_from, below_among, inline_order, same_rule, same_name, same_pattern, duplicate};

use crate::names::{Names, Target};
use crate::symbols::rule_symbols;
use lp_repr::repr::TerminalString;
use lp_repr::text::Text;
use lp_syntax::{PlainGrammar, PlainKind, PlainRule, PlainSymbol, PlainTerminal};
use std::alloc::{AllocError, Global};
use std::collections::BTreeSet;

/// The lesser of two places, of those that there are.
fn least(first: Option<usize>, second: Option<usize>) -> Option<usize>
    ensures { result ≡ least first second }
{
    match first {
        None => second,
        Some(place) => match second {
            None => Some(place),
            Some(other) => Some(place.min(other)),
        },
    }
}

/// The least place of these symbols whose name nothing has.
pub fn unknown_name(names: &Names<'_>, symbols: &[&PlainSymbol]) -> Option<usize>
    ensures { result ≡ least_of (unknown_among names.now.plain.now (map deref symbols.now)) }
{
    let mut found = None;
    for symbol in symbols {
        if names.target(&symbol.kind).is_none() {
            found = least(found, Some(symbol.place));
        }
    }
    found
}

/// The least place of a symbol of an inline rule that is an inline rule not above it.
pub fn inline_order(alloc: Global, names: &Names<'_>) -> Result<Option<usize>, AllocError>
    ensures { IfOk result (λ p. p ≡ inline_order names.now.plain.now) }
{
    let rules = names.plain.rules.as_slice();
    let mut found = None;
    for (number, rule) in rules.iter().enumerate() {
        if rule.inline {
            let symbols = rule_symbols(alloc, rule)?;
            found = least(found, below(names, number, symbols.as_slice()));
        }
    }
    Ok(found)
}

/// The least place of these symbols that is an inline rule from this number on.
fn below(names: &Names<'_>, number: usize, symbols: &[&PlainSymbol]) -> Option<usize>
    ensures { result ≡ least_of (below_among names.now.plain.now number (map deref symbols.now)) }
{
    let mut found = None;
    for symbol in symbols {
        if is_below(names, number, &symbol.kind) {
            found = least(found, Some(symbol.place));
        }
    }
    found
}

/// Whether a symbol is an inline rule from this number on.
fn is_below(names: &Names<'_>, number: usize, kind: &PlainKind) -> bool
    ensures { result ≡ is_inline_from names.now.plain.now.rules number (target names.now.plain.now kind.now) }
{
    match names.target(kind) {
        Some(Target::Rule(used)) => number <= used && is_inline(names.plain.rules.as_slice(), used),
        _ => false,
    }
}

/// Whether the rule of this number is inline.
pub fn is_inline(rules: &[PlainRule], number: usize) -> bool
    ensures { result ≡ is_inline rules.now number }
{
    match rules.get(number) {
        None => false,
        Some(rule) => rule.inline,
    }
}

/// The least place of a rule or terminal that stands a second time, by its name or by the text of
/// its pattern.
pub fn duplicate(alloc: Global, plain: &PlainGrammar) -> Result<Option<usize>, AllocError>
    ensures { IfOk result (λ p. p ≡ duplicate plain.now) }
{
    let rule = repeated_rule(alloc, plain.rules.as_slice())?;
    let name = repeated_name(alloc, plain.conversions.as_slice())?;
    let pattern = repeated_pattern(alloc, plain.conversions.as_slice())?;
    Ok(least(rule, least(name, pattern)))
}

fn repeated_rule(alloc: Global, rules: &[PlainRule]) -> Result<Option<usize>, AllocError>
    ensures { IfOk result (λ p. p ≡ least_of (map (λ r. r.place) (repeats same_rule rules.now))) }
{
    least_repeat(alloc, rule_keys(alloc, rules)?.as_slice())
}

fn repeated_name(alloc: Global, terminals: &[PlainTerminal]) -> Result<Option<usize>, AllocError>
    ensures { IfOk result (λ p. p ≡ least_of (map (λ t. t.place) (repeats same_name terminals.now))) }
{
    least_repeat(alloc, name_keys(alloc, terminals)?.as_slice())
}

fn repeated_pattern(alloc: Global, terminals: &[PlainTerminal]) -> Result<Option<usize>, AllocError>
    ensures { IfOk result (λ p. p ≡ least_of (map (λ t. t.place) (repeats same_pattern terminals.now))) }
{
    least_repeat(alloc, pattern_keys(alloc, terminals)?.as_slice())
}

/// The names of rules, with their places.
fn rule_keys(alloc: Global, rules: &[PlainRule]) -> Result<Vec<(Text, usize)>, AllocError>
    ensures { IfOk result (λ v. v.items ≡ map (λ r. (r.name.0, r.place)) rules.now) }
{
    let mut keys = Vec::new(alloc);
    for rule in rules {
        keys.push((rule.name.0.clone()?, rule.place))?;
    }
    Ok(keys)
}

/// The names of terminals, with their places.
fn name_keys(
    alloc: Global,
    terminals: &[PlainTerminal],
) -> Result<Vec<(TerminalString, usize)>, AllocError>
    ensures { IfOk result (λ v. v.items ≡ map (λ t. (t.name, t.place)) terminals.now) }
{
    let mut keys = Vec::new(alloc);
    for terminal in terminals {
        keys.push((terminal.name.clone()?, terminal.place))?;
    }
    Ok(keys)
}

/// The texts of terminals' patterns with `_` in the holes, with their places.
fn pattern_keys(
    alloc: Global,
    terminals: &[PlainTerminal],
) -> Result<Vec<(Text, usize)>, AllocError>
    ensures { IfOk result (λ v. v.items ≡ map (λ t. (pattern_text t.pattern, t.place)) terminals.now) }
{
    let mut keys = Vec::new(alloc);
    for terminal in terminals {
        let text = Text(terminal.pattern.to_string(alloc)?);
        keys.push((text, terminal.place))?;
    }
    Ok(keys)
}

/// The least place of a key that is equal to one before it.
fn least_repeat<T: Ord>(alloc: Global, keys: &[(T, usize)]) -> Result<Option<usize>, AllocError>
    ensures { IfOk result (λ p. p ≡ least_of (map (λ k. k.1) (repeats (λ a b. is_eq (T.cmp a.0 b.0)) keys.now))) }
{
    let mut seen = BTreeSet::new(alloc);
    let mut found = None;
    for (key, place) in keys {
        if !seen.insert(key)? {
            found = least(found, Some(*place));
        }
    }
    Ok(found)
}
