//! The nonterminals of the lowered grammar, with their productions.

ghost use Rattle.std.specs.Prelude.{◌≡◌, IfOk, OnOk, [], map};
ghost use Rattle.lp_repr.specs.NameOrder.{nonterminal_cmp};
ghost use Rattle.lp_lower.specs.Expansion.{all_sources};
ghost use Rattle.lp_lower.specs.Extents.{extent_of};
ghost use Rattle.lp_lower.specs.Framing.{frame_of};
ghost use Rattle.lp_lower.specs.Productions.{put_all, start_name, visibility_of, start_data, start_entry, start_entries, production_of, rule_data, rule_entry, rule_entries, nonterminal_entries};
ghost use Rattle.lp_lower.specs.RightSides.{inline_sides};

use crate::combine::Expanded;
use crate::copies::copy_nonterminal;
use crate::expand::{Sources, actions_in, expanded_all};
use crate::extents::Extent;
use crate::frame::{Frame, after, sum};
use crate::lists::{empty, push};
use crate::names::Names;
use crate::types::prefixed;
use lp_repr::parse_tree::Visibility;
use lp_repr::repr::{NonterminalData, NonterminalString, Production, Symbol};
use lp_repr::text::Items;
use lp_syntax::{PlainGrammar, PlainRule};
use std::alloc::{AllocError, Global};
use std::collections::BTreeMap;

/// The starts, and the rules that are not inline.
pub fn nonterminals(
    alloc: Global,
    names: &Names<'_>,
    extents: &[Extent],
    sources: &Sources,
    frame: Frame,
) -> Result<BTreeMap<NonterminalString, NonterminalData>, AllocError>
    requires counted { extents.now ≡ map extent_of (inline_sides names.now.plain.now) }
    requires replaced { sources.now ≡ all_sources names.now.plain.now }
    requires framed { frame ≡ frame_of names.now.plain.now }
    ensures { IfOk result (λ m. m.entries ≡ put_all nonterminal_cmp [] (nonterminal_entries names.now.plain.now)) }
{
    let mut all = BTreeMap::new(alloc);
    put_starts(alloc, names.plain, &mut all)?;
    put_rules(alloc, names, extents, sources, frame.first, &mut all)?;
    Ok(all)
}

/// Puts the starts of the public rules.
fn put_starts(
    alloc: Global,
    plain: &PlainGrammar,
    all: &mut BTreeMap<NonterminalString, NonterminalData>,
) -> Result<(), AllocError>
    ensures { OnOk result (all.new.entries ≡ put_all nonterminal_cmp all.old.entries (start_entries plain.now 0 plain.now.rules)) }
{
    let mut action: usize = 0;
    for rule in plain.rules.as_slice() {
        put_start(alloc, plain, action, rule, all)?;
        action = after(action, rule.public)?;
    }
    Ok(())
}

/// Puts the start of a public rule, whose action has this number.
fn put_start(
    alloc: Global,
    plain: &PlainGrammar,
    action: usize,
    rule: &PlainRule,
    all: &mut BTreeMap<NonterminalString, NonterminalData>,
) -> Result<(), AllocError>
    ensures { OnOk result (all.new.entries ≡ put_all nonterminal_cmp all.old.entries (start_entry plain.now action rule.now)) }
{
    if rule.public {
        let name = start_name(alloc, plain, rule)?;
        let data = start_data(alloc, plain, action, rule)?;
        all.insert(name, data)?;
    }
    Ok(())
}

/// The name of a start: the prefix and the rule's name.
pub fn start_name(
    alloc: Global,
    plain: &PlainGrammar,
    rule: &PlainRule,
) -> Result<NonterminalString, AllocError>
    ensures { IfOk result (λ n. n ≡ start_name plain.now rule.now) }
{
    let name = prefixed(alloc, plain, rule.name.0.as_str())?;
    Ok(NonterminalString(name))
}

/// A start, whose action has this number.
fn start_data(
    alloc: Global,
    plain: &PlainGrammar,
    action: usize,
    rule: &PlainRule,
) -> Result<NonterminalData, AllocError>
    ensures { IfOk result (λ d. d ≡ start_data plain.now action rule.now) }
{
    let nonterminal = start_name(alloc, plain, rule)?;
    let name = copy_nonterminal(&rule.name)?;
    let symbols = vec![in alloc; Symbol::Nonterminal(name)]?;
    let production = Production {
        nonterminal,
        symbols: Items(symbols),
        action,
    };
    let productions = vec![in alloc; production]?;
    Ok(NonterminalData {
        visibility: visibility_of(rule),
        productions: Items(productions),
    })
}

fn visibility_of(rule: &PlainRule) -> Visibility
    ensures { result ≡ visibility_of rule.now }
{
    if rule.public {
        Visibility::Pub(None)
    } else {
        Visibility::Priv
    }
}

/// Puts the rules that are not inline. The actions of the first rule begin with this number.
fn put_rules(
    alloc: Global,
    names: &Names<'_>,
    extents: &[Extent],
    sources: &Sources,
    first: usize,
    all: &mut BTreeMap<NonterminalString, NonterminalData>,
) -> Result<(), AllocError>
    requires { extents.now ≡ map extent_of (inline_sides names.now.plain.now) }
    ensures { OnOk result (all.new.entries ≡ put_all nonterminal_cmp all.old.entries (rule_entries names.now.plain.now sources.now first names.now.plain.now.rules)) }
{
    let mut next = first;
    for rule in names.plain.rules.as_slice() {
        put_rule(alloc, names, extents, sources, next, rule, all)?;
        let count = actions_in(names, extents, rule.alternatives.as_slice())?;
        next = sum(next, count)?;
    }
    Ok(())
}

/// Puts a rule that is not inline. Its actions begin with this number.
fn put_rule(
    alloc: Global,
    names: &Names<'_>,
    extents: &[Extent],
    sources: &Sources,
    first: usize,
    rule: &PlainRule,
    all: &mut BTreeMap<NonterminalString, NonterminalData>,
) -> Result<(), AllocError>
    requires { extents.now ≡ map extent_of (inline_sides names.now.plain.now) }
    ensures { OnOk result (all.new.entries ≡ put_all nonterminal_cmp all.old.entries (rule_entry names.now.plain.now sources.now first rule.now)) }
{
    if rule.inline {
        return Ok(());
    }
    let name = copy_nonterminal(&rule.name)?;
    let data = rule_data(alloc, names, extents, sources, first, rule)?;
    all.insert(name, data)?;
    Ok(())
}

/// A rule, whose actions begin with this number.
fn rule_data(
    alloc: Global,
    names: &Names<'_>,
    extents: &[Extent],
    sources: &Sources,
    first: usize,
    rule: &PlainRule,
) -> Result<NonterminalData, AllocError>
    requires { extents.now ≡ map extent_of (inline_sides names.now.plain.now) }
    ensures { IfOk result (λ d. d ≡ rule_data names.now.plain.now sources.now first rule.now) }
{
    let alternatives = rule.alternatives.as_slice();
    let expanded = expanded_all(alloc, names, extents, sources, first, alternatives)?;
    let productions = productions(alloc, &rule.name, expanded)?;
    Ok(NonterminalData {
        visibility: visibility_of(rule),
        productions,
    })
}

/// The productions of expanded alternatives.
fn productions(
    alloc: Global,
    name: &NonterminalString,
    expanded: Items<Expanded>,
) -> Result<Items<Production>, AllocError>
    ensures { IfOk result (λ p. p ≡ map (production_of name.now) expanded) }
{
    let mut productions = empty(alloc);
    for one in expanded.0 {
        let production = production_of(name, one)?;
        push(&mut productions, production)?;
    }
    Ok(productions)
}

fn production_of(name: &NonterminalString, expanded: Expanded) -> Result<Production, AllocError>
    ensures { IfOk result (λ p. p ≡ production_of name.now expanded) }
{
    let Expanded {
        action,
        fallible: _,
        symbols,
    } = expanded;
    let nonterminal = copy_nonterminal(name)?;
    Ok(Production {
        nonterminal,
        symbols,
        action,
    })
}
