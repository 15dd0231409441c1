//! The parts of a state: what stands before and after its dots, and where its edges lead.

ghost use Rattle.std.specs.Prelude.{◌≡◌, IfOk, option_copied};
ghost use Rattle.lp_repr.specs.ItemChoice.{longest_item, longer_item, popped_item, shorter_item};
ghost use Rattle.lp_repr.specs.StateParts.{before_dot, after_dot, nonterminal_of, AreInRange, max_prefix_of, will_pop_of, IsPushed, IsProduced, successors_of};

use lp_repr::numbering::production_at;
use lp_repr::repr::{Grammar, NonterminalString, Symbol};
use lp_repr::{Item, Lr1State};
use std::alloc::{AllocError, Global};

/// The longest part before a dot among the state's items, the first of those.
pub fn max_prefix<'g>(grammar: &'g Grammar, state: &Lr1State) -> &'g [Symbol]
    requires { AreInRange grammar.now state.now.items }
    ensures { result.now ≡ max_prefix_of grammar.now state.now.items }
{
    match longest(state.items.as_slice()) {
        None => &[],
        Some(item) => before_dot(grammar, item),
    }
}

/// The shortest part before a dot that isn't empty, the first of those, else the empty one.
pub fn will_pop<'g>(grammar: &'g Grammar, state: &Lr1State) -> &'g [Symbol]
    requires { AreInRange grammar.now state.now.items }
    ensures { result.now ≡ will_pop_of grammar.now state.now.items }
{
    match popped(state.items.as_slice()) {
        None => &[],
        Some(item) => before_dot(grammar, item),
    }
}

/// The rest after the dot of the first item that has the part of `will_pop`; empty where the state
/// has no item.
pub fn will_push<'g>(grammar: &'g Grammar, state: &Lr1State) -> &'g [Symbol]
    requires { AreInRange grammar.now state.now.items }
    ensures { IsPushed grammar.now state.now.items result.now }
{
    match popped(state.items.as_slice()) {
        None => &[],
        Some(item) => after_dot(grammar, item),
    }
}

/// The nonterminal of the first item that has the part of `will_pop`; None exactly where the state
/// has no item.
pub fn will_produce<'g>(grammar: &'g Grammar, state: &Lr1State) -> Option<&'g NonterminalString>
    requires { AreInRange grammar.now state.now.items }
    ensures { IsProduced grammar.now state.now.items (option_copied result) }
{
    match popped(state.items.as_slice()) {
        None => None,
        Some(item) => nonterminal_of(grammar, item),
    }
}

/// The targets of the state's shifts, by terminal, and then of its gotos.
pub fn successors(alloc: Global, state: &Lr1State) -> Result<Vec<usize>, AllocError>
    ensures { IfOk result (λ v. v.items ≡ successors_of state.now) }
{
    let shifts = state.shifts.values();
    shifts.chain(state.gotos.values()).copied().collect(alloc)
}

/// The nonterminal of the item's production.
fn nonterminal_of<'g>(grammar: &'g Grammar, item: &Item) -> Option<&'g NonterminalString>
    ensures { option_copied result ≡ nonterminal_of grammar.now item.now }
{
    match production_at(grammar, item.production) {
        None => None,
        Some(production) => Some(&production.nonterminal),
    }
}

/// The symbols before the item's dot.
fn before_dot<'g>(grammar: &'g Grammar, item: &Item) -> &'g [Symbol]
    ensures { result.now ≡ before_dot grammar.now item.now }
{
    match production_at(grammar, item.production) {
        None => &[],
        Some(production) => {
            let symbols = production.symbols.as_slice();
            &symbols[..item.index.min(symbols.len())]
        }
    }
}

/// The symbols after the item's dot.
fn after_dot<'g>(grammar: &'g Grammar, item: &Item) -> &'g [Symbol]
    ensures { result.now ≡ after_dot grammar.now item.now }
{
    match production_at(grammar, item.production) {
        None => &[],
        Some(production) => {
            let symbols = production.symbols.as_slice();
            &symbols[item.index.min(symbols.len())..]
        }
    }
}

/// The first item with the greatest dot.
fn longest(items: &[Item]) -> Option<&Item>
    ensures { option_copied result ≡ longest_item items.now }
{
    let mut best = None;
    let mut i = items.len();
    while i > 0 {
        i -= 1;
        best = Some(longer(&items[i], best));
    }
    best
}

/// The item, or another with a greater dot.
fn longer<'s>(item: &'s Item, other: Option<&'s Item>) -> &'s Item
    ensures { result.now ≡ longer_item item.entry.now (option_copied other.entry) }
{
    match other {
        Some(other) if item.index < other.index => other,
        _ => item,
    }
}

/// The first item with the least dot above 0, else the first item.
fn popped(items: &[Item]) -> Option<&Item>
    ensures { option_copied result ≡ popped_item items.now }
{
    let mut best = None;
    let mut i = items.len();
    while i > 0 {
        i -= 1;
        best = Some(shorter(&items[i], best));
    }
    best
}

/// The item, or another with a lesser dot, where a dot at 0 counts for nothing.
fn shorter<'s>(item: &'s Item, other: Option<&'s Item>) -> &'s Item
    ensures { result.now ≡ shorter_item item.entry.now (option_copied other.entry) }
{
    match other {
        Some(other) if other.index > 0 && (item.index == 0 || other.index < item.index) => other,
        _ => item,
    }
}
