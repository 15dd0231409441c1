//! The productions by number, as building states needs them.

ghost use Rattle.std.specs.Prelude.{◌≡◌, ◌↔◌, ℕ, ◌+◌, ◌<◌, ◌≤◌, IfOk, slice_index, drop};
ghost use Rattle.lp_repr.specs.Numbering.{rules_of};
ghost use Rattle.lp_repr.specs.Closure.{next_symbol, HasLeft};
ghost use Rattle.lp_states.specs.Ranges.{AreRanges};
ghost use Rattle.lp_states.specs.ItemSets.{word_after};

use lp_repr::numbering::{Rule, SymbolNumber, first_productions, rules};
use lp_repr::repr::Grammar;
use std::alloc::{AllocError, Global};

/// Productions from one number up to another.
#[derive(Clone, Copy)]
pub struct Range {
    pub from: usize,
    /// The number after the last one.
    pub to: usize,
}

/// The productions in the order of their nonterminals' keys.
#[derive(Drop)]
pub struct Rules {
    /// By number, counted from 0.
    pub all: Vec<Rule>,
    /// The first production of each nonterminal, and at last the count of productions.
    firsts: Vec<usize>,
    ghost ranges: { AreRanges all.items firsts.items },
}

impl Rules {
    /// The productions of a grammar. Fails where memory runs out.
    pub fn new(alloc: Global, grammar: &Grammar) -> Result<Rules, AllocError>
        ensures { IfOk result (λ r. r.all.items ≡ rules_of grammar.now) }
    {
        let all = rules(alloc, grammar)?;
        let firsts = first_productions(alloc, grammar)?;
        Ok(Rules { all, firsts })
    }

    /// The productions of a nonterminal.
    pub fn productions_of(&self, nonterminal: usize) -> Range
        ensures { (p : ℕ) → ((result.from ≤ p) × (p < result.to)) ↔ HasLeft self.now.all.items p nonterminal }
    {
        let firsts = self.firsts.as_slice();
        match nonterminal.checked_add(1) {
            None => Range { from: 0, to: 0 },
            Some(next) => Range {
                from: first_at(firsts, nonterminal),
                to: first_at(firsts, next),
            },
        }
    }

    /// The symbol after the dot.
    pub fn next(&self, production: usize, dot: usize) -> Option<SymbolNumber>
        ensures { result ≡ next_symbol self.now.all.items production dot }
    {
        match self.all.get(production) {
            None => None,
            Some(rule) => rule.right.as_slice().get(dot).copied(),
        }
    }

    /// What follows the symbol after the dot.
    pub fn after(&self, production: usize, dot: usize) -> &[SymbolNumber]
        ensures { result.now ≡ word_after self.entry.now.all.items production dot }
    {
        match self.all.get(production) {
            None => &[],
            Some(rule) => behind(rule.right.as_slice(), dot),
        }
    }
}

/// The number at a place, nought past the last.
fn first_at(firsts: &[usize], place: usize) -> usize
    ensures { result ≡ slice_index firsts.now place }
{
    match firsts.get(place) {
        None => 0,
        Some(first) => *first,
    }
}

/// The symbols behind a place.
fn behind(symbols: &[SymbolNumber], place: usize) -> &[SymbolNumber]
    ensures { result.now ≡ drop (place + 1) symbols.entry.now }
{
    if place < symbols.len() {
        &symbols[place + 1..]
    } else {
        &[]
    }
}
