//! The productions of a grammar by number, and the symbols after their dots.

ghost use Rattle.std.specs.Prelude.{◌≡◌, ◌+◌, ◌↔◌, ℕ, ◌<◌, ◌≤◌, IfOk, IsTrue, option_and_then, slice_get, slice_index_or, false};
ghost use Rattle.std.specs.Option.{option_map};
ghost use Rattle.lp_repr.specs.Closure.{next_symbol, HasLeft};
ghost use Rattle.lp_tables.specs.Numbers.{IsIndex, AreRulesOf, number_of, number_after};
ghost use Rattle.lp_tables.specs.Opening.{IsOpenedAt};

use lp_repr::numbering::{Rule, SymbolNumber, first_productions, rules};
use lp_repr::repr::Grammar;
use std::alloc::{AllocError, Global};

/// Those of nonterminal n have the numbers from `firsts[n]` up to `firsts[n + 1]`.
#[derive(Drop)]
pub(crate) struct Rules {
    pub(crate) all: Vec<Rule>,
    pub(crate) firsts: Vec<usize>,
}

impl Rules {
    pub(crate) fn new(alloc: Global, grammar: &Grammar) -> Result<Rules, AllocError>
        ensures { IfOk result (AreRulesOf grammar.now) }
    {
        Ok(Rules {
            all: rules(alloc, grammar)?,
            firsts: first_productions(alloc, grammar)?,
        })
    }

    /// The symbol after the dot; None for a complete item, and where no production has the number.
    pub(crate) fn next(&self, production: usize, dot: usize) -> Option<SymbolNumber>
        ensures { result ≡ next_symbol self.now.all.items production dot }
    {
        match self.all.get(production) {
            None => None,
            Some(rule) => rule.right.as_slice().get(dot).copied(),
        }
    }

    /// The numbers of a nonterminal's productions: the first, and one past the last.
    pub(crate) fn productions_of(&self, nonterminal: usize) -> (usize, usize)
        requires { IsIndex self.now.all.items self.now.firsts.items }
        ensures { (q : ℕ) → HasLeft self.now.all.items q nonterminal ↔ ((result.0 ≤ q) × (q < result.1)) }
    {
        if nonterminal >= self.firsts.len() {
            return (0, 0);
        }
        match self.firsts.get(nonterminal + 1) {
            None => (0, 0),
            Some(end) => (self.firsts[nonterminal], *end),
        }
    }

    /// The number of the symbol after the dot, if it is of this kind, and the dot after that symbol.
    pub(crate) fn step(&self, kind: Kind, production: usize, dot: usize) -> Option<(usize, usize)>
        ensures { result ≡ option_map (λ n. (n, dot + 1)) (number_after self.now.all.items kind production dot) }
    {
        match self.all.get(production) {
            None => None,
            Some(rule) => step_in(kind, rule.right.as_slice(), dot),
        }
    }

    /// Whether the production stands under one of the marked nonterminals.
    pub(crate) fn is_opened(&self, production: usize, marks: &[bool]) -> bool
        ensures { IsTrue result ↔ IsOpenedAt self.now.all.items marks.now production }
    {
        match self.all.get(production) {
            None => false,
            Some(rule) => is_marked(marks, rule.left),
        }
    }
}

fn step_in(kind: Kind, right: &[SymbolNumber], dot: usize) -> Option<(usize, usize)>
    ensures { result ≡ option_map (λ n. (n, dot + 1)) (option_and_then (number_of kind) (slice_get right.now dot)) }
{
    if dot >= right.len() {
        return None;
    }
    match kind.number(right[dot]) {
        None => None,
        Some(number) => Some((number, dot + 1)),
    }
}

pub(crate) fn is_marked(marks: &[bool], number: usize) -> bool
    ensures { result ≡ slice_index_or marks.now number false }
{
    marks.get(number).copied().unwrap_or(false)
}

/// The kinds of symbols.
#[derive(Clone, Copy)]
pub(crate) enum Kind {
    Terminals,
    Nonterminals,
}

impl Kind {
    /// The number of a symbol of this kind.
    pub(crate) fn number(self, symbol: SymbolNumber) -> Option<usize>
        ensures { result ≡ number_of self symbol }
    {
        match (self, symbol) {
            (Kind::Terminals, SymbolNumber::Terminal(number)) => Some(number),
            (Kind::Nonterminals, SymbolNumber::Nonterminal(number)) => Some(number),
            _ => None,
        }
    }
}
