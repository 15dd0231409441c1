//! Whether all numbers of a state are in range.

ghost use Rattle.std.specs.Prelude.{◌≡◌, ◌↔◌, ℕ, ◌<◌, length, Some, IsTrue};
ghost use Rattle.std.specs.BTreeMap.{get};
ghost use Rattle.std.specs.List.{list_all};
ghost use Rattle.std.specs.Ordering.{nat_cmp};
ghost use Rattle.lp_tables.specs.Ranges.{is_dot, is_token, is_reduction};

use crate::rules::Rules;
use lp_repr::{Item, Items, Token};
use std::collections::BTreeMap;

/// Productions and dots are in range.
pub(crate) fn items_in_range(rules: &Rules, items: &[Item]) -> bool
    ensures { result ≡ list_all (λ item. is_dot rules.now.all.items item.production item.index) items.now }
{
    items
        .iter()
        .all(|item| item_in_range(rules, item.production, item.index))
}

fn item_in_range(rules: &Rules, production: usize, dot: usize) -> bool
    ensures { result ≡ is_dot rules.now.all.items production dot }
{
    match rules.all.get(production) {
        None => false,
        Some(rule) => dot <= rule.right.as_slice().len(),
    }
}

/// The edges stand on so many symbols, and lead to so many states.
pub(crate) fn edges_in_range(edges: &BTreeMap<usize, usize>, symbols: usize, states: usize) -> bool
    ensures { IsTrue result ↔ ((n target : ℕ) → get nat_cmp edges.now n ≡ Some target → (n < symbols) × (target < states)) }
{
    for (number, target) in edges {
        if !is_edge(*number, *target, symbols, states) {
            return false;
        }
    }
    true
}

fn is_edge(number: usize, target: usize, symbols: usize, states: usize) -> bool
    ensures { IsTrue result ↔ ((number < symbols) × (target < states)) }
{
    number < symbols && target < states
}

/// Reductions name so many productions, and tokens of so many terminals.
pub(crate) fn reductions_in_range(
    reductions: &[(Items<Token>, usize)],
    productions: usize,
    terminals: usize,
) -> bool
    ensures { result ≡ list_all (is_reduction productions terminals) reductions.now }
{
    reductions.iter().all(|(tokens, production)| {
        *production < productions && tokens_in_range(tokens.as_slice(), terminals)
    })
}

fn tokens_in_range(tokens: &[Token], terminals: usize) -> bool
    ensures { result ≡ list_all (is_token terminals) tokens.now }
{
    tokens.iter().all(|token| token_in_range(*token, terminals))
}

fn token_in_range(token: Token, terminals: usize) -> bool
    ensures { result ≡ is_token terminals token }
{
    match token {
        Token::Terminal(number) => number < terminals,
        Token::Eof => true,
    }
}
