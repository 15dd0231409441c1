//! The items after a path, as canonical states have them.

use lp_repr::Token;
use lp_repr::numbering::{Numbers, Rule, SymbolNumber, first_productions, rules};
use lp_repr::repr::{Grammar, NonterminalString, Symbol};
use lp_sets::bits::Bits;
use lp_sets::first::Firsts;
use std::alloc::{AllocError, Global};
use std::collections::BTreeSet;

/// A production with a dot, and a token that may follow it.
pub type Item = ((usize, usize), Token);

/// Productions by number, the first one of each nonterminal, and what their words begin with.
#[derive(Drop)]
struct Rules {
    all: Vec<Rule>,
    starts: Vec<usize>,
    firsts: Firsts,
}

/// The items after a path from a start nonterminal.
pub fn items_after(
    alloc: Global,
    grammar: &Grammar,
    start: &NonterminalString,
    path: &[Symbol],
) -> Result<Vec<Item>, AllocError> {
    let all = rules(alloc, grammar)?;
    let firsts = Firsts::new(alloc, all.as_slice())?;
    let starts = first_productions(alloc, grammar)?;
    let rules = Rules {
        all,
        starts,
        firsts,
    };
    let numbers = Numbers::new(alloc, grammar)?;
    let mut kernel = Vec::new(alloc);
    if let Some(number) = numbers.nonterminal(start) {
        enter(&rules, number, Token::Eof, &mut kernel)?;
    }
    let mut items = closed(alloc, &rules, kernel)?;
    let path = numbers.symbols(alloc, path)?;
    for symbol in path.as_slice() {
        let kernel = moved(alloc, &rules, items.as_slice(), *symbol)?;
        items = closed(alloc, &rules, kernel)?;
    }
    Ok(items)
}

/// The symbol behind the dot of an item.
fn next_symbol(rules: &Rules, item: (usize, usize)) -> Option<SymbolNumber> {
    let rule = rules.all.as_slice().get(item.0)?;
    rule.right.as_slice().get(item.1).copied()
}

/// Adds the productions of a nonterminal with the dot first, before this token.
fn enter(
    rules: &Rules,
    nonterminal: usize,
    token: Token,
    items: &mut Vec<Item>,
) -> Result<(), AllocError> {
    let starts = rules.starts.as_slice();
    let from = starts.get(nonterminal).copied().unwrap_or(0);
    let end = starts.get(nonterminal.saturating_add(1)).copied();
    for production in from..end.unwrap_or(0) {
        items.push(((production, 0), token))?;
    }
    Ok(())
}

/// Those of the items that go on with a symbol, with the dot behind it.
fn moved(
    alloc: Global,
    rules: &Rules,
    items: &[Item],
    symbol: SymbolNumber,
) -> Result<Vec<Item>, AllocError> {
    let mut moved = Vec::new(alloc);
    for (item, token) in items {
        if next_symbol(rules, *item) == Some(symbol) {
            moved.push(((item.0, item.1.saturating_add(1)), *token))?;
        }
    }
    Ok(moved)
}

/// The items, and all that they ask for.
fn closed(alloc: Global, rules: &Rules, kernel: Vec<Item>) -> Result<Vec<Item>, AllocError> {
    let mut items = kernel;
    let mut asked = BTreeSet::new(alloc);
    for place in 0..usize::MAX {
        let Some((item, token)) = items.as_slice().get(place).copied() else {
            break;
        };
        if let Some(SymbolNumber::Nonterminal(number)) = next_symbol(rules, item) {
            let tokens = follow(alloc, rules, item, token)?;
            for token in tokens.as_slice() {
                if asked.insert((number, *token))? {
                    enter(rules, number, *token, &mut items)?;
                }
            }
        }
    }
    Ok(items)
}

/// The tokens that may follow the symbol behind the dot of an item.
fn follow(
    alloc: Global,
    rules: &Rules,
    item: (usize, usize),
    token: Token,
) -> Result<Vec<Token>, AllocError> {
    let mut tokens = Vec::new(alloc);
    let Some(rule) = rules.all.as_slice().get(item.0) else {
        return Ok(tokens);
    };
    let behind = rule.right.as_slice().get(item.1.saturating_add(1)..);
    let mut set = Bits::new(alloc);
    let is_empty = rules.firsts.add_first(behind.unwrap_or(&[]), &mut set)?;
    let numbers = set.numbers(alloc)?;
    for number in numbers.as_slice() {
        tokens.push(Token::Terminal(*number))?;
    }
    if is_empty {
        tokens.push(token)?;
    }
    Ok(tokens)
}
