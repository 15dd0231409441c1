//! The reductions of a state: that they are of complete items, and that a token has one action.

ghost use Rattle.std.specs.Prelude.{◌≡◌, ◌↔◌, ◌++◌, map, IfOk, IsTrue, OnOk};
ghost use Rattle.std.specs.List.{AllByRecursion, flat_map};
ghost use Rattle.lp_repr.specs.ValidTables.{acting_tokens};
ghost use Rattle.lp_tables.specs.ItemSets.{IsSetOf};
ghost use Rattle.lp_tables.specs.Reductions.{IsComplete, IsCompleteIn, StandOnce};

use crate::item_sets::ItemSet;
use crate::rules::Rules;
use lp_repr::{Item, Items, Lr1State, Token};
use std::alloc::{AllocError, Global};
use std::collections::BTreeSet;

/// Whether only complete items are reduced.
pub(crate) fn reduces_complete(rules: &Rules, set: &ItemSet, state: &Lr1State) -> bool
    requires { IsSetOf state.now.items set.now }
    ensures { IsTrue result ↔ AllByRecursion (λ r. IsComplete rules.now.all.items state.now.items r.1) state.now.reductions }
{
    for (_, production) in state.reductions.as_slice() {
        if !is_complete(rules, set, *production) {
            return false;
        }
    }
    true
}

/// Whether the set has the production with its dot at the end. Nothing is said of a number of no
/// production.
fn is_complete(rules: &Rules, set: &ItemSet, production: usize) -> bool
    ensures { IsTrue result ↔ IsCompleteIn rules.now.all.items set.now production }
{
    match rules.all.get(production) {
        None => true,
        Some(rule) => set.contains(&(production, rule.right.as_slice().len())),
    }
}

/// Whether a token has at most one action.
pub(crate) fn acts_once(alloc: Global, state: &Lr1State) -> Result<bool, AllocError>
    ensures { IfOk result (λ b. IsTrue b ↔ StandOnce (acting_tokens state.now)) }
{
    let tokens = tokens(alloc, state)?;
    stand_once(alloc, tokens.as_slice())
}

/// The tokens on which a state acts, each as often as it does.
fn tokens(alloc: Global, state: &Lr1State) -> Result<Vec<Token>, AllocError>
    ensures { IfOk result (λ v. v.items ≡ acting_tokens state.now) }
{
    let mut all = Vec::new(alloc);
    for terminal in state.shifts.keys() {
        all.push(Token::Terminal(*terminal))?;
    }
    for (tokens, _) in state.reductions.as_slice() {
        all.extend_from_slice(tokens.as_slice())?;
    }
    Ok(all)
}

/// Whether no token stands twice.
fn stand_once(alloc: Global, tokens: &[Token]) -> Result<bool, AllocError>
    ensures { IfOk result (λ b. IsTrue b ↔ StandOnce tokens.now) }
{
    let mut seen = BTreeSet::new(alloc);
    for token in tokens {
        if !seen.insert(*token)? {
            return Ok(false);
        }
    }
    Ok(true)
}
