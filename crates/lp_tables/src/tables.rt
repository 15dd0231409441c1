//! What the check knows of a grammar and its states.

ghost use Rattle.std.specs.Prelude.{◌≡◌, ◌↔◌, IfOk, IsTrue};
ghost use Rattle.lp_repr.specs.ValidTables.{start_number};
ghost use Rattle.lp_tables.specs.Edges.{HoldsItem};
ghost use Rattle.lp_tables.specs.Gathering.{AreTables, AllDescribed, Describes};
ghost use Rattle.lp_tables.specs.Numbers.{IsIndex};

use crate::item_sets::{ItemSet, item_set};
use crate::opened::is_closed;
use crate::rules::Rules;
use lp_repr::Lr1State;
use lp_repr::numbering::Numbers;
use lp_repr::repr::Grammar;
use std::alloc::{AllocError, Global};

/// Tables under check.
#[derive(Drop)]
pub(crate) struct Tables<'t> {
    pub(crate) rules: Rules,
    /// The number of the start's nonterminal, if it is declared.
    pub(crate) start: Option<usize>,
    pub(crate) terminals: usize,
    pub(crate) nonterminals: usize,
    pub(crate) states: &'t [Lr1State],
    /// Of each state its items.
    pub(crate) sets: Vec<StateItems>,
}

/// The items of a state.
#[derive(Drop)]
pub(crate) struct StateItems {
    pub(crate) set: ItemSet,
    /// They are the closure of those with a symbol before the dot.
    pub(crate) is_closed: bool,
}

impl<'t> Tables<'t> {
    pub(crate) fn new(
        alloc: Global,
        grammar: &Grammar,
        start: usize,
        states: &'t [Lr1State],
    ) -> Result<Tables<'t>, AllocError>
        ensures { IfOk result (AreTables grammar.now start states.entry.now) }
    {
        let rules = Rules::new(alloc, grammar)?;
        let sets = all_items(alloc, &rules, states)?;
        Ok(Tables {
            rules,
            start: start_nonterminal(alloc, grammar, start)?,
            terminals: grammar.terminals.all.as_slice().len(),
            nonterminals: grammar.nonterminals.len(),
            states,
            sets,
        })
    }

    /// Whether the state of this number has the item.
    pub(crate) fn has_item(&self, state: usize, production: usize, dot: usize) -> bool
        requires { AllDescribed self.now.rules.all.items self.now.states.now self.now.sets.items }
        ensures { IsTrue result ↔ HoldsItem self.now.states.now state production dot }
    {
        match self.sets.get(state) {
            None => false,
            Some(items) => items.set.contains(&(production, dot)),
        }
    }
}

/// The number of the nonterminal of a start, whose own number is that of its public name in key
/// order.
fn start_nonterminal(
    alloc: Global,
    grammar: &Grammar,
    start: usize,
) -> Result<Option<usize>, AllocError>
    ensures { IfOk result (λ n. n ≡ start_number grammar.now start) }
{
    let numbers = Numbers::new(alloc, grammar)?;
    let mut before = start;
    for name in grammar.start_nonterminals.values() {
        if before == 0 {
            return Ok(numbers.nonterminal(name));
        }
        before -= 1;
    }
    Ok(None)
}

/// Of each state its items.
fn all_items(
    alloc: Global,
    rules: &Rules,
    states: &[Lr1State],
) -> Result<Vec<StateItems>, AllocError>
    requires { IsIndex rules.now.all.items rules.now.firsts.items }
    ensures { IfOk result (λ v. AllDescribed rules.now.all.items states.now v.items) }
{
    let mut all = Vec::new(alloc);
    for state in states {
        all.push(state_items(alloc, rules, state)?)?;
    }
    Ok(all)
}

fn state_items(alloc: Global, rules: &Rules, state: &Lr1State) -> Result<StateItems, AllocError>
    requires { IsIndex rules.now.all.items rules.now.firsts.items }
    ensures { IfOk result (Describes rules.now.all.items state.now) }
{
    let set = item_set(alloc, state.items.as_slice())?;
    let is_closed = is_closed(alloc, rules, state, &set)?;
    Ok(StateItems { set, is_closed })
}
