//! The check of tables, rule by rule.

ghost use Rattle.std.specs.Prelude.{◌≡◌, ◌↔◌, ◌<◌, length, IfErr, IfOk, IsTrue, MatchResult};
ghost use Rattle.lp_repr.specs.ValidTables.{IsValidTables};
ghost use Rattle.lp_tables.specs.Gathering.{AreIndexed, known_by};
ghost use Rattle.lp_tables.specs.ItemSets.{IsSetOf};
ghost use Rattle.lp_tables.specs.Refusals.{RefusesTables, NamesTableRule};
ghost use Rattle.lp_tables.specs.TableRules.{number, Says, HoldsKnown, LeadsWithin, IsInRange, HasTargets, IsFirstFailingRule};

use crate::edges::{edges_lead, edges_stand};
use crate::item_sets::ItemSet;
use crate::opened::begins;
use crate::ranges::{edges_in_range, items_in_range, reductions_in_range};
use crate::reductions::{acts_once, reduces_complete};
use crate::rules::Kind;
use crate::tables::Tables;
use lp_repr::Lr1State;
use lp_repr::repr::Grammar;
use std::alloc::{AllocError, Global};

/// Why tables are refused.
#[derive(Clone, Copy)]
pub enum TableFault {
    /// The least state at which a rule fails, and the least rule that fails there.
    Rule { rule: u8, state: usize },
    /// Want of memory.
    Memory,
}

impl From<AllocError> for TableFault {
    ghost use Rattle.std.specs.Prelude.{◌≡◌};
    ghost use Rattle.lp_tables.specs.declared.check.TableFault.TheVariants.{Memory};

    ghost from_gives = { λ _ e. e ≡ Memory };

    fn from(_: AllocError) -> TableFault {
        TableFault::Memory
    }
}

/// The rules of tables.
#[derive(Clone, Copy)]
enum TableRule {
    States,
    Start,
    Ranges,
    Targets,
    Shifts,
    Reductions,
    Actions,
    Gotos,
}

/// Checks the states of one start, whose number is that of its public name in key order.
///
/// The rules, by number: 1 there is a state; 2 state 0 is the closure of the start production with
/// the dot first; 3 productions, dots, terminals, nonterminals and targets are in range; 4 the
/// target of an edge is exactly the closure of the state's items advanced over the edge's symbol; 5
/// shifts stand exactly on the terminals that follow a dot; 6 only complete items are reduced; 7 a
/// token has at most one action; 8 gotos stand exactly on the nonterminals that follow a dot. Items
/// are compared as pairs of production and dot; lookaheads of items are free.
pub fn check_tables(
    alloc: Global,
    grammar: &Grammar,
    start: usize,
    states: &[Lr1State],
) -> Result<(), TableFault>
    ensures exact { MatchResult result (λ _. IsValidTables grammar.now start states.now) (RefusesTables grammar.now start states.now) }
    ensures refusal { 0 < length states.now → IfErr result (NamesTableRule (length states.now)) }
{
    if states.is_empty() {
        return Err(TableFault::Rule { rule: 1, state: 0 });
    }
    let tables = Tables::new(alloc, grammar, start, states)?;
    for state in 0..states.len() {
        if let Some(rule) = failing_rule(alloc, &tables, state)? {
            return Err(TableFault::Rule { rule, state });
        }
    }
    Ok(())
}

/// The rules in the order of their numbers.
const RULES: [TableRule; 8] = [
    TableRule::States,
    TableRule::Start,
    TableRule::Ranges,
    TableRule::Targets,
    TableRule::Shifts,
    TableRule::Reductions,
    TableRule::Actions,
    TableRule::Gotos,
];

impl TableRule {
    fn number(self) -> u8
        ensures { result ≡ number self }
    {
        match self {
            TableRule::States => 1,
            TableRule::Start => 2,
            TableRule::Ranges => 3,
            TableRule::Targets => 4,
            TableRule::Shifts => 5,
            TableRule::Reductions => 6,
            TableRule::Actions => 7,
            TableRule::Gotos => 8,
        }
    }
}

/// The least rule that fails at a state.
fn failing_rule(alloc: Global, tables: &Tables<'_>, state: usize) -> Result<Option<u8>, AllocError>
    requires indexed { AreIndexed tables.now }
    requires within { state < length tables.now.states.now }
    ensures { IfOk result (IsFirstFailingRule (known_by tables.now) tables.now.states.now state) }
{
    for rule in RULES {
        if !holds(alloc, tables, rule, state)? {
            return Ok(Some(rule.number()));
        }
    }
    Ok(None)
}

/// Whether a rule holds at the state of this number.
fn holds(
    alloc: Global,
    tables: &Tables<'_>,
    rule: TableRule,
    number: usize,
) -> Result<bool, AllocError>
    requires indexed { AreIndexed tables.now }
    requires within { number < length tables.now.states.now }
    ensures { IfOk result (λ b. IsTrue b ↔ Says (known_by tables.now) tables.now.states.now rule number) }
{
    let state = &tables.states[number];
    let set = &tables.sets[number].set;
    let rules = &tables.rules;
    match rule {
        TableRule::States => Ok(true),
        TableRule::Start => {
            if number > 0 {
                return Ok(true);
            }
            begins(alloc, rules, tables.start, state, set)
        }
        TableRule::Ranges => Ok(is_in_range(tables, state)),
        TableRule::Targets => Ok(has_targets(tables, state, set)),
        TableRule::Shifts => edges_stand(alloc, rules, state, Kind::Terminals, &state.shifts),
        TableRule::Reductions => Ok(reduces_complete(rules, set, state)),
        TableRule::Actions => acts_once(alloc, state),
        TableRule::Gotos => edges_stand(alloc, rules, state, Kind::Nonterminals, &state.gotos),
    }
}

/// Whether productions, dots, terminals, nonterminals and targets are in range.
fn is_in_range(tables: &Tables<'_>, state: &Lr1State) -> bool
    ensures { IsTrue result ↔ IsInRange (known_by tables.now) (length tables.now.states.now) state.now }
{
    holds_known(tables, state) && leads_within(tables, state)
}

/// Whether the items and reductions of a state are in range.
fn holds_known(tables: &Tables<'_>, state: &Lr1State) -> bool
    ensures { IsTrue result ↔ HoldsKnown (known_by tables.now) state.now }
{
    items_in_range(&tables.rules, state.items.as_slice())
        && reductions_in_range(
            state.reductions.as_slice(),
            tables.rules.all.len(),
            tables.terminals,
        )
}

/// Whether its edges are.
fn leads_within(tables: &Tables<'_>, state: &Lr1State) -> bool
    ensures { IsTrue result ↔ LeadsWithin (known_by tables.now) (length tables.now.states.now) state.now }
{
    let count = tables.states.len();
    edges_in_range(&state.shifts, tables.terminals, count)
        && edges_in_range(&state.gotos, tables.nonterminals, count)
}

/// Whether the target of each edge is the closure of the state's items advanced over its symbol.
fn has_targets(tables: &Tables<'_>, state: &Lr1State, set: &ItemSet) -> bool
    requires indexed { AreIndexed tables.now }
    requires set { IsSetOf state.now.items set.now }
    ensures { IsTrue result ↔ HasTargets (known_by tables.now) tables.now.states.now state.now }
{
    edges_lead(tables, state, set, Kind::Terminals, &state.shifts)
        && edges_lead(tables, state, set, Kind::Nonterminals, &state.gotos)
}
