//! The slots of a state: the values of the symbols that its function is handed.

ghost use Rattle.std.specs.Prelude.{◌≡◌, ◌+◌, map, option_copied, IfOk};
ghost use Rattle.std.specs.BTreeMap.{values};
ghost use Rattle.std.specs.List.{list_all, list_any};
ghost use Rattle.std.specs.Map.Iter.{deref};
ghost use Rattle.lp_repr.specs.Numbering.{productions_of};
ghost use Rattle.lp_ascent.specs.Ranges.{is_in_range};
ghost use Rattle.lp_ascent.specs.Slots.{count_of, has_lookahead, is_cell, is_terminal, item_slots, layout_at, layout_of, layouts_of, leads_to_cells, needs_cells, needs_cells_at, no_slots, optional_of, plain_slots, slots_for};

use lp_repr::numbering::productions;
use lp_repr::repr::{Grammar, Production, Symbol};
use lp_repr::{Item, Lr1State};
use lp_state_parts::{max_prefix, will_pop};
use std::alloc::{AllocError, Global};
use std::collections::BTreeMap;

/// The symbols whose values a state's function is handed, the deepest first. The last ones are
/// fixed: they are handed over by value. The others are optional: a callee may have taken them.
#[derive(Clone, Copy)]
pub struct Slots<'g> {
    pub symbols: &'g [Symbol],
    /// How many are fixed.
    pub fixed: usize,
    /// The function puts its fixed slots into cells, for a callee that has them as optional.
    pub made_optional: bool,
}

impl Slots<'_> {
    /// How many symbols the state is handed, fixed and optional ones.
    pub fn count(&self) -> usize
        ensures { result ≡ count_of (layout_of self.now) }
    {
        self.symbols.len()
    }

    /// How many slots are handed over as optional.
    pub fn optional(&self) -> usize
        ensures { result ≡ optional_of (layout_of self.now) }
    {
        self.symbols.len().saturating_sub(self.fixed)
    }

    /// Inside the function a slot is a cell.
    pub fn is_cell(&self, slot: usize) -> bool
        ensures { result ≡ is_cell (layout_of self.now) slot }
    {
        self.made_optional || slot < self.optional()
    }

    /// The function is handed the lookahead: its last slot isn't that of a terminal.
    pub fn has_lookahead(&self) -> bool
        ensures { result ≡ has_lookahead (layout_of self.now) }
    {
        !is_terminal(self.symbols.last())
    }

    /// The slots are those of a frame that goes on after its callee: one fixed slot above optional
    /// ones.
    fn needs_cells(&self) -> bool
        ensures { result ≡ needs_cells (layout_of self.now) }
    {
        self.fixed == 1 && self.optional() > 0
    }
}

/// A symbol is a terminal.
fn is_terminal(symbol: Option<&Symbol>) -> bool
    ensures { result ≡ is_terminal (option_copied symbol.entry) }
{
    match symbol {
        None => false,
        Some(Symbol::Nonterminal(_)) => false,
        Some(Symbol::Terminal(_)) => true,
    }
}

/// No slots.
fn no_slots<'g>() -> Slots<'g>
    ensures { layout_of result ≡ no_slots }
{
    Slots {
        symbols: &[],
        fixed: 0,
        made_optional: false,
    }
}

/// The slots of the state of a number, none where there is no such state.
#[tactic(auto, using(std::proofs::lemmas::Grind::common_steps, crate::proofs::Lookups::looked_up))]
pub fn slots_at<'g>(all: &[Slots<'g>], state: usize) -> Slots<'g>
    ensures { layout_of result ≡ layout_at (map layout_of all.now) state }
{
    match all.get(state) {
        Some(slots) => *slots,
        None => no_slots(),
    }
}

/// The slots of all states. The slots of a state are the longest part before a dot, and the shortest
/// part that isn't empty tells how many are fixed.
#[tactic(auto, unfolding(crate::specs::Slots::layouts_of))]
pub fn all_slots<'g>(
    alloc: Global,
    grammar: &'g Grammar,
    states: &[Lr1State],
) -> Result<Vec<Slots<'g>>, AllocError>
    ensures { IfOk result (λ v. map layout_of v.items ≡ layouts_of grammar.entry.now states.now) }
{
    let productions = productions(alloc, grammar)?;
    let plain = plain_slots(alloc, grammar, productions.as_slice(), states)?;
    marked_slots(
        alloc,
        grammar,
        productions.as_slice(),
        plain.as_slice(),
        states,
    )
}

/// The slots of states by their items.
fn plain_slots<'g>(
    alloc: Global,
    grammar: &'g Grammar,
    productions: &[&'g Production],
    states: &[Lr1State],
) -> Result<Vec<Slots<'g>>, AllocError>
    requires { map deref productions.now ≡ productions_of grammar.now }
    ensures { IfOk result (λ v. map layout_of v.items ≡ map (plain_slots grammar.entry.now) states.now) }
{
    let mut plain = Vec::new(alloc);
    for state in states {
        plain.push(slots_of(grammar, productions, state))?;
    }
    Ok(plain)
}

/// The same, as cells where a state leads to one that needs them.
fn marked_slots<'g>(
    alloc: Global,
    grammar: &'g Grammar,
    productions: &[&'g Production],
    plain: &[Slots<'g>],
    states: &[Lr1State],
) -> Result<Vec<Slots<'g>>, AllocError>
    requires { map deref productions.now ≡ productions_of grammar.now }
    ensures { IfOk result (λ v. map layout_of v.items ≡ map (slots_for grammar.entry.now (map layout_of plain.now)) states.now) }
{
    let mut marked = Vec::new(alloc);
    for state in states {
        marked.push(slots_for(grammar, productions, plain, state))?;
    }
    Ok(marked)
}

/// The slots of one state among these.
fn slots_for<'g>(
    grammar: &'g Grammar,
    productions: &[&'g Production],
    plain: &[Slots<'g>],
    state: &Lr1State,
) -> Slots<'g>
    requires { map deref productions.now ≡ productions_of grammar.now }
    ensures { layout_of result ≡ slots_for grammar.entry.now (map layout_of plain.now) state.now }
{
    let slots = slots_of(grammar, productions, state);
    Slots {
        symbols: slots.symbols,
        fixed: slots.fixed,
        made_optional: leads_to_cells(state, plain),
    }
}

/// The slots of one state by its items; none where an item is out of range.
#[tactic(auto, using(std::proofs::lemmas::Grind::common_steps, crate::proofs::Ranges::in_range))]
fn slots_of<'g>(grammar: &'g Grammar, productions: &[&'g Production], state: &Lr1State) -> Slots<'g>
    requires { map deref productions.now ≡ productions_of grammar.now }
    ensures { layout_of result ≡ plain_slots grammar.entry.now state.now }
{
    if are_in_range(productions, state.items.as_slice()) {
        Slots {
            symbols: max_prefix(grammar, state),
            fixed: will_pop(grammar, state).len(),
            made_optional: false,
        }
    } else {
        no_slots()
    }
}

/// Each item names a production, and its dot stands within it.
fn are_in_range(productions: &[&Production], items: &[Item]) -> bool
    ensures { result ≡ list_all (is_in_range (map deref productions.now)) items.now }
{
    items.iter().all(|item| is_in_range(productions, item))
}

#[tactic(auto, using(crate::proofs::Ranges::referred))]
fn is_in_range(productions: &[&Production], item: &Item) -> bool
    ensures { result ≡ is_in_range (map deref productions.now) item.now }
{
    match productions.get(item.production) {
        Some(production) => item.index <= production.symbols.as_slice().len(),
        None => false,
    }
}

/// A successor has one fixed slot above optional ones.
fn leads_to_cells(state: &Lr1State, all: &[Slots<'_>]) -> bool
    ensures { result ≡ leads_to_cells (map layout_of all.now) state.now }
{
    some_need_cells(&state.shifts, all) || some_need_cells(&state.gotos, all)
}

/// One of the targets has.
fn some_need_cells(targets: &BTreeMap<usize, usize>, all: &[Slots<'_>]) -> bool
    ensures { result ≡ list_any (needs_cells_at (map layout_of all.now)) (values targets.now) }
{
    targets.values().any(|target| needs_cells_at(all, *target))
}

fn needs_cells_at(all: &[Slots<'_>], state: usize) -> bool
    ensures { result ≡ needs_cells_at (map layout_of all.now) state }
{
    slots_at(all, state).needs_cells()
}
