//! The edges of a state: where they lead, and that they stand on the symbols after its dots.

ghost use Rattle.std.specs.Prelude.{◌≡◌, ◌-◌, ◌↔◌, ℕ, ◌<◌, Some, IfOk, IsSome, IsTrue};
ghost use Rattle.std.specs.BTreeMap.{get};
ghost use Rattle.std.specs.BTreeSet.{contains};
ghost use Rattle.std.specs.List.{AllByRecursion};
ghost use Rattle.std.specs.Ordering.{nat_cmp};
ghost use Rattle.lp_repr.specs.ValidTables.{Follows, IsTarget};
ghost use Rattle.lp_tables.specs.Edges.{ComesFrom, CameOver, GoesOn, FollowsIn};
ghost use Rattle.lp_tables.specs.Gathering.{AllDescribed};
ghost use Rattle.lp_tables.specs.ItemSets.{IsSetOf};
ghost use Rattle.lp_tables.specs.Numbers.{symbol_of};

use crate::item_sets::ItemSet;
use crate::rules::{Kind, Rules};
use crate::tables::Tables;
use lp_repr::{Item, Lr1State};
use std::alloc::{AllocError, Global};
use std::collections::{BTreeMap, BTreeSet};

/// The edges of a state over the symbols of one kind.
pub(crate) type Edges = BTreeMap<usize, usize>;

/// Whether the target of each edge is the closure of the state's items advanced over the edge's
/// symbol.
pub(crate) fn edges_lead(
    tables: &Tables<'_>,
    state: &Lr1State,
    set: &ItemSet,
    kind: Kind,
    edges: &Edges,
) -> bool
    requires all { AllDescribed tables.now.rules.all.items tables.now.states.now tables.now.sets.items }
    requires this { IsSetOf state.now.items set.now }
    ensures { IsTrue result
        ↔ ((n target : ℕ) → get nat_cmp edges.now n ≡ Some target → IsTarget tables.now.rules.all.items tables.now.states.now state.now (symbol_of kind n) target) }
{
    all_come(tables, set, kind, edges) && all_go_on(tables, kind, edges, state.items.as_slice())
}

/// Whether each target is closed, and all its items with a symbol before the dot come from the
/// set, over the edge's symbol.
fn all_come(tables: &Tables<'_>, set: &ItemSet, kind: Kind, edges: &Edges) -> bool
    requires { AllDescribed tables.now.rules.all.items tables.now.states.now tables.now.sets.items }
    ensures { IsTrue result
        ↔ ((n target : ℕ) → get nat_cmp edges.now n ≡ Some target → ComesFrom tables.now.rules.all.items tables.now.states.now set.now kind n target) }
{
    for (number, target) in edges {
        if !comes_from(tables, set, kind, *number, *target) {
            return false;
        }
    }
    true
}

fn comes_from(tables: &Tables<'_>, set: &ItemSet, kind: Kind, number: usize, target: usize) -> bool
    requires { AllDescribed tables.now.rules.all.items tables.now.states.now tables.now.sets.items }
    ensures { IsTrue result ↔ ComesFrom tables.now.rules.all.items tables.now.states.now set.now kind number target }
{
    let (Some(state), Some(items)) = (tables.states.get(target), tables.sets.get(target)) else {
        return false;
    };
    items.is_closed && came_over(&tables.rules, set, kind, number, state.items.as_slice())
}

/// Whether all the items with a symbol before the dot come from the set, over the symbol.
fn came_over(rules: &Rules, set: &ItemSet, kind: Kind, number: usize, reached: &[Item]) -> bool
    ensures { IsTrue result
        ↔ AllByRecursion (λ item. 0 < item.index → CameOver rules.now.all.items set.now kind number item.production (item.index - 1)) reached.now }
{
    for item in reached {
        if !came(rules, set, kind, number, item.production, item.index) {
            return false;
        }
    }
    true
}

/// Whether the item has its dot first, or came from the set over the symbol.
fn came(
    rules: &Rules,
    set: &ItemSet,
    kind: Kind,
    number: usize,
    production: usize,
    dot: usize,
) -> bool
    ensures { IsTrue result ↔ (0 < dot → CameOver rules.now.all.items set.now kind number production (dot - 1)) }
{
    dot == 0 || stood_before(rules, set, kind, number, production, dot - 1)
}

/// Whether the set has the item, with its dot before the symbol.
fn stood_before(
    rules: &Rules,
    set: &ItemSet,
    kind: Kind,
    number: usize,
    production: usize,
    dot: usize,
) -> bool
    ensures { IsTrue result ↔ CameOver rules.now.all.items set.now kind number production dot }
{
    match rules.step(kind, production, dot) {
        None => false,
        Some((next, _)) => next == number && set.contains(&(production, dot)),
    }
}

/// Whether each of the items, advanced over a symbol that has an edge, is in the edge's target.
fn all_go_on(tables: &Tables<'_>, kind: Kind, edges: &Edges, items: &[Item]) -> bool
    requires { AllDescribed tables.now.rules.all.items tables.now.states.now tables.now.sets.items }
    ensures { IsTrue result
        ↔ AllByRecursion (λ item. GoesOn tables.now.rules.all.items tables.now.states.now kind edges.now item.production item.index) items.now }
{
    for item in items {
        if !goes_on(tables, kind, edges, item.production, item.index) {
            return false;
        }
    }
    true
}

fn goes_on(tables: &Tables<'_>, kind: Kind, edges: &Edges, production: usize, dot: usize) -> bool
    requires { AllDescribed tables.now.rules.all.items tables.now.states.now tables.now.sets.items }
    ensures { IsTrue result ↔ GoesOn tables.now.rules.all.items tables.now.states.now kind edges.now production dot }
{
    match tables.rules.step(kind, production, dot) {
        None => true,
        Some((number, after)) => match edges.get(&number) {
            None => true,
            Some(target) => tables.has_item(*target, production, after),
        },
    }
}

/// Whether the edges stand exactly on the symbols of the kind that follow a dot.
pub(crate) fn edges_stand(
    alloc: Global,
    rules: &Rules,
    state: &Lr1State,
    kind: Kind,
    edges: &Edges,
) -> Result<bool, AllocError>
    ensures { IfOk result (λ b. IsTrue b
        ↔ ((n : ℕ) → IsSome (get nat_cmp edges.now n) ↔ Follows rules.now.all.items state.now (symbol_of kind n))) }
{
    let after = after_dots(alloc, rules, kind, state.items.as_slice())?;
    Ok(are_edges(&after, edges))
}

/// Whether the edges stand exactly on these numbers.
fn are_edges(numbers: &BTreeSet<usize>, edges: &Edges) -> bool
    ensures { IsTrue result ↔ ((n : ℕ) → IsSome (get nat_cmp edges.now n) ↔ IsTrue (contains nat_cmp numbers.now n)) }
{
    all_have_edges(numbers, edges) && all_follow(edges, numbers)
}

/// The numbers of the symbols of the kind that follow a dot.
fn after_dots(
    alloc: Global,
    rules: &Rules,
    kind: Kind,
    items: &[Item],
) -> Result<BTreeSet<usize>, AllocError>
    ensures { IfOk result (λ s. (n : ℕ) → IsTrue (contains nat_cmp s n) ↔ FollowsIn rules.now.all.items kind items.now n) }
{
    let mut after = BTreeSet::new(alloc);
    for item in items {
        if let Some((number, _)) = rules.step(kind, item.production, item.index) {
            after.insert(number)?;
        }
    }
    Ok(after)
}

fn all_have_edges(numbers: &BTreeSet<usize>, edges: &Edges) -> bool
    ensures { IsTrue result ↔ ((n : ℕ) → IsTrue (contains nat_cmp numbers.now n) → IsSome (get nat_cmp edges.now n)) }
{
    for number in numbers {
        if !edges.contains_key(number) {
            return false;
        }
    }
    true
}

fn all_follow(edges: &Edges, numbers: &BTreeSet<usize>) -> bool
    ensures { IsTrue result ↔ ((n : ℕ) → IsSome (get nat_cmp edges.now n) → IsTrue (contains nat_cmp numbers.now n)) }
{
    for number in edges.keys() {
        if !numbers.contains(number) {
            return false;
        }
    }
    true
}
