//! What a frame does after a callee returned.

ghost use Rattle.std.specs.Prelude.{◌≡◌, ◌++◌, false, [], length, map, nat_lt, option_copied, option_map, slice_get, string_bytes, IfOk, OnOk};
ghost use Rattle.std.specs.BTreeMap.{values};
ghost use Rattle.std.specs.List.{flat_map, list_any};
ghost use Rattle.std.specs.Map.Iter.{deref};
ghost use Rattle.lp_form.specs.declared.part.Part.TheVariants as part;
ghost use Rattle.lp_repr.specs.Numbering.{productions_of};
ghost use Rattle.lp_build.specs.Ascent.{loop_lines, loop_part};
ghost use Rattle.lp_build.specs.Built.{over};
ghost use Rattle.lp_tree.specs.ProgramTree.{is_part, items};
ghost use Rattle.lp_ascent.specs.GotoLines.{goes_on, goto_call, goto_if, goto_lines, gotos_of, has_one_fixed, is_empty_reduction, named_goto, named_gotos, optional_top, pops_nothing};
ghost use Rattle.lp_ascent.specs.NamedGotos.{arm_of, named_as};
ghost use Rattle.lp_ascent.specs.Slots.{count_of, layout_of};

use crate::calls::call_of;
use crate::slots::{Slots, slots_at};
use crate::states::States;
use lp_build::{GotoLoopArm, goto_loop};
use lp_repr::repr::Production;
use lp_repr::{Items, Lr1State, Token};
use lp_table::pieces::copied;
use lp_table::shared::Shared;
use lp_tree::Node;
use std::alloc::{AllocError, Global};
use std::collections::BTreeMap;

/// A frame of the state may go on: a state that is shifted to has one fixed slot, or an empty
/// production is reduced.
#[tactic(auto, unfolding(crate::specs::GotoLines::goes_on))]
pub fn goes_on(states: &States<'_>, state: &Lr1State) -> bool
    ensures { result ≡ goes_on states.now.shared.grammar.now (map layout_of states.now.slots.items) state.now }
{
    let slots = states.slots.as_slice();
    let reductions = state.reductions.as_slice();
    shifts_to_one(slots, &state.shifts) || reduces_nothing(&states.shared, reductions)
}

/// A state that is shifted to has one fixed slot.
fn shifts_to_one(all: &[Slots<'_>], shifts: &BTreeMap<usize, usize>) -> bool
    ensures { result ≡ list_any (has_one_fixed (map layout_of all.now)) (values shifts.now) }
{
    shifts.values().any(|target| has_one_fixed(all, *target))
}

fn has_one_fixed(all: &[Slots<'_>], state: usize) -> bool
    ensures { result ≡ has_one_fixed (map layout_of all.now) state }
{
    slots_at(all, state).fixed == 1
}

/// An empty production is reduced.
fn reduces_nothing(shared: &Shared<'_>, reductions: &[(Items<Token>, usize)]) -> bool
    ensures { result ≡ list_any (is_empty_reduction (productions_of shared.now.grammar.now)) reductions.now }
{
    some_reduce_nothing(shared.productions.as_slice(), reductions)
}

/// One of the reductions is by an empty one of these productions.
fn some_reduce_nothing(productions: &[&Production], reductions: &[(Items<Token>, usize)]) -> bool
    ensures { result ≡ list_any (is_empty_reduction (map deref productions.now)) reductions.now }
{
    reductions
        .iter()
        .any(|reduction| is_empty_reduction(productions, reduction))
}

#[tactic(auto, using(std::proofs::lemmas::Grind::common_steps, crate::proofs::Ranges::referred))]
fn is_empty_reduction(productions: &[&Production], reduction: &(Items<Token>, usize)) -> bool
    ensures { result ≡ is_empty_reduction (map deref productions.now) reduction.now }
{
    !reduction.0.as_slice().is_empty() && pops_nothing(productions.get(reduction.1))
}

/// A production has no symbols.
fn pops_nothing(production: Option<&&Production>) -> bool
    ensures { result ≡ pops_nothing (option_map deref (option_copied production.entry)) }
{
    match production {
        None => false,
        Some(production) => production.symbols.as_slice().len() == 0,
    }
}

/// A goto by the name of its nonterminal.
#[derive(Clone, Copy)]
pub struct NamedGoto<'s> {
    name: &'s str,
    target: usize,
}

/// What a frame does after a callee returned.
#[tactic(auto, unfolding(crate::specs::GotoLines::goto_lines))]
pub fn goto_lines<'t>(
    alloc: Global,
    states: &States<'t>,
    slots: Slots<'_>,
    gotos: &BTreeMap<usize, usize>,
) -> Result<Node<'t>, AllocError>
    ensures arm { IfOk result (λ n. is_part part.HeaderState n ≡ false) }
    ensures items { IfOk result (λ n. items n ≡ goto_lines states.now.shared.grammar.now (map layout_of states.now.slots.items) (layout_of slots.entry) gotos.now.entries) }
{
    let named = named_gotos(alloc, states.escaped_names.as_slice(), gotos)?;
    gotos_of(alloc, states, slots, named.as_slice())
}

/// The gotos of a frame; without any it answers what the callee answered.
fn gotos_of<'t>(
    alloc: Global,
    states: &States<'t>,
    slots: Slots<'_>,
    gotos: &[NamedGoto<'_>],
) -> Result<Node<'t>, AllocError>
    ensures arm { IfOk result (λ n. is_part part.HeaderState n ≡ false) }
    ensures items { IfOk result (λ n. items n ≡ gotos_of states.now.shared.grammar.now (map layout_of states.now.slots.items) (layout_of slots.entry) (map named_as gotos.now)) }
{
    let arms = goto_arms(alloc, slots.count(), gotos)?;
    let calls = goto_calls(alloc, states, slots, gotos)?;
    let other = leaves_some(states.escaped_names.as_slice(), gotos);
    loop_of(alloc, optional_top(slots), arms, other, calls)
}

/// There are nonterminals without a goto.
fn leaves_some(names: &[String], gotos: &[NamedGoto<'_>]) -> bool
    ensures { result ≡ nat_lt (length (map named_as gotos.now)) (length (map string_bytes names.now)) }
{
    gotos.len() < names.len()
}

/// The gotos of these arms, each with the next of the calls.
fn loop_of<'t>(
    alloc: Global,
    top: Option<u64>,
    arms: Vec<GotoLoopArm<'t>>,
    other: bool,
    calls: Vec<Node<'t>>,
) -> Result<Node<'t>, AllocError>
    ensures arm { IfOk result (λ n. is_part part.HeaderState n ≡ false) }
    ensures items { IfOk result (λ n. items n ≡ over (loop_part arms.entry.items) [] (loop_lines top arms.entry.items other calls.entry.items)) }
{
    goto_loop(alloc, top, arms, other, calls)
}

/// The gotos whose nonterminal has a name.
fn named_gotos<'s>(
    alloc: Global,
    names: &'s [String],
    gotos: &BTreeMap<usize, usize>,
) -> Result<Vec<NamedGoto<'s>>, AllocError>
    ensures { IfOk result (λ v. map named_as v.items ≡ named_gotos (map string_bytes names.entry.now) gotos.now.entries) }
{
    let mut named = Vec::new(alloc);
    for (nonterminal, target) in gotos {
        push_named(&mut named, names, *nonterminal, *target)?;
    }
    Ok(named)
}

/// Adds a goto whose nonterminal has a name.
fn push_named<'s>(
    named: &mut Vec<NamedGoto<'s>>,
    names: &'s [String],
    nonterminal: usize,
    target: usize,
) -> Result<(), AllocError>
    ensures { OnOk result (map named_as named.new.items ≡ map named_as named.old.items ++ named_goto (map string_bytes names.entry.now) (nonterminal, target)) }
{
    push_goto(named, name_at(names, nonterminal), target)
}

/// The name of the nonterminal of a number.
#[tactic(auto, using(std::proofs::lemmas::Grind::common_steps, crate::proofs::Lookups::looked_up))]
fn name_at(names: &[String], nonterminal: usize) -> Option<&str>
    ensures { option_copied result ≡ slice_get (map string_bytes names.now) nonterminal }
{
    match names.get(nonterminal) {
        None => None,
        Some(name) => Some(name.as_str()),
    }
}

/// Adds a goto by its name, if there is one.
fn push_goto<'s>(
    named: &mut Vec<NamedGoto<'s>>,
    name: Option<&'s str>,
    target: usize,
) -> Result<(), AllocError>
    ensures { OnOk result (map named_as named.new.items ≡ map named_as named.old.items ++ goto_if target (option_copied name.entry)) }
{
    match name {
        None => Ok(()),
        Some(name) => {
            named.push(NamedGoto { name, target })?;
            Ok(())
        }
    }
}

/// The arms of gotos, after which so many slots stand below the symbol.
fn goto_arms<'t>(
    alloc: Global,
    symbol: usize,
    gotos: &[NamedGoto<'_>],
) -> Result<Vec<GotoLoopArm<'t>>, AllocError>
    ensures { IfOk result (λ v. v.items ≡ map (arm_of symbol) (map named_as gotos.now)) }
{
    let mut arms = Vec::new(alloc);
    for goto in gotos {
        arms.push(GotoLoopArm {
            nonterminal: copied(alloc, goto.name)?,
            symbol: symbol as u64,
        })?;
    }
    Ok(arms)
}

/// The calls after gotos.
fn goto_calls<'t>(
    alloc: Global,
    states: &States<'t>,
    slots: Slots<'_>,
    gotos: &[NamedGoto<'_>],
) -> Result<Vec<Node<'t>>, AllocError>
    ensures { IfOk result (λ v. map items v.items ≡ map (goto_call states.now.shared.grammar.now (map layout_of states.now.slots.items) (layout_of slots.entry)) (map named_as gotos.now)) }
{
    let mut calls = Vec::new(alloc);
    for goto in gotos {
        calls.push(call_of(alloc, states, slots, goto.target, true)?)?;
    }
    Ok(calls)
}

/// The top slot where it is a cell.
fn optional_top(slots: Slots<'_>) -> Option<u64>
    ensures { result ≡ optional_top (layout_of slots.entry) }
{
    let count = slots.count();
    if count > 0 && slots.is_cell(count - 1) {
        Some((count - 1) as u64)
    } else {
        None
    }
}
