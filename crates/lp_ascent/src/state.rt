//! The function of one state.

ghost use Rattle.std.specs.Prelude.{◌≡◌, ◌++◌, ◌∷◌, [], ℕ, false, map, IfOk, OnOk};
ghost use Rattle.std.specs.List.{flat_map};
ghost use Rattle.lp_form.specs.declared.part.Part.TheVariants as part;
ghost use Rattle.lp_build.specs.Ascent.{but_header, header_parts, location_lines};
ghost use Rattle.lp_tree.specs.ProgramTree.{is_part, items};
ghost use Rattle.lp_ascent.specs.Slots.{layout_of};
ghost use Rattle.lp_ascent.specs.StateLines.{downwards, error_in, error_lines, error_location, gotos_if, new_cells, state_arms, state_header, state_lines, state_with};

use crate::answers::located;
use crate::calls::numbers_between;
use crate::forms::put_arm;
use crate::gotos::{goes_on, goto_lines};
use crate::headers::state_header;
use crate::reductions::add_reductions;
use crate::shifts::add_shifts;
use crate::slots::{Slots, slots_at};
use crate::states::States;
use lp_build::{ErrorLocation, error_arm, state_fn};
use lp_repr::Lr1State;
use lp_table::pieces::copied;
use lp_tree::Node;
use std::alloc::{AllocError, Global};

/// The function of the state of a number.
pub fn state_lines<'t>(
    alloc: Global,
    states: &States<'t>,
    number: usize,
    state: &Lr1State,
) -> Result<Node<'t>, AllocError>
    ensures { IfOk result (λ n. items n ≡ state_lines states.now.shared.grammar.now states.now.shared.states.now (map layout_of states.now.slots.items) number state.now) }
{
    let slots = slots_at(states.slots.as_slice(), number);
    state_with(alloc, states, number, state, slots)
}

/// The function of a state that has these slots.
fn state_with<'t>(
    alloc: Global,
    states: &States<'t>,
    number: usize,
    state: &Lr1State,
    slots: Slots<'_>,
) -> Result<Node<'t>, AllocError>
    ensures { IfOk result (λ n. items n ≡ state_with states.now.shared.grammar.now states.now.shared.states.now (map layout_of states.now.slots.items) number state.now (layout_of slots.entry)) }
{
    let below = state_parts(alloc, states, number, state, slots)?;
    let triple = located(alloc, &states.shared, states.shared.types.token.as_str())?;
    let parameters = copied(alloc, states.answer_texts.parameters.as_str())?;
    let cells = new_cells(alloc, slots)?;
    let next_token = !slots.has_lookahead();
    state_fn(
        alloc,
        triple,
        parameters,
        next_token,
        cells.as_slice(),
        Vec::new(alloc),
        below,
    )
}

/// The header, and what the function does.
#[tactic(auto, unfolding(crate::specs::StateLines::state_arms))]
fn state_parts<'t>(
    alloc: Global,
    states: &States<'t>,
    number: usize,
    state: &Lr1State,
    slots: Slots<'_>,
) -> Result<Vec<Node<'t>>, AllocError>
    ensures header { IfOk result (λ v. flat_map header_parts v.items ≡ state_header states.now.shared.grammar.now states.now.shared.states.now number (layout_of slots.entry)) }
    ensures arms { IfOk result (λ v. flat_map but_header v.items ≡ state_arms states.now.shared.grammar.now (map layout_of states.now.slots.items) (layout_of slots.entry) state.now) }
{
    let mut nodes = header_alone(alloc, states, number, slots)?;
    add_shifts(alloc, &mut nodes, states, slots, &state.shifts)?;
    let reductions = state.reductions.as_slice();
    add_reductions(alloc, &mut nodes, &states.shared, slots, reductions)?;
    put_arm(&mut nodes, error_lines(alloc, slots)?)?;
    add_gotos(alloc, &mut nodes, states, state, slots)?;
    Ok(nodes)
}

/// The header with nothing behind it.
fn header_alone<'t>(
    alloc: Global,
    states: &States<'t>,
    number: usize,
    slots: Slots<'_>,
) -> Result<Vec<Node<'t>>, AllocError>
    ensures header { IfOk result (λ v. flat_map header_parts v.items ≡ state_header states.now.shared.grammar.now states.now.shared.states.now number (layout_of slots.entry)) }
    ensures arms { IfOk result (λ v. flat_map but_header v.items ≡ []) }
{
    let head = state_header(alloc, states, number, slots)?;
    let nodes = vec![in alloc; head]?;
    Ok(nodes)
}

/// Adds the gotos, where a frame goes on.
fn add_gotos<'t>(
    alloc: Global,
    nodes: &mut Vec<Node<'t>>,
    states: &States<'t>,
    state: &Lr1State,
    slots: Slots<'_>,
) -> Result<(), AllocError>
    ensures headers { OnOk result (flat_map header_parts nodes.new.items ≡ flat_map header_parts nodes.old.items) }
    ensures arms { OnOk result (flat_map but_header nodes.new.items ≡ flat_map but_header nodes.old.items ++ gotos_if states.now.shared.grammar.now (map layout_of states.now.slots.items) (layout_of slots.entry) state.now) }
{
    if goes_on(states, state) {
        put_arm(nodes, goto_lines(alloc, states, slots, &state.gotos)?)
    } else {
        Ok(())
    }
}

/// The fixed slots that become cells.
fn new_cells(alloc: Global, slots: Slots<'_>) -> Result<Vec<u64>, AllocError>
    ensures { IfOk result (λ v. v.items ≡ new_cells (layout_of slots.entry)) }
{
    if slots.made_optional {
        numbers_between(alloc, slots.optional(), slots.count())
    } else {
        Ok(Vec::new(alloc))
    }
}

/// What is done with a token that has no action.
fn error_lines<'t>(alloc: Global, slots: Slots<'_>) -> Result<Node<'t>, AllocError>
    ensures arm { IfOk result (λ n. is_part part.HeaderState n ≡ false) }
    ensures items { IfOk result (λ n. items n ≡ error_lines (layout_of slots.entry)) }
{
    error_arm(alloc, error_location(alloc, slots)?)
}

/// Where the location of an error at the end of input comes from.
fn error_location(alloc: Global, slots: Slots<'_>) -> Result<ErrorLocation, AllocError>
    ensures { IfOk result (λ e. location_lines e ≡ error_location (layout_of slots.entry)) }
{
    let count = slots.count();
    if count == 0 {
        Ok(ErrorLocation::Default)
    } else {
        error_in(alloc, slots, count - 1)
    }
}

/// Where it comes from with this top slot.
fn error_in(alloc: Global, slots: Slots<'_>, top: usize) -> Result<ErrorLocation, AllocError>
    ensures { IfOk result (λ e. location_lines e ≡ error_in (layout_of slots.entry) top) }
{
    if slots.is_cell(top) {
        let slots = downwards(alloc, slots.count())?;
        Ok(ErrorLocation::Chain { slots })
    } else {
        Ok(ErrorLocation::Fixed { slot: top as u64 })
    }
}

/// The numbers below one, the greatest first.
#[tactic(auto, using(std::proofs::lemmas::Grind::common_steps, crate::proofs::Downwards::downwards_next, crate::proofs::Downwards::downwards_none))]
fn downwards(alloc: Global, count: usize) -> Result<Vec<u64>, AllocError>
    ensures { IfOk result (λ v. v.items ≡ downwards count) }
{
    let mut numbers = Vec::new(alloc);
    let mut left = count;
    while left > 0 {
        left -= 1;
        numbers.push(left as u64)?;
    }
    Ok(numbers)
}
