//! The call of another state's function.

ghost use Rattle.std.specs.Prelude.{◌≡◌, ◌++◌, ◌-◌, ◌∷◌, [], map, string_bytes, IfOk, OnOk, if◌then◌else◌};
ghost use Rattle.std.specs.List.{range_with_len};
ghost use Rattle.lp_tree.specs.ProgramTree.{items};
ghost use Rattle.lp_ascent.specs.CallLines.{call_of, call_with, cells_from, handed_on, slot_list, slot_names, with_symbol};
ghost use Rattle.lp_ascent.specs.Slots.{layout_of};

use crate::slots::{Slots, slots_at};
use crate::states::States;
use lp_build::transition;
use lp_repr::Text;
use lp_table::pieces::{comma_list, copied, made};
use lp_table::shared::Shared;
use lp_tree::{Node, Piece};
use std::alloc::{AllocError, Global};

/// The numbers from one to before another.
#[tactic(auto, using(std::proofs::lemmas::Grind::common_steps, crate::proofs::Counting::range_next, crate::proofs::Counting::range_none))]
pub fn numbers_between(alloc: Global, first: usize, end: usize) -> Result<Vec<u64>, AllocError>
    ensures { IfOk result (λ v. v.items ≡ range_with_len first (end - first)) }
{
    let mut numbers = Vec::new(alloc);
    for number in first..end {
        numbers.push(number as u64)?;
    }
    Ok(numbers)
}

/// The names of the slots from one to before another.
#[tactic(auto, using(std::proofs::lemmas::Grind::common_steps, crate::proofs::Counting::range_next, crate::proofs::Counting::range_none))]
fn slot_names(
    alloc: Global,
    prefix: &str,
    first: usize,
    end: usize,
) -> Result<Vec<Text>, AllocError>
    ensures { IfOk result (λ v. v.items ≡ slot_names prefix.now first end) }
{
    let mut names = Vec::new(alloc);
    for slot in first..end {
        names.push(Text(format!(in alloc; "{prefix}sym{slot}")?))?;
    }
    Ok(names)
}

/// The same, joined by `, `.
pub fn slot_list(
    alloc: Global,
    prefix: &str,
    first: usize,
    end: usize,
) -> Result<String, AllocError>
    ensures { IfOk result (λ s. string_bytes s ≡ slot_list prefix.now first end) }
{
    let names = slot_names(alloc, prefix, first, end)?;
    comma_list(alloc, names.as_slice())
}

/// What is handed on: after a goto the lookahead, then the slots from one to before another.
fn handed_on<'t>(
    alloc: Global,
    prefix: &str,
    after_goto: bool,
    first: usize,
    end: usize,
) -> Result<Piece<'t>, AllocError>
    ensures { IfOk result (λ p. p ≡ handed_on prefix.now after_goto first end) }
{
    let slots = slot_list(alloc, prefix, first, end)?;
    if after_goto {
        return Ok(made(format!(in alloc; "{prefix}lookahead, {slots}")?));
    }
    Ok(made(slots))
}

/// The cells from a slot on.
#[tactic(auto, using(std::proofs::lemmas::Grind::common_steps, crate::proofs::Counting::filter_next, crate::proofs::Counting::range_none))]
pub fn cells_from(alloc: Global, slots: Slots<'_>, first: usize) -> Result<Vec<u64>, AllocError>
    ensures { IfOk result (λ v. v.items ≡ cells_from (layout_of slots.entry) first) }
{
    let count = slots.count();
    let mut cells = Vec::new(alloc);
    for slot in first..count {
        push_if(&mut cells, slot as u64, slots.is_cell(slot))?;
    }
    Ok(cells)
}

/// Adds a number, if it is asked for.
fn push_if(numbers: &mut Vec<u64>, number: u64, asked: bool) -> Result<(), AllocError>
    ensures { OnOk result (numbers.new.items ≡ numbers.old.items ++ (if asked then number ∷ [] else [])) }
{
    if asked {
        numbers.push(number)?;
    }
    Ok(())
}

/// How many slots there are with the symbol above them.
fn with_symbol(slots: Slots<'_>) -> usize
    ensures { result ≡ with_symbol (layout_of slots.entry) }
{
    slots.symbols.len() + 1
}

/// The call of the function of a state, after a shift or a goto of the symbol above the slots.
#[tactic(auto, unfolding(crate::specs::CallLines::call_of))]
pub fn call_of<'t>(
    alloc: Global,
    states: &States<'t>,
    slots: Slots<'_>,
    target: usize,
    after_goto: bool,
) -> Result<Node<'t>, AllocError>
    ensures { IfOk result (λ n. items n ≡ call_of states.now.shared.grammar.now (map layout_of states.now.slots.items) (layout_of slots.entry) target after_goto) }
{
    let callee = slots_at(states.slots.as_slice(), target);
    call_with(alloc, &states.shared, slots, callee, target, after_goto)
}

/// The call of the function of a state that has these slots.
fn call_with<'t>(
    alloc: Global,
    shared: &Shared<'t>,
    slots: Slots<'_>,
    callee: Slots<'_>,
    target: usize,
    after_goto: bool,
) -> Result<Node<'t>, AllocError>
    ensures { IfOk result (λ n. items n ≡ call_with shared.now.grammar.now (layout_of slots.entry) (layout_of callee.entry) target after_goto) }
{
    let all = with_symbol(slots);
    let takes = cells_from(alloc, slots, all.saturating_sub(callee.fixed))?;
    let arguments = copied(alloc, shared.parameters.arguments.as_str())?;
    let prefix = shared.grammar.prefix.as_str();
    let first = all.saturating_sub(callee.count());
    let symbols = handed_on(alloc, prefix, after_goto, first, all)?;
    let phantom = copied(alloc, shared.parameters.phantom_expression.as_str())?;
    transition(
        alloc,
        takes.as_slice(),
        target as u64,
        arguments,
        symbols,
        phantom,
        callee.fixed > 1,
    )
}
