//! The shifts of a state.

ghost use Rattle.std.specs.Prelude.{◌≡◌, ◌++◌, false, map, option_copied, IfOk, OnOk};
ghost use Rattle.std.specs.List.{flat_map};
ghost use Rattle.lp_form.specs.declared.part.Part.TheVariants as part;
ghost use Rattle.lp_build.specs.Ascent.{but_header, header_parts};
ghost use Rattle.lp_tree.specs.ProgramTree.{is_part, items};
ghost use Rattle.lp_ascent.specs.ShiftLines.{pattern_at, shift_arm, shift_if, shift_line, shift_lines, shifted_names, shifted_pattern};
ghost use Rattle.lp_ascent.specs.Slots.{layout_of};

use crate::calls::call_of;
use crate::forms::put_arm;
use crate::slots::Slots;
use crate::states::States;
use lp_build::shift_arm;
use lp_repr::repr::{Grammar, TokenPattern};
use lp_table::pieces::made;
use lp_table::tokens::{capture_names, named_pattern, pattern_text};
use lp_tree::{Node, Piece};
use std::alloc::{AllocError, Global};
use std::collections::BTreeMap;

/// Adds the shifts, by terminal.
#[tactic(auto, unfolding(crate::specs::ShiftLines::shift_lines))]
pub fn add_shifts<'t>(
    alloc: Global,
    nodes: &mut Vec<Node<'t>>,
    states: &States<'t>,
    slots: Slots<'_>,
    shifts: &BTreeMap<usize, usize>,
) -> Result<(), AllocError>
    ensures headers { OnOk result (flat_map header_parts nodes.new.items ≡ flat_map header_parts nodes.old.items) }
    ensures arms { OnOk result (flat_map but_header nodes.new.items ≡ flat_map but_header nodes.old.items ++ shift_lines states.now.shared.grammar.now (map layout_of states.now.slots.items) (layout_of slots.entry) shifts.now.entries) }
{
    for (terminal, target) in shifts {
        add_shift(alloc, nodes, states, slots, *terminal, *target)?;
    }
    Ok(())
}

/// Adds the shift of a terminal that has a pattern.
fn add_shift<'t>(
    alloc: Global,
    nodes: &mut Vec<Node<'t>>,
    states: &States<'t>,
    slots: Slots<'_>,
    terminal: usize,
    target: usize,
) -> Result<(), AllocError>
    ensures headers { OnOk result (flat_map header_parts nodes.new.items ≡ flat_map header_parts nodes.old.items) }
    ensures arms { OnOk result (flat_map but_header nodes.new.items ≡ flat_map but_header nodes.old.items ++ shift_line states.now.shared.grammar.now (map layout_of states.now.slots.items) (layout_of slots.entry) (terminal, target)) }
{
    match pattern_at(states.shared.grammar, terminal) {
        None => Ok(()),
        Some(pattern) => {
            let call = call_of(alloc, states, slots, target, false)?;
            let prefix = states.shared.grammar.prefix.as_str();
            put_arm(
                nodes,
                shift_to(alloc, prefix, slots.count(), pattern, call)?,
            )
        }
    }
}

/// The pattern of the terminal of a number, if it has one.
fn pattern_at(grammar: &Grammar, terminal: usize) -> Option<&TokenPattern>
    ensures { option_copied result ≡ pattern_at grammar.entry.now terminal }
{
    match grammar.terminals.all.as_slice().get(terminal) {
        None => None,
        Some(name) => grammar.conversions.get(name),
    }
}

/// The shift of a token of this pattern, with what is done then.
fn shift_to<'t>(
    alloc: Global,
    prefix: &str,
    symbol: usize,
    pattern: &TokenPattern,
    below: Node<'t>,
) -> Result<Node<'t>, AllocError>
    ensures arm { IfOk result (λ n. is_part part.HeaderState n ≡ false) }
    ensures items { IfOk result (λ n. items n ≡ shift_arm prefix.now symbol pattern.now (items below.entry)) }
{
    let text = shifted_pattern(alloc, prefix, pattern)?;
    let names = shifted_names(alloc, prefix, pattern)?;
    shift_arm(alloc, text, symbol as u64, names, vec![in alloc; below]?)
}

/// A pattern with names in its holes.
fn shifted_pattern<'t>(
    alloc: Global,
    prefix: &str,
    pattern: &TokenPattern,
) -> Result<Piece<'t>, AllocError>
    ensures { IfOk result (λ p. p ≡ shifted_pattern prefix.now pattern.now) }
{
    if pattern.holes.as_slice().len() == 0 {
        pattern_text(alloc, pattern)
    } else {
        Ok(made(named_pattern(alloc, prefix, pattern)?))
    }
}

/// These names, if there are some.
fn shifted_names<'t>(
    alloc: Global,
    prefix: &str,
    pattern: &TokenPattern,
) -> Result<Option<Piece<'t>>, AllocError>
    ensures { IfOk result (λ o. o ≡ shifted_names prefix.now pattern.now) }
{
    let captures = pattern.holes.as_slice().len();
    if captures == 0 {
        return Ok(None);
    }
    Ok(Some(made(capture_names(alloc, prefix, captures)?)))
}
