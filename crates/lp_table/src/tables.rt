//! The tables of a module: actions, gotos and the names of terminals.

ghost use Rattle.std.specs.Prelude.{◌≡◌, ◌++◌, All, map, IfOk, OnOk};
ghost use Rattle.std.specs.List.{flat_map};
ghost use Rattle.lp_build.specs.Tables.{goto_row, range_text};
ghost use Rattle.lp_parts.specs.Entries.{EntriesFit};
ghost use Rattle.lp_state_parts.specs.Gotos.{arms_of, column_from};
ghost use Rattle.lp_table.specs.TableLines.{action_lookup, action_table, arm_row, end_table, goto_function, gotos_lines, printed_gotos, range_shown, terminal_lines, terminal_name};
ghost use Rattle.lp_tree.specs.ProgramTree.{items};

use crate::pieces::{lent_name, piece_of};
use crate::shared::Shared;
use lp_build::{
    GotoArm, StateRange, action_lookup, action_table, eof_table, goto_fn, goto_match, goto_one,
    terminal_list,
};
use lp_parts::entries::{action_table_entries, end_table_entries};
use lp_repr::Lr1State;
use lp_repr::repr::{TerminalSet, TerminalString};
use lp_state_parts::gotos::{self, Gotos, gotos_on};
use lp_tree::{Node, Piece};
use std::alloc::{AllocError, Global};

/// Adds the table of actions by state and terminal, and its look-up.
#[tactic(auto, unfolding(crate::specs::TableLines::action_lookup))]
pub fn add_action_table<'t>(
    alloc: Global,
    nodes: &mut Vec<Node<'t>>,
    shared: &Shared<'t>,
) -> Result<(), AllocError>
    requires { All EntriesFit shared.now.states.now }
    ensures { OnOk result (flat_map items nodes.new.items ≡ (flat_map items nodes.old.items ++ action_table shared.now.grammar.now shared.now.states.now) ++ action_lookup shared.now.grammar.now shared.now.states.now) }
{
    nodes.push(action_entries(alloc, shared)?)?;
    let terminals = shared.grammar.terminals.all.as_slice().len();
    nodes.push(action_lookup(alloc, lent_name(shared.state_type), terminals as u64)?)?;
    Ok(())
}

/// The table of actions by state and terminal.
#[tactic(auto, unfolding(crate::specs::TableLines::action_table))]
fn action_entries<'t>(alloc: Global, shared: &Shared<'t>) -> Result<Node<'t>, AllocError>
    requires { All EntriesFit shared.now.states.now }
    ensures { IfOk result (λ n. items n ≡ action_table shared.now.grammar.now shared.now.states.now) }
{
    let terminals = shared.grammar.terminals.all.as_slice().len();
    let entries = action_table_entries(alloc, terminals, shared.states)?;
    action_table(
        alloc,
        lent_name(shared.state_type),
        entries,
        Vec::new(alloc),
    )
}

/// The table of actions at the end of input.
#[tactic(auto, unfolding(crate::specs::TableLines::end_table))]
pub fn end_table<'t>(alloc: Global, shared: &Shared<'t>) -> Result<Node<'t>, AllocError>
    requires { All EntriesFit shared.now.states.now }
    ensures { IfOk result (λ n. items n ≡ end_table shared.now.grammar.now shared.now.states.now) }
{
    let entries = end_table_entries(alloc, shared.states)?;
    eof_table(
        alloc,
        lent_name(shared.state_type),
        entries,
        Vec::new(alloc),
    )
}

/// The goto function.
#[tactic(auto, unfolding(crate::specs::TableLines::goto_function))]
pub fn goto_function<'t>(alloc: Global, shared: &Shared<'t>) -> Result<Node<'t>, AllocError>
    ensures { IfOk result (λ n. items n ≡ goto_function shared.now.grammar.now shared.now.states.now) }
{
    let grammar = shared.grammar;
    let mut number: usize = 0;
    let mut below = Vec::new(alloc);
    for _nonterminal in grammar.nonterminals.keys() {
        push_gotos(alloc, &mut below, shared.states, number)?;
        number = number.checked_add(1).ok_or(AllocError)?;
    }
    goto_fn(alloc, lent_name(shared.state_type), below)
}

/// Adds the arm of a nonterminal, if a state has a goto on it.
fn push_gotos<'t>(
    alloc: Global,
    nodes: &mut Vec<Node<'t>>,
    states: &[Lr1State],
    number: usize,
) -> Result<(), AllocError>
    ensures { OnOk result (flat_map items nodes.new.items ≡ flat_map items nodes.old.items ++ gotos_lines number (arms_of (column_from number 0 states.now))) }
{
    let gotos = gotos_on(alloc, number, states)?;
    push_printed(alloc, nodes, number, &gotos)
}

/// Adds the arm of a nonterminal with these gotos.
fn push_printed<'t>(
    alloc: Global,
    nodes: &mut Vec<Node<'t>>,
    number: usize,
    gotos: &Gotos,
) -> Result<(), AllocError>
    ensures { OnOk result (flat_map items nodes.new.items ≡ flat_map items nodes.old.items ++ printed_gotos number gotos.now) }
{
    match gotos {
        Gotos::Nowhere => Ok(()),
        Gotos::One { target } => {
            nodes.push(goto_one(alloc, number as u64, *target as u64)?)?;
            Ok(())
        }
        Gotos::Several { arms, other } => {
            let printed = printed_arms(alloc, arms.as_slice())?;
            nodes.push(goto_match(alloc, number as u64, printed, *other as u64)?)?;
            Ok(())
        }
    }
}

/// The arms of a nonterminal that has several targets.
fn printed_arms<'t>(alloc: Global, arms: &[gotos::GotoArm]) -> Result<Vec<GotoArm<'t>>, AllocError>
    ensures { IfOk result (λ v. map goto_row v.items ≡ map arm_row arms.now) }
{
    let mut printed = Vec::new(alloc);
    for arm in arms {
        printed.push(printed_arm(alloc, arm)?)?;
    }
    Ok(printed)
}

/// One of the arms.
fn printed_arm<'t>(alloc: Global, arm: &gotos::GotoArm) -> Result<GotoArm<'t>, AllocError>
    ensures { IfOk result (λ a. goto_row a ≡ arm_row arm.now) }
{
    let states = printed_ranges(alloc, arm.ranges.as_slice())?;
    Ok(GotoArm {
        states,
        target: arm.target as u64,
        note: None,
    })
}

/// The ranges of states.
fn printed_ranges(
    alloc: Global,
    ranges: &[gotos::StateRange],
) -> Result<Vec<StateRange>, AllocError>
    ensures { IfOk result (λ v. map range_text v.items ≡ map range_shown ranges.now) }
{
    let mut printed = Vec::new(alloc);
    for range in ranges {
        printed.push(StateRange {
            first: range.first as u64,
            last: range.last as u64,
        })?;
    }
    Ok(printed)
}

/// The names of the terminals but the error terminal.
#[tactic(auto, unfolding(crate::specs::TableLines::terminal_lines))]
pub fn terminal_names<'t>(alloc: Global, terminals: &TerminalSet) -> Result<Node<'t>, AllocError>
    ensures { IfOk result (λ n. items n ≡ terminal_lines terminals.now.all) }
{
    let all = terminals.all.as_slice();
    let mut names = Vec::new(alloc);
    for terminal in all {
        push_terminal(alloc, &mut names, terminal)?;
    }
    terminal_list(alloc, names)
}

/// Adds the name of a terminal that isn't the error terminal.
fn push_terminal<'t>(
    alloc: Global,
    names: &mut Vec<Piece<'t>>,
    terminal: &TerminalString,
) -> Result<(), AllocError>
    ensures { OnOk result (names.new.items ≡ names.old.items ++ terminal_name terminal.now) }
{
    match terminal {
        TerminalString::Error => Ok(()),
        TerminalString::Quoted(_) | TerminalString::Bare(_) => {
            names.push(piece_of(alloc, terminal)?)?;
            Ok(())
        }
    }
}
