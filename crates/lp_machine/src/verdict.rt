//! Trials of a terminal on a stack of states, and expected lists.

ghost use Rattle.std.specs.Prelude.{◌≡◌, ℕ, ◌+◌, ◌++◌, Some, None, length, slice_get, IfOk, map};
ghost use Rattle.lp_driver.specs.DriverState.{last_of};
ghost use Rattle.lp_machine.specs.TablesView.{tables_of};
ghost use Rattle.lp_machine.specs.ExpectedList.{has_action, names_with_action, verdict, verdict_by, verdict_by_rule, reduced_stack};

use crate::compiled::Compiled;
use crate::lists::{none, push, top, under};
use crate::lookup::{Act, Rule};
use crate::terms::copied_text;
use lp_repr::text::{Items, Text};
use std::alloc::AllocError;

/// What a look at a trial's stack says.
#[derive(Drop)]
pub enum Verdict {
    Yes,
    No,
    /// A reduction leads to this stack.
    GoesOn(Items<usize>),
}

fn has_action(act: Act) -> bool
    ensures { result ≡ has_action act }
{
    match act {
        Act::NoAction => false,
        Act::Shift(_) | Act::ReduceBy(_) => true,
    }
}

// A reduction takes its states off and pushes the goto.
fn reduced_stack(tables: &Compiled, stack: &[usize], rule: Rule) -> Result<Verdict, AllocError>
    ensures { IfOk result (λ v. v ≡ reduced_stack (tables_of tables.now) stack.now rule) }
{
    let keep = under(stack, rule.length);
    match tables.goto_from(top(keep), rule.nonterminal) {
        None => Ok(Verdict::No),
        Some(to) => {
            let mut next = Items(Vec::from_slice(tables.alloc, keep)?);
            push(&mut next, to)?;
            Ok(Verdict::GoesOn(next))
        }
    }
}

// The start's reduction says yes.
fn verdict_by_rule(
    tables: &Compiled,
    stack: &[usize],
    rule: Option<Rule>,
) -> Result<Verdict, AllocError>
    ensures { IfOk result (λ v. v ≡ verdict_by_rule (tables_of tables.now) stack.now rule) }
{
    match rule {
        None => Ok(Verdict::No),
        Some(rule) => {
            if rule.is_start {
                Ok(Verdict::Yes)
            } else {
                reduced_stack(tables, stack, rule)
            }
        }
    }
}

/// One look of a trial at its stack, for a terminal or the end of input.
pub fn verdict_on(
    tables: &Compiled,
    stack: &[usize],
    terminal: Option<usize>,
) -> Result<Verdict, AllocError>
    ensures { IfOk result (λ v. v ≡ verdict (tables_of tables.now) stack.now terminal) }
{
    match tables.action_on(top(stack), terminal) {
        Act::NoAction => Ok(Verdict::No),
        Act::Shift(_) => Ok(Verdict::Yes),
        Act::ReduceBy(p) => verdict_by_rule(tables, stack, tables.rule(p)),
    }
}

/// The names of the terminals that have an action in a state.
pub fn names_with_action(tables: &Compiled, state: Option<usize>) -> Result<Items<Text>, AllocError>
    ensures { IfOk result (λ l. l ≡ names_with_action (tables_of tables.now) state 0 (tables_of tables.now).names) }
{
    let mut names = none(tables.alloc);
    for (i, terminal) in tables.terminals.iter().enumerate() {
        if has_action(tables.action_on(state, Some(i))) {
            push(&mut names, copied_text(&terminal.name)?)?;
        }
    }
    Ok(names)
}
