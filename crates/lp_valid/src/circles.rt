//! Whether an inline runs itself.

ghost use Rattle.std.specs.Prelude.{◌≡◌, ℕ, ◌+◌, ◌<◌, ◌↔◌, [], ◌∷◌, not, length, position, count_by, vec_len, IfOk, OnOk, IsTrue, nat_lt};
ghost use Rattle.std.specs.List.{list_all, flat_map};
ghost use Rattle.lp_valid.specs.InlineRules.{part_runs, kind_runs, RunsLesser, Reaches, kind_has_symbol, InlineIsSound};
ghost use Rattle.lp_valid.specs.Places.{IsFirstFailing};
ghost use Rattle.lp_valid.specs.Walk.{Marks};

use crate::declared::least;
use lp_repr::repr::{ActionFnDefn, ActionFnDefnKind, InlinedSymbol};
use std::alloc::{AllocError, Global};

/// The first inline that has no symbol or reaches itself.
pub(crate) fn failing_inline(
    alloc: Global,
    actions: &[ActionFnDefn],
) -> Result<Option<usize>, AllocError>
    ensures { IfOk result (IsFirstFailing (InlineIsSound actions.now)) }
{
    let circle = first_circle(alloc, actions)?;
    Ok(least(first_empty(actions), circle))
}

fn first_empty(actions: &[ActionFnDefn]) -> Option<usize>
    ensures { result ≡ position (λ a. not (kind_has_symbol a.kind)) actions.now }
{
    actions.iter().position(|a| !has_symbol(&a.kind))
}

fn has_symbol(kind: &ActionFnDefnKind) -> bool
    ensures { result ≡ kind_has_symbol kind.now }
{
    match kind {
        ActionFnDefnKind::User { .. } => true,
        ActionFnDefnKind::Lookaround(_) => true,
        ActionFnDefnKind::Inline { symbols, .. } => !symbols.as_slice().is_empty(),
    }
}

/// The first action that reaches itself. Where all actions run lesser ones alone, as in a lowered
/// grammar, none does.
fn first_circle(alloc: Global, actions: &[ActionFnDefn]) -> Result<Option<usize>, AllocError>
    ensures { IfOk result (IsFirstFailing (λ place. ¬ Reaches actions.now place place)) }
{
    if all_run_lesser(actions) {
        return Ok(None);
    }
    for place in 0..actions.len() {
        if reaches_itself(alloc, actions, place)? {
            return Ok(Some(place));
        }
    }
    Ok(None)
}

fn all_run_lesser(actions: &[ActionFnDefn]) -> bool
    ensures { IsTrue result → (place : ℕ) → RunsLesser actions.now place }
{
    for (place, action) in actions.iter().enumerate() {
        if !runs_lesser(&action.kind, place) {
            return false;
        }
    }
    true
}

fn runs_lesser(kind: &ActionFnDefnKind, number: usize) -> bool
    ensures { result ≡ list_all (λ b. nat_lt b number) (kind_runs kind.now) }
{
    match kind {
        ActionFnDefnKind::User { .. } => true,
        ActionFnDefnKind::Lookaround(_) => true,
        ActionFnDefnKind::Inline { action, symbols } => {
            *action < number && parts_run_lesser(symbols.as_slice(), number)
        }
    }
}

fn parts_run_lesser(parts: &[InlinedSymbol], number: usize) -> bool
    ensures { result ≡ list_all (λ s. list_all (λ b. nat_lt b number) (part_runs s)) parts.now }
{
    parts.iter().all(|s| part_runs_lesser(s, number))
}

fn part_runs_lesser(part: &InlinedSymbol, number: usize) -> bool
    ensures { result ≡ list_all (λ b. nat_lt b number) (part_runs part.now) }
{
    match part {
        InlinedSymbol::Original(_) => true,
        InlinedSymbol::Inlined(action, _) => *action < number,
    }
}

/// Actions that were reached, and those of them whose own parts are still to be looked at.
#[derive(Drop)]
struct Reached {
    reached: Vec<bool>,
    work: Vec<usize>,
}

impl Reached {
    fn reach(&mut self, action: usize) -> Result<(), AllocError>
        ensures marks { OnOk result (Marks self.old self.new (action ∷ [])) }
        ensures count { OnOk result (count_by not self.new.reached.items + vec_len self.new.work
            ≡ count_by not self.old.reached.items + vec_len self.old.work) }
    {
        if action < self.reached.len() && !self.reached[action] {
            self.reached[action] = true;
            self.work.push(action)?;
        }
        Ok(())
    }

    /// Reaches the outer action and the parts.
    fn reach_from(&mut self, kind: &ActionFnDefnKind) -> Result<(), AllocError>
        ensures marks { OnOk result (Marks self.old self.new (kind_runs kind.entry.now)) }
        ensures count { OnOk result (count_by not self.new.reached.items + vec_len self.new.work
            ≡ count_by not self.old.reached.items + vec_len self.old.work) }
    {
        match kind {
            ActionFnDefnKind::User { .. } => Ok(()),
            ActionFnDefnKind::Lookaround(_) => Ok(()),
            ActionFnDefnKind::Inline { action, symbols } => {
                self.reach(*action)?;
                self.reach_parts(symbols.as_slice())
            }
        }
    }

    fn reach_parts(&mut self, parts: &[InlinedSymbol]) -> Result<(), AllocError>
        ensures marks { OnOk result (Marks self.old self.new (flat_map part_runs parts.entry.now)) }
        ensures count { OnOk result (count_by not self.new.reached.items + vec_len self.new.work
            ≡ count_by not self.old.reached.items + vec_len self.old.work) }
    {
        for part in parts {
            self.reach_part(part)?;
        }
        Ok(())
    }

    fn reach_part(&mut self, part: &InlinedSymbol) -> Result<(), AllocError>
        ensures marks { OnOk result (Marks self.old self.new (part_runs part.entry.now)) }
        ensures count { OnOk result (count_by not self.new.reached.items + vec_len self.new.work
            ≡ count_by not self.old.reached.items + vec_len self.old.work) }
    {
        match part {
            InlinedSymbol::Original(_) => Ok(()),
            InlinedSymbol::Inlined(action, _) => self.reach(*action),
        }
    }
}

/// Whether the action of this number reaches itself.
fn reaches_itself(
    alloc: Global,
    actions: &[ActionFnDefn],
    number: usize,
) -> Result<bool, AllocError>
    requires { number < length actions.now }
    ensures { IfOk result (λ b. IsTrue b ↔ Reaches actions.now number number) }
{
    let mut state = Reached {
        reached: vec![in alloc; false; actions.len()]?,
        work: Vec::new(alloc),
    };
    state.reach_from(&actions[number].kind)?;
    while let Some(reached) = state.work.pop() {
        if let Some(action) = actions.get(reached) {
            state.reach_from(&action.kind)?;
        }
    }
    Ok(state.reached[number])
}
