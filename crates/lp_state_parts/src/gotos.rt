//! The goto function of one nonterminal: states by target, as ranges, with a catch-all.

ghost use Rattle.std.specs.Prelude.{◌≡◌, ◌+◌, ◌<◌, ◌≤◌, ◌∷◌, [], length, IfErr, IfOk, IfSome, ℕ, OnOk, slice_index, vec_len};
ghost use Rattle.std.specs.Prelude.{◌==◌};
ghost use Rattle.std.specs.List.{insert};
ghost use Rattle.lp_state_parts.specs.GotoLaw.{IsGotosOf, answer, goto_at};
ghost use Rattle.lp_state_parts.specs.GotoPlaces.{IsPlaceFor, IsPlaceOf};
ghost use Rattle.lp_state_parts.specs.Gotos.{IsCatchAll, arms_of, column_from, grow, one_state_range, range_counts, with_state};

use lp_repr::{Items, Lr1State};
use std::alloc::{AllocError, Global};

/// Consecutive states, both ends among them.
#[derive(Clone, Copy)]
pub struct StateRange {
    pub first: usize,
    pub last: usize,
}

/// The states that go to one target, in ascending order.
#[derive(Drop)]
pub struct GotoArm {
    pub target: usize,
    pub ranges: Items<StateRange>,
}

/// What the goto function does on a nonterminal.
#[derive(Drop)]
pub enum Gotos {
    /// No state has a goto on it.
    Nowhere,
    /// All its gotos have one target.
    One { target: usize },
    /// The targets with their states, and the target that all other states have.
    Several { arms: Items<GotoArm>, other: usize },
}

/// The gotos on a nonterminal. The target with the most ranges, the least on ties, stands for all
/// states that no arm has, so that the answer is the goto of each state that has one.
pub fn gotos_on(alloc: Global, nonterminal: usize, states: &[Lr1State]) -> Result<Gotos, AllocError>
    ensures arms { IfOk result (IsGotosOf (arms_of (column_from nonterminal 0 states.now))) }
    ensures faithful { IfOk result (λ g. (i : ℕ) → IfSome (goto_at states.now nonterminal i) (λ t. answer g i ≡ t)) }
{
    let column = goto_column(alloc, nonterminal, states)?;
    let arms = goto_arms(alloc, column.as_slice())?;
    Ok(with_catch_all(arms))
}

/// The gotos that the arms tell.
fn with_catch_all(arms: Vec<GotoArm>) -> Gotos
    ensures { IsGotosOf arms.items result }
{
    if arms.len() > 1 {
        return several(arms);
    }
    match arms.first() {
        None => Gotos::Nowhere,
        Some(arm) => Gotos::One { target: arm.target },
    }
}

/// The arms with one of them as the catch-all.
fn several(mut arms: Vec<GotoArm>) -> Gotos
    requires { 1 < length arms.items }
    ensures { IsGotosOf arms.items result }
{
    let place = catch_all(arms.as_slice());
    let other = arms.remove(place).target;
    let arms = Items(arms);
    Gotos::Several { arms, other }
}

/// The states that have a goto on the nonterminal, each with its target, in ascending order.
fn goto_column(
    alloc: Global,
    nonterminal: usize,
    states: &[Lr1State],
) -> Result<Vec<(usize, usize)>, AllocError>
    ensures { IfOk result (λ v. v.items ≡ column_from nonterminal 0 states.now) }
{
    let mut column = Vec::new(alloc);
    for (number, state) in states.iter().enumerate() {
        if let Some(target) = state.gotos.get(&nonterminal) {
            column.push((number, *target))?;
        }
    }
    Ok(column)
}

/// One arm per target, in ascending order of targets, with its states in as few ranges as can be.
/// The column is in ascending order of states.
fn goto_arms(alloc: Global, column: &[(usize, usize)]) -> Result<Vec<GotoArm>, AllocError>
    ensures { IfOk result (λ v. v.items ≡ arms_of column.now) }
{
    let mut arms = Vec::new(alloc);
    let mut place = column.len();
    while place > 0 {
        place -= 1;
        let (state, target) = column[place];
        add_state(alloc, &mut arms, state, target)?;
    }
    Ok(arms)
}

/// Adds a state that comes before all of the arms.
fn add_state(
    alloc: Global,
    arms: &mut Vec<GotoArm>,
    state: usize,
    target: usize,
) -> Result<(), AllocError>
    ensures { OnOk result (arms.new.items ≡ with_state state target arms.old.items) }
{
    match place_of(arms.as_slice(), target) {
        Ok(place) => {
            grow_arm(&mut arms[place], state)?;
            Ok(())
        }
        Err(place) => {
            insert_arm(alloc, arms, place, state, target)?;
            Ok(())
        }
    }
}

/// The place of the arm with a target, or that of the first arm with a greater one.
fn place_of(arms: &[GotoArm], target: usize) -> Result<usize, usize>
    ensures found { IfOk result (IsPlaceOf arms.now target) }
    ensures missing { IfErr result (IsPlaceFor arms.now target) }
{
    for (place, arm) in arms.iter().enumerate() {
        if arm.target == target {
            return Ok(place);
        }
        if arm.target > target {
            return Err(place);
        }
    }
    Err(arms.len())
}

/// Adds a state that comes before all of an arm.
fn grow_arm(arm: &mut GotoArm, state: usize) -> Result<(), AllocError>
    ensures { OnOk result (arm.new ≡ record { target = arm.old.target; ranges = grow state arm.old.ranges }) }
{
    grow_ranges(&mut arm.ranges.0, state)
}

/// Puts in an arm of one state.
fn insert_arm(
    alloc: Global,
    arms: &mut Vec<GotoArm>,
    place: usize,
    state: usize,
    target: usize,
) -> Result<(), AllocError>
    requires { place ≤ vec_len arms.old }
    ensures { OnOk result (arms.new.items
        ≡ insert arms.old.items place (record { target = target; ranges = one_state_range state ∷ [] })) }
{
    let ranges = Items(vec![in alloc; one_state(state)]?);
    arms.insert(place, GotoArm { target, ranges })?;
    Ok(())
}

fn one_state(state: usize) -> StateRange
    ensures { result ≡ one_state_range state }
{
    StateRange {
        first: state,
        last: state,
    }
}

/// Adds a state that comes before all of the ranges.
fn grow_ranges(ranges: &mut Vec<StateRange>, state: usize) -> Result<(), AllocError>
    ensures { OnOk result (ranges.new.items ≡ grow state ranges.old.items) }
{
    if !ranges.is_empty() && comes_next(state, ranges[0].first) {
        let last = ranges[0].last;
        ranges[0] = StateRange { first: state, last };
    } else {
        ranges.insert(0, one_state(state))?;
    }
    Ok(())
}

/// A number is the one after another.
fn comes_next(number: usize, next: usize) -> bool
    ensures { result ≡ (next == number + 1) }
{
    next > number && next - number == 1
}

/// The place of the arm that stands as the catch-all: the first with the most ranges.
fn catch_all(arms: &[GotoArm]) -> usize
    requires { 0 < length arms.now }
    ensures { IsCatchAll (range_counts arms.now) result }
{
    let mut best = 0;
    let mut most = range_count(arms, 0);
    for place in 0..arms.len() {
        let count = range_count(arms, place);
        if count > most {
            best = place;
            most = count;
        }
    }
    best
}

/// How many ranges an arm has.
fn range_count(arms: &[GotoArm], place: usize) -> usize
    requires { place < length arms.now }
    ensures { result ≡ slice_index (range_counts arms.now) place }
{
    arms[place].ranges.as_slice().len()
}
