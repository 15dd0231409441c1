//! What a reduction would do, and whether a stack of states accepts a token.

ghost use Rattle.std.specs.Prelude.{◌≡◌, ◌+◌, ◌<◌, ◌^◌, ◌++◌, IfOk, OnOk};
ghost use Rattle.lp_view.specs.PartLists.{listed};
ghost use Rattle.lp_maker.specs.Making.{making};
ghost use Rattle.lp_bodies.specs.Arms.{gathered};
ghost use Rattle.lp_bodies.specs.Trials.{is_simulated, simulated, simulate_row, simulate_rows, simulate_function, answer_if, production_of, state_at, last_state, eof_entry, simulated_parts, goto_lines, trial_entry, simulated_call, trial_turn, accepts_under, accepts_function};

use crate::arms::Arms;
use crate::reduce::slice_type;
use lp_core::{Expr, Function, Join, Leaf, Op, StateType, Tag};
use lp_form::Part;
use lp_maker::forms::{Form, is_a};
use lp_maker::maker::Maker;
use lp_maker::scope::Scope;
use lp_maker::texts::number;
use std::alloc::AllocError;

/// What a reduction would do.
pub fn simulate_reduce<'p>(maker: &Maker<'p>, form: Form<'p>) -> Result<Function, AllocError>
    ensures { IfOk result (λ f. f ≡ simulate_function (making maker.now).prefix (listed form.entry)) }
{
    let arms = simulate_rows(maker, form)?;
    let index = maker.name(&arms.scope, "~reduce_index");
    arms.finish(maker, index, Expr::stuck())
}

fn simulate_rows<'p>(maker: &Maker<'p>, form: Form<'p>) -> Result<Arms, AllocError>
    ensures { IfOk result (λ arms. gathered arms ≡ simulate_rows (making maker.now).prefix (listed form.entry)) }
{
    let mut arms = Arms::new(maker.alloc);
    for row in form.parts() {
        simulate_row(maker, &mut arms, row)?;
    }
    Ok(arms)
}

fn is_simulated(row: Form<'_>) -> bool
    ensures { result ≡ is_simulated (listed row.entry) }
{
    is_a(Part::SimulateAccept, row) || is_a(Part::SimulateArm, row)
}

// A row is an arm, or the header.
fn simulate_row<'p>(maker: &Maker<'p>, arms: &mut Arms, row: Form<'p>) -> Result<(), AllocError>
    ensures { OnOk result (gathered arms.new ≡ simulate_row (making maker.now).prefix (gathered arms.old) (listed row.entry)) }
{
    if is_simulated(row) {
        arms.number_case(row.hole(0))?;
        let body = simulated(maker, row)?;
        arms.body(body)
    } else {
        arms.header(maker, row)
    }
}

// What an arm answers: that the start is accepted, or how many states go and the nonterminal.
fn simulated<'p>(maker: &Maker<'p>, row: Form<'p>) -> Result<Expr, AllocError>
    ensures { IfOk result (λ v. v ≡ simulated (listed row.entry)) }
{
    if is_a(Part::SimulateAccept, row) {
        Ok(Expr::plain(Leaf::Empty(Tag::Accept)))
    } else {
        let pop = maker.index(number(row.hole(1)));
        let nonterminal = maker.index(number(row.hole(2)));
        maker.pair(Join::Make(Tag::Reduce), pop, nonterminal)
    }
}

/// Returns a truth value where a test holds.
pub fn answer_if<'p>(
    maker: &Maker<'p>,
    test: Op,
    slot: usize,
    answer: bool,
) -> Result<Expr, AllocError>
    ensures { IfOk result (λ v. v ≡ answer_if test slot answer) }
{
    let test = maker.apply(test, Expr::read(slot))?;
    let back = maker.give_back(Expr::plain(Leaf::Bool(answer)))?;
    Expr::choose(
        maker.alloc,
        test,
        back,
        Expr::plain(Leaf::Empty(Tag::Tuple)),
    )
}

/// `-(~action + 1)`.
pub fn production_of<'p>(maker: &Maker<'p>, action: usize) -> Result<Expr, AllocError>
    ensures { IfOk result (λ v. v ≡ production_of action) }
{
    let next = maker.apply(Op::Successor, Expr::read(action))?;
    maker.apply(Op::Negate, next)
}

/// A state of a list, by an index, where the state type is one.
pub fn state_at<'p>(
    maker: &Maker<'p>,
    kind: Option<StateType>,
    states: usize,
    index: Expr,
) -> Result<Expr, AllocError>
    ensures { IfOk result (λ v. v ≡ state_at kind states index) }
{
    match kind {
        None => Ok(Expr::stuck()),
        Some(kind) => maker.pair(Join::StateAt(kind), Expr::read(states), index),
    }
}

// The state below the end of a list whose length stands in a slot.
fn last_state<'p>(
    maker: &Maker<'p>,
    kind: Option<StateType>,
    states: usize,
    length: usize,
) -> Result<Expr, AllocError>
    ensures { IfOk result (λ v. v ≡ last_state kind states length) }
{
    let last = maker.apply(Op::Predecessor, Expr::read(length))?;
    state_at(maker, kind, states, last)
}

/// `~EOF_ACTION[state as usize]`.
pub fn eof_entry<'p>(maker: &Maker<'p>, state: Expr) -> Result<Expr, AllocError>
    ensures { IfOk result (λ v. v ≡ eof_entry (making maker.now) state) }
{
    let place = maker.apply(Op::AsIndex, state)?;
    maker.apply(Op::Entry(maker.eof_table), place)
}

/// Whether a stack of states accepts a token.
pub fn accepts<'p>(maker: &Maker<'p>, header: Form<'p>) -> Result<Function, AllocError>
    ensures { IfOk result (λ f. f ≡ accepts_function (making maker.now) (listed header.entry)) }
{
    let scope = maker.parameters(header)?;
    accepts_under(maker, scope, slice_type(maker.prefix, header))
}

fn accepts_under<'p>(
    maker: &Maker<'p>,
    mut scope: Scope,
    kind: Option<StateType>,
) -> Result<Function, AllocError>
    ensures { IfOk result (λ f. f ≡ accepts_under (making maker.now) scope kind) }
{
    let params = scope.slots();
    let copy = maker.apply(Op::CopyStates, maker.name(&scope, "~states"))?;
    let states = scope.bind(maker.alloc, "~states")?;
    let copied = maker.write(states, copy)?;
    let extra = maker.name(&scope, "~error_state");
    let extended = maker.pair(Join::Extend, Expr::read(states), extra)?;
    let first = scope.fresh_many(8)?;
    let turn = trial_turn(maker, &scope, kind, states, first)?;
    let turns = Expr::repeat(maker.alloc, turn)?;
    let body = Expr::block(vec![in maker.alloc; copied, extended, turns]?);
    Ok(maker.function(params, &scope, body))
}

// One turn of a trial, whose first slot of eight is that of the length.
fn trial_turn<'p>(
    maker: &Maker<'p>,
    scope: &Scope,
    kind: Option<StateType>,
    states: usize,
    length: usize,
) -> Result<Expr, AllocError>
    requires { length + 8 < 2 ^ 64 }
    ensures { IfOk result (λ v. v ≡ trial_turn (making maker.now) scope.now kind states length) }
{
    let top = length + 1;
    let action = length + 2;
    let pop = length + 5;
    let measured = maker.apply(Op::Length, Expr::read(states))?;
    let measured = maker.write(length, measured)?;
    let last = last_state(maker, kind, states, length)?;
    let last = maker.write(top, last)?;
    let entry = trial_entry(maker, scope, top, length + 3)?;
    let entry = maker.write(action, entry)?;
    let refused = answer_if(maker, Op::IsZero, action, false)?;
    let shifted = answer_if(maker, Op::IsPositive, action, true)?;
    let simulated = simulated_call(maker, action)?;
    let opened = simulated_parts(maker, simulated, length + 4, pop)?;
    let less = maker.pair(Join::Subtract, Expr::read(length), Expr::read(pop))?;
    let less = maker.write(length, less)?;
    let cut = maker.pair(Join::Truncate, Expr::read(states), Expr::read(length))?;
    let mut parts = vec![in maker.alloc;
        measured, last, entry, refused, shifted, opened, less, cut,
    ]?;
    push_goto(
        maker,
        kind,
        states,
        length + 6,
        length,
        length + 7,
        &mut parts,
    )?;
    Ok(Expr::block(parts))
}

// The action on the token, or on the end of input.
fn trial_entry<'p>(
    maker: &Maker<'p>,
    scope: &Scope,
    top: usize,
    integer: usize,
) -> Result<Expr, AllocError>
    ensures { IfOk result (λ v. v ≡ trial_entry (making maker.now) scope.now top integer) }
{
    let given = maker.name(scope, "~opt_integer");
    let at_end = eof_entry(maker, Expr::read(top))?;
    let args = vec![in maker.alloc; Expr::read(top), Expr::read(integer)]?;
    let at_token = maker.call("action", "", args)?;
    maker.on_option(given, integer, at_end, at_token)
}

fn simulated_call<'p>(maker: &Maker<'p>, action: usize) -> Result<Expr, AllocError>
    ensures { IfOk result (λ v. v ≡ simulated_call (making maker.now) action) }
{
    let production = production_of(maker, action)?;
    maker.call("simulate_reduce", "", vec![in maker.alloc; production]?)
}

// The two parts of a simulated reduction; true is returned where it accepts.
fn simulated_parts<'p>(
    maker: &Maker<'p>,
    simulated: Expr,
    slot: usize,
    pop: usize,
) -> Result<Expr, AllocError>
    ensures { IfOk result (λ v. v ≡ simulated_parts simulated slot pop) }
{
    let back = maker.give_back(Expr::plain(Leaf::Bool(true)))?;
    let open = maker.apply(Op::Parts(pop, 2), Expr::take(slot))?;
    maker.on_tags(simulated, slot, (Tag::Accept, back), (Tag::Reduce, open))
}

// Pushes the goto of the state below the place where the list was cut.
fn push_goto<'p>(
    maker: &Maker<'p>,
    kind: Option<StateType>,
    states: usize,
    nonterminal: usize,
    length: usize,
    top: usize,
    parts: &mut Vec<Expr>,
) -> Result<(), AllocError>
    ensures { OnOk result (parts.new.items ≡ parts.old.items ++ goto_lines (making maker.now) kind states nonterminal length top) }
{
    let last = last_state(maker, kind, states, length)?;
    parts.push(maker.write(top, last)?)?;
    let args = vec![in maker.alloc; Expr::read(top), Expr::read(nonterminal)]?;
    let next = maker.call("goto", "", args)?;
    parts.push(maker.pair(Join::Push, Expr::read(states), next)?)?;
    Ok(())
}
