//! Recursive ascent: the `parse` method, and moves to other states.

ghost use Rattle.std.specs.Prelude.{◌≡◌, ◌+◌, ◌<◌, ◌^◌, IfOk, OnOk};
ghost use Rattle.std.specs.Option.{option_map};
ghost use Rattle.lp_view.specs.PartLists.{listed};
ghost use Rattle.lp_maker.specs.Making.{making};
ghost use Rattle.lp_maker.specs.Slots.{after_slots};
ghost use Rattle.lp_bodies.specs.Lines.{lines_of};
ghost use Rattle.lp_bodies.specs.Reductions.{done_of};
ghost use Rattle.lp_ascent_bodies.specs.AscentReductions.{give_made, take_line};
ghost use Rattle.lp_ascent_bodies.specs.AscentStarts.{source_triple, source_error, item_value, next_token, after_token, token_line, start_lines, lookahead_slot, states_slot, first_call, start_value, started, start_answer, start_end, start};
ghost use Rattle.lp_ascent_bodies.specs.AscentMoves.{slot_line, take_row, take_rows, push_state, state_call, call_state, transition, found_transition};

use crate::ascent_reduce::returns;
pub use crate::ascent_state::state_fn;
use lp_bodies::lines::push_let;
use lp_core::{Expr, Join, Leaf, Op, StateType, Tag, Test};
use lp_form::Part;
use lp_maker::forms::{Form, is_a};
use lp_maker::maker::{Maker, here};
use lp_maker::scope::Scope;
use lp_maker::texts::{numbered, wide_number};
use std::alloc::AllocError;

/// `match ~tokens.next() { .. }`: the next token, where an error of the token source is returned.
pub fn next_token<'p>(maker: &Maker<'p>, scope: &mut Scope) -> Result<Expr, AllocError>
    ensures value { IfOk result (λ v. v ≡ next_token (making maker.now) scope.old) }
    ensures names { OnOk result (scope.new ≡ after_token scope.old) }
{
    let item = scope.fresh_many(2)?;
    let inside = item_value(maker, item, item + 1)?;
    maker.on_option(Expr::plain(Leaf::NextItem), item, maker.absent(), inside)
}

// The item in a slot as a triple, or the return of its fault.
fn item_value<'p>(maker: &Maker<'p>, item: usize, token: usize) -> Result<Expr, AllocError>
    ensures { IfOk result (λ v. v ≡ item_value (making maker.now).item_closure item token) }
{
    let triple = source_triple(maker, item)?;
    let error = source_error(maker, token)?;
    let some = maker.apply(Op::Wrap(Tag::Present), Expr::take(token))?;
    let bad = maker.apply(Op::Wrap(Tag::Failure), error)?;
    let back = maker.give_back(bad)?;
    maker.on_result(triple, token, some, back)
}

fn source_triple<'p>(maker: &Maker<'p>, item: usize) -> Result<Expr, AllocError>
    ensures { IfOk result (λ v. v ≡ source_triple (making maker.now).item_closure item) }
{
    match maker.item_closure {
        None => Ok(Expr::take(item)),
        Some(closure) => {
            let args = vec![in maker.alloc; Expr::take(item)]?;
            Ok(Expr::call(closure, args))
        }
    }
}

fn source_error<'p>(maker: &Maker<'p>, token: usize) -> Result<Expr, AllocError>
    ensures { IfOk result (λ v. v ≡ source_error (making maker.now).item_closure token) }
{
    match maker.item_closure {
        None => maker.apply(Op::UserError, Expr::take(token)),
        Some(_) => Ok(Expr::take(token)),
    }
}

/// The body of `parse`.
pub fn start<'p>(
    maker: &mut Maker<'p>,
    scope: &mut Scope,
    form: Form<'p>,
) -> Result<Expr, AllocError>
    ensures { IfOk result (λ v. done_of v scope.new (making maker.new) ≡ start (making maker.old) scope.old (listed form.entry)) }
{
    let mut parts = Vec::new(maker.alloc);
    let slots = start_lines(maker, scope, &mut parts)?;
    let answer = start_answer(maker, scope, form, slots.0, slots.1)?;
    let last = start_end(maker, scope, form, answer)?;
    parts.push(last)?;
    Ok(Expr::block(parts))
}

// The lookahead and the states, and their slots.
fn start_lines<'p>(
    maker: &Maker<'p>,
    scope: &mut Scope,
    parts: &mut Vec<Expr>,
) -> Result<(usize, usize), AllocError>
    ensures lookahead { IfOk result (λ slots. slots.0 ≡ lookahead_slot scope.old) }
    ensures states { IfOk result (λ slots. slots.1 ≡ states_slot scope.old) }
    ensures lines { OnOk result (lines_of scope.new parts.new.items ≡ start_lines (making maker.now) (lines_of scope.old parts.old.items)) }
{
    let lookahead = token_line(maker, scope, parts)?;
    let list = Expr::plain(Leaf::NewStates);
    let states = push_let(maker, scope, "~states", "", list, parts)?;
    Ok((lookahead, states))
}

/// `let ~lookahead = ..;`, and the slot of the lookahead.
pub fn token_line<'p>(
    maker: &Maker<'p>,
    scope: &mut Scope,
    parts: &mut Vec<Expr>,
) -> Result<usize, AllocError>
    ensures slot { IfOk result (λ slot. slot ≡ lookahead_slot scope.old) }
    ensures lines { OnOk result (lines_of scope.new parts.new.items ≡ token_line (making maker.now) (lines_of scope.old parts.old.items)) }
{
    let token = next_token(maker, scope)?;
    push_let(maker, scope, "~lookahead", "", token, parts)
}

// What the first state answers, or the return of its error.
fn start_answer<'p>(
    maker: &Maker<'p>,
    scope: &mut Scope,
    form: Form<'p>,
    lookahead: usize,
    list: usize,
) -> Result<Expr, AllocError>
    ensures value { IfOk result (λ v. v ≡ start_answer (making maker.now) (listed form.entry) scope.old lookahead list) }
    ensures names { OnOk result (scope.new ≡ after_slots 1 scope.old) }
{
    let call = first_call(maker, scope, form, lookahead, list)?;
    maker.tried(scope, call)
}

// What is done with the answer of the first state.
fn start_end<'p>(
    maker: &mut Maker<'p>,
    scope: &mut Scope,
    form: Form<'p>,
    answer: Expr,
) -> Result<Expr, AllocError>
    ensures { IfOk result (λ v. done_of v scope.new (making maker.new) ≡ start_end (making maker.old) (listed form.entry) scope.old answer) }
{
    let left = scope.fresh_many(2)?;
    let variant = maker.variant(form.hole(3))?;
    started(maker, variant, left, answer)
}

// The call of the first state.
fn first_call<'p>(
    maker: &Maker<'p>,
    scope: &Scope,
    form: Form<'p>,
    lookahead: usize,
    list: usize,
) -> Result<Expr, AllocError>
    ensures { IfOk result (λ v. v ≡ first_call (making maker.now) (listed form.entry) scope.now lookahead list) }
{
    let mut args = Vec::new(maker.alloc);
    maker.arguments(scope, form.hole(1), &mut args)?;
    args.push(Expr::plain(Leaf::Empty(Tag::Tuple)))?;
    args.push(Expr::read(list))?;
    args.push(Expr::read(lookahead))?;
    maker.call("state", "0", args)
}

// Answers by what is left and what was made: a token that is left is an error.
fn started<'p>(
    maker: &Maker<'p>,
    variant: Tag,
    left: usize,
    answer: Expr,
) -> Result<Expr, AllocError>
    requires { left + 1 < 2 ^ 64 }
    ensures { IfOk result (λ v. v ≡ started variant left answer) }
{
    let unpacked = maker.apply(Op::Parts(left, 2), answer)?;
    let error = maker.apply(Op::ExtraToken, Expr::take(left))?;
    let extra = maker.apply(Op::Wrap(Tag::Failure), error)?;
    let value = start_value(maker, variant, left + 1)?;
    let choice = maker.on_option(Expr::take(left), left, value, extra)?;
    Ok(Expr::block(vec![in maker.alloc; unpacked, choice]?))
}

// What was made, if it is the start's.
fn start_value<'p>(maker: &Maker<'p>, variant: Tag, made: usize) -> Result<Expr, AllocError>
    ensures { IfOk result (λ v. v ≡ start_value variant made) }
{
    let triple = maker.apply(Op::Part(1), Expr::take(made))?;
    let triple = maker.opened(made, triple)?;
    let good = maker.apply(Op::Wrap(Tag::Success), triple)?;
    let cases = vec![in maker.alloc; here(Test::Is(variant), 0)]?;
    let bodies = vec![in maker.alloc; good, Expr::stuck()]?;
    Expr::select(maker.alloc, Expr::take(made), made, cases, bodies)
}

/// What all lines of a state function share.
#[derive(Clone, Copy)]
pub struct Lines {
    /// The slot of the lookahead; `usize::MAX` where no name stands for it.
    pub lookahead: usize,
    /// The slot of what is returned.
    pub made: usize,
    /// The state type of the list of states; none where the header has no list of a state type.
    pub kind: Option<StateType>,
}

/// `return Ok(~result);`.
pub fn give_made<'p>(maker: &Maker<'p>, lines: Lines) -> Result<Expr, AllocError>
    ensures { IfOk result (λ v. v ≡ give_made lines) }
{
    let good = maker.apply(Op::Wrap(Tag::Success), Expr::read(lines.made))?;
    maker.give_back(good)
}

/// `let ~symj = &mut Some(~symj);`.
pub fn slot_line<'p>(
    maker: &Maker<'p>,
    scope: &mut Scope,
    line: Form<'p>,
    parts: &mut Vec<Expr>,
) -> Result<(), AllocError>
    ensures { OnOk result (lines_of scope.new parts.new.items ≡ slot_line (listed line.entry) (lines_of scope.old parts.old.items)) }
{
    let name = numbered(maker.alloc, "~sym", line.hole(0))?;
    let cell = maker.apply(Op::NewCell, maker.name(scope, name.as_str()))?;
    push_let(maker, scope, "~sym", line.hole(0), cell, parts)?;
    Ok(())
}

/// `let ~symj = ~symj.take().unwrap();`.
pub fn take_line<'p>(
    maker: &Maker<'p>,
    scope: &mut Scope,
    line: Form<'p>,
    parts: &mut Vec<Expr>,
) -> Result<(), AllocError>
    ensures { OnOk result (lines_of scope.new parts.new.items ≡ take_line (listed line.entry) (lines_of scope.old parts.old.items)) }
{
    let name = numbered(maker.alloc, "~sym", line.hole(0))?;
    let taken = maker.apply(Op::TakeOut, maker.name(scope, name.as_str()))?;
    push_let(maker, scope, "~sym", line.hole(0), taken, parts)?;
    Ok(())
}

// The move to another state, and back.
fn transition<'p>(
    maker: &Maker<'p>,
    scope: &mut Scope,
    lines: Lines,
    form: Form<'p>,
    parts: &mut Vec<Expr>,
) -> Result<(), AllocError>
    ensures { OnOk result (lines_of scope.new parts.new.items ≡ transition (making maker.now) lines (listed form.entry) (lines_of scope.old parts.old.items)) }
{
    take_rows(maker, scope, form, parts)?;
    push_state(maker, scope, lines, form, parts)?;
    call_state(maker, scope, lines, form, parts)?;
    if returns(form) {
        let back = give_made(maker, lines)?;
        parts.push(back)?;
        Ok(())
    } else {
        Ok(())
    }
}

// The slots that a transition takes out.
fn take_rows<'p>(
    maker: &Maker<'p>,
    scope: &mut Scope,
    form: Form<'p>,
    parts: &mut Vec<Expr>,
) -> Result<(), AllocError>
    ensures { OnOk result (lines_of scope.new parts.new.items ≡ take_rows (listed form.entry) (lines_of scope.old parts.old.items)) }
{
    for line in form.parts() {
        take_row(maker, scope, line, parts)?;
    }
    Ok(())
}

fn take_row<'p>(
    maker: &Maker<'p>,
    scope: &mut Scope,
    line: Form<'p>,
    parts: &mut Vec<Expr>,
) -> Result<(), AllocError>
    ensures { OnOk result (lines_of scope.new parts.new.items ≡ take_row (lines_of scope.old parts.old.items) (listed line.entry)) }
{
    if is_a(Part::TakeLine, line) {
        take_line(maker, scope, line, parts)
    } else {
        Ok(())
    }
}

// `~states.push(n);`.
fn push_state<'p>(
    maker: &Maker<'p>,
    scope: &Scope,
    lines: Lines,
    form: Form<'p>,
    parts: &mut Vec<Expr>,
) -> Result<(), AllocError>
    ensures { OnOk result (lines_of scope.now parts.new.items ≡ push_state lines (listed form.entry) (lines_of scope.now parts.old.items)) }
{
    let target = maker.state(lines.kind, wide_number(form.hole(0)));
    let pushed = maker.pair(Join::Push, maker.name(scope, "~states"), target)?;
    parts.push(pushed)?;
    Ok(())
}

// `~result = ~stateN(..)?; ~states.pop();`.
fn call_state<'p>(
    maker: &Maker<'p>,
    scope: &mut Scope,
    lines: Lines,
    form: Form<'p>,
    parts: &mut Vec<Expr>,
) -> Result<(), AllocError>
    ensures { OnOk result (lines_of scope.new parts.new.items ≡ call_state (making maker.now) lines (listed form.entry) (lines_of scope.old parts.old.items)) }
{
    let call = state_call(maker, scope, form)?;
    let answer = maker.tried(scope, call)?;
    let written = maker.write(lines.made, answer)?;
    parts.push(written)?;
    let shorter = maker.apply(Op::Shorten, maker.name(scope, "~states"))?;
    parts.push(shorter)?;
    Ok(())
}

// The call of a state's function.
fn state_call<'p>(maker: &Maker<'p>, scope: &Scope, form: Form<'p>) -> Result<Expr, AllocError>
    ensures { IfOk result (λ v. v ≡ state_call (making maker.now) (listed form.entry) scope.now) }
{
    let mut args = Vec::new(maker.alloc);
    maker.arguments(scope, form.hole(1), &mut args)?;
    args.push(maker.name(scope, "~tokens"))?;
    args.push(maker.name(scope, "~states"))?;
    maker.arguments(scope, form.hole(2), &mut args)?;
    maker.call("state", form.hole(0), args)
}

/// The transition below a form, if it is there.
pub fn found_transition<'p>(
    maker: &Maker<'p>,
    scope: &mut Scope,
    lines: Lines,
    form: Option<Form<'p>>,
    parts: &mut Vec<Expr>,
) -> Result<(), AllocError>
    ensures { OnOk result (lines_of scope.new parts.new.items ≡ found_transition (making maker.now) lines (option_map listed form.entry) (lines_of scope.old parts.old.items)) }
{
    match form {
        None => {
            parts.push(Expr::stuck())?;
            Ok(())
        }
        Some(form) => transition(maker, scope, lines, form, parts),
    }
}
