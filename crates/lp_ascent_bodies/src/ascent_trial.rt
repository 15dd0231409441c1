//! Recursive ascent: what a reduction would do, and whether a stack of states accepts a terminal.

ghost use Rattle.std.specs.Prelude.{◌≡◌, IfOk, OnOk};
ghost use Rattle.lp_view.specs.PartLists.{listed};
ghost use Rattle.lp_maker.specs.Making.{making};
ghost use Rattle.lp_bodies.specs.Arms.{gathered};
ghost use Rattle.lp_ascent_bodies.specs.AscentTrials.{ascent_answer, ascent_row, ascent_rows, ascent_simulate, ascent_expected, with_ascent_expected, last_state, simulated, ascent_turn, ascent_accepts};

use lp_bodies::arms::Arms;
use lp_bodies::source::function;
use lp_bodies::table::{choice_at, filtered, keeping};
use lp_bodies::trial::{answer_if, production_of, state_at};
use lp_core::{Expr, Function, Join, Leaf, Op, StateType, Tag};
use lp_form::Part;
use lp_maker::forms::{Form, is_a};
use lp_maker::maker::Maker;
use lp_maker::texts::{number, state_type};
use std::alloc::AllocError;

/// What a reduction would do.
pub fn ascent_simulate<'p>(maker: &Maker<'p>, form: Form<'p>) -> Result<Function, AllocError>
    ensures { IfOk result (λ f. f ≡ ascent_simulate (listed form.entry)) }
{
    let arms = ascent_rows(maker, form)?;
    let body = choice_at(maker, Expr::read(0), 1, Expr::stuck(), arms)?;
    Ok(function(1, 1, body))
}

fn ascent_rows<'p>(maker: &Maker<'p>, form: Form<'p>) -> Result<Arms, AllocError>
    ensures { IfOk result (λ arms. gathered arms ≡ ascent_rows (listed form.entry)) }
{
    let mut arms = Arms::new(maker.alloc);
    for row in form.parts() {
        ascent_row(maker, &mut arms, row)?;
    }
    Ok(arms)
}

fn ascent_row<'p>(maker: &Maker<'p>, arms: &mut Arms, row: Form<'p>) -> Result<(), AllocError>
    ensures { OnOk result (gathered arms.new ≡ ascent_row (gathered arms.old) (listed row.entry)) }
{
    arms.number_case(row.hole(0))?;
    let body = ascent_answer(maker, row)?;
    arms.body(body)
}

// What an arm answers: nothing for the start, else how many states go and the nonterminal.
fn ascent_answer<'p>(maker: &Maker<'p>, row: Form<'p>) -> Result<Expr, AllocError>
    ensures { IfOk result (λ v. v ≡ ascent_answer (listed row.entry)) }
{
    if is_a(Part::AscentAccept, row) {
        Ok(maker.absent())
    } else {
        let pop = maker.index(number(row.hole(1)));
        let nonterminal = maker.index(number(row.hole(2)));
        let pair = maker.pair(Join::Make(Tag::Tuple), pop, nonterminal)?;
        maker.apply(Op::Wrap(Tag::Present), pair)
    }
}

/// The terminals that a stack of states accepts.
pub fn ascent_expected<'p>(maker: &mut Maker<'p>) -> Result<Function, AllocError>
    ensures function { IfOk result (λ f. f ≡ ascent_expected (making maker.old)) }
    ensures made { OnOk result (making maker.new ≡ with_ascent_expected (making maker.old)) }
{
    let args = vec![in maker.alloc; Expr::read(2), Expr::read(0)]?;
    let closure = keeping(maker, args)?;
    let list = filtered(maker, closure, 0)?;
    Ok(function(1, 0, list))
}

/// Whether a stack of states accepts a terminal: the states stand in slot 0, the terminal in 1.
pub fn ascent_accepts<'p>(maker: &Maker<'p>, form: Form<'p>) -> Result<Function, AllocError>
    ensures { IfOk result (λ f. f ≡ ascent_accepts (making maker.now) (listed form.entry)) }
{
    let kind = state_type(form.hole(0));
    let copy = maker.apply(Op::CopyStates, Expr::read(0))?;
    let copied = maker.write(2, copy)?;
    let turn = ascent_turn(maker, kind)?;
    let turns = Expr::repeat(maker.alloc, turn)?;
    let body = Expr::block(vec![in maker.alloc; copied, turns]?);
    Ok(function(2, 7, body))
}

// The last state of the list in slot 2.
fn last_state<'p>(maker: &Maker<'p>, kind: Option<StateType>) -> Result<Expr, AllocError>
    ensures { IfOk result (λ v. v ≡ last_state kind) }
{
    let length = maker.apply(Op::Length, Expr::read(2))?;
    let last = maker.apply(Op::Predecessor, length)?;
    state_at(maker, kind, 2, last)
}

// The two parts of a simulated reduction; true is returned where there is none.
fn simulated<'p>(maker: &Maker<'p>) -> Result<Expr, AllocError>
    ensures { IfOk result (λ v. v ≡ simulated (making maker.now)) }
{
    let production = production_of(maker, 4)?;
    let args = vec![in maker.alloc; production]?;
    let call = maker.call("simulate", "", args)?;
    let back = maker.give_back(Expr::plain(Leaf::Bool(true)))?;
    let open = maker.apply(Op::Parts(6, 2), Expr::take(5))?;
    maker.on_option(call, 5, back, open)
}

fn ascent_turn<'p>(maker: &Maker<'p>, kind: Option<StateType>) -> Result<Expr, AllocError>
    ensures { IfOk result (λ v. v ≡ ascent_turn (making maker.now) kind) }
{
    let last = last_state(maker, kind)?;
    let state = maker.write(3, last)?;
    let args = vec![in maker.alloc; Expr::read(3), Expr::read(1)]?;
    let entry = maker.call("action", "", args)?;
    let entry = maker.write(4, entry)?;
    let refused = answer_if(maker, Op::IsZero, 4, false)?;
    let shifted = answer_if(maker, Op::IsPositive, 4, true)?;
    let opened = simulated(maker)?;
    let length = maker.apply(Op::Length, Expr::read(2))?;
    let less = maker.pair(Join::Subtract, length, Expr::read(6))?;
    let cut = maker.pair(Join::Truncate, Expr::read(2), less)?;
    let last = last_state(maker, kind)?;
    let below = maker.write(3, last)?;
    let args = vec![in maker.alloc; Expr::read(3), Expr::read(7)]?;
    let next = maker.call("goto", "", args)?;
    let pushed = maker.pair(Join::Push, Expr::read(2), next)?;
    let parts = vec![in maker.alloc; state, entry, refused, shifted, opened, cut, below, pushed]?;
    Ok(Expr::block(parts))
}
