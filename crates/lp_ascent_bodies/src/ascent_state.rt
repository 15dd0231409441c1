//! Recursive ascent: the function of a state.

ghost use Rattle.std.specs.Prelude.{◌≡◌, ◌++◌, Some, IfOk, OnOk};
ghost use Rattle.lp_view.specs.PartLists.{listed};
ghost use Rattle.lp_maker.specs.Making.{making};
ghost use Rattle.lp_bodies.specs.Arms.{gathered};
ghost use Rattle.lp_bodies.specs.Reductions.{done_of};
ghost use Rattle.lp_ascent_bodies.specs.AscentArms.{arming_of};
ghost use Rattle.lp_ascent_bodies.specs.AscentStates.{stating_of, shared_of, no_lines, token_row, is_line, line_row, is_shift, is_reduce, is_arm, arm_of, after_row, state_row, state_rows, after_parts, token_match, state_value, state_body, headed, with_headed, state_fn, with_state_fn};

use crate::ascent::{Lines, give_made, slot_line, token_line};
use crate::ascent_arms::{reduce_arm, shift_arm};
use crate::ascent_error::expected_error;
use crate::ascent_goto::goto_loop;
use lp_bodies::arms::Arms;
use lp_bodies::reduce::vec_type;
use lp_core::{Expr, Function};
use lp_form::Part;
use lp_maker::forms::{Form, first, is_a};
use lp_maker::maker::Maker;
use lp_maker::scope::Scope;
use std::alloc::AllocError;

/// What was gathered of a state function: what all its lines share, the lines before its match, the arms, and what
/// follows the match.
#[derive(Drop)]
pub struct StateParts {
    pub lines: Lines,
    pub parts: Vec<Expr>,
    pub arms: Arms,
    pub after: Option<Expr>,
}

/// The function of one state.
pub fn state_fn<'p>(maker: &mut Maker<'p>, form: Form<'p>) -> Result<Function, AllocError>
    ensures function { IfOk result (λ f. f ≡ state_fn (making maker.old) (listed form.entry)) }
    ensures made { OnOk result (making maker.new ≡ with_state_fn (listed form.entry) (making maker.old)) }
{
    match first(form) {
        None => Ok(maker.function(0, &Scope::new(maker.alloc), Expr::stuck())),
        Some(header) => state_under(maker, header, form),
    }
}

fn state_under<'p>(
    maker: &mut Maker<'p>,
    header: Form<'p>,
    form: Form<'p>,
) -> Result<Function, AllocError>
    ensures function { IfOk result (λ f. f ≡ headed (making maker.old) (listed form.entry) (Some (listed header.entry))) }
    ensures made { OnOk result (making maker.new ≡ with_headed (listed form.entry) (Some (listed header.entry)) (making maker.old)) }
{
    let mut scope = maker.parameters(header)?;
    let params = scope.slots();
    let body = state_body(maker, &mut scope, header, form)?;
    Ok(maker.function(params, &scope, body))
}

// What a state does.
fn state_body<'p>(
    maker: &mut Maker<'p>,
    scope: &mut Scope,
    header: Form<'p>,
    form: Form<'p>,
) -> Result<Expr, AllocError>
    ensures { IfOk result (λ v. done_of v scope.new (making maker.new) ≡ state_body (listed header.entry) (listed form.entry) (making maker.old) scope.old) }
{
    let mut state = no_lines(maker, scope, header)?;
    state_rows(maker, scope, form, &mut state)?;
    state_value(maker, state)
}

// Before the first line: `let mut ~result;`.
fn no_lines<'p>(
    maker: &Maker<'p>,
    scope: &mut Scope,
    header: Form<'p>,
) -> Result<StateParts, AllocError>
    ensures { IfOk result (λ state. stating_of scope.new state (making maker.now) ≡ no_lines (listed header.entry) scope.old (making maker.now)) }
{
    let made = scope.bind(maker.alloc, "~result")?;
    Ok(StateParts {
        lines: shared_of(maker.prefix, header, made, scope),
        parts: Vec::new(maker.alloc),
        arms: Arms::new(maker.alloc),
        after: None,
    })
}

fn shared_of(prefix: &str, header: Form<'_>, made: usize, scope: &Scope) -> Lines
    ensures { result ≡ shared_of prefix.now (listed header.entry) made scope.now }
{
    Lines {
        lookahead: scope.find("~lookahead").unwrap_or(usize::MAX),
        made,
        kind: vec_type(prefix, header),
    }
}

fn state_rows<'p>(
    maker: &mut Maker<'p>,
    scope: &mut Scope,
    form: Form<'p>,
    state: &mut StateParts,
) -> Result<(), AllocError>
    ensures { OnOk result (stating_of scope.new state.new (making maker.new) ≡ state_rows (listed form.entry) (stating_of scope.old state.old (making maker.old))) }
{
    for line in form.parts() {
        state_row(maker, scope, line, state)?;
    }
    Ok(())
}

// A line of a state function.
fn state_row<'p>(
    maker: &mut Maker<'p>,
    scope: &mut Scope,
    line: Form<'p>,
    state: &mut StateParts,
) -> Result<(), AllocError>
    ensures { OnOk result (stating_of scope.new state.new (making maker.new) ≡ state_row (stating_of scope.old state.old (making maker.old)) (listed line.entry)) }
{
    if is_line(line) {
        line_row(maker, scope, line, state)
    } else if is_arm(line) {
        arm_of(maker, scope, state.lines, line, &mut state.arms)
    } else {
        after_row(maker, scope, line, state)
    }
}

fn is_line(line: Form<'_>) -> bool
    ensures { result ≡ is_line (listed line.entry) }
{
    is_a(Part::NextToken, line) || is_a(Part::SlotLine, line)
}

// A line before the match.
fn line_row<'p>(
    maker: &Maker<'p>,
    scope: &mut Scope,
    line: Form<'p>,
    state: &mut StateParts,
) -> Result<(), AllocError>
    ensures { OnOk result (stating_of scope.new state.new (making maker.now) ≡ line_row (listed line.entry) (stating_of scope.old state.old (making maker.now))) }
{
    if is_a(Part::NextToken, line) {
        token_row(maker, scope, state)
    } else {
        slot_line(maker, scope, line, &mut state.parts)
    }
}

// The next token is the lookahead.
fn token_row<'p>(
    maker: &Maker<'p>,
    scope: &mut Scope,
    state: &mut StateParts,
) -> Result<(), AllocError>
    ensures { OnOk result (stating_of scope.new state.new (making maker.now) ≡ token_row (stating_of scope.old state.old (making maker.now))) }
{
    let lookahead = token_line(maker, scope, &mut state.parts)?;
    state.lines.lookahead = lookahead;
    Ok(())
}

fn is_shift(line: Form<'_>) -> bool
    ensures { result ≡ is_shift (listed line.entry) }
{
    is_a(Part::ShiftArm, line) || is_a(Part::ShiftWhole, line)
}

fn is_reduce(line: Form<'_>) -> bool
    ensures { result ≡ is_reduce (listed line.entry) }
{
    is_a(Part::ReduceMany, line) || (is_a(Part::ReduceToken, line) || is_a(Part::ReduceEnd, line))
}

fn is_arm(line: Form<'_>) -> bool
    ensures { result ≡ is_arm (listed line.entry) }
{
    is_shift(line) || (is_reduce(line) || is_a(Part::ErrorArm, line))
}

// An arm of the match.
fn arm_of<'p>(
    maker: &mut Maker<'p>,
    scope: &mut Scope,
    lines: Lines,
    line: Form<'p>,
    arms: &mut Arms,
) -> Result<(), AllocError>
    ensures { OnOk result (arming_of scope.new (gathered arms.new) (making maker.new) ≡ arm_of lines (listed line.entry) (arming_of scope.old (gathered arms.old) (making maker.old))) }
{
    if is_shift(line) {
        shift_arm(maker, scope, lines, line, arms)
    } else if is_reduce(line) {
        reduce_arm(maker, scope, lines, line, arms)
    } else {
        let body = expected_error(maker, scope, line)?;
        arms.body(body)
    }
}

// What follows the match.
fn after_row<'p>(
    maker: &mut Maker<'p>,
    scope: &mut Scope,
    line: Form<'p>,
    state: &mut StateParts,
) -> Result<(), AllocError>
    ensures { OnOk result (stating_of scope.new state.new (making maker.new) ≡ after_row (listed line.entry) (stating_of scope.old state.old (making maker.old))) }
{
    if is_a(Part::GotoReturn, line) {
        let back = give_made(maker, state.lines)?;
        state.after = Some(back);
        Ok(())
    } else if is_a(Part::GotoLoop, line) {
        let rest = goto_loop(maker, scope, state.lines, line)?;
        state.after = Some(rest);
        Ok(())
    } else {
        Ok(())
    }
}

// The lines, the match on the lookahead, and what follows it.
fn state_value<'p>(maker: &Maker<'p>, state: StateParts) -> Result<Expr, AllocError>
    ensures { IfOk result (λ v. v ≡ state_value state.lines state.parts.items (gathered state.arms) state.after) }
{
    let StateParts {
        lines,
        mut parts,
        arms,
        after,
    } = state;
    let matched = token_match(maker, lines, arms)?;
    parts.push(matched)?;
    push_after(after, &mut parts)?;
    Ok(Expr::block(parts))
}

fn push_after(after: Option<Expr>, parts: &mut Vec<Expr>) -> Result<(), AllocError>
    ensures { OnOk result (parts.new.items ≡ parts.old.items ++ after_parts after) }
{
    match after {
        None => Ok(()),
        Some(rest) => {
            parts.push(rest)?;
            Ok(())
        }
    }
}

fn token_match<'p>(maker: &Maker<'p>, lines: Lines, arms: Arms) -> Result<Expr, AllocError>
    ensures { IfOk result (λ v. v ≡ token_match lines (gathered arms)) }
{
    let Arms { cases, bodies, .. } = arms;
    let token = Expr::take(lines.lookahead);
    Expr::select(maker.alloc, token, lines.lookahead, cases, bodies)
}
