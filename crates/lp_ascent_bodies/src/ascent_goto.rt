//! Recursive ascent: what a state function does with a symbol that was made.

ghost use Rattle.std.specs.Prelude.{◌≡◌, IfOk, OnOk};
ghost use Rattle.lp_view.specs.PartLists.{listed};
ghost use Rattle.lp_maker.specs.Making.{making};
ghost use Rattle.lp_bodies.specs.Arms.{gathered};
ghost use Rattle.lp_bodies.specs.Lines.{lines_of};
ghost use Rattle.lp_bodies.specs.Reductions.{done_of};
ghost use Rattle.lp_bodies.specs.Tables.{reading_of};
ghost use Rattle.lp_ascent_bodies.specs.AscentArms.{arming_of};
ghost use Rattle.lp_ascent_bodies.specs.AscentGotos.{empty_check, arm_lines, variant_case, goto_arm, going_of, going_row, going_rows, goto_other, goto_turn, goto_loop};

use crate::ascent::{Lines, found_transition, give_made};
use lp_bodies::arms::Arms;
use lp_bodies::lines::push_let;
use lp_bodies::table::choice_at;
use lp_core::{Expr, Join, Leaf, Op, Tag, Test};
use lp_form::Part;
use lp_maker::forms::{Form, first, is_a};
use lp_maker::maker::Maker;
use lp_maker::scope::Scope;
use lp_maker::texts::numbered;
use std::alloc::AllocError;

/// What was gathered of a loop over gotos: the checks of empty slots, the arms, and what is done with another
/// symbol.
#[derive(Drop)]
pub struct GotoLines {
    pub checks: Vec<Expr>,
    pub arms: Arms,
    pub other: Expr,
}

/// Goes on with what a state function gave, turn by turn.
pub fn goto_loop<'p>(
    maker: &mut Maker<'p>,
    scope: &mut Scope,
    lines: Lines,
    form: Form<'p>,
) -> Result<Expr, AllocError>
    ensures { IfOk result (λ v. done_of v scope.new (making maker.new) ≡ goto_loop lines (making maker.old) scope.old (listed form.entry)) }
{
    let mark = scope.open();
    let token = scope.fresh_many(2)?;
    let made = token + 1;
    let mut gotos = GotoLines {
        checks: Vec::new(maker.alloc),
        arms: Arms::new(maker.alloc),
        other: Expr::stuck(),
    };
    going_rows(maker, scope, lines, (token, made), form, &mut gotos)?;
    scope.close(mark);
    let turn = goto_turn(maker, lines, token, made, gotos)?;
    Expr::repeat(maker.alloc, turn)
}

fn going_rows<'p>(
    maker: &mut Maker<'p>,
    scope: &mut Scope,
    lines: Lines,
    slots: (usize, usize),
    form: Form<'p>,
    gotos: &mut GotoLines,
) -> Result<(), AllocError>
    ensures { OnOk result (going_of scope.new gotos.new (making maker.new) ≡ going_rows lines slots.0 slots.1 (listed form.entry) (going_of scope.old gotos.old (making maker.old))) }
{
    for line in form.parts() {
        going_row(maker, scope, lines, slots, line, gotos)?;
    }
    Ok(())
}

fn going_row<'p>(
    maker: &mut Maker<'p>,
    scope: &mut Scope,
    lines: Lines,
    slots: (usize, usize),
    line: Form<'p>,
    gotos: &mut GotoLines,
) -> Result<(), AllocError>
    ensures { OnOk result (going_of scope.new gotos.new (making maker.new) ≡ going_row lines slots.0 slots.1 (going_of scope.old gotos.old (making maker.old)) (listed line.entry)) }
{
    let (token, made) = slots;
    if is_a(Part::EmptyCheck, line) {
        let check = empty_check(maker, scope, lines, line)?;
        gotos.checks.push(check)?;
        Ok(())
    } else if is_a(Part::GotoArm, line) {
        scope.name(maker.alloc, "~lookahead", token)?;
        goto_arm(maker, scope, lines, made, line, &mut gotos.arms)
    } else if is_a(Part::GotoOther, line) {
        gotos.other = goto_other(maker, token, made)?;
        Ok(())
    } else {
        Ok(())
    }
}

// The arm of a nonterminal, whose symbol stands in a slot.
fn goto_arm<'p>(
    maker: &mut Maker<'p>,
    scope: &mut Scope,
    lines: Lines,
    made: usize,
    line: Form<'p>,
    arms: &mut Arms,
) -> Result<(), AllocError>
    ensures { OnOk result (arming_of scope.new (gathered arms.new) (making maker.new) ≡ goto_arm lines made (listed line.entry) (arming_of scope.old (gathered arms.old) (making maker.old))) }
{
    let mark = scope.open();
    let parts = arm_lines(maker, scope, lines, line, made)?;
    scope.close(mark);
    variant_case(maker, line.hole(0), arms)?;
    arms.body(Expr::block(parts))
}

// A test for a variant, which leads to the next body.
fn variant_case<'p>(maker: &mut Maker<'p>, name: &str, arms: &mut Arms) -> Result<(), AllocError>
    ensures { OnOk result (reading_of (gathered arms.new) (making maker.new) ≡ variant_case name.now (reading_of (gathered arms.old) (making maker.old))) }
{
    let variant = maker.variant(name)?;
    arms.case(Test::Is(variant))
}

// Goes on with a symbol that was made.
fn arm_lines<'p>(
    maker: &Maker<'p>,
    scope: &mut Scope,
    lines: Lines,
    line: Form<'p>,
    made: usize,
) -> Result<Vec<Expr>, AllocError>
    ensures { IfOk result (λ parts. lines_of scope.new parts.items ≡ arm_lines (making maker.now) lines made scope.old (listed line.entry)) }
{
    let mut parts = Vec::new(maker.alloc);
    let inside = maker.apply(Op::Part(0), Expr::read(made))?;
    push_let(maker, scope, "~sym", line.hole(1), inside, &mut parts)?;
    found_transition(maker, scope, lines, first(line), &mut parts)?;
    Ok(parts)
}

// `return Ok((~lookahead, ~nt));`.
fn goto_other<'p>(maker: &Maker<'p>, token: usize, made: usize) -> Result<Expr, AllocError>
    ensures { IfOk result (λ v. v ≡ goto_other token made) }
{
    let answer = maker.pair(Join::Make(Tag::Tuple), Expr::take(token), Expr::take(made))?;
    let good = maker.apply(Op::Wrap(Tag::Success), answer)?;
    maker.give_back(good)
}

// One turn: the checks, what a state function gave in two parts, and the arm of its symbol.
fn goto_turn<'p>(
    maker: &Maker<'p>,
    lines: Lines,
    token: usize,
    made: usize,
    gotos: GotoLines,
) -> Result<Expr, AllocError>
    ensures { IfOk result (λ v. v ≡ goto_turn lines token made gotos.checks.items (gathered gotos.arms) gotos.other) }
{
    let GotoLines {
        checks,
        arms,
        other,
    } = gotos;
    let mut parts = checks;
    let unpacked = maker.apply(Op::Parts(token, 2), Expr::read(lines.made))?;
    parts.push(unpacked)?;
    let choice = choice_at(maker, Expr::take(made), made, other, arms)?;
    parts.push(choice)?;
    Ok(Expr::block(parts))
}

// `if ~symj.is_none() { return Ok(~result); }`.
fn empty_check<'p>(
    maker: &Maker<'p>,
    scope: &Scope,
    lines: Lines,
    line: Form<'p>,
) -> Result<Expr, AllocError>
    ensures { IfOk result (λ v. v ≡ empty_check lines scope.now (listed line.entry)) }
{
    let name = numbered(maker.alloc, "~sym", line.hole(0))?;
    let test = maker.apply(Op::IsEmpty, maker.name(scope, name.as_str()))?;
    let back = give_made(maker, lines)?;
    Expr::choose(
        maker.alloc,
        test,
        back,
        Expr::plain(Leaf::Empty(Tag::Tuple)),
    )
}
