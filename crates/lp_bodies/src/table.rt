//! The functions of a module that look at tables and tokens.

ghost use Rattle.std.specs.Prelude.{◌≡◌, Some, length, map, IfOk, OnOk};
ghost use Rattle.lp_view.specs.Elements.{patterns};
ghost use Rattle.lp_view.specs.PartLists.{listed};
ghost use Rattle.lp_maker.specs.Making.{making, with_function, with_table};
ghost use Rattle.lp_bodies.specs.Arms.{gathered, no_arms};
ghost use Rattle.lp_bodies.specs.Tables.{printed_table, with_terminals, with_terminal, lookup_row, lookup_function, range_cases, range_case, goto_row, goto_rows, goto_match, goto_body, goto_arm, goto_arms, goto_function, choice_at, kept_calls, filtered, expected_closure, expected_function, keeping_closure, filter_found, expected_states_function, with_states_closure, integer_arm, integer_row, integer_rows, integer_function, with_integers, reading_of, payload, payloads, one_or_tuple, captured, pattern_arm, pattern_arms, symbol_match, symbol_arm, number_cases, is_symbol, symbol_row, symbol_rows, symbol_function, with_symbols};
ghost use Rattle.lp_bodies.specs.Reductions.{done_of};

use crate::arms::Arms;
use crate::source::function;
use lp_core::{Expr, Function, Join, Leaf, Op, StateType, Table, Tag, Test};
use lp_form::Part;
use lp_maker::forms::{Form, is_a};
use lp_maker::maker::Maker;
use lp_maker::patterns::{capture, captures, form_of};
use lp_maker::scope::Scope;
use lp_maker::texts::{holds, number, parted, range, state_type, wide_number};
use lp_repr::Text;
use lp_view::patterns_of;
use std::alloc::{AllocError, Global};

/// A table of entries.
pub fn make_table<'p>(maker: &mut Maker<'p>, form: Form<'p>) -> Result<usize, AllocError>
    ensures number { IfOk result (λ n. n ≡ length (making maker.old).tables) }
    ensures made { OnOk result (making maker.new ≡ with_table (printed_table (listed form.entry)) (making maker.old)) }
{
    let entries = wide_entries(maker.alloc, form.numbers())?;
    maker.table(Table {
        entry_type: state_type(form.hole(0)),
        entries,
    })
}

fn wide_entries(alloc: Global, numbers: &[i32]) -> Result<Vec<i64>, AllocError>
    ensures { IfOk result (λ entries. entries.items ≡ numbers.now) }
{
    let mut entries = Vec::new(alloc);
    for entry in numbers {
        entries.push(i64::from(*entry))?;
    }
    Ok(entries)
}

/// The names of the terminals.
pub fn make_terminals<'p>(maker: &mut Maker<'p>, form: Form<'p>) -> Result<(), AllocError>
    ensures { OnOk result (making maker.new ≡ with_terminals (listed form.entry) (making maker.old)) }
{
    for row in form.parts() {
        make_terminal(maker, row)?;
    }
    Ok(())
}

fn make_terminal<'p>(maker: &mut Maker<'p>, row: Form<'p>) -> Result<(), AllocError>
    ensures { OnOk result (making maker.new ≡ with_terminal (making maker.old) (listed row.entry)) }
{
    let name = Text::from_str(maker.alloc, row.hole(0))?;
    let number = maker.text(name)?;
    maker.terminals.push(number)?;
    Ok(())
}

/// `~ACTION[(state as usize) * n + integer]`, without `* n` for one terminal.
pub fn action_lookup<'p>(maker: &Maker<'p>, form: Form<'p>) -> Result<Function, AllocError>
    ensures { IfOk result (λ f. f ≡ lookup_function (making maker.now) (listed form.entry)) }
{
    let row = lookup_row(maker, form)?;
    let place = maker.pair(Join::Add, row, Expr::read(1))?;
    let entry = maker.apply(Op::Entry(maker.action_table), place)?;
    Ok(function(2, 0, entry))
}

fn lookup_row<'p>(maker: &Maker<'p>, form: Form<'p>) -> Result<Expr, AllocError>
    ensures { IfOk result (λ v. v ≡ lookup_row (listed form.entry)) }
{
    let state = maker.apply(Op::AsIndex, Expr::read(0))?;
    if is_a(Part::ActionLookup, form) {
        maker.pair(Join::Multiply, state, maker.index(number(form.hole(1))))
    } else {
        Ok(state)
    }
}

/// The goto function.
pub fn goto_fn<'p>(maker: &Maker<'p>, form: Form<'p>) -> Result<Function, AllocError>
    ensures { IfOk result (λ f. f ≡ goto_function (listed form.entry)) }
{
    let kind = state_type(form.hole(0));
    let arms = goto_arms(maker, kind, form)?;
    let last = maker.state(kind, Some(0));
    let body = choice_at(maker, Expr::read(1), 2, last, arms)?;
    Ok(function(2, 2, body))
}

fn goto_arms<'p>(
    maker: &Maker<'p>,
    kind: Option<StateType>,
    form: Form<'p>,
) -> Result<Arms, AllocError>
    ensures { IfOk result (λ arms. gathered arms ≡ goto_arms kind (listed form.entry)) }
{
    let mut arms = Arms::new(maker.alloc);
    for arm in form.parts() {
        goto_arm(maker, kind, &mut arms, arm)?;
    }
    Ok(arms)
}

// An arm whose nonterminal is no number is none.
fn goto_arm<'p>(
    maker: &Maker<'p>,
    kind: Option<StateType>,
    arms: &mut Arms,
    arm: Form<'p>,
) -> Result<(), AllocError>
    ensures { OnOk result (gathered arms.new ≡ goto_arm kind (gathered arms.old) (listed arm.entry)) }
{
    let body = goto_body(maker, kind, arm)?;
    match wide_number(arm.hole(0)) {
        None => Ok(()),
        Some(n) => {
            arms.case(Test::Between(n, n))?;
            arms.body(body)
        }
    }
}

fn goto_body<'p>(
    maker: &Maker<'p>,
    kind: Option<StateType>,
    arm: Form<'p>,
) -> Result<Expr, AllocError>
    ensures { IfOk result (λ v. v ≡ goto_body kind (listed arm.entry)) }
{
    if is_a(Part::GotoOne, arm) {
        Ok(maker.state(kind, wide_number(arm.hole(1))))
    } else {
        goto_match(maker, kind, arm)
    }
}

fn goto_match<'p>(
    maker: &Maker<'p>,
    kind: Option<StateType>,
    arm: Form<'p>,
) -> Result<Expr, AllocError>
    ensures { IfOk result (λ v. v ≡ goto_match kind (listed arm.entry)) }
{
    let rows = goto_rows(maker, kind, arm)?;
    let last = maker.state(kind, wide_number(arm.hole(1)));
    choice_at(maker, Expr::read(0), 3, last, rows)
}

fn goto_rows<'p>(
    maker: &Maker<'p>,
    kind: Option<StateType>,
    arm: Form<'p>,
) -> Result<Arms, AllocError>
    ensures { IfOk result (λ arms. gathered arms ≡ goto_rows kind (listed arm.entry)) }
{
    let mut arms = Arms::new(maker.alloc);
    for row in arm.parts() {
        goto_row(maker, kind, &mut arms, row)?;
    }
    Ok(arms)
}

fn goto_row<'p>(
    maker: &Maker<'p>,
    kind: Option<StateType>,
    arms: &mut Arms,
    row: Form<'p>,
) -> Result<(), AllocError>
    ensures { OnOk result (gathered arms.new ≡ goto_row kind (gathered arms.old) (listed row.entry)) }
{
    let texts = parted(maker.alloc, row.hole(0), " | ")?;
    range_cases(arms, texts.as_slice())?;
    arms.body(maker.state(kind, wide_number(row.hole(1))))
}

// Tests for the ranges, all of which lead to the next body.
fn range_cases(arms: &mut Arms, texts: &[&str]) -> Result<(), AllocError>
    ensures { OnOk result (gathered arms.new ≡ range_cases (gathered arms.old) (map (λ text. text.now) texts.now)) }
{
    for text in texts {
        range_case(arms, *text)?;
    }
    Ok(())
}

fn range_case(arms: &mut Arms, text: &str) -> Result<(), AllocError>
    ensures { OnOk result (gathered arms.new ≡ range_case (gathered arms.old) text.now) }
{
    match range(text) {
        None => Ok(()),
        Some((low, high)) => arms.case(Test::Between(low, high)),
    }
}

/// The match of a value, which stands in this slot.
pub fn choice_at<'p>(
    maker: &Maker<'p>,
    value: Expr,
    slot: usize,
    last: Expr,
    arms: Arms,
) -> Result<Expr, AllocError>
    ensures { IfOk result (λ v. v ≡ choice_at value slot last (gathered arms)) }
{
    let Arms {
        cases,
        mut bodies,
        ..
    } = arms;
    bodies.push(last)?;
    Expr::select(maker.alloc, value, slot, cases, bodies)
}

/// The list of the terminals for which a closure of index, terminal and one captured value answers
/// `Some`.
pub fn filtered<'p>(maker: &Maker<'p>, closure: usize, captured: usize) -> Result<Expr, AllocError>
    ensures { IfOk result (λ v. v ≡ filtered closure captured (making maker.now).terminals) }
{
    let calls = kept_calls(maker.alloc, closure, captured, maker.terminals.as_slice())?;
    Ok(Expr::join(Join::Collect, calls))
}

fn kept_calls(
    alloc: Global,
    closure: usize,
    captured: usize,
    terminals: &[usize],
) -> Result<Vec<Expr>, AllocError>
    ensures { IfOk result (λ calls. calls.items ≡ kept_calls closure captured 0 terminals.now) }
{
    let mut calls = Vec::new(alloc);
    for terminal in terminals {
        let args = vec![in alloc;
            Expr::index(calls.len()),
            Expr::plain(Leaf::Text(*terminal)),
            Expr::read(captured),
        ]?;
        calls.push(Expr::call(closure, args))?;
    }
    Ok(calls)
}

/// The terminals with an action in a state.
pub fn expected<'p>(maker: &mut Maker<'p>) -> Result<Function, AllocError>
    ensures function { IfOk result (λ f. f ≡ expected_function (making maker.old)) }
    ensures made { OnOk result (making maker.new ≡ with_function (Some (expected_closure (making maker.old))) (making maker.old)) }
{
    let body = expected_closure(maker)?;
    let closure = maker.closure(function(3, 1, body))?;
    let list = filtered(maker, closure, 0)?;
    Ok(function(1, 0, list))
}

// `Some(terminal)` where the action in the state isn't 0.
fn expected_closure<'p>(maker: &Maker<'p>) -> Result<Expr, AllocError>
    ensures { IfOk result (λ v. v ≡ (expected_closure (making maker.now)).body) }
{
    let args = vec![in maker.alloc; Expr::read(2), Expr::read(0)]?;
    let call = maker.call("action", "", args)?;
    let next = maker.write(3, call)?;
    let test = maker.apply(Op::IsZero, Expr::read(3))?;
    let some = maker.apply(Op::Wrap(Tag::Present), Expr::read(1))?;
    let choice = Expr::choose(maker.alloc, test, maker.absent(), some)?;
    Ok(Expr::block(vec![in maker.alloc; next, choice]?))
}

/// The closure that keeps a terminal where a call of `accepts` with these arguments says yes.
pub fn keeping<'p>(maker: &mut Maker<'p>, args: Vec<Expr>) -> Result<usize, AllocError>
    ensures number { IfOk result (λ n. n ≡ length (making maker.old).functions) }
    ensures made { OnOk result (making maker.new ≡ with_function (Some (keeping_closure (making maker.old) args.items)) (making maker.old)) }
{
    let test = maker.call("accepts", "", args)?;
    let some = maker.apply(Op::Wrap(Tag::Present), Expr::read(1))?;
    let body = Expr::choose(maker.alloc, test, some, maker.absent())?;
    maker.closure(function(3, 0, body))
}

/// The terminals that a stack of states accepts.
pub fn expected_from_states<'p>(
    maker: &mut Maker<'p>,
    header: Form<'p>,
) -> Result<Function, AllocError>
    ensures function { IfOk result (λ f. f ≡ expected_states_function (making maker.old) (listed header.entry)) }
    ensures made { OnOk result (making maker.new ≡ with_states_closure (making maker.old)) }
{
    let closure = states_closure(maker)?;
    let scope = maker.parameters(header)?;
    let params = scope.slots();
    let body = filter_found(maker, closure, scope.find("~states"))?;
    Ok(maker.function(params, &scope, body))
}

fn states_closure<'p>(maker: &mut Maker<'p>) -> Result<usize, AllocError>
    ensures number { IfOk result (λ n. n ≡ length (making maker.old).functions) }
    ensures made { OnOk result (making maker.new ≡ with_states_closure (making maker.old)) }
{
    let some = maker.apply(Op::Wrap(Tag::Present), Expr::read(0))?;
    let args = vec![in maker.alloc; maker.absent(), Expr::read(2), some]?;
    keeping(maker, args)
}

fn filter_found<'p>(
    maker: &Maker<'p>,
    closure: usize,
    slot: Option<usize>,
) -> Result<Expr, AllocError>
    ensures { IfOk result (λ v. v ≡ filter_found closure (making maker.now).terminals slot) }
{
    match slot {
        None => Ok(Expr::stuck()),
        Some(states) => filtered(maker, closure, states),
    }
}

/// The number of a token.
pub fn token_to_integer<'p>(maker: &mut Maker<'p>, form: Form<'p>) -> Result<Function, AllocError>
    ensures function { IfOk result (λ f. f ≡ integer_function (making maker.old) (listed form.entry)) }
    ensures made { OnOk result (making maker.new ≡ with_integers (listed form.entry) (making maker.old)) }
{
    let arms = integer_rows(maker, form)?;
    let token = maker.taken(&arms.scope, "~token");
    arms.finish(maker, token, maker.absent())
}

fn integer_rows<'p>(maker: &mut Maker<'p>, form: Form<'p>) -> Result<Arms, AllocError>
    ensures { IfOk result (λ arms. reading_of (gathered arms) (making maker.new) ≡ integer_rows (making maker.old) (listed form.entry)) }
{
    let mut arms = Arms::new(maker.alloc);
    for row in form.parts() {
        integer_row(maker, &mut arms, row)?;
    }
    Ok(arms)
}

// A row is an arm, or the header.
fn integer_row<'p>(maker: &mut Maker<'p>, arms: &mut Arms, row: Form<'p>) -> Result<(), AllocError>
    ensures { OnOk result (reading_of (gathered arms.new) (making maker.new) ≡ integer_row (reading_of (gathered arms.old) (making maker.old)) (listed row.entry)) }
{
    if is_a(Part::IntegerRow, row) {
        integer_arm(maker, arms, row)
    } else {
        arms.header(maker, row)
    }
}

fn integer_arm<'p>(maker: &mut Maker<'p>, arms: &mut Arms, row: Form<'p>) -> Result<(), AllocError>
    ensures { OnOk result (reading_of (gathered arms.new) (making maker.new) ≡ integer_arm (reading_of (gathered arms.old) (making maker.old)) (listed row.entry)) }
{
    let pattern = Text::from_str(maker.alloc, row.hole(0))?;
    let pattern = maker.text(pattern)?;
    arms.case(Test::Form(pattern))?;
    let index = maker.index(number(row.hole(1)));
    let some = maker.apply(Op::Wrap(Tag::Present), index)?;
    arms.body(some)
}

/// The symbol of a token.
pub fn token_to_symbol<'p>(maker: &mut Maker<'p>, form: Form<'p>) -> Result<Function, AllocError>
    ensures function { IfOk result (λ f. f ≡ symbol_function (making maker.old) (listed form.entry)) }
    ensures made { OnOk result (making maker.new ≡ with_symbols (listed form.entry) (making maker.old)) }
{
    let arms = symbol_rows(maker, form)?;
    let index = maker.name(&arms.scope, "~token_index");
    arms.finish(maker, index, Expr::stuck())
}

fn symbol_rows<'p>(maker: &mut Maker<'p>, form: Form<'p>) -> Result<Arms, AllocError>
    ensures { IfOk result (λ arms. reading_of (gathered arms) (making maker.new) ≡ symbol_rows (making maker.old) (listed form.entry)) }
{
    let mut arms = Arms::new(maker.alloc);
    for row in form.parts() {
        symbol_row(maker, &mut arms, row)?;
    }
    Ok(arms)
}

fn is_symbol(row: Form<'_>) -> bool
    ensures { result ≡ is_symbol (listed row.entry) }
{
    is_a(Part::SymbolArm, row) || is_a(Part::SymbolMatch, row)
}

// A row is an arm, or the header.
fn symbol_row<'p>(maker: &mut Maker<'p>, arms: &mut Arms, row: Form<'p>) -> Result<(), AllocError>
    ensures { OnOk result (reading_of (gathered arms.new) (making maker.new) ≡ symbol_row (reading_of (gathered arms.old) (making maker.old)) (listed row.entry)) }
{
    if is_symbol(row) {
        let body = symbol_arm(maker, &mut arms.scope, row)?;
        let texts = parted(maker.alloc, row.hole(0), " | ")?;
        number_cases(arms, texts.as_slice())?;
        arms.body(body)
    } else {
        arms.header(maker, row)
    }
}

// Tests for printed numbers, all of which lead to the next body.
fn number_cases(arms: &mut Arms, texts: &[&str]) -> Result<(), AllocError>
    ensures { OnOk result (gathered arms.new ≡ number_cases (gathered arms.old) (map (λ text. text.now) texts.now)) }
{
    for text in texts {
        arms.number_case(*text)?;
    }
    Ok(())
}

fn symbol_arm<'p>(
    maker: &mut Maker<'p>,
    scope: &mut Scope,
    row: Form<'p>,
) -> Result<Expr, AllocError>
    ensures { IfOk result (λ v. done_of v scope.new (making maker.new) ≡ symbol_arm (making maker.old) scope.old (listed row.entry)) }
{
    if is_a(Part::SymbolArm, row) {
        let variant = maker.variant(row.hole(1))?;
        maker.apply(Op::Wrap(variant), maker.taken(scope, "~token"))
    } else {
        symbol_match(maker, scope, row)
    }
}

// A symbol by the patterns of its tokens.
fn symbol_match<'p>(
    maker: &mut Maker<'p>,
    scope: &mut Scope,
    row: Form<'p>,
) -> Result<Expr, AllocError>
    ensures { IfOk result (λ v. done_of v scope.new (making maker.new) ≡ symbol_match (making maker.old) scope.old (listed row.entry)) }
{
    let variant = maker.variant(row.hole(2))?;
    let token = maker.taken(scope, "~token");
    let slot = scope.fresh()?;
    let names = captures(maker.alloc, row.hole(3))?;
    let arms = pattern_arms(maker, variant, slot, names.as_slice(), row.hole(1))?;
    choice_at(maker, token, slot, Expr::stuck(), arms)
}

fn pattern_arms<'p>(
    maker: &mut Maker<'p>,
    variant: Tag,
    token: usize,
    names: &[&str],
    text: &str,
) -> Result<Arms, AllocError>
    ensures { IfOk result (λ arms. reading_of (gathered arms) (making maker.new) ≡ pattern_arms variant token (map (λ name. name.now) names.now) (reading_of no_arms (making maker.old)) (patterns text.now)) }
{
    let mut arms = Arms::new(maker.alloc);
    for pattern in patterns_of(text) {
        pattern_arm(maker, variant, token, names, pattern, &mut arms)?;
    }
    Ok(arms)
}

// The arm of a pattern.
fn pattern_arm<'p>(
    maker: &mut Maker<'p>,
    variant: Tag,
    token: usize,
    names: &[&str],
    pattern: &str,
    arms: &mut Arms,
) -> Result<(), AllocError>
    ensures { OnOk result (reading_of (gathered arms.new) (making maker.new) ≡ pattern_arm variant token (map (λ name. name.now) names.now) (reading_of (gathered arms.old) (making maker.old)) pattern.now) }
{
    let body = captured(maker, token, pattern, names)?;
    let body = maker.apply(Op::Wrap(variant), body)?;
    let form = form_of(maker.alloc, maker.prefix, pattern)?;
    let form = maker.text(form)?;
    arms.case(Test::Form(form))?;
    arms.body(body)
}

/// What the names capture of the token in a slot that a pattern fits: one payload, or the tuple of
/// several.
pub fn captured<'p>(
    maker: &Maker<'p>,
    token: usize,
    pattern: &str,
    names: &[&str],
) -> Result<Expr, AllocError>
    ensures { IfOk result (λ v. v ≡ captured (making maker.now).prefix token pattern.now (map (λ name. name.now) names.now)) }
{
    let all = payloads(maker, token, pattern, names)?;
    Ok(one_or_tuple(all))
}

fn payloads<'p>(
    maker: &Maker<'p>,
    token: usize,
    pattern: &str,
    names: &[&str],
) -> Result<Vec<Expr>, AllocError>
    ensures { IfOk result (λ all. all.items ≡ payloads (making maker.now).prefix token pattern.now (map (λ name. name.now) names.now)) }
{
    let mut all = Vec::new(maker.alloc);
    for name in names {
        let one = payload(maker, token, pattern, *name)?;
        all.push(one)?;
    }
    Ok(all)
}

fn payload<'p>(
    maker: &Maker<'p>,
    token: usize,
    pattern: &str,
    name: &str,
) -> Result<Expr, AllocError>
    ensures { IfOk result (λ v. v ≡ payload (making maker.now).prefix token pattern.now name.now) }
{
    match capture(maker.prefix, name) {
        None => Ok(Expr::stuck()),
        Some(j) => {
            if holds(name, pattern) {
                maker.apply(Op::Payload(j), Expr::read(token))
            } else {
                Ok(Expr::stuck())
            }
        }
    }
}

// One payload, or the tuple of several.
#[tactic(auto, using(crate::proofs::Calls::one_of, crate::proofs::Calls::tuple_of))]
fn one_or_tuple(mut all: Vec<Expr>) -> Expr
    ensures { result ≡ one_or_tuple all.items }
{
    if all.len() != 1 {
        return Expr::join(Join::Payloads, all);
    }
    match all.pop() {
        None => Expr::stuck(),
        Some(one) => one,
    }
}
