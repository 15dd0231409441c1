//! Functions that are declared first and made afterwards, so that each can call each.

ghost use Rattle.std.specs.Prelude.{◌≡◌, [], OnOk, IfOk};
ghost use Rattle.lp_view.specs.PartLists.{listed};
ghost use Rattle.lp_maker.specs.Making.{making};
ghost use Rattle.lp_run.specs.Promised.{promises_of, promising_of, promised, header_number, beginning_of, is_source, is_user_action, is_action, with_action_form, beginning_row, beginning, is_action_lookup, is_token_lookup, is_lookup, lookup_name, is_expected, is_trial, trial_name, is_numbered, is_reduction, promised_reduction, is_ascent_trial, is_ascent, promised_ascent, declared_row, with_action_table, with_eof_table, module_row, module_rows};

use lp_bodies::source::is_located;
use lp_bodies::table::{make_table, make_terminals};
use lp_form::Part;
use lp_maker::forms::{Form, first, is_a};
use lp_maker::maker::Maker;
use std::alloc::{AllocError, Global};

/// Forms that are to be functions, each with its number.
pub type Promises<'p> = Vec<(usize, Form<'p>)>;

/// What stands beside the modules of a program.
#[derive(Drop)]
pub struct Begun<'p> {
    /// Whether items keep their locations.
    pub located: bool,
    pub actions: Promises<'p>,
}

// A function of a name in two parts is declared.
fn promise<'p>(
    maker: &mut Maker<'p>,
    promises: &mut Promises<'p>,
    name: &str,
    rest: &str,
    form: Form<'p>,
) -> Result<(), AllocError>
    ensures { OnOk result (promising_of (promises_of promises.new.items) (making maker.new) ≡ promised name.now rest.now (promising_of (promises_of promises.old.items) (making maker.old)) (listed form.entry)) }
{
    let number = maker.declare(name, rest)?;
    promises.push((number, form))?;
    Ok(())
}

// The printed number of a function with a header.
fn header_number<'p>(form: Form<'p>) -> &'p str
    ensures { result.now ≡ header_number (listed form.entry) }
{
    match first(form) {
        None => "",
        Some(header) => header.hole(0),
    }
}

fn is_source(form: Form<'_>) -> bool
    ensures { result ≡ is_source (listed form.entry) }
{
    is_located(form) || (is_a(Part::ToTriplePlain, form) || is_a(Part::ToTriplePlainWhere, form))
}

fn is_user_action(form: Form<'_>) -> bool
    ensures { result ≡ is_user_action (listed form.entry) }
{
    is_a(Part::ActionFn, form) || is_a(Part::ActionFnUnused, form)
}

fn is_action(form: Form<'_>) -> bool
    ensures { result ≡ is_action (listed form.entry) }
{
    is_user_action(form) || (is_a(Part::Lookaround, form) || is_a(Part::LookaroundUnused, form))
}

/// What the parts of a program begin with.
pub fn beginning<'p>(maker: &mut Maker<'p>, form: Form<'p>) -> Result<Begun<'p>, AllocError>
    ensures { IfOk result (λ b. beginning_of b.located (promises_of b.actions.items) (making maker.new) ≡ beginning (making maker.old) (listed form.entry)) }
{
    let mut begun = Begun {
        located: false,
        actions: Vec::new(maker.alloc),
    };
    for row in form.parts() {
        beginning_row(maker, &mut begun, row)?;
    }
    Ok(begun)
}

fn beginning_row<'p>(
    maker: &mut Maker<'p>,
    begun: &mut Begun<'p>,
    form: Form<'p>,
) -> Result<(), AllocError>
    ensures { OnOk result (beginning_of begun.new.located (promises_of begun.new.actions.items) (making maker.new) ≡ beginning_row (beginning_of begun.old.located (promises_of begun.old.actions.items) (making maker.old)) (listed form.entry)) }
{
    if is_source(form) {
        begun.located = is_located(form);
        Ok(())
    } else if is_action(form) {
        let number = header_number(form);
        promise(maker, &mut begun.actions, "super::action", number, form)
    } else {
        Ok(())
    }
}

/// Whether a function looks an action up.
pub fn is_action_lookup(form: Form<'_>) -> bool
    ensures { result ≡ is_action_lookup (listed form.entry) }
{
    is_a(Part::ActionLookup, form) || is_a(Part::ActionLookupOne, form)
}

fn is_token_lookup(form: Form<'_>) -> bool
    ensures { result ≡ is_token_lookup (listed form.entry) }
{
    is_a(Part::TokenToInteger, form) || is_a(Part::TokenToSymbol, form)
}

/// Whether a function looks at tables and tokens.
pub fn is_lookup(form: Form<'_>) -> bool
    ensures { result ≡ is_lookup (listed form.entry) }
{
    is_action_lookup(form) || (is_a(Part::GotoFn, form) || is_token_lookup(form))
}

fn lookup_name(form: Form<'_>) -> &'static str
    ensures { result.now ≡ lookup_name (listed form.entry) }
{
    if is_action_lookup(form) {
        "action"
    } else if is_a(Part::GotoFn, form) {
        "goto"
    } else if is_a(Part::TokenToInteger, form) {
        "token_to_integer"
    } else {
        "token_to_symbol"
    }
}

fn is_expected(form: Form<'_>) -> bool
    ensures { result ≡ is_expected (listed form.entry) }
{
    is_a(Part::Expected, form) || is_a(Part::ExpectedFromStates, form)
}

/// Whether a function tries stacks of states.
pub fn is_trial(form: Form<'_>) -> bool
    ensures { result ≡ is_trial (listed form.entry) }
{
    is_expected(form) || (is_a(Part::SimulateReduce, form) || is_a(Part::Accepts, form))
}

fn trial_name(form: Form<'_>) -> &'static str
    ensures { result.now ≡ trial_name (listed form.entry) }
{
    if is_a(Part::Expected, form) {
        "expected_tokens"
    } else if is_a(Part::ExpectedFromStates, form) {
        "expected_tokens_from_states"
    } else if is_a(Part::SimulateReduce, form) {
        "simulate_reduce"
    } else {
        "accepts"
    }
}

fn is_numbered(form: Form<'_>) -> bool
    ensures { result ≡ is_numbered (listed form.entry) }
{
    is_a(Part::Pop, form) || is_a(Part::ReduceFn, form)
}

/// Whether a function reduces.
pub fn is_reduction(form: Form<'_>) -> bool
    ensures { result ≡ is_reduction (listed form.entry) }
{
    is_numbered(form) || (is_a(Part::Reduce, form) || is_a(Part::Mismatch, form))
}

fn promised_reduction<'p>(
    maker: &mut Maker<'p>,
    promises: &mut Promises<'p>,
    form: Form<'p>,
) -> Result<(), AllocError>
    ensures { OnOk result (promising_of (promises_of promises.new.items) (making maker.new) ≡ promised_reduction (promising_of (promises_of promises.old.items) (making maker.old)) (listed form.entry)) }
{
    if is_a(Part::Pop, form) {
        promise(maker, promises, "pop_", form.hole(0), form)
    } else if is_a(Part::ReduceFn, form) {
        promise(maker, promises, "reduce", header_number(form), form)
    } else if is_a(Part::Reduce, form) {
        promise(maker, promises, "reduce", "", form)
    } else {
        promise(maker, promises, "symbol_type_mismatch", "", form)
    }
}

fn is_ascent_trial(form: Form<'_>) -> bool
    ensures { result ≡ is_ascent_trial (listed form.entry) }
{
    is_a(Part::AscentSimulate, form)
        || (is_a(Part::AscentAccepts, form) || is_a(Part::AscentExpected, form))
}

/// Whether a function is one of recursive ascent.
pub fn is_ascent(form: Form<'_>) -> bool
    ensures { result ≡ is_ascent (listed form.entry) }
{
    is_a(Part::StateFn, form) || is_ascent_trial(form)
}

fn promised_ascent<'p>(
    maker: &mut Maker<'p>,
    promises: &mut Promises<'p>,
    form: Form<'p>,
) -> Result<(), AllocError>
    ensures { OnOk result (promising_of (promises_of promises.new.items) (making maker.new) ≡ promised_ascent (promising_of (promises_of promises.old.items) (making maker.old)) (listed form.entry)) }
{
    if is_a(Part::StateFn, form) {
        promise(maker, promises, "state", header_number(form), form)
    } else if is_a(Part::AscentSimulate, form) {
        promise(maker, promises, "simulate", "", form)
    } else if is_a(Part::AscentAccepts, form) {
        promise(maker, promises, "accepts", "", form)
    } else {
        promise(maker, promises, "expected", "", form)
    }
}

// A function of a module is declared.
fn declared_row<'p>(
    maker: &mut Maker<'p>,
    promises: &mut Promises<'p>,
    form: Form<'p>,
) -> Result<(), AllocError>
    ensures { OnOk result (promising_of (promises_of promises.new.items) (making maker.new) ≡ declared_row (promising_of (promises_of promises.old.items) (making maker.old)) (listed form.entry)) }
{
    if is_lookup(form) {
        promise(maker, promises, lookup_name(form), "", form)
    } else if is_trial(form) {
        promise(maker, promises, trial_name(form), "", form)
    } else if is_reduction(form) {
        promised_reduction(maker, promises, form)
    } else if is_ascent(form) {
        promised_ascent(maker, promises, form)
    } else {
        Ok(())
    }
}

fn action_table<'p>(maker: &mut Maker<'p>, form: Form<'p>) -> Result<(), AllocError>
    ensures { OnOk result (making maker.new ≡ with_action_table (listed form.entry) (making maker.old)) }
{
    let table = make_table(maker, form)?;
    maker.action_table = table;
    Ok(())
}

fn eof_table<'p>(maker: &mut Maker<'p>, form: Form<'p>) -> Result<(), AllocError>
    ensures { OnOk result (making maker.new ≡ with_eof_table (listed form.entry) (making maker.old)) }
{
    let table = make_table(maker, form)?;
    maker.eof_table = table;
    Ok(())
}

// A table or the terminals are made at once.
fn module_row<'p>(
    maker: &mut Maker<'p>,
    promises: &mut Promises<'p>,
    form: Form<'p>,
) -> Result<(), AllocError>
    ensures { OnOk result (promising_of (promises_of promises.new.items) (making maker.new) ≡ module_row (promising_of (promises_of promises.old.items) (making maker.old)) (listed form.entry)) }
{
    if is_a(Part::ActionTable, form) {
        action_table(maker, form)
    } else if is_a(Part::EofTable, form) {
        eof_table(maker, form)
    } else if is_a(Part::TerminalList, form) {
        make_terminals(maker, form)
    } else {
        declared_row(maker, promises, form)
    }
}

/// The functions of a module, declared; its tables and terminals are made.
pub fn module_rows<'p>(maker: &mut Maker<'p>, items: Form<'p>) -> Result<Promises<'p>, AllocError>
    ensures { IfOk result (λ promises. promising_of (promises_of promises.items) (making maker.new) ≡ module_rows (making maker.old) (listed items.entry)) }
{
    let mut promises = Vec::new(maker.alloc);
    for row in items.parts() {
        module_row(maker, &mut promises, row)?;
    }
    Ok(promises)
}
