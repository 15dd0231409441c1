//! What the driver asks: the methods of the machine.

ghost use Rattle.std.specs.Prelude.{◌≡◌, ◌+◌, ◌<◌, ◌^◌, length, IfOk, OnOk};
ghost use Rattle.lp_view.specs.PartLists.{listed};
ghost use Rattle.lp_maker.specs.Making.{making};
ghost use Rattle.lp_bodies.specs.MachineMethods.{with_method, handed_on, difference, less_found, last_terminal, with_error_action, with_eof_action, recovering_of, recovery_row, recovery_rows, uses_number, symbol_number, with_recovery, field_row, field_rows, reduce_arguments, with_reduce_method, with_methods, methods_of};

use crate::action::takes;
use crate::source::{default_location, function};
use crate::trial::eof_entry;
use lp_core::{Expr, Leaf, Op};
use lp_form::Part;
use lp_maker::forms::{Form, is_a};
use lp_maker::maker::Maker;
use lp_maker::methods::Methods;
use lp_maker::scope::Scope;
use lp_maker::texts::{cut_at, number, state_type};
use std::alloc::AllocError;

// A method is a function without a name.
fn method<'p>(maker: &mut Maker<'p>, params: usize, body: Expr) -> Result<usize, AllocError>
    ensures number { IfOk result (λ n. n ≡ length (making maker.old).functions) }
    ensures made { OnOk result (making maker.new ≡ with_method params body (making maker.old)) }
{
    maker.closure(function(params, 0, body))
}

// A method that hands its arguments on.
fn handed_on<'p>(maker: &mut Maker<'p>, name: &str, params: usize) -> Result<usize, AllocError>
    ensures number { IfOk result (λ n. n ≡ length (making maker.old).functions) }
    ensures made { OnOk result (making maker.new ≡ handed_on name.now params (making maker.old)) }
{
    let args = takes(maker.alloc, params)?;
    let body = maker.call(name, "", args)?;
    method(maker, params, body)
}

/// The methods, where the machine's fields have these names in order.
pub fn make_methods<'p>(
    maker: &mut Maker<'p>,
    form: Form<'p>,
    fields: &Scope,
    field_count: usize,
) -> Result<Methods, AllocError>
    ensures methods { IfOk result (λ methods. methods ≡ methods_of (listed form.entry) fields.now field_count (making maker.old)) }
    ensures made { OnOk result (making maker.new ≡ with_methods (listed form.entry) fields.now field_count (making maker.old)) }
{
    let kind = state_type(form.hole(7));
    let start_location = method(maker, 0, default_location())?;
    let state = maker.state(kind, Some(0));
    let start_state = method(maker, 0, state)?;
    let token_to_index = handed_on(maker, "token_to_integer", 1)?;
    let action = handed_on(maker, "action", 2)?;
    let error_action = error_method(maker, form)?;
    let eof_action = eof_method(maker)?;
    let goto = handed_on(maker, "goto", 2)?;
    let token_to_symbol = handed_on(maker, "token_to_symbol", 2)?;
    let expected_tokens_from_states = handed_on(maker, "expected_tokens_from_states", 1)?;
    let (uses_error_recovery, error_recovery_symbol) = recovery_methods(maker, form)?;
    let reduce = reduce_method(maker, form, fields, field_count)?;
    let simulate_reduce = handed_on(maker, "simulate_reduce", 1)?;
    Ok(Methods {
        state_type: kind,
        start_location,
        start_state,
        token_to_index,
        action,
        error_action,
        eof_action,
        goto,
        token_to_symbol,
        expected_tokens_from_states,
        uses_error_recovery,
        error_recovery_symbol,
        reduce,
        simulate_reduce,
    })
}

// The action on the error terminal, whose number is printed.
fn error_method<'p>(maker: &mut Maker<'p>, form: Form<'p>) -> Result<usize, AllocError>
    ensures number { IfOk result (λ n. n ≡ length (making maker.old).functions) }
    ensures made { OnOk result (making maker.new ≡ with_error_action (listed form.entry) (making maker.old)) }
{
    let last = maker.index(last_terminal(form.hole(9)));
    let args = vec![in maker.alloc; Expr::take(0), last]?;
    let body = maker.call("action", "", args)?;
    method(maker, 1, body)
}

fn eof_method<'p>(maker: &mut Maker<'p>) -> Result<usize, AllocError>
    ensures number { IfOk result (λ n. n ≡ length (making maker.old).functions) }
    ensures made { OnOk result (making maker.new ≡ with_eof_action (making maker.old)) }
{
    let body = eof_entry(maker, Expr::take(0))?;
    method(maker, 1, body)
}

// `0`, or a number and ` - 1`.
fn last_terminal(text: &str) -> Option<usize>
    ensures { result ≡ last_terminal text.now }
{
    match cut_at(" - ", text) {
        None => number(text),
        Some((count, less)) => less_found(number(count), number(less)),
    }
}

fn less_found(count: Option<usize>, less: Option<usize>) -> Option<usize>
    ensures { result ≡ less_found count less }
{
    match count {
        None => None,
        Some(count) => match less {
            None => None,
            Some(less) => difference(count, less),
        },
    }
}

fn difference(m: usize, n: usize) -> Option<usize>
    ensures { result ≡ difference m n }
{
    if n <= m { Some(m - n) } else { None }
}

fn recovery_methods<'p>(maker: &mut Maker<'p>, form: Form<'p>) -> Result<(usize, usize), AllocError>
    ensures uses { IfOk result (λ r. r.0 ≡ uses_number (listed form.entry) (making maker.old)) }
    ensures symbol { IfOk result (λ r. r.1 ≡ symbol_number (listed form.entry) (making maker.old)) }
    ensures made { OnOk result (making maker.new ≡ with_recovery (listed form.entry) (making maker.old)) }
{
    let (uses, symbol) = recovery_rows(maker, form)?;
    let uses = method(maker, 0, uses)?;
    let symbol = method(maker, 1, symbol)?;
    Ok((uses, symbol))
}

// Whether the machine recovers, and the symbol of an error.
fn recovery_rows<'p>(maker: &mut Maker<'p>, form: Form<'p>) -> Result<(Expr, Expr), AllocError>
    ensures { IfOk result (λ r. recovering_of r.0 r.1 (making maker.new) ≡ recovery_rows (making maker.old) (listed form.entry)) }
{
    let mut uses = Expr::stuck();
    let mut symbol = Expr::stuck();
    for row in form.parts() {
        recovery_row(maker, &mut uses, &mut symbol, row)?;
    }
    Ok((uses, symbol))
}

fn recovery_row<'p>(
    maker: &mut Maker<'p>,
    uses: &mut Expr,
    symbol: &mut Expr,
    row: Form<'p>,
) -> Result<(), AllocError>
    ensures { OnOk result (recovering_of uses.new symbol.new (making maker.new) ≡ recovery_row (recovering_of uses.old symbol.old (making maker.old)) (listed row.entry)) }
{
    if is_a(Part::RecoveryOn, row) {
        let variant = maker.variant(row.hole(0))?;
        *symbol = maker.apply(Op::Wrap(variant), Expr::take(0))?;
        *uses = Expr::plain(Leaf::Bool(true));
        Ok(())
    } else if is_a(Part::RecoveryOff, row) {
        *uses = Expr::plain(Leaf::Bool(false));
        Ok(())
    } else {
        Ok(())
    }
}

// `~reduce(self.param, .., action, start_location, states, symbols)`: the fields stand in the first
// slots.
fn reduce_method<'p>(
    maker: &mut Maker<'p>,
    form: Form<'p>,
    fields: &Scope,
    field_count: usize,
) -> Result<usize, AllocError>
    ensures number { IfOk result (λ n. n ≡ length (making maker.old).functions) }
    ensures made { OnOk result (making maker.new ≡ with_reduce_method (listed form.entry) fields.now field_count (making maker.old)) }
{
    let params = field_count.checked_add(4).ok_or(AllocError)?;
    let args = reduce_arguments(maker, form, fields, field_count)?;
    let body = maker.call("reduce", "", args)?;
    method(maker, params, body)
}

fn reduce_arguments<'p>(
    maker: &Maker<'p>,
    form: Form<'p>,
    fields: &Scope,
    field_count: usize,
) -> Result<Vec<Expr>, AllocError>
    requires { field_count + 4 < 2 ^ 64 }
    ensures { IfOk result (λ args. args.items ≡ reduce_arguments fields.now field_count (listed form.entry)) }
{
    let mut args = field_rows(maker, form, fields)?;
    args.push(Expr::take(field_count))?;
    args.push(Expr::take(field_count + 1))?;
    args.push(Expr::take(field_count + 2))?;
    args.push(Expr::take(field_count + 3))?;
    Ok(args)
}

fn field_rows<'p>(
    maker: &Maker<'p>,
    form: Form<'p>,
    fields: &Scope,
) -> Result<Vec<Expr>, AllocError>
    ensures { IfOk result (λ args. args.items ≡ field_rows fields.now (listed form.entry)) }
{
    let mut args = Vec::new(maker.alloc);
    for row in form.parts() {
        field_row(maker, fields, row, &mut args)?;
    }
    Ok(args)
}

fn field_row<'p>(
    maker: &Maker<'p>,
    fields: &Scope,
    row: Form<'p>,
    args: &mut Vec<Expr>,
) -> Result<(), AllocError>
    ensures { OnOk result (args.new.items ≡ field_row fields.now args.old.items (listed row.entry)) }
{
    if is_a(Part::SelfRow, row) {
        args.push(maker.name(fields, row.hole(0)))?;
        Ok(())
    } else {
        Ok(())
    }
}
