//! The token source, and how its items become triples.

ghost use Rattle.std.specs.Prelude.{◌≡◌, Some, length, IfOk, OnOk};
ghost use Rattle.lp_view.specs.PartLists.{listed};
ghost use Rattle.lp_maker.specs.Making.{making, with_function};
ghost use Rattle.lp_bodies.specs.Source.{is_located, function, default_location, unlocated, triple_function, token_function, fault_error, fault_good, fault_number, with_first, with_error, with_fault, item_number, with_item};

use lp_core::{Expr, Function, Join, Leaf, Op, Tag};
use lp_form::Part;
use lp_maker::forms::{Form, is_a};
use lp_maker::maker::Maker;
use std::alloc::AllocError;

/// Whether items keep their locations.
pub fn is_located(form: Form<'_>) -> bool
    ensures { result ≡ is_located (listed form.entry) }
{
    is_a(Part::ToTripleLocated, form) || is_a(Part::ToTripleLocatedWhere, form)
}

/// The closure of the token source, for items as `Ok` of a triple or `Err` of a fault.
pub fn item_closure<'p>(maker: &mut Maker<'p>, located: bool) -> Result<usize, AllocError>
    ensures number { IfOk result (λ n. n ≡ item_number located (making maker.old)) }
    ensures made { OnOk result (making maker.new ≡ with_item located (making maker.old)) }
{
    let first = first_closure(maker, located)?;
    let second = fault_closure(maker, located)?;
    let token = Expr::call(first, vec![in maker.alloc; Expr::take(1)]?);
    let bad = maker.apply(Op::Wrap(Tag::Failure), Expr::take(1))?;
    let fault = Expr::call(second, vec![in maker.alloc; bad]?);
    let body = maker.on_result(Expr::take(0), 1, token, fault)?;
    maker.closure(function(1, 1, body))
}

/// A function of so many parameters, with so many slots besides.
pub fn function(params: usize, slots: usize, body: Expr) -> Function
    ensures { result ≡ function params slots body }
{
    Function {
        params,
        slots,
        body,
    }
}

fn first_closure<'p>(maker: &mut Maker<'p>, located: bool) -> Result<usize, AllocError>
    ensures number { IfOk result (λ n. n ≡ length (making maker.old).functions) }
    ensures made { OnOk result (making maker.new ≡ with_first located (making maker.old)) }
{
    if located {
        triple_closure(maker)
    } else {
        token_closure(maker)
    }
}

// `Ok(self)`.
fn triple_closure<'p>(maker: &mut Maker<'p>) -> Result<usize, AllocError>
    ensures number { IfOk result (λ n. n ≡ length (making maker.old).functions) }
    ensures made { OnOk result (making maker.new ≡ with_function (Some triple_function) (making maker.old)) }
{
    let body = maker.apply(Op::Wrap(Tag::Success), Expr::take(0))?;
    maker.closure(function(1, 0, body))
}

// `Ok(((), self, ()))`, where self is the token of an item.
fn token_closure<'p>(maker: &mut Maker<'p>) -> Result<usize, AllocError>
    ensures number { IfOk result (λ n. n ≡ length (making maker.old).functions) }
    ensures made { OnOk result (making maker.new ≡ with_function (Some token_function) (making maker.old)) }
{
    let token = maker.apply(Op::Part(1), Expr::take(0))?;
    let triple = unlocated(maker, token)?;
    let body = maker.apply(Op::Wrap(Tag::Success), triple)?;
    maker.closure(function(1, 0, body))
}

/// `Default::default()` as a location.
pub fn default_location() -> Expr
    ensures { result ≡ default_location }
{
    Expr::plain(Leaf::DefaultLocation)
}

// A value with no locations of its own.
fn unlocated<'p>(maker: &Maker<'p>, value: Expr) -> Result<Expr, AllocError>
    ensures { IfOk result (λ v. v ≡ unlocated value) }
{
    let parts = vec![in maker.alloc; default_location(), value, default_location()]?;
    Ok(Expr::join(Join::Make(Tag::Tuple), parts))
}

// With locations `self.map_err(|error| ..)`, whose closure is a call; else a match.
fn fault_closure<'p>(maker: &mut Maker<'p>, located: bool) -> Result<usize, AllocError>
    ensures number { IfOk result (λ n. n ≡ fault_number located (making maker.old)) }
    ensures made { OnOk result (making maker.new ≡ with_fault located (making maker.old)) }
{
    let error = fault_error(maker, located)?;
    let good = fault_good(maker, located)?;
    let good = maker.apply(Op::Wrap(Tag::Success), good)?;
    let bad = maker.apply(Op::Wrap(Tag::Failure), error)?;
    let body = maker.on_result(Expr::take(0), 1, good, bad)?;
    maker.closure(function(1, 1, body))
}

fn fault_good<'p>(maker: &Maker<'p>, located: bool) -> Result<Expr, AllocError>
    ensures { IfOk result (λ v. v ≡ fault_good located) }
{
    if located {
        Ok(Expr::take(1))
    } else {
        unlocated(maker, Expr::take(1))
    }
}

fn fault_error<'p>(maker: &mut Maker<'p>, located: bool) -> Result<Expr, AllocError>
    ensures value { IfOk result (λ v. v ≡ fault_error located (length (making maker.old).functions)) }
    ensures made { OnOk result (making maker.new ≡ with_error located (making maker.old)) }
{
    if !located {
        return maker.apply(Op::UserError, Expr::take(1));
    }
    let body = maker.apply(Op::UserError, Expr::take(0))?;
    let number = maker.closure(function(1, 0, body))?;
    Ok(Expr::call(number, vec![in maker.alloc; Expr::take(1)]?))
}
