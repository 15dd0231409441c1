//! Recursive ascent: the errors of a state.

ghost use Rattle.std.specs.Prelude.{◌≡◌, ◌+◌, ◌<◌, ◌^◌, IfOk, OnOk};
ghost use Rattle.std.specs.Option.{option_map};
ghost use Rattle.lp_view.specs.PartLists.{listed};
ghost use Rattle.lp_maker.specs.Making.{making};
ghost use Rattle.lp_bodies.specs.Reductions.{done_of};
ghost use Rattle.lp_ascent_bodies.specs.AscentErrors.{end_or, other_slots, chaining_of, link, links, no_links, first_cell, cell_row, other_cells, chain, with_chain, location, with_location, found_location, with_found_location, expected_list, unrecognized, error_names, error_value, with_error, expected_error};

use crate::ascent_reduce::top_slot;
use lp_bodies::reduce::part_closure;
use lp_bodies::source::{default_location, function};
use lp_core::{Expr, Join, Op, Tag};
use lp_form::Part;
use lp_maker::forms::{Form, first, is_a};
use lp_maker::maker::Maker;
use lp_maker::scope::Scope;
use std::alloc::AllocError;

/// The error of a state: the token that is there, or the end, with the expected list.
pub fn expected_error<'p>(
    maker: &mut Maker<'p>,
    scope: &mut Scope,
    form: Form<'p>,
) -> Result<Expr, AllocError>
    ensures { IfOk result (λ v. done_of v scope.new (making maker.new) ≡ expected_error (making maker.old) scope.old (listed form.entry)) }
{
    let mark = scope.open();
    let value = error_value(maker, scope, form)?;
    scope.close(mark);
    Ok(value)
}

fn error_value<'p>(
    maker: &mut Maker<'p>,
    scope: &mut Scope,
    form: Form<'p>,
) -> Result<Expr, AllocError>
    ensures value { IfOk result (λ v. v ≡ error_value (making maker.old) scope.old (listed form.entry)) }
    ensures names { OnOk result (scope.new ≡ error_names scope.old) }
    ensures made { OnOk result (making maker.new ≡ with_error scope.old (listed form.entry) (making maker.old)) }
{
    let list = expected_list(maker, scope)?;
    let expected = scope.bind(maker.alloc, "~expected")?;
    let listed = maker.write(expected, list)?;
    let token = scope.fresh()?;
    let location = found_location(maker, scope, first(form))?;
    let back = unrecognized(maker, scope, token, expected, location)?;
    Ok(Expr::block(vec![in maker.alloc; listed, back]?))
}

// `~expected`, the terminals that the states accept.
fn expected_list<'p>(maker: &Maker<'p>, scope: &Scope) -> Result<Expr, AllocError>
    ensures { IfOk result (λ v. v ≡ expected_list (making maker.now) scope.now) }
{
    let args = vec![in maker.alloc; maker.name(scope, "~states")]?;
    maker.call("expected", "", args)
}

// The return of the error: of the lookahead, or of the end of input.
fn unrecognized<'p>(
    maker: &Maker<'p>,
    scope: &Scope,
    token: usize,
    expected: usize,
    location: Expr,
) -> Result<Expr, AllocError>
    ensures { IfOk result (λ v. v ≡ unrecognized scope.now token expected location) }
{
    let some = maker.pair(
        Join::UnrecognizedToken,
        Expr::take(token),
        Expr::take(expected),
    )?;
    let none = maker.pair(Join::UnrecognizedEof, location, Expr::take(expected))?;
    let lookahead = maker.name(scope, "~lookahead");
    let error = maker.on_option(lookahead, token, none, some)?;
    let bad = maker.apply(Op::Wrap(Tag::Failure), error)?;
    maker.give_back(bad)
}

// Where the end of input is, if that is there.
fn found_location<'p>(
    maker: &mut Maker<'p>,
    scope: &Scope,
    form: Option<Form<'p>>,
) -> Result<Expr, AllocError>
    ensures value { IfOk result (λ v. v ≡ found_location (making maker.old) scope.now (option_map listed form.entry)) }
    ensures made { OnOk result (making maker.new ≡ with_found_location scope.now (option_map listed form.entry) (making maker.old)) }
{
    match form {
        None => Ok(Expr::stuck()),
        Some(form) => location(maker, scope, form),
    }
}

// The end of the topmost symbol, or the default.
fn location<'p>(maker: &mut Maker<'p>, scope: &Scope, form: Form<'p>) -> Result<Expr, AllocError>
    ensures value { IfOk result (λ v. v ≡ location (making maker.old) scope.now (listed form.entry)) }
    ensures made { OnOk result (making maker.new ≡ with_location scope.now (listed form.entry) (making maker.old)) }
{
    if is_a(Part::LocationFixed, form) {
        let top = top_slot(maker, scope, form)?;
        maker.apply(Op::Part(2), top)
    } else if is_a(Part::LocationChain, form) {
        chain(maker, scope, form)
    } else {
        Ok(default_location())
    }
}

// The end of the topmost cell that holds something, else the default; each closure of the chain is handed the cells
// that are left.
fn chain<'p>(maker: &mut Maker<'p>, scope: &Scope, form: Form<'p>) -> Result<Expr, AllocError>
    ensures value { IfOk result (λ v. v ≡ chain (making maker.old) scope.now (listed form.entry)) }
    ensures made { OnOk result (making maker.new ≡ with_chain scope.now (listed form.entry) (making maker.old)) }
{
    let others = other_cells(maker, scope, form)?;
    let tested = first_cell(maker, scope, first(form))?;
    let shown = first_cell(maker, scope, first(form))?;
    let end = part_closure(maker, 2)?;
    let count = others.len();
    let next = links(maker, end, count)?;
    end_or(maker, end, next, tested, shown, others)
}

fn first_cell<'p>(
    maker: &Maker<'p>,
    scope: &Scope,
    row: Option<Form<'p>>,
) -> Result<Expr, AllocError>
    ensures { IfOk result (λ v. v ≡ first_cell scope.now (option_map listed row.entry)) }
{
    match row {
        None => Ok(Expr::stuck()),
        Some(row) => top_slot(maker, scope, row),
    }
}

// The cells below the topmost one.
fn other_cells<'p>(
    maker: &Maker<'p>,
    scope: &Scope,
    form: Form<'p>,
) -> Result<Vec<Expr>, AllocError>
    ensures { IfOk result (λ cells. cells.items ≡ other_cells scope.now (listed form.entry)) }
{
    let mut cells = Vec::new(maker.alloc);
    let mut rows = form.parts();
    let _topmost = rows.next();
    for row in rows {
        cell_row(maker, scope, row, &mut cells)?;
    }
    Ok(cells)
}

fn cell_row<'p>(
    maker: &Maker<'p>,
    scope: &Scope,
    row: Form<'p>,
    cells: &mut Vec<Expr>,
) -> Result<(), AllocError>
    ensures { OnOk result (cells.new.items ≡ cell_row scope.now cells.old.items (listed row.entry)) }
{
    let cell = top_slot(maker, scope, row)?;
    cells.push(cell)?;
    Ok(())
}

// A closure for no other cell, for one, and so on; the number of the last.
#[tactic(auto, using(crate::proofs::Chains::links_next))]
fn links<'p>(maker: &mut Maker<'p>, end: usize, count: usize) -> Result<usize, AllocError>
    ensures { IfOk result (λ last. chaining_of last (making maker.new) ≡ links end count (no_links (making maker.old))) }
{
    let mut last = maker.closure(function(0, 0, default_location()))?;
    for others in 0..count {
        last = link(maker, end, last, others)?;
    }
    Ok(last)
}

// The closure of a cell and so many others.
fn link<'p>(
    maker: &mut Maker<'p>,
    end: usize,
    next: usize,
    others: usize,
) -> Result<usize, AllocError>
    requires { others + 1 < 2 ^ 64 }
    ensures { IfOk result (λ last. chaining_of last (making maker.new) ≡ link end others (chaining_of next (making maker.old))) }
{
    let left = other_slots(maker, others)?;
    let body = end_or(maker, end, next, Expr::read(0), Expr::read(0), left)?;
    maker.closure(function(others + 1, 0, body))
}

// The slots after the first, so many.
#[tactic(auto, using(crate::proofs::Chains::slots_next))]
fn other_slots<'p>(maker: &Maker<'p>, count: usize) -> Result<Vec<Expr>, AllocError>
    ensures { IfOk result (λ all. all.items ≡ other_slots count) }
{
    let mut all = Vec::new(maker.alloc);
    for slot in 0..count {
        all.push(Expr::read(slot + 1))?;
    }
    Ok(all)
}

// The end of what a cell holds, else what a closure of the other cells answers.
fn end_or<'p>(
    maker: &Maker<'p>,
    end: usize,
    next: usize,
    tested: Expr,
    shown: Expr,
    others: Vec<Expr>,
) -> Result<Expr, AllocError>
    ensures { IfOk result (λ v. v ≡ end_or end next tested shown others.items) }
{
    let test = maker.apply(Op::IsEmpty, tested)?;
    let inside = maker.apply(Op::ReadIn, shown)?;
    let located = Expr::call(end, vec![in maker.alloc; inside]?);
    Expr::choose(maker.alloc, test, Expr::call(next, others), located)
}
