//! The `parse` method of a start: its parameters, and what it does.

ghost use Rattle.std.specs.Prelude.{◌≡◌, [], IfOk, OnOk};
ghost use Rattle.std.specs.Option.{option_map};
ghost use Rattle.lp_view.specs.PartLists.{listed, over, parts_of};
ghost use Rattle.lp_maker.specs.Texts.{binding};
ghost use Rattle.lp_maker.specs.Slots.{no_names};
ghost use Rattle.lp_maker.specs.Making.{making};
ghost use Rattle.lp_run.specs.ParseMethod.{parse_of, with_parameter, with_binding, parameter_row, header_names, parser_names, parameters_of, fields_of, field_row, fields, parsing_of, driving, driven_by, start_function, started, called, parser_called, parse_made};

use crate::named::{first_part, parser_of};
use lp_ascent_bodies::ascent::start;
use lp_bodies::methods::make_methods;
use lp_form::Part;
use lp_maker::forms::{Form, is_a};
use lp_maker::maker::Maker;
use lp_maker::methods::Methods;
use lp_maker::scope::Scope;
use lp_maker::texts::{Bound, bound_by, plain_name, same};
use std::alloc::{AllocError, Global};

/// What the `parse` method of a start does.
#[derive(Drop)]
pub enum Parser {
    /// It calls the driver over the methods, with the parameters of these numbers as fields.
    Drive {
        methods: Methods,
        fields: Vec<Option<usize>>,
    },
    /// It calls the function of this number.
    Ascent(usize),
}

// A parameter of the grammar; the tokens are none.
fn with_parameter(alloc: Global, names: &mut Scope, name: &str) -> Result<(), AllocError>
    ensures { OnOk result (names.new ≡ with_parameter name.now names.old) }
{
    if same(name, "~tokens0") {
        Ok(())
    } else {
        names.bind(alloc, name)?;
        Ok(())
    }
}

fn with_binding(
    alloc: Global,
    prefix: &str,
    names: &mut Scope,
    bound: Bound<'_>,
) -> Result<(), AllocError>
    ensures { OnOk result (names.new ≡ with_binding prefix.now names.old (binding bound.entry)) }
{
    match bound {
        Bound::Nothing => Ok(()),
        Bound::Triple => Ok(()),
        Bound::Named(name) => {
            let name = plain_name(alloc, prefix, name)?;
            with_parameter(alloc, names, name.as_str())
        }
    }
}

fn parameter_row(
    alloc: Global,
    prefix: &str,
    names: &mut Scope,
    row: Form<'_>,
) -> Result<(), AllocError>
    ensures { OnOk result (names.new ≡ parameter_row prefix.now names.old (listed row.entry)) }
{
    if is_a(Part::ParameterRow, row) {
        with_binding(alloc, prefix, names, bound_by(row.hole(0)))
    } else {
        Ok(())
    }
}

// The parameters of the grammar under a header.
fn names_under(alloc: Global, prefix: &str, header: Form<'_>) -> Result<Scope, AllocError>
    ensures { IfOk result (λ names. names ≡ over (parameter_row prefix.now) no_names (parts_of (listed header.entry))) }
{
    let mut names = Scope::new(alloc);
    for row in header.parts() {
        parameter_row(alloc, prefix, &mut names, row)?;
    }
    Ok(names)
}

fn header_names(alloc: Global, prefix: &str, header: Option<Form<'_>>) -> Result<Scope, AllocError>
    ensures { IfOk result (λ names. names ≡ header_names prefix.now (option_map listed header.entry)) }
{
    match header {
        None => Ok(Scope::new(alloc)),
        Some(header) => names_under(alloc, prefix, header),
    }
}

fn parser_names(alloc: Global, prefix: &str, parser: Option<Form<'_>>) -> Result<Scope, AllocError>
    ensures { IfOk result (λ names. names ≡ parser_names prefix.now (option_map listed parser.entry)) }
{
    match parser {
        None => Ok(Scope::new(alloc)),
        Some(form) => header_names(alloc, prefix, first_part(Part::HeaderParse, form)),
    }
}

/// The parameters of the grammar, as the parser among items has them.
#[tactic(auto, unfolding(crate::specs::ParseMethod::parameters_of))]
pub fn parameters_of(alloc: Global, prefix: &str, items: Form<'_>) -> Result<Scope, AllocError>
    ensures { IfOk result (λ names. names ≡ parameters_of prefix.now (listed items.entry)) }
{
    parser_names(alloc, prefix, parser_of(items))
}

// The fields of the machine: the parameters that they are, and their names.
fn fields_of(
    alloc: Global,
    names: &Scope,
    form: Form<'_>,
) -> Result<(Vec<Option<usize>>, Scope), AllocError>
    ensures { IfOk result (λ f. fields_of f.0.items f.1 ≡ fields names.now (listed form.entry)) }
{
    let mut numbers = Vec::new(alloc);
    let mut known = Scope::new(alloc);
    for row in form.parts() {
        field_row(alloc, names, &mut numbers, &mut known, row)?;
    }
    Ok((numbers, known))
}

fn field_row(
    alloc: Global,
    names: &Scope,
    numbers: &mut Vec<Option<usize>>,
    known: &mut Scope,
    row: Form<'_>,
) -> Result<(), AllocError>
    ensures { OnOk result (fields_of numbers.new.items known.new ≡ field_row names.now (fields_of numbers.old.items known.old) (listed row.entry)) }
{
    let name = row.hole(0);
    numbers.push(names.find(name))?;
    known.bind(alloc, name)?;
    Ok(())
}

// The driver over the methods of the machine, if it is there.
fn driving<'p>(
    maker: &mut Maker<'p>,
    numbers: Vec<Option<usize>>,
    names: &Scope,
    machine: Option<Form<'p>>,
) -> Result<Parser, AllocError>
    ensures { IfOk result (λ p. parsing_of (parse_of p) (making maker.new) ≡ driving (making maker.old) (fields_of numbers.items names.now) (option_map listed machine.entry)) }
{
    match machine {
        None => Ok(Parser::Ascent(usize::MAX)),
        Some(machine) => {
            let methods = make_methods(maker, machine, names, numbers.len())?;
            Ok(Parser::Drive {
                methods,
                fields: numbers,
            })
        }
    }
}

fn driven_by<'p>(
    maker: &mut Maker<'p>,
    items: Form<'p>,
    names: &Scope,
    form: Form<'p>,
) -> Result<Parser, AllocError>
    ensures { IfOk result (λ p. parsing_of (parse_of p) (making maker.new) ≡ driven_by (making maker.old) (listed items.entry) names.now (listed form.entry)) }
{
    let (numbers, known) = fields_of(maker.alloc, names, form)?;
    driving(maker, numbers, &known, first_part(Part::MachineImpl, items))
}

// The start of recursive ascent is a function without a name.
fn start_function<'p>(
    maker: &mut Maker<'p>,
    names: Scope,
    form: Form<'p>,
) -> Result<Parser, AllocError>
    ensures { IfOk result (λ p. parsing_of (parse_of p) (making maker.new) ≡ start_function (making maker.old) names (listed form.entry)) }
{
    let mut names = names;
    let params = names.slots();
    let body = start(maker, &mut names, form)?;
    let function = maker.function(params, &names, body);
    let number = maker.closure(function)?;
    Ok(Parser::Ascent(number))
}

fn started<'p>(
    maker: &mut Maker<'p>,
    names: Scope,
    start: Option<Form<'p>>,
) -> Result<Parser, AllocError>
    ensures { IfOk result (λ p. parsing_of (parse_of p) (making maker.new) ≡ started (making maker.old) names (option_map listed start.entry)) }
{
    match start {
        None => Ok(Parser::Ascent(usize::MAX)),
        Some(start) => start_function(maker, names, start),
    }
}

fn called<'p>(
    maker: &mut Maker<'p>,
    items: Form<'p>,
    names: Scope,
    form: Form<'p>,
    drive: Option<Form<'p>>,
) -> Result<Parser, AllocError>
    ensures { IfOk result (λ p. parsing_of (parse_of p) (making maker.new) ≡ called (making maker.old) (listed items.entry) names (listed form.entry) (option_map listed drive.entry)) }
{
    match drive {
        None => started(maker, names, first_part(Part::Start, form)),
        Some(drive) => driven_by(maker, items, &names, drive),
    }
}

fn parser_called<'p>(
    maker: &mut Maker<'p>,
    items: Form<'p>,
    names: Scope,
    parser: Option<Form<'p>>,
) -> Result<Parser, AllocError>
    ensures { IfOk result (λ p. parsing_of (parse_of p) (making maker.new) ≡ parser_called (making maker.old) (listed items.entry) names (option_map listed parser.entry)) }
{
    match parser {
        None => Ok(Parser::Ascent(usize::MAX)),
        Some(form) => called(maker, items, names, form, first_part(Part::Drive, form)),
    }
}

/// What the `parse` method of items does.
#[tactic(auto, unfolding(crate::specs::ParseMethod::parse_made))]
pub fn parse_made<'p>(
    maker: &mut Maker<'p>,
    items: Form<'p>,
    names: Scope,
) -> Result<Parser, AllocError>
    ensures { IfOk result (λ p. parsing_of (parse_of p) (making maker.new) ≡ parse_made (making maker.old) (listed items.entry) names) }
{
    parser_called(maker, items, names, parser_of(items))
}
