//! A program is entered once: its forms become functions of the core language.

ghost use Rattle.std.specs.Prelude.{◌≡◌, None, OnOk, IfOk, MatchOption};
ghost use Rattle.std.specs.Option.{option_map};
ghost use Rattle.lp_tree.specs.ProgramTree.{program_items};
ghost use Rattle.lp_view.specs.PartLists.{listed};
ghost use Rattle.lp_maker.specs.Making.{making};
ghost use Rattle.lp_run.specs.Named.{named};
ghost use Rattle.lp_run.specs.Promised.{beginning_of, promises_of};
ghost use Rattle.lp_run.specs.ParseMethod.{parse_of, parsing_of};
ghost use Rattle.lp_run.specs.Entered.{with_closure, sourced, with_source, ready_of, made_after, Enters, EntersSome};

use crate::functions::{actions_made, all_made};
use crate::named::{is_interned, items_under, parser_of};
use crate::parse::{Parser, parameters_of, parse_made};
use crate::promised::{Begun, beginning, module_rows};
use lp_bodies::source::item_closure;
use lp_core::Code;
use lp_maker::forms::Form;
use lp_maker::maker::Maker;
use lp_maker::scope::Scope;
use lp_tree::Program;
use lp_view::root;
use std::alloc::{AllocError, Global};

/// The code of a start's module.
#[derive(Drop)]
pub struct Entered {
    pub code: Code,
    pub parser: Parser,
    /// How many parameters `parse` has besides the tokens.
    pub params: usize,
    /// The closure of the token source; none where the items are tokens as they stand.
    pub closure: Option<usize>,
    /// Whether items keep their locations.
    pub located: bool,
}

/// Enters the module of a public name, where there is one.
pub fn enter(
    alloc: Global,
    program: &Program<'_>,
    start: &str,
) -> Result<Option<Entered>, AllocError>
    ensures { IfOk result (λ o. MatchOption o (named program.now start.now ≡ None) (λ e. EntersSome program.now (named program.now start.now) e)) }
{
    match named(program, start) {
        None => Ok(None),
        Some(items) => {
            let entered = enter_items(alloc, program, items)?;
            Ok(Some(entered))
        }
    }
}

fn named<'p>(program: &'p Program<'_>, start: &str) -> Option<Form<'p>>
    ensures { option_map listed result ≡ named program.now start.now }
{
    items_under(start, root(program).as_part())
}

// Enters these items of a program.
fn enter_items<'p>(
    alloc: Global,
    program: &'p Program<'_>,
    items: Form<'p>,
) -> Result<Entered, AllocError>
    ensures { IfOk result (λ e. Enters program.now (listed items.entry) e) }
{
    let prefix = program.prefix.as_str();
    let names = parameters_of(alloc, prefix, items)?;
    let params = names.slots();
    let mut maker = Maker::new(alloc, prefix);
    let begun = beginning(&mut maker, root(program).as_part())?;
    let located = begun.located;
    let (parser, closure) = made_after(&mut maker, items, names, begun)?;
    let code = maker.finish()?;
    Ok(Entered {
        code,
        parser,
        params,
        closure,
        located,
    })
}

// Makes the closure of items, the functions of the module and of the actions, and what `parse` does.
fn made_after<'p>(
    maker: &mut Maker<'p>,
    items: Form<'p>,
    names: Scope,
    begun: Begun<'p>,
) -> Result<(Parser, Option<usize>), AllocError>
    ensures { IfOk result (λ r. ready_of r.1 (parsing_of (parse_of r.0) (making maker.new)) ≡ made_after (listed items.entry) names (beginning_of begun.entry.located (promises_of begun.entry.actions.items) (making maker.old))) }
{
    with_source(maker, items, begun.located)?;
    let promises = module_rows(maker, items)?;
    let functions = promises.as_slice();
    all_made(maker, functions)?;
    let actions = begun.actions.as_slice();
    actions_made(maker, actions)?;
    let closure = maker.item_closure;
    let parser = parse_made(maker, items, names)?;
    Ok((parser, closure))
}

fn with_closure<'p>(maker: &mut Maker<'p>, located: bool) -> Result<(), AllocError>
    ensures { OnOk result (making maker.new ≡ with_closure located (making maker.old)) }
{
    let number = item_closure(maker, located)?;
    maker.item_closure = Some(number);
    Ok(())
}

fn sourced<'p>(
    maker: &mut Maker<'p>,
    located: bool,
    parser: Option<Form<'p>>,
) -> Result<(), AllocError>
    ensures { OnOk result (making maker.new ≡ sourced located (making maker.old) (option_map listed parser.entry)) }
{
    match parser {
        None => with_closure(maker, located),
        Some(parser) => {
            if is_interned(parser) {
                Ok(())
            } else {
                with_closure(maker, located)
            }
        }
    }
}

// The closure that makes triples of items, where the grammar is not interned.
fn with_source<'p>(maker: &mut Maker<'p>, items: Form<'p>, located: bool) -> Result<(), AllocError>
    ensures { OnOk result (making maker.new ≡ with_source (listed items.entry) located (making maker.old)) }
{
    sourced(maker, located, parser_of(items))
}
