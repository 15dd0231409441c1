//! The module that a public name enters.

ghost use Rattle.std.specs.Prelude.{◌≡◌};
ghost use Rattle.std.specs.Option.{option_map};
ghost use Rattle.lp_view.specs.PartLists.{listed, parts_of, is_a, first_that};
ghost use Rattle.lp_run.specs.Named.{is_items, is_interned, is_plain, is_parser, parser_of, named_by, named_items, entered_by, items_under};

use lp_form::Part;
use lp_maker::forms::{Form, is_a};
use lp_maker::texts::same;

/// The first part below that is this part.
pub fn first_part<'p>(sought: Part, form: Form<'p>) -> Option<Form<'p>>
    ensures { option_map listed result ≡ first_that (is_a sought) (parts_of (listed form.entry)) }
{
    for row in form.parts() {
        if is_a(sought, row) {
            return Some(row);
        }
    }
    None
}

fn is_items(form: Form<'_>) -> bool
    ensures { result ≡ is_items (listed form.entry) }
{
    is_a(Part::TableItems, form) || is_a(Part::AscentItems, form)
}

/// Whether a parser is one of an interned grammar.
pub fn is_interned(form: Form<'_>) -> bool
    ensures { result ≡ is_interned (listed form.entry) }
{
    is_a(Part::TableParserInterned, form) || is_a(Part::AscentParserInterned, form)
}

fn is_plain(form: Form<'_>) -> bool
    ensures { result ≡ is_plain (listed form.entry) }
{
    is_a(Part::TableParserPlain, form) || is_a(Part::AscentParserPlain, form)
}

fn is_parser(form: Form<'_>) -> bool
    ensures { result ≡ is_parser (listed form.entry) }
{
    is_interned(form) || is_plain(form)
}

/// The parser among items.
pub fn parser_of<'p>(items: Form<'p>) -> Option<Form<'p>>
    ensures { option_map listed result ≡ parser_of (listed items.entry) }
{
    for row in items.parts() {
        if is_parser(row) {
            return Some(row);
        }
    }
    None
}

// The items of a module.
fn items_of<'p>(form: Form<'p>) -> Option<Form<'p>>
    ensures { option_map listed result ≡ first_that is_items (parts_of (listed form.entry)) }
{
    for row in form.parts() {
        if is_items(row) {
            return Some(row);
        }
    }
    None
}

fn named_by<'p>(start: &str, items: Form<'p>, parser: Option<Form<'p>>) -> Option<Form<'p>>
    ensures { option_map listed result ≡ named_by start.now (listed items.entry) (option_map listed parser.entry) }
{
    match parser {
        None => None,
        Some(parser) => {
            if same(parser.hole(1), start) {
                Some(items)
            } else {
                None
            }
        }
    }
}

fn named_items<'p>(start: &str, items: Option<Form<'p>>) -> Option<Form<'p>>
    ensures { option_map listed result ≡ named_items start.now (option_map listed items.entry) }
{
    match items {
        None => None,
        Some(items) => named_by(start, items, parser_of(items)),
    }
}

// The items of a parse module under this name.
fn entered_by<'p>(start: &str, form: Form<'p>) -> Option<Form<'p>>
    ensures { option_map listed result ≡ entered_by start.now (listed form.entry) }
{
    if is_a(Part::ParseModule, form) {
        named_items(start, items_of(form))
    } else {
        None
    }
}

/// The items of the first parse module under a name, among the parts of a program.
pub fn items_under<'p>(start: &str, form: Form<'p>) -> Option<Form<'p>>
    ensures { option_map listed result ≡ items_under start.now (listed form.entry) }
{
    for row in form.parts() {
        match entered_by(start, row) {
            Some(items) => return Some(items),
            None => {}
        }
    }
    None
}
