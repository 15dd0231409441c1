//! Bodies of actions: whether a reader tells them.

ghost use Rattle.std.specs.Prelude.{◌≡◌, ◌↔◌, [], map, length, IsTrue, IfOk};
ghost use Rattle.lp_reading_laws.specs.Holes.Inlined.{begins_inlined};
ghost use Rattle.lp_program.specs.Parameters.{first_or, parameter_after, parameters_of};
ghost use Rattle.lp_program.specs.Trees.{content, forest, whole};
ghost use Rattle.lp_fitting.specs.Bodies.{BodiesSuit, IsOtherCode, SuitsBody, SuitsUser};

use crate::fills::hole_at;
use lp_form::Part;
use lp_program::read::Parameters;
use lp_spelling::cursor::Cursor;
use lp_tree::Entry;
use lp_view::end_of;
use std::alloc::{AllocError, Global};

/// Whether a line begins as the first of a span, of a call or of the outer call among inlined
/// actions.
fn begins_inlined(alloc: Global, prefix: &str, line: &str) -> Result<bool, AllocError>
    ensures { IfOk result (λ b. b ≡ begins_inlined prefix.now line.now) }
{
    let span = format!(in alloc; "let {prefix}")?;
    let call = format!(in alloc; "{prefix}action")?;
    let outer = format!(in alloc; "Ok({prefix}action")?;
    let line = line.as_bytes();
    Ok(
        line.starts_with(span.as_bytes())
            || line.starts_with(call.as_bytes())
            || line.starts_with(outer.as_bytes()),
    )
}

/// Whether the first line of user code that counts, if there is one, doesn't begin as those of
/// inlined actions.
fn is_other_code(alloc: Global, prefix: &str, code: &str) -> Result<bool, AllocError>
    ensures { IfOk result (λ b. IsTrue b ↔ IsOtherCode prefix.now code.now) }
{
    match Cursor::new(code).line() {
        None => Ok(true),
        Some(line) => Ok(!begins_inlined(alloc, prefix, line)?),
    }
}

/// Whether user code suits the parameters before it.
fn suits_user(
    alloc: Global,
    prefix: &str,
    whose: Parameters,
    code: &str,
) -> Result<bool, AllocError>
    ensures { IfOk result (λ b. IsTrue b ↔ SuitsUser prefix.now whose code.now) }
{
    match whose {
        Parameters::User => Ok(true),
        Parameters::Inlined => Ok(false),
        Parameters::None => is_other_code(alloc, prefix, code),
    }
}

/// Whether a part, if it is the body of an action, suits the parameters before it.
fn suits_body(
    alloc: Global,
    prefix: &str,
    whose: Parameters,
    entry: &Entry<'_>,
) -> Result<bool, AllocError>
    ensures { IfOk result (λ b. IsTrue b ↔ SuitsBody prefix.now whose entry.now.part entry.now.holes.items) }
{
    match entry.part {
        Part::UserBody => suits_user(alloc, prefix, whose, hole_at(&entry.holes, 0)),
        Part::InlineBody => Ok(whose != Parameters::User),
        _ => Ok(true),
    }
}

/// Whose parameters end with this one.
fn parameters_of(prefix: &str, last: &str) -> Parameters
    ensures { result ≡ parameters_of prefix.now last.now }
{
    if last.starts_with("(_, ") {
        return Parameters::User;
    }
    match last.strip_prefix(prefix) {
        Some(rest) if rest.starts_with("look") => Parameters::None,
        Some(_) => Parameters::Inlined,
        None => Parameters::None,
    }
}

/// The first hole of a part, if it has one; else another text.
fn first_or<'a>(other: &'a str, entry: &'a Entry<'_>) -> &'a str
    ensures { result.now ≡ first_or other.now entry.now.holes.items }
{
    if entry.holes.is_empty() {
        return other;
    }
    entry.holes[0].as_str()
}

/// The last parameter after a part, where this was the last before it.
fn parameter_after<'a>(last: &'a str, entry: &'a Entry<'_>) -> &'a str
    ensures { result.now ≡ parameter_after last.now (content entry.now) }
{
    if entry.part == Part::ParameterRow {
        return first_or(last, entry);
    }
    last
}

/// Whether a part behind this parameter, and all below it, suit.
#[cycle(suiting)]
fn tree_suits(
    alloc: Global,
    prefix: &str,
    last: &str,
    entry: &Entry<'_>,
    below: &[Entry<'_>],
) -> Result<bool, AllocError>
    ensures { IfOk result (λ b. IsTrue b ↔ (SuitsBody prefix.now (parameters_of prefix.now last.now) entry.now.part entry.now.holes.items × BodiesSuit prefix.now [] (forest below.now))) }
{
    let whose = parameters_of(prefix, last);
    if !suits_body(alloc, prefix, whose, entry)? {
        return Ok(false);
    }
    trees_suit(alloc, prefix, below)
}

/// Whether all bodies in the trees of a list of parts suit.
#[cycle(suiting)]
fn trees_suit(alloc: Global, prefix: &str, entries: &[Entry<'_>]) -> Result<bool, AllocError>
    ensures { IfOk result (λ b. IsTrue b ↔ BodiesSuit prefix.now [] (forest entries.now)) }
{
    let mut last = "";
    let mut next = 0;
    for at in 0..entries.len() {
        let entry = &entries[at];
        let before = last;
        last = parameter_after(before, entry);
        if at == next {
            next = end_of(entries, at);
            if !tree_suits(alloc, prefix, before, entry, &entries[at + 1..next])? {
                return Ok(false);
            }
        }
    }
    Ok(true)
}

/// Whether all bodies of actions of a program suit the parameters before them.
pub(crate) fn bodies_suit(
    alloc: Global,
    prefix: &str,
    entries: &[Entry<'_>],
) -> Result<bool, AllocError>
    ensures { IfOk result (λ b. IsTrue b ↔ BodiesSuit prefix.now [] (whole entries.now)) }
{
    match entries.split_first() {
        None => Ok(true),
        Some((first, below)) => tree_suits(alloc, prefix, "", first, below),
    }
}
