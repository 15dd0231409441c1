//! A grammar that isn't lowered.

use crate::page::Message;
use lp_lower::LowerFault;
use lp_syntax::{PlainGrammar, PlainTerminal};
use lp_types::Span;
use std::alloc::{AllocError, Global};

/// Why a plain grammar isn't lowered.
pub fn unlowered(
    alloc: Global,
    text: &str,
    plain: &PlainGrammar,
    fault: LowerFault,
) -> Result<Message, AllocError> {
    match fault {
        LowerFault::UnknownName { place } => {
            let named = named_at(text, place);
            let title = format!(in alloc; "`{named}` is neither a rule nor a terminal")?;
            let mut message = Message::new(alloc, Some(span_of(place, named)), title);
            let help = if named.starts_with('"') {
                "declare it in the block `extern`, as `\"+\" => Tok::Plus,`"
            } else {
                "write the rule, or declare the terminal in the block `extern`"
            };
            message.note(alloc, "help", help)?;
            Ok(message)
        }
        LowerFault::InlineOrder { place } => {
            let named = named_at(text, place);
            let title = format!(in alloc;
                "the inline rule `{named}` isn't above the inline rule that uses it"
            )?;
            let mut message = Message::new(alloc, Some(span_of(place, named)), title);
            message.note(
                alloc,
                "help",
                "move it above; an inline rule can't use itself",
            )?;
            Ok(message)
        }
        LowerFault::Duplicate { place } => duplicate(alloc, text, plain, place),
        LowerFault::TooManyProductions { place } => {
            let named = named_at(text, place);
            let title = format!(in alloc;
                "with `{named}` the inline rules make too many right sides"
            )?;
            let mut message = Message::new(alloc, Some(span_of(place, named)), title);
            message.note(
                alloc,
                "note",
                "65,536 right sides and 1,048,576 symbols of them may be",
            )?;
            message.note(
                alloc,
                "help",
                "take `#[inline]` from rules that are used side by side",
            )?;
            Ok(message)
        }
        LowerFault::Memory => Err(AllocError),
    }
}

/// A rule or terminal that stands a second time.
fn duplicate(
    alloc: Global,
    text: &str,
    plain: &PlainGrammar,
    place: usize,
) -> Result<Message, AllocError> {
    let named = named_at(text, place);
    let span = span_of(place, named);
    for rule in plain.rules.as_slice() {
        if rule.place == place {
            let title = format!(in alloc; "a second rule `{named}`")?;
            let mut message = Message::new(alloc, Some(span), title);
            message.note(
                alloc,
                "help",
                "write its alternatives in one rule, or take another name",
            )?;
            return Ok(message);
        }
    }
    let is_named = is_earlier(text, plain.conversions.as_slice(), place, named);
    let title = if is_named {
        format!(in alloc; "a second terminal `{named}`")?
    } else {
        format!(in alloc; "`{named}` has the pattern of another terminal")?
    };
    let help = if is_named {
        "leave one of them out"
    } else {
        "two patterns differ in more than what their holes `<..>` take: leave one of them out"
    };
    let mut message = Message::new(alloc, Some(span), title);
    message.note(alloc, "help", help)?;
    Ok(message)
}

/// Whether a terminal before a place has this name.
fn is_earlier(text: &str, terminals: &[PlainTerminal], place: usize, name: &str) -> bool {
    for terminal in terminals {
        if terminal.place < place && named_at(text, terminal.place) == name {
            return true;
        }
    }
    false
}

/// The name or the literal that stands at a place.
fn named_at(text: &str, place: usize) -> &str {
    let rest = text.get(place..).unwrap_or("");
    let inside = rest.get(1..).unwrap_or("");
    let length = match rest.chars().next() {
        None => 0,
        Some('"') => inside
            .find('"')
            .map_or(rest.len(), |end| end.saturating_add(2)),
        Some('@') => 2,
        Some('!') => 1,
        Some(_) => rest
            .find(|c: char| !(c.is_alphanumeric() || c == '_'))
            .unwrap_or(rest.len()),
    };
    rest.get(..length).unwrap_or(rest)
}

fn span_of(place: usize, text: &str) -> Span {
    Span(place, place.saturating_add(text.len()))
}
