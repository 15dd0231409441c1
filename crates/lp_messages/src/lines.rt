//! Token lines that are none: the first wrong part.

use crate::page::Message;
use lp_lines::{MOST_LINES, Vocabulary, cut_file};
use lp_repr::repr::Grammar;
use lp_types::Span;
use std::alloc::{AllocError, Global};
use std::str;

/// What is said of a wrong part, by its place in the line; the last is that of the items.
const PARTS: &[(&str, &str)] = &[
    (
        "names no public rule",
        "a token line begins with the name of a rule that is `pub`",
    ),
    (
        "is no number of steps",
        "the second part is a number from 1 to 1,000,000, without leading zeros",
    ),
    (
        "lists no calls that fail",
        "the third part is `-`, or numbers between commas, without leading zeros",
    ),
    (
        "is no item",
        "write `i@a-b`, `i(p,q)@a-b` with as many captures as the terminal has, `?@a-b` or `!name`",
    ),
];

/// The first wrong part of the token line of this number, counted from 1.
pub fn line_message(
    alloc: Global,
    file: &[u8],
    grammar: &Grammar,
    line: usize,
) -> Result<Message, AllocError> {
    let (_, tail) = cut_file(file);
    let mut place = file.len().saturating_sub(tail.len());
    let mut number = 0usize;
    for content in tail.split(|byte| *byte == b'\n') {
        number = number.saturating_add(1);
        if number == line {
            return wrong_line(alloc, grammar, number, place, content);
        }
        place = place.saturating_add(content.len()).saturating_add(1);
    }
    let title = format!(in alloc; "token line {line} is none")?;
    Ok(Message::new(alloc, None, title))
}

/// The first wrong part of a line that begins at a place.
fn wrong_line(
    alloc: Global,
    grammar: &Grammar,
    number: usize,
    place: usize,
    content: &[u8],
) -> Result<Message, AllocError> {
    let end = place.saturating_add(content.len());
    if number > MOST_LINES {
        return said(
            alloc,
            Span(place, end),
            "a 65th token line",
            "a file has at most 64",
        );
    }
    if content.is_empty() {
        let help = "take it out; a second `%%` is none either";
        return said(
            alloc,
            Span(place, end),
            "an empty line among token lines",
            help,
        );
    }
    if content.ends_with(b"\r") {
        let title = "a token line ends with a carriage return";
        return said(
            alloc,
            Span(place, end),
            title,
            "end it with a line feed alone",
        );
    }
    let vocabulary = Vocabulary::new(alloc, grammar)?;
    let mut at = place;
    let mut count = 0usize;
    for part in content.split(|byte| *byte == b' ') {
        if part.is_empty() {
            let title = "two blanks, or one at an end of a token line";
            return said(
                alloc,
                Span(at, at),
                title,
                "write one blank between each two parts",
            );
        }
        if !fits(alloc, &vocabulary, count, part)? {
            return wrong_part(alloc, grammar, count, at, part);
        }
        at = at.saturating_add(part.len()).saturating_add(1);
        count = count.saturating_add(1);
    }
    let help = "write a public name, a number of steps, `-` or the calls that fail, and items";
    said(
        alloc,
        Span(end, end),
        "a token line with too few parts",
        help,
    )
}

fn said(alloc: Global, span: Span, title: &str, help: &str) -> Result<Message, AllocError> {
    let mut message = Message::new(alloc, Some(span), String::from_str(alloc, title)?);
    message.note(alloc, "help", help)?;
    Ok(message)
}

/// Whether a part may stand at its place in a line.
fn fits(
    alloc: Global,
    vocabulary: &Vocabulary,
    place: usize,
    part: &[u8],
) -> Result<bool, AllocError> {
    Ok(match place {
        0 => vocabulary.start(part)?.is_some(),
        1 => number(part).is_some_and(|steps| 1 <= steps && steps <= 1_000_000),
        2 => {
            let mut numbers = part.split(|byte| *byte == b',');
            part == b"-".as_slice() || numbers.all(|one| number(one).is_some())
        }
        _ => vocabulary.item(alloc, part)?.is_some(),
    })
}

/// The number of digits without a leading zero.
fn number(digits: &[u8]) -> Option<u64> {
    let is_numeral = digits.iter().all(|byte| byte.is_ascii_digit());
    if !is_numeral || (digits.len() > 1 && digits.first() == Some(&b'0')) {
        return None;
    }
    str::from_utf8(digits).ok()?.parse::<u64>().ok()
}

/// A part that doesn't fit its place; of an item also the terminals.
fn wrong_part(
    alloc: Global,
    grammar: &Grammar,
    count: usize,
    at: usize,
    part: &[u8],
) -> Result<Message, AllocError> {
    let last = PARTS.len().saturating_sub(1);
    let (title, help) = PARTS.get(count.min(last)).copied().unwrap_or(("", ""));
    let shown = String::from_utf8_lossy(alloc, part)?;
    let shown = shown.as_str();
    let title = format!(in alloc; "`{shown}` {title}")?;
    let span = Span(at, at.saturating_add(part.len()));
    let mut message = Message::new(alloc, Some(span), title);
    message.note(alloc, "help", help)?;
    if count >= last {
        message.note(alloc, "note", terminals(alloc, grammar)?.as_str())?;
    }
    Ok(message)
}

/// The terminals by number, each with its pattern.
fn terminals(alloc: Global, grammar: &Grammar) -> Result<String, AllocError> {
    let mut list = String::from_str(alloc, "the terminals are")?;
    for (number, terminal) in grammar.terminals.all.as_slice().iter().enumerate() {
        if let Some(pattern) = grammar.conversions.get(terminal) {
            let comma = if number == 0 { "" } else { "," };
            let row = format!(in alloc; "{comma} {number} `{pattern}`")?;
            list.push_str(row.as_str())?;
        }
    }
    Ok(list)
}
