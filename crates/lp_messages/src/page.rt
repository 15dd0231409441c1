//! Messages as they are shown: the line that they are about, and carets below the place.

use lp_types::Span;
use std::alloc::{AllocError, Global};

/// The longest line that is shown, in bytes.
const MOST_SHOWN: usize = 200;

/// What is told of a file.
#[derive(Drop)]
pub struct Message {
    /// The bytes that it is about.
    pub span: Option<Span>,
    pub title: String,
    /// Lines below the place, each with its first word.
    pub notes: Vec<String>,
}

impl Message {
    pub fn new(alloc: Global, span: Option<Span>, title: String) -> Message {
        Message {
            span,
            title,
            notes: Vec::new(alloc),
        }
    }

    /// Adds a note, where there is a text.
    pub fn note(&mut self, alloc: Global, word: &str, text: &str) -> Result<(), AllocError> {
        if text.is_empty() {
            return Ok(());
        }
        self.notes.push(format!(in alloc; "{word}: {text}")?)?;
        Ok(())
    }
}

/// A place of a text, as it is shown.
#[derive(Clone, Copy)]
struct Spot<'t> {
    line: usize,
    column: usize,
    /// What stands in the line before the place.
    before: &'t str,
    content: &'t str,
    carets: usize,
}

/// The line and the column, both counted from 1, and the line itself.
fn spot_of(text: &str, span: Span) -> Spot<'_> {
    let front = text.get(..span.0).unwrap_or(text);
    let before = last_line(front);
    let start = front.len().saturating_sub(before.len());
    let content = first_line(text.get(start..).unwrap_or(""));
    let within = first_line(text.get(span.0..span.1).unwrap_or(""));
    Spot {
        line: front.split('\n').count(),
        column: before.chars().count().saturating_add(1),
        before,
        content,
        carets: within.chars().count().max(1),
    }
}

fn first_line(text: &str) -> &str {
    let line = text.split('\n').next().unwrap_or("");
    line.trim_end_matches('\r')
}

fn last_line(text: &str) -> &str {
    text.rsplit('\n').next().unwrap_or("")
}

/// A message with its place, its line and its notes. What a terminal would not show stands as U+FFFD.
pub fn shown(
    alloc: Global,
    name: &str,
    text: &str,
    word: &str,
    message: &Message,
) -> Result<String, AllocError> {
    let title = message.title.as_str();
    let mut margin = String::new(alloc);
    let mut out = String::new(alloc);
    match message.span {
        None => out.push_str(format!(in alloc; "{name}: {word}: {title}\n")?.as_str())?,
        Some(span) => {
            let spot = spot_of(text, span);
            let line = spot.line;
            let column = spot.column;
            margin.push_str(format!(in alloc; "{line}")?.as_str())?;
            let head = format!(in alloc; "{name}:{line}:{column}: {word}: {title}\n")?;
            out.push_str(head.as_str())?;
            out.push_str(excerpt(alloc, &spot)?.as_str())?;
        }
    }
    let margin = blanks(alloc, margin.as_str())?;
    for note in message.notes.as_slice() {
        let margin = margin.as_str();
        let note = note.as_str();
        out.push_str(format!(in alloc; "{margin} = {note}\n")?.as_str())?;
    }
    cleaned(alloc, out.as_str())
}

/// The line of a place with its number, and carets below.
fn excerpt(alloc: Global, spot: &Spot<'_>) -> Result<String, AllocError> {
    if spot.content.len() > MOST_SHOWN {
        return Ok(String::new(alloc));
    }
    let line = spot.line;
    let content = spot.content;
    let number = format!(in alloc; "{line}")?;
    let margin = blanks(alloc, number.as_str())?;
    let margin = margin.as_str();
    let pad = blanks(alloc, spot.before)?;
    let pad = pad.as_str();
    let mut out = format!(in alloc; "{margin} |\n{line} | {content}\n{margin} | {pad}")?;
    for _ in 0..spot.carets {
        out.push('^')?;
    }
    out.push('\n')?;
    Ok(out)
}

/// As many blanks as a text has characters; a tab stays one.
fn blanks(alloc: Global, text: &str) -> Result<String, AllocError> {
    let mut blanks = String::new(alloc);
    for character in text.chars() {
        blanks.push(if character == '\t' { '\t' } else { ' ' })?;
    }
    Ok(blanks)
}

/// The text, with U+FFFD for control characters but line ends and tabs.
fn cleaned(alloc: Global, text: &str) -> Result<String, AllocError> {
    let mut clean = String::new(alloc);
    for character in text.chars() {
        let is_shown = matches!(character, '\n' | '\t') || !character.is_control();
        clean.push(if is_shown { character } else { '\u{fffd}' })?;
    }
    Ok(clean)
}
