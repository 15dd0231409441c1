//! What the tool hands on as it stands, and `rustc` refuses.

use crate::page::{Message, shown};
use lp_lines::cut_file;
use lp_tok::{Tok, Tokenizer};
use lp_types::Span;
use std::alloc::{AllocError, Global};
use std::str;

/// Words that Rust keeps for itself, and that are no words of grammar files.
const KEYWORDS: &[&str] = &[
    "abstract", "as", "async", "await", "become", "box", "break", "const", "continue", "crate",
    "do", "false", "final", "fn", "gen", "impl", "let", "loop", "macro", "mod", "move", "override",
    "priv", "ref", "return", "self", "Self", "static", "struct", "super", "trait", "true", "try",
    "typeof", "unsafe", "unsized", "virtual", "while", "yield",
];

/// The warnings on a file, one behind the other: `<>` in a code, and keywords of Rust as names.
pub fn warnings(alloc: Global, name: &str, file: &[u8]) -> Result<String, AllocError> {
    let mut out = String::new(alloc);
    let text = str::from_utf8(cut_file(file).0).unwrap_or("");
    let mut tokens = Tokenizer::new(text, 0);
    let mut last: Option<(Span, &str)> = None;
    while let Some(Ok((from, token, end))) = tokens.next() {
        let found = match (&token, last) {
            (Tok::Colon, Some((span, word))) => keyword(alloc, span, word)?,
            (Tok::EqualsGreaterThanCode(code), _) => unnamed(alloc, from, end, code)?,
            (Tok::EqualsGreaterThanQuestionCode(code), _) => unnamed(alloc, from, end, code)?,
            _ => None,
        };
        if let Some(message) = found {
            out.push_str(shown(alloc, name, text, "warning", &message)?.as_str())?;
        }
        last = match token {
            Tok::Id(word) => Some((Span(from, end), word)),
            _ => None,
        };
    }
    Ok(out)
}

/// A name before a `:` that is a keyword of Rust.
fn keyword(alloc: Global, span: Span, word: &str) -> Result<Option<Message>, AllocError> {
    if !is_keyword(word) {
        return Ok(None);
    }
    let title = format!(in alloc; "`{word}` is a keyword of Rust")?;
    let mut message = Message::new(alloc, Some(span), title);
    message.note(
        alloc,
        "note",
        "it is handed on as it stands, and `rustc` refuses it",
    )?;
    message.note(alloc, "help", "take another name")?;
    Ok(Some(message))
}

fn is_keyword(word: &str) -> bool {
    for keyword in keywords() {
        if *keyword == word {
            return true;
        }
    }
    false
}

fn keywords() -> &'static [&'static str] {
    KEYWORDS
}

/// A code with `<>` in it.
fn unnamed(
    alloc: Global,
    from: usize,
    end: usize,
    code: &str,
) -> Result<Option<Message>, AllocError> {
    let Some(place) = code.find("<>") else {
        return Ok(None);
    };
    let begin = end.saturating_sub(code.len()).max(from);
    let place = begin.saturating_add(place);
    let title = String::from_str(alloc, "`<>` in a code")?;
    let mut message = Message::new(alloc, Some(Span(place, place.saturating_add(2))), title);
    message.note(
        alloc,
        "note",
        "it is handed on as it stands, and `rustc` refuses it",
    )?;
    message.note(
        alloc,
        "help",
        "name the symbols, and write their names here",
    )?;
    Ok(Some(message))
}
