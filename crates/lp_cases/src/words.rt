//! What is answered of single lines. A line is a word for what is asked, a blank, and a text; of those that `parts`
//! doesn't read escapes are applied, but for `escapes` itself.
//!
//! - `tokens`, `shifted`: the tokens of the text, which stands at place 0 or 40;
//! - `escapes N`: what its escapes stand for, where it stands at place N;
//! - `end N`: where code that begins at place N ends;
//! - `closed_code`, `closed_use`, `is_identifier`, `is_one_line`: whether it is so; `first_bar`: the place;
//! - `escape`, `literal`, `strip`, `separated`, `prefixed`: the text as it is shown; the last two of the text's words.

use crate::kinds::kind;
use crate::parts::shown_part;
use crate::refusals::reported;
use lp_plain::ParseError;
use lp_repr::Escaped;
use lp_texts::{first_bar, is_identifier, is_one_line};
use lp_tok::{
    Error, EscapeError, Tok, Tokenizer, apply_string_escapes, closed_code, closed_use, code_end,
};
use lp_write::{Escape, Prefix, Sep, literal, strip};
use std::alloc::{AllocError, Global};
use std::borrow::CowStr;

/// The place of a text that is shifted.
const SHIFT: usize = 40;

/// The longest text, and the last place at which one may stand.
const MOST: usize = 1000;

/// What is answered of each line, behind the line.
pub fn told_lines(alloc: Global, text: &str) -> Result<String, AllocError> {
    let mut told = String::new(alloc);
    for line in text.lines() {
        tell_line(alloc, &mut told, line)?;
    }
    Ok(told)
}

fn tell_line(alloc: Global, told: &mut String, line: &str) -> Result<(), AllocError> {
    let (word, part) = line.split_once(' ').unwrap_or((line, ""));
    let shown = shown_line(alloc, word, part)?;
    write!(told, "{part} => {shown}\n")
}

fn shown_line(alloc: Global, word: &str, part: &str) -> Result<String, AllocError> {
    match word {
        "type" | "clauses" | "pattern" | "grammar" => shown_part(alloc, word, part),
        "escapes" => shown_escapes(alloc, part),
        _ => shown_unescaped(alloc, word, part),
    }
}

fn shown_unescaped(alloc: Global, word: &str, part: &str) -> Result<String, AllocError> {
    match apply_string_escapes(alloc, part, 0) {
        Ok(CowStr::Borrowed(text)) => shown_text(alloc, word, text),
        Ok(CowStr::Owned(text)) => shown_text(alloc, word, text.as_str()),
        Err(_) => String::from_str(alloc, "an escape that is none"),
    }
}

fn shown_text(alloc: Global, word: &str, text: &str) -> Result<String, AllocError> {
    match word {
        "tokens" => shown_tokens(alloc, text, 0),
        "shifted" => shown_tokens(alloc, text, SHIFT),
        "end" => shown_end(alloc, text),
        "first_bar" => shown_bar(alloc, text),
        "closed_code" | "closed_use" | "is_identifier" | "is_one_line" => {
            let holds = holds(alloc, word, text)?;
            String::from_str(alloc, if holds { "yes" } else { "no" })
        }
        _ => shown_as(alloc, word, text),
    }
}

/// Whether a text is what the word says.
fn holds(alloc: Global, word: &str, text: &str) -> Result<bool, AllocError> {
    match word {
        "closed_code" => Ok(closed_code(text)),
        "closed_use" => Ok(closed_use(text)),
        "is_identifier" => Ok(is_identifier(text)),
        _ => is_one_line(alloc, text),
    }
}

fn shown_bar(alloc: Global, text: &str) -> Result<String, AllocError> {
    match first_bar(text.as_bytes()) {
        Some(place) => format!(in alloc; "{place}"),
        None => String::from_str(alloc, "none"),
    }
}

/// The text as the word says that it is shown.
fn shown_as(alloc: Global, word: &str, text: &str) -> Result<String, AllocError> {
    match word {
        "escape" => Escape(text).to_string(alloc),
        "literal" => literal(alloc, text),
        "strip" => String::from_str(alloc, strip(text)),
        _ => {
            let words = words_of(alloc, text)?;
            shown_words(alloc, word, &words)
        }
    }
}

fn words_of<'t>(alloc: Global, text: &'t str) -> Result<Vec<&'t str>, AllocError> {
    let mut words = Vec::new(alloc);
    for word in text.split_whitespace() {
        words.push(word)?;
    }
    Ok(words)
}

/// The words with a text between each two, or before each.
fn shown_words(alloc: Global, word: &str, words: &Vec<&str>) -> Result<String, AllocError> {
    match word {
        "separated" => Sep(", ", words).to_string(alloc),
        "prefixed" => Prefix("-", words.as_slice()).to_string(alloc),
        _ => String::from_str(alloc, "no such word"),
    }
}

/// Each token with its places, or the error.
fn shown_tokens(alloc: Global, text: &str, place: usize) -> Result<String, AllocError> {
    if text.len() > MOST || place > MOST {
        return String::from_str(alloc, "too long");
    }
    let mut shown = String::new(alloc);
    let mut tokens = Tokenizer::new(text, place);
    for _token in 0..text.len() {
        match tokens.next() {
            Some(Ok(spanned)) => show_token(&mut shown, &spanned)?,
            Some(Err(error)) => show_error(alloc, &mut shown, text, error)?,
            None => {}
        }
    }
    Ok(shown)
}

fn show_token(out: &mut String, spanned: &(usize, Tok<'_>, usize)) -> Result<(), AllocError> {
    let (start, token, end) = spanned;
    let (name, held) = kind(token);
    let held = Escaped(held);
    write!(out, "{name} {held} {start}-{end}; ")
}

fn show_error(alloc: Global, out: &mut String, text: &str, error: Error) -> Result<(), AllocError> {
    let told = reported(alloc, text, ParseError::User { error })?;
    write!(out, "{told}; ")
}

/// What the escapes of the text behind its place stand for, and whether it is the text itself.
fn shown_escapes(alloc: Global, part: &str) -> Result<String, AllocError> {
    let (place, code) = part.split_once(' ').unwrap_or((part, ""));
    let place = place.parse::<usize>().unwrap_or(0);
    if code.len() > MOST || place > MOST {
        return String::from_str(alloc, "too long");
    }
    shown_escaped(alloc, code, apply_string_escapes(alloc, code, place))
}

fn shown_escaped(
    alloc: Global,
    code: &str,
    told: Result<CowStr<'_>, EscapeError>,
) -> Result<String, AllocError> {
    match told {
        Ok(CowStr::Borrowed(text)) => format!(in alloc; "the text itself, {text}"),
        Ok(CowStr::Owned(text)) => Escaped(text.as_str()).to_string(alloc),
        Err(EscapeError::Bad(error)) => reported(alloc, code, ParseError::User { error }),
        Err(_) => Err(AllocError),
    }
}

/// Where the code of the text behind its place ends.
fn shown_end(alloc: Global, part: &str) -> Result<String, AllocError> {
    let (place, text) = part.split_once(' ').unwrap_or((part, ""));
    let place = place.parse::<usize>().unwrap_or(0);
    if !text.is_char_boundary(place) {
        return String::from_str(alloc, "no such place");
    }
    shown_place(alloc, text, code_end(text, place))
}

fn shown_place(
    alloc: Global,
    text: &str,
    told: Result<usize, Error>,
) -> Result<String, AllocError> {
    match told {
        Ok(end) => format!(in alloc; "{end}"),
        Err(error) => reported(alloc, text, ParseError::User { error }),
    }
}
