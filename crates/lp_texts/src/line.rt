//! The rules on texts of one line.

ghost use Rattle.std.specs.Prelude.{◌≡◌, ◌<◌, ◌≤◌, ◌++◌, ◌==◌, ◌↔◌, length, drop, reverse, true, false, IsTrue, IfOk, OnOk, MatchOption};
ghost use Rattle.std.specs.Char.{is_whitespace};
ghost use Rattle.std.specs.Str.{chars};
ghost use Rattle.lp_texts.specs.Brackets.{opens, closes, closer_of, open_after};
ghost use Rattle.lp_texts.specs.FirstWrong.{IsFirst};
ghost use Rattle.lp_texts.specs.OneLine.{begins, ends_line, begins_comment, needs_bracket, is_wrong, IsWrong, IsOneLine};
ghost use Rattle.lp_texts.specs.Places.{IsFirstLineEnd};

use crate::quotes::{Found, piece_at};
use std::alloc::{AllocError, Global};

/// Whether a line ends at a byte.
fn ends_line(byte: u8) -> bool
    ensures { result ≡ ends_line byte }
{
    byte == b'\n' || byte == b'\r'
}

/// The first line end between two places.
fn line_end_in(text: &[u8], from: usize, end: usize) -> Option<usize>
    requires { end ≤ length text.now }
    ensures { IsFirstLineEnd text.now from end result }
{
    for i in from..end {
        if ends_line(text[i]) {
            return Some(i);
        }
    }
    None
}

pub(crate) fn opens(byte: u8) -> bool
    ensures { result ≡ opens byte }
{
    byte == b'(' || byte == b'[' || byte == b'{'
}

pub(crate) fn closes(byte: u8) -> bool
    ensures { result ≡ closes byte }
{
    byte == b')' || byte == b']' || byte == b'}'
}

/// What closes a bracket.
fn closer_of(byte: u8) -> u8
    ensures { result ≡ closer_of byte }
{
    match byte {
        b'(' => b')',
        b'[' => b']',
        _ => b'}',
    }
}

/// Whether a comment begins with a byte and those behind it.
fn begins_comment(byte: u8, behind: &[u8]) -> bool
    ensures { result ≡ begins_comment byte behind.now }
{
    byte == b'/'
        && match behind.first() {
            None => false,
            Some(next) => *next == b'/' || *next == b'*',
        }
}

/// Whether a byte may stand in brackets alone.
fn needs_bracket(pattern: bool, byte: u8) -> bool
    ensures { result ≡ needs_bracket pattern byte }
{
    byte == b';' || (pattern && (byte == b',' || byte == b'|'))
}

/// Whether a byte closes the innermost open bracket.
fn closes_last(brackets: &[u8], byte: u8) -> bool
    ensures { result ≡ begins (λ d. d == byte) (reverse brackets.now) }
{
    match brackets.last() {
        None => false,
        Some(closer) => *closer == byte,
    }
}

/// Whether a byte may not stand outside quotes, with these brackets open, by their closers.
fn is_wrong(pattern: bool, brackets: &[u8], byte: u8, behind: &[u8]) -> bool
    ensures { result ≡ is_wrong pattern (reverse brackets.now) byte behind.now }
{
    begins_comment(byte, behind)
        || (needs_bracket(pattern, byte) && brackets.is_empty())
        || (closes(byte) && !closes_last(brackets, byte))
}

/// The open brackets after a byte.
fn pass_byte(brackets: &mut Vec<u8>, byte: u8) -> Result<(), AllocError>
    ensures { OnOk result (reverse brackets.new.items ≡ open_after (reverse brackets.old.items) byte) }
{
    if opens(byte) {
        brackets.push(closer_of(byte))?;
    } else if closes(byte) {
        let _ = brackets.pop();
    }
    Ok(())
}

/// The first wrong byte of a text that doesn't begin with a blank.
fn bytes_fault(alloc: Global, text: &[u8], pattern: bool) -> Result<Option<usize>, AllocError>
    requires { begins is_whitespace (chars text.now) ≡ false }
    ensures { IfOk result (IsFirst (IsWrong pattern text.now)) }
{
    let mut brackets = Vec::new(alloc);
    let mut at = 0;
    while at < text.len() {
        match piece_at(text, at) {
            Found::Single => {
                if is_wrong(pattern, brackets.as_slice(), text[at], &text[at + 1..]) {
                    return Ok(Some(at));
                }
                if ends_line(text[at]) {
                    return Ok(Some(at));
                }
                pass_byte(&mut brackets, text[at])?;
                at += 1;
            }
            Found::Quote(end) => {
                match line_end_in(text, at, end) {
                    Some(wrong) => return Ok(Some(wrong)),
                    None => at = end,
                }
            }
            Found::Unended => {
                return match line_end_in(text, at, text.len()) {
                    Some(wrong) => Ok(Some(wrong)),
                    None => Ok(Some(text.len())),
                };
            }
        }
    }
    if brackets.is_empty() {
        Ok(None)
    } else {
        Ok(Some(text.len()))
    }
}

/// Whether a text begins with a blank.
fn begins_blank(text: &str) -> bool
    ensures { result ≡ begins is_whitespace (chars text.now) }
{
    match text.chars().next() {
        None => false,
        Some(c) => c.is_whitespace(),
    }
}

/// The first byte that breaks the rules of a one-line text, or of a pattern, or None: it doesn't
/// begin with a blank; it has no line feed and no carriage return; outside quotes it has no `//` and
/// no `/*`; outside quotes and brackets it has no `;`, and in a pattern no `,` and no `|`; its
/// brackets match by kind. A bracket or a quote that is left open counts at the text's length.
pub(crate) fn line_fault(
    alloc: Global,
    text: &str,
    pattern: bool,
) -> Result<Option<usize>, AllocError>
    ensures { IfOk result (IsFirst (IsWrong pattern text.now)) }
{
    if begins_blank(text) {
        return Ok(Some(0));
    }
    bytes_fault(alloc, text.as_bytes(), pattern)
}

/// Whether a text is a one-line text.
pub fn is_one_line(alloc: Global, text: &str) -> Result<bool, AllocError>
    ensures { IfOk result (λ fits. IsTrue fits ↔ IsOneLine text.now) }
{
    Ok(line_fault(alloc, text, false)?.is_none())
}
