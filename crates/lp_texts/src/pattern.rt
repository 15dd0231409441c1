//! The rules on patterns.

ghost use Rattle.std.specs.Prelude.{◌≡◌, ◌≤◌, ◌↔◌, [], ◌∷◌, ◌++◌, length, IsTrue, IfOk, MatchOption};
ghost use Rattle.std.specs.Str.{chars};
ghost use Rattle.unicode_ident.specs.Ident.{is_xid_continue};
ghost use Rattle.lp_texts.specs.Brackets.{IsOutside};
ghost use Rattle.lp_texts.specs.FirstWrong.{IsFirst, least};
ghost use Rattle.lp_texts.specs.OneLine.{begins};
ghost use Rattle.lp_texts.specs.Pattern.{joined, ends, is_beside_word, IsWrongHole, AnswersPattern};

use crate::line::line_fault;
use crate::quotes::{Found, piece_at};
use lp_repr::Text;
use lp_repr::repr::TokenPattern;
use std::alloc::{AllocError, Global};

/// Whether a text begins with a character of a word.
fn begins_word(text: &str) -> bool
    ensures { result ≡ begins is_xid_continue (chars text.now) }
{
    match text.chars().next() {
        None => false,
        Some(c) => unicode_ident::is_xid_continue(c),
    }
}

/// The text before the last character, and that.
fn split_last(text: &str) -> Option<(&str, char)>
    ensures { MatchOption result (text.now ≡ []) (λ p. chars text.now ≡ chars p.0.now ++ p.1 ∷ []) }
{
    let mut chars = text.chars();
    match chars.next_back() {
        None => None,
        Some(last) => Some((chars.as_str(), last)),
    }
}

/// Whether a text ends with one.
fn ends_word(text: &str) -> bool
    ensures { result ≡ ends is_xid_continue (chars text.now) }
{
    match split_last(text) {
        None => false,
        Some((_, last)) => unicode_ident::is_xid_continue(last),
    }
}

/// Whether pieces with `_` between them begin with one.
fn begins_word_joined(pieces: &[Text]) -> bool
    ensures { result ≡ begins is_xid_continue (chars (joined pieces.now)) }
{
    match pieces {
        [] => false,
        [only] => begins_word(only.as_str()),
        [first, _, ..] => {
            if first.as_str().is_empty() {
                unicode_ident::is_xid_continue('_')
            } else {
                begins_word(first.as_str())
            }
        }
    }
}

/// Whether a hole with this text before it, and these pieces behind it, stands beside a character
/// of a word or another hole.
fn is_beside_word(before: &str, behind: &[Text]) -> bool
    ensures { result ≡ is_beside_word before.now (joined behind.now) }
{
    ends_word(before) || begins_word_joined(behind)
}

/// Whether a place stands outside quotes, from one before it that does.
fn is_outside(text: &[u8], from: usize, place: usize) -> bool
    requires start { IsOutside text.now from }
    requires ahead { from ≤ place }
    requires within { place ≤ length text.now }
    ensures { IsTrue result ↔ IsOutside text.now place }
{
    let mut at = from;
    while at < place {
        match piece_at(text, at) {
            Found::Single => at += 1,
            Found::Quote(end) => at = end,
            Found::Unended => return false,
        }
    }
    at == place
}

/// The first hole that stands beside a character of a word or another hole, or in a quote.
fn hole_fault(alloc: Global, pieces: &[Text], text: &[u8]) -> Result<Option<usize>, AllocError>
    requires { text.now ≡ joined pieces.now }
    ensures { IfOk result (IsFirst (IsWrongHole pieces.now)) }
{
    let mut before = String::new(alloc);
    let mut at = 0;
    for i in 0..pieces.len() {
        if i > 0 {
            let place = before.len();
            if is_beside_word(before.as_str(), &pieces[i..]) {
                return Ok(Some(place));
            }
            if !is_outside(text, at, place) {
                return Ok(Some(place));
            }
            at = place;
            before.push_str("_")?;
        }
        before.push_str(pieces[i].as_str())?;
    }
    Ok(None)
}

/// The first of two places.
fn first_of(a: Option<usize>, b: Option<usize>) -> Option<usize>
    ensures { result ≡ least a b }
{
    match (a, b) {
        (Some(x), Some(y)) => Some(x.min(y)),
        (Some(x), None) => Some(x),
        (None, y) => y,
    }
}

/// What is wrong about a pattern with `_` in its holes.
pub(crate) fn pattern_fault(
    alloc: Global,
    pattern: &TokenPattern,
) -> Result<Option<usize>, AllocError>
    ensures { IfOk result (AnswersPattern pattern.now.pieces) }
{
    let text = pattern.to_string(alloc)?;
    let line = line_fault(alloc, text.as_str(), true)?;
    let hole = hole_fault(alloc, pattern.pieces.as_slice(), text.as_bytes())?;
    Ok(first_of(line, hole))
}
