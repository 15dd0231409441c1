//! What the holes of a line hold.

ghost use Rattle.std.specs.Prelude.{◌≡◌, ◌<◌, ◌≤◌, ◌+◌, ◌^◌, ◌↔◌, true, length, take, nat_lt, IsTrue, IfOk, option_copied};
ghost use Rattle.std.specs.List.{list_all};
ghost use Rattle.std.specs.Str.{bytes_eq};
ghost use Rattle.std.specs.Str.Parse.{digits_value};
ghost use Rattle.lp_spelling.specs.HoleEnds as ends;
ghost use Rattle.lp_spelling.specs.Fillings as fillings;

use crate::ends::{digit_run, is_word, place_in, rest_from, visibility_len, word_run};
use lp_form::Kind;
use lp_texts::{is_identifier, is_one_line};
use std::alloc::{AllocError, Global};

/// Whether two texts are the same.
pub(crate) fn is_same(text: &[u8], other: &[u8]) -> bool
    ensures { result ≡ bytes_eq text.now other.now }
{
    text == other
}

/// Whether a text holds another; each holds the empty text.
#[tactic(auto, unfolding(crate::specs::Fillings::holds))]
pub fn holds(sought: &[u8], text: &[u8]) -> bool
    ensures { result ≡ fillings.holds sought.now text.now }
{
    sought.is_empty() || place_in(text, sought) < text.len()
}

/// The front of a text, up to a place.
pub(crate) fn front_to(text: &[u8], at: usize) -> &[u8]
    requires { at ≤ length text.now }
    ensures { result.now ≡ take at text.now }
{
    &text[..at]
}

/// A text without its end, if it ends so.
fn off_end<'t>(end: &[u8], text: &'t [u8]) -> &'t [u8]
    requires { length end.now ≤ length text.now }
    ensures { result.now ≡ fillings.without_end end.now text.now }
{
    front_to(text, text.len() - end.len())
}

/// A text without its front, if it begins so.
fn off_front<'t>(front: &[u8], text: &'t [u8]) -> &'t [u8]
    requires { length front.now ≤ length text.now }
    ensures { result.now ≡ fillings.without_front front.now text.now }
{
    rest_from(text, front.len())
}

/// What stands before the first separator.
fn part_before<'t>(separator: &[u8], text: &'t [u8]) -> &'t [u8]
    ensures { result.now ≡ fillings.part_before separator.now text.now }
{
    front_to(text, place_in(text, separator))
}

/// What stands behind the first separator.
fn part_behind<'t>(separator: &[u8], text: &'t [u8]) -> &'t [u8]
    requires { IsTrue (fillings.holds separator.now text.now) }
    ensures { result.now ≡ fillings.part_behind separator.now text.now }
{
    let end = place_in(text, separator) + separator.len();
    rest_from(text, end)
}

/// Whether all bytes are digits.
#[tactic(auto, using(crate::proofs::HoleSteps::all_run))]
fn are_digits(text: &[u8]) -> bool
    ensures { result ≡ list_all ends.is_digit text.now }
{
    digit_run(text) == text.len()
}

/// Whether the number of some digits fits 64 bits.
fn fits_word(text: &[u8]) -> bool
    requires some { 0 < length text.now }
    requires digits { list_all ends.is_digit text.now ≡ true }
    ensures { result ≡ nat_lt (digits_value 10 text.now) (2 ^ 64) }
{
    match str::from_utf8(text) {
        Ok(digits) => digits.parse::<u64>().is_ok(),
        Err(_) => false,
    }
}

/// Whether digits have a 0 in front of others.
fn leads_zero(text: &[u8]) -> bool
    ensures { result ≡ fillings.leads_zero text.now }
{
    text.len() > 1 && text[0] == b'0'
}

/// A number in decimal digits, with no 0 in front of others, that fits 64 bits.
#[tactic(auto, unfolding(crate::specs::Fillings::is_number))]
pub(crate) fn is_number(text: &[u8]) -> bool
    ensures { result ≡ fillings.is_number text.now }
{
    if text.is_empty() || !are_digits(text) {
        return false;
    }
    !leads_zero(text) && fits_word(text)
}

/// Whether a text is an identifier.
fn is_name(text: &[u8]) -> bool
    ensures { result ≡ fillings.is_name text.now }
{
    match str::from_utf8(text) {
        Ok(name) => is_identifier(name),
        Err(_) => false,
    }
}

/// An identifier that begins with the prefix.
fn is_own(prefix: &[u8], text: &[u8]) -> bool
    ensures { result ≡ fillings.is_own prefix.now text.now }
{
    text.starts_with(prefix) && is_name(text)
}

/// A name, or `&` and a name.
fn is_argument(text: &[u8]) -> bool
    ensures { result ≡ fillings.is_argument text.now }
{
    if text.starts_with(b"&") {
        is_name(off_front(b"&", text))
    } else {
        is_name(text)
    }
}

/// A number, or two with `..=` between.
fn is_range(text: &[u8]) -> bool
    ensures { result ≡ fillings.is_range text.now }
{
    if holds(b"..=", text) {
        is_number(part_before(b"..=", text)) && is_number(part_behind(b"..=", text))
    } else {
        is_number(text)
    }
}

/// What the elements of a joined list have to be.
#[derive(Clone, Copy)]
pub(crate) enum Element {
    Number,
    Range,
    Argument,
    Own,
}

#[tactic(auto, unfolding(crate::specs::Fillings::is_element))]
fn is_element(prefix: &[u8], element: Element, text: &[u8]) -> bool
    ensures { result ≡ fillings.is_element prefix.now element text.now }
{
    match element {
        Element::Number => is_number(text),
        Element::Range => is_range(text),
        Element::Argument => is_argument(text),
        Element::Own => is_own(prefix, text),
    }
}

/// Whether a text is one element or more with the separator between.
fn is_joined(prefix: &[u8], element: Element, separator: &[u8], text: &[u8]) -> bool
    ensures { result ≡ fillings.is_joined prefix.now element separator.now text.now }
{
    let mut rest = text;
    for _i in 0..text.len() {
        if !holds(separator, rest) {
            return is_element(prefix, element, rest);
        }
        if !is_element(prefix, element, part_before(separator, rest)) {
            return false;
        }
        rest = part_behind(separator, rest);
    }
    false
}

/// Whether a text has no line feed and doesn't hold `"###`.
fn is_terminal(text: &[u8]) -> bool
    ensures { result ≡ fillings.is_terminal text.now }
{
    !holds(b"\n", text) && !holds(b"\"###", text)
}

/// Whether a text is `#![` to `]` on one line.
fn is_attribute(text: &[u8]) -> bool
    ensures { result ≡ fillings.is_attribute text.now }
{
    text.starts_with(b"#![") && (text.ends_with(b"]") && !holds(b"\n", text))
}

/// Whether a text is a string literal without a line feed.
fn is_literal(text: &[u8]) -> bool
    ensures { result ≡ fillings.is_literal text.now }
{
    text.len() > 1 && (text.starts_with(b"\"") && (text.ends_with(b"\"") && !holds(b"\n", text)))
}

/// A number above 1.
fn is_many(count: &[u8]) -> bool
    ensures { result ≡ fillings.is_many count.now }
{
    is_number(count) && (!is_same(count, b"0") && !is_same(count, b"1"))
}

/// `0`, or a number above 1 and ` - 1`.
fn is_last(text: &[u8]) -> bool
    ensures { result ≡ fillings.is_last text.now }
{
    is_same(text, b"0") || (text.ends_with(b" - 1") && is_many(off_end(b" - 1", text)))
}

/// A letter of ASCII, a digit or `_`.
fn is_escape(byte: u8) -> bool
    ensures { result ≡ fillings.is_escape byte }
{
    is_word(byte) && byte < 0x80
}

/// Letters of ASCII, digits and `_`.
#[tactic(auto, using(crate::proofs::Fitting::escape_steps))]
fn is_escaped(text: &[u8]) -> bool
    ensures { result ≡ fillings.is_escaped text.now }
{
    for byte in text {
        if !is_escape(*byte) {
            return false;
        }
    }
    true
}

/// Whether a text is names with `, ` after each.
fn are_parameters(prefix: &[u8], text: &[u8]) -> bool
    ensures { result ≡ fillings.are_parameters prefix.now text.now }
{
    text.is_empty()
        || (text.ends_with(b", ")
            && (is_joined(prefix, Element::Argument, b", ", off_end(b", ", text))
                && (!holds(prefix, text) && !holds(b"&", text))))
}

/// Several captures, before a closing parenthesis.
fn are_several(prefix: &[u8], text: &[u8]) -> bool
    ensures { result ≡ fillings.are_several prefix.now text.now }
{
    text.ends_with(b")")
        && (holds(b", ", off_end(b")", text))
            && is_joined(prefix, Element::Own, b", ", off_end(b")", text)))
}

/// One capture, or several in parentheses.
fn are_captures(prefix: &[u8], text: &[u8]) -> bool
    ensures { result ≡ fillings.are_captures prefix.now text.now }
{
    if text.starts_with(b"(") {
        are_several(prefix, off_front(b"(", text))
    } else {
        is_own(prefix, text)
    }
}

/// `lookbehind` or `lookahead` behind the prefix.
fn is_look(prefix: &[u8], text: &[u8]) -> bool
    ensures { result ≡ fillings.is_look prefix.now text.now }
{
    text.starts_with(prefix)
        && (is_same(off_front(prefix, text), b"lookbehind")
            || is_same(off_front(prefix, text), b"lookahead"))
}

/// A number, `.`, and `0` or `2`.
fn is_field(text: &[u8]) -> bool
    ensures { result ≡ fillings.is_field text.now }
{
    holds(b".", text)
        && (is_number(part_before(b".", text))
            && (is_same(part_behind(b".", text), b"0") || is_same(part_behind(b".", text), b"2")))
}

/// `~j.0`, `~j.2`, `*~lookbehind` or `*~lookahead`.
fn is_location(prefix: &[u8], text: &[u8]) -> bool
    ensures { result ≡ fillings.is_location prefix.now text.now }
{
    if text.starts_with(b"*") {
        is_look(prefix, off_front(b"*", text))
    } else {
        text.starts_with(prefix) && is_field(off_front(prefix, text))
    }
}

/// Whether a number stands in front, and no word goes on after it.
fn is_numbered(text: &[u8]) -> bool
    ensures { result ≡ fillings.is_numbered text.now }
{
    let run = word_run(text);
    0 < run && digit_run(text) == run
}

/// Whether `tok` and a number stand in front, and no word goes on after them.
fn is_capture(text: &[u8]) -> bool
    ensures { result ≡ fillings.is_capture text.now }
{
    text.starts_with(b"tok") && is_numbered(off_front(b"tok", text))
}

/// Whether the prefix, if it stands in front, is that of a capture, where this byte stands before it.
fn is_fitting(prefix: &[u8], last: u8, text: &[u8]) -> bool
    ensures { result ≡ fillings.is_fitting prefix.now last text.now }
{
    !text.starts_with(prefix) || (!is_word(last) && is_capture(off_front(prefix, text)))
}

/// Whether the prefix stands in a text only in the names of captures, apart from other words.
fn are_filled(prefix: &[u8], text: &[u8]) -> bool
    ensures { result ≡ fillings.are_filled prefix.now text.now }
{
    let mut last = 0u8;
    for i in 0..text.len() {
        if !is_fitting(prefix, last, rest_from(text, i)) {
            return false;
        }
        last = text[i];
    }
    true
}

/// Nothing, or `pub `.
fn is_bare(text: &[u8]) -> bool
    ensures { result ≡ fillings.is_bare text.now }
{
    text.is_empty() || is_same(text, b"pub ")
}

/// Nothing, `pub `, or `pub(path) `.
fn is_visibility(text: &[u8]) -> bool
    ensures { result ≡ fillings.is_visibility text.now }
{
    is_bare(text)
        || (text.starts_with(b"pub(")
            && (text.ends_with(b" ") && visibility_len(text) == text.len()))
}

/// What can be told of a hole's text by its bytes.
#[tactic(auto, unfolding(crate::specs::Fillings::has_shape))]
fn has_shape(prefix: &[u8], kind: Kind, text: &[u8]) -> bool
    ensures { result ≡ fillings.has_shape prefix.now kind text.now }
{
    match kind {
        Kind::Name => is_name(text),
        Kind::PlainName => is_name(text) && !holds(prefix, text),
        Kind::Number => is_number(text),
        Kind::NotOne => is_number(text) && !is_same(text, b"1"),
        Kind::Last => is_last(text),
        Kind::Escaped => is_escaped(text),
        Kind::Attribute => is_attribute(text),
        Kind::Terminal => is_terminal(text),
        Kind::Literal => is_literal(text),
        Kind::Visibility => is_visibility(text),
        Kind::Text | Kind::Generics => true,
        Kind::Filled | Kind::Patterns => are_filled(prefix, text),
        Kind::Pattern => !holds(prefix, text),
        Kind::Result => !is_same(text, b"()"),
        Kind::Numbers => is_joined(prefix, Element::Number, b" | ", text),
        Kind::Ranges => is_joined(prefix, Element::Range, b" | ", text),
        Kind::Arguments => is_joined(prefix, Element::Argument, b", ", text),
        Kind::Argument => is_argument(text),
        Kind::Symbols | Kind::Names => is_joined(prefix, Element::Own, b", ", text),
        Kind::Captures => are_captures(prefix, text),
        Kind::Parameters => are_parameters(prefix, text),
        Kind::Location => is_location(prefix, text),
    }
}

/// A text without a blank at its end.
fn without_blank(text: &str) -> &str
    ensures { result.now ≡ fillings.without_blank text.now }
{
    if !text.ends_with(" ") {
        return text;
    }
    let (front, _) = text.split_at(text.len() - 1);
    front
}

/// The part of a hole's text that is a one-line text, where one is asked for.
#[tactic(auto, unfolding(crate::specs::Fillings::line_part))]
fn line_part(kind: Kind, text: &str) -> Option<&str>
    ensures { option_copied result ≡ fillings.line_part kind text.now }
{
    match kind {
        Kind::Visibility => {
            if is_bare(text.as_bytes()) {
                None
            } else {
                Some(without_blank(text))
            }
        }
        Kind::Text | Kind::Generics => Some(text),
        Kind::Filled | Kind::Patterns => Some(text),
        Kind::Pattern | Kind::Result => Some(text),
        _ => None,
    }
}

/// Whether a text may stand in a hole of a kind, in a program of this prefix.
pub fn may_fill(alloc: Global, prefix: &str, kind: Kind, text: &str) -> Result<bool, AllocError>
    ensures { IfOk result (λ b. IsTrue b ↔ fillings.Fits prefix.now kind text.now) }
{
    if !has_shape(prefix.as_bytes(), kind, text.as_bytes()) {
        return Ok(false);
    }
    match line_part(kind, text) {
        None => Ok(true),
        Some(line) => is_one_line(alloc, line),
    }
}
