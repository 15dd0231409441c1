//! Parts of lines: texts between separators, numbers, names.

ghost use Rattle.std.specs.Prelude.{◌≡◌, ◌<◌, ◌==◌, map, length, position, IfOk, IfSome};
ghost use Rattle.std.specs.List.{list_all};
ghost use Rattle.std.specs.Char.{is_ascii_digit, is_ascii_alphabetic};
ghost use Rattle.std.specs.Option.{option_map};
ghost use Rattle.std.specs.Str.{IsAscii};
ghost use Rattle.lp_lines.specs.Scan.{split_at, split_all, has_leading_zero as zero_test, is_numeral as numeral_test, number_of, is_name as name_test, is_payload as payload_test, is_payload_byte as payload_byte_test};

use lp_repr::text::{Items, Text};
use std::alloc::{AllocError, Global};
use std::str;

/// The place of the first separator.
fn first_place(text: &[u8], separator: u8) -> Option<usize>
    ensures found { result ≡ position (λ b. b == separator) text.now }
    ensures within { IfSome result (λ place. place < length text.now) }
{
    text.iter().position(|byte| *byte == separator)
}

/// What stands before the first separator, and what stands after it.
pub fn split_once(text: &[u8], separator: u8) -> Option<(&[u8], &[u8])>
    ensures { option_map (λ p. (p.0.now, p.1.now)) result ≡ split_at text.now separator }
{
    match first_place(text, separator) {
        None => None,
        Some(place) => Some((&text[..place], &text[place + 1..])),
    }
}

/// The texts between the separators.
pub fn split(alloc: Global, text: &[u8], separator: u8) -> Result<Vec<&[u8]>, AllocError>
    ensures { IfOk result (λ parts. map (λ part. part.now) parts.items ≡ split_all text.now separator) }
{
    text.split(|byte| *byte == separator).collect(alloc)
}

/// Digits alone.
fn are_digits(text: &[u8]) -> bool
    ensures { result ≡ list_all is_ascii_digit text.now }
{
    text.iter().all(|byte| byte.is_ascii_digit())
}

/// The first of several bytes is `0`.
fn has_leading_zero(text: &[u8]) -> bool
    ensures { result ≡ zero_test text.now }
{
    match text {
        [] => false,
        [first, ..] => *first == b'0' && text.len() > 1,
    }
}

/// Digits without a leading zero, at least one.
#[tactic(auto, unfolding(crate::specs::Scan::is_numeral))]
fn is_numeral(text: &[u8]) -> bool
    ensures { result ≡ numeral_test text.now }
{
    !text.is_empty() && (are_digits(text) && !has_leading_zero(text))
}

/// The number that a text of digits without a leading zero stands for, if it fits.
pub fn number(text: &[u8]) -> Option<u64>
    ensures { result ≡ number_of text.now }
{
    if !is_numeral(text) {
        return None;
    }
    match str::from_utf8(text) {
        Err(_) => None,
        Ok(digits) => digits.parse::<u64>().ok(),
    }
}

/// Letters alone.
fn are_letters(text: &[u8]) -> bool
    ensures { result ≡ list_all is_ascii_alphabetic text.now }
{
    text.iter().all(|byte| byte.is_ascii_alphabetic())
}

/// ASCII letters, at least one.
#[tactic(auto, unfolding(crate::specs::Scan::is_name))]
pub fn is_name(text: &[u8]) -> bool
    ensures { result ≡ name_test text.now }
{
    !text.is_empty() && are_letters(text)
}

#[tactic(auto, unfolding(crate::specs::Scan::is_payload_byte))]
fn is_payload_byte(byte: u8) -> bool
    ensures { result ≡ payload_byte_test byte }
{
    byte.is_ascii_alphanumeric()
        || (byte == b'_' || (byte == b'.' || (byte == b'+' || byte == b'-')))
}

/// Bytes of payloads alone.
fn are_payload_bytes(text: &[u8]) -> bool
    ensures { result ≡ list_all payload_byte_test text.now }
{
    text.iter().all(|byte| is_payload_byte(*byte))
}

/// ASCII letters, digits, `_`, `.`, `+` and `-`, at least one.
#[tactic(auto, unfolding(crate::specs::Scan::is_payload))]
pub fn is_payload(text: &[u8]) -> bool
    ensures { result ≡ payload_test text.now }
{
    !text.is_empty() && are_payload_bytes(text)
}

/// A text of ASCII bytes.
pub fn ascii_text(alloc: Global, bytes: &[u8]) -> Result<Text, AllocError>
    requires { IsAscii bytes.now }
    ensures { IfOk result (λ text. text ≡ bytes.now) }
{
    match str::from_utf8(bytes) {
        Ok(text) => Ok(Text(String::from_str(alloc, text)?)),
        Err(_) => unreachable!(),
    }
}
