//! The texts in the holes of forms: names, numbers, patterns and lists of them.

ghost use Rattle.std.specs.Prelude.{◌≡◌, ◌++◌, ◌<◌, ◌≤◌, length, map, slice_index, IfOk};
ghost use Rattle.std.specs.Option.{option_copied, option_map};
ghost use Rattle.std.specs.Str.{bytes_eq};
ghost use Rattle.lp_maker.specs.Numbers.{number_of, wide_number_of, pair_of, range_of};
ghost use Rattle.lp_maker.specs.Texts.{begins, after_front, cut_at, holds, pieces, pieces_within, bare, marked, plain, state_type_of, binding, bound_of, row_binding, is_idle, last_piece, end_place, without_end};

pub use crate::patterns::{capture, captures, form_of};
use lp_core::StateType;
use lp_repr::Text;
use std::alloc::{AllocError, Global};

/// Whether two texts are equal.
pub fn same(a: &str, b: &str) -> bool
    ensures { result ≡ bytes_eq a.now b.now }
{
    a == b
}

/// Whether a text begins with another.
pub fn begins(front: &str, text: &str) -> bool
    ensures { result ≡ begins front.now text.now }
{
    text.as_bytes().starts_with(front.as_bytes())
}

/// What follows a text at the front of another.
pub fn after_front<'t>(front: &str, text: &'t str) -> Option<&'t str>
    ensures { option_copied result ≡ after_front front.now text.now }
{
    text.strip_prefix(front)
}

/// A text cut in two at the first separator.
pub fn cut_at<'t>(separator: &str, text: &'t str) -> Option<(&'t str, &'t str)>
    ensures { option_map (λ p. (p.0.now, p.1.now)) result ≡ cut_at separator.now text.now }
{
    text.split_once(separator)
}

/// Whether a text stands in another.
pub fn holds(sought: &str, text: &str) -> bool
    ensures { result ≡ holds sought.now text.now }
{
    match cut_at(sought, text) {
        None => false,
        Some(_) => true,
    }
}

/// A name without `&` before it.
fn bare(text: &str) -> &str
    ensures { result.now ≡ bare text.now }
{
    match after_front("&", text) {
        None => text,
        Some(name) => name,
    }
}

/// A name with `~` for the prefix.
fn marked(alloc: Global, prefix: &str, name: &str) -> Result<Text, AllocError>
    ensures { IfOk result (λ t. t ≡ marked prefix.now name.now) }
{
    match after_front(prefix, name) {
        None => Text::from_str(alloc, name),
        Some(rest) => numbered(alloc, "~", rest),
    }
}

/// A name as scopes know it: without `&` before it, and with `~` for the prefix.
pub fn plain_name(alloc: Global, prefix: &str, text: &str) -> Result<Text, AllocError>
    ensures { IfOk result (λ t. t ≡ plain prefix.now text.now) }
{
    marked(alloc, prefix, bare(text))
}

/// A name and what follows it.
pub fn numbered(alloc: Global, name: &str, rest: &str) -> Result<Text, AllocError>
    ensures { IfOk result (λ t. t ≡ name.now ++ rest.now) }
{
    let mut text = String::from_str(alloc, name)?;
    text.push_str(rest)?;
    Ok(Text(text))
}

/// The pieces of a text between the places where a separator stands; the last one only if it isn't empty.
#[tactic(auto, using(crate::proofs::Pieces::piece_end))]
pub fn parted<'t>(alloc: Global, text: &'t str, separator: &str) -> Result<Vec<&'t str>, AllocError>
    ensures { IfOk result (λ v. map (λ piece. piece.now) v.items ≡ pieces separator.now text.now) }
{
    let mut pieces = Vec::new(alloc);
    let mut rest = text;
    let mut left = text.len();
    while left > 0 {
        let (others, fewer) = push_piece(&mut pieces, rest, separator, left)?;
        rest = others;
        left = fewer;
    }
    with_last(pieces, rest)
}

/// Puts the piece before the first separator behind others; what is left of the text, and how many cuts more
/// there may be.
fn push_piece<'t>(
    pieces: &mut Vec<&'t str>,
    rest: &'t str,
    separator: &str,
    left: usize,
) -> Result<(&'t str, usize), AllocError>
    requires { 0 < left }
    ensures fewer { IfOk result (λ r. r.1 < left) }
    ensures pieces { IfOk result (λ r. map (λ piece. piece.now) pieces.new.items ++ pieces_within r.1 separator.now r.0.now ≡ map (λ piece. piece.now) pieces.old.items ++ pieces_within left separator.now rest.now) }
{
    match cut_at(separator, rest) {
        None => Ok((rest, 0)),
        Some(cut) => {
            pieces.push(cut.0)?;
            Ok((cut.1, left - 1))
        }
    }
}

/// The pieces, and a last one if anything stands there.
fn with_last<'t>(mut pieces: Vec<&'t str>, rest: &'t str) -> Result<Vec<&'t str>, AllocError>
    ensures { IfOk result (λ v. map (λ piece. piece.now) v.items ≡ map (λ piece. piece.now) pieces.entry.items ++ last_piece rest.now) }
{
    if rest.is_empty() {
        return Ok(pieces);
    }
    pieces.push(rest)?;
    Ok(pieces)
}

/// A printed `usize`.
pub fn number(text: &str) -> Option<usize>
    ensures { result ≡ number_of text.now }
{
    text.parse::<usize>().ok()
}

/// A printed number of any size that is looked at.
pub fn wide_number(text: &str) -> Option<i64>
    ensures { result ≡ wide_number_of text.now }
{
    text.parse::<i64>().ok()
}

/// A printed state type.
pub fn state_type(text: &str) -> Option<StateType>
    ensures { result ≡ state_type_of text.now }
{
    state_type_of(text.as_bytes())
}

/// A printed state type, by its bytes.
pub fn state_type_of(text: &[u8]) -> Option<StateType>
    ensures { result ≡ state_type_of text.now }
{
    if same_bytes(text, b"i8") {
        Some(StateType::I8)
    } else if same_bytes(text, b"i16") {
        Some(StateType::I16)
    } else if same_bytes(text, b"i32") {
        Some(StateType::I32)
    } else {
        None
    }
}

fn same_bytes(a: &[u8], b: &[u8]) -> bool
    ensures { result ≡ bytes_eq a.now b.now }
{
    a == b
}

/// A text without the bytes of this kind at its end.
pub fn without_end(end: u8, text: &[u8]) -> &[u8]
    ensures { result.now ≡ without_end end text.now }
{
    &text[..end_place(end, text)]
}

/// Where the bytes of this kind at the end of a text begin.
#[tactic(auto, using(crate::proofs::Ends::place_falls, crate::proofs::Ends::place_stays))]
pub fn end_place(end: u8, text: &[u8]) -> usize
    ensures place { result ≡ end_place end text.now (length text.now) }
    ensures within { result ≤ length text.now }
    ensures byte { result < length text.now → slice_index text.now result ≡ end }
{
    let mut n = text.len();
    while n > 0 {
        if text[n - 1] != end {
            return n;
        }
        n -= 1;
    }
    0
}

/// `a` and `b` of `a..=b`, or a number twice.
pub fn range(text: &str) -> Option<(i64, i64)>
    ensures { result ≡ range_of text.now }
{
    match cut_at("..=", text) {
        None => pair(wide_number(text), wide_number(text)),
        Some((low, high)) => pair(wide_number(low), wide_number(high)),
    }
}

/// Two numbers, if both are there.
fn pair(low: Option<i64>, high: Option<i64>) -> Option<(i64, i64)>
    ensures { result ≡ pair_of low high }
{
    match low {
        None => None,
        Some(low) => match high {
            None => None,
            Some(high) => Some((low, high)),
        },
    }
}

/// What a parameter row binds.
#[derive(Drop)]
pub enum Bound<'t> {
    /// The row has no value.
    Nothing,
    /// A symbol's value with its span, under no name that forms use.
    Triple,
    Named(&'t str),
}

/// Whether a parameter row has no value.
fn is_idle(row: &str) -> bool
    ensures { result ≡ is_idle row.now }
{
    same(row, "&self") || (same(row, "&mut self") || begins("_:", row))
}

/// What a row binds that has a value.
fn row_binding(row: &str) -> Bound<'_>
    ensures { binding result ≡ row_binding row.now }
{
    if begins("(", row) {
        return Bound::Triple;
    }
    match cut_at(":", row) {
        None => Bound::Nothing,
        Some((name, _)) => Bound::Named(name),
    }
}

/// What a parameter row binds.
pub fn bound_by(row: &str) -> Bound<'_>
    ensures { binding result ≡ bound_of row.now }
{
    if is_idle(row) {
        Bound::Nothing
    } else {
        row_binding(row)
    }
}
