//! Where a hole of a line ends.

ghost use Rattle.std.specs.Prelude.{◌≡◌, ◌<◌, ◌≤◌, ◌+◌, ◌-◌, ◌^◌, length, drop, map, nat_eq};
ghost use Rattle.std.specs.List.{prefix_len, starts_with};
ghost use Rattle.lp_form.specs.Templates.{piece};
ghost use Rattle.lp_spelling.specs.Lines.{slot_text};
ghost use Rattle.lp_spelling.specs.HoleEnds as ends;

use lp_form::template::Piece as LinePart;
use lp_form::{Kind, Slot};
use lp_tree::piece::Piece;

pub(crate) fn is_digit(byte: u8) -> bool
    ensures { result ≡ ends.is_digit byte }
{
    byte >= b'0' && byte <= b'9'
}

/// A letter, a digit, `_`, or a byte of a character beyond ASCII.
pub(crate) fn is_word(byte: u8) -> bool
    ensures { result ≡ ends.is_word byte }
{
    is_digit(byte)
        || ((byte >= b'A' && byte <= b'Z')
            || ((byte >= b'a' && byte <= b'z') || (byte == b'_' || byte >= 0x80)))
}

/// How many bytes in front are letters, digits, `_` or beyond ASCII.
#[tactic(auto, using(crate::proofs::HoleSteps::run_steps))]
pub(crate) fn word_run(text: &[u8]) -> usize
    ensures value { result ≡ prefix_len ends.is_word text.now }
    ensures bound { result ≤ length text.now }
{
    for (i, b) in text.iter().enumerate() {
        if !is_word(*b) {
            return i;
        }
    }
    text.len()
}

/// How many bytes in front are digits.
#[tactic(auto, using(crate::proofs::HoleSteps::run_steps))]
pub(crate) fn digit_run(text: &[u8]) -> usize
    ensures value { result ≡ prefix_len ends.is_digit text.now }
    ensures bound { result ≤ length text.now }
{
    for (i, b) in text.iter().enumerate() {
        if !is_digit(*b) {
            return i;
        }
    }
    text.len()
}

/// The text from a place on.
pub(crate) fn rest_from(text: &[u8], at: usize) -> &[u8]
    requires { at ≤ length text.now }
    ensures { result.now ≡ drop at text.now }
{
    &text[at..]
}

/// Whether a text stands at a place of another.
pub(crate) fn stands_at(text: &[u8], at: usize, sought: &[u8]) -> bool
    requires { at ≤ length text.now }
    ensures { result ≡ starts_with nat_eq (drop at text.now) sought.now }
{
    rest_from(text, at).starts_with(sought)
}

/// The first place of a text in another, or the other's length.
#[tactic(auto, using(crate::proofs::HoleSteps::first_steps))]
pub(crate) fn place_in(text: &[u8], sought: &[u8]) -> usize
    ensures value { result ≡ ends.place sought.now text.now }
    ensures bound { result ≤ length text.now }
{
    for i in 0..text.len() {
        if stands_at(text, i, sought) {
            return i;
        }
    }
    text.len()
}

/// How many brackets are open after a byte.
fn depth_after(depth: usize, byte: u8) -> usize
    requires { depth < 2 ^ 64 - 1 }
    ensures value { result ≡ ends.depth_after depth byte }
    ensures bound { result ≤ depth + 1 }
{
    if byte == b'(' {
        return depth + 1;
    }
    if byte == b')' {
        depth.saturating_sub(1)
    } else {
        depth
    }
}

/// Whether a byte closes the last open bracket.
fn closes_all(depth: usize, byte: u8) -> bool
    ensures { result ≡ ends.closes_all depth byte }
{
    byte == b')' && depth <= 1
}

/// The place of the bracket that closes all, or the length.
#[tactic(auto, using(crate::proofs::HoleSteps::close_steps))]
fn close_at(text: &[u8]) -> usize
    ensures value { result ≡ ends.close_at 0 text.now }
    ensures bound { result ≤ length text.now }
{
    let mut depth = 0usize;
    for i in 0..text.len() {
        if closes_all(depth, text[i]) {
            return i;
        }
        depth = depth_after(depth, text[i]);
    }
    text.len()
}

/// How long a visibility with a path in front is.
fn path_len(text: &[u8]) -> usize
    ensures value { result ≡ ends.path_len text.now }
    ensures bound { result ≤ length text.now }
{
    let at = close_at(text);
    if at < text.len() {
        if text.len() - at < 2 {
            text.len()
        } else {
            at + 2
        }
    } else {
        0
    }
}

/// How long a visibility in front is.
#[tactic(auto, unfolding(crate::specs::HoleEnds::visibility_len))]
pub(crate) fn visibility_len(text: &[u8]) -> usize
    ensures value { result ≡ ends.visibility_len text.now }
    ensures bound { result ≤ length text.now }
{
    if text.starts_with(b"pub ") {
        return 4;
    }
    if text.starts_with(b"pub(") {
        path_len(text)
    } else {
        0
    }
}

/// Whether symbols end in front: at a comma with no symbol behind it.
fn ends_symbols(prefix: &[u8], text: &[u8]) -> bool
    ensures { result ≡ ends.ends_symbols prefix.now text.now }
{
    text.starts_with(b", ") && !stands_at(text, 2, prefix)
}

/// How long the symbols in front are.
#[tactic(auto, using(crate::proofs::HoleSteps::first_steps))]
fn symbols_len(prefix: &[u8], text: &[u8]) -> usize
    ensures value { result ≡ ends.first_at (ends.ends_symbols prefix.now) text.now }
    ensures bound { result ≤ length text.now }
{
    for i in 0..text.len() {
        if ends_symbols(prefix, rest_from(text, i)) {
            return i;
        }
    }
    text.len()
}

/// Whether the second literal text stands in front.
fn second_goes_on(parts: &[LinePart], text: &[u8]) -> bool
    ensures { result ≡ ends.second_goes_on (map piece parts.now) text.now }
{
    if parts.len() < 2 {
        return true;
    }
    text.starts_with(parts[1].0.as_bytes())
}

/// Whether what follows the first literal text goes on in front.
fn slot_goes_on(prefix: &[u8], slot: Slot, parts: &[LinePart], text: &[u8]) -> bool
    ensures { result ≡ ends.slot_goes_on prefix.now slot (map piece parts.now) text.now }
{
    match slot {
        Slot::Nothing => true,
        Slot::Prefix => {
            text.starts_with(prefix) && second_goes_on(parts, rest_from(text, prefix.len()))
        }
        Slot::Hole(_) => true,
    }
}

/// Whether the parts go on at the front of the text: a literal text, and, where the prefix follows,
/// the prefix and the next literal text.
fn goes_on(prefix: &[u8], parts: &[LinePart], text: &[u8]) -> bool
    ensures { result ≡ ends.goes_on prefix.now (map piece parts.now) text.now }
{
    if parts.is_empty() {
        return text.is_empty();
    }
    let literal = parts[0].0.as_bytes();
    text.starts_with(literal)
        && slot_goes_on(prefix, parts[0].1, parts, rest_from(text, literal.len()))
}

/// The first place where the parts go on, or the length.
#[tactic(auto, using(crate::proofs::HoleSteps::first_steps))]
fn first_place(prefix: &[u8], parts: &[LinePart], text: &[u8]) -> usize
    ensures value { result ≡ ends.first_at (ends.goes_on prefix.now (map piece parts.now)) text.now }
    ensures bound { result ≤ length text.now }
{
    for i in 0..text.len() {
        if goes_on(prefix, parts, rest_from(text, i)) {
            return i;
        }
    }
    text.len()
}

/// The last place where the parts go on, or the length.
fn last_place(prefix: &[u8], parts: &[LinePart], text: &[u8]) -> usize
    ensures value { result ≡ ends.last_at (ends.goes_on prefix.now (map piece parts.now)) text.now }
    ensures bound { result ≤ length text.now }
{
    let mut last = text.len();
    for i in 0..text.len() {
        if goes_on(prefix, parts, rest_from(text, i)) {
            last = i;
        }
    }
    last
}

/// How many bytes the text of a slot has; none for a hole that isn't known.
fn slot_len(prefix: &str, known: &[Piece<'_>], slot: Slot) -> usize
    ensures { result ≡ length (slot_text prefix.now known.now slot) }
{
    match slot {
        Slot::Nothing => 0,
        Slot::Prefix => prefix.len(),
        Slot::Hole(k) => {
            if k < known.len() {
                known[k].as_str().len()
            } else {
                0
            }
        }
    }
}

fn is_hole(k: usize, slot: Slot) -> bool
    ensures { result ≡ ends.is_hole k slot }
{
    match slot {
        Slot::Nothing => false,
        Slot::Prefix => false,
        Slot::Hole(j) => j == k,
    }
}

fn is_up_to(k: usize, slot: Slot) -> bool
    ensures { result ≡ ends.is_up_to k slot }
{
    match slot {
        Slot::Nothing => true,
        Slot::Prefix => true,
        Slot::Hole(j) => j <= k,
    }
}

/// How many of n bytes the parts leave for holes that are not known.
#[tactic(auto, using(crate::proofs::HoleSteps::part_steps))]
fn left_by(prefix: &str, known: &[Piece<'_>], parts: &[LinePart], n: usize) -> usize
    ensures value { result ≡ ends.left_by prefix.now known.now (map piece parts.now) n }
    ensures bound { result ≤ n }
{
    let mut rest = n;
    for part in parts {
        let text = part.0.len();
        let slot = slot_len(prefix, known, part.1);
        rest = rest.saturating_sub(text);
        rest = rest.saturating_sub(slot);
    }
    rest
}

/// How often a hole stands in the parts.
#[tactic(auto, using(crate::proofs::HoleSteps::part_steps))]
fn times(k: usize, parts: &[LinePart]) -> usize
    ensures value { result ≡ ends.times k (map piece parts.now) }
    ensures bound { result ≤ length parts.now }
{
    let mut count = 0usize;
    for part in parts {
        if is_hole(k, part.1) {
            count += 1;
        }
    }
    count
}

/// Whether nothing else is left to be told in the parts.
#[tactic(auto, using(crate::proofs::HoleSteps::part_steps))]
fn is_alone(k: usize, parts: &[LinePart]) -> bool
    ensures { result ≡ ends.is_alone k (map piece parts.now) }
{
    for part in parts {
        if !is_up_to(k, part.1) {
            return false;
        }
    }
    true
}

/// How long a hole is by what its kind holds.
#[tactic(auto, unfolding(crate::specs::HoleEnds::kind_len))]
fn kind_len(prefix: &[u8], kind: Kind, parts: &[LinePart], text: &[u8]) -> usize
    ensures value { result ≡ ends.kind_len prefix.now kind (map piece parts.now) text.now }
    ensures bound { result ≤ length text.now }
{
    match kind {
        Kind::Name | Kind::PlainName | Kind::Escaped => word_run(text),
        Kind::Number | Kind::NotOne => digit_run(text),
        Kind::Visibility => visibility_len(text),
        Kind::Symbols => symbols_len(prefix, text),
        Kind::Pattern | Kind::Patterns | Kind::Generics => last_place(prefix, parts, text),
        _ => first_place(prefix, parts, text),
    }
}

/// How long a hole is at the front of the text, before the parts.
#[tactic(auto, unfolding(crate::specs::HoleEnds::hole_len))]
pub(crate) fn hole_len(
    prefix: &str,
    kind: Kind,
    k: usize,
    parts: &[LinePart],
    known: &[Piece<'_>],
    text: &str,
) -> usize
    ensures value { result ≡ ends.hole_len prefix.now kind k (map piece parts.now) known.now text.now }
    ensures bound { result ≤ length text.now }
{
    if is_alone(k, parts) {
        let left = left_by(prefix, known, parts, text.len());
        return left / (1 + times(k, parts));
    }
    kind_len(prefix.as_bytes(), kind, parts, text.as_bytes())
}
