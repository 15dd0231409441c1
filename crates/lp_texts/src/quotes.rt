//! Where quotes end.

ghost use Rattle.std.specs.Prelude.{◌≡◌, ◌==◌, ◌+◌, ◌<◌, ◌≤◌, length, drop, slice_index};
ghost use Rattle.lp_tok.specs.Signs.{quote, apostrophe};
ghost use Rattle.lp_tok.specs.Scans.{from_char, from_unescaped, past};
ghost use Rattle.lp_texts.specs.Quotes.{goes_on, after_character};
ghost use Rattle.lp_texts.specs.Places.{EndsAt, IsPieceAt, found_of};

/// What stands at a place of a text.
#[derive(Clone, Copy)]
pub(crate) enum Found {
    /// A quote, and the place after it.
    Quote(usize),
    /// A quote without an end.
    Unended,
    /// A single byte.
    Single,
}

/// The piece at a place.
pub(crate) fn piece_at(text: &[u8], at: usize) -> Found
    requires { at < length text.now }
    ensures { IsPieceAt text.now at result }
{
    match text[at] {
        b'"' => found_quote(string_end(text, at + 1)),
        b'\'' => apostrophe_at(text, at),
        _ => Found::Single,
    }
}

/// A quote up to its end.
fn found_quote(end: Option<usize>) -> Found
    ensures { result ≡ found_of end }
{
    match end {
        None => Found::Unended,
        Some(end) => Found::Quote(end),
    }
}

/// The piece that a `'` begins.
fn apostrophe_at(text: &[u8], at: usize) -> Found
    requires inside { at < length text.now }
    requires mark { slice_index text.now at ≡ apostrophe }
    ensures { IsPieceAt text.now at result }
{
    let next = at + 1;
    if next >= text.len() {
        return Found::Single;
    }
    if text[next] == b'\\' {
        return found_quote(closing_end(text, next + 1));
    }
    match past_apostrophe(text, character_end(text, next + 1)) {
        None => Found::Single,
        Some(end) => Found::Quote(end),
    }
}

/// The place after the closing quote of a string, from inside it.
fn string_end(text: &[u8], from: usize) -> Option<usize>
    requires { from ≤ length text.now }
    ensures { EndsAt text.now from (past quote (from_unescaped quote (drop from text.now))) result }
{
    let mut escaped = false;
    for i in from..text.len() {
        if escaped {
            escaped = false;
        } else if text[i] == b'\\' {
            escaped = true;
        } else if text[i] == b'"' {
            return Some(i + 1);
        }
    }
    None
}

/// The place after the next `'`.
fn closing_end(text: &[u8], from: usize) -> Option<usize>
    requires { from ≤ length text.now }
    ensures { EndsAt text.now from (past apostrophe (from_char apostrophe (drop from text.now))) result }
{
    for i in from..text.len() {
        if text[i] == b'\'' {
            return Some(i + 1);
        }
    }
    None
}

/// The place after a character, from behind its first byte.
fn character_end(text: &[u8], from: usize) -> usize
    requires { from ≤ length text.now }
    ensures bounds { result ≤ length text.now }
    ensures behind { from ≤ result }
    ensures value { drop result text.now ≡ after_character (drop from text.now) }
{
    for i in from..text.len() {
        if !goes_on(text[i]) {
            return i;
        }
    }
    text.len()
}

/// Whether a byte belongs to a character that began before it.
fn goes_on(byte: u8) -> bool
    ensures { result ≡ goes_on byte }
{
    128 <= byte && byte < 192
}

/// The place after a `'` that stands here.
fn past_apostrophe(text: &[u8], at: usize) -> Option<usize>
    requires { at ≤ length text.now }
    ensures { EndsAt text.now at (past apostrophe (drop at text.now)) result }
{
    if at < text.len() && text[at] == b'\'' {
        Some(at + 1)
    } else {
        None
    }
}
