//! Words, hashes, strings and comments: where each ends.
#![tactic(auto, using(crate::proofs::Lefts::follows_follows, crate::proofs::Lefts::follows_itself))]

ghost use Rattle.std.specs.Prelude.{◌≡◌, ◌+◌, ◌<◌, ◌≤◌, ◌∷◌, MatchOption, IfSome, option_map};
ghost use Rattle.lp_tok.specs.Left.{left, size, Follows};
ghost use Rattle.lp_tok.specs.Signs.{line_feed};
ghost use Rattle.lp_tok.specs.Scans.{starts_word, continues_word, after_word, from_char, from_unescaped, hashes, after_hashes, past_hashes, raw_end, after_comment, after_attribute, NoString};
ghost use Rattle.lp_tok.specs.Marks.{raw_ends, MarkIs};

use crate::rest::{Rest, first_char, past, past_any};

/// Whether a word may begin with the character.
pub(crate) fn starts_word(c: char) -> bool
    ensures { result ≡ starts_word c }
{
    unicode_ident::is_xid_start(c) || c == '_'
}

/// Whether a word may go on with the character.
pub(crate) fn continues_word(c: char) -> bool
    ensures { result ≡ continues_word c }
{
    unicode_ident::is_xid_continue(c) || c == '_'
}

/// What is left after the characters of a word.
pub(crate) fn after_word<'a>(from: Rest<'a>) -> Rest<'a>
    ensures value { left result ≡ after_word (left from.entry) }
    ensures follows { Follows from.entry result }
    ensures shorter { size result ≤ size from.entry }
{
    let mut rest = from;
    while let Some((c, after)) = first_char(rest) {
        if !continues_word(c) {
            return rest;
        }
        rest = after;
    }
    rest
}

/// What is left from the next `wanted` on, or nothing.
pub(crate) fn from_char<'a>(from: Rest<'a>, wanted: char) -> Rest<'a>
    ensures value { left result ≡ from_char wanted (left from.entry) }
    ensures follows { Follows from.entry result }
    ensures shorter { size result ≤ size from.entry }
{
    let mut rest = from;
    while let Some((c, after)) = first_char(rest) {
        if c == wanted {
            return rest;
        }
        rest = after;
    }
    rest
}

/// What is left from the next `quote` on that no `\` escapes, or nothing.
#[tactic(auto, using(crate::proofs::Lefts::follows_follows, crate::proofs::Lefts::follows_itself, crate::proofs::ScanSteps::unescaped_plain, crate::proofs::ScanSteps::unescaped_escape))]
pub(crate) fn from_unescaped<'a>(from: Rest<'a>, quote: char) -> Rest<'a>
    ensures value { left result ≡ from_unescaped quote (left from.entry) }
    ensures follows { Follows from.entry result }
    ensures shorter { size result ≤ size from.entry }
{
    let mut rest = from;
    while let Some((c, after)) = first_char(rest) {
        if c == quote {
            return rest;
        }
        rest = if c == '\\' { past_any(after) } else { after };
    }
    rest
}

/// How many hashes come first, and what is left after them.
pub(crate) fn count_hashes<'a>(from: Rest<'a>) -> (usize, Rest<'a>)
    ensures count { result.0 ≡ hashes (left from.entry) }
    ensures value { left result.1 ≡ after_hashes (left from.entry) }
    ensures follows { Follows from.entry result.1 }
    ensures shorter { result.0 + size result.1 ≤ size from.entry }
{
    let mut rest = from;
    let mut count = 0;
    while let Some(after) = past(rest, '#') {
        rest = after;
        count += 1;
    }
    (count, rest)
}

/// What is left after `count` hashes, where they come first.
#[tactic(auto, using(crate::proofs::Lefts::follows_follows, crate::proofs::Lefts::follows_itself, crate::proofs::ScanSteps::past_hashes_some, crate::proofs::ScanSteps::past_hashes_none, crate::proofs::ScanSteps::past_hashes_zero))]
pub(crate) fn past_hashes<'a>(from: Rest<'a>, count: usize) -> Option<Rest<'a>>
    ensures value { option_map left result ≡ past_hashes count (left from.entry) }
    ensures follows { IfSome result (λ r. Follows from.entry r) }
    ensures shorter { IfSome result (λ r. size r ≤ size from.entry) }
{
    let mut rest = from;
    let mut missing = count;
    while missing > 0 {
        match past(rest, '#') {
            Some(after) => rest = after,
            None => return None,
        }
        missing -= 1;
    }
    Some(rest)
}

/// The end of a raw string: what is left from its closing quote on, and after the hashes of it.
#[derive(Clone, Copy)]
pub(crate) struct RawEnd<'a> {
    pub quote: Rest<'a>,
    pub after: Rest<'a>,
}

/// The next `"` that `hashes` hashes follow.
pub(crate) fn raw_end<'a>(from: Rest<'a>, hashes: usize) -> Option<RawEnd<'a>>
    ensures value { option_map raw_ends result ≡ raw_end hashes (left from.entry) }
    ensures quote_follows { IfSome result (λ r. Follows from.entry r.quote) }
    ensures follows { IfSome result (λ r. Follows from.entry r.after) }
    ensures quote_before { IfSome result (λ r. Follows r.quote r.after) }
    ensures shorter { IfSome result (λ r. size r.after ≤ size from.entry) }
{
    let mut rest = from;
    while let Some((c, next)) = first_char(rest) {
        if c == '"' {
            if let Some(after) = past_hashes(next, hashes) {
                return Some(RawEnd { quote: rest, after });
            }
        }
        rest = next;
    }
    None
}

/// What comes first inside a block comment, and what is left after it.
#[derive(Drop)]
enum Mark<'a> {
    Opens(Rest<'a>),
    Closes(Rest<'a>),
    Other(Rest<'a>),
    End,
}

fn comment_mark<'a>(rest: Rest<'a>) -> Mark<'a>
    ensures { MarkIs rest.entry result }
{
    match first_char(rest) {
        Some((c, next)) => {
            if c == '/' {
                match past(next, '*') {
                    Some(after) => Mark::Opens(after),
                    None => Mark::Other(next),
                }
            } else if c == '*' {
                match past(next, '/') {
                    Some(after) => Mark::Closes(after),
                    None => Mark::Other(next),
                }
            } else {
                Mark::Other(next)
            }
        }
        None => Mark::End,
    }
}

/// What is left after the end of a block comment whose `/*` was read. Comments nest.
pub(crate) fn after_comment<'a>(from: Rest<'a>) -> Option<Rest<'a>>
    ensures value { option_map left result ≡ after_comment 0 (left from.entry) }
    ensures follows { IfSome result (λ r. Follows from.entry r) }
    ensures shorter { IfSome result (λ r. size r ≤ size from.entry) }
{
    let mut rest = from;
    let mut outer: usize = 0;
    loop {
        match comment_mark(rest) {
            Mark::Opens(after) => {
                outer += 1;
                rest = after;
            }
            Mark::Closes(after) => {
                if outer == 0 {
                    return Some(after);
                }
                outer -= 1;
                rest = after;
            }
            Mark::Other(after) => rest = after,
            Mark::End => return None,
        }
    }
}

/// What is left after the `]` that closes an attribute whose `#![` was read, on one line but for
/// its strings.
#[tactic(auto, using(crate::proofs::Lefts::follows_follows, crate::proofs::Lefts::follows_itself, crate::proofs::ScanSteps::attribute_string, crate::proofs::ScanSteps::attribute_other))]
pub(crate) fn after_attribute<'a>(from: Rest<'a>) -> Option<Rest<'a>>
    ensures value { option_map left result ≡ after_attribute NoString 0 (left from.entry) }
    ensures follows { IfSome result (λ r. Follows from.entry r) }
    ensures shorter { IfSome result (λ r. size r ≤ size from.entry) }
{
    let mut rest = from;
    let mut outer: usize = 0;
    while let Some((c, next)) = first_char(rest) {
        if c == '"' {
            match past(from_unescaped(next, '"'), '"') {
                Some(after) => rest = after,
                None => return None,
            }
        } else if c == '[' {
            outer += 1;
            rest = next;
        } else if c == ']' {
            if outer == 0 {
                return Some(next);
            }
            outer -= 1;
            rest = next;
        } else if c == '\n' {
            return None;
        } else {
            rest = next;
        }
    }
    None
}

/// What is left after a line comment, whose `//` was read: its line end and all that follows.
pub(crate) fn after_line_comment<'a>(rest: Rest<'a>) -> Rest<'a>
    ensures value { left result ≡ from_char line_feed (left rest.entry) }
    ensures follows { Follows rest.entry result }
    ensures shorter { size result ≤ size rest.entry }
{
    from_char(rest, '\n')
}
