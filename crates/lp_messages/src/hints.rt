//! Hints: what is seen at the place where a file isn't read.

use crate::marks::{part_behind, word_of};
use crate::table::{GROUPS, Hint, hints};
use lp_tok::{Spanned, Tok};

/// What is seen at a place: the part of the file, and the words of the tokens before it and there.
#[derive(Clone, Copy)]
pub struct Seen {
    pub part: &'static str,
    pub back: &'static str,
    pub before: &'static str,
    pub found: &'static str,
}

/// What is seen at a place, where what isn't a token there has this word.
pub fn seen_at(tokens: &[Spanned<Tok<'_>>], place: usize, other: &'static str) -> Seen {
    let mut seen = Seen {
        part: "head",
        back: "start",
        before: "start",
        found: other,
    };
    for (from, token, _) in tokens {
        let word = word_of(token);
        if *from == place {
            seen.found = word;
        }
        if *from >= place {
            break;
        }
        seen.part = part_behind(seen.part, word);
        seen.back = seen.before;
        seen.before = word;
    }
    seen
}

/// The first hint that fits.
pub fn hint_at(seen: &Seen, text: &str) -> Option<Hint> {
    for group in 0..GROUPS {
        for hint in hints(group) {
            if fits(hint.at, seen) && begins(hint.begins, text) {
                return Some(*hint);
            }
        }
    }
    None
}

/// Whether what is seen is among the words of a hint.
fn fits(at: &str, seen: &Seen) -> bool {
    let (part, rest) = at.split_once(' ').unwrap_or((at, ""));
    let (back, rest) = rest.split_once(' ').unwrap_or((rest, ""));
    let (before, found) = rest.split_once(' ').unwrap_or((rest, ""));
    is_among(part, seen.part)
        && is_among(back, seen.back)
        && is_among(before, seen.before)
        && is_among(found, seen.found)
}

/// Whether a word is among those between `|`; `.` stands for all.
fn is_among(words: &str, word: &str) -> bool {
    words == "." || words.split('|').any(|one| one == word)
}

/// Whether a text begins with one of those between `|`, or `|` is the only one.
fn begins(fronts: &str, text: &str) -> bool {
    if fronts == "|" {
        return text.starts_with('|');
    }
    fronts.split('|').any(|front| text.starts_with(front))
}
