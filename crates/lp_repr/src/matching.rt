//! Tokens and the terminals that they match.

ghost use Rattle.std.specs.Prelude.{◌≡◌, ◌++◌, codes};
ghost use Rattle.std.specs.Bool.{Decides};
ghost use Rattle.std.specs.List.{flat_map};
ghost use Rattle.std.specs.BTreeMap.{get};
ghost use Rattle.lp_repr.specs.Names.{same_text};
ghost use Rattle.lp_repr.specs.NameOrder.{terminal_cmp};
ghost use Rattle.lp_repr.specs.Matching.{Matches, is_match, is_match_of, matched_number};

use crate::repr::{Grammar, TerminalString, TokenPattern};
use crate::text::Text;
use crate::values::TokenValue;

/// A token matches a pattern where its form is the pattern's text with `_` in the holes.
pub fn matches(pattern: &TokenPattern, token: &TokenValue) -> bool
    ensures test { result ≡ is_match pattern.now token.now }
    ensures decides { Decides result (Matches pattern.now token.now) }
{
    let form = token.form.as_str().as_bytes();
    match pattern.pieces.as_slice().split_first() {
        None => form.is_empty(),
        Some((first, rest)) => match form.strip_prefix(first.as_str().as_bytes()) {
            None => false,
            Some(form) => matches_after(rest, form),
        },
    }
}

/// The text is each piece after a `_`.
fn matches_after(pieces: &[Text], text: &[u8]) -> bool
    ensures { result ≡ same_text text.now (flat_map (λ piece. codes "_" ++ piece) pieces.now) }
{
    let mut text = text;
    for piece in pieces {
        let Some(after_hole) = text.strip_prefix(b"_") else {
            return false;
        };
        let Some(after_piece) = after_hole.strip_prefix(piece.as_str().as_bytes()) else {
            return false;
        };
        text = after_piece;
    }
    text.is_empty()
}

/// A token matches the pattern of a terminal, where it has one.
fn matches_terminal(grammar: &Grammar, terminal: &TerminalString, token: &TokenValue) -> bool
    ensures { result ≡ is_match_of (get terminal_cmp grammar.now.conversions terminal.now) token.now }
{
    match grammar.conversions.get(terminal) {
        None => false,
        Some(pattern) => matches(pattern, token),
    }
}

/// The number of the first terminal that a token matches.
pub fn matched_terminal(grammar: &Grammar, token: &TokenValue) -> Option<usize>
    ensures { result ≡ matched_number grammar.now token.now }
{
    let terminals = grammar.terminals.all.as_slice();
    terminals
        .iter()
        .position(|terminal| matches_terminal(grammar, terminal, token))
}
