//! What a tokenizer has not read yet.

ghost use Rattle.std.specs.Prelude.{◌≡◌, true, false};
ghost use Rattle.lp_tok.specs.Scans.{has_closer};

use crate::tok::Tok;

/// Reads the tokens of a grammar file. After its first error it answers None.
#[derive(Drop)]
pub struct Tokenizer<'input> {
    pub(crate) rest: &'input str,
    pub(crate) end: usize,
    /// How many bytes stand behind the `]` that was found last, and at first all. While more are
    /// left, no other `]` is looked for.
    pub(crate) behind: usize,
    /// Whether it was seen that no `]` is left. Then no `#` begins an attribute, and none is looked
    /// for again.
    pub(crate) unclosed: bool,
    ghost none_left: { unclosed ≡ true → has_closer rest.now ≡ false },
}

/// Whether the next `]` is looked for: where a `#` began no attribute, and the `]` that was found
/// last was passed.
fn is_sought(behind: usize, token: &Tok<'_>, rest: &str) -> bool {
    match token {
        Tok::Hash => rest.len() <= behind && rest.starts_with("!["),
        _ => false,
    }
}

/// Whether no `]` is left after a token.
pub(crate) fn is_unclosed(unclosed: bool, behind: usize, token: &Tok<'_>, rest: &str) -> bool
    requires { unclosed ≡ true → has_closer rest.now ≡ false }
    ensures { result ≡ true → has_closer rest.now ≡ false }
{
    unclosed || (is_sought(behind, token, rest) && !rest.as_bytes().contains(&b']'))
}

/// How many bytes stand behind the `]` that was found last, after a token.
pub(crate) fn behind_closer(behind: usize, token: &Tok<'_>, rest: &str) -> usize {
    if !is_sought(behind, token, rest) {
        return behind;
    }
    match rest.find(']') {
        Some(at) => rest.len().saturating_sub(at).saturating_sub(1),
        None => 0,
    }
}
