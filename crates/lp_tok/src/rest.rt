//! What is left of a text, and a step over one character.
ghost use Rattle.std.specs.Prelude.{◌≡◌, ℕ, ◌<◌, ◌≤◌, List, [], ◌∷◌, ◌++◌, length, drop, MatchOption, IfSome, IsTrue, ◌↔◌, option_map};
ghost use Rattle.std.specs.Str.{chars, IsCharBoundary};
ghost use Rattle.lp_tok.specs.Left.{left, size, Follows, EndsIn};
ghost use Rattle.lp_tok.specs.Scans.{past, past_any};

/// What is left to read: a text, and what stands behind it.
#[derive(Clone, Copy)]
pub(crate) struct Rest<'a> {
    pub text: &'a str,
    pub behind: &'a str,
}

/// All of a text, with nothing behind it.
pub(crate) fn whole(text: &str) -> Rest<'_>
    ensures value { left result ≡ chars text.now }
    ensures text { result.text.now ≡ text.now }
    ensures behind { result.behind.now ≡ [] }
{
    Rest { text, behind: "" }
}

/// The first character of a text, and the text after it.
fn split_char(text: &str) -> Option<(char, &str)>
    ensures first { MatchOption result (text.now ≡ []) (λ p. chars text.now ≡ p.0 ∷ chars p.1.now) }
    ensures follows { IfSome result (λ p. (read : List ℕ) × (text.now ≡ read ++ p.1.now)) }
    ensures shorter { IfSome result (λ p. length p.1.now < length text.now) }
{
    let mut chars = text.chars();
    match chars.next() {
        Some(c) => Some((c, chars.as_str())),
        None => None,
    }
}

/// The first character that is left, and what is left after it.
#[inline]
pub(crate) fn first_char<'a>(rest: Rest<'a>) -> Option<(char, Rest<'a>)>
    ensures first { MatchOption result (left rest.entry ≡ []) (λ p. left rest.entry ≡ p.0 ∷ left p.1) }
    ensures follows { IfSome result (λ p. Follows rest.entry p.1) }
    ensures shorter { IfSome result (λ p. size p.1 < size rest.entry) }
{
    match split_char(rest.text) {
        Some((c, text)) => Some((
            c,
            Rest {
                text,
                behind: rest.behind,
            },
        )),
        None => match split_char(rest.behind) {
            Some((c, behind)) => Some((
                c,
                Rest {
                    text: rest.text,
                    behind,
                },
            )),
            None => None,
        },
    }
}

/// What is left after `wanted`, where that character comes first.
pub(crate) fn past<'a>(rest: Rest<'a>, wanted: char) -> Option<Rest<'a>>
    ensures value { option_map left result ≡ past wanted (left rest.entry) }
    ensures follows { IfSome result (λ r. Follows rest.entry r) }
    ensures shorter { IfSome result (λ r. size r < size rest.entry) }
{
    match first_char(rest) {
        Some((c, after)) => { if c == wanted { Some(after) } else { None } }
        None => None,
    }
}

/// What is left after one character, if there is one.
pub(crate) fn past_any<'a>(rest: Rest<'a>) -> Rest<'a>
    ensures value { left result ≡ past_any (left rest.entry) }
    ensures follows { Follows rest.entry result }
    ensures shorter { size result ≤ size rest.entry }
{
    match first_char(rest) {
        Some((_, after)) => after,
        None => rest,
    }
}

/// Whether nothing is left.
pub(crate) fn is_done(rest: Rest<'_>) -> bool
    ensures { IsTrue result ↔ (left rest.entry ≡ []) }
{
    first_char(rest).is_none()
}

/// The byte of a text at which an end of it begins.
pub(crate) fn place_in(text: &str, rest: &str) -> usize
    requires { EndsIn text.now rest.now }
    ensures rest { drop result text.now ≡ rest.now }
    ensures boundary { IsCharBoundary text.now result }
{
    text.len() - rest.len()
}
