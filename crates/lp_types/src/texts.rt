//! Tokens that have a text, and tokens that have none.

ghost use Rattle.std.specs.Prelude.{◌≡◌, Some};
ghost use Rattle.std.specs.Option.{option_map};
ghost use Rattle.lp_types.specs.Marks.{is_tok, mark_of, texted};

use lp_tok::Tok;

/// A kind of tokens that have a text.
#[derive(Clone, Copy, PartialEq, Eq)]
pub enum Kind {
    Use,
    Escape,
    Id,
    MacroId,
    Lifetime,
    StringLiteral,
    CharLiteral,
    RegexLiteral,
    Code,
    FallibleCode,
    Attribute,
}

/// The kind and the text of a token that has one.
pub fn texted<'i>(token: &Tok<'i>) -> Option<(Kind, &'i str)>
    ensures { option_map (λ p. (p.0, p.1.now)) result ≡ texted (mark_of token.now) }
{
    match token {
        Tok::Use(text) => Some((Kind::Use, text)),
        Tok::Escape(text) => Some((Kind::Escape, text)),
        Tok::Id(text) => Some((Kind::Id, text)),
        Tok::MacroId(text) => Some((Kind::MacroId, text)),
        Tok::Lifetime(text) => Some((Kind::Lifetime, text)),
        Tok::StringLiteral(text) => Some((Kind::StringLiteral, text)),
        Tok::CharLiteral(text) => Some((Kind::CharLiteral, text)),
        Tok::RegexLiteral(text) => Some((Kind::RegexLiteral, text)),
        Tok::EqualsGreaterThanCode(text) => Some((Kind::Code, text)),
        Tok::EqualsGreaterThanQuestionCode(text) => Some((Kind::FallibleCode, text)),
        Tok::ShebangAttribute(text) => Some((Kind::Attribute, text)),
        _ => None,
    }
}

/// Whether a token is this one, which has no text.
pub fn is_same(found: &Tok<'_>, token: &Tok<'_>) -> bool
    ensures { result ≡ is_tok token.now (Some (mark_of found.now)) }
{
    match texted(found) {
        Some(_) => false,
        None => found == token,
    }
}
