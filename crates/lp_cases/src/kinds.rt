//! Kinds of tokens.

use lp_tok::Tok;

/// The kind of a token, and its text; where it has none, the empty one.
pub fn kind<'t>(token: &Tok<'t>) -> (&'static str, &'t str) {
    match token {
        Tok::Use(text) => ("Use", *text),
        Tok::Escape(text) => ("Escape", *text),
        Tok::Id(text) => ("Id", *text),
        Tok::MacroId(text) => ("MacroId", *text),
        Tok::Lifetime(text) => ("Lifetime", *text),
        Tok::StringLiteral(text) => ("StringLiteral", *text),
        Tok::CharLiteral(text) => ("CharLiteral", *text),
        Tok::RegexLiteral(text) => ("RegexLiteral", *text),
        Tok::EqualsGreaterThanCode(text) => ("EqualsGreaterThanCode", *text),
        Tok::EqualsGreaterThanQuestionCode(text) => ("EqualsGreaterThanQuestionCode", *text),
        Tok::ShebangAttribute(text) => ("ShebangAttribute", *text),
        plain => (plain_kind(plain), ""),
    }
}

/// The kind of a token without a text.
fn plain_kind(token: &Tok<'_>) -> &'static str {
    match token {
        Tok::Enum => "Enum",
        Tok::Extern => "Extern",
        Tok::Grammar => "Grammar",
        Tok::Match => "Match",
        Tok::Else => "Else",
        Tok::If => "If",
        Tok::Mut => "Mut",
        Tok::Pub => "Pub",
        Tok::In => "In",
        Tok::TypeWord => "TypeWord",
        Tok::Where => "Where",
        Tok::For => "For",
        Tok::Dyn => "Dyn",
        Tok::Ampersand => "Ampersand",
        Tok::BangEquals => "BangEquals",
        Tok::BangTilde => "BangTilde",
        Tok::Colon => "Colon",
        Tok::ColonColon => "ColonColon",
        Tok::Comma => "Comma",
        Tok::DotDot => "DotDot",
        Tok::Equals => "Equals",
        Tok::EqualsEquals => "EqualsEquals",
        Tok::EqualsGreaterThanLookahead => "EqualsGreaterThanLookahead",
        Tok::EqualsGreaterThanLookbehind => "EqualsGreaterThanLookbehind",
        Tok::Hash => "Hash",
        Tok::GreaterThan => "GreaterThan",
        Tok::LeftBrace => "LeftBrace",
        Tok::LeftBracket => "LeftBracket",
        Tok::LeftParen => "LeftParen",
        Tok::LessThan => "LessThan",
        Tok::Lookahead => "Lookahead",
        Tok::Lookbehind => "Lookbehind",
        Tok::MinusGreaterThan => "MinusGreaterThan",
        Tok::Plus => "Plus",
        Tok::Question => "Question",
        Tok::RightBrace => "RightBrace",
        Tok::RightBracket => "RightBracket",
        Tok::RightParen => "RightParen",
        Tok::Semi => "Semi",
        Tok::Star => "Star",
        Tok::TildeTilde => "TildeTilde",
        Tok::Underscore => "Underscore",
        Tok::Bang => "Bang",
        _ => "another",
    }
}
