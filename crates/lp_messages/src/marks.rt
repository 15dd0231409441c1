//! What hints look at: the words of tokens, and the parts of a grammar file.

use lp_tok::Tok;

/// The word of a token by which hints name it: its spelling, or its kind where its text varies.
pub fn word_of(token: &Tok<'_>) -> &'static str {
    match token {
        Tok::Enum => "enum",
        Tok::Extern => "extern",
        Tok::Grammar => "grammar",
        Tok::Match => "match",
        Tok::Else => "else",
        Tok::If => "if",
        Tok::Mut => "mut",
        Tok::Pub => "pub",
        Tok::In => "in",
        Tok::TypeWord => "type",
        Tok::Where => "where",
        Tok::For => "for",
        Tok::Dyn => "dyn",
        Tok::Use(_) => "use",
        Tok::Escape(_) => "escape",
        Tok::Id(_) => "name",
        Tok::MacroId(_) => "macro",
        Tok::Lifetime(_) => "lifetime",
        Tok::StringLiteral(_) => "string",
        Tok::CharLiteral(_) => "char",
        Tok::RegexLiteral(_) => "regex",
        Tok::EqualsGreaterThanCode(_) => "=>",
        Tok::EqualsGreaterThanQuestionCode(_) => "=>?",
        Tok::EqualsGreaterThanLookahead => "=>@L",
        Tok::EqualsGreaterThanLookbehind => "=>@R",
        Tok::ShebangAttribute(_) => "#![]",
        Tok::Colon => ":",
        Tok::Comma => ",",
        Tok::DotDot => "..",
        Tok::Equals => "=",
        Tok::EqualsEquals => "==",
        Tok::Hash => "#",
        Tok::GreaterThan => ">",
        Tok::LeftBrace => "{",
        Tok::LeftBracket => "[",
        Tok::LeftParen => "(",
        Tok::LessThan => "<",
        Tok::Lookahead => "@L",
        Tok::Lookbehind => "@R",
        Tok::MinusGreaterThan => "->",
        Tok::Plus => "+",
        Tok::Question => "?",
        Tok::RightBrace => "}",
        Tok::RightBracket => "]",
        Tok::RightParen => ")",
        Tok::Semi => ";",
        Tok::Star => "*",
        Tok::Bang => "!",
        _ => "sign",
    }
}

/// Where a part of a file ends: the part, the word of the token, the part that follows.
const MOVES: &[(&str, &str, &str)] = &[
    ("head", "grammar", "grammar"),
    ("grammar", ";", "rules"),
    ("rules", "extern", "extern"),
    ("rules", ":", "type"),
    ("type", "=", "alternatives"),
    ("alternatives", ";", "rules"),
    ("alternatives", "}", "rules"),
    ("extern", "enum", "enum"),
    ("enum", "}", "extern"),
    ("extern", "}", "rules"),
];

/// The part of a file behind a token: `head` up to `grammar`, `grammar` up to its `;`, `extern`, the
/// `enum` of its block, `rules` between rules, the `type` of one, and its `alternatives`.
pub fn part_behind(part: &'static str, word: &str) -> &'static str {
    for row in moves() {
        if row.0 == part && row.1 == word {
            return row.2;
        }
    }
    part
}

fn moves() -> &'static [(&'static str, &'static str, &'static str)] {
    MOVES
}
