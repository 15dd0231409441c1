//! What stands at the front of a grammar file: symbols, texts in quotes, attributes and comments.
#![tactic(auto, using(crate::proofs::Lefts::follows_follows, crate::proofs::Lefts::follows_itself))]

ghost use Rattle.std.specs.Prelude.{◌≡◌, ◌≤◌, [], ◌∷◌, ◌++◌, option_map, IfSome};
ghost use Rattle.lp_tok.specs.Left.{left, size, Follows, EndsIn};
ghost use Rattle.lp_tok.specs.Signs.{apostrophe};
ghost use Rattle.std.specs.Str.{chars};
ghost use Rattle.lp_tok.specs.Scans.{past};
ghost use Rattle.lp_tok.specs.Token.{IsSymbol, token_of, Text};
ghost use Rattle.lp_tok.specs.Words.{symbol, bracket};
ghost use Rattle.lp_tok.specs.Pieces.{text_between, pair_piece, bang_piece, colon_piece, at_piece, arrow_at_piece, arrow_piece, equals_piece, quoted_piece, lifetime_or_word, lifetime_piece, attribute_end, hash_piece, comment_piece, slash_piece};
ghost use Rattle.lp_tok.specs.Found.{piece_of, EndsAfter};

use crate::rest::{Rest, first_char, past, past_any, place_in};
use crate::scan::{
    after_attribute, after_comment, after_line_comment, after_word, from_unescaped, starts_word,
};
use crate::tok::{ErrorCode, Tok};

/// The tokens that have a text.
#[derive(Clone, Copy, Drop)]
pub(crate) enum Texted {
    Use,
    Escape,
    Id,
    MacroId,
    Lifetime,
    StringLiteral,
    CharLiteral,
    RegexLiteral,
    EqualsGreaterThanCode,
    EqualsGreaterThanQuestionCode,
    ShebangAttribute,
}

/// What comes first, and what is left after it.
#[derive(Drop)]
pub(crate) enum Piece<'a> {
    /// A blank or a comment.
    Gap(Rest<'a>),
    Whole(Tok<'static>, Rest<'a>),
    /// A token with the text between two places, and what is left after the token.
    Text(Texted, Rest<'a>, Rest<'a>, Rest<'a>),
    /// An attribute: what is left at its end, and what is read next.
    Attribute(Rest<'a>, Rest<'a>),
    /// A token that ends with its cut, which begins here.
    Cut(Texted, Rest<'a>),
    /// An error, and what is left at its place.
    Fault(ErrorCode, Rest<'a>),
    Nothing,
}

/// The token of a kind, with its text.
pub(crate) fn with_text<'a>(kind: Texted, text: &'a str) -> Tok<'a>
    ensures { token_of result ≡ Text kind text.now }
{
    match kind {
        Texted::Use => Tok::Use(text),
        Texted::Escape => Tok::Escape(text),
        Texted::Id => Tok::Id(text),
        Texted::MacroId => Tok::MacroId(text),
        Texted::Lifetime => Tok::Lifetime(text),
        Texted::StringLiteral => Tok::StringLiteral(text),
        Texted::CharLiteral => Tok::CharLiteral(text),
        Texted::RegexLiteral => Tok::RegexLiteral(text),
        Texted::EqualsGreaterThanCode => Tok::EqualsGreaterThanCode(text),
        Texted::EqualsGreaterThanQuestionCode => Tok::EqualsGreaterThanQuestionCode(text),
        Texted::ShebangAttribute => Tok::ShebangAttribute(text),
    }
}

/// The text of `from` that comes before what is left in `to`.
pub(crate) fn before<'a>(from: Rest<'a>, to: Rest<'a>) -> &'a str
    requires follows { Follows from to }
    requires alone { from.behind.now ≡ [] }
    ensures text { result.now ≡ text_between (left from.entry) (left to.entry) }
    ensures bytes { from.entry.text.now ≡ result.now ++ to.entry.text.now }
{
    front(from.text, to.text)
}

/// A text without an end of it.
fn front<'a>(text: &'a str, rest: &str) -> &'a str
    requires { EndsIn text.now rest.now }
    ensures text { result.now ≡ text_between (chars text.now) (chars rest.now) }
    ensures bytes { text.now ≡ result.now ++ rest.now }
{
    let (front, _) = text.split_at(place_in(text, rest));
    front
}

/// The token that a character is, whatever follows it.
#[tactic(auto, unfolding(crate::specs::Words::symbol))]
pub(crate) fn symbol(c: char) -> Option<Tok<'static>>
    ensures value { option_map token_of result ≡ symbol c }
    ensures symbol { IfSome result (λ t. IsSymbol (token_of t)) }
{
    match c {
        '&' => Some(Tok::Ampersand),
        ',' => Some(Tok::Comma),
        '>' => Some(Tok::GreaterThan),
        '<' => Some(Tok::LessThan),
        '+' => Some(Tok::Plus),
        '?' => Some(Tok::Question),
        ';' => Some(Tok::Semi),
        '*' => Some(Tok::Star),
        _ => bracket(c),
    }
}

#[tactic(auto, unfolding(crate::specs::Words::bracket))]
fn bracket(c: char) -> Option<Tok<'static>>
    ensures value { option_map token_of result ≡ bracket c }
    ensures symbol { IfSome result (λ t. IsSymbol (token_of t)) }
{
    match c {
        '{' => Some(Tok::LeftBrace),
        '[' => Some(Tok::LeftBracket),
        '(' => Some(Tok::LeftParen),
        '}' => Some(Tok::RightBrace),
        ']' => Some(Tok::RightBracket),
        ')' => Some(Tok::RightParen),
        _ => None,
    }
}

/// A symbol of two characters, whose first one stands for nothing alone.
pub(crate) fn pair_piece<'a>(
    start: Rest<'a>,
    next: Rest<'a>,
    second: char,
    token: Tok<'static>,
) -> Piece<'a>
    requires { IsSymbol (token_of token) }
    ensures value { piece_of result
        ≡ pair_piece (left start.entry) (token_of token.entry) (past second (left next.entry)) }
    ensures ends { EndsAfter start.entry next.entry result }
{
    match past(next, second) {
        Some(after) => Piece::Whole(token, after),
        None => Piece::Fault(ErrorCode::UnrecognizedToken, start),
    }
}

/// `!=`, `!~` or `!`.
pub(crate) fn bang_piece<'a>(next: Rest<'a>) -> Piece<'a>
    ensures value { piece_of result ≡ bang_piece (left next.entry) }
    ensures ends { EndsAfter next.entry next.entry result }
{
    match first_char(next) {
        Some((c, after)) => {
            if c == '=' {
                Piece::Whole(Tok::BangEquals, after)
            } else if c == '~' {
                Piece::Whole(Tok::BangTilde, after)
            } else {
                Piece::Whole(Tok::Bang, next)
            }
        }
        None => Piece::Whole(Tok::Bang, next),
    }
}

/// `::` or `:`.
pub(crate) fn colon_piece<'a>(next: Rest<'a>) -> Piece<'a>
    ensures value { piece_of result ≡ colon_piece (left next.entry) }
    ensures ends { EndsAfter next.entry next.entry result }
{
    match first_char(next) {
        Some((c, after)) => {
            if c == ':' {
                Piece::Whole(Tok::ColonColon, after)
            } else {
                Piece::Whole(Tok::Colon, next)
            }
        }
        None => Piece::Whole(Tok::Colon, next),
    }
}

/// `@L` or `@R`.
pub(crate) fn at_piece<'a>(start: Rest<'a>, next: Rest<'a>) -> Piece<'a>
    ensures value { piece_of result ≡ at_piece (left start.entry) (left next.entry) }
    ensures ends { EndsAfter start.entry next.entry result }
{
    match first_char(next) {
        Some((c, after)) => {
            if c == 'L' {
                Piece::Whole(Tok::Lookahead, after)
            } else if c == 'R' {
                Piece::Whole(Tok::Lookbehind, after)
            } else {
                Piece::Fault(ErrorCode::UnrecognizedToken, start)
            }
        }
        None => Piece::Fault(ErrorCode::UnrecognizedToken, start),
    }
}

/// `==`, `=`, or `=>` and what follows it.
pub(crate) fn equals_piece<'a>(start: Rest<'a>, next: Rest<'a>) -> Piece<'a>
    ensures value { piece_of result ≡ equals_piece (left start.entry) (left next.entry) }
    ensures ends { EndsAfter start.entry next.entry result }
{
    match first_char(next) {
        Some((c, after)) => {
            if c == '=' {
                Piece::Whole(Tok::EqualsEquals, after)
            } else if c == '>' {
                arrow_piece(start, after)
            } else {
                Piece::Whole(Tok::Equals, next)
            }
        }
        None => Piece::Whole(Tok::Equals, next),
    }
}

/// `=>@L`, `=>@R`, or a cut after `=>` or `=>?`.
fn arrow_piece<'a>(start: Rest<'a>, next: Rest<'a>) -> Piece<'a>
    ensures value { piece_of result ≡ arrow_piece (left start.entry) (left next.entry) }
    ensures ends { EndsAfter start.entry next.entry result }
{
    match first_char(next) {
        Some((c, after)) => {
            if c == '@' {
                arrow_at_piece(start, after)
            } else if c == '?' {
                Piece::Cut(Texted::EqualsGreaterThanQuestionCode, after)
            } else {
                Piece::Cut(Texted::EqualsGreaterThanCode, next)
            }
        }
        None => Piece::Fault(ErrorCode::UnterminatedCode, start),
    }
}

/// What follows `=>@`.
fn arrow_at_piece<'a>(start: Rest<'a>, next: Rest<'a>) -> Piece<'a>
    ensures value { piece_of result ≡ arrow_at_piece (left start.entry) (left next.entry) }
    ensures ends { EndsAfter start.entry next.entry result }
{
    match first_char(next) {
        Some((c, after)) => {
            if c == 'L' {
                Piece::Whole(Tok::EqualsGreaterThanLookahead, after)
            } else if c == 'R' {
                Piece::Whole(Tok::EqualsGreaterThanLookbehind, after)
            } else {
                Piece::Fault(ErrorCode::UnrecognizedToken, start)
            }
        }
        None => Piece::Fault(ErrorCode::UnrecognizedToken, start),
    }
}

/// An attribute, which swallows the character after it, or a single `#`.
pub(crate) fn hash_piece<'a>(start: Rest<'a>, next: Rest<'a>) -> Piece<'a>
    requires { Follows start next }
    ensures value { piece_of result
        ≡ hash_piece (left next.entry) (attribute_end (left next.entry)) }
    ensures ends { EndsAfter start.entry next.entry result }
{
    match attribute_end(next) {
        Some(end) => Piece::Attribute(end, past_any(end)),
        None => Piece::Whole(Tok::Hash, next),
    }
}

/// What is left after an attribute, whose `#` was read.
fn attribute_end<'a>(next: Rest<'a>) -> Option<Rest<'a>>
    ensures value { option_map left result ≡ attribute_end (left next.entry) }
    ensures follows { IfSome result (λ r. Follows next.entry r) }
    ensures shorter { IfSome result (λ r. size r ≤ size next.entry) }
{
    match past(next, '!') {
        Some(after) => match past(after, '[') {
            Some(inside) => after_attribute(inside),
            None => None,
        },
        None => None,
    }
}

/// A text up to its closing quote, with which `end` begins.
pub(crate) fn quoted_piece<'a>(
    kind: Texted,
    code: ErrorCode,
    start: Rest<'a>,
    inside: Rest<'a>,
    end: Rest<'a>,
) -> Piece<'a>
    requires begun { Follows start inside }
    requires follows { Follows inside end }
    requires shorter { size end ≤ size inside }
    ensures value { piece_of result
        ≡ quoted_piece kind code (left start.entry) (left inside.entry) (left end.entry) }
    ensures ends { EndsAfter start.entry inside.entry result }
{
    match first_char(end) {
        Some((_, after)) => Piece::Text(kind, inside, end, after),
        None => Piece::Fault(code, start),
    }
}

/// A lifetime or a character literal, whose `'` is at `start`.
pub(crate) fn lifetime_piece<'a>(start: Rest<'a>, inside: Rest<'a>) -> Piece<'a>
    requires { Follows start inside }
    ensures value { piece_of result ≡ lifetime_piece (left start.entry) (left inside.entry) }
    ensures ends { EndsAfter start.entry inside.entry result }
{
    match first_char(inside) {
        Some((c, next)) => {
            if starts_word(c) {
                lifetime_or_word(start, inside, after_word(next))
            } else {
                quoted_piece(
                    Texted::CharLiteral,
                    ErrorCode::UnterminatedCharacterLiteral,
                    start,
                    inside,
                    from_unescaped(inside, '\''),
                )
            }
        }
        None => Piece::Fault(ErrorCode::UnterminatedCharacterLiteral, start),
    }
}

/// A word after `'`: a character literal where a further `'` follows it, else a lifetime.
fn lifetime_or_word<'a>(start: Rest<'a>, inside: Rest<'a>, end: Rest<'a>) -> Piece<'a>
    requires begun { Follows start inside }
    requires follows { Follows inside end }
    requires shorter { size end ≤ size inside }
    ensures value { piece_of result
        ≡ lifetime_or_word (left start.entry) (left inside.entry) (left end.entry)
        (past apostrophe (left end.entry)) }
    ensures ends { EndsAfter start.entry inside.entry result }
{
    match past(end, '\'') {
        Some(after) => Piece::Text(Texted::CharLiteral, inside, end, after),
        None => Piece::Text(Texted::Lifetime, start, end, end),
    }
}

/// A comment, whose `/` is at `start`.
pub(crate) fn slash_piece<'a>(start: Rest<'a>, next: Rest<'a>) -> Piece<'a>
    ensures value { piece_of result ≡ slash_piece (left start.entry) (left next.entry) }
    ensures ends { EndsAfter start.entry next.entry result }
{
    match first_char(next) {
        Some((c, inside)) => {
            if c == '/' {
                Piece::Gap(after_line_comment(inside))
            } else if c == '*' {
                match after_comment(inside) {
                    Some(after) => Piece::Gap(after),
                    None => Piece::Fault(ErrorCode::UnterminatedBlockComment, start),
                }
            } else {
                Piece::Fault(ErrorCode::UnrecognizedToken, start)
            }
        }
        None => Piece::Fault(ErrorCode::UnrecognizedToken, start),
    }
}
