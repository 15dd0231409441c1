//! Words, keywords and regex literals, and the first piece of a grammar file.
#![tactic(auto, using(crate::proofs::Lefts::follows_follows, crate::proofs::Lefts::follows_itself, crate::proofs::Lefts::alone_follows))]

ghost use Rattle.std.specs.Prelude.{◌≡◌, ◌<◌, ◌≤◌, [], ◌∷◌, option_map, IfSome};
ghost use Rattle.lp_tok.specs.Left.{left, size, Follows};
ghost use Rattle.lp_tok.specs.Scans.{after_word};
ghost use Rattle.lp_tok.specs.Token.{IsSymbol, token_of};
ghost use Rattle.lp_tok.specs.Words.{keyword};
ghost use Rattle.lp_tok.specs.Pieces.{text_between};
ghost use Rattle.lp_tok.specs.WordPieces.{word_kind, plain_word, word_piece, regex_piece, r_piece, word_or_blank, opened_piece, longer_piece, first_piece};
ghost use Rattle.lp_tok.specs.Found.{piece_of, EndsAfter, TakesSome};

use crate::piece::{
    Piece, Texted, at_piece, bang_piece, before, colon_piece, equals_piece, hash_piece,
    lifetime_piece, pair_piece, quoted_piece, slash_piece, symbol,
};
use crate::rest::{Rest, first_char, past};
use crate::scan::{after_word, count_hashes, from_char, from_unescaped, raw_end, starts_word};
use crate::tok::{ErrorCode, Tok};

/// The piece that comes first.
#[tactic(auto, using(crate::proofs::Lefts::follows_follows, crate::proofs::Lefts::follows_itself, crate::proofs::Lefts::alone_follows), unfolding(crate::specs::WordPieces::first_piece))]
pub(crate) fn first_piece<'a>(start: Rest<'a>) -> Piece<'a>
    requires { start.behind.now ≡ [] }
    ensures value { piece_of result ≡ first_piece (left start.entry) }
    ensures takes { TakesSome start.entry result }
{
    match first_char(start) {
        Some((c, next)) => match symbol(c) {
            Some(token) => Piece::Whole(token, next),
            None => longer_piece(start, c, next),
        },
        None => Piece::Nothing,
    }
}

/// A piece that may be longer than its first character.
#[tactic(auto, using(crate::proofs::Lefts::follows_follows, crate::proofs::Lefts::follows_itself, crate::proofs::Lefts::alone_follows), unfolding(crate::specs::WordPieces::longer_piece))]
fn longer_piece<'a>(start: Rest<'a>, c: char, next: Rest<'a>) -> Piece<'a>
    requires first { left start ≡ c ∷ left next }
    requires follows { Follows start next }
    requires alone { start.behind.now ≡ [] }
    requires shorter { size next < size start }
    ensures value { piece_of result ≡ longer_piece (left start.entry) c (left next.entry) }
    ensures takes { TakesSome start.entry result }
{
    if c == '!' {
        bang_piece(next)
    } else if c == ':' {
        colon_piece(next)
    } else if c == '=' {
        equals_piece(start, next)
    } else if c == '@' {
        at_piece(start, next)
    } else if c == '.' {
        pair_piece(start, next, '.', Tok::DotDot)
    } else if c == '~' {
        pair_piece(start, next, '~', Tok::TildeTilde)
    } else if c == '-' {
        pair_piece(start, next, '>', Tok::MinusGreaterThan)
    } else {
        opened_piece(start, c, next)
    }
}

/// A piece whose first character opens a text, an attribute or a comment, or a word.
#[tactic(auto, using(crate::proofs::Lefts::follows_follows, crate::proofs::Lefts::follows_itself, crate::proofs::Lefts::alone_follows), unfolding(crate::specs::WordPieces::opened_piece))]
fn opened_piece<'a>(start: Rest<'a>, c: char, next: Rest<'a>) -> Piece<'a>
    requires first { left start ≡ c ∷ left next }
    requires follows { Follows start next }
    requires alone { start.behind.now ≡ [] }
    requires shorter { size next < size start }
    ensures value { piece_of result ≡ opened_piece (left start.entry) c (left next.entry) }
    ensures takes { TakesSome start.entry result }
{
    if c == '`' {
        let end = from_char(next, '`');
        quoted_piece(
            Texted::Escape,
            ErrorCode::UnterminatedEscape,
            start,
            next,
            end,
        )
    } else if c == '"' {
        let end = from_unescaped(next, '"');
        quoted_piece(
            Texted::StringLiteral,
            ErrorCode::UnterminatedStringLiteral,
            start,
            next,
            end,
        )
    } else if c == '\'' {
        lifetime_piece(start, next)
    } else if c == '#' {
        hash_piece(start, next)
    } else if c == '/' {
        slash_piece(start, next)
    } else {
        word_or_blank(start, c, next)
    }
}

/// A word, a regex literal or a blank, else the character begins nothing.
#[tactic(auto, using(crate::proofs::Lefts::follows_follows, crate::proofs::Lefts::follows_itself, crate::proofs::Lefts::alone_follows), unfolding(crate::specs::WordPieces::word_or_blank))]
fn word_or_blank<'a>(start: Rest<'a>, c: char, next: Rest<'a>) -> Piece<'a>
    requires first { left start ≡ c ∷ left next }
    requires follows { Follows start next }
    requires alone { start.behind.now ≡ [] }
    requires shorter { size next < size start }
    ensures value { piece_of result ≡ word_or_blank (left start.entry) c (left next.entry) }
    ensures takes { TakesSome start.entry result }
{
    if c == 'r' {
        r_piece(start, next)
    } else if starts_word(c) {
        word_piece(start, next, after_word(next))
    } else if c.is_whitespace() {
        Piece::Gap(next)
    } else {
        Piece::Fault(ErrorCode::UnrecognizedToken, start)
    }
}

/// What follows an `r`, which may begin a regex literal.
#[tactic(auto, using(crate::proofs::Lefts::follows_follows, crate::proofs::Lefts::follows_itself, crate::proofs::Lefts::alone_follows), unfolding(crate::specs::WordPieces::r_piece))]
fn r_piece<'a>(start: Rest<'a>, next: Rest<'a>) -> Piece<'a>
    requires follows { Follows start next }
    requires alone { start.behind.now ≡ [] }
    ensures value { piece_of result ≡ r_piece (left start.entry) (left next.entry) }
    ensures ends { EndsAfter start.entry next.entry result }
{
    match first_char(next) {
        Some((c, _)) => {
            if c == '"' || c == '#' {
                let (hashes, at) = count_hashes(next);
                regex_piece(start, next, hashes, at)
            } else {
                word_piece(start, next, after_word(next))
            }
        }
        None => word_piece(start, next, next),
    }
}

/// What follows `r` and hashes: a regex literal or a word.
#[tactic(auto, using(crate::proofs::Lefts::follows_follows, crate::proofs::Lefts::follows_itself, crate::proofs::Lefts::alone_follows), unfolding(crate::specs::WordPieces::regex_piece))]
fn regex_piece<'a>(start: Rest<'a>, next: Rest<'a>, hashes: usize, at: Rest<'a>) -> Piece<'a>
    requires begun { Follows start next }
    requires follows { Follows next at }
    requires shorter { size at ≤ size next }
    requires alone { start.behind.now ≡ [] }
    ensures value { piece_of result ≡ regex_piece (left start.entry) hashes (left at.entry) }
    ensures ends { EndsAfter start.entry next.entry result }
{
    match first_char(at) {
        Some((c, inside)) => {
            if c == '"' {
                match raw_end(inside, hashes) {
                    Some(end) => Piece::Text(Texted::RegexLiteral, inside, end.quote, end.after),
                    None => Piece::Fault(ErrorCode::UnterminatedStringLiteral, start),
                }
            } else if starts_word(c) {
                plain_word(start, next, after_word(inside))
            } else {
                Piece::Fault(ErrorCode::ExpectedStringLiteral, at)
            }
        }
        None => Piece::Fault(ErrorCode::UnterminatedStringLiteral, start),
    }
}

/// The word from `start` to `end`.
#[tactic(auto, using(crate::proofs::Lefts::follows_follows, crate::proofs::Lefts::follows_itself, crate::proofs::Lefts::alone_follows), unfolding(crate::specs::WordPieces::word_piece))]
fn word_piece<'a>(start: Rest<'a>, next: Rest<'a>, end: Rest<'a>) -> Piece<'a>
    requires begun { Follows start next }
    requires follows { Follows next end }
    requires shorter { size end ≤ size next }
    requires alone { start.behind.now ≡ [] }
    ensures value { piece_of result
        ≡ word_piece (text_between (left start.entry) (left end.entry)) (left end.entry) }
    ensures ends { EndsAfter start.entry next.entry result }
{
    let word = before(start, end);
    if word == "use" {
        Piece::Cut(Texted::Use, end)
    } else {
        match keyword(word) {
            Some(token) => Piece::Whole(token, end),
            None => plain_word(start, next, end),
        }
    }
}

/// The word from `start` to `end`, which is no keyword.
#[tactic(auto, using(crate::proofs::Lefts::follows_follows, crate::proofs::Lefts::follows_itself, crate::proofs::Lefts::alone_follows), unfolding(crate::specs::WordPieces::plain_word))]
fn plain_word<'a>(start: Rest<'a>, next: Rest<'a>, end: Rest<'a>) -> Piece<'a>
    requires begun { Follows start next }
    requires follows { Follows next end }
    requires shorter { size end ≤ size next }
    requires alone { start.behind.now ≡ [] }
    ensures value { piece_of result
        ≡ plain_word (text_between (left start.entry) (left end.entry)) (left end.entry) }
    ensures ends { EndsAfter start.entry next.entry result }
{
    let word = before(start, end);
    if word == "_" || word == "r#_" {
        Piece::Whole(Tok::Underscore, end)
    } else {
        Piece::Text(word_kind(end), start, end, end)
    }
}

/// A word that `<` follows at once is a macro's name.
fn word_kind(end: Rest<'_>) -> Texted
    ensures { result ≡ word_kind (left end.entry) }
{
    match past(end, '<') {
        Some(_) => Texted::MacroId,
        None => Texted::Id,
    }
}

/// The token of a keyword.
#[tactic(auto, unfolding(crate::specs::Words::keyword))]
fn keyword(word: &str) -> Option<Tok<'static>>
    ensures value { option_map token_of result ≡ keyword word.now }
    ensures symbol { IfSome result (λ t. IsSymbol (token_of t)) }
{
    match word {
        "enum" => Some(Tok::Enum),
        "extern" => Some(Tok::Extern),
        "grammar" => Some(Tok::Grammar),
        "match" => Some(Tok::Match),
        "else" => Some(Tok::Else),
        "if" => Some(Tok::If),
        "mut" => Some(Tok::Mut),
        "pub" => Some(Tok::Pub),
        "in" => Some(Tok::In),
        "type" => Some(Tok::TypeWord),
        "where" => Some(Tok::Where),
        "for" => Some(Tok::For),
        "dyn" => Some(Tok::Dyn),
        _ => None,
    }
}
