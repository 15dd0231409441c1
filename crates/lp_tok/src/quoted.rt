//! The pieces of user code: those that may hold brackets without counting them, and brackets.
#![tactic(auto, using(crate::proofs::Lefts::follows_follows, crate::proofs::Lefts::follows_itself))]

ghost use Rattle.std.specs.Prelude.{◌≡◌, ◌<◌, ◌≤◌};
ghost use Rattle.lp_tok.specs.Left.{left, size, Follows};
ghost use Rattle.lp_tok.specs.CodePieces.{kind_of, past_maybe, after_quoted, ended, quoted_piece, hashed_piece, raw_piece, slash_piece, code_piece};
ghost use Rattle.lp_tok.specs.CutAnswers.{piece_of, EndsAfter, TakesSome};
ghost use Rattle.lp_tok.specs.Scans.{past, from_unescaped};
ghost use Rattle.lp_tok.specs.Signs.{quote};
ghost use Rattle.lp_tok.specs.declared.tok.ErrorCode.TheVariants.{UnterminatedStringLiteral};

use crate::rest::{Rest, first_char, past, past_any};
use crate::scan::{
    after_comment, after_line_comment, after_word, count_hashes, from_char, from_unescaped,
    raw_end, starts_word,
};
use crate::tok::ErrorCode;

/// What a piece does to the count of open brackets.
#[derive(Clone, Copy, Drop)]
pub(crate) enum Kind {
    Opening,
    Closing,
    /// `,` or `;`.
    Separating,
    Plain,
}

/// What comes first in user code.
#[derive(Drop)]
pub(crate) enum CodePiece<'a> {
    /// A piece, and what is left after it.
    Whole(Kind, Rest<'a>),
    /// A piece without an end, and what is left at the error's place.
    Fault(ErrorCode, Rest<'a>),
    Nothing,
}

/// The piece that comes first.
pub(crate) fn code_piece<'a>(rest: Rest<'a>) -> CodePiece<'a>
    ensures value { piece_of result ≡ code_piece (left rest.entry) }
    ensures takes { TakesSome rest.entry result }
{
    match first_char(rest) {
        Some((c, next)) => {
            if c == '"' {
                string_piece(rest, next)
            } else if c == '\'' {
                quoted_piece(rest, next)
            } else if c == 'r' {
                raw_piece(next)
            } else if c == '/' {
                slash_piece(rest, next)
            } else {
                CodePiece::Whole(kind_of(c), next)
            }
        }
        None => CodePiece::Nothing,
    }
}

/// What a single character does to the count of open brackets.
fn kind_of(c: char) -> Kind
    ensures { result ≡ kind_of c }
{
    if c == '(' || c == '[' || c == '{' {
        Kind::Opening
    } else if c == ')' || c == ']' || c == '}' {
        Kind::Closing
    } else if c == ',' || c == ';' {
        Kind::Separating
    } else {
        Kind::Plain
    }
}

/// A string, whose opening quote is at `start`.
fn string_piece<'a>(start: Rest<'a>, inside: Rest<'a>) -> CodePiece<'a>
    ensures value { piece_of result
        ≡ ended UnterminatedStringLiteral (left start.entry) (past quote (from_unescaped quote (left inside.entry))) }
    ensures ends { EndsAfter start.entry inside.entry result }
{
    match past(from_unescaped(inside, '"'), '"') {
        Some(after) => CodePiece::Whole(Kind::Plain, after),
        None => CodePiece::Fault(ErrorCode::UnterminatedStringLiteral, start),
    }
}

/// A quoted character or a lifetime, whose `'` is at `start`. Something must be left after it.
fn quoted_piece<'a>(start: Rest<'a>, inside: Rest<'a>) -> CodePiece<'a>
    ensures value { piece_of result ≡ quoted_piece (left start.entry) (after_quoted (left inside.entry)) }
    ensures ends { EndsAfter start.entry inside.entry result }
{
    let after = after_quoted(inside);
    match first_char(after) {
        Some(_) => CodePiece::Whole(Kind::Plain, after),
        None => CodePiece::Fault(ErrorCode::UnterminatedCharacterLiteral, start),
    }
}

/// What is left after a quoted character, whose `'` was read. A lifetime loses its first character
/// alone.
fn after_quoted<'a>(inside: Rest<'a>) -> Rest<'a>
    ensures value { left result ≡ after_quoted (left inside.entry) }
    ensures follows { Follows inside.entry result }
    ensures shorter { size result ≤ size inside.entry }
{
    match first_char(inside) {
        Some((c, next)) => {
            if c == '\\' {
                past_any(from_char(past_any(next), '\''))
            } else {
                past_maybe(next, '\'')
            }
        }
        None => inside,
    }
}

/// What is left after `wanted`, where that character comes first, else all.
fn past_maybe<'a>(rest: Rest<'a>, wanted: char) -> Rest<'a>
    ensures value { left result ≡ past_maybe wanted (left rest.entry) }
    ensures follows { Follows rest.entry result }
    ensures shorter { size result ≤ size rest.entry }
{
    match first_char(rest) {
        Some((c, after)) => { if c == wanted { after } else { rest } }
        None => rest,
    }
}

/// What follows an `r`: a raw string or a raw word where a hash comes first, else nothing more.
fn raw_piece<'a>(start: Rest<'a>) -> CodePiece<'a>
    ensures value { piece_of result ≡ raw_piece (left start.entry) }
    ensures ends { EndsAfter start.entry start.entry result }
{
    let (hashes, next) = count_hashes(start);
    if hashes == 0 {
        CodePiece::Whole(Kind::Plain, start)
    } else {
        hashed_piece(start, hashes, next)
    }
}

/// The piece after `r` and hashes. One hash fewer than were read closes a raw string.
fn hashed_piece<'a>(start: Rest<'a>, hashes: usize, next: Rest<'a>) -> CodePiece<'a>
    requires some { 0 < hashes }
    requires follows { Follows start next }
    requires shorter { size next ≤ size start }
    ensures value { piece_of result ≡ hashed_piece (left start.entry) hashes (left next.entry) }
    ensures ends { EndsAfter start.entry start.entry result }
{
    match first_char(next) {
        Some((c, inside)) => {
            if c == '"' {
                match raw_end(inside, hashes - 1) {
                    Some(end) => CodePiece::Whole(Kind::Plain, end.after),
                    None => CodePiece::Fault(ErrorCode::UnterminatedStringLiteral, start),
                }
            } else if starts_word(c) {
                CodePiece::Whole(Kind::Plain, after_word(inside))
            } else {
                CodePiece::Fault(ErrorCode::ExpectedStringLiteral, next)
            }
        }
        None => CodePiece::Fault(ErrorCode::UnterminatedStringLiteral, start),
    }
}

/// A comment, or a single `/`.
fn slash_piece<'a>(start: Rest<'a>, next: Rest<'a>) -> CodePiece<'a>
    ensures value { piece_of result ≡ slash_piece (left start.entry) (left next.entry) }
    ensures ends { EndsAfter start.entry next.entry result }
{
    match first_char(next) {
        Some((c, inside)) => {
            if c == '/' {
                CodePiece::Whole(Kind::Plain, after_line_comment(inside))
            } else if c == '*' {
                match after_comment(inside) {
                    Some(after) => CodePiece::Whole(Kind::Plain, after),
                    None => CodePiece::Fault(ErrorCode::UnterminatedBlockComment, start),
                }
            } else {
                CodePiece::Whole(Kind::Plain, next)
            }
        }
        None => CodePiece::Whole(Kind::Plain, next),
    }
}
