//! The cut: where user code ends that no bracket holds.
#![tactic(auto, using(crate::proofs::Lefts::follows_follows, crate::proofs::Lefts::follows_itself))]

ghost use Rattle.std.specs.Prelude.{◌≡◌, ◌+◌, ◌^◌, ◌<◌, ◌++◌, [], ◌∷◌, ◌↔◌, IsTrue, MatchResult};
ghost use Rattle.std.specs.Str.{IsCharBoundary, chars};
ghost use Rattle.lp_tok.specs.Left.{left};
ghost use Rattle.lp_tok.specs.Signs.{line_feed, semicolon, right_brace};
ghost use Rattle.lp_tok.specs.Cut.{StopsAt, IsEnder, open_after, EndsCut, FailsCut};
ghost use Rattle.lp_tok.specs.CutAnswers.{IsCut};

use crate::quoted::{CodePiece, Kind, code_piece};
use crate::rest::{Rest, is_done, past, place_in, whole};
use crate::tok::{Error, ErrorCode};

/// Where a cut stops, or what is wrong in it and where.
#[derive(Drop)]
pub(crate) enum CutEnd<'a> {
    Stops(Rest<'a>),
    Broken(ErrorCode, Rest<'a>),
    /// The text ends inside a bracket.
    Unclosed,
}

/// Whether a cut may end at a piece of this kind.
fn may_end(kind: Kind) -> bool
    ensures { IsTrue result ↔ IsEnder kind }
{
    match kind {
        Kind::Opening => false,
        Kind::Closing => true,
        Kind::Separating => true,
        Kind::Plain => false,
    }
}

/// Whether a piece ends the cut, where so many brackets are open.
fn ends_cut(depth: usize, kind: Kind) -> bool
    ensures { IsTrue result ↔ ((depth ≡ 0) × IsEnder kind) }
{
    depth == 0 && may_end(kind)
}

/// How many brackets are open after a piece.
fn open_after(depth: usize, kind: Kind) -> usize
    requires { depth + 1 < 2 ^ 64 }
    ensures { result ≡ open_after depth kind }
{
    match kind {
        Kind::Opening => depth + 1,
        Kind::Closing => depth.saturating_sub(1),
        Kind::Separating => depth,
        Kind::Plain => depth,
    }
}

/// The cut of what is left.
pub(crate) fn cut<'a>(from: Rest<'a>) -> CutEnd<'a>
    ensures { IsCut from.entry result }
{
    let mut rest = from;
    let mut depth: usize = 0;
    loop {
        match code_piece(rest) {
            CodePiece::Whole(kind, next) => {
                if ends_cut(depth, kind) {
                    return CutEnd::Stops(rest);
                }
                depth = open_after(depth, kind);
                rest = next;
            }
            CodePiece::Fault(code, place) => return CutEnd::Broken(code, place),
            CodePiece::Nothing => {
                return if depth == 0 {
                    CutEnd::Stops(rest)
                } else {
                    CutEnd::Unclosed
                };
            }
        }
    }
}

/// Where the cut from the byte `from` stops, in bytes from the front of the text: at the first
/// `,`, `;` or closing bracket that no bracket holds, else at the end. Brackets in strings, quoted
/// characters and comments don't count, and one balance serves all three kinds.
///
/// Errors: a string, a quoted character or a comment without an end, at its start; brackets that
/// are not closed, as UnterminatedCode at `from`.
pub fn code_end(text: &str, from: usize) -> Result<usize, Error>
    requires { IsCharBoundary text.now from }
    ensures { MatchResult result (EndsCut text.now from) (FailsCut text.now from) }
{
    let (_, code) = text.split_at(from);
    match cut(whole(code)) {
        CutEnd::Stops(rest) => Ok(place_in(text, rest.text)),
        CutEnd::Broken(code, at) => Err(Error {
            location: place_in(text, at.text),
            code,
        }),
        CutEnd::Unclosed => Err(Error {
            location: from,
            code: ErrorCode::UnterminatedCode,
        }),
    }
}

/// Whether the cut of the text followed by a line feed and `}` stops at that `}`.
pub fn closed_code(text: &str) -> bool
    ensures { IsTrue result
        ↔ StopsAt (chars text.now ++ line_feed ∷ right_brace ∷ []) (right_brace ∷ []) }
{
    stops_at_last(
        Rest {
            text,
            behind: "\n}",
        },
        '}',
    )
}

/// Whether the cut of the text followed by `;` stops at that `;`.
pub fn closed_use(text: &str) -> bool
    ensures { IsTrue result ↔ StopsAt (chars text.now ++ semicolon ∷ []) (semicolon ∷ []) }
{
    stops_at_last(Rest { text, behind: ";" }, ';')
}

/// Whether the cut stops where the given character alone is left.
fn stops_at_last(rest: Rest<'_>, last: char) -> bool
    ensures { IsTrue result ↔ StopsAt (left rest.entry) (last ∷ []) }
{
    match cut(rest) {
        CutEnd::Stops(at) => match past(at, last) {
            Some(after) => is_done(after),
            None => false,
        },
        CutEnd::Broken(_, _) => false,
        CutEnd::Unclosed => false,
    }
}
