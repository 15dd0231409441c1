//! The text that a string literal stands for.
#![tactic(auto, using(crate::proofs::Lefts::follows_follows, crate::proofs::Lefts::follows_itself, crate::proofs::Lefts::alone_follows))]

ghost use Rattle.std.specs.Prelude.{◌≡◌, ◌+◌, ◌^◌, ◌<◌, ◌↔◌, [], length, IfOk, IfErr, MatchResult, string_bytes};
ghost use Rattle.std.specs.Str.{chars};
ghost use Rattle.std.specs.Cow.{cow_str_bytes};
ghost use Rattle.lp_tok.specs.Left.{left, size, Follows};
ghost use Rattle.lp_tok.specs.Scans.{from_char};
ghost use Rattle.lp_tok.specs.Signs.{backslash};
ghost use Rattle.lp_tok.specs.Escapes.{escape, ascii_escape, IsValueOf, IsFaultOf, StandsForText, IsFaultOfChars, IsBorrowed};
ghost use Rattle.lp_tok.specs.EscapeSteps.{escaped_of, EscapeEnds, ascii_of};

use crate::rest::{Rest, first_char, is_done, whole};
use crate::scan::from_char;
use crate::tok::{Error, ErrorCode};
use crate::tokenizer::place;
use std::alloc::{AllocError, Global};
use std::borrow::CowStr;

/// Why a string's escapes can't be read.
#[derive(Drop)]
pub enum EscapeError {
    /// An escape that is none, and where.
    Bad(Error),
    /// No memory was left.
    Memory,
}

impl From<AllocError> for EscapeError {
    ghost use Rattle.std.specs.Prelude.{◌≡◌};
    ghost use Rattle.lp_tok.specs.declared.escapes.EscapeError.TheVariants.{Memory};

    ghost from_gives = { λ _ e. e ≡ Memory };

    fn from(_: AllocError) -> EscapeError {
        EscapeError::Memory
    }
}

/// An escape, as it is read.
#[derive(Drop)]
enum Escaped<'a> {
    /// The character that it stands for, and what is left after it.
    Stands(char, Rest<'a>),
    /// An error, and what is left at its place.
    Broken(ErrorCode, Rest<'a>),
}

/// The escape whose `\` is at `start`, from the character after that on.
fn escape<'a>(start: Rest<'a>, next: Rest<'a>) -> Escaped<'a>
    requires { Follows start next }
    ensures value { escaped_of result ≡ escape (left start.entry) (left next.entry) }
    ensures ends { EscapeEnds start.entry next.entry result }
{
    match first_char(next) {
        Some((c, after)) => {
            if c == '\\' {
                Escaped::Stands('\\', after)
            } else if c == '"' {
                Escaped::Stands('"', after)
            } else if c == 'n' {
                Escaped::Stands('\n', after)
            } else if c == 'r' {
                Escaped::Stands('\r', after)
            } else if c == 't' {
                Escaped::Stands('\t', after)
            } else if c == '0' {
                Escaped::Stands('\0', after)
            } else if c == 'x' {
                ascii_escape(next, after)
            } else {
                Escaped::Broken(ErrorCode::UnrecognizedEscape, next)
            }
        }
        None => Escaped::Broken(ErrorCode::UnrecognizedEscape, start),
    }
}

/// The two digits after a `\x`, whose `x` is at `start`.
fn ascii_escape<'a>(start: Rest<'a>, next: Rest<'a>) -> Escaped<'a>
    requires follows { Follows start next }
    requires shorter { size next < size start }
    ensures value { escaped_of result ≡ ascii_escape (left start.entry) (left next.entry) }
    ensures ends { EscapeEnds start.entry start.entry result }
{
    match first_char(next) {
        Some((high, second)) => match first_char(second) {
            Some((low, after)) => match ascii(high, low) {
                Some(c) => Escaped::Stands(c, after),
                None => Escaped::Broken(ErrorCode::UnrecognizedEscape, start),
            },
            None => Escaped::Broken(ErrorCode::UnterminatedAsciiEscape, next),
        },
        None => Escaped::Broken(ErrorCode::UnterminatedAsciiEscape, start),
    }
}

/// The character of an octal and a hexadecimal digit.
fn ascii(high: char, low: char) -> Option<char>
    ensures { result ≡ ascii_of high low }
{
    match high.to_digit(8) {
        Some(octal) => match low.to_digit(16) {
            Some(hex) => char::from_u32(octal * 16 + hex),
            None => None,
        },
        None => None,
    }
}

/// The text that `code` stands for, the inside of a string literal that begins at the byte `idx0`.
/// It is borrowed where no `\` is there. The escapes are `\\`, `\"`, `\n`, `\r`, `\t`, `\0`, and
/// `\x` with an octal and a hexadecimal digit.
///
/// Bad holds the first escape that is none: UnrecognizedEscape at the character after the `\`, or
/// at a last `\`; UnterminatedAsciiEscape at the last character of a `\x` that breaks off.
pub fn apply_string_escapes<'c>(
    alloc: Global,
    code: &'c str,
    idx0: usize,
) -> Result<CowStr<'c>, EscapeError>
    requires { length code.now + idx0 < 2 ^ 64 }
    ensures value { IfOk result (λ t. IsValueOf code.now (cow_str_bytes t)) }
    ensures borrows { IfOk result (λ t. IsBorrowed t ↔ (from_char backslash (chars code.now) ≡ [])) }
    ensures faults { IfErr result (IsFaultOf code.now idx0) }
{
    let rest = whole(code);
    if is_done(from_char(rest, '\\')) {
        return Ok(CowStr::Borrowed(code));
    }
    let text = unescaped(alloc, rest, code.len() + idx0)?;
    Ok(CowStr::Owned(text))
}

/// The text that is left, with each escape replaced. Places are counted back from `end`.
fn unescaped(alloc: Global, from: Rest<'_>, end: usize) -> Result<String, EscapeError>
    requires { from.behind.now ≡ [] }
    ensures value { IfOk result (λ t. StandsForText (left from.entry) (string_bytes t)) }
    ensures faults { IfErr result (IsFaultOfChars (left from.entry) end) }
{
    let mut text = String::new(alloc);
    let mut rest = from;
    while let Some((c, next)) = first_char(rest) {
        if c == '\\' {
            match escape(rest, next) {
                Escaped::Stands(plain, after) => {
                    text.push(plain)?;
                    rest = after;
                }
                Escaped::Broken(code, at) => {
                    return Err(EscapeError::Bad(Error {
                        location: place(end, at.text),
                        code,
                    }));
                }
            }
        } else {
            text.push(c)?;
            rest = next;
        }
    }
    Ok(text)
}
