//! Why a text isn't read.

ghost use Rattle.std.specs.Prelude.{◌≡◌};
ghost use Rattle.lp_types.specs.ErrorPlace.{error_place};

use lp_tok::{Error, Tok};
use std::alloc::{AllocError, AllocFailed};

/// A part of a text: the places of its first byte and after its last one.
#[derive(Clone, Copy)]
pub struct Span(pub usize, pub usize);

/// How reading a grammar fails: over places, tokens and the tokenizer's errors.
pub type ParseError<'input> = lp_repr::values::ParseError<usize, Tok<'input>, Error>;

/// Why a text isn't read.
#[derive(Drop)]
pub enum PlainError<'input> {
    Parse(ParseError<'input>),
    Memory,
}

impl From<AllocError> for PlainError<'_> {
    ghost use Rattle.std.specs.Prelude.{◌≡◌};
    ghost use Rattle.lp_types.specs.declared.error.PlainError.TheVariants.{Memory};

    ghost from_gives = { λ _ e. e ≡ Memory };

    fn from(_e: AllocError) -> Self {
        PlainError::Memory
    }
}

impl<T: Drop> From<AllocFailed<T>> for PlainError<'_> {
    ghost use Rattle.std.specs.Prelude.{◌≡◌};
    ghost use Rattle.lp_types.specs.declared.error.PlainError.TheVariants.{Memory};

    ghost from_gives = { λ _ e. e ≡ Memory };

    fn from(_e: AllocFailed<T>) -> Self {
        PlainError::Memory
    }
}

/// Where an error of reading is.
pub fn place_of(error: &ParseError<'_>) -> usize
    ensures { result ≡ error_place error.now }
{
    match error {
        ParseError::InvalidToken { location } => *location,
        ParseError::UnrecognizedEof { location, .. } => *location,
        ParseError::UnrecognizedToken { token, .. } => token.0,
        ParseError::ExtraToken { token } => token.0,
        ParseError::User { error } => error.location,
    }
}
