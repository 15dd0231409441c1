//! From bytes to a plain grammar.

ghost use Rattle.std.specs.Prelude.{IfOk, IfErr};
ghost use Rattle.lp_reading.specs.Bytes.{IsBytesFault, IsPlainOf};

use crate::top::parse_grammar;
use lp_syntax::PlainGrammar;
use lp_types::{PlainError, place_of};
use std::alloc::Global;
use std::str;

/// Why bytes spell no plain grammar.
#[derive(Clone, Copy)]
pub enum BytesFault {
    /// They spell none. The place is that of the error, or the first byte of no character.
    Grammar { place: usize },
    Memory,
}

/// The plain grammar that bytes spell.
pub fn plain_of(alloc: Global, bytes: &[u8]) -> Result<PlainGrammar, BytesFault>
    ensures spelled { IfOk result (IsPlainOf bytes.now) }
    ensures fault { IfErr result (IsBytesFault bytes.now) }
{
    match str::from_utf8(bytes) {
        Err(error) => Err(BytesFault::Grammar {
            place: error.valid_up_to(),
        }),
        Ok(text) => match parse_grammar(alloc, text) {
            Ok(plain) => Ok(plain),
            Err(PlainError::Memory) => Err(BytesFault::Memory),
            Err(PlainError::Parse(error)) => Err(BytesFault::Grammar {
                place: place_of(&error),
            }),
        },
    }
}
