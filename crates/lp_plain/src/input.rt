//! Reading the whole input.

ghost use Rattle.std.specs.Prelude.{◌≡◌, ◌<◌, ◌≤◌, List, ℕ, length, IfOk, Some, Err};
ghost use Rattle.lp_write.specs.Sinks.{Rose};

use lp_write::{Failed, Source};
use std::alloc::{AllocError, Global};

/// The greatest number of bytes that are read.
pub const LIMIT: usize = 16_777_216;

/// Why the input isn't there.
#[derive(Clone, Copy)]
pub enum ReadError {
    /// A read failed; the source's count of faults rose.
    Fault,
    /// More bytes than the limit were taken.
    TooLong,
    Memory,
}

impl From<Failed> for ReadError {
    ghost use Rattle.lp_plain.specs.declared.input.ReadError.TheVariants.{Fault};

    ghost from_gives = { λ _ e. e ≡ Fault };

    fn from(_failed: Failed) -> ReadError {
        ReadError::Fault
    }
}

impl From<AllocError> for ReadError {
    ghost use Rattle.lp_plain.specs.declared.input.ReadError.TheVariants.{Memory};

    ghost from_gives = { λ _ e. e ≡ Memory };

    fn from(_error: AllocError) -> ReadError {
        ReadError::Memory
    }
}

/// Reads a source to its end.
pub fn read_all<S: Source>(alloc: Global, source: &mut S) -> Result<Vec<u8>, ReadError>
    ensures whole { IfOk result (λ v. (bytes : List ℕ) → S.left source.old ≡ Some bytes → v.items ≡ bytes) }
    ensures within { IfOk result (λ v. length v.items ≤ LIMIT) }
    ensures too_long { result ≡ Err ReadError.TooLong → (bytes : List ℕ) → S.left source.old ≡ Some bytes → LIMIT < length bytes }
    ensures fault { result ≡ Err ReadError.Fault → Rose (S.faults source.old) (S.faults source.new) }
{
    let mut bytes = Vec::new(alloc);
    let mut chunk = [0u8; 4096];
    while bytes.len() <= LIMIT {
        let n = source.read(&mut chunk)?;
        if n == 0 {
            return Ok(bytes);
        }
        bytes.extend_from_slice(&chunk[..n])?;
    }
    Err(ReadError::TooLong)
}
