//! A text in memory that grows.

ghost use Rattle.std.specs.Prelude.{◌≡◌, ◌<◌, ◌≤◌, IfOk, OnErr, length, take, []};
ghost use Rattle.lp_emit.specs.Growing.{told_of};
ghost use Rattle.lp_write.specs.Sinks.{Refused, Took};

use lp_write::{Failed, Sink};
use std::alloc::{AllocError, Global};

/// A sink in memory that grows with what it takes. A write fails where memory is short, and then
/// takes nothing.
#[derive(Drop)]
pub(crate) struct GrowingSink {
    bytes: Vec<u8>,
    /// How many writes failed, up to the greatest u64.
    faults: u64,
}

impl GrowingSink {
    /// A sink that has taken nothing.
    pub(crate) fn new(alloc: Global) -> GrowingSink
        ensures { result.bytes.items ≡ [] }
    {
        GrowingSink {
            bytes: Vec::new(alloc),
            faults: 0,
        }
    }

    /// The bytes that it took.
    pub(crate) fn into_bytes(self) -> Vec<u8>
        ensures { result.items ≡ self.bytes.items }
    {
        self.bytes
    }
}

impl Sink for GrowingSink {
    ghost use Rattle.lp_emit.specs.Growing.{told_of};

    ghost told = { λ s. told_of s };

    fn write(&mut self, piece: &[u8]) -> Result<usize, Failed>
        ensures within { IfOk result (λ n. n ≤ length piece.now) }
        ensures moves { IfOk result (λ n. 0 < length piece.now → 0 < n) }
        ensures took { IfOk result (λ n. Took (told_of self.old) (told_of self.new) (take n piece.now)) }
        ensures refused { OnErr result (Refused (told_of self.old) (told_of self.new)) }
    {
        match self.bytes.extend_from_slice(piece) {
            Ok(()) => Ok(piece.len()),
            Err(AllocError) => {
                self.faults = self.faults.saturating_add(1);
                Err(Failed)
            }
        }
    }
}
