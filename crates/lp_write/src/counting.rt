//! A sink that counts.

ghost use Rattle.std.specs.Prelude.{◌≡◌, ℕ, ◌+◌, ◌<◌, ◌≤◌, None, Ok, IfOk, OnErr, length, take, min};
ghost use Rattle.lp_write.specs.Sinks.{greatest, Took, Refused};

use crate::sinks::{Failed, Sink};
use std::marker::Model;

/// A sink that keeps nothing but the number of bytes that it has taken. It never fails. At the
/// greatest u64 the total stays, and the sink tells no number.
#[derive(Drop)]
pub struct CountSink {
    total: u64,
}

impl Model for CountSink {
    ghost use Rattle.std.specs.Prelude.{ℕ, ◌^◌, ◌<◌};

    ghost Value = { ℕ };

    ghost view = { λ s. s.total };

    ghost invariant = { λ s. s.total < 2 ^ 64 };
}

impl CountSink {
    /// A sink that has taken nothing.
    pub fn new() -> CountSink
        ensures { result ≡ 0 }
    {
        CountSink { total: 0 }
    }

    /// The number of bytes taken, or the greatest u64 where more were taken.
    pub fn total(&self) -> u64
        ensures { result ≡ self.now }
    {
        self.total
    }
}

impl Default for CountSink {
    ghost is_default = { λ s. s ≡ 0 };

    fn default() -> CountSink {
        CountSink::new()
    }
}

impl Sink for CountSink {
    ghost use Rattle.lp_write.specs.Counting.{told_of};

    ghost told = { λ s. told_of s };

    /// Takes the whole piece.
    fn write(&mut self, piece: &[u8]) -> Result<usize, Failed>
        ensures within { IfOk result (λ n. n ≤ length piece.now) }
        ensures moves { IfOk result (λ n. 0 < length piece.now → 0 < n) }
        ensures took { IfOk result (λ n. Took (told_of self.old) (told_of self.new) (take n piece.now)) }
        ensures refused { OnErr result (Refused (told_of self.old) (told_of self.new)) }
        ensures whole { result ≡ Ok (length piece.now) }
        ensures total { self.new ≡ min (self.old + length piece.now) greatest }
    {
        self.total = self.total.saturating_add(piece.len() as u64);
        Ok(piece.len())
    }
}
