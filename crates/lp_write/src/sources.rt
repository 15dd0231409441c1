//! Where bytes come from.

ghost use Rattle.std.specs.Prelude.{◌≡◌, ℕ, ◌+◌, ◌-◌, ◌<◌, ◌≤◌, List, [], ◌++◌, length, take, drop, IfOk, OnErr, Option, Some};
ghost use Rattle.lp_write.specs.Sinks.{Rose, preceded};

use crate::sinks::Failed;

/// A source of bytes. It means the bytes that are left, where it tells them, and a count of faults
/// that never falls.
pub trait Source {
    ghost left: { Self → Option (List ℕ) };

    ghost faults: { Self → ℕ };

    /// Puts the first n bytes that are left into the front of the buffer and answers n; 0 is the
    /// end of input. `Failed` comes only where the count of faults rose.
    fn read(&mut self, buf: &mut [u8]) -> Result<usize, Failed>
        requires { 0 < length buf.old }
        ensures within { IfOk result (λ n. n ≤ length buf.new) }
        ensures gave { IfOk result (λ n. left self.old ≡ preceded (take n buf.new) (left self.new)) }
        ensures end { IfOk result (λ n. (bytes : List ℕ) → n ≡ 0 → left self.old ≡ Some bytes → bytes ≡ []) }
        ensures kept { OnErr result (left self.new ≡ left self.old) }
        ensures never_falls { faults self.old ≤ faults self.new }
        ensures rose { OnErr result (Rose (faults self.old) (faults self.new)) };
}
