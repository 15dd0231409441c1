//! Where bytes go.

ghost use Rattle.std.specs.Prelude.{◌≡◌, ℕ, ◌+◌, ◌-◌, ◌<◌, ◌≤◌, List, [], ◌++◌, length, take, drop, replicate, IfOk, OnOk, OnErr};
ghost use Rattle.lp_write.specs.Sinks.{Told, Took, Refused, Broke};

/// A read or a write failed; the count of faults of the source or sink rose.
#[derive(Clone, Copy, PartialEq, Eq)]
pub struct Failed;

/// A sink of bytes. It means what it tells: the bytes that it holds and the number of bytes that it
/// has taken, each where it tells it, and a count of faults that never falls.
pub trait Sink {
    ghost told: { Self → Told };

    /// Appends the first n bytes of the piece and answers n, at least 1 for a piece that isn't
    /// empty. `Failed` comes only where the count of faults rose; then nothing was appended.
    fn write(&mut self, piece: &[u8]) -> Result<usize, Failed>
        ensures within { IfOk result (λ n. n ≤ length piece.now) }
        ensures moves { IfOk result (λ n. 0 < length piece.now → 0 < n) }
        ensures took { IfOk result (λ n. Took (told self.old) (told self.new) (take n piece.now)) }
        ensures refused { OnErr result (Refused (told self.old) (told self.new)) };
}

/// The bytes from a place on.
pub(crate) fn rest(bytes: &[u8], at: usize) -> &[u8]
    requires { at ≤ length bytes.now }
    ensures value { result.now ≡ drop at bytes.now }
    ensures len { length result.now + at ≡ length bytes.now }
{
    &bytes[at..]
}

/// Writes the whole piece, in as many writes as it takes.
pub fn write_all<W: Sink>(sink: &mut W, piece: &[u8]) -> Result<(), Failed>
    ensures whole { OnOk result (Took (W.told sink.old) (W.told sink.new) piece.now) }
    ensures broke { OnErr result (Broke (W.told sink.old) (W.told sink.new) piece.now) }
{
    let mut at = 0;
    while at < piece.len() {
        at += sink.write(rest(piece, at))?;
    }
    Ok(())
}

/// Writes so many blanks.
pub fn write_blanks<W: Sink>(sink: &mut W, count: usize) -> Result<(), Failed>
    ensures whole { OnOk result (Took (W.told sink.old) (W.told sink.new) (replicate count 32)) }
    ensures broke { OnErr result (Broke (W.told sink.old) (W.told sink.new) (replicate count 32)) }
{
    let blanks = [b' '; 64];
    let mut left = count;
    while left > 0 {
        let n = left.min(64);
        write_all(sink, &blanks[..n])?;
        left -= n;
    }
    Ok(())
}
