//! Standard input and output: the trusted edge.

ghost use Rattle.std.specs.Prelude.{◌≡◌, ℕ, ◌<◌, ◌≤◌, List, [], length, take, Some, IfOk, OnOk, OnErr};
ghost use Rattle.std.specs.Io.KnownBytes.{ReadConsumes, WriteAppends};
ghost use Rattle.lp_write.specs.Sinks.{counted, Rose, Took, Refused, preceded};
ghost use Rattle.lp_write.specs.Standard.{reader_of, failed_reads, writer_below, failed_writes, untold, only_faults};

use crate::sinks::{Failed, Sink};
use crate::sources::Source;
use std::io::{Read, Write};

/// A source over a reader of the runtime. It tells no content; its count rises at every error of
/// the reader.
#[derive(Drop)]
pub struct StdinSource<R> {
    reader: R,
    faults: u64,
}

impl<R: Read> StdinSource<R> {
    /// A source over a reader, none of whose reads has failed.
    pub fn new(reader: R) -> StdinSource<R>
        ensures reader { reader_of result ≡ reader }
        ensures none { failed_reads result ≡ 0 }
    {
        StdinSource { reader, faults: 0 }
    }
}

impl<R: Read> Source for StdinSource<R> {
    ghost left = { λ _. untold };

    ghost faults = { λ s. failed_reads s };

    /// Answers as the reader does.
    fn read(&mut self, buf: &mut [u8]) -> Result<usize, Failed>
        requires { 0 < length buf.old }
        ensures within { IfOk result (λ n. n ≤ length buf.new) }
        ensures gave { IfOk result (λ n. untold ≡ preceded (take n buf.new) untold) }
        ensures end { IfOk result (λ n. (bytes : List ℕ) → n ≡ 0 → untold ≡ Some bytes → bytes ≡ []) }
        ensures kept { OnErr result (untold ≡ untold) }
        ensures never_falls { failed_reads self.old ≤ failed_reads self.new }
        ensures rose { OnErr result (Rose (failed_reads self.old) (failed_reads self.new)) }
        ensures quiet { OnOk result (failed_reads self.new ≡ failed_reads self.old) }
        ensures counts { OnErr result (failed_reads self.new ≡ counted (failed_reads self.old)) }
        ensures passed_on { ReadConsumes (R.remaining (reader_of self.old)) (R.remaining (reader_of self.new)) result buf.new }
    {
        match self.reader.read(buf) {
            Ok(n) => Ok(n),
            Err(_) => {
                self.faults = self.faults.saturating_add(1);
                Err(Failed)
            }
        }
    }
}

/// A sink over a writer of the runtime. It tells no content and no number; its count rises at every
/// error of the writer, and where the writer takes nothing of a piece that isn't empty.
#[derive(Drop)]
pub struct StdoutSink<W> {
    writer: W,
    faults: u64,
}

impl<W: Write> StdoutSink<W> {
    /// A sink over a writer, none of whose writes has failed.
    pub fn new(writer: W) -> StdoutSink<W>
        ensures writer { writer_below result ≡ writer }
        ensures none { failed_writes result ≡ 0 }
    {
        StdoutSink { writer, faults: 0 }
    }

    fn fault(&mut self) -> Failed
        ensures counts { self.new.faults ≡ counted self.old.faults }
        ensures kept { self.old.faults ≤ self.new.faults }
        ensures same_writer { self.new.writer ≡ self.old.writer }
    {
        self.faults = self.faults.saturating_add(1);
        Failed
    }
}

impl<W: Write> Sink for StdoutSink<W> {
    ghost told = { λ s. only_faults (failed_writes s) };

    /// Answers as the writer does, and fails where it takes nothing of a piece that isn't empty.
    fn write(&mut self, piece: &[u8]) -> Result<usize, Failed>
        ensures within { IfOk result (λ n. n ≤ length piece.now) }
        ensures moves { IfOk result (λ n. 0 < length piece.now → 0 < n) }
        ensures took { IfOk result (λ n. Took (only_faults (failed_writes self.old)) (only_faults (failed_writes self.new)) (take n piece.now)) }
        ensures refused { OnErr result (Refused (only_faults (failed_writes self.old)) (only_faults (failed_writes self.new))) }
        ensures quiet { OnOk result (failed_writes self.new ≡ failed_writes self.old) }
        ensures counts { OnErr result (failed_writes self.new ≡ counted (failed_writes self.old)) }
        ensures passed_on { WriteAppends (W.contents (writer_below self.old)) (W.contents (writer_below self.new)) result piece.now }
    {
        match self.writer.write(piece) {
            Ok(0) if !piece.is_empty() => Err(self.fault()),
            Ok(n) => Ok(n),
            Err(_) => Err(self.fault()),
        }
    }
}
