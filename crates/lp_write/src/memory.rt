//! Sources and sinks in memory, with reads and writes that fail as listed.

ghost use Rattle.std.specs.Prelude.{◌≡◌, ℕ, ◌+◌, ◌-◌, ◌<◌, ◌≤◌, List, [], ◌++◌, length, take, drop, IfOk, OnOk, OnErr, is_err, Option, Some, min, vec_len, vec_capacity};
ghost use Rattle.lp_write.specs.Sinks.{Took, Refused, Rose, preceded};

use crate::sinks::{Failed, Sink, rest};
use crate::sources::Source;
use std::alloc::{AllocError, Global};

/// A source over bytes in memory, which gives at most so many bytes per read. The reads whose
/// numbers, from 0, are listed fail, and the count of faults is how many failed.
#[derive(Drop)]
pub struct MemorySource {
    bytes: Vec<u8>,
    /// How many bytes were given.
    given: usize,
    most: usize,
    failing: Vec<u64>,
    /// The number of the next read, up to the greatest u64.
    reads: u64,
    faults: u64,
    ghost in_range: { given ≤ length bytes.items },
    ghost gives: { 0 < most },
}

impl MemorySource {
    ghost use Rattle.lp_write.specs.Memory.{giving, is_listed};

    /// A source of `bytes`, of which a read gives at most `most`. The reads whose numbers, counted from 0,
    /// stand in `failing` fail.
    pub fn new(bytes: Vec<u8>, most: usize, failing: Vec<u64>) -> MemorySource
        requires { 0 < most }
        ensures { giving result ≡ record { left = bytes.items; most = most; failing = failing.items; reads = 0; faults = 0 } }
    {
        MemorySource {
            bytes,
            given: 0,
            most,
            failing,
            reads: 0,
            faults: 0,
        }
    }

    /// Whether the next read fails.
    fn is_listed(&self) -> bool
        ensures { result ≡ is_listed (giving self.now).failing (giving self.now).reads }
    {
        self.failing.as_slice().contains(&self.reads)
    }
}

impl Source for MemorySource {
    ghost use Rattle.lp_write.specs.Memory.{giving, is_listed, gives, after_read, after_failed_read};

    ghost left = { λ s. Some (giving s).left };

    ghost faults = { λ s. (giving s).faults };

    /// Gives the least of the buffer, the most and the bytes left, in no memory; the buffer behind
    /// them stays.
    fn read(&mut self, buf: &mut [u8]) -> Result<usize, Failed>
        requires { 0 < length buf.old }
        ensures within { IfOk result (λ n. n ≤ length buf.new) }
        ensures gave { IfOk result (λ n. Some (giving self.old).left ≡ preceded (take n buf.new) (Some (giving self.new).left)) }
        ensures end { IfOk result (λ n. (bytes : List ℕ) → n ≡ 0 → Some (giving self.old).left ≡ Some bytes → bytes ≡ []) }
        ensures kept { OnErr result (Some (giving self.new).left ≡ Some (giving self.old).left) }
        ensures never_falls { (giving self.old).faults ≤ (giving self.new).faults }
        ensures rose { OnErr result (Rose (giving self.old).faults (giving self.new).faults) }
        ensures fails { is_err result ≡ is_listed (giving self.old).failing (giving self.old).reads }
        ensures count { IfOk result (λ n. n ≡ gives (giving self.old) (length buf.old)) }
        ensures buffer { IfOk result (λ n. buf.new ≡ take n (giving self.old).left ++ drop n buf.old) }
        ensures given { OnOk result (giving self.new ≡ after_read (giving self.old) (length buf.old)) }
        ensures fault { OnErr result (giving self.new ≡ after_failed_read (giving self.old)) }
        ensures untouched { OnErr result (buf.new ≡ buf.old) }
    {
        let fails = self.is_listed();
        self.reads = self.reads.saturating_add(1);
        if fails {
            self.faults = self.faults.saturating_add(1);
            return Err(Failed);
        }
        let n = copy_front(rest(self.bytes.as_slice(), self.given), self.most, buf);
        self.given += n;
        Ok(n)
    }
}

/// Puts the first bytes, at most so many, into the front of the buffer.
fn copy_front(bytes: &[u8], most: usize, buf: &mut [u8]) -> usize
    ensures count { result ≡ min (min (length buf.old) most) (length bytes.now) }
    ensures front { buf.new ≡ take result bytes.now ++ drop result buf.old }
{
    let n = buf.len().min(most).min(bytes.len());
    buf[..n].copy_from_slice(&bytes[..n]);
    n
}

/// A sink in memory, which takes at most so many bytes per write and has room for so many in all.
/// The writes whose numbers, from 0, are listed fail, and so does a write of a piece that isn't
/// empty where no room is left. The count of faults is how many failed.
#[derive(Drop)]
pub struct MemorySink {
    bytes: Vec<u8>,
    /// How many more bytes fit.
    room: usize,
    most: usize,
    failing: Vec<u64>,
    /// The number of the next write, up to the greatest u64.
    writes: u64,
    faults: u64,
    ghost roomy: { vec_len bytes + room ≤ vec_capacity bytes },
    ghost takes: { 0 < most },
}

impl MemorySink {
    ghost use Rattle.lp_write.specs.Memory.{holding, fails};

    /// Takes its room at once, so that writes take no memory.
    pub fn new(
        alloc: Global,
        room: usize,
        most: usize,
        failing: Vec<u64>,
    ) -> Result<MemorySink, AllocError>
        requires { 0 < most }
        ensures { IfOk result (λ s. holding s ≡ record { bytes = []; room = room; most = most; failing = failing.items; writes = 0; faults = 0 }) }
    {
        Ok(MemorySink {
            bytes: Vec::with_capacity(alloc, room)?,
            room,
            most,
            failing,
            writes: 0,
            faults: 0,
        })
    }

    /// The bytes that it holds.
    pub fn into_bytes(self) -> Vec<u8>
        ensures { result.items ≡ (holding self).bytes }
    {
        self.bytes
    }

    /// Whether the next write, of this piece, fails.
    fn fails(&self, piece: &[u8]) -> bool
        ensures { result ≡ fails (holding self.now) piece.now }
    {
        self.failing.as_slice().contains(&self.writes) || (piece.len() > 0 && self.room == 0)
    }
}

/// Appends within the capacity.
fn put(bytes: &mut Vec<u8>, piece: &[u8])
    requires { vec_len bytes.old + length piece.now ≤ vec_capacity bytes.old }
    ensures items { bytes.new.items ≡ bytes.old.items ++ piece.now }
    ensures len { vec_len bytes.new ≡ vec_len bytes.old + length piece.now }
    ensures capacity { vec_capacity bytes.old ≤ vec_capacity bytes.new }
{
    if bytes.extend_from_slice(piece).is_err() {
        unreachable!()
    }
}

impl Sink for MemorySink {
    ghost use Rattle.lp_write.specs.Memory.{holding, told_by, fails, takes, after_write, after_fault};

    ghost told = { λ s. told_by (holding s) };

    /// Takes the least of the piece, the most and the room left, in no memory.
    fn write(&mut self, piece: &[u8]) -> Result<usize, Failed>
        ensures within { IfOk result (λ n. n ≤ length piece.now) }
        ensures moves { IfOk result (λ n. 0 < length piece.now → 0 < n) }
        ensures took { IfOk result (λ n. Took (told_by (holding self.old)) (told_by (holding self.new)) (take n piece.now)) }
        ensures refused { OnErr result (Refused (told_by (holding self.old)) (told_by (holding self.new))) }
        ensures fails { is_err result ≡ fails (holding self.old) piece.now }
        ensures takes { IfOk result (λ n. n ≡ takes (holding self.old) piece.now) }
        ensures written { OnOk result (holding self.new ≡ after_write (holding self.old) piece.now) }
        ensures fault { OnErr result (holding self.new ≡ after_fault (holding self.old)) }
    {
        let fails = self.fails(piece);
        self.writes = self.writes.saturating_add(1);
        if fails {
            self.faults = self.faults.saturating_add(1);
            return Err(Failed);
        }
        let n = piece.len().min(self.most).min(self.room);
        put(&mut self.bytes, &piece[..n]);
        self.room -= n;
        Ok(n)
    }
}
