//! Standard streams over readers and writers in memory.

use lp_write::{Failed, Sink, Source, StdinSource, StdoutSink};
use std::alloc::{AllocError, Global};
use std::io::{self, Cursor, ErrorKind, Read};

/// A reader that fails.
#[derive(Drop)]
struct Broken;

impl Read for Broken {
    fn read(&mut self, _buf: &mut [u8]) -> io::Result<usize> {
        Err(io::Error::from(ErrorKind::BrokenPipe))
    }
}

/// How many bytes each read of `abc` into two bytes gives, and each write of three pieces into three bytes takes.
pub fn told_streams(alloc: Global) -> Result<String, AllocError> {
    let mut out = String::new(alloc);
    show_reads(&mut out)?;
    show_writes(&mut out)?;
    Ok(out)
}

fn show_reads(out: &mut String) -> Result<(), AllocError> {
    let mut buf = [0u8; 2];
    let mut source = StdinSource::new(b"abc".as_slice());
    for _read in 0..3 {
        let told = source.read(&mut buf);
        show(out, "read", told)?;
    }
    let told = StdinSource::new(Broken).read(&mut buf);
    show(out, "broken read", told)
}

fn show_writes(out: &mut String) -> Result<(), AllocError> {
    let mut held = [0u8; 3];
    let mut sink = StdoutSink::new(Cursor::new(&mut held[..]));
    for piece in ["ab", "cd", "d"] {
        let told = sink.write(piece.as_bytes());
        show(out, "write", told)?;
    }
    Ok(())
}

fn show(out: &mut String, word: &str, told: Result<usize, Failed>) -> Result<(), AllocError> {
    match told {
        Ok(count) => write!(out, "{word} {count}\n"),
        Err(_) => write!(out, "{word} fails\n"),
    }
}
