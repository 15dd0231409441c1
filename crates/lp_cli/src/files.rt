//! Files that are read to their end, and files that are written whole or not at all.

use lp_plain::{ReadError, read_all};
use lp_tool::Status;
use lp_write::{Source, StdinSource};
use std::alloc::{AllocError, Global};
use std::rt::Files;
use std::{fs, io};

/// Why a file isn't there.
#[derive(Drop)]
pub enum Fault {
    Closed(io::Error),
    Unread(Status),
}

/// The bytes of a file; `-` is standard input.
pub fn read_file<R: Files + Input + AllocGlobal>(rt: &R, name: &str) -> Result<Vec<u8>, Fault> {
    if name == "-" {
        return bytes_of(rt.alloc(), &mut StdinSource::new(rt.reader()));
    }
    match fs::open(rt, name) {
        Err(error) => Err(Fault::Closed(error)),
        Ok(file) => bytes_of(rt.alloc(), &mut StdinSource::new(file)),
    }
}

fn bytes_of<S: Source>(alloc: Global, source: &mut S) -> Result<Vec<u8>, Fault> {
    match read_all(alloc, source) {
        Ok(bytes) => Ok(bytes),
        Err(ReadError::Fault) => Err(Fault::Unread(Status::ReadFault)),
        Err(ReadError::TooLong) => Err(Fault::Unread(Status::TooLong)),
        Err(ReadError::Memory) => Err(Fault::Unread(Status::Memory)),
    }
}

/// Writes a file beside the one that is meant, and puts it in its place once it is whole.
pub fn write_whole<R: Files + AllocGlobal>(
    rt: &R,
    name: &str,
    bytes: &[u8],
) -> Result<Status, AllocError> {
    let beside = format!(in rt.alloc(); "{name}.lp_cli.part")?;
    if put(rt, name, beside.as_str(), bytes).is_ok() {
        return Ok(Status::Done);
    }
    let _ = fs::remove_file(rt, beside.as_str());
    Ok(Status::WriteFault)
}

fn put<R: Files>(rt: &R, name: &str, beside: &str, bytes: &[u8]) -> io::Result<()> {
    fs::write(rt, beside, bytes)?;
    fs::rename(rt, beside, name)
}
