//! The program for people: it emits, runs and checks grammar files, and says where they are wrong and what to write.
#![tactic(auto)]

mod files;
mod words;

use crate::files::{Fault, read_file, write_whole};
use crate::words::{Asked, Verb, command, read_words};
use lp_messages::{exit_code, message, warnings};
use lp_repr::Text;
use lp_repr::repr::NonterminalString;
use lp_tool::{Report, Status, run_tool};
use lp_write::{CountSink, MemorySource, Sink, StdoutSink};
use std::alloc::{AllocError, Global};
use std::process::ExitCode;
use std::rt::{Env, Files};
use std::{env, io};

fn main(rt: HostRuntime) -> ExitCode {
    let code = match called(&rt) {
        Ok(code) => code,
        Err(AllocError) => {
            let _ = rt.eprintln("error: there isn't enough memory");
            3
        }
    };
    ExitCode::from(code)
}

/// Does what the words ask for, and answers the exit code.
fn called<R: Env + Files + Input + Print + Eprint + AllocGlobal>(rt: &R) -> Result<u8, AllocError> {
    let alloc = rt.alloc();
    let words: Vec<String> = match env::args(rt) {
        Ok(words) => words.collect(alloc)?,
        Err(error) => {
            let _ = rt.eprintln(format!(in alloc; "error: {error}")?.as_str());
            return Ok(2);
        }
    };
    match command(alloc)?.try_get_matches_from(words.as_slice()) {
        Ok(matches) => match read_words(&matches) {
            Some(asked) => done(rt, &asked),
            None => Ok(2),
        },
        Err(error) => {
            let _ = error.print(rt);
            Ok(if error.use_stderr() { 2 } else { 0 })
        }
    }
}

/// Reads the file, hands it to the tool, and tells what that answers.
fn done<R: Files + Input + Print + Eprint + AllocGlobal>(
    rt: &R,
    asked: &Asked<'_>,
) -> Result<u8, AllocError> {
    match read_file(rt, asked.file) {
        Err(Fault::Closed(error)) => closed(rt, asked.file, &error),
        Err(Fault::Unread(status)) => told(rt, asked, &[], &status),
        Ok(file) => match (asked.verb, asked.output) {
            (Verb::Check, _) => checked(rt, asked, file.as_slice()),
            (_, None) => printed(rt, asked, file.as_slice()),
            (_, Some(output)) => saved(rt, asked, file.as_slice(), output),
        },
    }
}

/// Tells of a file that can't be opened.
fn closed<R: Eprint + AllocGlobal>(
    rt: &R,
    name: &str,
    error: &io::Error,
) -> Result<u8, AllocError> {
    let line = format!(in rt.alloc(); "{name}: error: the file can't be opened: {error}")?;
    let _ = rt.eprintln(line.as_str());
    Ok(3)
}

/// Checks a file, and prints how many states each start has.
fn checked<R: Print + Eprint + AllocGlobal>(
    rt: &R,
    asked: &Asked<'_>,
    file: &[u8],
) -> Result<u8, AllocError> {
    let report = over(rt.alloc(), asked, file, &mut CountSink::new())?;
    for table in report.tables.as_slice() {
        let count = table.states.as_slice().len();
        print_count(rt, &table.start, count)?;
    }
    told(rt, asked, file, &report.status)
}

fn print_count<R: Print + AllocGlobal>(
    rt: &R,
    name: &NonterminalString,
    count: usize,
) -> Result<(), AllocError> {
    let line = format!(in rt.alloc(); "{name}: {count} states")?;
    let _ = rt.println(line.as_str());
    Ok(())
}

/// Writes what the tool makes to standard output.
fn printed<R: Print + Eprint + AllocGlobal>(
    rt: &R,
    asked: &Asked<'_>,
    file: &[u8],
) -> Result<u8, AllocError> {
    let mut sink = StdoutSink::new(io::writer(rt));
    let report = over(rt.alloc(), asked, file, &mut sink)?;
    told(rt, asked, file, &report.status)
}

/// Writes what the tool makes to a file, once all of it is made.
fn saved<R: Files + Eprint + AllocGlobal>(
    rt: &R,
    asked: &Asked<'_>,
    file: &[u8],
    output: &str,
) -> Result<u8, AllocError> {
    let mut text = Vec::new(rt.alloc());
    let report = made(rt.alloc(), asked, file, &mut text)?;
    let status = placed(rt, report.status, output, text.as_slice())?;
    told(rt, asked, file, &status)
}

/// What the tool answers to a file, and what it makes, behind a text.
fn made(
    alloc: Global,
    asked: &Asked<'_>,
    file: &[u8],
    text: &mut Vec<u8>,
) -> Result<Report, AllocError> {
    let mut sink = StdoutSink::new(text);
    over(alloc, asked, file, &mut sink)
}

/// Writes a text to a file where all was done.
fn placed<R: Files + AllocGlobal>(
    rt: &R,
    status: Status,
    output: &str,
    text: &[u8],
) -> Result<Status, AllocError> {
    match status {
        Status::Done => write_whole(rt, output, text),
        status => Ok(status),
    }
}

/// What the tool answers to a file.
fn over<K: Sink>(
    alloc: Global,
    asked: &Asked<'_>,
    file: &[u8],
    sink: &mut K,
) -> Result<Report, AllocError> {
    let mut words = Vec::new(alloc);
    let first = match asked.verb {
        Verb::Run => "run",
        Verb::Emit | Verb::Check => "emit",
    };
    words.push(Text::from_str(alloc, first)?)?;
    if asked.comments {
        words.push(Text::from_str(alloc, "--comments")?)?;
    }
    if asked.dense {
        words.push(Text::from_str(alloc, "--no-whitespace")?)?;
    }
    let mut source = MemorySource::new(Vec::from_slice(alloc, file)?, 65_536, Vec::new(alloc));
    Ok(run_tool(alloc, words.as_slice(), &mut source, sink))
}

/// Tells of a status, or the warnings where all was done; answers the exit code.
fn told<R: Eprint + AllocGlobal>(
    rt: &R,
    asked: &Asked<'_>,
    file: &[u8],
    status: &Status,
) -> Result<u8, AllocError> {
    let alloc = rt.alloc();
    let input = if asked.file == "-" {
        "<stdin>"
    } else {
        asked.file
    };
    let text = match status {
        Status::Done => warnings(alloc, input, file)?,
        Status::WriteFault => message(alloc, asked.output.unwrap_or("<stdout>"), &[], status)?,
        _ => message(alloc, input, file, status)?,
    };
    let _ = rt.eprint(text.as_str());
    Ok(exit_code(status))
}
