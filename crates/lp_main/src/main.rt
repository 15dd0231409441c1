//! The program: a grammar file on standard input, its parser text and runs on standard output.
#![tactic(auto)]

use lp_repr::Text;
use lp_tool::{Status, run_tool, status_line};
use lp_write::{StdinSource, StdoutSink};
use std::process::ExitCode;
use std::rt::Env;
use std::{env, io};

fn main(rt: HostRuntime) -> ExitCode {
    let status = match words(&rt) {
        Ok(words) => answer(&rt, words.as_slice()),
        Err(status) => status,
    };
    let line = status_line(&status);
    if !line.is_empty() {
        let _ = rt.eprintln(line);
    }
    ExitCode::from(status.number())
}

/// The words after the program's name.
fn words<R: Env + AllocGlobal>(rt: &R) -> Result<Vec<Text>, Status> {
    let args = match env::args(rt) {
        Ok(args) => args,
        Err(error) if error.kind() == io::ErrorKind::OutOfMemory => return Err(Status::Memory),
        Err(_) => return Err(Status::Usage),
    };
    let mut words = Vec::new(rt.alloc());
    for word in args.skip(1) {
        if words.push(Text(word)).is_err() {
            return Err(Status::Memory);
        }
    }
    Ok(words)
}

fn answer(rt: &(impl Input + Print + AllocGlobal), words: &[Text]) -> Status {
    let mut source = StdinSource::new(rt.reader());
    let mut sink = StdoutSink::new(io::writer(rt));
    run_tool(rt.alloc(), words, &mut source, &mut sink).status
}
