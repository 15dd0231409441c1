//! An answer in one line.

use lp_repr::Token;
use lp_repr::repr::Symbol;
use lp_tool::{Report, Status, status_line};
use std::alloc::{AllocError, Global};

/// The status with what it tells; of what is done, the number of states of each start.
pub fn told(alloc: Global, report: &Report) -> Result<String, AllocError> {
    match &report.status {
        Status::Done => done(alloc, report),
        Status::Grammar { place } => format!(in alloc; "grammar at {place}"),
        Status::Conflict { start, path, token } => {
            conflict(alloc, *start, path.as_slice(), *token)
        }
        Status::TooManyStates { start, paths } => {
            let count = paths.as_slice().len();
            format!(in alloc; "too many states of start {start}, {count} paths")
        }
        Status::Refused(error) => format!(in alloc; "refused, {error}"),
        Status::TokenLine { line } => format!(in alloc; "token line {line}"),
        status => String::from_str(alloc, status_line(status)),
    }
}

fn done(alloc: Global, report: &Report) -> Result<String, AllocError> {
    let mut line = String::from_str(alloc, "done, states")?;
    for table in report.tables.as_slice() {
        let count = table.states.as_slice().len();
        line.push_str(format!(in alloc; " {count}")?.as_str())?;
    }
    Ok(line)
}

fn conflict(
    alloc: Global,
    start: usize,
    path: &[Symbol],
    token: Token,
) -> Result<String, AllocError> {
    let mut line = format!(in alloc; "conflict of start {start} after")?;
    for symbol in path {
        line.push_str(format!(in alloc; " {symbol}")?.as_str())?;
    }
    let token = match token {
        Token::Terminal(number) => format!(in alloc; " on terminal {number}")?,
        Token::Eof => String::from_str(alloc, " on EOF")?,
    };
    line.push_str(token.as_str())?;
    Ok(line)
}
