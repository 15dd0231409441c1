//! Stored calls. A file begins with a line on its subject and the text of a grammar. Each call begins, behind
//! an empty line, with a line `== NAME` and the line of its words. Then stand its parts, each behind a line
//! `-- PART`:
//!
//! - `file`: the grammar, where it isn't that of the file's beginning; token lines may follow it;
//! - `with`: what is changed in the grammar and its states, a line each, its escapes applied;
//! - `old`, `new`: what is changed in the printed text, and what stands there then;
//! - `ends`: how the call ends; where this part isn't there, `ok`, or `done` with what it tells;
//! - `bytes`: how many bytes are printed;
//! - `prints`: all that is printed, but the line ends at its end;
//! - `begins`: the lines with which it begins;
//! - `has`: lines that are printed one after another;
//! - `in the text`: what is printed stands in the text of all parsers of the grammar.

use std::alloc::{AllocError, Global};

/// A call, and what is wanted of it.
#[derive(Drop)]
pub struct Case<'t> {
    pub name: &'t str,
    /// The call and what it is handed, with blanks between.
    pub words: &'t str,
    /// The text of its grammar.
    pub file: &'t str,
    /// What is changed in the grammar and its states, a line each.
    pub changes: &'t str,
    /// What is changed in the printed text; empty where nothing is.
    pub old: &'t str,
    pub new: &'t str,
    pub wants: Vec<Want<'t>>,
}

/// What is wanted of a call.
#[derive(Clone, Copy)]
pub enum Want<'t> {
    /// How it ends; all well where that isn't told.
    Ends(Option<&'t str>),
    Bytes(usize),
    Prints(&'t str),
    Begins(&'t str),
    Has(&'t str),
    InText,
    /// A part of another name.
    Unknown,
}

/// The calls of a file, in order.
pub fn read_cases(alloc: Global, text: &str) -> Result<Vec<Case<'_>>, AllocError> {
    let mut cases = Vec::new(alloc);
    let mut calls = text.split("\n\n== ");
    let (_, file) = first_line(calls.next().unwrap_or(""));
    for call in calls {
        cases.push(read_case(alloc, call, file)?)?;
    }
    Ok(cases)
}

fn read_case<'t>(alloc: Global, call: &'t str, file: &'t str) -> Result<Case<'t>, AllocError> {
    let (name, rest) = first_line(call);
    let (words, parts) = rest.split_once("\n-- ").unwrap_or((rest, ""));
    Ok(Case {
        name,
        words,
        file: part_of(parts, "file").unwrap_or(file),
        changes: part_of(parts, "with").unwrap_or(""),
        old: part_of(parts, "old").unwrap_or(""),
        new: part_of(parts, "new").unwrap_or(""),
        wants: wants_of(alloc, parts)?,
    })
}

/// The content of the part of a name.
fn part_of<'t>(parts: &'t str, name: &str) -> Option<&'t str> {
    for part in parts.split("\n-- ") {
        let (kind, content) = first_line(part);
        if kind == name {
            return Some(content);
        }
    }
    None
}

/// What is wanted, in order.
fn wants_of<'t>(alloc: Global, parts: &'t str) -> Result<Vec<Want<'t>>, AllocError> {
    let mut wants = Vec::new(alloc);
    wants.push(Want::Ends(part_of(parts, "ends")))?;
    for part in parts.split("\n-- ") {
        let (kind, content) = first_line(part);
        // A call without parts has one of no name.
        if !matches!(kind, "" | "file" | "with" | "old" | "new" | "ends") {
            wants.push(wanted(kind, content))?;
        }
    }
    Ok(wants)
}

fn wanted<'t>(kind: &str, content: &'t str) -> Want<'t> {
    match kind {
        "bytes" => Want::Bytes(number(content)),
        "prints" => Want::Prints(content),
        "begins" => Want::Begins(content),
        "has" => Want::Has(content),
        "in the text" => Want::InText,
        _ => Want::Unknown,
    }
}

/// The first line, and what follows it but the line ends at the end.
fn first_line(text: &str) -> (&str, &str) {
    match text.split_once('\n') {
        Some((line, rest)) => (line, rest.trim_end_matches('\n')),
        None => (text, ""),
    }
}

/// A number. What is none gives the greatest, which numbers nothing.
pub fn number(word: &str) -> usize {
    word.parse::<usize>().unwrap_or(usize::MAX)
}
