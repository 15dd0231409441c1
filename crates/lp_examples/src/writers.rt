//! Writers over memory, and what was written.
//!
//! Words of a call: `--comments` and `--no-whitespace`; `most=N`, how many bytes a write takes; `fails=N`, the
//! number of a write that fails; `room=N`, how many bytes there is room for.

use crate::cases::number;
use lp_repr::Text;
use lp_write::{MemorySink, Options};
use std::alloc::{AllocError, Global};

/// More bytes than any example prints.
const ROOM: usize = 1_000_000;

/// How many bytes a write takes where no word says it.
const MOST: usize = 64;

/// How a call ended, and what it printed.
#[derive(Drop)]
pub struct Answer {
    pub end: String,
    pub output: String,
}

impl Answer {
    /// The answer of this end that prints nothing.
    pub fn ended(alloc: Global, end: &str) -> Result<Answer, AllocError> {
        Ok(Answer {
            end: String::from_str(alloc, end)?,
            output: String::new(alloc),
        })
    }

    /// The answer that tells of how many calls there were, and how many of them were answered otherwise than
    /// they have to be.
    pub fn counted(alloc: Global, calls: usize, wrong: usize) -> Result<Answer, AllocError> {
        let end = format!(in alloc; "{calls} calls, {wrong} answered otherwise")?;
        Answer::ended(alloc, end.as_str())
    }
}

/// The answer of this end, with what a sink took.
pub fn answer_by(alloc: Global, end: &str, sink: MemorySink) -> Result<Answer, AllocError> {
    Ok(Answer {
        end: String::from_str(alloc, end)?,
        output: String::from_utf8_lossy(alloc, sink.into_bytes().as_slice())?,
    })
}

/// Whether a word is among others.
pub fn has(words: &str, word: &str) -> bool {
    words.split_whitespace().any(|other| other == word)
}

/// What stands behind the front of one of the words.
pub fn value<'t>(words: &'t str, front: &str) -> Option<&'t str> {
    for word in words.split_whitespace() {
        if let Some(value) = word.strip_prefix(front) {
            return Some(value);
        }
    }
    None
}

pub fn options_of(words: &str) -> Options {
    Options {
        comments: has(words, "--comments"),
        whitespace: !has(words, "--no-whitespace"),
    }
}

/// A sink as the words ask for it.
pub fn sink_of(alloc: Global, words: &str) -> Result<MemorySink, AllocError> {
    let room = value(words, "room=").map_or(ROOM, |word| number(word).min(ROOM));
    let most = value(words, "most=").map_or(MOST, |word| number(word));
    let mut failing = Vec::new(alloc);
    if let Some(word) = value(words, "fails=") {
        failing.push(number(word) as u64)?;
    }
    MemorySink::new(alloc, room, most.max(1), failing)
}

/// The words that speak neither of a source nor of a sink.
pub fn words_of(alloc: Global, words: &str) -> Result<Vec<Text>, AllocError> {
    let mut texts = Vec::new(alloc);
    for word in words.split_whitespace() {
        if !word.contains('=') {
            texts.push(Text::from_str(alloc, word)?)?;
        }
    }
    Ok(texts)
}
