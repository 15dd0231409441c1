//! Stored texts. A file begins with a line on its subject; a grammar with its states may follow it. Each text begins,
//! behind an empty line, with a line `== NAME`. Behind it stand a line `-- answers` and what is answered of it.

use crate::fronts::{told_front, told_generated, told_words};
use crate::grammars::told_grammar;
use crate::headers::told_header;
use crate::refusals::told_refusal;
use crate::runs::told_run;
use crate::states::told_states;
use crate::streams::told_streams;
use crate::words::told_lines;
use std::alloc::{AllocError, Global};

/// What is asked of a text.
#[derive(Clone, Copy)]
pub enum Asked {
    /// What is answered of each of its lines.
    Words,
    /// Whether it is lowered, or where it is refused and why.
    Refusal,
    /// The grammar that it is lowered to.
    Grammar,
    /// That grammar, and the states of each of its starts.
    States,
    /// What its source gives.
    Front,
    /// The same of a source as its first line says.
    Source,
    /// The grammar of so many levels of operators, and its tokens.
    Generated,
    /// What is written in front of its parsers, and a header.
    Header,
    /// What standard streams answer; the text is empty.
    Streams,
    /// What a machine and a driver show of a run over the file's grammar and states.
    Run,
}

/// A line on a text: whether what is answered of it is what is stored with it.
pub fn verdict(alloc: Global, asked: Asked, head: &str, block: &str) -> Result<String, AllocError> {
    let (name, rest) = block.split_once('\n').unwrap_or((block, ""));
    let (text, want) = rest.split_once("\n-- answers\n").unwrap_or((rest, ""));
    let answer = answer(alloc, asked, head, text)?;
    told(alloc, name, answer.as_str(), want)
}

fn told(alloc: Global, name: &str, answer: &str, want: &str) -> Result<String, AllocError> {
    let answer = answer.trim_end_matches('\n');
    if answer == want.trim_end_matches('\n') {
        return format!(in alloc; "{name}: as stored");
    }
    format!(in alloc; "{name}: answers\n{answer}")
}

/// What is answered of a text.
fn answer(alloc: Global, asked: Asked, head: &str, text: &str) -> Result<String, AllocError> {
    match asked {
        Asked::Words => told_lines(alloc, text),
        Asked::Refusal => told_refusal(alloc, text),
        Asked::Grammar => told_grammar(alloc, text),
        Asked::States => told_states(alloc, text),
        Asked::Front => told_front(alloc, text.as_bytes()),
        Asked::Source => told_words(alloc, text),
        Asked::Generated => told_generated(alloc, text),
        Asked::Header => told_header(alloc, text),
        Asked::Streams => told_streams(alloc),
        Asked::Run => told_run(alloc, head, text),
    }
}
