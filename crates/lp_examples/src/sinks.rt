//! Sinks that fail under the emission of all parsers, and the texts of its refusals.

use crate::changes::Example;
use crate::emission::{emitted, text_of};
use crate::writers::Answer;
use lp_emit::EmitError;
use lp_texts::{TextKind, TextPlace};
use std::alloc::{AllocError, Global};

/// How many bytes a write takes.
const MOST: usize = 64;

/// Each write fails once; what was written is then all that was written before.
pub fn each_write(alloc: Global, example: &Example) -> Result<Answer, AllocError> {
    let text = text_of(alloc, "", example)?;
    let bytes = text.as_str().as_bytes();
    let writes = bytes.len().div_ceil(MOST);
    let mut wrong = 0usize;
    for number in 0..writes {
        let words = format!(in alloc; "fails={number}")?;
        let answer = emitted(alloc, words.as_str(), example)?;
        let front = bytes.get(..number.saturating_mul(MOST)).unwrap_or(&[]);
        if answer.end.as_str() != "write fault" || answer.output.as_str().as_bytes() != front {
            wrong = wrong.saturating_add(1);
        }
    }
    Answer::counted(alloc, writes, wrong)
}

/// A line for each refusal, with its text.
pub fn causes(alloc: Global) -> Result<Answer, AllocError> {
    let mut output = String::new(alloc);
    for number in 1..11 {
        let cause = cause(number);
        output.push_str(format!(in alloc; "{cause}\n")?.as_str())?;
    }
    Ok(Answer {
        end: String::from_str(alloc, "ok")?,
        output,
    })
}

/// A refusal, by its number.
fn cause(number: usize) -> EmitError {
    match number {
        1 => EmitError::NoStart,
        2 => EmitError::Unsupported,
        3 => EmitError::BadGrammar { rule: 1, place: 0 },
        4 => EmitError::RecoveryInAscent,
        5 => EmitError::NameClash {
            first: 0,
            second: 1,
        },
        6 => EmitError::TooMany { count: 1 },
        7 => EmitError::BadTables {
            start: 0,
            state: 0,
            rule: 1,
        },
        8 => bad_text(),
        9 => EmitError::WriteFault,
        _ => EmitError::Memory,
    }
}

fn bad_text() -> EmitError {
    let place = TextPlace {
        kind: TextKind::Use,
        number: 0,
    };
    EmitError::BadText { place, byte: 0 }
}
