//! Examples and worked calls.
//!
//! - Of each grammar file `NAME.lp` of `data`, the parser text that the program writes is `NAME.rs`, and the blocks of
//!   its token lines are `NAME.run`.
//! - What each call of the folder `calls` answers and prints is what is stored with it: runs, refusals, generated
//!   grammars, the calls that print parsers or parts of them, checks of grammars, tables and texts, and hostile use,
//!   by grammars, states, sources and sinks that are broken. `cases` says how calls are written down, and `calls` what
//!   their words are.
#![tactic(auto)]

mod answers;
mod calls;
mod cases;
mod changes;
mod compare;
mod emission;
mod parts;
mod printing;
mod runs;
mod sinks;
mod tool;
mod writers;

use crate::calls::answer_of;
use crate::cases::read_cases;
use crate::compare::{compared, verdict};
use crate::tool::run_words;
use std::rt::Files;
use std::{fs, io};

/// The examples, by name.
const EXAMPLES: [&str; 19] = [
    "bare_terminals",
    "calculator",
    "captures",
    "fallible",
    "infallible_result",
    "infallible_result_by_ascent",
    "inlines",
    "lookarounds",
    "no_location",
    "one_rule",
    "parameters",
    "parens",
    "quote_marks",
    "quote_marks_by_ascent",
    "quoted_patterns",
    "quoted_patterns_by_ascent",
    "recovery",
    "recursive_ascent",
    "starts",
];

/// The files of calls, by name.
const CALLS: [&str; 20] = [
    "runs",
    "ascent",
    "budgets",
    "budgets_small",
    "budgets_ascent",
    "recovery",
    "refused_files",
    "messages",
    "texts",
    "generated",
    "changed",
    "parsers",
    "modules",
    "actions",
    "parameters",
    "hostile",
    "refusals",
    "lookaheads",
    "checks",
    "sound",
];

fn main(rt: HostRuntime) -> io::Result<()> {
    for name in EXAMPLES {
        let line = example(&rt, name)?;
        rt.println(line.as_str())?;
    }
    for name in CALLS {
        make_calls(&rt, name)?;
    }
    Ok(())
}

/// Whether what is written of an example is what is stored.
fn example<R: Files + AllocGlobal>(rt: &R, name: &str) -> io::Result<String> {
    let alloc = rt.alloc();
    let file = fs::read(rt, format!(in alloc; "{name}.lp")?.as_str())?;
    let text = fs::read_to_string(rt, format!(in alloc; "{name}.rs")?.as_str())?;
    let blocks = fs::read_to_string(rt, format!(in alloc; "{name}.run")?.as_str())?;
    let stored = format!(in alloc; "{text}---\n{blocks}")?;
    let answer = run_words(alloc, "run", file.as_slice())?;
    Ok(compared(alloc, name, &answer, stored.as_str())?)
}

/// Makes the calls of a file, and prints a line for each.
fn make_calls(rt: &(impl Files + Print + AllocGlobal), name: &str) -> io::Result<()> {
    let alloc = rt.alloc();
    let text = fs::read_to_string(rt, format!(in alloc; "calls/{name}.txt")?.as_str())?;
    for case in read_cases(alloc, text.as_str())?.as_slice() {
        let answer = answer_of(alloc, case)?;
        let line = verdict(alloc, case, &answer)?;
        rt.println(line.as_str())?;
    }
    Ok(())
}
