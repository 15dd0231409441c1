//! The words of a call.

use clap::{Arg, ArgAction, ArgMatches, Command};
use std::alloc::{AllocError, Global};

/// What is done with a grammar file.
#[derive(Clone, Copy)]
pub enum Verb {
    Emit,
    Run,
    Check,
}

/// What the words ask for.
#[derive(Clone, Copy)]
pub struct Asked<'w> {
    pub verb: Verb,
    /// The grammar file; `-` for standard input.
    pub file: &'w str,
    pub output: Option<&'w str>,
    pub comments: bool,
    /// Without what only makes the text readable.
    pub dense: bool,
}

/// The words that there are.
pub fn command<'a>(alloc: Global) -> Result<Command<'a>, AllocError> {
    let emit = Command::new(alloc, "emit")
        .about("Writes the text of the parsers")
        .arg(file(alloc))?
        .arg(output(alloc))?
        .arg(flag(alloc, "comments", "Adds comments on states and productions"))?
        .arg(flag(
            alloc,
            "no-whitespace",
            "Leaves out what only makes the text readable",
        ))?;
    let run = Command::new(alloc, "run")
        .about("Writes the text, and the run of each token line behind the line `%%`")
        .arg(file(alloc))?;
    let check = Command::new(alloc, "check")
        .about("Writes nothing but how many states each parser has")
        .arg(file(alloc))?;
    Command::new(alloc, "lp_cli")
        .version("0.1.0")
        .about("LR(1) parsers in Rust from grammar files")
        .subcommand_required(true)
        .arg_required_else_help(true)
        .subcommand(emit)?
        .subcommand(run)?
        .subcommand(check)
}

fn file<'a>(alloc: Global) -> Arg<'a> {
    Arg::new(alloc, "FILE")
        .default_value("-")
        .help("The grammar file; `-` is standard input")
}

fn output<'a>(alloc: Global) -> Arg<'a> {
    Arg::new(alloc, "output")
        .short('o')
        .long("output")
        .value_name("OUT")
        .help("Where the text is written, whole or not at all")
}

fn flag<'a>(alloc: Global, name: &'a str, help: &'a str) -> Arg<'a> {
    Arg::new(alloc, name)
        .long(name)
        .action(ArgAction::SetTrue)
        .help(help)
}

/// What matched words ask for.
pub fn read_words<'w>(matches: &ArgMatches<'w>) -> Option<Asked<'w>> {
    let (name, words) = matches.subcommand()?;
    let verb = match name {
        "emit" => Verb::Emit,
        "run" => Verb::Run,
        _ => Verb::Check,
    };
    Some(Asked {
        verb,
        file: words.get_str("FILE").unwrap_or("-"),
        output: words.get_str("output"),
        comments: words.get_flag("comments"),
        dense: words.get_flag("no-whitespace"),
    })
}
