//! Types, clauses, patterns and grammars that stand alone, at place 7.

use lp_plain::{PlainError, PlainGrammar, PlainRule, Top, parse_top, place_of};
use lp_repr::repr::{TokenPattern, WhereClause};
use lp_tok::Tok;
use std::alloc::{AllocError, Global};

/// The place of each text.
const OFFSET: usize = 7;

/// What a part is read as, or where it is refused.
pub fn shown_part(alloc: Global, word: &str, part: &str) -> Result<String, AllocError> {
    match first_of(word) {
        Some(first) => shown_read(alloc, &parse_top(alloc, first, part, OFFSET)),
        None => String::from_str(alloc, "no such word"),
    }
}

/// The token that stands for what is asked for.
fn first_of(word: &str) -> Option<Tok<'static>> {
    match word {
        "type" => Some(Tok::StartTypeRef),
        "clauses" => Some(Tok::StartGrammarWhereClauses),
        "pattern" => Some(Tok::StartPattern),
        "grammar" => Some(Tok::StartGrammar),
        _ => None,
    }
}

fn shown_read(alloc: Global, read: &Result<Top, PlainError<'_>>) -> Result<String, AllocError> {
    match read {
        Ok(top) => shown_top(alloc, top),
        Err(error) => shown_error(alloc, error),
    }
}

fn shown_error(alloc: Global, error: &PlainError<'_>) -> Result<String, AllocError> {
    match error {
        PlainError::Parse(error) => shown_place(alloc, place_of(error)),
        PlainError::Memory => Err(AllocError),
    }
}

fn shown_place(alloc: Global, place: usize) -> Result<String, AllocError> {
    format!(in alloc; "refused at {place}")
}

fn shown_top(alloc: Global, top: &Top) -> Result<String, AllocError> {
    match top {
        Top::TypeRef(ty) => format!(in alloc; "{ty}"),
        Top::GrammarWhereClauses(clauses) => shown_clauses(alloc, clauses.as_slice()),
        Top::Pattern(pattern) => shown_pattern(alloc, pattern),
        Top::Grammar(grammar) => shown_places(alloc, grammar),
    }
}

/// Clauses with `;` behind each.
fn shown_clauses(alloc: Global, clauses: &[WhereClause]) -> Result<String, AllocError> {
    let mut shown = String::new(alloc);
    for clause in clauses {
        write!(shown, "{clause};")?;
    }
    Ok(shown)
}

/// A pattern with `_` in its holes, and the types of these.
fn shown_pattern(alloc: Global, pattern: &TokenPattern) -> Result<String, AllocError> {
    let mut shown = format!(in alloc; "{pattern}")?;
    for hole in pattern.holes.as_slice() {
        write!(shown, ", {hole}")?;
    }
    Ok(shown)
}

/// The prefix of a grammar, and where its rules begin.
fn shown_places(alloc: Global, grammar: &PlainGrammar) -> Result<String, AllocError> {
    let prefix = &grammar.prefix;
    let mut shown = format!(in alloc; "prefix {prefix}")?;
    for rule in grammar.rules.as_slice() {
        show_rule(&mut shown, rule)?;
    }
    Ok(shown)
}

fn show_rule(out: &mut String, rule: &PlainRule) -> Result<(), AllocError> {
    let name = &rule.name;
    let place = rule.place;
    write!(out, ", {name} at {place}")
}
