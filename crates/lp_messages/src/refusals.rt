//! Grammars that lower, and for which no parser is written.

use crate::page::Message;
use lp_emit::EmitError;
use lp_repr::Text;
use lp_repr::repr::{ActionFnDefnKind, Grammar};
use lp_syntax::{PlainGrammar, PlainKind};
use lp_texts::{TextKind, TextPlace};
use lp_tok::{Tok, Tokenizer};
use lp_types::Span;
use std::alloc::{AllocError, Global};

/// The rules of valid grammars, by number from 1, as they are told where one fails.
const RULES: &[(&str, &str)] = &[
    (
        "a start has not one production of one symbol",
        "a start stands on no right side",
    ),
    (
        "a name that may not stand here",
        "names of starts and parameters are identifiers",
    ),
    (
        "a name holds the prefix of the names that the text makes itself",
        "take another name",
    ),
    (
        "a production stands twice, or names what isn't declared",
        "leave one of the two out",
    ),
    (
        "a symbol without a type, or a terminal without a pattern",
        "declare the terminal in the block `extern`",
    ),
    (
        "an action takes another number of symbols than its production has",
        "write the alternative anew",
    ),
    (
        "an inline rule without symbols, or one that uses itself",
        "leave out `#[inline]`",
    ),
    (
        "an inline rule that may fail where it isn't expected to",
        "leave out `#[inline]`",
    ),
    (
        "the error terminal isn't the last one",
        "write `!` for it alone",
    ),
    ("a terminal stands twice", "leave one of the two out"),
];

/// Why no parser is written.
pub fn refusal_message(
    alloc: Global,
    text: &str,
    plain: &PlainGrammar,
    grammar: &Grammar,
    error: &EmitError,
) -> Result<Message, AllocError> {
    match error {
        EmitError::NoStart => said(
            alloc,
            first_rule(plain),
            "no rule is public",
            "write `pub` in front of each rule that is to have a parser",
        ),
        EmitError::Unsupported => said(
            alloc,
            None,
            "both back ends at once",
            "take `#[table_driven]` or `#[recursive_ascent]`",
        ),
        EmitError::BadGrammar { rule, place } => bad_grammar(alloc, text, grammar, *rule, *place),
        EmitError::RecoveryInAscent => said(
            alloc,
            error_symbol(plain),
            "`!` under `#[recursive_ascent]`",
            "leave out `#[recursive_ascent]`: table-driven parsers recover from errors",
        ),
        EmitError::NameClash { first, second } => name_clash(alloc, grammar, *first, *second),
        EmitError::TooMany { count } => {
            let title = format!(in alloc; "{count} states or right sides")?;
            let mut message = Message::new(alloc, None, title);
            message.note(alloc, "note", "2,147,483,647 of each may be")?;
            Ok(message)
        }
        EmitError::BadTables { start, state, rule } => {
            let title = format!(in alloc;
                "state {state} of start {start} breaks rule {rule} of tables"
            )?;
            Ok(Message::new(alloc, None, title))
        }
        EmitError::BadText { place, byte } => bad_text(alloc, text, grammar, *place, *byte),
        EmitError::WriteFault => said(alloc, None, "a write failed", ""),
        EmitError::Memory => Err(AllocError),
    }
}

fn said(alloc: Global, span: Option<Span>, title: &str, help: &str) -> Result<Message, AllocError> {
    let mut message = Message::new(alloc, span, String::from_str(alloc, title)?);
    message.note(alloc, "help", help)?;
    Ok(message)
}

/// The name of the first rule.
fn first_rule(plain: &PlainGrammar) -> Option<Span> {
    let rule = plain.rules.as_slice().first()?;
    let length = rule.name.0.as_str().len();
    Some(Span(rule.place, rule.place.saturating_add(length)))
}

/// The first `!` among the symbols of the rules.
fn error_symbol(plain: &PlainGrammar) -> Option<Span> {
    for rule in plain.rules.as_slice() {
        for alternative in rule.alternatives.as_slice() {
            for symbol in alternative.symbols.as_slice() {
                if matches!(&symbol.kind, PlainKind::Error) {
                    return Some(Span(symbol.place, symbol.place.saturating_add(1)));
                }
            }
        }
    }
    None
}

/// A rule of valid grammars fails.
fn bad_grammar(
    alloc: Global,
    text: &str,
    grammar: &Grammar,
    rule: u8,
    place: usize,
) -> Result<Message, AllocError> {
    let starts = grammar.start_nonterminals.len();
    let parameters = grammar.parameters.as_slice();
    if rule == 2 && place >= starts {
        if let Some(parameter) = parameters.get(place.saturating_sub(starts)) {
            let name = parameter.name.as_str();
            let title = format!(in alloc; "a parameter can't be named `{name}`")?;
            let mut message = Message::new(alloc, named_in(text, name), title);
            message.note(alloc, "help", "take another name, in the codes too")?;
            return Ok(message);
        }
    }
    let number = usize::from(rule).saturating_sub(1);
    let (title, help) = rule_words()
        .get(number)
        .copied()
        .unwrap_or(("no grammar", ""));
    said(alloc, None, title, help)
}

fn rule_words() -> &'static [(&'static str, &'static str)] {
    RULES
}

/// The first name before a `:` that is this one.
fn named_in(text: &str, name: &str) -> Option<Span> {
    let mut tokens = Tokenizer::new(text, 0);
    let mut last = None;
    while let Some(Ok((from, token, end))) = tokens.next() {
        if last.is_some() && matches!(&token, Tok::Colon) {
            return last;
        }
        last = match token {
            Tok::Id(word) if word == name => Some(Span(from, end)),
            _ => None,
        };
    }
    None
}

/// Two rules whose names are printed alike.
fn name_clash(
    alloc: Global,
    grammar: &Grammar,
    first: usize,
    second: usize,
) -> Result<Message, AllocError> {
    let one = grammar.nonterminals.keys().nth(first);
    let other = grammar.nonterminals.keys().nth(second);
    let title = match (one, other) {
        (Some(one), Some(other)) => {
            format!(in alloc; "the rules `{one}` and `{other}` have one name in the text")?
        }
        _ => String::from_str(alloc, "two rules have one name in the text")?,
    };
    let mut message = Message::new(alloc, None, title);
    message.note(
        alloc,
        "help",
        "take another name for one of them, or leave out `#[recursive_ascent]`",
    )?;
    Ok(message)
}

/// A text that breaks the rule of its kind, and its first wrong byte.
fn bad_text(
    alloc: Global,
    text: &str,
    grammar: &Grammar,
    place: TextPlace,
    byte: usize,
) -> Result<Message, AllocError> {
    let found = text_of(alloc, grammar, place)?;
    let found = found.as_str();
    let (title, help) = kind_words(place.kind);
    let span = match text.find(found) {
        Some(at) if !found.is_empty() => {
            let wrong = at.saturating_add(byte.min(found.len()));
            Some(Span(wrong, wrong))
        }
        _ => None,
    };
    if found.is_empty() {
        return said(
            alloc,
            None,
            "the texts of the grammar don't fit together",
            "a pattern, a name or the beginning of a code reads as another part of the text",
        );
    }
    let mut message = Message::new(alloc, span, String::from_str(alloc, title)?);
    let note = format!(in alloc; "`{found}`, from its byte {byte} on")?;
    message.note(alloc, "note", note.as_str())?;
    message.note(alloc, "help", help)?;
    Ok(message)
}

/// What breaks the rule of a kind of texts, and what to do.
fn kind_words(kind: TextKind) -> (&'static str, &'static str) {
    match kind {
        TextKind::Use => (
            "a `use` that isn't closed",
            "close its brackets and comments before the `;`",
        ),
        TextKind::Attribute => (
            "an attribute over several lines",
            "write `#![..]` on one line",
        ),
        TextKind::Terminal => (
            "a terminal whose name can't be printed",
            "a terminal has no line end, and not `\"###`",
        ),
        TextKind::Nonterminal => (
            "a rule whose name can't be printed",
            "a rule's name has no line end",
        ),
        TextKind::Pattern => (
            "a pattern that isn't one line of text",
            "close its brackets and quotes, and let holes stand apart from words and outside of quotes",
        ),
        TextKind::TypeText => (
            "a type that isn't one line of text",
            "close its brackets and quotes on one line",
        ),
        TextKind::Code => (
            "a code that isn't closed",
            "close its brackets, quotes and comments; a comment `//` hides what stands behind it",
        ),
    }
}

/// The text of a kind and number, where a grammar file has it as it stands.
fn text_of(alloc: Global, grammar: &Grammar, place: TextPlace) -> Result<String, AllocError> {
    let number = place.number;
    match place.kind {
        TextKind::Use => copied(alloc, grammar.uses.as_slice().get(number)),
        TextKind::Attribute => copied(alloc, grammar.module_attributes.as_slice().get(number)),
        TextKind::Nonterminal => match grammar.nonterminals.keys().nth(number) {
            None => Ok(String::new(alloc)),
            Some(name) => copied(alloc, Some(&name.0)),
        },
        TextKind::Code => code_of(alloc, grammar, number),
        TextKind::Terminal => match grammar.terminals.all.as_slice().get(number) {
            None => Ok(String::new(alloc)),
            Some(terminal) => terminal.to_string(alloc),
        },
        TextKind::Pattern => match grammar.conversions.values().nth(number) {
            None => Ok(String::new(alloc)),
            Some(pattern) => pattern.to_string(alloc),
        },
        TextKind::TypeText => String::from_str(alloc, "a type"),
    }
}

/// A copy of a text, or nothing where there is none.
fn copied(alloc: Global, text: Option<&Text>) -> Result<String, AllocError> {
    match text {
        None => Ok(String::new(alloc)),
        Some(text) => String::from_str(alloc, text.as_str()),
    }
}

/// The code of an action, or nothing where it has none of a file.
fn code_of(alloc: Global, grammar: &Grammar, number: usize) -> Result<String, AllocError> {
    match grammar.action_fn_defns.as_slice().get(number) {
        None => Ok(String::new(alloc)),
        Some(action) => match &action.kind {
            ActionFnDefnKind::User { code, .. } => copied(alloc, Some(code)),
            _ => Ok(String::new(alloc)),
        },
    }
}
