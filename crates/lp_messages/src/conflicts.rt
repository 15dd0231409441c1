//! Starts without states: two actions on a token, or too many states.

use crate::items::items_after;
use crate::page::Message;
use lp_repr::numbering::productions;
use lp_repr::repr::{Grammar, NonterminalString, Production, Symbol};
use lp_repr::{ShownToken, Token};
use lp_syntax::PlainGrammar;
use lp_types::Span;
use std::alloc::{AllocError, Global};
use std::collections::BTreeSet;

/// The most items that are shown.
const MOST_SHOWN: usize = 8;

/// Two actions on a token, with the items that give them.
pub fn conflict_message(
    alloc: Global,
    plain: &PlainGrammar,
    grammar: &Grammar,
    start: usize,
    path: &[Symbol],
    token: Token,
) -> Result<Message, AllocError> {
    let found = token_text(alloc, grammar, token)?;
    let found = found.as_str();
    let title = format!(in alloc; "two actions on {found}")?;
    let mut message = Message::new(alloc, None, title);
    if let Some((public, nonterminal)) = grammar.start_nonterminals.iter().nth(start) {
        let behind = words_of(alloc, path)?;
        let behind = behind.as_str();
        let note = if path.is_empty() {
            format!(in alloc; "at the beginning of `{public}`, where {found} comes")?
        } else {
            format!(in alloc; "in `{public}`, behind {behind}, where {found} comes")?
        };
        message.note(alloc, "note", note.as_str())?;
        add_items(
            alloc,
            &mut message,
            plain,
            grammar,
            nonterminal,
            path,
            token,
        )?;
    }
    message.note(
        alloc,
        "help",
        "let the rules say which is meant, as a rule for each level of operators does",
    )?;
    Ok(message)
}

/// Adds the items that act on the token after the path, and the place of the rule of the last.
fn add_items(
    alloc: Global,
    message: &mut Message,
    plain: &PlainGrammar,
    grammar: &Grammar,
    nonterminal: &NonterminalString,
    path: &[Symbol],
    token: Token,
) -> Result<(), AllocError> {
    let productions = productions(alloc, grammar)?;
    let mut seen = BTreeSet::new(alloc);
    let items = items_after(alloc, grammar, nonterminal, path)?;
    for (item, lookahead) in items.as_slice() {
        let Some(production) = productions.as_slice().get(item.0) else {
            continue;
        };
        let production: &Production = *production;
        let action = action_of(grammar, production, item.1, token, *lookahead);
        if action.is_empty() || seen.len() >= MOST_SHOWN || !seen.insert(*item)? {
            continue;
        }
        let shown = dotted(alloc, production, item.1)?;
        message.note(alloc, action, shown.as_str())?;
        message.span = rule_span(plain, &production.nonterminal).or(message.span);
    }
    Ok(())
}

/// What an item does on a token: nothing, `shift` or `reduce`.
fn action_of(
    grammar: &Grammar,
    production: &Production,
    dot: usize,
    token: Token,
    lookahead: Token,
) -> &'static str {
    match production.symbols.as_slice().get(dot) {
        None if token == lookahead => "reduce",
        Some(Symbol::Terminal(terminal)) => {
            let Token::Terminal(number) = token else {
                return "";
            };
            match grammar.terminals.all.as_slice().get(number) {
                Some(wanted) if wanted == terminal => "shift",
                _ => "",
            }
        }
        _ => "",
    }
}

/// A production with a dot, between backquotes.
fn dotted(alloc: Global, production: &Production, dot: usize) -> Result<String, AllocError> {
    let name = &production.nonterminal;
    let mut text = format!(in alloc; "`{name} =")?;
    for (place, symbol) in production.symbols.as_slice().iter().enumerate() {
        let mark = if place == dot { " •" } else { "" };
        text.push_str(format!(in alloc; "{mark} {symbol}")?.as_str())?;
    }
    if dot >= production.symbols.as_slice().len() {
        text.push_str(" •")?;
    }
    text.push('`')?;
    Ok(text)
}

/// The name of a rule, where it stands.
fn rule_span(plain: &PlainGrammar, name: &NonterminalString) -> Option<Span> {
    for rule in plain.rules.as_slice() {
        if rule.name == *name {
            let end = rule.place.saturating_add(name.0.as_str().len());
            return Some(Span(rule.place, end));
        }
    }
    None
}

/// A token as words.
fn token_text(alloc: Global, grammar: &Grammar, token: Token) -> Result<String, AllocError> {
    match token {
        Token::Eof => String::from_str(alloc, "the end of the tokens"),
        Token::Terminal(_) => {
            let shown = ShownToken {
                terminals: &grammar.terminals,
                token,
            };
            format!(in alloc; "`{shown}`")
        }
    }
}

/// Symbols as words, between backquotes.
fn words_of(alloc: Global, symbols: &[Symbol]) -> Result<String, AllocError> {
    let mut words = String::from_str(alloc, "`")?;
    let mut blank = "";
    for symbol in symbols {
        words.push_str(format!(in alloc; "{blank}{symbol}")?.as_str())?;
        blank = " ";
    }
    words.push('`')?;
    Ok(words)
}

/// More states than there may be.
pub fn too_many_message(
    alloc: Global,
    plain: &PlainGrammar,
    grammar: &Grammar,
    start: usize,
    count: usize,
) -> Result<Message, AllocError> {
    let title = match grammar.start_nonterminals.keys().nth(start) {
        None => format!(in alloc; "a parser has {count} states or more")?,
        Some(name) => format!(in alloc; "the parser of `{name}` has {count} states or more")?,
    };
    let name = grammar.start_nonterminals.keys().nth(start);
    let span = name.and_then(|name| rule_span(plain, name));
    let mut message = Message::new(alloc, span, title);
    message.note(alloc, "note", "4,096 may be; tables are canonical LR(1)")?;
    message.note(
        alloc,
        "help",
        "a rule that is used in many places has its states in each: use it in fewer, or part the grammar",
    )?;
    Ok(message)
}
