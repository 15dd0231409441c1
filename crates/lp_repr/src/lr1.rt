//! LR(1) states, which name terminals, productions and nonterminals by number.

ghost use Rattle.std.specs.Prelude.{Some, codes};
ghost use Rattle.std.specs.List.{join_by};
ghost use Rattle.std.specs.Fmt.{WritesOnOk};
ghost use Rattle.lp_repr.specs.ShownItems.{named_token_text, dotted_text, item_text};

use crate::joined::write_after_each;
use crate::repr::{NonterminalString, Production, Symbol, TerminalSet};
use crate::text::Items;
use std::collections::BTreeMap;
use std::fmt;
use std::fmt::Display;

/// What a parser may see next.
#[derive(Clone, Copy, PartialEq, Eq, PartialOrd, Ord)]
pub enum Token {
    Terminal(usize),
    /// The end of input.
    Eof,
}

/// A production with a dot before one of its symbols or at its end, and what may follow it.
#[derive(Clone, Drop)]
pub struct Item {
    pub production: usize,
    /// How many symbols stand before the dot.
    pub index: usize,
    pub lookahead: Items<Token>,
}

/// A state of the LR(1) automaton: its items, and what is done there on each symbol.
#[derive(Drop)]
pub struct Lr1State {
    pub items: Items<Item>,
    /// From a terminal to the state that it is shifted to.
    pub shifts: BTreeMap<usize, usize>,
    /// A production, and the tokens on which it is reduced.
    pub reductions: Items<(Items<Token>, usize)>,
    /// From a nonterminal to the state after it.
    pub gotos: BTreeMap<usize, usize>,
}

/// The states of one start.
#[derive(Drop)]
pub struct StartStates {
    /// The public name.
    pub start: NonterminalString,
    pub states: Items<Lr1State>,
}

/// A token with its name: a terminal as it is shown, the end of input as `EOF`. A number of no
/// terminal shows nothing.
#[derive(Clone, Copy)]
pub struct ShownToken<'a> {
    pub terminals: &'a TerminalSet,
    pub token: Token,
}

impl fmt::Display for ShownToken<'_> {
    ghost output = { λ x. Some (named_token_text x.terminals.now x.token) };

    fn fmt<W: fmt::Write>(&self, f: &mut fmt::Formatter<W>) -> fmt::Result {
        write_token(f, self.terminals, &self.token)
    }
}

/// An item with its names, as `N = s (*) t [lookaheads]`. The production is the one that the item
/// names by number.
#[derive(Clone, Copy)]
pub struct ShownItem<'a> {
    pub terminals: &'a TerminalSet,
    pub production: &'a Production,
    pub item: &'a Item,
}

impl fmt::Display for ShownItem<'_> {
    ghost output = { λ x. Some (item_text x.terminals.now x.production.now x.item.now) };

    fn fmt<W: fmt::Write>(&self, f: &mut fmt::Formatter<W>) -> fmt::Result {
        self.production.nonterminal.fmt(f)?;
        f.write_str(" =")?;
        write_dotted(f, self.item.index, self.production.symbols.as_slice())?;
        f.write_str(" [")?;
        write_tokens(f, self.terminals, self.item.lookahead.as_slice())?;
        f.write_str("]")
    }
}

/// ` s (*) t`
fn write_dotted<W: fmt::Write>(
    f: &mut fmt::Formatter<W>,
    index: usize,
    symbols: &[Symbol],
) -> fmt::Result
    ensures { WritesOnOk W.write_str_gives f.old result (dotted_text index symbols.now) f.new }
{
    let dot = index.min(symbols.len());
    write_after_each(f, &symbols[..dot], " ")?;
    f.write_str(" (*)")?;
    write_after_each(f, &symbols[dot..], " ")
}

/// The tokens with their names, joined by `, `.
fn write_tokens<W: fmt::Write>(
    f: &mut fmt::Formatter<W>,
    terminals: &TerminalSet,
    tokens: &[Token],
) -> fmt::Result
    ensures { WritesOnOk W.write_str_gives f.old result (join_by (named_token_text terminals.now) (codes ", ") tokens.now) f.new }
{
    let mut separator = "";
    for token in tokens {
        f.write_str(separator)?;
        write_token(f, terminals, token)?;
        separator = ", ";
    }
    Ok(())
}

/// The token with its name.
fn write_token<W: fmt::Write>(
    f: &mut fmt::Formatter<W>,
    terminals: &TerminalSet,
    token: &Token,
) -> fmt::Result
    ensures { WritesOnOk W.write_str_gives f.old result (named_token_text terminals.now token.now) f.new }
{
    match token {
        Token::Eof => f.write_str("EOF"),
        Token::Terminal(number) => match terminals.all.as_slice().get(*number) {
            None => Ok(()),
            Some(terminal) => terminal.fmt(f),
        },
    }
}
