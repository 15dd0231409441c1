//! What stands in LR states and among terminals.

ghost use Rattle.std.specs.Prelude.{◌≡◌, ℕ, ◌++◌, length, position, IfOk};
ghost use Rattle.std.specs.List.{list_any};
ghost use Rattle.lp_machine.specs.Lookup.{same_token, shift_in, reduction_at, reduction_in, act_in, act_at, goto_at, terminal_in, payload, payloads_upto, value_with};
ghost use Rattle.lp_driver.specs.Values.{value_of};

use crate::terms::copied_text;
use lp_repr::lr1::{Lr1State, Token};
use lp_repr::text::{Items, Text};
use lp_repr::values::{Term, TokenValue};
use std::alloc::{AllocError, Global};

/// What a state does on a token.
#[derive(Clone, Copy)]
pub enum Act {
    /// Shifts to a state.
    Shift(usize),
    /// Reduces by a production.
    ReduceBy(usize),
    NoAction,
}

/// A production by numbers.
#[derive(Clone, Copy)]
pub struct Rule {
    /// How many symbols it has.
    pub length: usize,
    pub nonterminal: usize,
    pub action: usize,
    /// Its nonterminal is a start.
    pub is_start: bool,
}

/// A terminal: how it is printed, and the form of its tokens.
#[derive(Drop)]
pub struct KnownTerminal {
    pub name: Text,
    pub form: Text,
    /// How many payloads its tokens have.
    pub captures: usize,
}

fn same_token(a: Token, b: Token) -> bool
    ensures { result ≡ same_token a b }
{
    match a {
        Token::Terminal(m) => match b {
            Token::Terminal(n) => m == n,
            Token::Eof => false,
        },
        Token::Eof => match b {
            Token::Terminal(_) => false,
            Token::Eof => true,
        },
    }
}

fn shift_in(state: &Lr1State, token: Token) -> Option<usize>
    ensures { result ≡ shift_in state.now token }
{
    match token {
        Token::Terminal(t) => state.shifts.get(&t).copied(),
        Token::Eof => None,
    }
}

fn has_token(tokens: &[Token], token: Token) -> bool
    ensures { result ≡ list_any (λ t. same_token t token) tokens.now }
{
    tokens.iter().any(|t| same_token(*t, token))
}

fn reduction_place(reductions: &[(Items<Token>, usize)], token: Token) -> Option<usize>
    ensures { result ≡ position (λ r. list_any (λ t. same_token t token) r.0) reductions.now }
{
    reductions
        .iter()
        .position(|r| has_token(r.0.as_slice(), token))
}

fn reduction_at(reductions: &[(Items<Token>, usize)], place: Option<usize>) -> Act
    ensures { result ≡ reduction_at reductions.now place }
{
    match place {
        None => Act::NoAction,
        Some(i) => match reductions.get(i) {
            None => Act::NoAction,
            Some(r) => Act::ReduceBy(r.1),
        },
    }
}

fn reduction_in(reductions: &[(Items<Token>, usize)], token: Token) -> Act
    ensures { result ≡ reduction_in reductions.now token }
{
    reduction_at(reductions, reduction_place(reductions, token))
}

fn act_in(state: &Lr1State, token: Token) -> Act
    ensures { result ≡ act_in (Some state.now) token }
{
    match shift_in(state, token) {
        Some(to) => Act::Shift(to),
        None => reduction_in(state.reductions.as_slice(), token),
    }
}

/// What a state does on a token. A shift is looked up before a reduction.
pub fn act_at(states: &[Lr1State], state: usize, token: Token) -> Act
    ensures { result ≡ act_at states.now state token }
{
    match states.get(state) {
        None => Act::NoAction,
        Some(state) => act_in(state, token),
    }
}

/// The state after a state and a nonterminal.
pub fn goto_at(states: &[Lr1State], state: usize, nonterminal: usize) -> Option<usize>
    ensures { result ≡ goto_at states.now state nonterminal }
{
    match states.get(state) {
        None => None,
        Some(state) => state.gotos.get(&nonterminal).copied(),
    }
}

/// The first terminal whose form a token has.
pub fn terminal_in(terminals: &[KnownTerminal], token: &TokenValue) -> Option<usize>
    ensures { result ≡ terminal_in terminals.now token.now }
{
    terminals
        .iter()
        .position(|t| t.form.as_str() == token.form.as_str())
}

// The payload of a number, which is empty where the token has fewer.
fn payload(alloc: Global, token: &TokenValue, j: usize) -> Result<Text, AllocError>
    ensures { IfOk result (λ t. t ≡ payload token.now j) }
{
    match token.payloads.as_slice().get(j) {
        None => Text::from_str(alloc, ""),
        Some(text) => copied_text(text),
    }
}

fn payloads_upto(alloc: Global, n: usize, token: &TokenValue) -> Result<Items<Text>, AllocError>
    ensures { IfOk result (λ l. l ≡ payloads_upto n token.now) }
{
    let mut texts = Vec::new(alloc);
    for j in 0..n {
        texts.push(payload(alloc, token, j)?)?;
    }
    Ok(Items(texts))
}

/// The value of a token of a terminal with so many captures.
pub fn value_with(alloc: Global, n: usize, token: TokenValue) -> Result<Term, AllocError>
    ensures { IfOk result (λ term. value_of term ≡ value_with n token) }
{
    if n == 0 {
        return Ok(Term::Token(token));
    }
    if n == 1 {
        return Ok(Term::Payload(payload(alloc, &token, 0)?));
    }
    Ok(Term::Tuple(payloads_upto(alloc, n, &token)?))
}
