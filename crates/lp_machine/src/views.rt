//! What is read of a configuration.

ghost use Rattle.std.specs.Prelude.{◌≡◌, ◌+◌, ◌++◌, Some, None, [], ◌∷◌, length, take, slice_get, IfOk};
ghost use Rattle.lp_driver.specs.DriverState.{last_of};
ghost use Rattle.lp_machine.specs.ReductionSpan.{popped, below, empty_place, span};
ghost use Rattle.lp_machine.specs.StackMachine.{lookahead_start, lookahead_token, lookahead_terminal, result_at};

use crate::actions::{end_or, start_or};
use crate::config::{Config, Lookahead, Mending};
use crate::lists::{front, plus, popped, push, top, under};
use crate::terms::{Symbol, copied_token};
use lp_repr::text::Items;
use lp_repr::values::{Loc, ParseError, RunParseError, SpannedToken};
use std::alloc::{AllocError, Global};

type Triple = (Loc, Symbol, Loc);

/// From the first of these symbols to the last.
pub fn span(symbols: &[Triple], empty: Loc) -> (Loc, Loc)
    ensures { result ≡ span symbols.now empty }
{
    (
        start_or(symbols.first(), empty),
        end_or(symbols.last(), empty),
    )
}

/// Where an empty reduction stands.
pub fn empty_place(start: Option<Loc>, triples: &[Triple]) -> Loc
    ensures { result ≡ empty_place start triples.now }
{
    match start {
        Some(at) => at,
        None => end_or(triples.last(), Loc::Default),
    }
}

// Where the lookahead starts.
fn lookahead_start(lookahead: &Option<Lookahead>) -> Option<Loc>
    ensures { result ≡ lookahead_start lookahead.now }
{
    match lookahead {
        None => None,
        Some(l) => Some(l.token.0),
    }
}

// The number of the lookahead's terminal.
fn lookahead_terminal(lookahead: &Option<Lookahead>) -> Option<usize>
    ensures { result ≡ lookahead_terminal lookahead.now }
{
    match lookahead {
        None => None,
        Some(l) => Some(l.index),
    }
}

// A copy of the lookahead's token.
fn lookahead_token(
    alloc: Global,
    lookahead: &Option<Lookahead>,
) -> Result<Option<SpannedToken>, AllocError>
    ensures { IfOk result (λ token. token ≡ lookahead_token lookahead.now) }
{
    match lookahead {
        None => Ok(None),
        Some(l) => Ok(Some(copied_token(alloc, &l.token)?)),
    }
}

// A result before the end of the items is one token too much; while an error is mended it stands.
fn result_at(
    alloc: Global,
    mending: &Option<Mending>,
    lookahead: &Option<Lookahead>,
    value: Symbol,
) -> Result<Result<Symbol, RunParseError>, AllocError>
    ensures { IfOk result (λ r. r ≡ result_at mending.now lookahead.now value) }
{
    match mending {
        Some(_) => Ok(Ok(value)),
        None => match lookahead {
            None => Ok(Ok(value)),
            Some(l) => Ok(Err(ParseError::ExtraToken {
                token: copied_token(alloc, &l.token)?,
            })),
        },
    }
}

impl Config {
    /// The state on top.
    pub fn top_state(&self) -> Option<usize>
        ensures { result ≡ last_of self.now.states }
    {
        top(self.states.as_slice())
    }

    /// The state below the last n.
    pub fn state_below(&self, n: usize) -> Option<usize>
        ensures { result ≡ last_of (below n self.now.states) }
    {
        top(under(self.states.as_slice(), n))
    }

    /// The state at a place.
    pub fn state_at(&self, place: usize) -> Option<usize>
        ensures { result ≡ slice_get self.now.states place }
    {
        self.states.as_slice().get(place).copied()
    }

    /// How many states there are.
    pub fn height(&self) -> usize
        ensures { result ≡ length self.now.states }
    {
        self.states.as_slice().len()
    }

    /// The states up to a place, and one more.
    pub fn prefix_with(
        &self,
        alloc: Global,
        place: usize,
        to: usize,
    ) -> Result<Items<usize>, AllocError>
        ensures { IfOk result (λ stack. stack ≡ take (place + 1) self.now.states ++ to ∷ []) }
    {
        let prefix = front(self.states.as_slice(), plus(place, 1)?);
        let mut stack = Items(Vec::from_slice(alloc, prefix)?);
        push(&mut stack, to)?;
        Ok(stack)
    }

    /// Where the lookahead starts.
    pub fn lookahead_start(&self) -> Option<Loc>
        ensures { result ≡ lookahead_start self.now.lookahead }
    {
        lookahead_start(&self.lookahead)
    }

    /// The number of the lookahead's terminal.
    pub fn lookahead_terminal(&self) -> Option<usize>
        ensures { result ≡ lookahead_terminal self.now.lookahead }
    {
        lookahead_terminal(&self.lookahead)
    }

    /// A copy of the lookahead's token.
    pub fn lookahead_token(&self, alloc: Global) -> Result<Option<SpannedToken>, AllocError>
        ensures { IfOk result (λ token. token ≡ lookahead_token self.now.lookahead) }
    {
        lookahead_token(alloc, &self.lookahead)
    }

    /// Where an empty reduction stands.
    pub fn empty_place(&self) -> Loc
        ensures { result ≡ empty_place (lookahead_start self.now.lookahead) self.now.triples }
    {
        empty_place(self.lookahead_start(), self.triples.as_slice())
    }

    /// Where a reduction of n symbols stands.
    pub fn span(&self, n: usize) -> (Loc, Loc)
        ensures { result ≡ span (popped n self.now.triples) (empty_place (lookahead_start self.now.lookahead) self.now.triples) }
    {
        span(popped(&self.triples, n), self.empty_place())
    }

    /// How a run ends with a result.
    pub fn result_at(
        &self,
        alloc: Global,
        value: Symbol,
    ) -> Result<Result<Symbol, RunParseError>, AllocError>
        ensures { IfOk result (λ r. r ≡ result_at self.now.mending self.now.lookahead value) }
    {
        result_at(alloc, &self.mending, &self.lookahead, value)
    }
}
