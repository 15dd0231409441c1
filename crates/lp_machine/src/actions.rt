//! What an action does: the calls of user code that it makes, and what it gives.

ghost use Rattle.std.specs.Prelude.{◌≡◌, ◌==◌, ℕ, ◌+◌, ◌-◌, ◌^◌, ◌<◌, ◌≤◌, ◌++◌, [], length, take, drop, IfOk, string_bytes, slice_get};
ghost use Rattle.std.specs.Option.{option_copied};
ghost use Rattle.std.specs.List.{list_any};
ghost use Rattle.lp_driver.specs.Values.{value_of};
ghost use Rattle.lp_driver.specs.RecoveryTurns.{start_or, end_or};
ghost use Rattle.lp_machine.specs.ActionMeaning.{act, place_of, inlined_start, inlined_end, inlined_span, inline_from, call_result, user_call, gives, meaning_at};

use crate::calls::{Acted, Call};
use crate::lists::{append, back, front, none, number_after, plus, push};
use crate::terms::{Symbol, copied_texts, copied_triples};
use lp_repr::norm;
use lp_repr::repr::{ActionFnDefn, ActionFnDefnKind, InlinedSymbol, LookaroundActionFn};
use lp_repr::text::{Items, Text};
use lp_repr::values::{Loc, ParseError, RunParseError, Term, UserError};
use std::alloc::{AllocError, Global};

type Triple = (Loc, Symbol, Loc);

/// The actions of a grammar, with the values of its parameters and the calls that are to fail.
#[derive(Drop)]
pub struct Actions<'g> {
    pub actions: &'g [ActionFnDefn],
    pub params: Items<Text>,
    pub failing: &'g [u64],
}

fn place_of(args: &[Triple], place: (Loc, Loc)) -> Option<(Loc, Loc)>
    ensures { result ≡ place_of args.now place }
{
    if args.is_empty() { Some(place) } else { None }
}

/// Where a triple starts, else this.
pub fn start_or(triple: Option<&Triple>, otherwise: Loc) -> Loc
    ensures { result ≡ start_or (option_copied triple.entry) otherwise }
{
    match triple {
        Some(t) => t.0,
        None => otherwise,
    }
}

/// Where a triple ends, else this.
pub fn end_or(triple: Option<&Triple>, otherwise: Loc) -> Loc
    ensures { result ≡ end_or (option_copied triple.entry) otherwise }
{
    match triple {
        Some(t) => t.2,
        None => otherwise,
    }
}

// Where an inlined symbol with k of the flat arguments starts, from number i on.
fn inlined_start(args: &[Triple], i: usize, k: usize, otherwise: Loc) -> Loc
    ensures { result ≡ inlined_start args.now i k otherwise }
{
    if k == 0 {
        if i == 0 {
            start_or(args.get(0), otherwise)
        } else {
            end_or(args.get(i - 1), otherwise)
        }
    } else {
        start_or(args.get(i), otherwise)
    }
}

// Where it ends.
fn inlined_end(args: &[Triple], i: usize, k: usize, otherwise: Loc) -> Loc
    requires { i + k < 2 ^ 64 }
    ensures { result ≡ inlined_end args.now i k otherwise }
{
    if k == 0 {
        start_or(args.get(i), end_or(args.last(), otherwise))
    } else {
        end_or(args.get(i + k - 1), otherwise)
    }
}

fn inlined_span(args: &[Triple], i: usize, k: usize, place: (Loc, Loc)) -> (Loc, Loc)
    requires { i + k < 2 ^ 64 }
    ensures { result ≡ inlined_span args.now i k place }
{
    let start = inlined_start(args, i, k, place.0);
    let end = inlined_end(args, i, k, place.1);
    (start, end)
}

fn is_listed(failing: &[u64], n: u64) -> bool
    ensures { result ≡ list_any (λ k. k == n) failing.now }
{
    failing.iter().any(|k| *k == n)
}

fn call_result(failing: &[u64], fallible: bool, n: u64) -> Result<Symbol, RunParseError>
    ensures { result ≡ call_result failing.now fallible n }
{
    if fallible && is_listed(failing, n) {
        Err(ParseError::User {
            error: UserError::Call(n),
        })
    } else {
        Ok(Symbol::new(Term::Result(n)))
    }
}

fn gives(alloc: Global, term: Term) -> Acted
    ensures { result ≡ gives (value_of term) }
{
    Acted {
        calls: none(alloc),
        result: Ok(Symbol::new(term)),
    }
}

// So many arguments from number i on.
fn share(args: &[Triple], i: usize, k: usize) -> &[Triple]
    ensures { result.now ≡ take k (drop i args.now) }
{
    front(back(args, i), k)
}

// Copies of these at the end.
fn give(alloc: Global, given: &mut Items<Triple>, args: &[Triple]) -> Result<(), AllocError>
    ensures { IfOk result (λ _. given.new ≡ given.old ++ args.now) }
{
    append(given, copied_triples(alloc, args)?)
}

impl Actions<'_> {
    // A call of user code.
    fn user_call(
        &self,
        alloc: Global,
        fallible: bool,
        code: &Text,
        args: &[Triple],
        place: (Loc, Loc),
        n: u64,
    ) -> Result<Acted, AllocError>
        ensures { IfOk result (λ acted. acted ≡ user_call self.now.params self.now.failing.now fallible code.now args.now place n) }
    {
        let call = Call {
            number: n,
            code: Text::from_str(alloc, norm(code.as_str()))?,
            params: copied_texts(alloc, self.params.as_slice())?,
            args: copied_triples(alloc, args)?,
            place: place_of(args, place),
        };
        let mut calls = Vec::new(alloc);
        calls.push(call)?;
        Ok(Acted {
            calls: Items(calls),
            result: call_result(self.failing, fallible, n),
        })
    }

    fn definition(&self, action: usize) -> Option<&ActionFnDefn>
        ensures { option_copied result ≡ slice_get self.now.actions.now action }
    {
        self.actions.get(action)
    }

    /// What an action does to these triples, at a place where it has none, when n calls were made
    /// before. Its inlined actions nest less than `depth` deep.
    #[cycle(act)]
    pub fn act(
        &self,
        alloc: Global,
        depth: usize,
        action: usize,
        args: &[Triple],
        place: (Loc, Loc),
        n: u64,
    ) -> Result<Acted, AllocError>
        ensures { IfOk result (λ acted. acted ≡ act self.now.params self.now.failing.now depth self.now.actions.now action args.now place n) }
    {
        if depth == 0 {
            return Ok(gives(alloc, Term::Location(place.0)));
        }
        self.meaning_at(alloc, depth - 1, self.definition(action), args, place, n)
    }

    // What an action does, where it is there.
    #[cycle(act)]
    fn meaning_at(
        &self,
        alloc: Global,
        depth: usize,
        definition: Option<&ActionFnDefn>,
        args: &[Triple],
        place: (Loc, Loc),
        n: u64,
    ) -> Result<Acted, AllocError>
        ensures { IfOk result (λ acted. acted ≡ meaning_at self.now.params self.now.failing.now (act self.now.params self.now.failing.now depth self.now.actions.now) (option_copied definition.entry) args.now place n) }
    {
        let Some(definition) = definition else {
            return Ok(gives(alloc, Term::Location(place.0)));
        };
        match &definition.kind {
            ActionFnDefnKind::User { code, .. } => {
                self.user_call(alloc, definition.fallible, code, args, place, n)
            }
            ActionFnDefnKind::Lookaround(LookaroundActionFn::Lookahead) => {
                Ok(gives(alloc, Term::Location(place.1)))
            }
            ActionFnDefnKind::Lookaround(LookaroundActionFn::Lookbehind) => {
                Ok(gives(alloc, Term::Location(place.0)))
            }
            ActionFnDefnKind::Inline { action, symbols } => {
                self.inline(alloc, depth, *action, symbols.as_slice(), args, place, n)
            }
        }
    }

    // An inlined action on its share of the arguments: k of them from number i on.
    #[cycle(act)]
    fn inlined(
        &self,
        alloc: Global,
        depth: usize,
        action: usize,
        k: usize,
        args: &[Triple],
        i: usize,
        at: (Loc, Loc),
        n: u64,
    ) -> Result<Acted, AllocError>
        ensures { IfOk result (λ acted. acted ≡ act self.now.params self.now.failing.now depth self.now.actions.now action (take k (drop i args.now)) at n) }
    {
        self.act(alloc, depth, action, share(args, i, k), at, n)
    }

    // The inlined actions run in order, each on its share of the arguments. At last the outer one
    // runs on the original triples and on what they gave.
    #[cycle(act)]
    fn inline(
        &self,
        alloc: Global,
        depth: usize,
        outer: usize,
        symbols: &[InlinedSymbol],
        args: &[Triple],
        place: (Loc, Loc),
        n: u64,
    ) -> Result<Acted, AllocError>
        ensures { IfOk result (λ acted. acted ≡ inline_from (act self.now.params self.now.failing.now depth self.now.actions.now) outer args.now place 0 [] n symbols.now) }
    {
        let mut i: usize = 0;
        let mut given = none(alloc);
        let mut calls = none(alloc);
        for symbol in symbols {
            match symbol {
                InlinedSymbol::Original(_) => {
                    give(alloc, &mut given, share(args, i, 1))?;
                    i = plus(i, 1)?;
                }
                InlinedSymbol::Inlined(action, inner) => {
                    let inner = inner.as_slice();
                    let next = plus(i, inner.len())?;
                    let number = number_after(n, &calls)?;
                    let at = inlined_span(args, i, inner.len(), place);
                    let acted = self.inlined(
                        alloc,
                        depth,
                        *action,
                        inner.len(),
                        args,
                        i,
                        at,
                        number,
                    )?;
                    append(&mut calls, acted.calls)?;
                    match acted.result {
                        Err(error) => {
                            return Ok(Acted {
                                calls,
                                result: Err(error),
                            });
                        }
                        Ok(value) => push(&mut given, (at.0, value, at.1))?,
                    }
                    i = next;
                }
            }
        }
        let number = number_after(n, &calls)?;
        let acted = self.act(alloc, depth, outer, given.as_slice(), place, number)?;
        append(&mut calls, acted.calls)?;
        Ok(Acted {
            calls,
            result: acted.result,
        })
    }
}
