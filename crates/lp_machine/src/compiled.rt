//! The tables of a machine: the states, and what a grammar says of productions, terminals and
//! actions.

ghost use Rattle.std.specs.Prelude.{◌≡◌, ℕ, Some, None, length, slice_get, IfOk, map};
ghost use Rattle.std.specs.Option.{option_copied};
ghost use Rattle.lp_driver.specs.Values.{value_of};
ghost use Rattle.lp_machine.specs.GrammarTables.{grammar_tables};
ghost use Rattle.lp_machine.specs.TablesView.{tables_of, value_by};
ghost use Rattle.lp_machine.specs.ExpectedList.{action_on, action_on_error, goto_from};
ghost use Rattle.lp_machine.specs.Lookup.{act_at, goto_at};

use crate::actions::Actions;
use crate::grammar::{error_of, params_of, rules_of, terminals_of};
use crate::lookup::{Act, KnownTerminal, Rule, act_at, goto_at, terminal_in, value_with};
use crate::terms::Symbol;
use lp_driver::Expecting;
use lp_repr::lr1::{Lr1State, Token};
use lp_repr::repr::Grammar;
use lp_repr::text::Text;
use lp_repr::values::{Term, TokenValue};
use std::alloc::{AllocError, Global};

/// What a machine looks up.
#[derive(Drop)]
pub struct Compiled<'g> {
    pub alloc: Global,
    pub states: &'g [Lr1State],
    pub actions: Actions<'g>,
    /// The productions by number.
    pub rules: Vec<Rule>,
    /// The terminals but the error terminal, by number.
    pub terminals: Vec<KnownTerminal>,
    /// The grammar has a location type.
    pub is_located: bool,
    /// The number of the error terminal, where errors are mended.
    pub error: Option<usize>,
    pub expecting: Expecting,
}

impl<'g> Compiled<'g> {
    /// The tables of a grammar and its states, with the values of its parameters and the calls
    /// that are to fail.
    pub fn new(
        alloc: Global,
        grammar: &'g Grammar,
        states: &'g [Lr1State],
        expecting: Expecting,
        params: &[Text],
        failing: &'g [u64],
    ) -> Result<Compiled<'g>, AllocError>
        ensures { IfOk result (λ t. tables_of t ≡ grammar_tables grammar.entry.now states.entry.now expecting params.now failing.entry.now) }
    {
        Ok(Compiled {
            alloc,
            states,
            actions: Actions {
                actions: grammar.action_fn_defns.as_slice(),
                params: params_of(alloc, grammar.parameters.as_slice(), params)?,
                failing,
            },
            rules: rules_of(alloc, grammar)?,
            terminals: terminals_of(alloc, grammar)?,
            is_located: grammar.types.loc.is_some(),
            error: error_of(grammar),
            expecting,
        })
    }
}

impl Compiled<'_> {
    /// What a state does on a terminal, or at the end of input.
    pub fn action_on(&self, state: Option<usize>, terminal: Option<usize>) -> Act
        ensures { result ≡ action_on (tables_of self.now) state terminal }
    {
        let Some(state) = state else {
            return Act::NoAction;
        };
        match terminal {
            None => act_at(self.states, state, Token::Eof),
            Some(t) => act_at(self.states, state, Token::Terminal(t)),
        }
    }

    /// What a state does on the error terminal, where errors are mended.
    pub fn action_on_error(&self, state: Option<usize>) -> Act
        ensures { result ≡ action_on_error (tables_of self.now) state }
    {
        match self.error {
            None => Act::NoAction,
            Some(e) => self.action_on(state, Some(e)),
        }
    }

    /// The state after a state and a nonterminal.
    pub fn goto_from(&self, state: Option<usize>, nonterminal: usize) -> Option<usize>
        ensures { result ≡ goto_from (tables_of self.now) state nonterminal }
    {
        match state {
            None => None,
            Some(state) => goto_at(self.states, state, nonterminal),
        }
    }

    /// The production of a number.
    pub fn rule(&self, production: usize) -> Option<Rule>
        ensures { result ≡ slice_get self.now.rules.items production }
    {
        self.rules.get(production).copied()
    }

    /// The terminal of a number.
    pub fn known(&self, terminal: usize) -> Option<&KnownTerminal>
        ensures { option_copied result ≡ slice_get self.now.terminals.items terminal }
    {
        self.terminals.get(terminal)
    }

    /// The first terminal that a token matches.
    pub fn terminal(&self, token: &TokenValue) -> Option<usize>
        ensures { result ≡ (tables_of self.now).terminal token.now }
    {
        terminal_in(&self.terminals, token)
    }

    /// The value of a token of the terminal of this number.
    pub fn value(&self, terminal: usize, token: TokenValue) -> Result<Symbol, AllocError>
        ensures { IfOk result (λ x. x ≡ (tables_of self.now).value terminal token) }
    {
        match self.terminals.get(terminal) {
            None => Ok(Symbol::new(Term::Token(token))),
            Some(known) => Ok(Symbol::new(value_with(self.alloc, known.captures, token)?)),
        }
    }
}
