//! A definition that answers by the machine's tables, for the driver.

ghost use Rattle.std.specs.Prelude.{◌≡◌, ℕ, ◌+◌, ◌++◌, [], ◌∷◌, suc, length, map, take, drop, IfOk, MatchResult, false, Some, None, slice_get, string_bytes};
ghost use Rattle.std.specs.Option.{option_copied};
ghost use Rattle.lp_driver.specs.Values.{value_of, ending_option, Spanned, Value};
ghost use Rattle.lp_driver.specs.Questions.{Meets};
ghost use Rattle.lp_driver.specs.declared.answers.Stop.TheVariants.{Spent, Stuck};
ghost use Rattle.lp_machine.specs.ReductionSpan.{below, popped, span};
ghost use Rattle.lp_machine.specs.TablesView.{tables_of};
ghost use Rattle.lp_machine.specs.ExpectedList.{says_after, verdict};
ghost use Rattle.lp_machine.specs.ExpectedLaw.{names_tried};
ghost use Rattle.lp_machine.specs.TableAnswers.{number_of, entry_of, state_of, tables_in, with_steps, with_stuck, left_of, stuck_of, located_item, is_yes, looks_again, or_spent, expected_by, simulated_by, simulate, goes_to, reduced_by, reduce_by, reduce, table_answers};
ghost use Rattle.lp_machine.specs.TableLaw.{table_law};

use crate::calls::Call;
use crate::compiled::Compiled;
use crate::lists::{append, back, none, push};
use crate::lookup::{Act, Rule};
use crate::moves::located;
use crate::terms::{Symbol, copied_text, copied_value};
use crate::verdict::{Verdict, names_with_action, verdict_on};
use crate::views::{empty_place, span};
use lp_driver::{Definition, Expecting, Simulated, Stop};
use lp_repr::text::{Items, Text};
use lp_repr::values::{Loc, Recovery, RunItem, RunParseError, Term, TokenValue};
use std::alloc::{AllocError, Global};

type Triple = (Loc, Symbol, Loc);

/// A definition that answers by tables. Each answer but an item's makes a step.
#[derive(Drop)]
pub struct TableDefinition<'g> {
    pub tables: Compiled<'g>,
    /// The calls of user code that it has made.
    pub calls: Items<Call>,
    /// How many steps it has left.
    pub left: u64,
    /// It can go no further.
    pub is_stuck: bool,
}

// A state by its number.
fn number_of(state: i32) -> usize
    ensures { result ≡ number_of state }
{
    if state < 0 { 0 } else { state as usize }
}

fn numbers_of(alloc: Global, states: &[i32]) -> Result<Items<usize>, AllocError>
    ensures { IfOk result (λ l. l ≡ map number_of states.now) }
{
    let mut numbers = none(alloc);
    for state in states {
        push(&mut numbers, number_of(*state))?;
    }
    Ok(numbers)
}

// What a state does, as the driver takes it.
fn entry_of(act: Act) -> Option<i32>
    ensures { result ≡ entry_of act }
{
    match act {
        Act::NoAction => Some(0),
        Act::Shift(to) => {
            if to < 2147483647 {
                Some(to as i32 + 1)
            } else {
                None
            }
        }
        Act::ReduceBy(p) => {
            if p < 2147483648 {
                Some(-1 - (p as i64) as i32)
            } else {
                None
            }
        }
    }
}

fn state_of(state: Option<usize>) -> Option<i32>
    ensures { result ≡ state_of state }
{
    match state {
        None => None,
        Some(n) => { if n < 2147483648 { Some(n as i32) } else { None } }
    }
}

fn located_item(is_located: bool, item: &RunItem, alloc: Global) -> Result<RunItem, AllocError>
    ensures { IfOk result (λ copy. copy ≡ located_item is_located item.now) }
{
    match item {
        RunItem::Fault(name) => Ok(RunItem::Fault(copied_text(name)?)),
        RunItem::Token(start, token, end) => Ok(RunItem::Token(
            located(is_located, *start),
            copied_value(alloc, token)?,
            located(is_located, *end),
        )),
    }
}

fn simulated_by(rule: Option<Rule>) -> Option<Simulated>
    ensures { result ≡ simulated_by rule }
{
    match rule {
        None => None,
        Some(rule) => {
            if rule.is_start {
                Some(Simulated::Accept)
            } else {
                Some(Simulated::Reduce {
                    pop: rule.length,
                    nonterminal: rule.nonterminal,
                })
            }
        }
    }
}

// What a trial says after one reduction more, where it goes on.
fn looks_again(
    tables: &Compiled,
    terminal: usize,
    says: &Verdict,
) -> Result<Option<Verdict>, AllocError>
    ensures { IfOk result (λ o. o ≡ looks_again (tables_of tables.now) (Some terminal) says.now) }
{
    match says {
        Verdict::Yes => Ok(None),
        Verdict::No => Ok(None),
        Verdict::GoesOn(stack) => Ok(Some(verdict_on(tables, stack.as_slice(), Some(terminal))?)),
    }
}

// What a trial says within so many reductions.
fn says_after(
    tables: &Compiled,
    n: u64,
    terminal: usize,
    stack: &[usize],
) -> Result<Verdict, AllocError>
    ensures { IfOk result (λ v. v ≡ says_after (tables_of tables.now) n (Some terminal) (verdict (tables_of tables.now) stack.now (Some terminal))) }
{
    let mut says = verdict_on(tables, stack, Some(terminal))?;
    for looked in 0..n {
        match looks_again(tables, terminal, &says)? {
            None => return Ok(says),
            Some(next) => says = next,
        }
    }
    Ok(says)
}

// Whether a trial says yes; None where it goes on after n reductions.
fn is_yes(says: &Verdict) -> Option<bool>
    ensures { result ≡ is_yes says.now }
{
    match says {
        Verdict::Yes => Some(true),
        Verdict::No => Some(false),
        Verdict::GoesOn(_) => None,
    }
}

// The names whose trials say yes, where each ends within n reductions.
fn names_tried(
    tables: &Compiled,
    n: u64,
    stack: &[usize],
) -> Result<Option<Items<Text>>, AllocError>
    ensures { IfOk result (λ names. names ≡ names_tried (tables_of tables.now) n stack.now 0 (tables_of tables.now).names) }
{
    let mut names = none(tables.alloc);
    for (i, terminal) in tables.terminals.iter().enumerate() {
        let says = says_after(tables, n, i, stack)?;
        match is_yes(&says) {
            None => return Ok(None),
            Some(false) => {}
            Some(true) => push(&mut names, copied_text(&terminal.name)?)?,
        }
    }
    Ok(Some(names))
}

// The texts of these names.
fn texts_of(alloc: Global, names: Items<Text>) -> Result<Vec<String>, AllocError>
    ensures { IfOk result (λ l. map string_bytes l.items ≡ names) }
{
    let mut texts = Vec::new(alloc);
    for name in names.0 {
        texts.push(name.0)?;
    }
    Ok(texts)
}

impl<'g> TableDefinition<'g> {
    /// A definition with so many steps left.
    pub fn new(tables: Compiled<'g>, steps: u64) -> TableDefinition<'g>
        ensures { result ≡ record { tables = tables.entry; calls = []; left = steps; is_stuck = false } }
    {
        let calls = none(tables.alloc);
        TableDefinition {
            tables,
            calls,
            left: steps,
            is_stuck: false,
        }
    }

    // Makes a step.
    fn spend(&mut self) -> Result<(), Stop>
        ensures { MatchResult result (λ _. (self.old.left ≡ suc self.new.left) × (self.new ≡ with_steps self.old self.new.left)) (λ e. (e ≡ Spent) × (self.old.left ≡ 0) × (self.new ≡ self.old)) }
    {
        if self.left == 0 {
            return Err(Stop::Spent);
        }
        self.left -= 1;
        Ok(())
    }

    // Can go no further.
    fn stick(&mut self) -> Stop
        ensures stop { result ≡ Stuck }
        ensures after { self.new ≡ with_stuck self.old }
    {
        self.is_stuck = true;
        Stop::Stuck
    }

    fn expected_by(&mut self, states: &[usize]) -> Result<Vec<String>, Stop>
        ensures { Meets result (λ l. map string_bytes l.items) self.new (expected_by (tables_in self.old).expecting states.now self.old) }
    {
        match self.tables.expecting {
            Expecting::Actions => {
                let names = names_with_action(&self.tables, states.last().copied())?;
                Ok(texts_of(self.tables.alloc, names)?)
            }
            Expecting::Trial => match names_tried(&self.tables, self.left, states)? {
                Some(names) => Ok(texts_of(self.tables.alloc, names)?),
                None => {
                    self.left = 0;
                    Err(Stop::Spent)
                }
            },
        }
    }

    // Goes to the next state, with a symbol in place of those of the production.
    fn goes_to(
        &mut self,
        rule: Rule,
        symbol: Triple,
        states: &mut Vec<i32>,
        symbols: &mut Vec<Triple>,
    ) -> Result<(), Stop>
        ensures { Meets result (λ _. record { states = states.new.items; symbols = symbols.new.items; ending = None }) self.new (goes_to rule symbol states.old.items symbols.old.items self.old) }
    {
        let keep = states.len().saturating_sub(rule.length);
        states.truncate(keep);
        let under = states.last().map(|s| number_of(*s));
        let Some(to) = state_of(self.tables.goto_from(under, rule.nonterminal)) else {
            return Err(self.stick());
        };
        states.push(to)?;
        let keep = symbols.len().saturating_sub(rule.length);
        symbols.truncate(keep);
        symbols.push(symbol)?;
        Ok(())
    }

    // A reduction whose calls are made.
    fn reduced_by(
        &mut self,
        rule: Rule,
        ending: Result<Symbol, RunParseError>,
        empty: Loc,
        states: &mut Vec<i32>,
        symbols: &mut Vec<Triple>,
    ) -> Result<Option<Result<Term, RunParseError>>, Stop>
        ensures { Meets result (λ r. record { states = states.new.items; symbols = symbols.new.items; ending = ending_option r }) self.new (reduced_by rule ending empty states.old.items symbols.old.items self.old) }
    {
        match ending {
            Err(error) => Ok(Some(Err(error))),
            Ok(value) => {
                if rule.is_start {
                    return Ok(Some(Ok(value.into_term())));
                }
                let keep = symbols.len().saturating_sub(rule.length);
                let at = span(back(symbols.as_slice(), keep), empty);
                self.goes_to(rule, (at.0, value, at.1), states, symbols)?;
                Ok(None)
            }
        }
    }

    // A reduction by a production.
    fn reduce_by(
        &mut self,
        rule: Rule,
        start: Option<Loc>,
        states: &mut Vec<i32>,
        symbols: &mut Vec<Triple>,
    ) -> Result<Option<Result<Term, RunParseError>>, Stop>
        ensures { Meets result (λ r. record { states = states.new.items; symbols = symbols.new.items; ending = ending_option r }) self.new (reduce_by rule start states.old.items symbols.old.items self.old) }
    {
        if symbols.len() < rule.length {
            return Err(self.stick());
        }
        let empty = empty_place(start, symbols.as_slice());
        let args = back(symbols.as_slice(), symbols.len() - rule.length);
        let alloc = self.tables.alloc;
        let depth = self.tables.actions.actions.len();
        let n = self.calls.as_slice().len() as u64;
        let place = (empty, empty);
        let acted = self
            .tables
            .actions
            .act(alloc, depth, rule.action, args, place, n)?;
        append(&mut self.calls, acted.calls)?;
        self.reduced_by(rule, acted.result, empty, states, symbols)
    }
}

impl<'g> Definition for TableDefinition<'g> {
    type Symbol = Symbol;

    ghost answers = { table_answers };

    ghost steps_left = { left_of };

    ghost is_stuck = { stuck_of };

    ghost lowers = { table_law };

    fn to_triple(&mut self, item: &RunItem) -> Result<RunItem, Stop> {
        Ok(located_item(self.tables.is_located, item, self.tables.alloc)?)
    }

    fn start_location(&mut self) -> Result<Loc, Stop> {
        self.spend()?;
        Ok(Loc::Default)
    }

    fn start_state(&mut self) -> Result<i32, Stop> {
        self.spend()?;
        Ok(0)
    }

    fn token_to_index(&mut self, token: &TokenValue) -> Result<Option<usize>, Stop> {
        self.spend()?;
        Ok(self.tables.terminal(token))
    }

    fn action(&mut self, state: i32, integer: usize) -> Result<i32, Stop> {
        self.spend()?;
        let act = self.tables.action_on(Some(number_of(state)), Some(integer));
        match entry_of(act) {
            None => Err(self.stick()),
            Some(entry) => Ok(entry),
        }
    }

    fn error_action(&mut self, state: i32) -> Result<i32, Stop> {
        self.spend()?;
        let act = self.tables.action_on_error(Some(number_of(state)));
        match entry_of(act) {
            None => Err(self.stick()),
            Some(entry) => Ok(entry),
        }
    }

    fn eof_action(&mut self, state: i32) -> Result<i32, Stop> {
        self.spend()?;
        let act = self.tables.action_on(Some(number_of(state)), None);
        match entry_of(act) {
            None => Err(self.stick()),
            Some(entry) => Ok(entry),
        }
    }

    fn goto(&mut self, state: i32, nt: usize) -> Result<i32, Stop> {
        self.spend()?;
        match state_of(self.tables.goto_from(Some(number_of(state)), nt)) {
            None => Err(self.stick()),
            Some(to) => Ok(to),
        }
    }

    fn token_to_symbol(&mut self, index: usize, token: TokenValue) -> Result<Symbol, Stop> {
        self.spend()?;
        Ok(self.tables.value(index, token)?)
    }

    fn expected_tokens_from_states(&mut self, states: &[i32]) -> Result<Vec<String>, Stop> {
        self.spend()?;
        let numbers = numbers_of(self.tables.alloc, states)?;
        self.expected_by(numbers.as_slice())
    }

    fn uses_error_recovery(&mut self) -> Result<bool, Stop> {
        self.spend()?;
        Ok(self.tables.error.is_some())
    }

    fn error_recovery_symbol(&mut self, recovery: Recovery) -> Result<Symbol, Stop> {
        self.spend()?;
        let term = Term::Recovered(Box::new(self.tables.alloc, recovery)?);
        Ok(Symbol::new(term))
    }

    fn reduce(
        &mut self,
        action: i32,
        start: Option<&Loc>,
        states: &mut Vec<i32>,
        symbols: &mut Vec<Triple>,
    ) -> Result<Option<Result<Term, RunParseError>>, Stop> {
        self.spend()?;
        if action < 0 {
            return Err(self.stick());
        }
        match self.tables.rule(action as usize) {
            None => Err(self.stick()),
            Some(rule) => self.reduce_by(rule, start.copied(), states, symbols),
        }
    }

    fn simulate_reduce(&mut self, action: i32) -> Result<Simulated, Stop> {
        self.spend()?;
        if action < 0 {
            return Err(self.stick());
        }
        match simulated_by(self.tables.rule(action as usize)) {
            None => Err(self.stick()),
            Some(simulated) => Ok(simulated),
        }
    }
}
