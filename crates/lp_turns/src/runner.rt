//! A program as a parser's definition: each question is answered by a call of a method.

ghost use Rattle.std.specs.Prelude.{◌≡◌, ℕ, IfOk, map, string_bytes};
ghost use Rattle.lp_driver.specs.Values.{ending_option};
ghost use Rattle.lp_driver.specs.Questions.{Meets};
ghost use Rattle.lp_core.specs.Reading as reading;
ghost use Rattle.lp_core.specs.Store.{held};
ghost use Rattle.lp_core.specs.JoinMeaning.{texts_of};
ghost use Rattle.lp_core.specs.FrameView as frame_view;
ghost use Rattle.lp_turns.specs.DriverCall.{begin, told, says, ask_over, ask, asks, state_value, of_state, of_state_at, reduce_on, program_answers, left_of, stuck_of};
ghost use Rattle.lp_turns.specs.DriverCallLaw.{program_law};

use crate::asked::Asked;
use crate::calls::Calls;
use crate::readings::{
    Triple, both, index_option, item_of, lent, lent_states, located_item, reduce_arguments,
    reduction_of, simulated_of, single, stacks_of,
};
use lp_core::act::item_value;
use lp_core::cell::{Cell, typed};
use lp_core::copies::copied_value;
use lp_core::{Atom, Ending, Value, World};
use lp_driver::{Definition, Simulated, Stop};
use lp_maker::methods::Methods;
use lp_repr::values::{Loc, Recovery, RunItem, RunParseError, Term, TokenValue};
use std::alloc::{AllocError, Global};
use std::mem;

/// A program that is asked.
#[derive(Drop)]
pub struct Runner<'p> {
    pub asked: Asked<'p>,
    pub methods: Methods,
    /// The closure of the token source; none where the items are tokens as they stand.
    pub closure: Option<usize>,
    /// The calls of user code that it has made.
    pub calls: Calls,
    /// How many steps are left.
    pub left: u64,
}

/// Where a call begins: no slots, these cells, and the calls of user code so far.
pub fn standing(alloc: Global, calls: Calls, cells: Vec<Cell>) -> World
    ensures { (left : ℕ) → frame_view.state_of result left ≡ begin (map held cells.items) calls left }
{
    let env = Vec::new(alloc);
    let events = calls.into_events();
    World {
        env,
        cells,
        events,
        taken: 0,
    }
}

impl<'p> Runner<'p> {
    fn alloc(&self) -> Global {
        self.asked.alloc()
    }

    // How a call of a function over these cells ends, and what it leaves in them.
    fn run_over(
        &mut self,
        function: usize,
        args: Vec<Value>,
        cells: Vec<Cell>,
    ) -> Result<(Ending, Vec<Cell>), AllocError>
        ensures { IfOk result (λ r. ask_over function args.items (map held cells.items) self.old ≡ told r.0 (map held r.1.items) self.new) }
    {
        let none = Calls::none(self.alloc());
        let calls = mem::replace(&mut self.calls, none);
        let mut world = standing(self.alloc(), calls, cells);
        let ending = self.asked.call(&mut world, &mut self.left, function, args)?;
        let World { cells, events, .. } = world;
        self.calls = Calls::made(events);
        Ok((ending, cells))
    }

    // What a function answers over these cells, and what it leaves in them.
    fn ask_over(
        &mut self,
        function: usize,
        args: Vec<Value>,
        cells: Vec<Cell>,
    ) -> Result<(Value, Vec<Cell>), Stop>
        ensures { Meets result (λ r. (r.0, map held r.1.items)) self.new (ask_over function args.items (map held cells.items) self.old) }
    {
        let (ending, cells) = self.run_over(function, args, cells)?;
        match ending {
            Ending::Value(v) => Ok((v, cells)),
            Ending::Spent => Err(Stop::Spent),
            Ending::Stuck => Err(Stop::Stuck),
        }
    }

    // What a function answers.
    fn ask(&mut self, function: usize, args: Vec<Value>) -> Result<Value, Stop>
        ensures { Meets result (λ v. v) self.new (ask function args.items self.old) }
    {
        let none = Vec::new(self.alloc());
        let (v, _cells) = self.ask_over(function, args, none)?;
        Ok(v)
    }

    fn ask_state(&mut self, function: usize, args: Vec<Value>) -> Result<i32, Stop>
        ensures { Meets result (λ s. s) self.new (asks reading.state_of function args.items self.old) }
    {
        let v = self.ask(function, args)?;
        match v.as_state() {
            None => Err(Stop::Stuck),
            Some(state) => Ok(state),
        }
    }

    // A state, or a production, as a value of the printed state type.
    fn state_value(&self, state: i32) -> Option<Value>
        ensures { result ≡ state_value self.now state }
    {
        match self.methods.state_type {
            None => None,
            Some(kind) => typed(kind, i64::from(state)),
        }
    }

    fn of_state(&mut self, function: usize, state: i32) -> Result<i32, Stop>
        ensures { Meets result (λ s. s) self.new (of_state function state self.old) }
    {
        match self.state_value(state) {
            None => Err(Stop::Stuck),
            Some(v) => {
                let args = single(self.alloc(), v)?;
                self.ask_state(function, args)
            }
        }
    }

    fn of_state_at(&mut self, function: usize, state: i32, i: usize) -> Result<i32, Stop>
        ensures { Meets result (λ s. s) self.new (of_state_at function state i self.old) }
    {
        match self.state_value(state) {
            None => Err(Stop::Stuck),
            Some(v) => {
                let args = both(self.alloc(), v, Value::index(i))?;
                self.ask_state(function, args)
            }
        }
    }

    // The texts that a list of texts names.
    fn texts(&self, v: &Value) -> Result<Vec<String>, Stop>
        ensures { Meets result (λ l. map string_bytes l.items) self.now (says (texts_of self.now.asked.program v.now) self.now) }
    {
        match self.asked.texts(v)? {
            None => Err(Stop::Stuck),
            Some(texts) => Ok(texts),
        }
    }

    // A reduction with these values: the stacks are lent, and come back.
    fn reduce_on(
        &mut self,
        args: Vec<Value>,
        states: &mut Vec<i32>,
        symbols: &mut Vec<Triple>,
    ) -> Result<Option<Result<Term, RunParseError>>, Stop>
        ensures { Meets result (λ r. record { states = states.new.items; symbols = symbols.new.items; ending = ending_option r }) self.new (reduce_on args.items states.old.items symbols.old.items self.old) }
    {
        let lent_states = mem::replace(states, Vec::new(self.alloc()));
        let lent_symbols = mem::replace(symbols, Vec::new(self.alloc()));
        let cells = lent(self.alloc(), lent_states, lent_symbols)?;
        let (v, cells) = self.ask_over(self.methods.reduce, args, cells)?;
        match stacks_of(cells) {
            None => Err(Stop::Stuck),
            Some((states_back, symbols_back)) => {
                *states = states_back;
                *symbols = symbols_back;
                match reduction_of(v) {
                    None => Err(Stop::Stuck),
                    Some(ending) => Ok(ending),
                }
            }
        }
    }
}

impl<'p> Definition for Runner<'p> {
    type Symbol = Value;

    ghost answers = { program_answers };

    ghost steps_left = { left_of };

    ghost is_stuck = { stuck_of };

    ghost lowers = { program_law };

    fn to_triple(&mut self, item: &RunItem) -> Result<RunItem, Stop> {
        match self.closure {
            None => Ok(located_item(self.alloc(), self.asked.is_located(), item)?),
            Some(closure) => {
                let v = item_value(self.alloc(), item, self.asked.is_located())?;
                let args = single(self.alloc(), v)?;
                let answer = self.ask(closure, args)?;
                match item_of(answer) {
                    None => Err(Stop::Stuck),
                    Some(item) => Ok(item),
                }
            }
        }
    }

    fn start_location(&mut self) -> Result<Loc, Stop> {
        let none = Vec::new(self.alloc());
        let v = self.ask(self.methods.start_location, none)?;
        match v.as_location() {
            None => Err(Stop::Stuck),
            Some(location) => Ok(location),
        }
    }

    fn start_state(&mut self) -> Result<i32, Stop> {
        let none = Vec::new(self.alloc());
        self.ask_state(self.methods.start_state, none)
    }

    fn token_to_index(&mut self, token: &TokenValue) -> Result<Option<usize>, Stop> {
        let copy = copied_value(self.alloc(), token)?;
        let args = single(self.alloc(), Value::term(Term::Token(copy)))?;
        let v = self.ask(self.methods.token_to_index, args)?;
        match index_option(v) {
            None => Err(Stop::Stuck),
            Some(index) => Ok(index),
        }
    }

    fn action(&mut self, state: i32, integer: usize) -> Result<i32, Stop> {
        self.of_state_at(self.methods.action, state, integer)
    }

    fn error_action(&mut self, state: i32) -> Result<i32, Stop> {
        self.of_state(self.methods.error_action, state)
    }

    fn eof_action(&mut self, state: i32) -> Result<i32, Stop> {
        self.of_state(self.methods.eof_action, state)
    }

    fn goto(&mut self, state: i32, nt: usize) -> Result<i32, Stop> {
        self.of_state_at(self.methods.goto, state, nt)
    }

    fn token_to_symbol(&mut self, index: usize, token: TokenValue) -> Result<Value, Stop> {
        let value = Value::term(Term::Token(token));
        let args = both(self.alloc(), Value::index(index), value)?;
        self.ask(self.methods.token_to_symbol, args)
    }

    fn expected_tokens_from_states(&mut self, states: &[i32]) -> Result<Vec<String>, Stop> {
        let cells = lent_states(self.alloc(), states)?;
        let args = single(self.alloc(), Value::plain(Atom::Cell(0)))?;
        let (v, _cells) = self.ask_over(self.methods.expected_tokens_from_states, args, cells)?;
        self.texts(&v)
    }

    fn uses_error_recovery(&mut self) -> Result<bool, Stop> {
        let none = Vec::new(self.alloc());
        let v = self.ask(self.methods.uses_error_recovery, none)?;
        match v.as_bool() {
            None => Err(Stop::Stuck),
            Some(mends) => Ok(mends),
        }
    }

    fn error_recovery_symbol(&mut self, recovery: Recovery) -> Result<Value, Stop> {
        let term = Term::Recovered(Box::new(self.alloc(), recovery)?);
        let args = single(self.alloc(), Value::term(term))?;
        self.ask(self.methods.error_recovery_symbol, args)
    }

    fn reduce(
        &mut self,
        action: i32,
        start: Option<&Loc>,
        states: &mut Vec<i32>,
        symbols: &mut Vec<Triple>,
    ) -> Result<Option<Result<Term, RunParseError>>, Stop> {
        match self.asked.field_values()? {
            None => Err(Stop::Stuck),
            Some(fields) => match self.state_value(action) {
                None => Err(Stop::Stuck),
                Some(production) => {
                    let args = reduce_arguments(self.alloc(), fields, production, start.copied())?;
                    self.reduce_on(args, states, symbols)
                }
            },
        }
    }

    fn simulate_reduce(&mut self, action: i32) -> Result<Simulated, Stop> {
        match self.state_value(action) {
            None => Err(Stop::Stuck),
            Some(production) => {
                let args = single(self.alloc(), production)?;
                let v = self.ask(self.methods.simulate_reduce, args)?;
                match simulated_of(v) {
                    None => Err(Stop::Stuck),
                    Some(simulated) => Ok(simulated),
                }
            }
        }
    }
}
