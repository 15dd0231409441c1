//! A parser's definition, which a driver asks.

ghost use Rattle.std.specs.Prelude.{◌≡◌, ℕ, ◌<◌, ◌≤◌, Bool, map, string_bytes};
ghost use Rattle.std.specs.Option.{option_copied};
ghost use Rattle.lp_driver.specs.Values.{ending_option};
ghost use Rattle.lp_driver.specs.Questions.{Answers, To_triple, Start_location, Start_state, Token_to_index, Action, Eof_action, Token_to_symbol, Expected, Uses_recovery, Error_action, Goto, Simulate_reduce, Error_symbol, Reduce, Meets, IsLawful};

use crate::answers::{Simulated, Stop};
use lp_repr::values::{Loc, Recovery, RunItem, RunParseError, Term, TokenValue};

/// One call for each question of the driver. States are the numbers of LR states; an entry of
/// `action`, `error_action` and `eof_action` is 0 for an error, s + 1 for a shift to s, and
/// -(p + 1) for a reduction by production p. `reduce` and `simulate_reduce` are handed p.
pub trait Definition {
    /// What stands on the stack of symbols.
    type Symbol: Drop;

    /// What it answers to a question, and what it is then.
    ghost answers: { Answers Self.Symbol Self };

    /// How many steps it has left.
    ghost steps_left: { Self → ℕ };

    /// It can go no further.
    ghost is_stuck: { Self → Bool };

    /// The item as the token source hands it on.
    fn to_triple(&mut self, item: &RunItem) -> Result<RunItem, Stop>
        ensures { Meets result (λ a. a) self.new (answers (To_triple item.now) self.old) };

    /// Where a parse begins.
    fn start_location(&mut self) -> Result<Loc, Stop>
        ensures { Meets result (λ a. a) self.new (answers Start_location self.old) };

    /// The state in which a parse begins.
    fn start_state(&mut self) -> Result<i32, Stop>
        ensures { Meets result (λ s. s) self.new (answers Start_state self.old) };

    /// The number of the token's terminal, if it is of one.
    fn token_to_index(&mut self, token: &TokenValue) -> Result<Option<usize>, Stop>
        ensures { Meets result (λ i. i) self.new (answers (Token_to_index token.now) self.old) };

    /// What a state does on the terminal of this number.
    fn action(&mut self, state: i32, integer: usize) -> Result<i32, Stop>
        ensures { Meets result (λ e. e) self.new (answers (Action state integer) self.old) };

    /// What a state does on the error terminal.
    fn error_action(&mut self, state: i32) -> Result<i32, Stop>
        ensures { Meets result (λ e. e) self.new (answers (Error_action state) self.old) };

    /// What a state does at the end of input.
    fn eof_action(&mut self, state: i32) -> Result<i32, Stop>
        ensures { Meets result (λ e. e) self.new (answers (Eof_action state) self.old) };

    /// The state after a state and the nonterminal of this number.
    fn goto(&mut self, state: i32, nt: usize) -> Result<i32, Stop>
        ensures { Meets result (λ s. s) self.new (answers (Goto state nt) self.old) };

    /// The symbol that a token of the terminal of this number becomes.
    fn token_to_symbol(&mut self, index: usize, token: TokenValue) -> Result<Self::Symbol, Stop>
        ensures { Meets result (λ x. x) self.new (answers (Token_to_symbol index token) self.old) };

    /// The names of the terminals that may stand next.
    fn expected_tokens_from_states(&mut self, states: &[i32]) -> Result<Vec<String>, Stop>
        ensures { Meets result (λ l. map string_bytes l.items) self.new (answers (Expected states.now) self.old) };

    /// Errors are mended.
    fn uses_error_recovery(&mut self) -> Result<bool, Stop>
        ensures { Meets result (λ b. b) self.new (answers Uses_recovery self.old) };

    /// The symbol of an error that was mended.
    fn error_recovery_symbol(&mut self, recovery: Recovery) -> Result<Self::Symbol, Stop>
        ensures { Meets result (λ x. x) self.new (answers (Error_symbol recovery) self.old) };

    /// Makes a reduction on the stacks; `start` is where the lookahead begins, if there is one. A
    /// result is the parse's.
    fn reduce(
        &mut self,
        action: i32,
        start: Option<&Loc>,
        states: &mut Vec<i32>,
        symbols: &mut Vec<(Loc, Self::Symbol, Loc)>,
    ) -> Result<Option<Result<Term, RunParseError>>, Stop>
        ensures { Meets result (λ r. record { states = states.new.items; symbols = symbols.new.items; ending = ending_option r }) self.new (answers (Reduce action (option_copied start.entry) states.old.items symbols.old.items) self.old) };

    /// What a reduction would do.
    fn simulate_reduce(&mut self, action: i32) -> Result<Simulated, Stop>
        ensures { Meets result (λ s. s) self.new (answers (Simulate_reduce action) self.old) };

    /// Each answer but that of `to_triple` lowers the steps left.
    ghost lowers: { IsLawful answers steps_left is_stuck };
}
