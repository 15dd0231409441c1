//! What a driver asks of a program.

use lp_core::StateType;

/// The numbers of the methods, and the state type of the machine.
#[derive(Clone, Copy)]
pub struct Methods {
    /// None where the printed type is no state type.
    pub state_type: Option<StateType>,
    /// Where the input starts.
    pub start_location: usize,
    /// The state that a parse begins in.
    pub start_state: usize,
    /// The number of the terminal that a token matches, if it matches one.
    pub token_to_index: usize,
    /// The action of a state on a terminal, by its number.
    pub action: usize,
    /// The action of a state on the error symbol.
    pub error_action: usize,
    /// The action of a state at the end of input.
    pub eof_action: usize,
    /// The state after a nonterminal, by a state and the nonterminal's number.
    pub goto: usize,
    /// The symbol of a token, by its terminal's number and the token.
    pub token_to_symbol: usize,
    /// The names of the terminals that can come next on a stack of states.
    pub expected_tokens_from_states: usize,
    /// Whether the machine recovers from errors.
    pub uses_error_recovery: usize,
    /// The symbol of a recovery.
    pub error_recovery_symbol: usize,
    /// Reduces by a production, on the stacks of states and of symbols.
    pub reduce: usize,
    /// What a reduction by a production would do to the stack of states.
    pub simulate_reduce: usize,
}
