//! How questions, trials and runs are answered.

use std::alloc::{AllocError, AllocFailed};

/// Why a call gives no answer.
#[derive(Clone, Copy)]
pub enum Stop {
    /// It had no steps left.
    Spent,
    /// It could go no further.
    Stuck,
    Memory,
}

/// Which terminals an expected list has.
#[derive(Clone, Copy)]
pub enum Expecting {
    /// Those whose trial on the stack of states says yes.
    Trial,
    /// Those with an action in the top state.
    Actions,
}

/// What a reduction would do.
#[derive(Clone, Copy)]
pub enum Simulated {
    /// Take off so many states, and go on with this nonterminal.
    Reduce { pop: usize, nonterminal: usize },
    /// End the parse with a value.
    Accept,
}

/// Why there is no run.
#[derive(Clone, Copy)]
pub enum RunError {
    /// No start has that public name.
    NoStart,
    /// There are not as many parameters as the grammar has.
    ParameterCount,
    /// The run could go no further, after so many steps.
    Stuck { steps: u64 },
    Memory,
}

impl From<AllocError> for Stop {
    ghost use Rattle.lp_driver.specs.declared.answers.Stop.TheVariants.{Memory};
    ghost use Rattle.std.specs.Prelude.{◌≡◌};

    ghost from_gives = { λ _ e. e ≡ Memory };

    fn from(_: AllocError) -> Self {
        Stop::Memory
    }
}

impl<T: Drop> From<AllocFailed<T>> for Stop {
    ghost use Rattle.lp_driver.specs.declared.answers.Stop.TheVariants.{Memory};
    ghost use Rattle.std.specs.Prelude.{◌≡◌};

    ghost from_gives = { λ _ e. e ≡ Memory };

    fn from(_: AllocFailed<T>) -> Self {
        Stop::Memory
    }
}

impl From<AllocError> for RunError {
    ghost use Rattle.lp_driver.specs.declared.answers.RunError.TheVariants.{Memory};
    ghost use Rattle.std.specs.Prelude.{◌≡◌};

    ghost from_gives = { λ _ e. e ≡ Memory };

    fn from(_: AllocError) -> Self {
        RunError::Memory
    }
}
