//! Why no text is emitted.

use lp_texts::TextPlace;
use std::alloc::AllocError;
use thiserror::Error;

/// Why a text isn't emitted. The causes are looked for in this order; nothing was written but for
/// a write fault, where a prefix of the text was.
#[derive(Debug, Drop, Error)]
pub enum EmitError {
    /// The grammar has no start.
    #[error("no start")]
    NoStart,
    /// The code of a test of all back ends is asked for.
    #[error("unsupported")]
    Unsupported,
    /// A rule on grammars fails: the least such rule, and the least place where it does.
    #[error("bad grammar")]
    BadGrammar {
        rule: u8,
        place: usize,
    },
    /// Recursive ascent is asked for, and the error terminal is used.
    #[error("recovery in ascent")]
    RecoveryInAscent,
    /// Recursive ascent is asked for, and two nonterminals have one escaped name: the least pair.
    #[error("name clash")]
    NameClash {
        first: usize,
        second: usize,
    },
    /// There are more states of a start, or more productions, than 2,147,483,647: the greatest of
    /// these counts.
    #[error("too many")]
    TooMany {
        count: usize,
    },
    /// A rule on tables fails: the least start, then state, then rule.
    #[error("bad tables")]
    BadTables {
        start: usize,
        state: usize,
        rule: u8,
    },
    /// A text breaks the rule of its kind: the first such text, and its first wrong byte. Where each
    /// meets its rule, but not all may stand where they are put together in the program, it is the
    /// place behind the last, which is the code of the action after the last, and the byte 0.
    #[error("bad text")]
    BadText {
        place: TextPlace,
        byte: usize,
    },
    /// The sink's count of faults rose.
    #[error("write fault")]
    WriteFault,
    /// Memory was refused.
    #[error("memory")]
    Memory,
}

impl From<AllocError> for EmitError {
    ghost use Rattle.std.specs.Prelude.{◌≡◌};
    ghost use Rattle.lp_emit.specs.declared.errors.EmitError.TheVariants.{Memory};

    ghost from_gives = { λ _ e. e ≡ Memory };

    fn from(_: AllocError) -> EmitError {
        EmitError::Memory
    }
}
