//! How a call of the tool ends.

ghost use Rattle.std.specs.Prelude.{◌≡◌};
ghost use Rattle.lp_status.specs.Status.{line_of, number_of};

use lp_emit::EmitError;
use lp_repr::repr::Symbol;
use lp_repr::{Items, Token};

/// How a call of the tool ends. Nothing was written but under `Done` and `WriteFault`.
#[derive(Drop)]
pub enum Status {
    /// All was written; for `emit` and `run` the source was read to its end.
    Done,
    /// The words name no command.
    Usage,
    /// The text before the line `%%` spells no plain grammar, or its lowering is refused: the place
    /// in bytes.
    Grammar {
        place: usize,
    },
    /// The items after the path have two actions on the token. The start is counted in key order.
    Conflict {
        start: usize,
        path: Items<Symbol>,
        token: Token,
    },
    /// The paths reach more item sets than are kept.
    TooManyStates {
        start: usize,
        paths: Items<Items<Symbol>>,
    },
    /// The grammar lowers, and no parser is emitted for it.
    Refused(EmitError),
    /// The line after `%%`, counted from 1, fits no token line.
    TokenLine {
        line: usize,
    },
    /// The source holds more than 16,777,216 bytes.
    TooLong,
    /// A read failed.
    ReadFault,
    /// A write failed; a prefix of the output was written.
    WriteFault,
    /// Memory ran out before the first write.
    Memory,
}

impl Status {
    /// The exit status of the program.
    pub fn number(&self) -> u8
        ensures { result ≡ number_of self.now }
    {
        match self {
            Status::Done => 0,
            Status::Usage => 1,
            Status::Grammar { .. } => 2,
            Status::Conflict { .. } => 3,
            Status::TooManyStates { .. } => 4,
            Status::Refused(_) => 5,
            Status::TokenLine { .. } => 6,
            Status::TooLong => 7,
            Status::ReadFault => 8,
            Status::WriteFault => 9,
            Status::Memory => 10,
        }
    }
}

/// The line that the program writes to standard error; nothing for `Done`.
pub fn status_line(status: &Status) -> &'static str
    ensures { result.now ≡ line_of status.now }
{
    match status {
        Status::Done => "",
        Status::Usage => "usage",
        Status::Grammar { .. } => "grammar",
        Status::Conflict { .. } => "conflict",
        Status::TooManyStates { .. } => "too many states",
        Status::Refused(_) => "refused",
        Status::TokenLine { .. } => "token line",
        Status::TooLong => "too long",
        Status::ReadFault => "read fault",
        Status::WriteFault => "write fault",
        Status::Memory => "memory",
    }
}
