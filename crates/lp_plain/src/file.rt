//! A grammar file that was read, or why it wasn't.

use lp_repr::repr::{Grammar, Symbol};
use lp_repr::{Items, StartStates, Token};
use lp_syntax::PlainGrammar;
use std::alloc::AllocError;

/// A grammar file that was read.
#[derive(Drop)]
pub struct Front {
    /// What the text before the line `%%` spells.
    pub plain: PlainGrammar,
    /// Its lowering.
    pub grammar: Grammar,
    /// The canonical LR(1) states of each start, in key order.
    pub tables: Vec<StartStates>,
    /// What follows the line `%%`; empty without such a line.
    pub tail: Vec<u8>,
}

/// Why a source gives no grammar with its states, in the order of the checks.
#[derive(Drop)]
pub enum FrontFault {
    /// A read failed; the source's count of faults rose.
    ReadFault,
    /// The source holds more than 16,777,216 bytes.
    TooLong,
    /// The text spells no plain grammar, or its lowering is refused. The place is in bytes.
    Grammar {
        place: usize,
    },
    /// The least rule of valid grammars that fails, by number, and the least place at which it does.
    BadGrammar {
        rule: u8,
        place: usize,
    },
    /// After the path two actions stand on the token. The start is the least one without states, by
    /// key order.
    Conflict {
        start: usize,
        path: Items<Symbol>,
        token: Token,
    },
    /// The paths reach more item sets than are kept. The start is the least one without states.
    TooManyStates {
        start: usize,
        paths: Items<Items<Symbol>>,
    },
    Memory,
}

impl From<AllocError> for FrontFault {
    ghost use Rattle.std.specs.Prelude.{◌≡◌};
    ghost use Rattle.lp_plain.specs.declared.file.FrontFault.TheVariants.{Memory};

    ghost from_gives = { λ _ e. e ≡ Memory };

    fn from(_e: AllocError) -> FrontFault {
        FrontFault::Memory
    }
}
