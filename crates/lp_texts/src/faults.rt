//! Where a text breaks its rule.

use std::alloc::AllocError;

/// What a text of a grammar is.
#[derive(Clone, Copy, Debug)]
pub enum TextKind {
    Use,
    Attribute,
    Terminal,
    Nonterminal,
    Pattern,
    TypeText,
    Code,
}

/// A text of a grammar: its kind, and its number in the lists of that kind, counted through in their
/// order from 0. Codes count by their action. Type texts are the location, token and error type,
/// those of terminals and nonterminals, type parameters, parameter types, where clauses, the
/// visibilities of nonterminals, argument types per action, and the return types of actions.
#[derive(Clone, Copy, Debug)]
pub struct TextPlace {
    pub kind: TextKind,
    pub number: usize,
}

/// Why the texts of a grammar can't be printed.
#[derive(Clone, Copy)]
pub enum TextFault {
    /// The first text that breaks its rule, and the first wrong byte.
    Bad { place: TextPlace, byte: usize },
    Memory,
}

impl From<AllocError> for TextFault {
    ghost use Rattle.std.specs.Prelude.{◌≡◌};
    ghost use Rattle.lp_texts.specs.declared.faults.TextFault.TheVariants.{Memory};

    ghost from_gives = { λ _ fault. fault ≡ Memory };

    fn from(_error: AllocError) -> TextFault {
        TextFault::Memory
    }
}
