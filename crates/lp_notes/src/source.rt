//! What notes are made of: productions and nonterminals by number.

ghost use Rattle.std.specs.Prelude.{◌≡◌, map, option_copied, slice_get, IfOk};
ghost use Rattle.std.specs.Map.Iter.{deref};
ghost use Rattle.lp_repr.specs.Numbering.{nonterminals_of, productions_of};
ghost use Rattle.lp_notes.specs.Notes.{told_of};

use lp_repr::numbering::{nonterminals, productions};
use lp_repr::repr::{Grammar, NonterminalString, Production};
use std::alloc::{AllocError, Global};

/// The productions and the nonterminals of a grammar, by number.
#[derive(Drop)]
pub struct Source<'g> {
    pub grammar: &'g Grammar,
    /// Whether there are to be comments.
    pub comments: bool,
    productions: Vec<&'g Production>,
    nonterminals: Vec<&'g NonterminalString>,
    ghost productions_listed: { map deref productions.items ≡ productions_of grammar.now },
    ghost nonterminals_listed: { map deref nonterminals.items ≡ nonterminals_of grammar.now },
}

impl<'g> Source<'g> {
    /// Those of a grammar. The error is want of memory.
    pub fn new(
        alloc: Global,
        grammar: &'g Grammar,
        comments: bool,
    ) -> Result<Source<'g>, AllocError>
        ensures grammar { IfOk result (λ s. s.grammar.now ≡ grammar.entry.now) }
        ensures comments { IfOk result (λ s. s.comments ≡ comments) }
    {
        let productions = productions(alloc, grammar)?;
        let nonterminals = nonterminals(alloc, grammar)?;
        Ok(Source {
            grammar,
            comments,
            productions,
            nonterminals,
        })
    }

    /// The production of this number, if there is one.
    pub fn production(&self, number: usize) -> Option<&'g Production>
        ensures { option_copied result ≡ slice_get (productions_of self.now.grammar.now) number }
    {
        self.productions.get(number).copied()
    }

    /// The nonterminal of this number, if there is one.
    fn nonterminal(&self, number: usize) -> Option<&'g NonterminalString>
        ensures { option_copied result ≡ slice_get (nonterminals_of self.now.grammar.now) number }
    {
        self.nonterminals.get(number).copied()
    }

    /// The production whose number is told.
    pub fn production_told(&self, number: Option<usize>) -> Option<&'g Production>
        ensures { option_copied result ≡ told_of (productions_of self.now.grammar.now) number }
    {
        self.production(number?)
    }

    /// The nonterminal whose number is told.
    pub fn nonterminal_told(&self, number: Option<usize>) -> Option<&'g NonterminalString>
        ensures { option_copied result ≡ told_of (nonterminals_of self.now.grammar.now) number }
    {
        self.nonterminal(number?)
    }
}
