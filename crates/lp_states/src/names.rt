//! The names of symbols, by number.

ghost use Rattle.std.specs.Prelude.{◌≡◌, ℕ, ◌++◌, IfOk, OnOk, map};
ghost use Rattle.lp_repr.specs.Numbering.{number_or_count, rules_of};
ghost use Rattle.lp_states.specs.Naming.{IsSpelled, NamesAll, NamesRightly, NamesMore};

use lp_repr::numbering::{Numbers, SymbolNumber, productions};
use lp_repr::repr::{Grammar, Symbol};
use lp_repr::text::Items;
use std::alloc::{AllocError, Global};
use std::collections::BTreeMap;

/// For each number of a symbol in the grammar's productions such a symbol.
#[derive(Drop)]
pub struct Names<'g> {
    symbols: BTreeMap<SymbolNumber, &'g Symbol>,
}

impl<'g> Names<'g> {
    /// The names of all symbols in the grammar's productions. Fails where memory runs out.
    pub fn new(alloc: Global, grammar: &'g Grammar) -> Result<Names<'g>, AllocError>
        ensures rightly { IfOk result (NamesRightly grammar.entry.now) }
        ensures all { IfOk result (NamesAll (rules_of grammar.entry.now)) }
    {
        let numbers = Numbers::new(alloc, grammar)?;
        let productions = productions(alloc, grammar)?;
        let mut names = Names {
            symbols: BTreeMap::new(alloc),
        };
        for production in &productions {
            names.add_all(alloc, &numbers, production.symbols.as_slice())?;
        }
        Ok(names)
    }

    /// Adds the symbols of a production.
    fn add_all(
        &mut self,
        alloc: Global,
        numbers: &Numbers<'_>,
        symbols: &'g [Symbol],
    ) -> Result<(), AllocError>
        ensures { OnOk result (NamesMore numbers.now.grammar.now self.old self.new symbols.entry.now) }
    {
        let by_number = numbers.symbols(alloc, symbols)?;
        for (place, number) in by_number.iter().enumerate() {
            if let Some(symbol) = symbols.get(place) {
                self.symbols.insert(*number, symbol)?;
            }
        }
        Ok(())
    }

    /// The symbols of a path, whose last one stands first.
    pub fn path(
        &self,
        alloc: Global,
        backwards: &[SymbolNumber],
    ) -> Result<Items<Symbol>, AllocError>
        ensures { IfOk result (λ p. IsSpelled self.now p backwards.now) }
    {
        let mut path = Vec::new(alloc);
        for number in backwards.iter().rev() {
            if let Some(symbol) = self.symbols.get(number) {
                let symbol: &Symbol = *symbol;
                path.push(symbol.clone()?)?;
            }
        }
        Ok(Items(path))
    }
}
