//! The combinations of an alternative: `@L`, `@R` and inline rules are replaced by each of their
//! expanded alternatives, the leftmost slowest.

ghost use Rattle.std.specs.Prelude.{◌≡◌, ◌<◌, ◌++◌, ◌||◌, IfOk, OnOk, Some, length, map, slice_get};
ghost use Rattle.lp_lower.specs.Choices.{choices};
ghost use Rattle.lp_lower.specs.Extents.{capped};
ghost use Rattle.lp_lower.specs.declared.combine.Expanded.{Expanded};
ghost use Rattle.lp_lower.specs.Pieces.{Piece, itself, chosen, pieces_of, combination_of, with_piece};

use crate::copies::{copy_symbol, copy_symbols};
use crate::lists::{empty, push};
use lp_repr::repr::{InlinedSymbol, Symbol};
use lp_repr::text::Items;
use std::alloc::{AllocError, Global};

/// An expanded alternative.
#[derive(Drop)]
pub struct Expanded {
    /// The number of the action that makes its value.
    pub action: usize,
    /// Its action can fail.
    pub fallible: bool,
    pub symbols: Items<Symbol>,
}

/// What stands in the place of a symbol.
#[derive(Drop)]
pub enum Part<'e> {
    /// The symbol itself.
    Itself(Symbol),
    /// One of these.
    Options(&'e [Expanded]),
}

/// One combination of an alternative.
#[derive(Drop)]
pub struct Combination {
    /// Its symbols as an inline action takes them.
    pub inlined: Items<InlinedSymbol>,
    /// The alternative's action or one that is inlined can fail.
    pub fallible: bool,
    /// Its symbols, expanded.
    pub symbols: Items<Symbol>,
}

/// Every combination of one piece of each part, the leftmost slowest.
pub fn combinations(
    alloc: Global,
    fallible: bool,
    parts: &[Part<'_>],
) -> Result<Vec<Combination>, AllocError>
    ensures { IfOk result (λ v. v.items ≡ map (combination_of fallible) (choices (map pieces_of parts.now))) }
{
    let total = combination_count(parts)?;
    let mut all = Vec::new(alloc);
    for place in 0..total {
        all.push(combination_at(alloc, fallible, parts, total, place)?)?;
    }
    Ok(all)
}

/// How many combinations there are. More than a usize can count are more than memory can hold.
fn combination_count(parts: &[Part<'_>]) -> Result<usize, AllocError>
    ensures { IfOk result (λ n. n ≡ length (choices (map pieces_of parts.now))) }
{
    let count = capped_count(parts);
    if count == usize::MAX {
        return Err(AllocError);
    }
    Ok(count)
}

/// How many combinations there are, or the greatest usize where it can't count them.
fn capped_count(parts: &[Part<'_>]) -> usize
    ensures { result ≡ capped (length (choices (map pieces_of parts.now))) }
{
    let mut count = 1usize;
    let mut place = parts.len();
    while place > 0 {
        place -= 1;
        count = parts[place].piece_count().saturating_mul(count);
    }
    count
}

/// The combination at a place, of so many in all: the digits of its number, the leftmost slowest,
/// choose among the pieces of each part.
fn combination_at(
    alloc: Global,
    fallible: bool,
    parts: &[Part<'_>],
    total: usize,
    place: usize,
) -> Result<Combination, AllocError>
    requires whole { total ≡ length (choices (map pieces_of parts.now)) }
    requires within { place < total }
    ensures { IfOk result (λ c. slice_get (map (combination_of fallible) (choices (map pieces_of parts.now))) place ≡ Some c) }
{
    let inlined = empty(alloc);
    let symbols = empty(alloc);
    let mut combination = Combination {
        inlined,
        fallible,
        symbols,
    };
    let mut count = total;
    let mut left = place;
    for part in parts {
        count = count / part.piece_count();
        let number = left / count;
        combination.add_piece(alloc, part, number)?;
        left = left % count;
    }
    Ok(combination)
}

impl Part<'_> {
    /// How many pieces may stand here.
    fn piece_count(&self) -> usize
        ensures { result ≡ length (pieces_of self.now) }
    {
        match self {
            Part::Itself(_) => 1,
            Part::Options(options) => options.len(),
        }
    }
}

impl Combination {
    /// Adds the piece of this number.
    fn add_piece(&mut self, alloc: Global, part: &Part<'_>, number: usize) -> Result<(), AllocError>
        requires { number < length (pieces_of part.now) }
        ensures { OnOk result ((piece : Piece) → slice_get (pieces_of part.now) number ≡ Some piece → self.new ≡ with_piece self.old piece) }
    {
        match part {
            Part::Itself(symbol) => {
                self.add_symbol(symbol)?;
                Ok(())
            }
            Part::Options(options) => {
                self.add_option(alloc, options, number)?;
                Ok(())
            }
        }
    }

    /// Adds the expanded alternative of this number.
    fn add_option(
        &mut self,
        alloc: Global,
        options: &[Expanded],
        number: usize,
    ) -> Result<(), AllocError>
        requires { number < length options.now }
        ensures { OnOk result ((expanded : Expanded) → slice_get options.now number ≡ Some expanded → self.new ≡ with_piece self.old (chosen expanded)) }
    {
        self.add_expanded(alloc, &options[number])?;
        Ok(())
    }

    /// Adds a symbol that stands for itself.
    fn add_symbol(&mut self, symbol: &Symbol) -> Result<(), AllocError>
        ensures { OnOk result (self.new ≡ with_piece self.old (itself symbol.now)) }
    {
        let original = copy_symbol(symbol)?;
        let copy = copy_symbol(symbol)?;
        push(&mut self.inlined, InlinedSymbol::Original(original))?;
        push(&mut self.symbols, copy)?;
        Ok(())
    }

    /// Adds an expanded alternative.
    fn add_expanded(&mut self, alloc: Global, expanded: &Expanded) -> Result<(), AllocError>
        ensures { OnOk result (self.new ≡ with_piece self.old (chosen expanded.now)) }
    {
        let inner = copy_symbols(alloc, &expanded.symbols)?;
        let inlined = InlinedSymbol::Inlined(expanded.action, inner);
        let fallible = one_fails(self.fallible, expanded.fallible);
        push(&mut self.inlined, inlined)?;
        push_symbols(&expanded.symbols, &mut self.symbols)?;
        self.fallible = fallible;
        Ok(())
    }
}

/// Whether one of two actions can fail.
fn one_fails(first: bool, second: bool) -> bool
    ensures { result ≡ (first || second) }
{
    first || second
}

/// Appends copies of these symbols.
fn push_symbols(symbols: &Items<Symbol>, all: &mut Items<Symbol>) -> Result<(), AllocError>
    ensures { OnOk result (all.new ≡ all.old ++ symbols.now) }
{
    for symbol in symbols.as_slice() {
        push(all, copy_symbol(symbol)?)?;
    }
    Ok(())
}
