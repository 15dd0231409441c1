//! Productions, nonterminals and terminals by number.

ghost use Rattle.std.specs.Prelude.{◌≡◌, ◌++◌, ◌-◌, ◌^◌, map, IfOk, OnOk, length, min, slice_get, option_copied, unwrap_or};
ghost use Rattle.std.specs.Map.Iter.{deref};
ghost use Rattle.std.specs.List.{position_from};
ghost use Rattle.std.specs.Ordering.{eq_by_cmp};
ghost use Rattle.std.specs.BTreeMap.{get, values};
ghost use Rattle.lp_repr.specs.NameOrder.{nonterminal_cmp, terminal_cmp};
ghost use Rattle.lp_repr.specs.declared.repr.NonterminalString.{NonterminalString};
ghost use Rattle.lp_repr.specs.declared.repr.TerminalString.{TerminalString};
ghost use Rattle.lp_repr.specs.Numbering.{productions_of, nonterminals_of, terminals_of, nonterminal_number, terminal_number, symbol_number, number_or_count, rule_of, rules_of, firsts_from};

use crate::repr::{Grammar, NonterminalString, Production, Symbol, TerminalString};
use crate::text::Items;
use std::alloc::{AllocError, Global};
use std::collections::BTreeMap;

/// A symbol by its number.
#[derive(Clone, Copy, PartialEq, Eq, PartialOrd, Ord)]
pub enum SymbolNumber {
    Terminal(usize),
    Nonterminal(usize),
}

/// A production by numbers.
#[derive(Drop)]
pub struct Rule {
    pub left: usize,
    pub right: Items<SymbolNumber>,
}

/// The number of productions: those of all nonterminals.
pub fn production_count(grammar: &Grammar) -> usize
    ensures { result ≡ min (length (productions_of grammar.now)) (2 ^ 64 - 1) }
{
    let mut count = 0usize;
    for data in grammar.nonterminals.values() {
        count = count.saturating_add(data.productions.as_slice().len());
    }
    count
}

/// The production of this number: productions are numbered through the nonterminals in key order.
/// It takes no memory, and a step per nonterminal; `productions` serves many look-ups.
pub fn production_at(grammar: &Grammar, number: usize) -> Option<&Production>
    ensures { option_copied result ≡ slice_get (productions_of grammar.now) number }
{
    let mut left = number;
    for data in grammar.nonterminals.values() {
        let productions = data.productions.as_slice();
        if left < productions.len() {
            return productions.get(left);
        }
        left -= productions.len();
    }
    None
}

/// The productions by number.
pub fn productions(alloc: Global, grammar: &Grammar) -> Result<Vec<&Production>, AllocError>
    ensures { IfOk result (λ v. map deref v.items ≡ productions_of grammar.now) }
{
    let mut all = Vec::new(alloc);
    for data in grammar.nonterminals.values() {
        push_references(data.productions.as_slice(), &mut all)?;
    }
    Ok(all)
}

/// Appends references to the productions.
fn push_references<'g>(
    productions: &'g [Production],
    all: &mut Vec<&'g Production>,
) -> Result<(), AllocError>
    ensures { OnOk result (map deref all.new.items ≡ map deref all.old.items ++ productions.entry.now) }
{
    for production in productions {
        all.push(production)?;
    }
    Ok(())
}

/// The names of the nonterminals by number, which is their key order.
pub fn nonterminals(alloc: Global, grammar: &Grammar) -> Result<Vec<&NonterminalString>, AllocError>
    ensures { IfOk result (λ v. map deref v.items ≡ nonterminals_of grammar.now) }
{
    grammar.nonterminals.keys().collect(alloc)
}

/// From each of these names to its number, the least where it stands twice.
fn by_name<T: Ord + Clone + Drop>(
    alloc: Global,
    names: &[&T],
) -> Result<BTreeMap<T, usize>, AllocError>
    requires { (x : T) → (y : T) → T.is_clone x y → y ≡ x }
    ensures { IfOk result (λ m. (q : T) → get T.cmp m q ≡ position_from (eq_by_cmp T.cmp q) 0 (map deref names.now)) }
{
    let mut numbers = BTreeMap::new(alloc);
    let mut number = names.len();
    while number > 0 {
        number -= 1;
        // The last to be written stands, which is the least.
        numbers.insert(names[number].clone()?, number)?;
    }
    Ok(numbers)
}

/// The numbers of a grammar's nonterminals and terminals, each found in logarithmic time.
#[derive(Drop)]
pub struct Numbers<'g> {
    /// The grammar whose names are numbered.
    pub grammar: &'g Grammar,
    nonterminals: BTreeMap<NonterminalString, usize>,
    terminals: BTreeMap<TerminalString, usize>,
    ghost nonterminals_numbered: { (q : NonterminalString) → get nonterminal_cmp nonterminals q ≡ nonterminal_number grammar.now q },
    ghost terminals_numbered: { (q : TerminalString) → get terminal_cmp terminals q ≡ terminal_number grammar.now q },
}

impl<'g> Numbers<'g> {
    /// The numbers of a grammar.
    pub fn new(alloc: Global, grammar: &'g Grammar) -> Result<Numbers<'g>, AllocError>
        ensures { IfOk result (λ n. n.grammar.now ≡ grammar.now) }
    {
        let nonterminals = nonterminals(alloc, grammar)?;
        let terminals = terminals(alloc, grammar)?;
        Ok(Numbers {
            grammar,
            nonterminals: by_name(alloc, nonterminals.as_slice())?,
            terminals: by_name(alloc, terminals.as_slice())?,
        })
    }

    /// The number of a nonterminal, if it is declared.
    pub fn nonterminal(&self, name: &NonterminalString) -> Option<usize>
        ensures { result ≡ nonterminal_number self.now.grammar.now name.now }
    {
        self.nonterminals.get(name).copied()
    }

    /// The number of a terminal, the first where it stands twice.
    pub fn terminal(&self, terminal: &TerminalString) -> Option<usize>
        ensures { result ≡ terminal_number self.now.grammar.now terminal.now }
    {
        self.terminals.get(terminal).copied()
    }

    /// The numbers of symbols, the count where one is not declared.
    pub fn symbols(
        &self,
        alloc: Global,
        symbols: &[Symbol],
    ) -> Result<Vec<SymbolNumber>, AllocError>
        ensures { IfOk result (λ v. v.items ≡ map (number_or_count self.now.grammar.now) symbols.now) }
    {
        let mut all = Vec::new(alloc);
        for symbol in symbols {
            all.push(self.symbol_or_count(symbol))?;
        }
        Ok(all)
    }

    /// The number of a symbol, the count where it is not declared.
    fn symbol_or_count(&self, symbol: &Symbol) -> SymbolNumber
        ensures { result ≡ number_or_count self.now.grammar.now symbol.now }
    {
        match symbol {
            Symbol::Nonterminal(name) => {
                let count = self.grammar.nonterminals.len();
                SymbolNumber::Nonterminal(self.nonterminal(name).unwrap_or(count))
            }
            Symbol::Terminal(terminal) => {
                let count = self.grammar.terminals.all.as_slice().len();
                SymbolNumber::Terminal(self.terminal(terminal).unwrap_or(count))
            }
        }
    }

    /// The number of a symbol, if it is declared.
    pub fn symbol(&self, symbol: &Symbol) -> Option<SymbolNumber>
        ensures { result ≡ symbol_number self.now.grammar.now symbol.now }
    {
        match symbol {
            Symbol::Nonterminal(name) => self.nonterminal(name).map(SymbolNumber::Nonterminal),
            Symbol::Terminal(terminal) => self.terminal(terminal).map(SymbolNumber::Terminal),
        }
    }
}

/// The names of the terminals by number.
fn terminals(alloc: Global, grammar: &Grammar) -> Result<Vec<&TerminalString>, AllocError>
    ensures { IfOk result (λ v. map deref v.items ≡ terminals_of grammar.now) }
{
    grammar.terminals.all.as_slice().iter().collect(alloc)
}

/// The productions by number, each by the numbers of its symbols. A symbol that is not declared
/// has the count of terminals or nonterminals for its number.
pub fn rules(alloc: Global, grammar: &Grammar) -> Result<Vec<Rule>, AllocError>
    ensures { IfOk result (λ v. v.items ≡ rules_of grammar.now) }
{
    let numbers = Numbers::new(alloc, grammar)?;
    let mut all = Vec::new(alloc);
    let mut left: usize = 0;
    for data in grammar.nonterminals.values() {
        push_rules(alloc, &numbers, left, data.productions.as_slice(), &mut all)?;
        left = left.checked_add(1).ok_or(AllocError)?;
    }
    Ok(all)
}

/// Appends the productions of one nonterminal.
fn push_rules(
    alloc: Global,
    numbers: &Numbers<'_>,
    left: usize,
    productions: &[Production],
    all: &mut Vec<Rule>,
) -> Result<(), AllocError>
    ensures { OnOk result (all.new.items ≡ all.old.items ++ map (rule_of numbers.now.grammar.now left) productions.now) }
{
    for production in productions {
        let right = Items(numbers.symbols(alloc, production.symbols.as_slice())?);
        all.push(Rule { left, right })?;
    }
    Ok(())
}

/// The number of each nonterminal's first production, and at last the count of productions.
pub fn first_productions(alloc: Global, grammar: &Grammar) -> Result<Vec<usize>, AllocError>
    ensures { IfOk result (λ v. v.items ≡ firsts_from 0 (values grammar.now.nonterminals)) }
{
    let mut firsts = Vec::new(alloc);
    let mut before = Vec::new(alloc);
    for data in grammar.nonterminals.values() {
        firsts.push(before.len())?;
        push_references(data.productions.as_slice(), &mut before)?;
    }
    firsts.push(before.len())?;
    Ok(firsts)
}
