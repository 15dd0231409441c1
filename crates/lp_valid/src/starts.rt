//! The starts of a grammar.

ghost use Rattle.std.specs.Prelude.{◌≡◌, ◌||◌, map, IfOk, OnOk};
ghost use Rattle.std.specs.List.{list_any};
ghost use Rattle.std.specs.Map.Iter.{deref, deref_pair};
ghost use Rattle.lp_repr.specs.Numbering.{productions_of};
ghost use Rattle.lp_repr.specs.declared.repr.NonterminalString.{NonterminalString};
ghost use Rattle.lp_valid.specs.Members.{has};
ghost use Rattle.lp_valid.specs.Places.{EachPasses, IsFirstFailing};
ghost use Rattle.lp_valid.specs.StartRules.{is_declared, is_single, has_one_symbol, is_nonterminal, stands_in, is_start_unless};
ghost use Rattle.lp_valid.specs.ValidGrammar.{starts, Says};

use lp_repr::repr::{Grammar, NonterminalString, Production, Symbol};
use std::alloc::{AllocError, Global};
use std::collections::BTreeSet;

/// The first start whose public name or nonterminal is not as a start's.
pub(crate) fn failing_start<'g>(
    alloc: Global,
    grammar: &'g Grammar,
    productions: &[&'g Production],
) -> Result<Option<usize>, AllocError>
    requires { map deref productions.now ≡ productions_of grammar.now }
    ensures { IfOk result (IsFirstFailing (Says grammar.now starts)) }
{
    let on_right = right_sides(alloc, productions)?;
    let starts = starts(alloc, grammar)?;
    Ok(first_other(grammar, &on_right, &starts))
}

/// The starts, each with its public name.
type Starts<'g> = Vec<(&'g NonterminalString, &'g NonterminalString)>;

fn starts<'g>(alloc: Global, grammar: &'g Grammar) -> Result<Starts<'g>, AllocError>
    ensures { IfOk result (λ v. map deref_pair v.items ≡ grammar.now.start_nonterminals.entries) }
{
    grammar.start_nonterminals.iter().collect(alloc)
}

fn first_other<'g>(
    grammar: &'g Grammar,
    on_right: &BTreeSet<&'g NonterminalString>,
    starts: &[(&'g NonterminalString, &'g NonterminalString)],
) -> Option<usize>
    ensures { IsFirstFailing
        (EachPasses (λ e. is_start_unless grammar.now (has on_right.now) (deref_pair e)) starts.now)
        result }
{
    for (place, start) in starts.iter().enumerate() {
        if !is_start(grammar, on_right, start.0, start.1) {
            return Some(place);
        }
    }
    None
}

/// Declared names, and a start with one production of one symbol that stands on no right side.
fn is_start<'g>(
    grammar: &Grammar,
    on_right: &BTreeSet<&'g NonterminalString>,
    public: &NonterminalString,
    start: &'g NonterminalString,
) -> bool
    ensures { result ≡ is_start_unless grammar.now (has on_right.now) (public.now, start.now) }
{
    is_declared(grammar, public) && has_one_symbol(grammar, start) && !has(on_right, start)
}

fn has<'g>(names: &BTreeSet<&'g NonterminalString>, name: &'g NonterminalString) -> bool
    ensures { result ≡ has names.now name.now }
{
    names.contains(&name)
}

pub(crate) fn is_declared(grammar: &Grammar, name: &NonterminalString) -> bool
    ensures { result ≡ is_declared grammar.now name.now }
{
    grammar.nonterminals.contains_key(name)
}

/// Whether the nonterminal has exactly one production, of exactly one symbol.
fn has_one_symbol(grammar: &Grammar, name: &NonterminalString) -> bool
    ensures { result ≡ has_one_symbol grammar.now name.now }
{
    match grammar.nonterminals.get(name) {
        None => false,
        Some(data) => is_single(data.productions.as_slice()),
    }
}

fn is_single(productions: &[Production]) -> bool
    ensures { result ≡ is_single productions.now }
{
    match productions {
        [] => false,
        [production] => production.symbols.as_slice().len() == 1,
        [_, _, ..] => false,
    }
}

/// The nonterminals that stand on right sides.
fn right_sides<'g>(
    alloc: Global,
    productions: &[&'g Production],
) -> Result<BTreeSet<&'g NonterminalString>, AllocError>
    ensures { IfOk result (λ s. (q : NonterminalString)
        → has s q ≡ list_any (λ p. stands_in q p.now.symbols) productions.now) }
{
    let mut on_right = BTreeSet::new(alloc);
    for production in productions {
        insert_right_side(production.symbols.as_slice(), &mut on_right)?;
    }
    Ok(on_right)
}

fn insert_right_side<'g>(
    symbols: &'g [Symbol],
    on_right: &mut BTreeSet<&'g NonterminalString>,
) -> Result<(), AllocError>
    ensures { OnOk result ((q : NonterminalString)
        → has on_right.new q ≡ (has on_right.old q || stands_in q symbols.entry.now)) }
{
    for symbol in symbols {
        insert_symbol(symbol, on_right)?;
    }
    Ok(())
}

fn insert_symbol<'g>(
    symbol: &'g Symbol,
    on_right: &mut BTreeSet<&'g NonterminalString>,
) -> Result<(), AllocError>
    ensures { OnOk result ((q : NonterminalString)
        → has on_right.new q ≡ (has on_right.old q || is_nonterminal q symbol.entry.now)) }
{
    match symbol {
        Symbol::Terminal(_) => Ok(()),
        Symbol::Nonterminal(name) => {
            on_right.insert(name)?;
            Ok(())
        }
    }
}
