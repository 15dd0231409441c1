//! Whether productions and actions name nothing but what the grammar declares, and whether a
//! production stands twice.

ghost use Rattle.std.specs.Prelude.{◌≡◌, ◌++◌, IfOk, OnOk, map, true};
ghost use Rattle.std.specs.List.{list_all};
ghost use Rattle.std.specs.Map.Iter.{deref, deref_pair};
ghost use Rattle.lp_repr.specs.Numbering.{productions_of};
ghost use Rattle.lp_repr.specs.declared.repr.TerminalString.{TerminalString};
ghost use Rattle.lp_valid.specs.Members.{holds};
ghost use Rattle.lp_valid.specs.Places.{EachPasses, IsFirstFailing, IsNewBy, least};
ghost use Rattle.lp_valid.specs.SymbolRules.{has_action, knows_by, production_is_known_by, part_is_known_by, kind_is_known_by, placed_of, has_terminal, same_production, ProductionIsKnown, action_is_known};
ghost use Rattle.lp_valid.specs.ProductionKeys.{key_of, production_key};

use crate::repeats::{failing_repeat, gathered};
use crate::starts::is_declared;
use lp_repr::repr::{
    ActionFnDefn, ActionFnDefnKind, Grammar, InlinedSymbol, NonterminalString, Production, Symbol,
    TerminalString,
};
use std::alloc::{AllocError, Global};
use std::collections::BTreeSet;

/// The terminals of a grammar.
pub(crate) type Terminals<'g> = BTreeSet<&'g TerminalString>;

pub(crate) fn terminals(alloc: Global, grammar: &Grammar) -> Result<Terminals<'_>, AllocError>
    ensures { IfOk result (λ s. (t : TerminalString) → holds s t ≡ has_terminal grammar.now t) }
{
    gathered(alloc, grammar.terminals.all.as_slice())
}

/// The first production that stands under another nonterminal than its own, names what isn't
/// declared, or is equal to one before it.
pub(crate) fn failing_production<'g>(
    alloc: Global,
    grammar: &'g Grammar,
    terminals: &Terminals<'g>,
    productions: &[&'g Production],
) -> Result<Option<usize>, AllocError>
    requires all { map deref productions.now ≡ productions_of grammar.now }
    requires these { (t : TerminalString) → holds terminals.now t ≡ has_terminal grammar.now t }
    ensures { IfOk result (IsFirstFailing (ProductionIsKnown grammar.now)) }
{
    let placed = placed(alloc, grammar)?;
    let unknown = first_unknown(grammar, terminals, &placed);
    let repeat = first_repeat(alloc, productions)?;
    Ok(least(unknown, repeat))
}

/// The productions, each with the nonterminal under which it stands.
type Placed<'g> = Vec<(&'g NonterminalString, &'g Production)>;

fn placed(alloc: Global, grammar: &Grammar) -> Result<Placed<'_>, AllocError>
    ensures { IfOk result (λ v. map deref_pair v.items ≡ placed_of grammar.now) }
{
    let mut all = Vec::new(alloc);
    for (name, data) in &grammar.nonterminals {
        push_under(name, data.productions.as_slice(), &mut all)?;
    }
    Ok(all)
}

fn push_under<'g>(
    name: &'g NonterminalString,
    productions: &'g [Production],
    all: &mut Placed<'g>,
) -> Result<(), AllocError>
    ensures { OnOk result (map deref_pair all.new.items
        ≡ map deref_pair all.old.items ++ map (λ p. (name.entry.now, p)) productions.entry.now) }
{
    for production in productions {
        all.push((name, production))?;
    }
    Ok(())
}

fn first_unknown<'g>(
    grammar: &Grammar,
    terminals: &Terminals<'g>,
    placed: &[(&'g NonterminalString, &'g Production)],
) -> Option<usize>
    ensures { IsFirstFailing
        (EachPasses (λ e. production_is_known_by grammar.now (holds terminals.now) (deref_pair e)) placed.now)
        result }
{
    for (place, entry) in placed.iter().enumerate() {
        if !production_is_known(grammar, terminals, entry.0, entry.1) {
            return Some(place);
        }
    }
    None
}

fn production_is_known<'g>(
    grammar: &Grammar,
    terminals: &Terminals<'g>,
    name: &NonterminalString,
    production: &'g Production,
) -> bool
    ensures { result ≡ production_is_known_by grammar.now (holds terminals.now) (name.now, production.now) }
{
    production.nonterminal == *name
        && has_action(grammar, production.action)
        && knows_all(grammar, terminals, production.symbols.as_slice())
}

fn has_action(grammar: &Grammar, action: usize) -> bool
    ensures { result ≡ has_action grammar.now action }
{
    action < grammar.action_fn_defns.as_slice().len()
}

fn knows_all<'g>(grammar: &Grammar, terminals: &Terminals<'g>, symbols: &'g [Symbol]) -> bool
    ensures { result ≡ list_all (knows_by grammar.now (holds terminals.now)) symbols.now }
{
    for symbol in symbols {
        if !knows(grammar, terminals, symbol) {
            return false;
        }
    }
    true
}

fn knows<'g>(grammar: &Grammar, terminals: &Terminals<'g>, symbol: &'g Symbol) -> bool
    ensures { result ≡ knows_by grammar.now (holds terminals.now) symbol.now }
{
    match symbol {
        Symbol::Nonterminal(name) => is_declared(grammar, name),
        Symbol::Terminal(terminal) => holds(terminals, terminal),
    }
}

fn holds<'g>(terminals: &Terminals<'g>, terminal: &'g TerminalString) -> bool
    ensures { result ≡ holds terminals.now terminal.now }
{
    terminals.contains(&terminal)
}

/// What tells a production from the others.
type Key<'g> = (&'g NonterminalString, &'g [Symbol], usize);

fn key(production: &Production) -> Key<'_>
    ensures { key_of result ≡ production_key production.now }
{
    (
        &production.nonterminal,
        production.symbols.as_slice(),
        production.action,
    )
}

/// The first production that is equal to one before it.
fn first_repeat(alloc: Global, productions: &[&Production]) -> Result<Option<usize>, AllocError>
    ensures { IfOk result (IsFirstFailing (IsNewBy same_production (map deref productions.now))) }
{
    let keys = keys(alloc, productions)?;
    failing_repeat(alloc, &keys)
}

fn keys<'g>(alloc: Global, productions: &[&'g Production]) -> Result<Vec<Key<'g>>, AllocError>
    ensures { IfOk result (λ v. map key_of v.items ≡ map (λ p. production_key p.now) productions.now) }
{
    let mut all = Vec::new(alloc);
    for production in productions {
        all.push(key(production))?;
    }
    Ok(all)
}

/// The lesser of two places.
pub(crate) fn least(first: Option<usize>, second: Option<usize>) -> Option<usize>
    ensures { result ≡ least first second }
{
    match first {
        None => second,
        Some(place) => match second {
            None => Some(place),
            Some(other) => Some(place.min(other)),
        },
    }
}

/// The first action that names what isn't declared.
pub(crate) fn failing_action<'g>(grammar: &'g Grammar, terminals: &Terminals<'g>) -> Option<usize>
    requires { (t : TerminalString) → holds terminals.now t ≡ has_terminal grammar.now t }
    ensures { IsFirstFailing (EachPasses (action_is_known grammar.now) grammar.now.action_fn_defns) result }
{
    first_unknown_action(grammar, terminals, grammar.action_fn_defns.as_slice())
}

fn first_unknown_action<'g>(
    grammar: &Grammar,
    terminals: &Terminals<'g>,
    actions: &'g [ActionFnDefn],
) -> Option<usize>
    ensures { IsFirstFailing
        (EachPasses (λ a. kind_is_known_by grammar.now (holds terminals.now) a.kind) actions.now)
        result }
{
    for (place, action) in actions.iter().enumerate() {
        if !kind_is_known(grammar, terminals, &action.kind) {
            return Some(place);
        }
    }
    None
}

/// The outer action of an inline, the actions of its parts and all its symbols are declared.
fn kind_is_known<'g>(
    grammar: &Grammar,
    terminals: &Terminals<'g>,
    kind: &'g ActionFnDefnKind,
) -> bool
    ensures { result ≡ kind_is_known_by grammar.now (holds terminals.now) kind.now }
{
    match kind {
        ActionFnDefnKind::User { .. } => true,
        ActionFnDefnKind::Lookaround(_) => true,
        ActionFnDefnKind::Inline { action, symbols } => {
            has_action(grammar, *action) && parts_are_known(grammar, terminals, symbols.as_slice())
        }
    }
}

fn parts_are_known<'g>(
    grammar: &Grammar,
    terminals: &Terminals<'g>,
    parts: &'g [InlinedSymbol],
) -> bool
    ensures { result ≡ list_all (part_is_known_by grammar.now (holds terminals.now)) parts.now }
{
    for part in parts {
        if !part_is_known(grammar, terminals, part) {
            return false;
        }
    }
    true
}

fn part_is_known<'g>(grammar: &Grammar, terminals: &Terminals<'g>, part: &'g InlinedSymbol) -> bool
    ensures { result ≡ part_is_known_by grammar.now (holds terminals.now) part.now }
{
    match part {
        InlinedSymbol::Original(symbol) => knows(grammar, terminals, symbol),
        InlinedSymbol::Inlined(action, symbols) => {
            has_action(grammar, *action) && knows_all(grammar, terminals, symbols.as_slice())
        }
    }
}
