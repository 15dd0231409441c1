//! The productions and terminals of a grammar by number.

ghost use Rattle.std.specs.Prelude.{◌≡◌, ◌∷◌, [], ◌++◌, map, length, position, slice_get, IfOk, Some, None, false, if◌then◌else◌};
ghost use Rattle.std.specs.Option.{option_copied};
ghost use Rattle.lp_repr.specs.Names.{same_text, same_nonterminal};
ghost use Rattle.lp_machine.specs.GrammarTables.{is_start, rule_of, rules_of, known_by, known_among, is_error, error_of, is_named, last_named, params_among};

use crate::lookup::{KnownTerminal, Rule};
use crate::terms::copied_text;
use lp_repr::repr::{
    Grammar, NonterminalString, Parameter, Production, TerminalString, TokenPattern,
};
use lp_repr::text::{Items, Text};
use std::alloc::{AllocError, Global};

fn same_text(a: &Text, b: &Text) -> bool
    ensures { result ≡ same_text a.now b.now }
{
    *a == *b
}

fn same_nonterminal(a: &NonterminalString, b: &NonterminalString) -> bool
    ensures { result ≡ same_nonterminal a.now b.now }
{
    same_text(&a.0, &b.0)
}

// A nonterminal that stands under a public name.
fn is_start(grammar: &Grammar, name: &NonterminalString) -> bool
    ensures { result ≡ is_start grammar.now name.now }
{
    grammar
        .start_nonterminals
        .values()
        .any(|s| same_nonterminal(s, name))
}

// The productions of the nonterminal of a number.
fn push_rules(
    nonterminal: usize,
    is_start: bool,
    productions: &[Production],
    rules: &mut Vec<Rule>,
) -> Result<(), AllocError>
    ensures { IfOk result (λ _. rules.new.items ≡ rules.old.items ++ map (rule_of nonterminal is_start) productions.now) }
{
    for production in productions {
        rules.push(Rule {
            length: production.symbols.as_slice().len(),
            nonterminal,
            action: production.action,
            is_start,
        })?;
    }
    Ok(())
}

/// The productions by number: through the nonterminals in key order.
pub fn rules_of(alloc: Global, grammar: &Grammar) -> Result<Vec<Rule>, AllocError>
    ensures { IfOk result (λ rules. rules.items ≡ rules_of grammar.now) }
{
    let mut rules = Vec::new(alloc);
    let mut nonterminal: usize = 0;
    for (name, data) in grammar.nonterminals.iter() {
        let productions = data.productions.as_slice();
        push_rules(
            nonterminal,
            is_start(grammar, name),
            productions,
            &mut rules,
        )?;
        nonterminal = nonterminal.checked_add(1).ok_or(AllocError)?;
    }
    Ok(rules)
}

fn known(
    alloc: Global,
    terminal: &TerminalString,
    pattern: &TokenPattern,
) -> Result<KnownTerminal, AllocError>
    requires { is_error terminal.now ≡ false }
    ensures { IfOk result (λ known. known ∷ [] ≡ known_by terminal.now (Some pattern.now)) }
{
    Ok(KnownTerminal {
        name: Text(terminal.to_string(alloc)?),
        form: Text(pattern.to_string(alloc)?),
        captures: pattern.holes.as_slice().len(),
    })
}

/// The terminals with a pattern, by number, without the error terminal.
pub fn terminals_of(alloc: Global, grammar: &Grammar) -> Result<Vec<KnownTerminal>, AllocError>
    ensures { IfOk result (λ l. l.items ≡ known_among grammar.now grammar.now.terminals.all) }
{
    let mut terminals = Vec::new(alloc);
    for terminal in grammar.terminals.all.as_slice() {
        if let Some(pattern) = grammar.conversions.get(terminal) {
            if !is_error(terminal) {
                terminals.push(known(alloc, terminal, pattern)?)?;
            }
        }
    }
    Ok(terminals)
}

fn is_error(terminal: &TerminalString) -> bool
    ensures { result ≡ is_error terminal.now }
{
    match terminal {
        TerminalString::Quoted(_) => false,
        TerminalString::Bare(_) => false,
        TerminalString::Error => true,
    }
}

fn error_place(terminals: &[TerminalString]) -> Option<usize>
    ensures { result ≡ position is_error terminals.now }
{
    terminals.iter().position(|t| is_error(t))
}

/// The number of the error terminal, where errors are mended.
pub fn error_of(grammar: &Grammar) -> Option<usize>
    ensures { result ≡ error_of grammar.now }
{
    if grammar.uses_error_recovery {
        error_place(grammar.terminals.all.as_slice())
    } else {
        None
    }
}

// The parameter of this number has this name.
fn is_named(names: &[Parameter], i: usize, name: &Text) -> bool
    ensures { result ≡ is_named (slice_get names.now i) name.now }
{
    match names.get(i) {
        None => false,
        Some(p) => same_text(&p.name, name),
    }
}

// This value where it is one, else the other.
fn newer<'v>(is_one: bool, value: &'v Text, other: Option<&'v Text>) -> Option<&'v Text>
    ensures { option_copied result ≡ (if is_one then Some value.entry.now else option_copied other.entry) }
{
    if is_one { Some(value) } else { other }
}

// The value of the last parameter of this name.
fn last_named<'v>(names: &[Parameter], values: &'v [Text], name: &Text) -> Option<&'v Text>
    ensures { option_copied result ≡ last_named names.now name.now 0 values.entry.now None }
{
    let mut last = None;
    for (i, value) in values.iter().enumerate() {
        last = newer(is_named(names, i, name), value, last);
    }
    last
}

/// The values of the parameters: where two have one name, the last one's value stands for both.
pub fn params_of(
    alloc: Global,
    names: &[Parameter],
    values: &[Text],
) -> Result<Items<Text>, AllocError>
    ensures { IfOk result (λ params. params ≡ params_among names.now values.now names.now) }
{
    let mut params = Vec::new(alloc);
    for parameter in names {
        if let Some(value) = last_named(names, values, &parameter.name) {
            params.push(copied_text(value)?)?;
        }
    }
    Ok(Items(params))
}
