//! The check of a grammar.

ghost use Rattle.std.specs.Prelude.{◌≡◌, ◌+◌, ◌≤◌, map, IfOk, MatchResult};
ghost use Rattle.std.specs.Map.Iter.{deref};
ghost use Rattle.std.specs.Option.{option_map};
ghost use Rattle.lp_repr.specs.Numbering.{productions_of};
ghost use Rattle.lp_valid.specs.Places.{IsFirstFailing, then_place};
ghost use Rattle.lp_valid.specs.Refusals.{RefusesGrammar};
ghost use Rattle.lp_valid.specs.ValidGrammar.{GrammarRule, number, HoldsBelow, names, symbols, types, counts, inlines, fallibles, error_terminal, distinct_terminals, ActionsAreNamed, ParametersAreNamed, Says, IsValidGrammar};

use crate::apart::failing_prefix;
use crate::circles::failing_inline;
use crate::repeats::failing_repeat;
use crate::starts::failing_start;
use crate::{actions, declared, spelling, terminals};
use lp_repr::numbering::productions;
use lp_repr::repr::{Grammar, Production};
use std::alloc::{AllocError, Global};

/// Why a grammar is refused.
#[derive(Clone, Copy)]
pub enum GrammarFault {
    /// The least rule that fails, and the least place at which it does.
    Rule { rule: u8, place: usize },
    /// Want of memory.
    Memory,
}

impl From<AllocError> for GrammarFault {
    ghost use Rattle.std.specs.Prelude.{◌≡◌};
    ghost use Rattle.lp_valid.specs.declared.grammars.GrammarFault.TheVariants.{Memory};

    ghost from_gives = { λ _ e. e ≡ Memory };

    fn from(_: AllocError) -> GrammarFault {
        GrammarFault::Memory
    }
}

/// Checks a grammar. A place is the number of the failing thing in the lists that the rule goes
/// over, counted through in their order.
///
/// The rules, by number, with their lists: 1 a public name is declared; a start nonterminal is
/// declared, has exactly one production of exactly one symbol, and stands on no right side
/// (starts). 2 A public name, its start name and a parameter name are identifiers; a parameter name
/// is no reserved word; an argument name is `_`, an identifier, or `mut` and an identifier; an
/// interned grammar has a parameter `input` (starts, parameters, actions, then one). 3 A start's
/// name begins with the prefix; other nonterminal names, parameter names, patterns, uses and
/// attributes don't hold it; types and the return types of actions hold it only inside the error
/// terminal's type (starts, nonterminals, parameters, types, return types, patterns, uses,
/// attributes). 4 Productions are distinct and stand under their nonterminal; their symbols and
/// actions are known, and those of inlines (productions, actions). 5 Every symbol has a type; every
/// terminal but the error terminal has a pattern with one piece more than holes, whose text isn't
/// empty (terminals, nonterminals). 6 A production has as many symbols as its action takes; an
/// inline's parts take as many as they are given, its outer action as many as its symbols; a user
/// action has as many argument names as types (productions, actions). 7 An inline has at least one
/// symbol and doesn't reach itself through its parts and its outer action (actions). 8 An inline is
/// fallible where its outer action or a part is; a lookaround isn't fallible (actions). 9 The error
/// terminal stands nowhere but last, and it is the last terminal exactly where recovery is used
/// (terminals, then one). 10 Terminals are distinct (terminals). A thing that stands twice fails at
/// its second place.
pub fn check_grammar(alloc: Global, grammar: &Grammar) -> Result<(), GrammarFault>
    ensures { MatchResult result (λ _. IsValidGrammar grammar.now) (RefusesGrammar grammar.now) }
{
    let productions = productions(alloc, grammar)?;
    check_symbols(alloc, grammar, &productions)?;
    check_actions(alloc, grammar, &productions)
}

/// Checks the rules up to the fifth.
fn check_symbols<'g>(
    alloc: Global,
    grammar: &'g Grammar,
    productions: &[&'g Production],
) -> Result<(), GrammarFault>
    requires { map deref productions.now ≡ productions_of grammar.now }
    ensures { MatchResult result (λ _. HoldsBelow grammar.now 6) (RefusesGrammar grammar.now) }
{
    passes(grammar, 1, failing_start(alloc, grammar, productions)?)?;
    passes(grammar, 2, failing_names(grammar)?)?;
    passes(grammar, 3, failing_prefix(alloc, grammar)?)?;
    passes(grammar, 4, failing_symbols(alloc, grammar, productions)?)?;
    passes(grammar, 5, failing_types(grammar)?)
}

/// Checks the rules from the sixth on.
fn check_actions(
    alloc: Global,
    grammar: &Grammar,
    productions: &[&Production],
) -> Result<(), GrammarFault>
    requires numbered { map deref productions.now ≡ productions_of grammar.now }
    requires lesser { HoldsBelow grammar.now 6 }
    ensures { MatchResult result (λ _. IsValidGrammar grammar.now) (RefusesGrammar grammar.now) }
{
    passes(grammar, 6, failing_counts(grammar, productions)?)?;
    passes(grammar, 7, failing_inlines(alloc, grammar)?)?;
    passes(grammar, 8, failing_fallibles(grammar))?;
    passes(grammar, 9, failing_error_terminal(grammar)?)?;
    passes(grammar, 10, failing_distinct_terminals(alloc, grammar)?)
}

/// The first start, parameter or action with a name that it can't have; at last, whether the
/// parameter of an interned grammar is missing.
fn failing_names(grammar: &Grammar) -> Result<Option<usize>, AllocError>
    ensures { IfOk result (IsFirstFailing (Says grammar.now names)) }
{
    if let Some(place) = spelling::failing_start_name(grammar) {
        return Ok(Some(place));
    }
    let before = grammar.start_nonterminals.len();
    after(before, failing_parameter_names(grammar)?)
}

fn failing_parameter_names(grammar: &Grammar) -> Result<Option<usize>, AllocError>
    ensures { IfOk result (IsFirstFailing (ParametersAreNamed grammar.now)) }
{
    let parameters = grammar.parameters.as_slice();
    if let Some(place) = spelling::failing_parameter_name(parameters) {
        return Ok(Some(place));
    }
    after(parameters.len(), failing_action_names(grammar))
}

fn failing_action_names(grammar: &Grammar) -> Option<usize>
    ensures { IsFirstFailing (ActionsAreNamed grammar.now) result }
{
    let actions = grammar.action_fn_defns.as_slice();
    if let Some(place) = spelling::failing_argument_name(actions) {
        return Some(place);
    }
    if spelling::has_input(grammar) {
        return None;
    }
    Some(actions.len())
}

/// The first production, and then the first action, that names what isn't declared; a production
/// fails also where an equal one stands before it, or under another nonterminal.
fn failing_symbols<'g>(
    alloc: Global,
    grammar: &'g Grammar,
    productions: &[&'g Production],
) -> Result<Option<usize>, AllocError>
    requires { map deref productions.now ≡ productions_of grammar.now }
    ensures { IfOk result (IsFirstFailing (Says grammar.now symbols)) }
{
    let terminals = declared::terminals(alloc, grammar)?;
    if let Some(place) = declared::failing_production(alloc, grammar, &terminals, productions)? {
        return Ok(Some(place));
    }
    after(
        productions.len(),
        declared::failing_action(grammar, &terminals),
    )
}

/// The first terminal, and then the first nonterminal, without a type; a terminal but the error
/// terminal fails also without a pattern.
fn failing_types(grammar: &Grammar) -> Result<Option<usize>, AllocError>
    ensures { IfOk result (IsFirstFailing (Says grammar.now types)) }
{
    if let Some(place) = terminals::failing_terminal_type(grammar) {
        return Ok(Some(place));
    }
    let before = grammar.terminals.all.as_slice().len();
    after(before, terminals::failing_nonterminal_type(grammar))
}

/// The first production, and then the first action, with another count of symbols than is taken.
fn failing_counts(
    grammar: &Grammar,
    productions: &[&Production],
) -> Result<Option<usize>, AllocError>
    requires { map deref productions.now ≡ productions_of grammar.now }
    ensures { IfOk result (IsFirstFailing (Says grammar.now counts)) }
{
    let actions = grammar.action_fn_defns.as_slice();
    if let Some(place) = actions::failing_production_count(actions, productions) {
        return Ok(Some(place));
    }
    after(productions.len(), actions::failing_action_count(actions))
}

fn failing_inlines(alloc: Global, grammar: &Grammar) -> Result<Option<usize>, AllocError>
    ensures { IfOk result (IsFirstFailing (Says grammar.now inlines)) }
{
    failing_inline(alloc, grammar.action_fn_defns.as_slice())
}

fn failing_fallibles(grammar: &Grammar) -> Option<usize>
    ensures { IsFirstFailing (Says grammar.now fallibles) result }
{
    actions::failing_fallible(grammar.action_fn_defns.as_slice())
}

/// The first place but the last at which the error terminal stands; at last, whether it is the last
/// terminal exactly where recovery is used.
fn failing_error_terminal(grammar: &Grammar) -> Result<Option<usize>, AllocError>
    ensures { IfOk result (IsFirstFailing (Says grammar.now error_terminal)) }
{
    let terminals = grammar.terminals.all.as_slice();
    if let Some(place) = terminals::failing_error(terminals) {
        return Ok(Some(place));
    }
    if terminals::ends_in_error(terminals) == grammar.uses_error_recovery {
        return Ok(None);
    }
    Ok(Some(terminals.len()))
}

fn failing_distinct_terminals(alloc: Global, grammar: &Grammar) -> Result<Option<usize>, AllocError>
    ensures { IfOk result (IsFirstFailing (Says grammar.now distinct_terminals)) }
{
    failing_repeat(alloc, grammar.terminals.all.as_slice())
}

/// The failing place of a list that stands after so many things. More things than there are numbers
/// would want more memory than there is.
fn after(before: usize, failing: Option<usize>) -> Result<Option<usize>, AllocError>
    ensures { IfOk result (λ place. place ≡ option_map (λ p. before + p) failing) }
{
    match failing {
        None => Ok(None),
        Some(place) => match before.checked_add(place) {
            None => Err(AllocError),
            Some(sum) => Ok(Some(sum)),
        },
    }
}

/// The first failing place of a list of so many things and of what stands after them.
pub(crate) fn then(
    count: usize,
    first: Option<usize>,
    second: Option<usize>,
) -> Result<Option<usize>, AllocError>
    ensures { IfOk result (λ place. place ≡ then_place count first second) }
{
    match first {
        Some(place) => Ok(Some(place)),
        None => after(count, second),
    }
}

/// Refuses where the rule has a failing place.
fn passes(_grammar: &Grammar, rule: u8, failing: Option<usize>) -> Result<(), GrammarFault>
    requires low { 1 ≤ rule }
    requires high { rule ≤ 10 }
    requires lesser { HoldsBelow _grammar.now rule }
    requires this { (r : GrammarRule) → number r ≡ rule → IsFirstFailing (Says _grammar.now r) failing }
    ensures { MatchResult result (λ _. HoldsBelow _grammar.now (rule + 1)) (RefusesGrammar _grammar.now) }
{
    match failing {
        None => Ok(()),
        Some(place) => Err(GrammarFault::Rule { rule, place }),
    }
}
