//! The check of the texts of a grammar.

ghost use Rattle.std.specs.Prelude.{MatchResult};
ghost use Rattle.lp_texts.specs.TextRules.{TextsMeet, IsFirstFault};

use crate::counted::{check_keys, check_slice, check_values};
use crate::faults::{TextFault, TextKind};
use crate::rules::{AttributeRule, CodeRule, NonterminalRule, PatternRule, TerminalRule, UseRule};
use crate::types::check_types;
use lp_repr::Text;
use lp_repr::repr::{
    ActionFnDefn, Grammar, NonterminalData, NonterminalString, TerminalString, TokenPattern,
};
use std::alloc::Global;

/// Ok where each text meets its rule, else the first that doesn't, by kind and then by number, and
/// its first wrong byte.
pub fn check_texts(alloc: Global, grammar: &Grammar) -> Result<(), TextFault>
    ensures { MatchResult result (λ _. TextsMeet grammar.now) (IsFirstFault grammar.now) }
{
    let uses = grammar.uses.as_slice();
    let _uses = check_slice::<Text, UseRule>(alloc, TextKind::Use, 0, uses)?;
    let attributes = grammar.module_attributes.as_slice();
    let kind = TextKind::Attribute;
    let _attributes = check_slice::<Text, AttributeRule>(alloc, kind, 0, attributes)?;
    let terminals = grammar.terminals.all.as_slice();
    let kind = TextKind::Terminal;
    let _terminals = check_slice::<TerminalString, TerminalRule>(alloc, kind, 0, terminals)?;
    let _nonterminals = check_keys::<NonterminalString, NonterminalData, NonterminalRule>(
        alloc,
        TextKind::Nonterminal,
        0,
        &grammar.nonterminals,
    )?;
    let _patterns = check_values::<TerminalString, TokenPattern, PatternRule>(
        alloc,
        TextKind::Pattern,
        0,
        &grammar.conversions,
    )?;
    let _types = check_types(alloc, grammar)?;
    let actions = grammar.action_fn_defns.as_slice();
    let _codes = check_slice::<ActionFnDefn, CodeRule>(alloc, TextKind::Code, 0, actions)?;
    Ok(())
}
