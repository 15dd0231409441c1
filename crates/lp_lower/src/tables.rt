//! What the lowered grammar knows by name: public names, terminals with their patterns, and types.

ghost use Rattle.std.specs.Prelude.{◌≡◌, ◌++◌, IfOk, OnOk, [], ◌∷◌, if◌then◌else◌, map, not};
ghost use Rattle.std.specs.BTreeMap.{insert_entry};
ghost use Rattle.lp_repr.specs.NameOrder.{nonterminal_cmp, terminal_cmp};
ghost use Rattle.lp_repr.specs.TypeTrees.{type_tree};
ghost use Rattle.lp_repr.specs.declared.repr.TerminalString.TheVariants.{Error};
ghost use Rattle.lp_lower.specs.Framing.{frame_of};
ghost use Rattle.lp_lower.specs.TypeOf.{holes_tree, recovery_tree};
ghost use Rattle.lp_lower.specs.Lowering.{declared_type, kept_rules, kept_type, named_patterns, nonterminal_types, pattern_entry, pattern_tree, public_names, public_rules, start_type, terminal_names, terminal_types, type_entry};
ghost use Rattle.lp_lower.specs.Productions.{put_all, start_name};

use crate::copies::{copy_nonterminal, copy_pattern, copy_terminal};
use crate::frame::Frame;
use crate::lists::{empty, push};
use crate::productions::start_name;
use crate::types::{holes_type, recovery_type};
use lp_repr::repr::{NonterminalString, TerminalString, TokenPattern, TypeRepr};
use lp_repr::text::Items;
use lp_syntax::{PlainGrammar, PlainRule, PlainTerminal};
use std::alloc::{AllocError, Global};
use std::collections::BTreeMap;

/// From each public name to its start.
pub fn public_names(
    alloc: Global,
    plain: &PlainGrammar,
) -> Result<BTreeMap<NonterminalString, NonterminalString>, AllocError>
    ensures { IfOk result (λ m. m.entries ≡ put_all nonterminal_cmp [] (public_names plain.now)) }
{
    let mut names = BTreeMap::new(alloc);
    for rule in plain.rules.as_slice() {
        put_public_name(alloc, plain, rule, &mut names)?;
    }
    Ok(names)
}

/// Puts the start of a public rule.
fn put_public_name(
    alloc: Global,
    plain: &PlainGrammar,
    rule: &PlainRule,
    names: &mut BTreeMap<NonterminalString, NonterminalString>,
) -> Result<(), AllocError>
    ensures { OnOk result (names.new.entries ≡ (if rule.now.public then insert_entry nonterminal_cmp names.old.entries rule.now.name (start_name plain.now rule.now) else names.old.entries)) }
{
    if rule.public {
        let name = copy_nonterminal(&rule.name)?;
        let start = start_name(alloc, plain, rule)?;
        names.insert(name, start)?;
    }
    Ok(())
}

/// The terminals in their order, the error terminal last where it is used.
pub fn terminal_names(
    alloc: Global,
    plain: &PlainGrammar,
    frame: Frame,
) -> Result<Items<TerminalString>, AllocError>
    requires { frame ≡ frame_of plain.now }
    ensures { IfOk result (λ t. t ≡ terminal_names plain.now) }
{
    let mut names = declared_names(alloc, plain.conversions.as_slice())?;
    push_error(frame.uses_error, &mut names)?;
    Ok(names)
}

/// Adds the error terminal where it is used.
fn push_error(used: bool, names: &mut Items<TerminalString>) -> Result<(), AllocError>
    ensures { OnOk result (names.new ≡ names.old ++ (if used then Error ∷ [] else [])) }
{
    if used {
        push(names, TerminalString::Error)?;
    }
    Ok(())
}

/// The names of these terminals.
fn declared_names(
    alloc: Global,
    terminals: &[PlainTerminal],
) -> Result<Items<TerminalString>, AllocError>
    ensures { IfOk result (λ t. t ≡ map (λ t. t.name) terminals.now) }
{
    let mut names = empty(alloc);
    for terminal in terminals {
        push(&mut names, copy_terminal(&terminal.name)?)?;
    }
    Ok(names)
}

/// From each terminal but the error terminal to its pattern.
pub fn patterns(
    alloc: Global,
    plain: &PlainGrammar,
) -> Result<BTreeMap<TerminalString, TokenPattern>, AllocError>
    ensures { IfOk result (λ m. map pattern_entry m.entries ≡ put_all terminal_cmp [] (named_patterns plain.now)) }
{
    let mut patterns = BTreeMap::new(alloc);
    for terminal in plain.conversions.as_slice() {
        put_pattern(alloc, terminal, &mut patterns)?;
    }
    Ok(patterns)
}

/// Puts the pattern of a terminal.
fn put_pattern(
    alloc: Global,
    terminal: &PlainTerminal,
    patterns: &mut BTreeMap<TerminalString, TokenPattern>,
) -> Result<(), AllocError>
    ensures { OnOk result (map pattern_entry patterns.new.entries ≡ insert_entry terminal_cmp (map pattern_entry patterns.old.entries) terminal.now.name (pattern_tree terminal.now.pattern)) }
{
    let name = copy_terminal(&terminal.name)?;
    let pattern = copy_pattern(alloc, &terminal.pattern)?;
    patterns.insert(name, pattern)?;
    Ok(())
}

/// The types of the terminals.
pub fn terminal_types(
    alloc: Global,
    plain: &PlainGrammar,
    frame: Frame,
) -> Result<BTreeMap<TerminalString, TypeRepr>, AllocError>
    requires { frame ≡ frame_of plain.now }
    ensures { IfOk result (λ m. map type_entry m.entries ≡ put_all terminal_cmp [] (terminal_types plain.now)) }
{
    let mut types = BTreeMap::new(alloc);
    put_declared_types(alloc, plain, &mut types)?;
    put_error_type(alloc, plain, frame.uses_error, &mut types)?;
    Ok(types)
}

/// Puts the type of the error terminal where it is used.
fn put_error_type(
    alloc: Global,
    plain: &PlainGrammar,
    used: bool,
    types: &mut BTreeMap<TerminalString, TypeRepr>,
) -> Result<(), AllocError>
    ensures { OnOk result (map type_entry types.new.entries ≡ (if used then insert_entry terminal_cmp (map type_entry types.old.entries) Error (recovery_tree plain.now) else map type_entry types.old.entries)) }
{
    if used {
        let ty = recovery_type(alloc, plain)?;
        put_type(TerminalString::Error, ty, types)?;
    }
    Ok(())
}

/// Puts the type of a name.
fn put_type<K: Ord + Drop>(
    name: K,
    ty: TypeRepr,
    types: &mut BTreeMap<K, TypeRepr>,
) -> Result<(), AllocError>
    ensures { OnOk result (map type_entry types.new.entries ≡ insert_entry K.cmp (map type_entry types.old.entries) name (type_tree ty)) }
{
    types.insert(name, ty)?;
    Ok(())
}

/// Puts the types of the terminals that are declared.
fn put_declared_types(
    alloc: Global,
    plain: &PlainGrammar,
    types: &mut BTreeMap<TerminalString, TypeRepr>,
) -> Result<(), AllocError>
    ensures { OnOk result (map type_entry types.new.entries ≡ put_all terminal_cmp (map type_entry types.old.entries) (map (declared_type plain.now) plain.now.conversions)) }
{
    for terminal in plain.conversions.as_slice() {
        put_declared_type(alloc, plain, terminal, types)?;
    }
    Ok(())
}

/// Puts the type of a terminal that is declared.
fn put_declared_type(
    alloc: Global,
    plain: &PlainGrammar,
    terminal: &PlainTerminal,
    types: &mut BTreeMap<TerminalString, TypeRepr>,
) -> Result<(), AllocError>
    ensures { OnOk result (map type_entry types.new.entries ≡ insert_entry terminal_cmp (map type_entry types.old.entries) terminal.now.name (holes_tree plain.now.token terminal.now.pattern.holes)) }
{
    let name = copy_terminal(&terminal.name)?;
    let holes = terminal.pattern.holes.as_slice();
    let ty = holes_type(alloc, &plain.token, holes)?;
    put_type(name, ty, types)?;
    Ok(())
}

/// The types of the starts, and of the rules that are not inline.
pub fn nonterminal_types(
    alloc: Global,
    plain: &PlainGrammar,
) -> Result<BTreeMap<NonterminalString, TypeRepr>, AllocError>
    ensures { IfOk result (λ m. map type_entry m.entries ≡ put_all nonterminal_cmp [] (nonterminal_types plain.now)) }
{
    let mut types = BTreeMap::new(alloc);
    put_start_types(alloc, plain, &mut types)?;
    put_rule_types(plain, &mut types)?;
    Ok(types)
}

/// Puts the types of the starts.
fn put_start_types(
    alloc: Global,
    plain: &PlainGrammar,
    types: &mut BTreeMap<NonterminalString, TypeRepr>,
) -> Result<(), AllocError>
    ensures { OnOk result (map type_entry types.new.entries ≡ put_all nonterminal_cmp (map type_entry types.old.entries) (map (start_type plain.now) (public_rules plain.now))) }
{
    for rule in plain.rules.as_slice() {
        put_start_type(alloc, plain, rule, types)?;
    }
    Ok(())
}

/// Puts the type of the start of a public rule.
fn put_start_type(
    alloc: Global,
    plain: &PlainGrammar,
    rule: &PlainRule,
    types: &mut BTreeMap<NonterminalString, TypeRepr>,
) -> Result<(), AllocError>
    ensures { OnOk result (map type_entry types.new.entries ≡ (if rule.now.public then insert_entry nonterminal_cmp (map type_entry types.old.entries) (start_name plain.now rule.now) (type_tree rule.now.ty) else map type_entry types.old.entries)) }
{
    if rule.public {
        let name = start_name(alloc, plain, rule)?;
        let ty = rule.ty.clone()?;
        put_type(name, ty, types)?;
    }
    Ok(())
}

/// Puts the types of the rules that are not inline.
fn put_rule_types(
    plain: &PlainGrammar,
    types: &mut BTreeMap<NonterminalString, TypeRepr>,
) -> Result<(), AllocError>
    ensures { OnOk result (map type_entry types.new.entries ≡ put_all nonterminal_cmp (map type_entry types.old.entries) (map kept_type (kept_rules plain.now))) }
{
    for rule in plain.rules.as_slice() {
        put_rule_type(rule, types)?;
    }
    Ok(())
}

/// Puts the type of a rule that is not inline.
fn put_rule_type(
    rule: &PlainRule,
    types: &mut BTreeMap<NonterminalString, TypeRepr>,
) -> Result<(), AllocError>
    ensures { OnOk result (map type_entry types.new.entries ≡ (if not rule.now.inline then insert_entry nonterminal_cmp (map type_entry types.old.entries) rule.now.name (type_tree rule.now.ty) else map type_entry types.old.entries)) }
{
    if rule.inline {
        return Ok(());
    }
    let name = copy_nonterminal(&rule.name)?;
    let ty = rule.ty.clone()?;
    put_type(name, ty, types)?;
    Ok(())
}
