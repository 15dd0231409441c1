//! From tokens to numbers of terminals and to symbols.

ghost use Rattle.std.specs.Prelude.{◌≡◌, ◌++◌, ◌∷◌, [], map, option_copied, string_bytes, IfOk, OnOk, if◌then◌else◌};
ghost use Rattle.std.specs.List.{flat_map, list_any};
ghost use Rattle.lp_build.specs.Tables.{integer_row as arm_row};
ghost use Rattle.lp_repr.specs.Shown.{pattern_text};
ghost use Rattle.lp_table.specs.KnownTerminals.{known_as};
ghost use Rattle.lp_table.specs.TokenLines.{capture_name, capture_names, captured_value, group_arm, group_of, group_patterns, groups_of, in_group, integer_row, integer_rows, known_from, known_one, named_pattern, number_of, number_type, own_pattern, pattern_of, pieces_from, same_group, symbols_header, terminal_variant, token_index, token_numbers, token_reference, token_symbols, token_value, with_group};
ghost use Rattle.lp_tree.specs.ProgramTree.{items};

use crate::headers::token_header;
use crate::machine::phantom_parameter;
use crate::pieces::{comma_list, copied, lent, made, variant_name};
use crate::shared::Shared;
use lp_build::{FunctionName, IntegerArm, symbol_arm, token_to_integer, token_to_symbol};
use lp_repr::Text;
use lp_repr::repr::{Grammar, TerminalString, TokenPattern};
use lp_tree::{Node, Piece};
use std::alloc::{AllocError, Global};

/// A pattern with `_` in its holes.
pub fn pattern_text<'t>(alloc: Global, pattern: &TokenPattern) -> Result<Piece<'t>, AllocError>
    ensures { IfOk result (λ p. p ≡ pattern_text pattern.now) }
{
    Ok(made(pattern.to_string(alloc)?))
}

/// A pattern with the names `~tok0`, `~tok1`, .. in its holes.
pub fn named_pattern(
    alloc: Global,
    prefix: &str,
    pattern: &TokenPattern,
) -> Result<String, AllocError>
    ensures { IfOk result (λ s. string_bytes s ≡ named_pattern prefix.now pattern.now) }
{
    let mut text = String::new(alloc);
    match pattern.pieces.as_slice().split_first() {
        None => {}
        Some((first, rest)) => {
            text.push_str(first.as_str())?;
            push_pieces(&mut text, prefix, rest)?;
        }
    }
    Ok(text)
}

/// Appends the pieces, each after the name of its capture.
fn push_pieces(text: &mut String, prefix: &str, pieces: &[Text]) -> Result<(), AllocError>
    ensures { OnOk result (string_bytes text.new ≡ string_bytes text.old ++ pieces_from prefix.now 0 pieces.now) }
{
    for (number, piece) in pieces.iter().enumerate() {
        push_piece(text, prefix, number, piece.as_str())?;
    }
    Ok(())
}

/// Appends a piece after the name of a capture.
fn push_piece(text: &mut String, prefix: &str, number: usize, piece: &str) -> Result<(), AllocError>
    ensures { OnOk result (string_bytes text.new ≡ string_bytes text.old ++ (capture_name prefix.now number ++ piece.now)) }
{
    write!(text, "{prefix}tok{number}{piece}")?;
    Ok(())
}

/// The names `~tok0`, `~tok1`, .. of so many captures, joined by `, `.
#[tactic(auto, using(std::proofs::lemmas::Grind::common_steps, crate::proofs::Ranges::range_next))]
pub fn capture_names(alloc: Global, prefix: &str, captures: usize) -> Result<String, AllocError>
    ensures { IfOk result (λ s. string_bytes s ≡ capture_names prefix.now captures) }
{
    let mut names = Vec::new(alloc);
    for number in 0..captures {
        names.push(capture_name(alloc, prefix, number)?)?;
    }
    comma_list(alloc, names.as_slice())
}

/// The name of a capture.
fn capture_name(alloc: Global, prefix: &str, number: usize) -> Result<Text, AllocError>
    ensures { IfOk result (λ t. t ≡ capture_name prefix.now number) }
{
    Ok(Text(format!(in alloc; "{prefix}tok{number}")?))
}

/// The number of a token's terminal.
#[tactic(auto, unfolding(crate::specs::TokenLines::token_numbers))]
pub fn token_numbers<'t>(alloc: Global, shared: &Shared<'t>) -> Result<Node<'t>, AllocError>
    ensures { IfOk result (λ n. items n ≡ token_numbers shared.now.grammar.now) }
{
    let grammar = shared.grammar;
    let arms = integer_arms(alloc, grammar, grammar.terminals.all.as_slice())?;
    let reference = token_reference(alloc, shared)?;
    let parameters = vec![in alloc; reference, phantom_parameter(alloc, shared)?]?;
    let name = FunctionName::TokenToInteger;
    let head = token_header(alloc, grammar, name, parameters, number_type())?;
    token_to_integer(alloc, arms, vec![in alloc; head]?)
}

/// The number of a terminal, where there is one.
#[tactic(auto, unfolding(crate::specs::TokenLines::number_type))]
fn number_type<'t>() -> Piece<'t>
    ensures { result ≡ number_type }
{
    lent("Option<usize>")
}

/// A token as a parameter.
fn token_reference<'t>(alloc: Global, shared: &Shared<'t>) -> Result<Piece<'t>, AllocError>
    ensures { IfOk result (λ p. p ≡ token_reference shared.now.grammar.now) }
{
    let prefix = shared.grammar.prefix.as_str();
    let token = shared.types.token.as_str();
    Ok(made(format!(in alloc; "{prefix}token: &{token}")?))
}

/// The terminals that have a pattern, with their numbers.
fn integer_arms<'t>(
    alloc: Global,
    grammar: &Grammar,
    terminals: &[TerminalString],
) -> Result<Vec<IntegerArm<'t>>, AllocError>
    ensures { IfOk result (λ v. map arm_row v.items ≡ integer_rows grammar.now 0 terminals.now) }
{
    let mut arms = Vec::new(alloc);
    for (number, terminal) in terminals.iter().enumerate() {
        push_integer(alloc, &mut arms, number, own_pattern(grammar, terminal))?;
    }
    Ok(arms)
}

/// The pattern of a terminal. The error terminal has none: it stands for no token.
fn own_pattern<'g>(grammar: &'g Grammar, terminal: &TerminalString) -> Option<&'g TokenPattern>
    ensures { option_copied result ≡ own_pattern grammar.entry.now terminal.now }
{
    match terminal {
        TerminalString::Quoted(_) => grammar.conversions.get(terminal),
        TerminalString::Bare(_) => grammar.conversions.get(terminal),
        TerminalString::Error => None,
    }
}

/// Adds a terminal that has a pattern.
fn push_integer<'t>(
    alloc: Global,
    arms: &mut Vec<IntegerArm<'t>>,
    number: usize,
    pattern: Option<&TokenPattern>,
) -> Result<(), AllocError>
    ensures { OnOk result (map arm_row arms.new.items ≡ map arm_row arms.old.items ++ integer_row number (option_copied pattern.entry)) }
{
    match pattern {
        None => Ok(()),
        Some(pattern) => {
            arms.push(IntegerArm {
                pattern: pattern_text(alloc, pattern)?,
                terminal: number as u64,
            })?;
            Ok(())
        }
    }
}

/// A terminal with a pattern.
#[derive(Clone, Copy)]
pub struct Known<'t> {
    number: u64,
    variant: usize,
    pattern: &'t TokenPattern,
}

/// The variant and the number of captures of some terminals.
#[derive(Clone, Copy)]
pub struct Group {
    variant: usize,
    captures: usize,
}

/// The terminals that have a pattern, by number.
fn known_terminals<'t>(
    alloc: Global,
    shared: &Shared<'t>,
    terminals: &[TerminalString],
) -> Result<Vec<Known<'t>>, AllocError>
    ensures { IfOk result (λ v. map known_as v.items ≡ known_from shared.now.grammar.now 0 terminals.now) }
{
    let mut known = Vec::new(alloc);
    for (number, terminal) in terminals.iter().enumerate() {
        push_known(&mut known, shared, number, terminal)?;
    }
    Ok(known)
}

/// Adds a terminal that has a pattern.
fn push_known<'t>(
    known: &mut Vec<Known<'t>>,
    shared: &Shared<'t>,
    number: usize,
    terminal: &TerminalString,
) -> Result<(), AllocError>
    ensures { OnOk result (map known_as known.new.items ≡ map known_as known.old.items ++ known_one shared.now.grammar.now number terminal.now) }
{
    let grammar = shared.grammar;
    let variant = terminal_variant(shared, number);
    match own_pattern(grammar, terminal) {
        None => Ok(()),
        Some(pattern) => {
            known.push(Known {
                number: number as u64,
                variant,
                pattern,
            })?;
            Ok(())
        }
    }
}

/// The variant of the terminal of a number.
fn terminal_variant(shared: &Shared<'_>, number: usize) -> usize
    ensures { result ≡ terminal_variant shared.now.grammar.now number }
{
    match shared.variants.terminals.as_slice().get(number) {
        None => 0,
        Some(variant) => *variant,
    }
}

/// The group of a terminal.
fn group_of(known: &Known<'_>) -> Group
    ensures { result ≡ group_of (known_as known.now) }
{
    Group {
        variant: known.variant,
        captures: known.pattern.holes.as_slice().len(),
    }
}

/// The groups, each once, in the order of their first terminals.
fn groups_of(alloc: Global, known: &[Known<'_>]) -> Result<Vec<Group>, AllocError>
    ensures { IfOk result (λ v. v.items ≡ groups_of (map known_as known.now)) }
{
    let mut groups = Vec::new(alloc);
    for terminal in known {
        push_group(&mut groups, group_of(terminal))?;
    }
    Ok(groups)
}

/// Adds a group that isn't there.
fn push_group(groups: &mut Vec<Group>, group: Group) -> Result<(), AllocError>
    ensures { OnOk result (groups.new.items ≡ with_group groups.old.items group) }
{
    if !has_group(groups.as_slice(), group) {
        groups.push(group)?;
    }
    Ok(())
}

/// A group is among these.
fn has_group(groups: &[Group], group: Group) -> bool
    ensures { result ≡ list_any (same_group group) groups.now }
{
    groups.iter().any(|other| same_group(group, *other))
}

/// The groups are equal.
fn same_group(one: Group, other: Group) -> bool
    ensures { result ≡ same_group one other }
{
    one.variant == other.variant && one.captures == other.captures
}

/// The terminals of a group.
#[tactic(auto, using(std::proofs::lemmas::Grind::common_steps, crate::proofs::Members::member_next))]
fn in_group<'t>(
    alloc: Global,
    group: Group,
    known: &[Known<'t>],
) -> Result<Vec<Known<'t>>, AllocError>
    ensures { IfOk result (λ v. map known_as v.items ≡ in_group group (map known_as known.now)) }
{
    let mut members = Vec::new(alloc);
    for terminal in known {
        push_member(
            &mut members,
            *terminal,
            same_group(group, group_of(terminal)),
        )?;
    }
    Ok(members)
}

/// Adds a terminal, if it is of the group.
fn push_member<'t>(
    members: &mut Vec<Known<'t>>,
    terminal: Known<'t>,
    belongs: bool,
) -> Result<(), AllocError>
    ensures { OnOk result (map known_as members.new.items ≡ map known_as members.old.items ++ (if belongs then known_as terminal.entry ∷ [] else [])) }
{
    if belongs {
        members.push(terminal)?;
    }
    Ok(())
}

/// The numbers of terminals.
fn numbers_of(alloc: Global, known: &[Known<'_>]) -> Result<Vec<u64>, AllocError>
    ensures { IfOk result (λ v. v.items ≡ map number_of (map known_as known.now)) }
{
    let mut numbers = Vec::new(alloc);
    for terminal in known {
        numbers.push(terminal.number)?;
    }
    Ok(numbers)
}

/// The patterns of terminals, with names in their holes.
fn patterns_of<'t>(
    alloc: Global,
    prefix: &str,
    known: &[Known<'_>],
) -> Result<Vec<Piece<'t>>, AllocError>
    ensures { IfOk result (λ v. v.items ≡ map (pattern_of prefix.now) (map known_as known.now)) }
{
    let mut patterns = Vec::new(alloc);
    for terminal in known {
        patterns.push(made(named_pattern(alloc, prefix, terminal.pattern)?))?;
    }
    Ok(patterns)
}

/// The patterns of a group, none where they have no captures.
fn group_patterns<'t>(
    alloc: Global,
    prefix: &str,
    captures: usize,
    known: &[Known<'_>],
) -> Result<Vec<Piece<'t>>, AllocError>
    ensures { IfOk result (λ v. v.items ≡ group_patterns prefix.now captures (map known_as known.now)) }
{
    if captures > 0 {
        patterns_of(alloc, prefix, known)
    } else {
        Ok(Vec::new(alloc))
    }
}

/// The value of a token.
#[tactic(auto, unfolding(crate::specs::TokenLines::token_symbols))]
pub fn token_symbols<'t>(alloc: Global, shared: &Shared<'t>) -> Result<Node<'t>, AllocError>
    ensures { IfOk result (λ n. items n ≡ token_symbols shared.now.grammar.now) }
{
    let grammar = shared.grammar;
    let known = known_terminals(alloc, shared, grammar.terminals.all.as_slice())?;
    let groups = groups_of(alloc, known.as_slice())?;
    let mut below = vec![in alloc; symbols_header(alloc, shared)?]?;
    let prefix = grammar.prefix.as_str();
    add_groups(
        alloc,
        &mut below,
        prefix,
        known.as_slice(),
        groups.as_slice(),
    )?;
    token_to_symbol(alloc, below)
}

/// The header of the function that gives the value of a token.
fn symbols_header<'t>(alloc: Global, shared: &Shared<'t>) -> Result<Node<'t>, AllocError>
    ensures { IfOk result (λ n. items n ≡ symbols_header shared.now.grammar.now) }
{
    let index = token_index(alloc, shared)?;
    let value = token_value(alloc, shared)?;
    let parameters = vec![in alloc; index, value, phantom_parameter(alloc, shared)?]?;
    let result = copied(alloc, shared.symbols.symbol.as_str())?;
    let name = FunctionName::TokenToSymbol;
    token_header(alloc, shared.grammar, name, parameters, result)
}

/// The number of a token as a parameter.
fn token_index<'t>(alloc: Global, shared: &Shared<'t>) -> Result<Piece<'t>, AllocError>
    ensures { IfOk result (λ p. p ≡ token_index shared.now.grammar.now) }
{
    let prefix = shared.grammar.prefix.as_str();
    Ok(made(format!(in alloc; "{prefix}token_index: usize")?))
}

/// A token's own value as a parameter.
fn token_value<'t>(alloc: Global, shared: &Shared<'t>) -> Result<Piece<'t>, AllocError>
    ensures { IfOk result (λ p. p ≡ token_value shared.now.grammar.now) }
{
    let prefix = shared.grammar.prefix.as_str();
    let token = shared.types.token.as_str();
    Ok(made(format!(in alloc; "{prefix}token: {token}")?))
}

/// Adds the arms of groups.
fn add_groups<'t>(
    alloc: Global,
    nodes: &mut Vec<Node<'t>>,
    prefix: &str,
    known: &[Known<'_>],
    groups: &[Group],
) -> Result<(), AllocError>
    ensures { OnOk result (flat_map items nodes.new.items ≡ flat_map items nodes.old.items ++ flat_map (group_arm prefix.now (map known_as known.now)) groups.now) }
{
    for group in groups {
        nodes.push(group_arm(alloc, prefix, known, *group)?)?;
    }
    Ok(())
}

/// The arm of a group.
fn group_arm<'t>(
    alloc: Global,
    prefix: &str,
    known: &[Known<'_>],
    group: Group,
) -> Result<Node<'t>, AllocError>
    ensures { IfOk result (λ n. items n ≡ group_arm prefix.now (map known_as known.now) group) }
{
    let members = in_group(alloc, group, known)?;
    let numbers = numbers_of(alloc, members.as_slice())?;
    let patterns = group_patterns(alloc, prefix, group.captures, members.as_slice())?;
    let captures = captured_value(alloc, prefix, group.captures)?;
    let variant = variant_name(alloc, group.variant)?;
    symbol_arm(alloc, numbers.as_slice(), patterns, variant, captures)
}

/// What a variant holds of so many captures: the one, or a tuple of them.
fn captured_value<'t>(alloc: Global, prefix: &str, captures: usize) -> Result<Piece<'t>, AllocError>
    ensures { IfOk result (λ p. p ≡ captured_value prefix.now captures) }
{
    let names = capture_names(alloc, prefix, captures)?;
    if captures > 1 {
        return Ok(made(format!(in alloc; "({names})")?));
    }
    Ok(made(names))
}
