//! The reductions of a state.

ghost use Rattle.std.specs.Prelude.{◌≡◌, ◌++◌, false, map, option_copied, string_bytes, IfOk, OnOk};
ghost use Rattle.std.specs.List.{flat_map, list_any};
ghost use Rattle.std.specs.Map.Iter.{deref};
ghost use Rattle.lp_form.specs.declared.part.Part.TheVariants as part;
ghost use Rattle.lp_build.specs.Ascent.{but_header, header_parts, reduction_lines as lines_of};
ghost use Rattle.lp_parts.specs.Entries.{is_eof, is_terminal};
ghost use Rattle.lp_tree.specs.ProgramTree.{is_part, items};
ghost use Rattle.lp_ascent.specs.ReduceLines.{arm_by, but_last, empty_span, ends, first_popped, is_reduced, last_pattern, pattern_if, patterns_from, popped_arguments, popped_slots, popped_span, reduction_arm, reduction_line, reduction_lines, reduction_of, reductions_from, terminal_patterns, token_pattern, token_patterns};
ghost use Rattle.lp_ascent.specs.Slots.{layout_of};

use crate::answers::answer_name;
use crate::calls::{cells_from, slot_list};
use crate::forms::put_arm;
use crate::slots::Slots;
use lp_build::{AscentSpan, Reduction, reduce_arm};
use lp_repr::repr::{Grammar, Production, TerminalString, TokenPattern};
use lp_repr::{Items, Token};
use lp_table::pieces::{copied, made};
use lp_table::shared::Shared;
use lp_table::tokens::pattern_text;
use lp_tree::{Node, Piece};
use std::alloc::{AllocError, Global};

/// Adds the reductions, by production.
#[tactic(auto, unfolding(crate::specs::ReduceLines::reduction_lines))]
pub fn add_reductions<'t>(
    alloc: Global,
    nodes: &mut Vec<Node<'t>>,
    shared: &Shared<'t>,
    slots: Slots<'_>,
    reductions: &[(Items<Token>, usize)],
) -> Result<(), AllocError>
    ensures headers { OnOk result (flat_map header_parts nodes.new.items ≡ flat_map header_parts nodes.old.items) }
    ensures arms { OnOk result (flat_map but_header nodes.new.items ≡ flat_map but_header nodes.old.items ++ reduction_lines shared.now.grammar.now (layout_of slots.entry) reductions.now) }
{
    let productions = shared.productions.as_slice();
    add_by_production(alloc, nodes, shared, slots, reductions, productions)
}

/// Adds those by each of these productions.
fn add_by_production<'t>(
    alloc: Global,
    nodes: &mut Vec<Node<'t>>,
    shared: &Shared<'t>,
    slots: Slots<'_>,
    reductions: &[(Items<Token>, usize)],
    productions: &[&Production],
) -> Result<(), AllocError>
    ensures headers { OnOk result (flat_map header_parts nodes.new.items ≡ flat_map header_parts nodes.old.items) }
    ensures arms { OnOk result (flat_map but_header nodes.new.items ≡ flat_map but_header nodes.old.items ++ reductions_from shared.now.grammar.now (layout_of slots.entry) reductions.now 0 (map deref productions.now)) }
{
    for (number, production) in productions.iter().enumerate() {
        add_reductions_by(alloc, nodes, shared, slots, number, *production, reductions)?;
    }
    Ok(())
}

/// Adds the reductions by the production of a number.
fn add_reductions_by<'t>(
    alloc: Global,
    nodes: &mut Vec<Node<'t>>,
    shared: &Shared<'t>,
    slots: Slots<'_>,
    number: usize,
    production: &Production,
    reductions: &[(Items<Token>, usize)],
) -> Result<(), AllocError>
    ensures headers { OnOk result (flat_map header_parts nodes.new.items ≡ flat_map header_parts nodes.old.items) }
    ensures arms { OnOk result (flat_map but_header nodes.new.items ≡ flat_map but_header nodes.old.items ++ flat_map (reduction_line shared.now.grammar.now (layout_of slots.entry) number production.now) reductions.now) }
{
    for reduction in reductions {
        add_reduction(alloc, nodes, shared, slots, number, production, reduction)?;
    }
    Ok(())
}

/// Adds a reduction, if it is by the production of this number.
fn add_reduction<'t>(
    alloc: Global,
    nodes: &mut Vec<Node<'t>>,
    shared: &Shared<'t>,
    slots: Slots<'_>,
    number: usize,
    production: &Production,
    reduction: &(Items<Token>, usize),
) -> Result<(), AllocError>
    ensures headers { OnOk result (flat_map header_parts nodes.new.items ≡ flat_map header_parts nodes.old.items) }
    ensures arms { OnOk result (flat_map but_header nodes.new.items ≡ flat_map but_header nodes.old.items ++ reduction_line shared.now.grammar.now (layout_of slots.entry) number production.now reduction.now) }
{
    if is_reduced(number, reduction) {
        let tokens = reduction.0.as_slice();
        put_arm(
            nodes,
            reduction_arm(alloc, shared, slots, production, tokens)?,
        )
    } else {
        Ok(())
    }
}

/// A reduction is by the production of a number, and has tokens.
fn is_reduced(number: usize, reduction: &(Items<Token>, usize)) -> bool
    ensures { result ≡ is_reduced number reduction.now }
{
    reduction.1 == number && !reduction.0.as_slice().is_empty()
}

/// One reduction.
fn reduction_arm<'t>(
    alloc: Global,
    shared: &Shared<'t>,
    slots: Slots<'_>,
    production: &Production,
    tokens: &[Token],
) -> Result<Node<'t>, AllocError>
    ensures arm { IfOk result (λ n. is_part part.HeaderState n ≡ false) }
    ensures items { IfOk result (λ n. items n ≡ reduction_arm shared.now.grammar.now (layout_of slots.entry) production.now tokens.now) }
{
    let patterns = token_patterns(alloc, shared.grammar, tokens)?;
    let reduction = reduction_of(alloc, shared, slots, production)?;
    arm_by(alloc, ends(tokens), patterns, reduction)
}

/// A reduction on tokens of these patterns, and at the end of input where they end so.
fn arm_by<'t>(
    alloc: Global,
    ends: bool,
    patterns: Vec<Piece<'t>>,
    reduction: Reduction<'t>,
) -> Result<Node<'t>, AllocError>
    ensures arm { IfOk result (λ n. is_part part.HeaderState n ≡ false) }
    ensures items { IfOk result (λ n. items n ≡ arm_by ends patterns.entry.items (lines_of reduction.entry)) }
{
    let mut others = patterns;
    let last = last_pattern(&mut others, ends);
    reduce_arm(alloc, others, last, reduction)
}

/// Takes the pattern of the last token, unless that is the end of input.
#[tactic(auto, using(std::proofs::lemmas::Grind::common_steps, crate::proofs::LastPatterns::last_popped))]
fn last_pattern<'t>(patterns: &mut Vec<Piece<'t>>, ends: bool) -> Option<Piece<'t>>
    ensures last { result ≡ last_pattern ends patterns.old.items }
    ensures others { patterns.new.items ≡ but_last ends patterns.old.items }
{
    if ends { None } else { patterns.pop() }
}

/// The end of input is among the tokens.
fn ends(tokens: &[Token]) -> bool
    ensures { result ≡ ends tokens.now }
{
    tokens.iter().any(|token| is_eof(token))
}

/// A token is the end of input.
fn is_eof(token: &Token) -> bool
    ensures { result ≡ is_eof token.now }
{
    match token {
        Token::Terminal(_) => false,
        Token::Eof => true,
    }
}

/// A token is the terminal of this number.
fn is_terminal(number: usize, token: &Token) -> bool
    ensures { result ≡ is_terminal number token.now }
{
    match token {
        Token::Terminal(terminal) => number == *terminal,
        Token::Eof => false,
    }
}

/// The patterns of the terminals among the tokens, by number.
#[tactic(auto, unfolding(crate::specs::ReduceLines::token_patterns))]
fn token_patterns<'t>(
    alloc: Global,
    grammar: &Grammar,
    tokens: &[Token],
) -> Result<Vec<Piece<'t>>, AllocError>
    ensures { IfOk result (λ v. v.items ≡ token_patterns grammar.now tokens.now) }
{
    patterns_among(alloc, grammar, tokens, grammar.terminals.all.as_slice())
}

/// Those of these terminals.
fn patterns_among<'t>(
    alloc: Global,
    grammar: &Grammar,
    tokens: &[Token],
    terminals: &[TerminalString],
) -> Result<Vec<Piece<'t>>, AllocError>
    ensures { IfOk result (λ v. v.items ≡ patterns_from grammar.now tokens.now 0 terminals.now) }
{
    let mut patterns = Vec::new(alloc);
    for (number, terminal) in terminals.iter().enumerate() {
        add_terminal(alloc, &mut patterns, grammar, number, terminal, tokens)?;
    }
    Ok(patterns)
}

/// Adds the pattern of a terminal of a number for each token that is the terminal.
fn add_terminal<'t>(
    alloc: Global,
    patterns: &mut Vec<Piece<'t>>,
    grammar: &Grammar,
    number: usize,
    terminal: &TerminalString,
    tokens: &[Token],
) -> Result<(), AllocError>
    ensures { OnOk result (patterns.new.items ≡ patterns.old.items ++ terminal_patterns grammar.now tokens.now number terminal.now) }
{
    let pattern = grammar.conversions.get(terminal);
    add_patterns(alloc, patterns, number, pattern, tokens)
}

/// Adds a pattern for each token that is the terminal of the number.
fn add_patterns<'t>(
    alloc: Global,
    patterns: &mut Vec<Piece<'t>>,
    number: usize,
    pattern: Option<&TokenPattern>,
    tokens: &[Token],
) -> Result<(), AllocError>
    ensures { OnOk result (patterns.new.items ≡ patterns.old.items ++ flat_map (token_pattern number (option_copied pattern.entry)) tokens.now) }
{
    for token in tokens {
        add_if_terminal(alloc, patterns, number, pattern, token)?;
    }
    Ok(())
}

/// Adds a pattern, if the token is the terminal of the number.
fn add_if_terminal<'t>(
    alloc: Global,
    patterns: &mut Vec<Piece<'t>>,
    number: usize,
    pattern: Option<&TokenPattern>,
    token: &Token,
) -> Result<(), AllocError>
    ensures { OnOk result (patterns.new.items ≡ patterns.old.items ++ token_pattern number (option_copied pattern.entry) token.now) }
{
    if is_terminal(number, token) {
        add_pattern(alloc, patterns, pattern)
    } else {
        Ok(())
    }
}

/// Adds a pattern, if there is one.
fn add_pattern<'t>(
    alloc: Global,
    patterns: &mut Vec<Piece<'t>>,
    pattern: Option<&TokenPattern>,
) -> Result<(), AllocError>
    ensures { OnOk result (patterns.new.items ≡ patterns.old.items ++ pattern_if (option_copied pattern.entry)) }
{
    match pattern {
        None => Ok(()),
        Some(pattern) => {
            patterns.push(pattern_text(alloc, pattern)?)?;
            Ok(())
        }
    }
}

/// What a reduction does.
#[tactic(auto, unfolding(crate::specs::ReduceLines::reduction_of))]
fn reduction_of<'t>(
    alloc: Global,
    shared: &Shared<'t>,
    slots: Slots<'_>,
    production: &Production,
) -> Result<Reduction<'t>, AllocError>
    ensures { IfOk result (λ r. lines_of r ≡ reduction_of shared.now.grammar.now (layout_of slots.entry) production.now) }
{
    let popped = production.symbols.as_slice().len();
    let first = first_popped(slots, production);
    let takes = cells_from(alloc, slots, first)?;
    let span = popped_span(alloc, shared, slots, popped)?;
    let type_arguments = copied(alloc, shared.parameters.generic_names.as_str())?;
    let arguments = popped_arguments(alloc, shared, first, slots.count())?;
    let nonterminal = answer_name(alloc, &production.nonterminal)?;
    Ok(Reduction {
        takes,
        span,
        action: production.action as u64,
        type_arguments,
        arguments,
        fallible: shared.is_fallible(production),
        nonterminal,
        returns: popped > 0,
    })
}

/// The first of the slots that a reduction by a production pops.
fn first_popped(slots: Slots<'_>, production: &Production) -> usize
    ensures { result ≡ first_popped (layout_of slots.entry) production.now }
{
    let popped = production.symbols.as_slice().len();
    slots.count().saturating_sub(popped)
}

/// The arguments of an action: the parameters, then the popped slots, or the span of none.
fn popped_arguments<'t>(
    alloc: Global,
    shared: &Shared<'t>,
    first: usize,
    end: usize,
) -> Result<Piece<'t>, AllocError>
    ensures { IfOk result (λ p. p ≡ popped_arguments shared.now.grammar.now first end) }
{
    let mut text = shared.parameters.arguments.clone()?;
    let slots = popped_slots(alloc, shared.grammar.prefix.as_str(), first, end)?;
    text.push_str(slots.as_str())?;
    Ok(made(text))
}

/// The slots from one to before another as arguments, or the span of none.
fn popped_slots(alloc: Global, prefix: &str, first: usize, end: usize) -> Result<String, AllocError>
    ensures { IfOk result (λ s. string_bytes s ≡ popped_slots prefix.now first end) }
{
    if first >= end {
        return format!(in alloc; "&{prefix}start, &{prefix}end");
    }
    slot_list(alloc, prefix, first, end)
}

/// Where the span of so many popped slots comes from.
fn popped_span<'t>(
    alloc: Global,
    shared: &Shared<'t>,
    slots: Slots<'_>,
    popped: usize,
) -> Result<AscentSpan<'t>, AllocError>
    ensures { IfOk result (λ s. s ≡ popped_span shared.now.grammar.now (layout_of slots.entry) popped) }
{
    let count = slots.count();
    if count == 0 {
        let location = copied(alloc, shared.types.location.as_str())?;
        return Ok(AscentSpan::Bottom { location });
    }
    if popped > 0 {
        return Ok(AscentSpan::Symbols {
            first: count.saturating_sub(popped) as u64,
            last: (count - 1) as u64,
        });
    }
    Ok(empty_span(slots, count - 1))
}

/// The span of no slots above the top one.
fn empty_span<'t>(slots: Slots<'_>, top: usize) -> AscentSpan<'t>
    ensures { result ≡ empty_span (layout_of slots.entry) top }
{
    let slot = top as u64;
    if slots.is_cell(top) {
        AscentSpan::Optional { slot }
    } else {
        AscentSpan::Fixed { slot }
    }
}
