//! Reductions and transitions of recursive ascent.

ghost use Rattle.std.specs.Prelude.{◌≡◌, [], ◌∷◌, ◌++◌, map, IfOk, if◌then◌else◌};
ghost use Rattle.std.specs.Fmt.{decimal};
ghost use Rattle.lp_build.specs.Ascent.{ascent_span, first_holes, first_part, last_token, more_tokens, reduction_lines};
ghost use Rattle.lp_build.specs.Built.{leaf_if, text_rows};
ghost use Rattle.lp_tree.specs.ProgramTree.{all_notes, head, items, leaf, parts_below, unnoted};

use super::{add_if, add_numbers, add_texts, bare, text_row};
use lp_form::Part;
use lp_tree::piece::Piece;
use lp_tree::tree::Node;
use std::alloc::{AllocError, Global};
use std::collections::VecDeque;

/// The span of a reduction.
#[derive(Drop)]
pub enum AscentSpan<'t> {
    /// From the first popped slot to the last.
    Symbols { first: u64, last: u64 },
    /// No symbols, above a fixed slot.
    Fixed { slot: u64 },
    /// No symbols, above an optional slot.
    Optional { slot: u64 },
    /// No symbols above nothing: the location type.
    Bottom { location: Piece<'t> },
}

/// What a reduction does: the optional slots that it takes, the span, the action, the type arguments
/// joined by `, `, the arguments joined by `, `, whether the action is fallible, the escaped name of
/// the nonterminal, and whether it answers at once.
#[derive(Drop)]
pub struct Reduction<'t> {
    pub takes: Vec<u64>,
    pub span: AscentSpan<'t>,
    pub action: u64,
    pub type_arguments: Piece<'t>,
    pub arguments: Piece<'t>,
    pub fallible: bool,
    pub nonterminal: Piece<'t>,
    pub returns: bool,
}

/// The lines that find the span.
fn span_lines<'t>(alloc: Global, span: AscentSpan<'t>) -> Result<Node<'t>, AllocError>
    ensures items { IfOk result (λ n. items n ≡ ascent_span span.entry) }
    ensures notes { IfOk result (λ n. all_notes n ≡ unnoted (ascent_span span.entry)) }
{
    match span {
        AscentSpan::Symbols { first, last } => {
            let first = Piece::number(alloc, first)?;
            let last = Piece::number(alloc, last)?;
            Node::leaf(alloc, Part::AscentPopped, vec![in alloc; first, last]?)
        }
        AscentSpan::Fixed { slot } => {
            text_row(alloc, Part::AscentFixed, Piece::number(alloc, slot)?)
        }
        AscentSpan::Optional { slot } => {
            text_row(alloc, Part::AscentOptional, Piece::number(alloc, slot)?)
        }
        AscentSpan::Bottom { location } => text_row(alloc, Part::AscentBottom, location),
    }
}

/// The lines of a reduction after its tokens.
fn reduce_lines<'t>(alloc: Global, reduction: Reduction<'t>) -> Result<Node<'t>, AllocError>
    ensures items { IfOk result (λ n. items n ≡ reduction_lines reduction.entry) }
    ensures notes { IfOk result (λ n. all_notes n ≡ unnoted (reduction_lines reduction.entry)) }
{
    let Reduction {
        takes,
        span,
        action,
        type_arguments,
        arguments,
        fallible,
        nonterminal,
        returns,
    } = reduction;
    let mut node = text_row(alloc, Part::ReduceLines, nonterminal)?;
    add_numbers(alloc, &mut node, Part::TakeLine, takes.as_slice())?;
    node.add(span_lines(alloc, span)?)?;
    node.add(call_line(alloc, fallible, action, type_arguments, arguments)?)?;
    add_if(alloc, &mut node, returns, Part::ReturnLine)?;
    Ok(node)
}

/// The call of an action.
fn call_line<'t>(
    alloc: Global,
    fallible: bool,
    action: u64,
    type_arguments: Piece<'t>,
    arguments: Piece<'t>,
) -> Result<Node<'t>, AllocError>
    ensures items { IfOk result (λ n. items n ≡ leaf (if fallible then Part.AscentCallFallible else Part.AscentCall) (decimal action ∷ type_arguments.entry ∷ arguments.entry ∷ [])) }
    ensures notes { IfOk result (λ n. all_notes n ≡ [] ∷ []) }
{
    let part = if fallible {
        Part::AscentCallFallible
    } else {
        Part::AscentCall
    };
    let action = Piece::number(alloc, action)?;
    Node::leaf(
        alloc,
        part,
        vec![in alloc; action, type_arguments, arguments]?,
    )
}

/// Form 38: a reduction: the patterns of the tokens but the last, the last token (None is the end of
/// input), and what it does.
pub fn reduce_arm<'t>(
    alloc: Global,
    tokens: Vec<Piece<'t>>,
    last: Option<Piece<'t>>,
    reduction: Reduction<'t>,
) -> Result<Node<'t>, AllocError>
    ensures head { IfOk result (λ n. head n ≡ (first_part tokens.entry.items last.entry, first_holes tokens.entry.items last.entry, [])) }
    ensures below { IfOk result (λ n. parts_below n ≡ more_tokens tokens.entry.items last.entry ++ reduction_lines reduction.entry) }
    ensures notes { IfOk result (λ n. all_notes n ≡ [] ∷ unnoted (more_tokens tokens.entry.items last.entry ++ reduction_lines reduction.entry)) }
{
    let mut node = token_lines(alloc, tokens, last)?;
    node.add(reduce_lines(alloc, reduction)?)?;
    Ok(node)
}

/// The tokens of a reduction: those but the last, and the last one.
#[tactic(auto, using(std::proofs::lemmas::Grind::common_steps, crate::proofs::Tokens::first_part_none, crate::proofs::Tokens::first_holes_none, crate::proofs::Tokens::more_tokens_none, crate::proofs::Tokens::more_notes_none))]
fn token_lines<'t>(
    alloc: Global,
    tokens: Vec<Piece<'t>>,
    last: Option<Piece<'t>>,
) -> Result<Node<'t>, AllocError>
    ensures head { IfOk result (λ n. head n ≡ (first_part tokens.entry.items last.entry, first_holes tokens.entry.items last.entry, [])) }
    ensures below { IfOk result (λ n. parts_below n ≡ more_tokens tokens.entry.items last.entry) }
    ensures notes { IfOk result (λ n. all_notes n ≡ [] ∷ unnoted (more_tokens tokens.entry.items last.entry)) }
{
    let mut tokens = VecDeque::from(tokens);
    match tokens.pop_front() {
        None => only_token(alloc, last),
        Some(first) => several_tokens(alloc, first, Vec::from(tokens), last),
    }
}

/// The only token of a reduction.
fn only_token<'t>(alloc: Global, token: Option<Piece<'t>>) -> Result<Node<'t>, AllocError>
    ensures head { IfOk result (λ n. head n ≡ (first_part [] token.entry, first_holes [] token.entry, [])) }
    ensures below { IfOk result (λ n. parts_below n ≡ []) }
    ensures notes { IfOk result (λ n. all_notes n ≡ [] ∷ []) }
{
    match token {
        Some(pattern) => text_row(alloc, Part::ReduceToken, pattern),
        None => bare(alloc, Part::ReduceEnd),
    }
}

/// The first token of a reduction, those between, and the last one.
fn several_tokens<'t>(
    alloc: Global,
    first: Piece<'t>,
    between: Vec<Piece<'t>>,
    last: Option<Piece<'t>>,
) -> Result<Node<'t>, AllocError>
    ensures head { IfOk result (λ n. head n ≡ (Part.ReduceMany, first.entry ∷ [], [])) }
    ensures below { IfOk result (λ n. parts_below n ≡ text_rows Part.TokenRow between.entry.items ++ last_token last.entry) }
    ensures notes { IfOk result (λ n. all_notes n ≡ [] ∷ unnoted (text_rows Part.TokenRow between.entry.items ++ last_token last.entry)) }
{
    let mut node = text_row(alloc, Part::ReduceMany, first)?;
    add_texts(alloc, &mut node, Part::TokenRow, between)?;
    node.add(last_token(alloc, last)?)?;
    Ok(node)
}

/// The last of several tokens.
fn last_token<'t>(alloc: Global, token: Option<Piece<'t>>) -> Result<Node<'t>, AllocError>
    ensures items { IfOk result (λ n. items n ≡ last_token token.entry) }
    ensures notes { IfOk result (λ n. all_notes n ≡ unnoted (last_token token.entry)) }
{
    match token {
        Some(pattern) => text_row(alloc, Part::LastToken, pattern),
        None => bare(alloc, Part::LastEnd),
    }
}

/// Form 40: the call of another state: the optional slots that it takes, the state, each parameter
/// name and `, `, the symbols joined by `, ` (after a goto `~lookahead` first), the phantom
/// expression, and whether the frame then answers the result.
pub fn transition<'t>(
    alloc: Global,
    takes: &[u64],
    target: u64,
    arguments: Piece<'t>,
    symbols: Piece<'t>,
    phantom: Piece<'t>,
    returns: bool,
) -> Result<Node<'t>, AllocError>
    ensures head { IfOk result (λ n. head n ≡ (Part.Transition, decimal target ∷ arguments.entry ∷ symbols.entry ∷ phantom.entry ∷ [], [])) }
    ensures below { IfOk result (λ n. parts_below n ≡ text_rows Part.TakeLine (map decimal takes.now) ++ leaf_if returns Part.ReturnLine) }
    ensures notes { IfOk result (λ n. all_notes n ≡ [] ∷ unnoted (text_rows Part.TakeLine (map decimal takes.now) ++ leaf_if returns Part.ReturnLine)) }
{
    let target = Piece::number(alloc, target)?;
    let holes = vec![in alloc; target, arguments, symbols, phantom]?;
    let mut node = Node::leaf(alloc, Part::Transition, holes)?;
    add_numbers(alloc, &mut node, Part::TakeLine, takes)?;
    add_if(alloc, &mut node, returns, Part::ReturnLine)?;
    Ok(node)
}
