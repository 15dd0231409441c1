//! The frame of a module: uses, and the parser with its `parse` method.

ghost use Rattle.std.specs.Prelude.{◌≡◌, ◌++◌, codes, is_some, nat_eq, string_bytes, IfOk, OnOk};
ghost use Rattle.std.specs.List.{flat_map, starts_with};
ghost use Rattle.lp_table.specs.FrameLines.{inner_use, inner_uses, module_parts, parse_answer, parse_generics, parse_header, parse_parameters, source_lines, table_parser, token_bound, token_iterator, token_use_lines, tokens_bound, tokens_parameter, use_lines};
ghost use Rattle.lp_table.specs.Starts.{start_of};
ghost use Rattle.lp_tree.specs.ProgramTree.{items};

use crate::forms::{module_of, parser_of};
use crate::headers::{add_parameters, header_of, shown_each, type_parameters};
use crate::pieces::{copied, lent, lent_name, made};
use crate::shared::Shared;
use lp_build::{FunctionName, standard_uses, token_source, token_use, use_line};
use lp_repr::Text;
use lp_repr::repr::Grammar;
use lp_tree::{Node, Piece};
use std::alloc::{AllocError, Global};

/// Adds the uses of a grammar as a module inside has them, and the standard uses.
#[tactic(auto, unfolding(crate::specs::FrameLines::inner_uses))]
pub fn add_inner_uses<'t>(
    alloc: Global,
    below: &mut Vec<Node<'t>>,
    grammar: &'t Grammar,
) -> Result<(), AllocError>
    ensures { OnOk result (flat_map items below.new.items ≡ flat_map items below.old.items ++ inner_uses grammar.entry.now) }
{
    add_uses(alloc, below, grammar.uses.as_slice())?;
    below.push(standard_uses(alloc)?)?;
    Ok(())
}

/// Adds the uses as a module inside has them.
fn add_uses<'t>(
    alloc: Global,
    below: &mut Vec<Node<'t>>,
    uses: &'t [Text],
) -> Result<(), AllocError>
    ensures { OnOk result (flat_map items below.new.items ≡ flat_map items below.old.items ++ flat_map use_lines uses.entry.now) }
{
    for text in uses {
        below.push(use_line(alloc, inner_use(alloc, text.as_str())?)?)?;
    }
    Ok(())
}

/// A use as a module inside has it.
fn inner_use<'t>(alloc: Global, text: &'t str) -> Result<Piece<'t>, AllocError>
    ensures { IfOk result (λ p. p ≡ inner_use text.entry.now) }
{
    if is_relative(text) {
        Ok(made(format!(in alloc; "super::{text}")?))
    } else {
        Ok(lent(text))
    }
}

/// The text begins with `super::`.
fn is_relative(text: &str) -> bool
    ensures { result ≡ starts_with nat_eq text.now (codes "super::") }
{
    text.starts_with("super::")
}

/// The tokens are made by the module of tokens.
fn is_interned(grammar: &Grammar) -> bool
    ensures { result ≡ is_some grammar.now.intern_token }
{
    grammar.intern_token.is_some()
}

/// What stands before the items of a module: the uses, and the token use.
fn module_front<'t>(alloc: Global, grammar: &'t Grammar) -> Result<Vec<Node<'t>>, AllocError>
    ensures { IfOk result (λ v. flat_map items v.items ≡ inner_uses grammar.entry.now ++ token_use_lines grammar.entry.now) }
{
    let mut front = Vec::new(alloc);
    add_inner_uses(alloc, &mut front, grammar)?;
    front.push(token_use(alloc, is_interned(grammar))?)?;
    Ok(front)
}

/// A module of table-driven code with these items, under the name of its start nonterminal.
pub fn table_module<'t>(
    alloc: Global,
    shared: &Shared<'t>,
    rows: Vec<Node<'t>>,
) -> Result<Node<'t>, AllocError>
    ensures { IfOk result (λ n. items n ≡ module_parts (start_of shared.now.start).nonterminal.0 (inner_uses shared.now.grammar.now ++ token_use_lines shared.now.grammar.now) (flat_map items rows.entry.items)) }
{
    let front = module_front(alloc, shared.grammar)?;
    let name = lent_name(shared.start.nonterminal.0.as_str());
    module_of(alloc, name, front, rows)
}

/// The parser by tables, with this body of its `parse` method.
#[tactic(auto, unfolding(crate::specs::FrameLines::table_parser))]
pub fn table_parser<'t>(
    alloc: Global,
    shared: &Shared<'t>,
    body: Node<'t>,
) -> Result<Node<'t>, AllocError>
    ensures { IfOk result (λ n. items n ≡ table_parser shared.now.grammar.now (start_of shared.now.start) (items body.entry)) }
{
    let interned = is_interned(shared.grammar);
    let visibility = copied(alloc, shared.start.visibility.as_str())?;
    let name = lent_name(shared.start.public_name);
    let below = parser_below(alloc, shared, body)?;
    parser_of(alloc, visibility, name, interned, below)
}

/// What is below a parser: the header of `parse`, where the tokens come from, and the body.
fn parser_below<'t>(
    alloc: Global,
    shared: &Shared<'t>,
    body: Node<'t>,
) -> Result<Vec<Node<'t>>, AllocError>
    ensures { IfOk result (λ v. flat_map items v.items ≡ (parse_header shared.now.grammar.now (start_of shared.now.start) ++ source_lines shared.now.grammar.now) ++ items body.entry) }
{
    let head = parse_header(alloc, shared)?;
    let source = source_of(alloc, shared.grammar)?;
    Ok(vec![in alloc; head, source, body]?)
}

/// Where the tokens of a grammar come from.
#[tactic(auto, unfolding(crate::specs::FrameLines::source_lines))]
fn source_of<'t>(alloc: Global, grammar: &Grammar) -> Result<Node<'t>, AllocError>
    ensures { IfOk result (λ n. items n ≡ source_lines grammar.now) }
{
    token_source(alloc, is_interned(grammar))
}

/// The header of `parse`.
#[tactic(auto, unfolding(crate::specs::FrameLines::parse_header))]
fn parse_header<'t>(alloc: Global, shared: &Shared<'t>) -> Result<Node<'t>, AllocError>
    ensures { IfOk result (λ n. items n ≡ parse_header shared.now.grammar.now (start_of shared.now.start)) }
{
    let generics = parse_generics(alloc, shared)?;
    let parameters = parse_parameters(alloc, shared.grammar)?;
    let result = parse_answer(alloc, shared)?;
    let visibility = copied(alloc, shared.start.visibility.as_str())?;
    let clauses = shown_each(alloc, shared.grammar.where_clauses.as_slice())?;
    let name = FunctionName::Parse { visibility };
    header_of(alloc, name, generics, parameters, result, clauses)
}

/// The type parameters of `parse`.
fn parse_generics<'t>(alloc: Global, shared: &Shared<'t>) -> Result<Vec<Piece<'t>>, AllocError>
    ensures { IfOk result (λ v. v.items ≡ parse_generics shared.now.grammar.now) }
{
    let mut generics = type_parameters(alloc, shared.grammar)?;
    if is_interned(shared.grammar) {
        return Ok(generics);
    }
    generics.push(token_bound(alloc, shared)?)?;
    generics.push(tokens_bound(alloc, shared)?)?;
    Ok(generics)
}

/// The type parameter of tokens.
fn token_bound<'t>(alloc: Global, shared: &Shared<'t>) -> Result<Piece<'t>, AllocError>
    ensures { IfOk result (λ p. p ≡ token_bound shared.now.grammar.now) }
{
    let prefix = shared.grammar.prefix.as_str();
    let user = shared.parameters.type_parameters.as_str();
    Ok(made(format!(in alloc; "{prefix}TOKEN: {prefix}ToTriple<{user}>")?))
}

/// The type parameter of what gives tokens.
fn tokens_bound<'t>(alloc: Global, shared: &Shared<'t>) -> Result<Piece<'t>, AllocError>
    ensures { IfOk result (λ p. p ≡ tokens_bound shared.now.grammar.now) }
{
    let prefix = shared.grammar.prefix.as_str();
    let iterator = token_iterator(alloc, prefix)?;
    Ok(made(format!(in alloc; "{prefix}TOKENS: {iterator}")?))
}

/// What gives tokens.
#[tactic(auto, unfolding(crate::specs::FrameLines::token_iterator))]
fn token_iterator(alloc: Global, prefix: &str) -> Result<String, AllocError>
    ensures { IfOk result (λ s. string_bytes s ≡ token_iterator prefix.now) }
{
    format!(in alloc; "IntoIterator<Item={prefix}TOKEN>")
}

/// The parameters of `parse`.
fn parse_parameters<'t>(alloc: Global, grammar: &Grammar) -> Result<Vec<Piece<'t>>, AllocError>
    ensures { IfOk result (λ v. v.items ≡ parse_parameters grammar.now) }
{
    let mut parameters = vec![in alloc; lent("&self")]?;
    add_parameters(alloc, &mut parameters, grammar)?;
    if is_interned(grammar) {
        return Ok(parameters);
    }
    parameters.push(tokens_parameter(alloc, grammar)?)?;
    Ok(parameters)
}

/// The tokens as a parameter.
fn tokens_parameter<'t>(alloc: Global, grammar: &Grammar) -> Result<Piece<'t>, AllocError>
    ensures { IfOk result (λ p. p ≡ tokens_parameter grammar.now) }
{
    let prefix = grammar.prefix.as_str();
    Ok(made(format!(in alloc; "{prefix}tokens0: {prefix}TOKENS")?))
}

/// What `parse` answers.
fn parse_answer<'t>(alloc: Global, shared: &Shared<'t>) -> Result<Piece<'t>, AllocError>
    ensures { IfOk result (λ p. p ≡ parse_answer shared.now.grammar.now (start_of shared.now.start)) }
{
    let ty = shared.start.ty.as_str();
    let error = shared.types.parse_error.as_str();
    Ok(made(format!(in alloc; "Result<{ty}, {error}>")?))
}
