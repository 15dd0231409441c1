//! The whole program.

ghost use Rattle.std.specs.Prelude.{◌≡◌, ◌<◌, ◌++◌, length, map, codes, string_bytes, All, IfOk, IfSome, OnOk, Some, option_copied};
ghost use Rattle.std.specs.BTreeMap.{btree_map_len};
ghost use Rattle.std.specs.List.{flat_map};
ghost use Rattle.std.specs.Map.Iter.{deref_pair};
ghost use Rattle.lp_actions.specs.Parameters.{AreTypesOf};
ghost use Rattle.lp_assembly.specs.Built.{AllFit, AreFollowed, AreModules, IsBuiltWith, IsModule, IsModuleWithName, attribute_lines, front_lines, implementations, joined_clauses, reexport_lines, token_lines, triple_lines, use_lines};
ghost use Rattle.lp_parts.specs.Entries.{EntriesFit};
ghost use Rattle.lp_repr.specs.ShownTypes.{clause_text};
ghost use Rattle.lp_tree.specs.ProgramTree.{items};

use crate::intern_token;
use crate::visibility::{visibility_of, widest_visibility};
use lp_actions::action_functions;
use lp_ascent::AscentBackEnd;
use lp_build::{Triples, attribute, program, reexport, standard_uses, to_triple, use_line};
use lp_notes::noted_program;
use lp_parts::texts::{TypeTexts, each_with_comma};
use lp_repr::repr::{Grammar, LrCodeGeneration, NonterminalString, WhereClause};
use lp_repr::{Lr1State, StartStates, Text};
use lp_table::BackEnd;
use lp_table::pieces::{lent, lent_name, made};
use lp_table_module::TableBackEnd;
use lp_tree::{Node, Piece, Program};
use std::alloc::{AllocError, Global};

/// The program of a grammar and its states, which has a parser for each start. Its comments are made where
/// they are asked for. The error is want of memory.
pub fn build_program<'t>(
    alloc: Global,
    grammar: &'t Grammar,
    states: &'t [StartStates],
    comments: bool,
) -> Result<Program<'t>, AllocError>
    requires { AllFit states.now }
    ensures { IfOk result (IsBuiltWith comments grammar.entry.now states.entry.now) }
{
    let mut below = Vec::new(alloc);
    add_front(alloc, &mut below, grammar)?;
    put_all(&mut below, modules(alloc, grammar, states)?)?;
    add_tokens(alloc, &mut below, grammar)?;
    put_all(&mut below, action_functions(alloc, grammar)?)?;
    put(&mut below, triples(alloc, grammar)?)?;
    let bare = program(alloc, lent(grammar.prefix.as_str()), below)?;
    noted_program(alloc, grammar, states, comments, bare)
}

/// Adds what stands before the modules.
fn add_front<'t>(
    alloc: Global,
    below: &mut Vec<Node<'t>>,
    grammar: &'t Grammar,
) -> Result<(), AllocError>
    ensures { OnOk result (flat_map items below.new.items ≡ flat_map items below.old.items ++ front_lines grammar.entry.now) }
{
    add_attributes(alloc, below, grammar.module_attributes.as_slice())?;
    add_uses(alloc, below, grammar.uses.as_slice())?;
    below.push(standard_uses(alloc)?)?;
    Ok(())
}

/// Adds the attributes.
fn add_attributes<'t>(
    alloc: Global,
    below: &mut Vec<Node<'t>>,
    texts: &'t [Text],
) -> Result<(), AllocError>
    ensures { OnOk result (flat_map items below.new.items ≡ flat_map items below.old.items ++ attribute_lines texts.entry.now) }
{
    for text in texts {
        below.push(attribute(alloc, lent(text.as_str()))?)?;
    }
    Ok(())
}

/// Adds the uses.
fn add_uses<'t>(
    alloc: Global,
    below: &mut Vec<Node<'t>>,
    texts: &'t [Text],
) -> Result<(), AllocError>
    ensures { OnOk result (flat_map items below.new.items ≡ flat_map items below.old.items ++ use_lines texts.entry.now) }
{
    for text in texts {
        below.push(use_line(alloc, lent(text.as_str()))?)?;
    }
    Ok(())
}

/// Adds the module of the tokens, where the grammar has no enum of its own.
fn add_tokens<'t>(
    alloc: Global,
    below: &mut Vec<Node<'t>>,
    grammar: &'t Grammar,
) -> Result<(), AllocError>
    ensures { OnOk result (flat_map items below.new.items ≡ flat_map items below.old.items ++ token_lines grammar.entry.now grammar.entry.now.intern_token) }
{
    if let Some(intern_token) = &grammar.intern_token {
        below.push(intern_token::module(alloc, grammar, intern_token)?)?;
    }
    Ok(())
}

/// Per start its module and its re-export.
fn modules<'t>(
    alloc: Global,
    grammar: &'t Grammar,
    states: &'t [StartStates],
) -> Result<Vec<Node<'t>>, AllocError>
    requires { AllFit states.now }
    ensures { IfOk result (λ v. AreModules grammar.entry.now states.entry.now (length grammar.entry.now.start_nonterminals.entries) (flat_map items v.items)) }
{
    let starts = starts_of(alloc, grammar)?;
    let mut nodes = Vec::new(alloc);
    for (number, names) in starts.iter().enumerate() {
        let list = states.get(number);
        add_start(alloc, &mut nodes, grammar, number, names.0, names.1, list)?;
    }
    Ok(nodes)
}

/// The public name and the nonterminal of each start, by number.
fn starts_of<'t>(
    alloc: Global,
    grammar: &'t Grammar,
) -> Result<Vec<(&'t NonterminalString, &'t NonterminalString)>, AllocError>
    ensures { IfOk result (λ v. map deref_pair v.items ≡ grammar.entry.now.start_nonterminals.entries) }
{
    grammar.start_nonterminals.iter().collect(alloc)
}

/// Adds the module of a start and its re-export, where it has states.
fn add_start<'t>(
    alloc: Global,
    nodes: &mut Vec<Node<'t>>,
    grammar: &'t Grammar,
    number: usize,
    public_name: &'t NonterminalString,
    start: &'t NonterminalString,
    states: Option<&'t StartStates>,
) -> Result<(), AllocError>
    requires start { number < btree_map_len grammar.now.start_nonterminals }
    requires entries { IfSome states (λ list. All EntriesFit list.now.states) }
    ensures { OnOk result (AreFollowed grammar.entry.now number (Some (public_name.entry.now, start.entry.now)) (option_copied states.entry) (flat_map items nodes.old.items) (flat_map items nodes.new.items)) }
{
    match states {
        None => Ok(()),
        Some(list) => add_module(alloc, nodes, grammar, number, public_name, start, list),
    }
}

/// Adds the module of a start and its re-export.
fn add_module<'t>(
    alloc: Global,
    nodes: &mut Vec<Node<'t>>,
    grammar: &'t Grammar,
    number: usize,
    public_name: &'t NonterminalString,
    start: &'t NonterminalString,
    list: &'t StartStates,
) -> Result<(), AllocError>
    requires start { number < btree_map_len grammar.now.start_nonterminals }
    requires entries { All EntriesFit list.now.states }
    ensures { OnOk result (IsModuleWithName grammar.entry.now number public_name.entry.now start.entry.now list.entry.now.states (flat_map items nodes.old.items) (flat_map items nodes.new.items)) }
{
    let inside = module(alloc, grammar, number, list.states.as_slice())?;
    let named = reexport_of(alloc, grammar, public_name, start)?;
    put(nodes, inside)?;
    put(nodes, named)
}

/// Puts nodes behind others.
fn put_all<'t>(nodes: &mut Vec<Node<'t>>, others: Vec<Node<'t>>) -> Result<(), AllocError>
    ensures { OnOk result (flat_map items nodes.new.items ≡ flat_map items nodes.old.items ++ flat_map items others.entry.items) }
{
    let mut behind = others;
    nodes.append(&mut behind)?;
    Ok(())
}

/// Puts a node behind others.
fn put<'t>(nodes: &mut Vec<Node<'t>>, node: Node<'t>) -> Result<(), AllocError>
    ensures { OnOk result (flat_map items nodes.new.items ≡ flat_map items nodes.old.items ++ items node.entry) }
{
    nodes.push(node)?;
    Ok(())
}

/// The re-export of a start by its public name.
fn reexport_of<'t>(
    alloc: Global,
    grammar: &'t Grammar,
    public_name: &'t NonterminalString,
    start: &'t NonterminalString,
) -> Result<Node<'t>, AllocError>
    ensures { IfOk result (λ n. items n ≡ reexport_lines grammar.entry.now public_name.entry.now start.entry.now) }
{
    let visibility = made(visibility_of(grammar, start).to_string(alloc)?);
    let public_name = lent_name(public_name.0.as_str());
    reexport(alloc, visibility, lent_name(start.0.as_str()), public_name)
}

/// The module of a start, by the back end that the grammar asks for.
fn module<'t>(
    alloc: Global,
    grammar: &'t Grammar,
    start: usize,
    states: &'t [Lr1State],
) -> Result<Node<'t>, AllocError>
    requires start { start < btree_map_len grammar.now.start_nonterminals }
    requires entries { All EntriesFit states.now }
    ensures { IfOk result (λ n. IsModule grammar.entry.now start states.entry.now (items n)) }
{
    match grammar.algorithm.codegen {
        LrCodeGeneration::RecursiveAscent => {
            module_by(alloc, &AscentBackEnd, grammar, start, states)
        }
        _ => module_by(alloc, &TableBackEnd, grammar, start, states),
    }
}

/// The module of a start, by a back end.
fn module_by<'t, B: BackEnd>(
    alloc: Global,
    back_end: &B,
    grammar: &'t Grammar,
    start: usize,
    states: &'t [Lr1State],
) -> Result<Node<'t>, AllocError>
    requires start { start < btree_map_len grammar.now.start_nonterminals }
    requires accepts { B.Accepts grammar.now states.now }
    ensures { IfOk result (λ n. B.IsBuilt grammar.entry.now states.entry.now start (items n)) }
{
    back_end.build_module(alloc, grammar, start, states)
}

/// How items become triples.
fn triples<'t>(alloc: Global, grammar: &'t Grammar) -> Result<Node<'t>, AllocError>
    ensures { IfOk result (λ n. items n ≡ triple_lines grammar.entry.now) }
{
    let types = TypeTexts::new(alloc, grammar)?;
    let location = types.location.as_str();
    let token = types.token.as_str();
    let error = types.error.as_str();
    let visibility = made(widest_visibility(grammar).to_string(alloc)?);
    let generics = made(each_with_comma(alloc, grammar.type_parameters.as_slice())?);
    let clauses = joined_clauses(alloc, grammar.where_clauses.as_slice())?;
    let triple = made(format!(in alloc; "{location},{token},{location}")?);
    let parse_error = made(format!(in alloc; "{location}, {token}, {error}")?);
    to_triple(
        alloc,
        visibility,
        generics,
        clauses,
        triple,
        parse_error,
        implementations(alloc, grammar, &types)?,
    )
}

/// What the two implementations are for.
fn implementations<'t>(
    alloc: Global,
    grammar: &Grammar,
    types: &TypeTexts,
) -> Result<Triples<'t>, AllocError>
    requires { AreTypesOf grammar.now types.now }
    ensures { IfOk result (λ t. t ≡ implementations grammar.now grammar.now.types.loc) }
{
    let location = types.location.as_str();
    let token = types.token.as_str();
    let error = made(String::from_str(alloc, types.error.as_str())?);
    match grammar.types.loc {
        Some(_) => Ok(Triples::Located {
            triple: made(format!(in alloc; "{location}, {token}, {location}")?),
            error,
        }),
        None => Ok(Triples::Plain {
            token: made(String::from_str(alloc, token)?),
            error,
        }),
    }
}

/// The where clauses joined by `,`, if there are any.
fn joined_clauses<'t>(
    alloc: Global,
    clauses: &[WhereClause],
) -> Result<Option<Piece<'t>>, AllocError>
    ensures { IfOk result (λ p. p ≡ joined_clauses clauses.now) }
{
    match clauses.split_first() {
        None => Ok(None),
        Some((first, others)) => {
            let mut text = first.to_string(alloc)?;
            push_clauses(&mut text, others)?;
            Ok(Some(made(text)))
        }
    }
}

/// Appends each clause behind a `,`.
fn push_clauses(text: &mut String, clauses: &[WhereClause]) -> Result<(), AllocError>
    ensures { OnOk result (string_bytes text.new ≡ string_bytes text.old ++ flat_map (λ c. codes "," ++ clause_text c) clauses.now) }
{
    for clause in clauses {
        write!(text, ",{clause}")?;
    }
    Ok(())
}
