//! The module of recursive ascent code.

ghost use Rattle.std.specs.Prelude.{◌≡◌, ◌++◌, ◌<◌, ◌∷◌, [], All, map, IfOk, OnOk};
ghost use Rattle.std.specs.BTreeMap.{btree_map_len};
ghost use Rattle.std.specs.List.{flat_map};
ghost use Rattle.std.specs.Map.Iter.{deref};
ghost use Rattle.lp_build.specs.Ascent.{trial_row};
ghost use Rattle.lp_parts.specs.Entries.{EntriesFit};
ghost use Rattle.lp_table.specs.FrameLines.{is_interned};
ghost use Rattle.lp_table.specs.Starts.{start_for, start_of};
ghost use Rattle.lp_tree.specs.ProgramTree.{items, parts_below};
ghost use Rattle.lp_ascent.specs.BuiltAscent.{ascent_parser, built_ascent, built_ascent_at, first_call, module_over, parser_lines, parser_over, state_functions, trial_lines, tried_from, with_trials};
ghost use Rattle.lp_ascent.specs.Slots.{layout_of, layouts_of};
ghost use Rattle.lp_ascent.specs.StateLines.{states_from};

use crate::answers::{answer_name, answers};
use crate::forms::{module_of, parser_of, put};
use crate::state::state_lines;
use crate::states::States;
use lp_build::{TrialArm, ascent_accepts, ascent_expected, ascent_simulate, start, token_use};
use lp_repr::Lr1State;
use lp_repr::repr::{Grammar, NonterminalString, Production};
use lp_table::frame::{add_inner_uses, table_parser};
use lp_table::machine::reduced;
use lp_table::pieces::{copied, lent_name};
use lp_table::shared::{Shared, StartTexts, start_at};
use lp_table::tables::{add_action_table, goto_function, terminal_names};
use lp_tree::Node;
use std::alloc::{AllocError, Global};

/// The module of recursive ascent code for the start of this number, whose states these are.
pub fn build_ascent_module<'t>(
    alloc: Global,
    grammar: &'t Grammar,
    start: usize,
    states: &'t [Lr1State],
) -> Result<Node<'t>, AllocError>
    requires start { start < btree_map_len grammar.now.start_nonterminals }
    requires entries { All EntriesFit states.now }
    ensures { IfOk result (λ n. items n ≡ built_ascent_at grammar.entry.now states.entry.now start) }
{
    let (public_name, nonterminal) = start_at(grammar, start).unwrap();
    ascent_module_of(alloc, grammar, public_name, nonterminal, states)
}

/// The module of recursive ascent code for a start by its public name and its nonterminal.
pub fn ascent_module_of<'t>(
    alloc: Global,
    grammar: &'t Grammar,
    public_name: &'t NonterminalString,
    nonterminal: &'t NonterminalString,
    states: &'t [Lr1State],
) -> Result<Node<'t>, AllocError>
    requires { All EntriesFit states.now }
    ensures { IfOk result (λ n. items n ≡ built_ascent grammar.entry.now states.entry.now (start_for grammar.entry.now public_name.entry.now nonterminal.entry.now)) }
{
    let start = StartTexts::new(alloc, grammar, public_name, nonterminal)?;
    let shared = Shared::new(alloc, grammar, start, states)?;
    let states = States::new(alloc, shared)?;
    let mut nodes = vec![in alloc; ascent_parser(alloc, &states.shared)?]?;
    put(&mut nodes, answers(alloc, &states)?)?;
    add_states(alloc, &mut nodes, &states)?;
    add_trials(alloc, &mut nodes, &states.shared)?;
    ascent_module(alloc, &states.shared, nodes)
}

/// A module of recursive ascent with these items, under the name of its start nonterminal.
fn ascent_module<'t>(
    alloc: Global,
    shared: &Shared<'t>,
    rows: Vec<Node<'t>>,
) -> Result<Node<'t>, AllocError>
    ensures { IfOk result (λ n. items n ≡ module_over shared.now.grammar.now (start_of shared.now.start) (flat_map items rows.entry.items)) }
{
    let grammar = shared.grammar;
    let mut below = Vec::new(alloc);
    add_inner_uses(alloc, &mut below, grammar)?;
    put(&mut below, token_use(alloc, is_interned(grammar))?)?;
    let name = lent_name(shared.start.nonterminal.0.as_str());
    module_of(alloc, name, below, rows)
}

/// The parser, whose `parse` method calls the function of the first state.
fn ascent_parser<'t>(alloc: Global, shared: &Shared<'t>) -> Result<Node<'t>, AllocError>
    ensures { IfOk result (λ n. items n ≡ ascent_parser shared.now.grammar.now shared.now.states.now (start_of shared.now.start)) }
{
    let body = first_call(alloc, shared)?;
    parser_over(alloc, shared, body)
}

/// The parser by recursive ascent, with this body of its `parse` method.
fn parser_over<'t>(
    alloc: Global,
    shared: &Shared<'t>,
    body: Node<'t>,
) -> Result<Node<'t>, AllocError>
    ensures { IfOk result (λ n. items n ≡ parser_over shared.now.grammar.now (start_of shared.now.start) (items body.entry)) }
{
    let interned = is_interned(shared.grammar);
    let visibility = copied(alloc, shared.start.visibility.as_str())?;
    let name = lent_name(shared.start.public_name);
    let by_tables = parser_by_tables(alloc, shared, body)?;
    parser_of(alloc, visibility, name, interned, by_tables)
}

/// The parser by tables: below it stand the header of `parse`, the token source and the body.
fn parser_by_tables<'t>(
    alloc: Global,
    shared: &Shared<'t>,
    body: Node<'t>,
) -> Result<Node<'t>, AllocError>
    ensures { IfOk result (λ n. parts_below n ≡ parser_lines shared.now.grammar.now (start_of shared.now.start) (items body.entry)) }
{
    table_parser(alloc, shared, body)
}

/// The tokens are made by the module of tokens.
fn is_interned(grammar: &Grammar) -> bool
    ensures { result ≡ is_interned grammar.now }
{
    grammar.intern_token.is_some()
}

/// The call of the first state.
fn first_call<'t>(alloc: Global, shared: &Shared<'t>) -> Result<Node<'t>, AllocError>
    ensures { IfOk result (λ n. items n ≡ first_call shared.now.grammar.now shared.now.states.now (start_of shared.now.start)) }
{
    let arguments = copied(alloc, shared.parameters.arguments.as_str())?;
    let phantom = copied(alloc, shared.parameters.phantom_expression.as_str())?;
    let name = answer_name(alloc, shared.start.nonterminal)?;
    start(
        alloc,
        lent_name(shared.state_type),
        arguments,
        phantom,
        name,
    )
}

/// Adds the functions of all states.
#[tactic(auto, unfolding(crate::specs::BuiltAscent::state_functions))]
fn add_states<'t>(
    alloc: Global,
    nodes: &mut Vec<Node<'t>>,
    states: &States<'t>,
) -> Result<(), AllocError>
    requires { map layout_of states.now.slots.items ≡ layouts_of states.now.shared.grammar.now states.now.shared.states.now }
    ensures { OnOk result (flat_map items nodes.new.items ≡ flat_map items nodes.old.items ++ state_functions states.now.shared.grammar.now states.now.shared.states.now) }
{
    add_each(alloc, nodes, states, states.shared.states)
}

/// Adds the functions of these states, by number.
fn add_each<'t>(
    alloc: Global,
    nodes: &mut Vec<Node<'t>>,
    states: &States<'t>,
    each: &[Lr1State],
) -> Result<(), AllocError>
    ensures { OnOk result (flat_map items nodes.new.items ≡ flat_map items nodes.old.items ++ states_from states.now.shared.grammar.now states.now.shared.states.now (map layout_of states.now.slots.items) 0 each.now) }
{
    for (number, state) in each.iter().enumerate() {
        put(nodes, state_lines(alloc, states, number, state)?)?;
    }
    Ok(())
}

/// Adds what trials of terminals ask: the tables, the names of terminals, and the trials.
fn add_trials<'t>(
    alloc: Global,
    nodes: &mut Vec<Node<'t>>,
    shared: &Shared<'t>,
) -> Result<(), AllocError>
    requires { All EntriesFit shared.now.states.now }
    ensures { OnOk result (flat_map items nodes.new.items ≡ with_trials shared.now.grammar.now shared.now.states.now (start_of shared.now.start) (flat_map items nodes.old.items)) }
{
    add_action_table(alloc, nodes, shared)?;
    put(nodes, goto_function(alloc, shared)?)?;
    put(nodes, terminal_names(alloc, &shared.grammar.terminals)?)?;
    put(nodes, trial_lines(alloc, shared)?)?;
    put(nodes, ascent_accepts(alloc, lent_name(shared.state_type))?)?;
    put(nodes, ascent_expected(alloc, lent_name(shared.state_type))?)?;
    Ok(())
}

/// What reductions of a trial pop and produce.
#[tactic(auto, unfolding(crate::specs::BuiltAscent::trial_lines))]
fn trial_lines<'t>(alloc: Global, shared: &Shared<'t>) -> Result<Node<'t>, AllocError>
    ensures { IfOk result (λ n. items n ≡ trial_lines shared.now.grammar.now shared.now.states.now (start_of shared.now.start)) }
{
    let arms = trial_arms(alloc, shared, shared.productions.as_slice())?;
    ascent_simulate(alloc, lent_name(shared.state_type), arms.as_slice())
}

/// Those by these productions.
fn trial_arms(
    alloc: Global,
    shared: &Shared<'_>,
    productions: &[&Production],
) -> Result<Vec<TrialArm>, AllocError>
    ensures { IfOk result (λ v. map trial_row v.items ≡ tried_from shared.now.grammar.now (start_of shared.now.start) 0 (map deref productions.now)) }
{
    let mut arms = Vec::new(alloc);
    for (number, production) in productions.iter().enumerate() {
        arms.push(TrialArm {
            production: number as u64,
            reduced: reduced(shared, *production),
        })?;
    }
    Ok(arms)
}
