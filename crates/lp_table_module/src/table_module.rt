//! The module of table-driven code.

ghost use Rattle.std.specs.Prelude.{◌≡◌, ◌++◌, ◌<◌, All, IfOk, OnOk};
ghost use Rattle.std.specs.BTreeMap.{btree_map_len};
ghost use Rattle.std.specs.List.{flat_map};
ghost use Rattle.lp_parts.specs.Entries.{EntriesFit};
ghost use Rattle.lp_table.specs.BuiltTable.{built_table, built_table_at, with_machine, with_reductions, with_tables};
ghost use Rattle.lp_table.specs.Machines.{IsMachineOf};
ghost use Rattle.lp_table.specs.Starts.{start_for, start_of};
ghost use Rattle.lp_tree.specs.ProgramTree.{items};

use lp_build::{expected, mismatch};
use lp_repr::Lr1State;
use lp_repr::repr::{Grammar, NonterminalString};
use lp_table::frame::{table_module, table_parser};
use lp_table::machine::{
    Machine, acceptance, definition, drive_call, expected_list, implementation, simulation,
    symbol_values,
};
use lp_table::pieces::lent_name;
use lp_table::reductions::{add_pops, add_reduce_functions, reduce_function};
use lp_table::shared::{Shared, StartTexts, start_at};
use lp_table::tables::{add_action_table, end_table, goto_function, terminal_names};
use lp_table::tokens::{token_numbers, token_symbols};
use lp_tree::Node;
use std::alloc::{AllocError, Global};

/// The module of table-driven code for the start of this number, whose states these are.
pub fn build_table_module<'t>(
    alloc: Global,
    grammar: &'t Grammar,
    start: usize,
    states: &'t [Lr1State],
) -> Result<Node<'t>, AllocError>
    requires start { start < btree_map_len grammar.now.start_nonterminals }
    requires entries { All EntriesFit states.now }
    ensures { IfOk result (λ n. items n ≡ built_table_at grammar.entry.now states.entry.now start) }
{
    let (public_name, nonterminal) = start_at(grammar, start).unwrap();
    table_module_of(alloc, grammar, public_name, nonterminal, states)
}

/// The module of table-driven code for a start by its public name and its nonterminal.
pub fn table_module_of<'t>(
    alloc: Global,
    grammar: &'t Grammar,
    public_name: &'t NonterminalString,
    nonterminal: &'t NonterminalString,
    states: &'t [Lr1State],
) -> Result<Node<'t>, AllocError>
    requires { All EntriesFit states.now }
    ensures { IfOk result (λ n. items n ≡ built_table grammar.entry.now states.entry.now (start_for grammar.entry.now public_name.entry.now nonterminal.entry.now)) }
{
    let start = StartTexts::new(alloc, grammar, public_name, nonterminal)?;
    let shared = Shared::new(alloc, grammar, start, states)?;
    let machine = Machine::new(alloc, grammar)?;
    let mut nodes = vec![in alloc; symbol_values(alloc, &shared)?]?;
    add_tables(alloc, &mut nodes, &shared)?;
    add_machine(alloc, &mut nodes, &shared, &machine)?;
    add_reductions(alloc, &mut nodes, &shared, &machine)?;
    table_module(alloc, &shared, nodes)
}

/// Puts a node behind others.
fn put<'t>(nodes: &mut Vec<Node<'t>>, node: Node<'t>) -> Result<(), AllocError>
    ensures { OnOk result (flat_map items nodes.new.items ≡ flat_map items nodes.old.items ++ items node.entry) }
{
    nodes.push(node)?;
    Ok(())
}

/// Adds the tables.
fn add_tables<'t>(
    alloc: Global,
    nodes: &mut Vec<Node<'t>>,
    shared: &Shared<'t>,
) -> Result<(), AllocError>
    requires { All EntriesFit shared.now.states.now }
    ensures { OnOk result (flat_map items nodes.new.items ≡ with_tables shared.now.grammar.now shared.now.states.now (flat_map items nodes.old.items)) }
{
    add_action_table(alloc, nodes, shared)?;
    put(nodes, end_table(alloc, shared)?)?;
    put(nodes, goto_function(alloc, shared)?)?;
    put(nodes, terminal_names(alloc, &shared.grammar.terminals)?)?;
    put(nodes, expected(alloc, lent_name(shared.state_type))?)?;
    Ok(())
}

/// Adds the struct that the driver asks.
fn add_machine<'t>(
    alloc: Global,
    nodes: &mut Vec<Node<'t>>,
    shared: &Shared<'t>,
    machine: &Machine,
) -> Result<(), AllocError>
    requires { IsMachineOf shared.now.grammar.now machine.now }
    ensures { OnOk result (flat_map items nodes.new.items ≡ with_machine shared.now.grammar.now shared.now.states.now (start_of shared.now.start) (flat_map items nodes.old.items)) }
{
    put(nodes, expected_list(alloc, shared, machine)?)?;
    put(nodes, definition(alloc, shared, machine)?)?;
    put(nodes, implementation(alloc, shared, machine)?)?;
    put(nodes, token_numbers(alloc, shared)?)?;
    put(nodes, token_symbols(alloc, shared)?)?;
    put(nodes, simulation(alloc, shared, machine)?)?;
    Ok(())
}

/// Adds the parser and the reductions.
fn add_reductions<'t>(
    alloc: Global,
    nodes: &mut Vec<Node<'t>>,
    shared: &Shared<'t>,
    machine: &Machine,
) -> Result<(), AllocError>
    requires { IsMachineOf shared.now.grammar.now machine.now }
    ensures { OnOk result (flat_map items nodes.new.items ≡ with_reductions shared.now.grammar.now shared.now.states.now (start_of shared.now.start) (flat_map items nodes.old.items)) }
{
    let body = drive_call(alloc, shared)?;
    put(nodes, table_parser(alloc, shared, body)?)?;
    put(nodes, acceptance(alloc, shared, machine)?)?;
    put(nodes, reduce_function(alloc, shared)?)?;
    put(nodes, mismatch(alloc)?)?;
    add_pops(alloc, nodes, shared)?;
    add_reduce_functions(alloc, nodes, shared)?;
    Ok(())
}
