//! The functions of the actions of a grammar.

ghost use Rattle.std.specs.Prelude.{◌≡◌};
ghost use Rattle.lp_actions.specs.ActionFunctions.{action_functions};
ghost use Rattle.lp_write.specs.Writes.{options_of, writing, Writes, write_ending};
ghost use Rattle.lp_codegen.specs.Printing.{PrintsNodes, all_node_lines};

use lp_actions::action_functions;
use lp_program::print_node;
use lp_repr::repr::Grammar;
use lp_tree::Node;
use lp_write::{RustWrite, Sink, WriteError};
use std::alloc::Global;

/// Appends the functions of the actions of a grammar, by number.
pub fn emit_action_code<W: Sink>(
    alloc: Global,
    grammar: &Grammar,
    rust: &mut RustWrite<W>,
) -> Result<(), WriteError>
    ensures { PrintsNodes W.told (λ parts. parts ≡ action_functions grammar.now) grammar.now.prefix rust.old rust.new result }
{
    let functions = action_functions(alloc, grammar)?;
    print_nodes(alloc, grammar.prefix.as_str(), functions.as_slice(), rust)
}

/// Appends the lines of nodes, one node after another.
fn print_nodes<W: Sink>(
    alloc: Global,
    prefix: &str,
    nodes: &[Node<'_>],
    out: &mut RustWrite<W>,
) -> Result<(), WriteError>
    ensures { Writes (write_ending result) (writing W.told out.old) (writing W.told out.new) (all_node_lines (options_of out.old) prefix.now nodes.now) }
{
    for node in nodes {
        print_node(alloc, prefix, node, out)?;
    }
    Ok(())
}
