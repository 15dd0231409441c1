//! The module of a start by tables.

ghost use Rattle.std.specs.Prelude.{◌≡◌, All, codes};
ghost use Rattle.lp_notes.specs.Notes.{notes_of_module};
ghost use Rattle.lp_parts.specs.Entries.{EntriesFit};
ghost use Rattle.lp_table.specs.BuiltTable.{built_table};
ghost use Rattle.lp_table.specs.Starts.{start_for};
ghost use Rattle.lp_write.specs.Writes.{options_of};
ghost use Rattle.lp_codegen.specs.Printing.{PrintsNode};

use lp_notes::noted_module;
use lp_program::print_node;
use lp_repr::Lr1State;
use lp_repr::repr::{Grammar, NonterminalString};
use lp_table_module::table_module_of;
use lp_write::{RustWrite, Sink, WriteError};
use std::alloc::Global;

/// Appends the module of table-driven code of a start with these names, whose states these are. The
/// module of the actions is `super`.
pub fn compile<'t, W: Sink>(
    alloc: Global,
    grammar: &'t Grammar,
    user_start_symbol: &'t NonterminalString,
    start_symbol: &'t NonterminalString,
    states: &'t [Lr1State],
    action_module: &str,
    out: &mut RustWrite<W>,
) -> Result<(), WriteError>
    requires entries { All EntriesFit states.now }
    requires action_module { action_module.now ≡ codes "super" }
    ensures { PrintsNode W.told (λ parts. parts ≡ built_table grammar.entry.now states.entry.now (start_for grammar.entry.now user_start_symbol.entry.now start_symbol.entry.now)) (notes_of_module (options_of out.old).comments grammar.entry.now states.entry.now) grammar.entry.now.prefix out.old out.new result }
{
    let _in_super = action_module;
    let bare = table_module_of(alloc, grammar, user_start_symbol, start_symbol, states)?;
    let node = noted_module(alloc, grammar, states, out.options().comments, bare)?;
    print_node(alloc, grammar.prefix.as_str(), &node, out)
}
