//! The module of a start by recursive ascent.

ghost use Rattle.std.specs.Prelude.{◌≡◌, ◌<◌, All, IfSome, IsSome, codes};
ghost use Rattle.std.specs.BTreeMap.{btree_map_len};
ghost use Rattle.lp_notes.specs.Notes.{notes_of_module};
ghost use Rattle.lp_parts.specs.Entries.{EntriesFit};
ghost use Rattle.lp_write.specs.Writes.{options_of};
ghost use Rattle.lp_codegen.specs.Printing.{PrintsNode, start_number};

use lp_ascent::AscentBackEnd;
use lp_notes::noted_module;
use lp_program::print_node;
use lp_repr::Lr1State;
use lp_repr::repr::{Grammar, NonterminalString};
use lp_table::BackEnd;
use lp_write::{RustWrite, Sink, WriteError};
use std::alloc::Global;

/// Appends the module of recursive ascent of a start with these names, whose states these are. The
/// module of the actions is `super`.
pub fn compile<'t, W: Sink>(
    alloc: Global,
    grammar: &'t Grammar,
    user_start_symbol: &'t NonterminalString,
    start_symbol: &'t NonterminalString,
    states: &'t [Lr1State],
    action_module: &str,
    out: &mut RustWrite<W>,
) -> Result<(), WriteError>
    requires start { IsSome (start_number grammar.now user_start_symbol.now start_symbol.now) }
    requires entries { All EntriesFit states.now }
    requires action_module { action_module.now ≡ codes "super" }
    ensures { IfSome (start_number grammar.entry.now user_start_symbol.entry.now start_symbol.entry.now) (λ start. PrintsNode W.told (⟦<AscentBackEnd as BackEnd>⟧.IsBuilt grammar.entry.now states.entry.now start) (notes_of_module (options_of out.old).comments grammar.entry.now states.entry.now) grammar.entry.now.prefix out.old out.new result) }
{
    let _in_super = action_module;
    let start = start_number(grammar, user_start_symbol, start_symbol).unwrap();
    print_module(alloc, &AscentBackEnd, grammar, start, states, out)
}

/// The number of the start of a public name and a nonterminal.
fn start_number(
    grammar: &Grammar,
    public_name: &NonterminalString,
    nonterminal: &NonterminalString,
) -> Option<usize>
    ensures number { result ≡ start_number grammar.now public_name.now nonterminal.now }
    ensures within { IfSome result (λ n. n < btree_map_len grammar.now.start_nonterminals) }
{
    grammar.start_nonterminals.iter().position(|(name, start)| name == public_name
        && start == nonterminal)
}

/// Appends the module that a back end builds of the start of a number.
fn print_module<'t, B: BackEnd, W: Sink>(
    alloc: Global,
    back_end: &B,
    grammar: &'t Grammar,
    start: usize,
    states: &'t [Lr1State],
    out: &mut RustWrite<W>,
) -> Result<(), WriteError>
    requires start { start < btree_map_len grammar.now.start_nonterminals }
    requires accepts { B.Accepts grammar.now states.now }
    ensures { PrintsNode W.told (B.IsBuilt grammar.entry.now states.entry.now start) (notes_of_module (options_of out.old).comments grammar.entry.now states.entry.now) grammar.entry.now.prefix out.old out.new result }
{
    let bare = back_end.build_module(alloc, grammar, start, states)?;
    let node = noted_module(alloc, grammar, states, out.options().comments, bare)?;
    print_node(alloc, grammar.prefix.as_str(), &node, out)
}
