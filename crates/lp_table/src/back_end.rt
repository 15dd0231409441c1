//! Back ends: what makes the module of a start.

use lp_repr::Lr1State;
use lp_repr::repr::Grammar;
use lp_tree::Node;
use std::alloc::{AllocError, Global};

/// What makes the module of a start from a grammar and the states of that start.
pub trait BackEnd {
    ghost use Rattle.std.specs.Prelude.{ℕ, List, ◌<◌, IfOk};
    ghost use Rattle.std.specs.BTreeMap.{btree_map_len};
    ghost use Rattle.lp_repr.specs.declared.lr1.Lr1State.{Lr1State};
    ghost use Rattle.lp_repr.specs.declared.repr.Grammar.{Grammar};
    ghost use Rattle.lp_tree.specs.ProgramTree.{Item, items};

    /// What it asks of the grammar and the states.
    ghost Accepts: { Grammar → List Lr1State → Type 0 };

    /// What the parts of the module of the start of a number are.
    ghost IsBuilt: { Grammar → List Lr1State → ℕ → List Item → Type 0 };

    /// The module of the start of this number, whose states these are.
    fn build_module<'t>(
        &self,
        alloc: Global,
        grammar: &'t Grammar,
        start: usize,
        states: &'t [Lr1State],
    ) -> Result<Node<'t>, AllocError>
        requires start { start < btree_map_len grammar.now.start_nonterminals }
        requires accepts { Accepts grammar.now states.now }
        ensures { IfOk result (λ n. IsBuilt grammar.entry.now states.entry.now start (items n)) };
}
