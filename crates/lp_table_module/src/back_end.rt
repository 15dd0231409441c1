//! The back end of table-driven code.

ghost use Rattle.std.specs.Prelude.{◌≡◌, All};
ghost use Rattle.lp_parts.specs.Entries.{EntriesFit};
ghost use Rattle.lp_table.specs.BuiltTable.{built_table_at};

use crate::table_module::build_table_module;
use lp_repr::Lr1State;
use lp_repr::repr::Grammar;
use lp_table::BackEnd;
use lp_tree::Node;
use std::alloc::{AllocError, Global};

/// Table-driven code.
#[derive(Clone, Copy)]
pub struct TableBackEnd;

impl BackEnd for TableBackEnd {
    ghost Accepts = { λ grammar states. All EntriesFit states };

    ghost IsBuilt = { λ grammar states start parts. parts ≡ built_table_at grammar states start };

    fn build_module<'t>(
        &self,
        alloc: Global,
        grammar: &'t Grammar,
        start: usize,
        states: &'t [Lr1State],
    ) -> Result<Node<'t>, AllocError> {
        build_table_module(alloc, grammar, start, states)
    }
}
