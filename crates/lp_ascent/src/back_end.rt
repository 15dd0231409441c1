//! The back end of recursive ascent.

ghost use Rattle.std.specs.Prelude.{◌≡◌, All};
ghost use Rattle.lp_parts.specs.Entries.{EntriesFit};
ghost use Rattle.lp_ascent.specs.BuiltAscent.{built_ascent_at};

use crate::ascent_module::build_ascent_module;
use lp_repr::Lr1State;
use lp_repr::repr::Grammar;
use lp_table::BackEnd;
use lp_tree::Node;
use std::alloc::{AllocError, Global};

/// Recursive ascent.
#[derive(Clone, Copy)]
pub struct AscentBackEnd;

impl BackEnd for AscentBackEnd {
    ghost Accepts = { λ grammar states. All EntriesFit states };

    ghost IsBuilt = { λ grammar states start parts. parts ≡ built_ascent_at grammar states start };

    fn build_module<'t>(
        &self,
        alloc: Global,
        grammar: &'t Grammar,
        start: usize,
        states: &'t [Lr1State],
    ) -> Result<Node<'t>, AllocError> {
        build_ascent_module(alloc, grammar, start, states)
    }
}
