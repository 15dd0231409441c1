//! What the functions of a module's states share.

ghost use Rattle.std.specs.Prelude.{◌≡◌, map, string_bytes, IfOk};
ghost use Rattle.lp_table.specs.Starts.{start_of};
ghost use Rattle.lp_ascent.specs.AnswerLines.{answer_clauses_text, answer_names, answer_parameters_text};
ghost use Rattle.lp_ascent.specs.Slots.{layout_of, layouts_of};

use crate::answers::{AnswerTexts, answer_names};
use crate::slots::{Slots, all_slots};
use lp_table::shared::Shared;
use std::alloc::{AllocError, Global};

/// What the functions of a module's states share.
#[derive(Drop)]
pub struct States<'t> {
    pub shared: Shared<'t>,
    pub slots: Vec<Slots<'t>>,
    /// The type parameters and clauses that the types of nonterminals need.
    pub answer_texts: AnswerTexts,
    /// The escaped names of the nonterminals by number.
    pub escaped_names: Vec<String>,
    ghost parameters_shown: { string_bytes answer_texts.parameters ≡ answer_parameters_text shared.grammar.now },
    ghost clauses_shown: { string_bytes answer_texts.clauses ≡ answer_clauses_text shared.grammar.now },
    ghost names_listed: { map string_bytes escaped_names.items ≡ answer_names shared.grammar.now },
}

impl<'t> States<'t> {
    /// What the functions of all states share. The error is want of memory.
    pub fn new(alloc: Global, shared: Shared<'t>) -> Result<States<'t>, AllocError>
        ensures grammar { IfOk result (λ s. s.shared.grammar.now ≡ shared.entry.grammar.now) }
        ensures states { IfOk result (λ s. s.shared.states.now ≡ shared.entry.states.now) }
        ensures start { IfOk result (λ s. start_of s.shared.start ≡ start_of shared.entry.start) }
        ensures slots { IfOk result (λ s. map layout_of s.slots.items ≡ layouts_of s.shared.grammar.now s.shared.states.now) }
    {
        let slots = all_slots(alloc, shared.grammar, shared.states)?;
        let answer_texts = AnswerTexts::new(alloc, shared.grammar)?;
        let escaped_names = answer_names(alloc, shared.grammar)?;
        Ok(States {
            shared,
            slots,
            answer_texts,
            escaped_names,
        })
    }
}
