//! What the functions of states answer.

ghost use Rattle.std.specs.Prelude.{◌≡◌, ◌++◌, map, string_bytes, IfOk, OnOk};
ghost use Rattle.std.specs.BTreeMap.{values};
ghost use Rattle.std.specs.List.{flat_map};
ghost use Rattle.std.specs.Map.Iter.{deref};
ghost use Rattle.lp_build.specs.Ascent.{return_row};
ghost use Rattle.lp_parts.specs.Filter.{free_in_types};
ghost use Rattle.lp_parts.specs.Texts.{comma_list};
ghost use Rattle.lp_repr.specs.FreeVariables.{free_in_type};
ghost use Rattle.lp_repr.specs.Numbering.{nonterminals_of};
ghost use Rattle.lp_repr.specs.Shown.{parameter_text};
ghost use Rattle.lp_repr.specs.ShownTypes.{clause_text};
ghost use Rattle.lp_tree.specs.ProgramTree.{items};
ghost use Rattle.lp_ascent.specs.AnswerLines.{answer_clauses_text, answer_lines, answer_name, answer_names, answer_parameters_text, answer_row, located};

use crate::states::States;
use lp_build::{ReturnVariant, return_enum};
use lp_parts::filter::Filter;
use lp_repr::parse_tree::TypeParameter;
use lp_repr::repr::{Grammar, NonterminalString, TypeRepr, WhereClause};
use lp_repr::{Shown, Text};
use lp_table::pieces::{comma_list, copied, copied_unless_empty, made};
use lp_table::shared::{Shared, nonterminal_type};
use lp_tree::{Node, Piece};
use lp_write::Escape;
use std::alloc::{AllocError, Global};
use std::collections::BTreeMap;

/// The type parameters and clauses that the types of nonterminals need, each joined by `, `.
#[derive(Drop)]
pub struct AnswerTexts {
    pub parameters: String,
    pub clauses: String,
}

impl AnswerTexts {
    /// The texts of the grammar's answer type. The error is want of memory.
    #[tactic(auto, unfolding(crate::specs::AnswerLines::answer_parameters, crate::specs::AnswerLines::answer_clauses))]
    pub fn new(alloc: Global, grammar: &Grammar) -> Result<AnswerTexts, AllocError>
        ensures parameters { IfOk result (λ t. string_bytes t.parameters ≡ answer_parameters_text grammar.now) }
        ensures clauses { IfOk result (λ t. string_bytes t.clauses ≡ answer_clauses_text grammar.now) }
    {
        let filter = answer_filter(alloc, grammar)?;
        let kept_parameters = filter.type_parameters(alloc)?;
        let kept_clauses = filter.where_clauses(alloc)?;
        let parameters = parameter_list(alloc, kept_parameters.as_slice())?;
        let clauses = clause_list(alloc, kept_clauses.as_slice())?;
        Ok(AnswerTexts {
            parameters,
            clauses,
        })
    }
}

/// The filter of the types of nonterminals.
fn answer_filter<'g>(alloc: Global, grammar: &'g Grammar) -> Result<Filter<'g>, AllocError>
    ensures grammar { IfOk result (λ f. f.grammar.now ≡ grammar.entry.now) }
    ensures referenced { IfOk result (λ f. f.referenced.items ≡ free_in_types grammar.entry.now (values grammar.entry.now.types.nonterminals)) }
{
    let mut filter = Filter::new(alloc, grammar);
    add_types(alloc, &mut filter, &grammar.types.nonterminals)?;
    Ok(filter)
}

/// Adds types to a filter.
fn add_types(
    alloc: Global,
    filter: &mut Filter<'_>,
    types: &BTreeMap<NonterminalString, TypeRepr>,
) -> Result<(), AllocError>
    ensures grammar { filter.new.grammar.now ≡ filter.old.grammar.now }
    ensures referenced { OnOk result (filter.new.referenced.items ≡ filter.old.referenced.items ++ free_in_types filter.old.grammar.now (values types.now)) }
{
    for ty in types.values() {
        filter.add(alloc, ty)?;
    }
    Ok(())
}

/// Type parameters, joined by `, `.
fn parameter_list(alloc: Global, parameters: &[&TypeParameter]) -> Result<String, AllocError>
    ensures { IfOk result (λ s. string_bytes s ≡ comma_list (map parameter_text (map deref parameters.now))) }
{
    let mut texts = Vec::new(alloc);
    for parameter in parameters {
        texts.push(shown_text(alloc, *parameter)?)?;
    }
    comma_list(alloc, texts.as_slice())
}

/// Where clauses, joined by `, `.
fn clause_list(alloc: Global, clauses: &[&WhereClause]) -> Result<String, AllocError>
    ensures { IfOk result (λ s. string_bytes s ≡ comma_list (map clause_text (map deref clauses.now))) }
{
    let mut texts = Vec::new(alloc);
    for clause in clauses {
        texts.push(shown_text(alloc, *clause)?)?;
    }
    comma_list(alloc, texts.as_slice())
}

/// What a value is shown as.
fn shown_text<T: Shown>(alloc: Global, value: &T) -> Result<Text, AllocError>
    ensures { IfOk result (λ t. t ≡ T.text value.now) }
{
    Ok(Text(value.to_string(alloc)?))
}

/// The escaped names of the nonterminals by number.
pub fn answer_names(alloc: Global, grammar: &Grammar) -> Result<Vec<String>, AllocError>
    ensures { IfOk result (λ v. map string_bytes v.items ≡ answer_names grammar.now) }
{
    let mut names = Vec::new(alloc);
    for name in grammar.nonterminals.keys() {
        names.push(escaped(alloc, name)?)?;
    }
    Ok(names)
}

/// The escaped name of a nonterminal.
fn escaped(alloc: Global, name: &NonterminalString) -> Result<String, AllocError>
    ensures { IfOk result (λ s. string_bytes s ≡ answer_name name.now) }
{
    Escape(name.0.as_str()).to_string(alloc)
}

/// The variant of a nonterminal.
pub fn answer_name<'t>(alloc: Global, name: &NonterminalString) -> Result<Piece<'t>, AllocError>
    ensures { IfOk result (λ p. p ≡ answer_name name.now) }
{
    Ok(made(escaped(alloc, name)?))
}

/// A value between two locations, without parentheses.
pub fn located<'t>(alloc: Global, shared: &Shared<'t>, value: &str) -> Result<Piece<'t>, AllocError>
    ensures { IfOk result (λ p. p ≡ located shared.now.grammar.now value.now) }
{
    let location = shared.types.location.as_str();
    Ok(made(format!(in alloc; "{location}, {value}, {location}")?))
}

/// What a state's function answers.
#[tactic(auto, unfolding(crate::specs::AnswerLines::answer_lines))]
pub fn answers<'t>(alloc: Global, states: &States<'t>) -> Result<Node<'t>, AllocError>
    ensures { IfOk result (λ n. items n ≡ answer_lines states.now.shared.grammar.now) }
{
    let variants = answer_variants(alloc, &states.shared)?;
    let parameters = copied(alloc, states.answer_texts.parameters.as_str())?;
    let clauses = copied_unless_empty(alloc, states.answer_texts.clauses.as_str())?;
    return_enum(alloc, parameters, clauses, variants)
}

/// The variants of all nonterminals.
fn answer_variants<'t>(
    alloc: Global,
    shared: &Shared<'t>,
) -> Result<Vec<ReturnVariant<'t>>, AllocError>
    ensures { IfOk result (λ v. map return_row v.items ≡ map (answer_row shared.now.grammar.now) (nonterminals_of shared.now.grammar.now)) }
{
    let grammar = shared.grammar;
    let mut variants = Vec::new(alloc);
    for name in grammar.nonterminals.keys() {
        variants.push(answer_variant(alloc, shared, name)?)?;
    }
    Ok(variants)
}

/// The variant of a nonterminal, with what it holds.
fn answer_variant<'t>(
    alloc: Global,
    shared: &Shared<'t>,
    name: &NonterminalString,
) -> Result<ReturnVariant<'t>, AllocError>
    ensures { IfOk result (λ v. return_row v ≡ answer_row shared.now.grammar.now name.now) }
{
    let ty = shown_text(alloc, nonterminal_type(shared.grammar, name))?;
    let nonterminal = answer_name(alloc, name)?;
    let contents = located(alloc, shared, ty.as_str())?;
    Ok(ReturnVariant {
        nonterminal,
        contents,
    })
}
