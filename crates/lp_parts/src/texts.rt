//! The texts that the forms of a module share.

ghost use Rattle.std.specs.Prelude.{◌≡◌, ◌++◌, codes, map, string_bytes, IfOk, OnOk};
ghost use Rattle.std.specs.BTreeMap.{values};
ghost use Rattle.std.specs.List.{flat_map};
ghost use Rattle.std.specs.Map.Iter.{deref};
ghost use Rattle.lp_repr.specs.FreeVariables.{free_in_type};
ghost use Rattle.lp_repr.specs.Shown.{parameter_text};
ghost use Rattle.lp_repr.specs.ShownTypes.{clause_text, type_text};
ghost use Rattle.lp_parts.specs.Filter.{free_in_types};
ghost use Rattle.lp_parts.specs.Phantom.{phantom_expression_of, phantom_type_of};
ghost use Rattle.lp_parts.specs.Texts.{arguments_of, comma_list, each_with_comma, error_text, generic_name, generic_names_text, location_text, parse_error_of, parse_error_text, spanned_of, spanned_symbol_of, symbol_clauses_text, symbol_of, symbol_parameters, symbol_parameters_text, symbol_text, token_text, triple_text, type_or, valued_types};

use crate::filter::Filter;
use crate::machine_parameters::MachineParameters;
use crate::phantom::{phantom_expression, phantom_type};
use lp_repr::parse_tree::TypeParameter;
use lp_repr::repr::{Grammar, Parameter, TypeRepr, WhereClause};
use lp_repr::{Shown, Text};
use std::alloc::{AllocError, Global};
use std::collections::BTreeMap;

/// The types of locations, tokens and errors, and what is made of them.
#[derive(Drop)]
pub struct TypeTexts {
    pub location: String,
    pub token: String,
    pub error: String,
    /// `~lalrpop_util::ParseError<L, T, E>`
    pub parse_error: String,
    /// `(L, T, L)`
    pub triple: String,
}

impl TypeTexts {
    /// The texts of the types that the grammar declares, with `()` and `&'static str` for those that it
    /// leaves out. The error is want of memory.
    pub fn new(alloc: Global, grammar: &Grammar) -> Result<TypeTexts, AllocError>
        ensures location { IfOk result (λ t. string_bytes t.location ≡ location_text grammar.now) }
        ensures token { IfOk result (λ t. string_bytes t.token ≡ token_text grammar.now) }
        ensures error { IfOk result (λ t. string_bytes t.error ≡ error_text grammar.now) }
        ensures parse_error { IfOk result (λ t. string_bytes t.parse_error ≡ parse_error_text grammar.now) }
        ensures triple { IfOk result (λ t. string_bytes t.triple ≡ triple_text grammar.now) }
    {
        let location = type_or(alloc, "()", &grammar.types.loc)?;
        let token = grammar.types.token.to_string(alloc)?;
        let error = type_or(alloc, "&'static str", &grammar.types.error)?;
        let parse_error = parse_error_of(
            alloc,
            grammar.prefix.as_str(),
            location.as_str(),
            token.as_str(),
            error.as_str(),
        )?;
        let triple = spanned_of(alloc, location.as_str(), token.as_str())?;
        Ok(TypeTexts {
            location,
            token,
            error,
            parse_error,
            triple,
        })
    }

    /// `(L, type, L)`
    pub fn spanned(&self, alloc: Global, ty: &TypeRepr) -> Result<String, AllocError>
        ensures { IfOk result (λ s. string_bytes s ≡ spanned_of (string_bytes self.now.location) (type_text ty.now)) }
    {
        let ty = ty.to_string(alloc)?;
        spanned_of(alloc, self.location.as_str(), ty.as_str())
    }
}

/// What a type is shown as, or the text where there is none.
fn type_or(alloc: Global, other: &str, ty: &Option<TypeRepr>) -> Result<String, AllocError>
    ensures { IfOk result (λ s. string_bytes s ≡ type_or other.now ty.now) }
{
    match ty {
        Some(ty) => ty.to_string(alloc),
        None => String::from_str(alloc, other),
    }
}

/// `~lalrpop_util::ParseError<L, T, E>`
fn parse_error_of(
    alloc: Global,
    prefix: &str,
    location: &str,
    token: &str,
    error: &str,
) -> Result<String, AllocError>
    ensures { IfOk result (λ s. string_bytes s ≡ parse_error_of prefix.now location.now token.now error.now) }
{
    format!(in alloc; "{prefix}lalrpop_util::ParseError<{location}, {token}, {error}>")
}

/// `(L, value, L)`
fn spanned_of(alloc: Global, location: &str, value: &str) -> Result<String, AllocError>
    ensures { IfOk result (λ s. string_bytes s ≡ spanned_of location.now value.now) }
{
    format!(in alloc; "({location}, {value}, {location})")
}

/// The type parameters and clauses that the types of symbols need.
#[derive(Drop)]
pub struct SymbolTexts<'t> {
    pub type_parameters: Vec<&'t TypeParameter>,
    /// The type parameters, joined by `, `.
    pub parameters: String,
    /// Clauses, joined by `, `.
    pub clauses: String,
    /// `~Symbol<parameters>`
    pub symbol: String,
    /// `(L,~Symbol<parameters>,L)`
    pub spanned_symbol: String,
}

impl<'t> SymbolTexts<'t> {
    /// The texts of the grammar's symbol type, whose locations have the type `location`. The error is want
    /// of memory.
    #[tactic(auto, unfolding(crate::specs::Texts::symbol_parameters, crate::specs::Texts::symbol_clauses))]
    pub fn new(
        alloc: Global,
        grammar: &'t Grammar,
        location: &str,
    ) -> Result<SymbolTexts<'t>, AllocError>
        ensures type_parameters { IfOk result (λ t. map deref t.type_parameters.items ≡ symbol_parameters grammar.entry.now) }
        ensures parameters { IfOk result (λ t. string_bytes t.parameters ≡ symbol_parameters_text grammar.entry.now) }
        ensures clauses { IfOk result (λ t. string_bytes t.clauses ≡ symbol_clauses_text grammar.entry.now) }
        ensures symbol { IfOk result (λ t. string_bytes t.symbol ≡ symbol_text grammar.entry.now) }
        ensures spanned_symbol { IfOk result (λ t. string_bytes t.spanned_symbol ≡ spanned_symbol_of location.now (symbol_text grammar.entry.now)) }
    {
        let filter = symbol_filter(alloc, grammar)?;
        let type_parameters = filter.type_parameters(alloc)?;
        let where_clauses = filter.where_clauses(alloc)?;
        let parameters = parameter_list(alloc, type_parameters.as_slice())?;
        let clauses = clause_list(alloc, where_clauses.as_slice())?;
        let symbol = symbol_of(alloc, grammar.prefix.as_str(), parameters.as_str())?;
        let spanned_symbol = spanned_symbol_of(alloc, location, symbol.as_str())?;
        Ok(SymbolTexts {
            type_parameters,
            parameters,
            clauses,
            symbol,
            spanned_symbol,
        })
    }
}

/// The filter of the types of symbols.
fn symbol_filter<'t>(alloc: Global, grammar: &'t Grammar) -> Result<Filter<'t>, AllocError>
    ensures grammar { IfOk result (λ f. f.grammar.now ≡ grammar.entry.now) }
    ensures referenced { IfOk result (λ f. f.referenced.items ≡ free_in_types grammar.entry.now (valued_types grammar.entry.now)) }
{
    let mut filter = Filter::new(alloc, grammar);
    add_values(alloc, &mut filter, &grammar.types.nonterminals)?;
    add_values(alloc, &mut filter, &grammar.types.terminals)?;
    Ok(filter)
}

/// Adds the types of symbols to a filter.
fn add_values<K: Ord>(
    alloc: Global,
    filter: &mut Filter<'_>,
    types: &BTreeMap<K, TypeRepr>,
) -> Result<(), AllocError>
    ensures grammar { filter.new.grammar.now ≡ filter.old.grammar.now }
    ensures referenced { OnOk result (filter.new.referenced.items ≡ filter.old.referenced.items ++ free_in_types filter.old.grammar.now (values types.now)) }
{
    for ty in types.values() {
        filter.add(alloc, ty)?;
    }
    Ok(())
}

/// `~Symbol<parameters>`
fn symbol_of(alloc: Global, prefix: &str, parameters: &str) -> Result<String, AllocError>
    ensures { IfOk result (λ s. string_bytes s ≡ symbol_of prefix.now parameters.now) }
{
    format!(in alloc; "{prefix}Symbol<{parameters}>")
}

/// `(L,symbol,L)`
fn spanned_symbol_of(alloc: Global, location: &str, symbol: &str) -> Result<String, AllocError>
    ensures { IfOk result (λ s. string_bytes s ≡ spanned_symbol_of location.now symbol.now) }
{
    format!(in alloc; "({location},{symbol},{location})")
}

/// Type parameters, joined by `, `.
fn parameter_list(alloc: Global, parameters: &[&TypeParameter]) -> Result<String, AllocError>
    ensures { IfOk result (λ s. string_bytes s ≡ comma_list (map parameter_text (map deref parameters.now))) }
{
    let mut texts = Vec::new(alloc);
    for parameter in parameters {
        texts.push(shown_text(alloc, *parameter)?)?;
    }
    comma_list(alloc, texts.as_slice())
}

/// Where clauses, joined by `, `.
fn clause_list(alloc: Global, clauses: &[&WhereClause]) -> Result<String, AllocError>
    ensures { IfOk result (λ s. string_bytes s ≡ comma_list (map clause_text (map deref clauses.now))) }
{
    let mut texts = Vec::new(alloc);
    for clause in clauses {
        texts.push(shown_text(alloc, *clause)?)?;
    }
    comma_list(alloc, texts.as_slice())
}

/// How the parameters of a grammar are declared, named and handed on.
#[derive(Drop)]
pub struct ParameterTexts {
    /// Each type parameter and `, `.
    pub type_parameters: String,
    /// Those that aren't lifetimes, joined by `, `.
    pub generic_names: String,
    /// Each parameter's name and `, `.
    pub arguments: String,
    pub phantom_type: String,
    pub phantom_expression: String,
}

impl ParameterTexts {
    /// The texts of the grammar's parameters. The error is want of memory.
    pub fn new(alloc: Global, grammar: &Grammar) -> Result<ParameterTexts, AllocError>
        ensures type_parameters { IfOk result (λ t. string_bytes t.type_parameters ≡ each_with_comma (map parameter_text grammar.now.type_parameters)) }
        ensures generic_names { IfOk result (λ t. string_bytes t.generic_names ≡ generic_names_text grammar.now) }
        ensures arguments { IfOk result (λ t. string_bytes t.arguments ≡ arguments_of grammar.now.parameters) }
        ensures phantom_type { IfOk result (λ t. string_bytes t.phantom_type ≡ phantom_type_of grammar.now.type_parameters) }
        ensures phantom_expression { IfOk result (λ t. string_bytes t.phantom_expression ≡ phantom_expression_of grammar.now.type_parameters) }
    {
        let parameters = grammar.type_parameters.as_slice();
        let type_parameters = each_with_comma(alloc, parameters)?;
        let names = generic_texts(alloc, parameters)?;
        let generic_names = comma_list(alloc, names.as_slice())?;
        let arguments = argument_names(alloc, grammar.parameters.as_slice())?;
        let phantom_type = phantom_type(alloc, parameters)?;
        let phantom_expression = phantom_expression(alloc, parameters)?;
        Ok(ParameterTexts {
            type_parameters,
            generic_names,
            arguments,
            phantom_type,
            phantom_expression,
        })
    }
}

/// The type parameters and clauses of the state machine, each joined by `, `.
#[derive(Drop)]
pub struct MachineTexts {
    pub parameters: String,
    pub clauses: String,
}

impl MachineTexts {
    /// The texts of the parameters of the state machine. The error is want of memory.
    pub fn new(alloc: Global, machine: &MachineParameters) -> Result<MachineTexts, AllocError>
        ensures parameters { IfOk result (λ t. string_bytes t.parameters ≡ comma_list (map parameter_text machine.now.type_parameters)) }
        ensures clauses { IfOk result (λ t. string_bytes t.clauses ≡ comma_list (map clause_text machine.now.where_clauses)) }
    {
        let parameters = shown_texts(alloc, machine.type_parameters.as_slice())?;
        let clauses = shown_texts(alloc, machine.where_clauses.as_slice())?;
        Ok(MachineTexts {
            parameters: comma_list(alloc, parameters.as_slice())?,
            clauses: comma_list(alloc, clauses.as_slice())?,
        })
    }
}

/// What a value is shown as.
fn shown_text<T: Shown>(alloc: Global, value: &T) -> Result<Text, AllocError>
    ensures { IfOk result (λ t. t ≡ T.text value.now) }
{
    Ok(Text(value.to_string(alloc)?))
}

/// What the values are shown as.
fn shown_texts<T: Shown>(alloc: Global, values: &[T]) -> Result<Vec<Text>, AllocError>
    ensures { IfOk result (λ v. v.items ≡ map T.text values.now) }
{
    let mut texts = Vec::new(alloc);
    for value in values {
        texts.push(shown_text(alloc, value)?)?;
    }
    Ok(texts)
}

/// The texts, joined by `, `.
pub(crate) fn comma_list(alloc: Global, texts: &[Text]) -> Result<String, AllocError>
    ensures { IfOk result (λ s. string_bytes s ≡ comma_list texts.now) }
{
    let mut list = String::new(alloc);
    match texts.split_first() {
        None => {}
        Some((first, rest)) => {
            list.push_str(first.as_str())?;
            push_after_commas(&mut list, rest)?;
        }
    }
    Ok(list)
}

/// Appends the texts, each after `, `.
fn push_after_commas(list: &mut String, texts: &[Text]) -> Result<(), AllocError>
    ensures { OnOk result (string_bytes list.new ≡ string_bytes list.old ++ flat_map (λ text. codes ", " ++ text) texts.now) }
{
    for text in texts {
        list.push_str(", ")?;
        list.push_str(text.as_str())?;
    }
    Ok(())
}

/// Each element followed by `, `.
pub fn each_with_comma<T: Shown>(alloc: Global, values: &[T]) -> Result<String, AllocError>
    ensures { IfOk result (λ s. string_bytes s ≡ each_with_comma (map T.text values.now)) }
{
    let mut list = String::new(alloc);
    for value in values {
        let text = shown_text(alloc, value)?;
        list.push_str(text.as_str())?;
        list.push_str(", ")?;
    }
    Ok(list)
}

/// The names of the type parameters that aren't lifetimes.
pub fn generic_names(alloc: Global, parameters: &[TypeParameter]) -> Result<Vec<&str>, AllocError>
    ensures { IfOk result (λ v. map deref v.items ≡ flat_map generic_name parameters.entry.now) }
{
    let mut names = Vec::new(alloc);
    for parameter in parameters {
        push_name(&mut names, parameter)?;
    }
    Ok(names)
}

/// Adds the name of a parameter that isn't a lifetime.
fn push_name<'p>(names: &mut Vec<&'p str>, parameter: &'p TypeParameter) -> Result<(), AllocError>
    ensures { OnOk result (map deref names.new.items ≡ map deref names.old.items ++ generic_name parameter.entry.now) }
{
    match parameter {
        TypeParameter::Lifetime(_) => Ok(()),
        TypeParameter::Id(name) => {
            names.push(name.as_str())?;
            Ok(())
        }
    }
}

/// Copies of the names of the type parameters that aren't lifetimes.
fn generic_texts(alloc: Global, parameters: &[TypeParameter]) -> Result<Vec<Text>, AllocError>
    ensures { IfOk result (λ v. v.items ≡ flat_map generic_name parameters.now) }
{
    let mut names = Vec::new(alloc);
    for parameter in parameters {
        push_generic(&mut names, parameter)?;
    }
    Ok(names)
}

/// Adds a copy of the name of a parameter that isn't a lifetime.
fn push_generic(names: &mut Vec<Text>, parameter: &TypeParameter) -> Result<(), AllocError>
    ensures { OnOk result (names.new.items ≡ names.old.items ++ generic_name parameter.now) }
{
    match parameter {
        TypeParameter::Lifetime(_) => Ok(()),
        TypeParameter::Id(name) => {
            names.push(name.clone()?)?;
            Ok(())
        }
    }
}

/// Each parameter's name followed by `, `.
fn argument_names(alloc: Global, parameters: &[Parameter]) -> Result<String, AllocError>
    ensures { IfOk result (λ s. string_bytes s ≡ arguments_of parameters.now) }
{
    let mut list = String::new(alloc);
    for parameter in parameters {
        list.push_str(parameter.name.as_str())?;
        list.push_str(", ")?;
    }
    Ok(list)
}
