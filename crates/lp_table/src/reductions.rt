//! Reductions: what each production pops, calls and pushes.

ghost use Rattle.std.specs.Prelude.{◌≡◌, ◌++◌, map, slice_get, string_bytes, unwrap_or, IfOk, OnOk};
ghost use Rattle.std.specs.List.{flat_map, range_with_len};
ghost use Rattle.std.specs.Map.Iter.{deref};
ghost use Rattle.lp_repr.specs.Shown.{parameter_text};
ghost use Rattle.lp_repr.specs.ShownTypes.{type_text};
ghost use Rattle.lp_table.specs.ReductionLines.{action_arguments, action_parameter, arms_from, functions_from, if_called, is_called, left_number, lookahead_parameter, own_function, own_header, places_type, pop_function, pop_functions, pops_from, produced_of, reduce_answer, reduce_function, reduce_functions, reduce_header, reduction_arm, reduction_body, stack_parameter, state_list, symbol_arguments, symbol_name, symbol_variant, symbols_parameter, variant_at};
ghost use Rattle.lp_table.specs.Starts.{start_of};
ghost use Rattle.lp_tree.specs.ProgramTree.{items};

use crate::forms::{body_arm, call_arm, reduction_rows};
use crate::headers::{grammar_header, parameter_text};
use crate::machine::phantom_parameter;
use crate::pieces::{
    borrowed_option, comma_list, copied, copied_unless_empty, lent, made, piece_of, variant_name,
    vec_of,
};
use crate::shared::Shared;
use lp_build::{FunctionName, Produced, pop, reduce_body, reduce_fn};
use lp_repr::Text;
use lp_repr::numbering::SymbolNumber;
use lp_repr::parse_tree::TypeParameter;
use lp_repr::repr::{Production, Symbol, TypeRepr};
use lp_tree::{Name, Node, Piece};
use std::alloc::{AllocError, Global};

/// The production has a function of its own.
fn is_called(shared: &Shared<'_>, production: &Production) -> bool
    ensures { result ≡ is_called shared.now.grammar.now (start_of shared.now.start) production.now }
{
    !shared.is_fallible(production) && !shared.is_start(production)
}

/// The function that reduces by any production.
#[tactic(auto, unfolding(crate::specs::ReductionLines::reduce_function))]
pub fn reduce_function<'t>(alloc: Global, shared: &Shared<'t>) -> Result<Node<'t>, AllocError>
    ensures { IfOk result (λ n. items n ≡ reduce_function shared.now.grammar.now shared.now.states.now (start_of shared.now.start)) }
{
    let mut below = vec![in alloc; reduce_header(alloc, shared)?]?;
    add_arms(alloc, &mut below, shared, shared.productions.as_slice())?;
    reduction_rows(alloc, below)
}

/// Adds the arms of productions.
fn add_arms<'t>(
    alloc: Global,
    nodes: &mut Vec<Node<'t>>,
    shared: &Shared<'t>,
    productions: &[&Production],
) -> Result<(), AllocError>
    ensures { OnOk result (flat_map items nodes.new.items ≡ flat_map items nodes.old.items ++ arms_from shared.now.grammar.now (start_of shared.now.start) 0 (map deref productions.now)) }
{
    for (number, production) in productions.iter().enumerate() {
        nodes.push(reduction_arm(alloc, shared, number, *production)?)?;
    }
    Ok(())
}

/// The arm of a production.
#[tactic(auto, unfolding(crate::specs::ReductionLines::reduction_arm))]
fn reduction_arm<'t>(
    alloc: Global,
    shared: &Shared<'t>,
    number: usize,
    production: &Production,
) -> Result<Node<'t>, AllocError>
    ensures { IfOk result (λ n. items n ≡ reduction_arm shared.now.grammar.now (start_of shared.now.start) number production.now) }
{
    if is_called(shared, production) {
        let arguments = copied(alloc, shared.parameters.arguments.as_str())?;
        let phantom = copied(alloc, shared.parameters.phantom_expression.as_str())?;
        call_arm(alloc, number as u64, arguments, phantom)
    } else {
        body_arm(alloc, number as u64, body(alloc, shared, production)?)
    }
}

/// The header of the function that reduces by any production.
#[tactic(auto, unfolding(crate::specs::ReductionLines::reduce_header))]
fn reduce_header<'t>(alloc: Global, shared: &Shared<'t>) -> Result<Node<'t>, AllocError>
    ensures { IfOk result (λ n. items n ≡ reduce_header shared.now.grammar.now shared.now.states.now (start_of shared.now.start)) }
{
    let action = action_parameter(alloc, shared)?;
    let lookahead = lookahead_parameter(alloc, shared)?;
    let stack = stack_parameter(alloc, shared)?;
    let symbols = symbols_parameter(alloc, shared)?;
    let phantom = phantom_parameter(alloc, shared)?;
    let parameters = vec![in alloc; action, lookahead, stack, symbols, phantom]?;
    let result = reduce_answer(alloc, shared)?;
    let generics = Vec::new(alloc);
    let name = FunctionName::Reduce;
    grammar_header(alloc, shared.grammar, name, generics, parameters, result)
}

/// The number of a production as a parameter.
#[tactic(auto, unfolding(crate::specs::ReductionLines::action_parameter))]
fn action_parameter<'t>(alloc: Global, shared: &Shared<'t>) -> Result<Piece<'t>, AllocError>
    ensures { IfOk result (λ p. p ≡ action_parameter shared.now.grammar.now shared.now.states.now) }
{
    let prefix = shared.grammar.prefix.as_str();
    let state_type = shared.state_type;
    Ok(made(format!(in alloc; "{prefix}action: {state_type}")?))
}

/// The stack of states as a parameter.
fn stack_parameter<'t>(alloc: Global, shared: &Shared<'t>) -> Result<Piece<'t>, AllocError>
    ensures { IfOk result (λ p. p ≡ stack_parameter shared.now.grammar.now shared.now.states.now) }
{
    let prefix = shared.grammar.prefix.as_str();
    let ty = shared.state_name();
    let states = vec_of(alloc, ty)?;
    let list = states.as_str();
    state_list(alloc, prefix, list)
}

/// A list of states as a parameter.
#[tactic(auto, unfolding(crate::specs::ReductionLines::state_list))]
fn state_list<'t>(alloc: Global, prefix: &str, list: &str) -> Result<Piece<'t>, AllocError>
    ensures { IfOk result (λ p. p ≡ state_list prefix.now list.now) }
{
    Ok(made(format!(in alloc; "{prefix}states: &mut {list}")?))
}

/// Where the lookahead starts, as a parameter.
#[tactic(auto, unfolding(crate::specs::ReductionLines::lookahead_parameter))]
fn lookahead_parameter<'t>(alloc: Global, shared: &Shared<'t>) -> Result<Piece<'t>, AllocError>
    ensures { IfOk result (λ p. p ≡ lookahead_parameter shared.now.grammar.now) }
{
    let prefix = shared.grammar.prefix.as_str();
    let location = borrowed_option(alloc, shared.location_name())?;
    Ok(made(format!(in alloc; "{prefix}lookahead_start: {location}")?))
}

/// The stack of symbols as a parameter.
#[tactic(auto, unfolding(crate::specs::ReductionLines::symbols_parameter))]
fn symbols_parameter<'t>(alloc: Global, shared: &Shared<'t>) -> Result<Piece<'t>, AllocError>
    ensures { IfOk result (λ p. p ≡ symbols_parameter shared.now.grammar.now) }
{
    let prefix = shared.grammar.prefix.as_str();
    let symbols = vec_of(alloc, shared.symbols.spanned_symbol.as_str())?;
    Ok(made(format!(in alloc; "{prefix}symbols: &mut {symbols}")?))
}

/// What the function that reduces by any production answers.
#[tactic(auto, unfolding(crate::specs::ReductionLines::reduce_answer))]
fn reduce_answer<'t>(alloc: Global, shared: &Shared<'t>) -> Result<Piece<'t>, AllocError>
    ensures { IfOk result (λ p. p ≡ reduce_answer shared.now.grammar.now (start_of shared.now.start)) }
{
    let ty = shared.start.ty.as_str();
    let error = shared.types.parse_error.as_str();
    Ok(made(format!(in alloc; "Option<Result<{ty},{error}>>")?))
}

/// Adds the function of each production that has one.
#[tactic(auto, unfolding(crate::specs::ReductionLines::reduce_functions))]
pub fn add_reduce_functions<'t>(
    alloc: Global,
    nodes: &mut Vec<Node<'t>>,
    shared: &Shared<'t>,
) -> Result<(), AllocError>
    ensures { OnOk result (flat_map items nodes.new.items ≡ flat_map items nodes.old.items ++ reduce_functions shared.now.grammar.now (start_of shared.now.start)) }
{
    add_functions(alloc, nodes, shared, shared.productions.as_slice())
}

/// Adds the functions of productions.
fn add_functions<'t>(
    alloc: Global,
    nodes: &mut Vec<Node<'t>>,
    shared: &Shared<'t>,
    productions: &[&Production],
) -> Result<(), AllocError>
    ensures { OnOk result (flat_map items nodes.new.items ≡ flat_map items nodes.old.items ++ functions_from shared.now.grammar.now (start_of shared.now.start) 0 (map deref productions.now)) }
{
    for (number, production) in productions.iter().enumerate() {
        push_function(alloc, nodes, shared, number, *production)?;
    }
    Ok(())
}

/// Adds the function of a production, if it has one.
fn push_function<'t>(
    alloc: Global,
    nodes: &mut Vec<Node<'t>>,
    shared: &Shared<'t>,
    number: usize,
    production: &Production,
) -> Result<(), AllocError>
    ensures { OnOk result (flat_map items nodes.new.items ≡ flat_map items nodes.old.items ++ if_called shared.now.grammar.now (start_of shared.now.start) number production.now) }
{
    if is_called(shared, production) {
        nodes.push(own_function(alloc, shared, number, production)?)?;
    }
    Ok(())
}

/// The function of a production.
fn own_function<'t>(
    alloc: Global,
    shared: &Shared<'t>,
    number: usize,
    production: &Production,
) -> Result<Node<'t>, AllocError>
    ensures { IfOk result (λ n. items n ≡ own_function shared.now.grammar.now (start_of shared.now.start) number production.now) }
{
    let head = own_header(alloc, shared, number)?;
    let body = body(alloc, shared, production)?;
    reduce_fn(alloc, vec![in alloc; head, body]?)
}

/// Its header.
#[tactic(auto, unfolding(crate::specs::ReductionLines::own_header))]
fn own_header<'t>(alloc: Global, shared: &Shared<'t>, number: usize) -> Result<Node<'t>, AllocError>
    ensures { IfOk result (λ n. items n ≡ own_header shared.now.grammar.now number) }
{
    let lookahead = lookahead_parameter(alloc, shared)?;
    let symbols = symbols_parameter(alloc, shared)?;
    let phantom = phantom_parameter(alloc, shared)?;
    let parameters = vec![in alloc; lookahead, symbols, phantom]?;
    let name = FunctionName::ReduceProduction(number as u64);
    let generics = Vec::new(alloc);
    let result = places_type();
    grammar_header(alloc, shared.grammar, name, generics, parameters, result)
}

/// Where a reduction starts and ends.
#[tactic(auto, unfolding(crate::specs::ReductionLines::places_type))]
fn places_type<'t>() -> Piece<'t>
    ensures { result ≡ places_type }
{
    lent("(usize, usize)")
}

/// The lines of a reduction.
#[tactic(auto, unfolding(crate::specs::ReductionLines::reduction_body))]
fn body<'t>(
    alloc: Global,
    shared: &Shared<'t>,
    production: &Production,
) -> Result<Node<'t>, AllocError>
    ensures { IfOk result (λ n. items n ≡ reduction_body shared.now.grammar.now (start_of shared.now.start) production.now) }
{
    let symbols = production.symbols.as_slice();
    let variants = symbol_variants(alloc, shared, symbols)?;
    let generics = copied(alloc, shared.parameters.generic_names.as_str())?;
    let arguments = made(action_arguments(alloc, shared, symbols.len())?);
    let produced = produced(alloc, shared, production)?;
    let fallible = shared.is_fallible(production);
    let action = production.action as u64;
    reduce_body(
        alloc, variants, action, generics, arguments, fallible, produced, None,
    )
}

/// The variants of symbols.
fn symbol_variants<'t>(
    alloc: Global,
    shared: &Shared<'t>,
    symbols: &[Symbol],
) -> Result<Vec<Name<'t>>, AllocError>
    ensures { IfOk result (λ v. v.items ≡ map (symbol_variant shared.now.grammar.now) symbols.now) }
{
    let mut variants = Vec::new(alloc);
    for symbol in symbols {
        variants.push(symbol_variant(alloc, shared, symbol)?)?;
    }
    Ok(variants)
}

/// The variant of a symbol.
fn symbol_variant<'t>(
    alloc: Global,
    shared: &Shared<'t>,
    symbol: &Symbol,
) -> Result<Name<'t>, AllocError>
    ensures { IfOk result (λ n. n ≡ symbol_variant shared.now.grammar.now symbol.now) }
{
    variant_name(alloc, variant_at(shared, shared.symbol(symbol)))
}

/// The variant of a symbol of this number, the first one where it has none.
fn variant_at(shared: &Shared<'_>, number: Option<SymbolNumber>) -> usize
    ensures { result ≡ variant_at shared.now.grammar.now number }
{
    match number {
        None => 0,
        Some(SymbolNumber::Terminal(n)) => number_or_first(shared.variants.terminals.as_slice(), n),
        Some(SymbolNumber::Nonterminal(n)) => {
            number_or_first(shared.variants.nonterminals.as_slice(), n)
        }
    }
}

/// The number at a place, 0 where there is none.
fn number_or_first(numbers: &[usize], place: usize) -> usize
    ensures { result ≡ unwrap_or (slice_get numbers.now place) 0 }
{
    match numbers.get(place) {
        None => 0,
        Some(number) => *number,
    }
}

/// The arguments of an action: the parameters, then the symbols, or the span of none.
fn action_arguments(
    alloc: Global,
    shared: &Shared<'_>,
    symbols: usize,
) -> Result<String, AllocError>
    ensures { IfOk result (λ s. string_bytes s ≡ action_arguments shared.now.grammar.now symbols) }
{
    let mut text = shared.parameters.arguments.clone()?;
    let symbols = symbol_arguments(alloc, shared.grammar.prefix.as_str(), symbols)?;
    text.push_str(symbols.as_str())?;
    Ok(text)
}

/// So many symbols as arguments, or the span of none.
fn symbol_arguments(alloc: Global, prefix: &str, symbols: usize) -> Result<String, AllocError>
    ensures { IfOk result (λ s. string_bytes s ≡ symbol_arguments prefix.now symbols) }
{
    if symbols == 0 {
        return format!(in alloc; "&{prefix}start, &{prefix}end");
    }
    let names = symbol_names(alloc, prefix, symbols)?;
    comma_list(alloc, names.as_slice())
}

/// The names of so many popped symbols.
#[tactic(auto, using(std::proofs::lemmas::Grind::common_steps, crate::proofs::Ranges::range_next))]
fn symbol_names(alloc: Global, prefix: &str, symbols: usize) -> Result<Vec<Text>, AllocError>
    ensures { IfOk result (λ v. v.items ≡ map (symbol_name prefix.now) (range_with_len 0 symbols)) }
{
    let mut names = Vec::new(alloc);
    for symbol in 0..symbols {
        names.push(symbol_name(alloc, prefix, symbol)?)?;
    }
    Ok(names)
}

/// The name of a popped symbol.
fn symbol_name(alloc: Global, prefix: &str, symbol: usize) -> Result<Text, AllocError>
    ensures { IfOk result (λ t. t ≡ symbol_name prefix.now symbol) }
{
    Ok(Text(format!(in alloc; "{prefix}sym{symbol}")?))
}

/// What a reduction pushes; the start's pushes nothing.
fn produced<'t>(
    alloc: Global,
    shared: &Shared<'t>,
    production: &Production,
) -> Result<Option<Produced<'t>>, AllocError>
    ensures { IfOk result (λ o. o ≡ produced_of shared.now.grammar.now (start_of shared.now.start) production.now) }
{
    if shared.is_start(production) {
        return Ok(None);
    }
    let nonterminal = left_number(shared, production);
    let variant = number_or_first(shared.variants.nonterminals.as_slice(), nonterminal);
    Ok(Some(Produced {
        variant: variant_name(alloc, variant)?,
        nonterminal: nonterminal as u64,
    }))
}

/// The number of a production's nonterminal.
fn left_number(shared: &Shared<'_>, production: &Production) -> usize
    ensures { result ≡ left_number shared.now.grammar.now production.now }
{
    match shared.nonterminal(&production.nonterminal) {
        None => 0,
        Some(number) => number,
    }
}

/// Adds the function that takes a symbol, for each variant.
#[tactic(auto, unfolding(crate::specs::ReductionLines::pop_functions))]
pub fn add_pops<'t>(
    alloc: Global,
    nodes: &mut Vec<Node<'t>>,
    shared: &Shared<'t>,
) -> Result<(), AllocError>
    ensures { OnOk result (flat_map items nodes.new.items ≡ flat_map items nodes.old.items ++ pop_functions shared.now.grammar.now) }
{
    add_pops_of(alloc, nodes, shared, shared.variants.types.as_slice())
}

/// Adds those of the variants of these types.
fn add_pops_of<'t>(
    alloc: Global,
    nodes: &mut Vec<Node<'t>>,
    shared: &Shared<'t>,
    types: &[&TypeRepr],
) -> Result<(), AllocError>
    ensures { OnOk result (flat_map items nodes.new.items ≡ flat_map items nodes.old.items ++ pops_from shared.now.grammar.now 0 (map type_text (map deref types.now))) }
{
    for (number, ty) in types.iter().enumerate() {
        nodes.push(pop_function(alloc, shared, number, *ty)?)?;
    }
    Ok(())
}

/// The function that takes a symbol of a variant.
fn pop_function<'t>(
    alloc: Global,
    shared: &Shared<'t>,
    number: usize,
    ty: &TypeRepr,
) -> Result<Node<'t>, AllocError>
    ensures { IfOk result (λ n. items n ≡ pop_function shared.now.grammar.now number (type_text ty.now)) }
{
    let variant = variant_name(alloc, number)?;
    let generics = lent_parameters(alloc, shared.symbols.type_parameters.as_slice())?;
    let location = copied(alloc, shared.types.location.as_str())?;
    let parameters = copied(alloc, shared.symbols.parameters.as_str())?;
    let ty = piece_of(alloc, ty)?;
    let clauses = copied_unless_empty(alloc, shared.symbols.clauses.as_str())?;
    pop(alloc, variant, generics, location, parameters, ty, clauses)
}

/// The texts of type parameters.
fn lent_parameters<'t>(
    alloc: Global,
    parameters: &[&'t TypeParameter],
) -> Result<Vec<Piece<'t>>, AllocError>
    ensures { IfOk result (λ v. v.items ≡ map parameter_text (map deref parameters.now)) }
{
    let mut generics = Vec::new(alloc);
    for parameter in parameters {
        generics.push(lent(parameter_text(*parameter)))?;
    }
    Ok(generics)
}
