//! The struct that the driver asks, and what it needs for expected lists.

ghost use Rattle.std.specs.Prelude.{◌≡◌, map, string_bytes, IfOk};
ghost use Rattle.std.specs.Map.Iter.{deref};
ghost use Rattle.lp_build.specs.Machine.{field_row, simulate_row};
ghost use Rattle.lp_build.specs.Tables.{variant_row};
ghost use Rattle.lp_repr.specs.Shown.{parameter_text};
ghost use Rattle.lp_repr.specs.ShownTypes.{clause_text, type_text};
ghost use Rattle.lp_table.specs.Headers.{header_lines};
ghost use Rattle.lp_table.specs.MachineLines.{acceptance, definition, drive_call, error_state_parameter, expected_list, implementation, index_parameter, integer_parameter, machine_name, machine_type, phantom_parameter, recovery_variant, reduced_of, simulated_answer, simulated_from, simulated_line, simulated_over, simulated_type, simulation, states_parameter, strings_type, symbol_values, variant_line, variant_rows};
ghost use Rattle.lp_table.specs.Machines.{IsMachineOf, field_line};
ghost use Rattle.lp_table.specs.Starts.{start_of};
ghost use Rattle.lp_tree.specs.ProgramTree.{items};

pub use crate::headers::parameter_names;
use crate::headers::{header_of, parameter_text, shown_each};
use crate::pieces::{
    copied, copied_name, copied_unless_empty, lent, lent_name, made, piece_of, variant_name,
};
use crate::shared::Shared;
use lp_build::{
    Field, FunctionName, Reduced, SimulateArm, Variant, accepts, drive, expected_from_states,
    machine_impl, machine_struct, simulate_reduce, symbol_enum,
};
use lp_parts::machine_parameters::MachineParameters;
use lp_parts::texts::MachineTexts;
use lp_repr::parse_tree::TypeParameter;
use lp_repr::repr::{Grammar, Parameter, Production, TypeRepr};
use lp_tree::{Name, Node, Piece};
use std::alloc::{AllocError, Global};

/// The machine's parameters with their texts.
#[derive(Drop)]
pub struct Machine {
    pub parameters: MachineParameters,
    pub texts: MachineTexts,
}

impl Machine {
    /// The state machine of a grammar. The error is want of memory.
    pub fn new(alloc: Global, grammar: &Grammar) -> Result<Machine, AllocError>
        ensures { IfOk result (IsMachineOf grammar.now) }
    {
        let parameters = MachineParameters::new(alloc, grammar)?;
        let texts = MachineTexts::new(alloc, &parameters)?;
        Ok(Machine { parameters, texts })
    }

    /// The header of a function over the machine's type parameters.
    fn header<'t>(
        &self,
        alloc: Global,
        name: FunctionName<'t>,
        parameters: Vec<Piece<'t>>,
        returned: Piece<'t>,
    ) -> Result<Node<'t>, AllocError>
        ensures { IfOk result (λ n. items n ≡ header_lines name.entry (map parameter_text self.now.parameters.type_parameters) parameters.entry.items returned.entry (map clause_text self.now.parameters.where_clauses)) }
    {
        let generics = parameter_copies(alloc, self.parameters.type_parameters.as_slice())?;
        let clauses = shown_each(alloc, self.parameters.where_clauses.as_slice())?;
        header_of(alloc, name, generics, parameters, returned, clauses)
    }
}

/// The texts of type parameters.
fn parameter_copies<'t>(
    alloc: Global,
    parameters: &[TypeParameter],
) -> Result<Vec<Piece<'t>>, AllocError>
    ensures { IfOk result (λ v. v.items ≡ map parameter_text parameters.now) }
{
    let mut generics = Vec::new(alloc);
    for parameter in parameters {
        generics.push(copied(alloc, parameter_text(parameter))?)?;
    }
    Ok(generics)
}

/// The values of symbols.
#[tactic(auto, unfolding(crate::specs::MachineLines::symbol_values))]
pub fn symbol_values<'t>(alloc: Global, shared: &Shared<'t>) -> Result<Node<'t>, AllocError>
    ensures { IfOk result (λ n. items n ≡ symbol_values shared.now.grammar.now) }
{
    let variants = variants_of(alloc, shared.variants.types.as_slice())?;
    let parameters = copied(alloc, shared.symbols.parameters.as_str())?;
    let clauses = copied_unless_empty(alloc, shared.symbols.clauses.as_str())?;
    symbol_enum(alloc, parameters, clauses, variants)
}

/// The variants of these types.
fn variants_of<'t>(alloc: Global, types: &[&TypeRepr]) -> Result<Vec<Variant<'t>>, AllocError>
    ensures { IfOk result (λ v. map variant_row v.items ≡ variant_rows 0 (map type_text (map deref types.now))) }
{
    let mut variants = Vec::new(alloc);
    for (number, ty) in types.iter().enumerate() {
        variants.push(variant_for(alloc, number, *ty)?)?;
    }
    Ok(variants)
}

/// The variant of a type.
fn variant_for<'t>(alloc: Global, number: usize, ty: &TypeRepr) -> Result<Variant<'t>, AllocError>
    ensures { IfOk result (λ v. variant_row v ≡ variant_line number (type_text ty.now)) }
{
    let name = variant_name(alloc, number)?;
    let ty = piece_of(alloc, ty)?;
    Ok(Variant { name, ty })
}

/// The struct.
#[tactic(auto, unfolding(crate::specs::MachineLines::definition))]
pub fn definition<'t>(
    alloc: Global,
    shared: &Shared<'t>,
    machine: &Machine,
) -> Result<Node<'t>, AllocError>
    requires { IsMachineOf shared.now.grammar.now machine.now }
    ensures { IfOk result (λ n. items n ≡ definition shared.now.grammar.now) }
{
    let fields = fields_of(alloc, machine.parameters.fields.as_slice())?;
    let parameters = copied(alloc, machine.texts.parameters.as_str())?;
    let clauses = copied(alloc, machine.texts.clauses.as_str())?;
    let phantom = copied(alloc, shared.parameters.phantom_type.as_str())?;
    machine_struct(alloc, parameters, clauses, fields, phantom)
}

/// The fields of the struct.
fn fields_of<'t>(alloc: Global, parameters: &[Parameter]) -> Result<Vec<Field<'t>>, AllocError>
    ensures { IfOk result (λ v. map field_row v.items ≡ map field_line parameters.now) }
{
    let mut fields = Vec::new(alloc);
    for parameter in parameters {
        fields.push(field_of(alloc, parameter)?)?;
    }
    Ok(fields)
}

/// The field of a parameter.
fn field_of<'t>(alloc: Global, parameter: &Parameter) -> Result<Field<'t>, AllocError>
    ensures { IfOk result (λ f. field_row f ≡ field_line parameter.now) }
{
    let name = copied_name(alloc, parameter.name.as_str())?;
    let ty = piece_of(alloc, &parameter.ty)?;
    Ok(Field { name, ty })
}

/// What the driver asks the struct.
#[tactic(auto, unfolding(crate::specs::MachineLines::implementation))]
pub fn implementation<'t>(
    alloc: Global,
    shared: &Shared<'t>,
    machine: &Machine,
) -> Result<Node<'t>, AllocError>
    requires { IsMachineOf shared.now.grammar.now machine.now }
    ensures { IfOk result (λ n. items n ≡ implementation shared.now.grammar.now shared.now.states.now (start_of shared.now.start)) }
{
    let terminals = shared.grammar.terminals.all.as_slice().len() as u64;
    let parameters = copied(alloc, machine.texts.parameters.as_str())?;
    let clauses = copied(alloc, machine.texts.clauses.as_str())?;
    let location = copied(alloc, shared.types.location.as_str())?;
    let error = copied(alloc, shared.types.error.as_str())?;
    let token = copied(alloc, shared.types.token.as_str())?;
    let symbol = copied(alloc, shared.symbols.parameters.as_str())?;
    let success = copied(alloc, shared.start.ty.as_str())?;
    let state_type = lent_name(shared.state_type);
    let phantom = copied(alloc, shared.parameters.phantom_expression.as_str())?;
    let recovery = recovery_variant(alloc, shared)?;
    let names = parameter_names(alloc, shared.grammar)?;
    machine_impl(
        alloc, parameters, clauses, location, error, token, symbol, success, state_type, phantom,
        terminals, recovery, names,
    )
}

/// The variant of the error terminal, which is the last one, where it is used.
fn recovery_variant<'t>(alloc: Global, shared: &Shared<'t>) -> Result<Option<Name<'t>>, AllocError>
    ensures { IfOk result (λ o. o ≡ recovery_variant shared.now.grammar.now) }
{
    if !shared.grammar.uses_error_recovery {
        return Ok(None);
    }
    match shared.variants.terminals.last() {
        Some(number) => Ok(Some(variant_name(alloc, *number)?)),
        None => Ok(None),
    }
}

/// The terminals that a stack of states accepts.
#[tactic(auto, unfolding(crate::specs::MachineLines::expected_list))]
pub fn expected_list<'t>(
    alloc: Global,
    shared: &Shared<'t>,
    machine: &Machine,
) -> Result<Node<'t>, AllocError>
    requires { IsMachineOf shared.now.grammar.now machine.now }
    ensures { IfOk result (λ n. items n ≡ expected_list shared.now.grammar.now shared.now.states.now) }
{
    let states = states_parameter(alloc, shared)?;
    let parameters = vec![in alloc; states, phantom_parameter(alloc, shared)?]?;
    let result = strings_type();
    let name = FunctionName::ExpectedTokensFromStates;
    let head = machine.header(alloc, name, parameters, result)?;
    let phantom = copied(alloc, shared.parameters.phantom_expression.as_str())?;
    expected_from_states(alloc, phantom, vec![in alloc; head]?)
}

/// A list of strings.
#[tactic(auto, unfolding(crate::specs::MachineLines::strings_type))]
fn strings_type<'t>() -> Piece<'t>
    ensures { result ≡ strings_type }
{
    lent("alloc::vec::Vec<alloc::string::String>")
}

/// A stack of states as a parameter.
#[tactic(auto, unfolding(crate::specs::MachineLines::states_parameter))]
fn states_parameter<'t>(alloc: Global, shared: &Shared<'t>) -> Result<Piece<'t>, AllocError>
    ensures { IfOk result (λ p. p ≡ states_parameter shared.now.grammar.now shared.now.states.now) }
{
    let prefix = shared.grammar.prefix.as_str();
    let state_type = shared.state_type;
    Ok(made(format!(in alloc; "{prefix}states: &[{state_type}]")?))
}

/// The parameter that uses each type parameter.
#[tactic(auto, unfolding(crate::specs::MachineLines::phantom_parameter))]
pub fn phantom_parameter<'t>(alloc: Global, shared: &Shared<'t>) -> Result<Piece<'t>, AllocError>
    ensures { IfOk result (λ p. p ≡ phantom_parameter shared.now.grammar.now) }
{
    let ty = shared.parameters.phantom_type.as_str();
    Ok(made(format!(in alloc; "_: {ty}")?))
}

/// What a reduction would do.
#[tactic(auto, unfolding(crate::specs::MachineLines::simulation))]
pub fn simulation<'t>(
    alloc: Global,
    shared: &Shared<'t>,
    machine: &Machine,
) -> Result<Node<'t>, AllocError>
    requires { IsMachineOf shared.now.grammar.now machine.now }
    ensures { IfOk result (λ n. items n ≡ simulation shared.now.grammar.now shared.now.states.now (start_of shared.now.start)) }
{
    let arms = simulate_arms(alloc, shared, shared.productions.as_slice())?;
    let index = index_parameter(alloc, shared)?;
    let parameters = vec![in alloc; index, phantom_parameter(alloc, shared)?]?;
    let result = simulated_answer(alloc, shared, machine)?;
    let head = machine.header(alloc, FunctionName::SimulateReduce, parameters, result)?;
    simulate_reduce(alloc, arms, vec![in alloc; head]?)
}

/// The productions of a simulation.
fn simulate_arms<'t>(
    alloc: Global,
    shared: &Shared<'t>,
    productions: &[&Production],
) -> Result<Vec<SimulateArm<'t>>, AllocError>
    ensures { IfOk result (λ v. map simulate_row v.items ≡ simulated_from shared.now.grammar.now (start_of shared.now.start) 0 (map deref productions.now)) }
{
    let mut arms = Vec::new(alloc);
    for (number, production) in productions.iter().enumerate() {
        arms.push(simulate_arm(shared, number, *production))?;
    }
    Ok(arms)
}

/// One production of a simulation.
fn simulate_arm<'t>(shared: &Shared<'t>, number: usize, production: &Production) -> SimulateArm<'t>
    ensures { simulate_row result ≡ simulated_line shared.now.grammar.now (start_of shared.now.start) number production.now }
{
    SimulateArm {
        production: number as u64,
        reduced: reduced(shared, production),
        note: None,
    }
}

/// The number of a production as a parameter.
#[tactic(auto, unfolding(crate::specs::MachineLines::index_parameter))]
fn index_parameter<'t>(alloc: Global, shared: &Shared<'t>) -> Result<Piece<'t>, AllocError>
    ensures { IfOk result (λ p. p ≡ index_parameter shared.now.grammar.now shared.now.states.now) }
{
    let prefix = shared.grammar.prefix.as_str();
    let state_type = shared.state_type;
    Ok(made(format!(in alloc; "{prefix}reduce_index: {state_type}")?))
}

/// What a simulation answers.
fn simulated_answer<'t>(
    alloc: Global,
    shared: &Shared<'t>,
    machine: &Machine,
) -> Result<Piece<'t>, AllocError>
    requires { IsMachineOf shared.now.grammar.now machine.now }
    ensures { IfOk result (λ p. p ≡ simulated_answer shared.now.grammar.now) }
{
    let prefix = shared.grammar.prefix.as_str();
    let name = machine_name(alloc, shared, machine)?;
    let text = name.as_str();
    let simulated = simulated_type(alloc, text)?;
    let path = simulated.as_str();
    simulated_over(alloc, prefix, path)
}

/// What a simulation answers, with the module that has it.
#[tactic(auto, unfolding(crate::specs::MachineLines::simulated_over))]
fn simulated_over<'t>(alloc: Global, prefix: &str, simulated: &str) -> Result<Piece<'t>, AllocError>
    ensures { IfOk result (λ p. p ≡ simulated_over prefix.now simulated.now) }
{
    Ok(made(format!(in alloc; "{prefix}state_machine::{simulated}")?))
}

/// The struct over its type parameters.
fn machine_name(alloc: Global, shared: &Shared<'_>, machine: &Machine) -> Result<String, AllocError>
    requires { IsMachineOf shared.now.grammar.now machine.now }
    ensures { IfOk result (λ s. string_bytes s ≡ machine_name shared.now.grammar.now) }
{
    let prefix = shared.grammar.prefix.as_str();
    let generics = machine.texts.parameters.as_str();
    machine_type(alloc, prefix, generics)
}

/// The struct over these type parameters.
#[tactic(auto, unfolding(crate::specs::MachineLines::machine_type))]
fn machine_type(alloc: Global, prefix: &str, generics: &str) -> Result<String, AllocError>
    ensures { IfOk result (λ s. string_bytes s ≡ machine_type prefix.now generics.now) }
{
    format!(in alloc; "{prefix}StateMachine<{generics}>")
}

/// What a simulation of this struct answers.
#[tactic(auto, unfolding(crate::specs::MachineLines::simulated_type))]
fn simulated_type(alloc: Global, machine: &str) -> Result<String, AllocError>
    ensures { IfOk result (λ s. string_bytes s ≡ simulated_type machine.now) }
{
    format!(in alloc; "SimulatedReduce<{machine}>")
}

/// What a production pops and produces; the start's does neither.
pub fn reduced(shared: &Shared<'_>, production: &Production) -> Option<Reduced>
    ensures { result ≡ reduced_of shared.now.grammar.now (start_of shared.now.start) production.now }
{
    if shared.is_start(production) {
        return None;
    }
    Some(Reduced {
        pop: production.symbols.as_slice().len() as u64,
        nonterminal: shared.nonterminal(&production.nonterminal).unwrap_or(0) as u64,
    })
}

/// Whether a stack of states accepts a token.
#[tactic(auto, unfolding(crate::specs::MachineLines::acceptance))]
pub fn acceptance<'t>(
    alloc: Global,
    shared: &Shared<'t>,
    machine: &Machine,
) -> Result<Node<'t>, AllocError>
    requires { IsMachineOf shared.now.grammar.now machine.now }
    ensures { IfOk result (λ n. items n ≡ acceptance shared.now.grammar.now shared.now.states.now) }
{
    let error_state = error_state_parameter(alloc, shared)?;
    let states = states_parameter(alloc, shared)?;
    let integer = integer_parameter(alloc, shared)?;
    let phantom = phantom_parameter(alloc, shared)?;
    let parameters = vec![in alloc; error_state, states, integer, phantom]?;
    let head = machine.header(alloc, FunctionName::Accepts, parameters, lent("bool"))?;
    let phantom = copied(alloc, shared.parameters.phantom_expression.as_str())?;
    accepts(alloc, phantom, vec![in alloc; head]?)
}

/// The state of an error as a parameter.
#[tactic(auto, unfolding(crate::specs::MachineLines::error_state_parameter))]
fn error_state_parameter<'t>(alloc: Global, shared: &Shared<'t>) -> Result<Piece<'t>, AllocError>
    ensures { IfOk result (λ p. p ≡ error_state_parameter shared.now.grammar.now shared.now.states.now) }
{
    let prefix = shared.grammar.prefix.as_str();
    let state_type = shared.state_type;
    Ok(made(format!(in alloc; "{prefix}error_state: Option<{state_type}>")?))
}

/// The number of a token as a parameter.
#[tactic(auto, unfolding(crate::specs::MachineLines::integer_parameter))]
fn integer_parameter<'t>(alloc: Global, shared: &Shared<'t>) -> Result<Piece<'t>, AllocError>
    ensures { IfOk result (λ p. p ≡ integer_parameter shared.now.grammar.now) }
{
    let prefix = shared.grammar.prefix.as_str();
    Ok(made(format!(in alloc; "{prefix}opt_integer: Option<usize>")?))
}

/// The call of the driver.
#[tactic(auto, unfolding(crate::specs::MachineLines::drive_call))]
pub fn drive_call<'t>(alloc: Global, shared: &Shared<'t>) -> Result<Node<'t>, AllocError>
    ensures { IfOk result (λ n. items n ≡ drive_call shared.now.grammar.now) }
{
    let names = parameter_names(alloc, shared.grammar)?;
    let phantom = copied(alloc, shared.parameters.phantom_expression.as_str())?;
    drive(alloc, names, phantom)
}
