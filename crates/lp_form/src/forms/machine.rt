//! The struct that the driver asks.

use crate::class::Class;
use crate::template::Slot::{Hole, Nothing, Prefix};
use crate::template::{Kind, Line, NO_PARTS, Step};

/// The struct that the driver asks: the parameters of the grammar, and a phantom field.
pub const MACHINE_STRUCT: &[Line] = &[
    (
        Step::Line(0),
        &[
            ("struct ", Prefix),
            ("StateMachine<", Hole(0)),
            (">", Nothing),
        ],
    ),
    (Step::Line(0), &[("where ", Hole(1))]),
    (Step::Line(0), &[("{", Nothing)]),
    (Step::Many(Class::FieldRow), NO_PARTS),
    (
        Step::Line(0),
        &[("", Prefix), ("phantom: ", Hole(2)), (",", Nothing)],
    ),
    (Step::Line(0), &[("}", Nothing)]),
];

/// The holes of `MACHINE_STRUCT`: the type parameters, where clauses, phantom type.
pub const MACHINE_STRUCT_HOLES: &[Kind] = &[Kind::Text, Kind::Text, Kind::Text];

/// A field of the struct: a parameter of the grammar.
pub const FIELD_ROW: &[Line] = &[(
    Step::Line(0),
    &[("", Hole(0)), (": ", Hole(1)), (",", Nothing)],
)];

/// The holes of `FIELD_ROW`: the name, the type.
pub const FIELD_ROW_HOLES: &[Kind] = &[Kind::PlainName, Kind::Text];

/// The struct's implementation of the driver's trait `ParserDefinition`.
pub const MACHINE_IMPL: &[Line] = &[
    (
        Step::Line(0),
        &[
            ("impl<", Hole(0)),
            ("> ", Prefix),
            ("state_machine::ParserDefinition for ", Prefix),
            ("StateMachine<", Hole(0)),
            (">", Nothing),
        ],
    ),
    (Step::Line(0), &[("where ", Hole(1))]),
    (Step::Line(0), &[("{", Nothing)]),
    (
        Step::Line(0),
        &[("type Location = ", Hole(2)), (";", Nothing)],
    ),
    (Step::Line(0), &[("type Error = ", Hole(3)), (";", Nothing)]),
    (Step::Line(0), &[("type Token = ", Hole(4)), (";", Nothing)]),
    (Step::Line(0), &[("type TokenIndex = usize;", Nothing)]),
    (
        Step::Line(0),
        &[
            ("type Symbol = ", Prefix),
            ("Symbol<", Hole(5)),
            (">;", Nothing),
        ],
    ),
    (
        Step::Line(0),
        &[("type Success = ", Hole(6)), (";", Nothing)],
    ),
    (
        Step::Line(0),
        &[("type StateIndex = ", Hole(7)), (";", Nothing)],
    ),
    (
        Step::Line(0),
        &[("type Action = ", Hole(7)), (";", Nothing)],
    ),
    (
        Step::Line(0),
        &[("type ReduceIndex = ", Hole(7)), (";", Nothing)],
    ),
    (
        Step::Line(0),
        &[("type NonterminalIndex = usize;", Nothing)],
    ),
    (Step::Empty, NO_PARTS),
    (Step::Line(0), &[("#[inline]", Nothing)]),
    (
        Step::Line(0),
        &[("fn start_location(&self) -> Self::Location {", Nothing)],
    ),
    (Step::Line(2), &[("Default::default()", Nothing)]),
    (Step::Line(0), &[("}", Nothing)]),
    (Step::Empty, NO_PARTS),
    (Step::Line(0), &[("#[inline]", Nothing)]),
    (
        Step::Line(0),
        &[("fn start_state(&self) -> Self::StateIndex {", Nothing)],
    ),
    (Step::Line(2), &[("0", Nothing)]),
    (Step::Line(0), &[("}", Nothing)]),
    (Step::Empty, NO_PARTS),
    (Step::Line(0), &[("#[inline]", Nothing)]),
    (
        Step::Line(0),
        &[(
            "fn token_to_index(&self, token: &Self::Token) -> Option<usize> {",
            Nothing,
        )],
    ),
    (
        Step::Line(0),
        &[
            ("", Prefix),
            ("token_to_integer(token, ", Hole(8)),
            (")", Nothing),
        ],
    ),
    (Step::Line(0), &[("}", Nothing)]),
    (Step::Empty, NO_PARTS),
    (Step::Line(0), &[("#[inline]", Nothing)]),
    (
        Step::Line(0),
        &[
            ("fn action(&self, state: ", Hole(7)),
            (", integer: usize) -> ", Hole(7)),
            (" {", Nothing),
        ],
    ),
    (
        Step::Line(0),
        &[("", Prefix), ("action(state, integer)", Nothing)],
    ),
    (Step::Line(0), &[("}", Nothing)]),
    (Step::Empty, NO_PARTS),
    (Step::Line(0), &[("#[inline]", Nothing)]),
    (
        Step::Line(0),
        &[
            ("fn error_action(&self, state: ", Hole(7)),
            (") -> ", Hole(7)),
            (" {", Nothing),
        ],
    ),
    (
        Step::Line(0),
        &[("", Prefix), ("action(state, ", Hole(9)), (")", Nothing)],
    ),
    (Step::Line(0), &[("}", Nothing)]),
    (Step::Empty, NO_PARTS),
    (Step::Line(0), &[("#[inline]", Nothing)]),
    (
        Step::Line(0),
        &[
            ("fn eof_action(&self, state: ", Hole(7)),
            (") -> ", Hole(7)),
            (" {", Nothing),
        ],
    ),
    (
        Step::Line(0),
        &[("", Prefix), ("EOF_ACTION[state as usize]", Nothing)],
    ),
    (Step::Line(0), &[("}", Nothing)]),
    (Step::Empty, NO_PARTS),
    (Step::Line(0), &[("#[inline]", Nothing)]),
    (
        Step::Line(0),
        &[
            ("fn goto(&self, state: ", Hole(7)),
            (", nt: usize) -> ", Hole(7)),
            (" {", Nothing),
        ],
    ),
    (Step::Line(0), &[("", Prefix), ("goto(state, nt)", Nothing)]),
    (Step::Line(0), &[("}", Nothing)]),
    (Step::Empty, NO_PARTS),
    (
        Step::Line(0),
        &[(
            "fn token_to_symbol(&self, token_index: usize, token: Self::Token) -> Self::Symbol {",
            Nothing,
        )],
    ),
    (
        Step::Line(0),
        &[
            ("", Prefix),
            ("token_to_symbol(token_index, token, ", Hole(8)),
            (")", Nothing),
        ],
    ),
    (Step::Line(0), &[("}", Nothing)]),
    (Step::Empty, NO_PARTS),
    (
        Step::Line(0),
        &[
            ("fn expected_tokens(&self, state: ", Hole(7)),
            (") -> alloc::vec::Vec<alloc::string::String> {", Nothing),
        ],
    ),
    (
        Step::Line(0),
        &[("", Prefix), ("expected_tokens(state)", Nothing)],
    ),
    (Step::Line(0), &[("}", Nothing)]),
    (Step::Empty, NO_PARTS),
    (
        Step::Line(0),
        &[
            ("fn expected_tokens_from_states(&self, states: &[", Hole(7)),
            ("]) -> alloc::vec::Vec<alloc::string::String> {", Nothing),
        ],
    ),
    (
        Step::Line(0),
        &[
            ("", Prefix),
            ("expected_tokens_from_states(states, ", Hole(8)),
            (")", Nothing),
        ],
    ),
    (Step::Line(0), &[("}", Nothing)]),
    (Step::Empty, NO_PARTS),
    (Step::One(Class::RecoveryMethods), NO_PARTS),
    (Step::Empty, NO_PARTS),
    (Step::Line(0), &[("fn reduce(", Nothing)]),
    (Step::Line(0), &[("&mut self,", Nothing)]),
    (Step::Line(0), &[("action: ", Hole(7)), (",", Nothing)]),
    (
        Step::Line(0),
        &[("start_location: Option<&Self::Location>,", Nothing)],
    ),
    (
        Step::Line(0),
        &[("states: &mut alloc::vec::Vec<", Hole(7)), (">,", Nothing)],
    ),
    (
        Step::Line(0),
        &[
            ("symbols: &mut alloc::vec::Vec<", Prefix),
            ("state_machine::SymbolTriple<Self>>,", Nothing),
        ],
    ),
    (
        Step::Line(0),
        &[
            (") -> Option<", Prefix),
            ("state_machine::ParseResult<Self>> {", Nothing),
        ],
    ),
    (Step::Line(0), &[("", Prefix), ("reduce(", Nothing)]),
    (Step::Many(Class::SelfRow), NO_PARTS),
    (Step::Line(0), &[("action,", Nothing)]),
    (Step::Line(0), &[("start_location,", Nothing)]),
    (Step::Line(0), &[("states,", Nothing)]),
    (Step::Line(0), &[("symbols,", Nothing)]),
    (Step::Line(0), &[("", Hole(8)), (",", Nothing)]),
    (Step::Line(0), &[(")", Nothing)]),
    (Step::Line(0), &[("}", Nothing)]),
    (Step::Empty, NO_PARTS),
    (
        Step::Line(0),
        &[
            ("fn simulate_reduce(&self, action: ", Hole(7)),
            (") -> ", Prefix),
            ("state_machine::SimulatedReduce<Self> {", Nothing),
        ],
    ),
    (
        Step::Line(0),
        &[
            ("", Prefix),
            ("simulate_reduce(action, ", Hole(8)),
            (")", Nothing),
        ],
    ),
    (Step::Line(0), &[("}", Nothing)]),
    (Step::Line(0), &[("}", Nothing)]),
];

/// The holes of `MACHINE_IMPL`: type parameters, where clauses, location, error and token type,
/// the symbol enum's type parameters, success type, state type, phantom expression, last terminal.
pub const MACHINE_IMPL_HOLES: &[Kind] = &[
    Kind::Text,
    Kind::Text,
    Kind::Text,
    Kind::Text,
    Kind::Text,
    Kind::Text,
    Kind::Text,
    Kind::Name,
    Kind::Text,
    Kind::Last,
];

/// The methods on error recovery, where the grammar uses it.
pub const RECOVERY_ON: &[Line] = &[
    (Step::Line(0), &[("#[inline]", Nothing)]),
    (
        Step::Line(0),
        &[("fn uses_error_recovery(&self) -> bool {", Nothing)],
    ),
    (Step::Line(0), &[("true", Nothing)]),
    (Step::Line(0), &[("}", Nothing)]),
    (Step::Empty, NO_PARTS),
    (Step::Line(0), &[("#[inline]", Nothing)]),
    (Step::Line(0), &[("fn error_recovery_symbol(", Nothing)]),
    (Step::Line(0), &[("&self,", Nothing)]),
    (
        Step::Line(0),
        &[
            ("recovery: ", Prefix),
            ("state_machine::ErrorRecovery<Self>,", Nothing),
        ],
    ),
    (Step::Line(0), &[(") -> Self::Symbol {", Nothing)]),
    (
        Step::Line(0),
        &[("", Prefix), ("Symbol::", Hole(0)), ("(recovery)", Nothing)],
    ),
    (Step::Line(0), &[("}", Nothing)]),
];

/// The hole of `RECOVERY_ON`: the variant of the error terminal.
pub const RECOVERY_ON_HOLES: &[Kind] = &[Kind::Name];

/// The methods on error recovery, where the grammar doesn't use it.
pub const RECOVERY_OFF: &[Line] = &[
    (Step::Line(0), &[("#[inline]", Nothing)]),
    (
        Step::Line(0),
        &[("fn uses_error_recovery(&self) -> bool {", Nothing)],
    ),
    (Step::Line(0), &[("false", Nothing)]),
    (Step::Line(0), &[("}", Nothing)]),
    (Step::Empty, NO_PARTS),
    (Step::Line(0), &[("#[inline]", Nothing)]),
    (Step::Line(0), &[("fn error_recovery_symbol(", Nothing)]),
    (Step::Line(0), &[("&self,", Nothing)]),
    (
        Step::Line(0),
        &[
            ("recovery: ", Prefix),
            ("state_machine::ErrorRecovery<Self>,", Nothing),
        ],
    ),
    (Step::Line(0), &[(") -> Self::Symbol {", Nothing)]),
    (
        Step::Line(0),
        &[(
            "panic!(\"error recovery not enabled for this grammar\")",
            Nothing,
        )],
    ),
    (Step::Line(0), &[("}", Nothing)]),
];

/// A parameter of the grammar that the struct hands on to `reduce`.
pub const SELF_ROW: &[Line] = &[(Step::Line(0), &[("self.", Hole(0)), (",", Nothing)])];

/// The hole of `SELF_ROW`: the parameter.
pub const SELF_ROW_HOLES: &[Kind] = &[Kind::PlainName];

/// The function from a production to how many states it pops and which nonterminal it produces.
pub const SIMULATE_REDUCE: &[Line] = &[
    (Step::One(Class::HeaderSimulateReduce), NO_PARTS),
    (Step::Line(0), &[("{", Nothing)]),
    (
        Step::Line(0),
        &[("match ", Prefix), ("reduce_index {", Nothing)],
    ),
    (Step::Many(Class::SimulateRow), NO_PARTS),
    (
        Step::Line(0),
        &[
            ("_ => panic!(\"invalid reduction index {", Prefix),
            ("reduce_index}\")", Nothing),
        ],
    ),
    (Step::Line(0), &[("}", Nothing)]),
    (Step::Line(0), &[("}", Nothing)]),
];

/// The arm of the start production, which accepts.
pub const SIMULATE_ACCEPT: &[Line] = &[
    (Step::Note, NO_PARTS),
    (
        Step::Line(0),
        &[
            ("", Hole(0)),
            (" => ", Prefix),
            ("state_machine::SimulatedReduce::Accept,", Nothing),
        ],
    ),
];

/// The hole of `SIMULATE_ACCEPT`: the production.
pub const SIMULATE_ACCEPT_HOLES: &[Kind] = &[Kind::Number];

/// The arm of another production.
pub const SIMULATE_ARM: &[Line] = &[
    (Step::Note, NO_PARTS),
    (Step::Line(0), &[("", Hole(0)), (" => {", Nothing)]),
    (
        Step::Line(0),
        &[
            ("", Prefix),
            ("state_machine::SimulatedReduce::Reduce {", Nothing),
        ],
    ),
    (
        Step::Line(0),
        &[("states_to_pop: ", Hole(1)), (",", Nothing)],
    ),
    (
        Step::Line(0),
        &[("nonterminal_produced: ", Hole(2)), (",", Nothing)],
    ),
    (Step::Line(0), &[("}", Nothing)]),
    (Step::Line(0), &[("}", Nothing)]),
];

/// The holes of `SIMULATE_ARM`: the production, how many states it pops, the nonterminal.
pub const SIMULATE_ARM_HOLES: &[Kind] = &[Kind::Number, Kind::Number, Kind::Number];

/// The call of the driver, with the struct and the tokens.
pub const DRIVE: &[Line] = &[
    (
        Step::Line(0),
        &[("", Prefix), ("state_machine::Parser::drive(", Nothing)],
    ),
    (Step::Line(0), &[("", Prefix), ("StateMachine {", Nothing)]),
    (Step::Many(Class::DriveRow), NO_PARTS),
    (
        Step::Line(0),
        &[("", Prefix), ("phantom: ", Hole(0)), (",", Nothing)],
    ),
    (Step::Line(0), &[("},", Nothing)]),
    (Step::Line(0), &[("", Prefix), ("tokens,", Nothing)]),
    (Step::Line(0), &[(")", Nothing)]),
];

/// The hole of `DRIVE`: the phantom expression.
pub const DRIVE_HOLES: &[Kind] = &[Kind::Text];

/// A parameter of the grammar as a field of the struct.
pub const DRIVE_ROW: &[Line] = &[(Step::Line(0), &[("", Hole(0)), (",", Nothing)])];

/// The hole of `DRIVE_ROW`: the parameter.
pub const DRIVE_ROW_HOLES: &[Kind] = &[Kind::PlainName];

/// The function that tells whether a stack of states accepts a terminal or the end of input.
pub const ACCEPTS: &[Line] = &[
    (Step::One(Class::HeaderAccepts), NO_PARTS),
    (Step::Line(0), &[("{", Nothing)]),
    (
        Step::Line(0),
        &[
            ("let mut ", Prefix),
            ("states = ", Prefix),
            ("states.to_vec();", Nothing),
        ],
    ),
    (
        Step::Line(0),
        &[
            ("", Prefix),
            ("states.extend(", Prefix),
            ("error_state);", Nothing),
        ],
    ),
    (Step::Line(0), &[("loop {", Nothing)]),
    (
        Step::Line(0),
        &[
            ("let mut ", Prefix),
            ("states_len = ", Prefix),
            ("states.len();", Nothing),
        ],
    ),
    (
        Step::Line(0),
        &[
            ("let ", Prefix),
            ("top = ", Prefix),
            ("states[", Prefix),
            ("states_len - 1];", Nothing),
        ],
    ),
    (
        Step::Line(0),
        &[
            ("let ", Prefix),
            ("action = match ", Prefix),
            ("opt_integer {", Nothing),
        ],
    ),
    (
        Step::Line(0),
        &[
            ("None => ", Prefix),
            ("EOF_ACTION[", Prefix),
            ("top as usize],", Nothing),
        ],
    ),
    (
        Step::Line(0),
        &[
            ("Some(", Prefix),
            ("integer) => ", Prefix),
            ("action(", Prefix),
            ("top, ", Prefix),
            ("integer),", Nothing),
        ],
    ),
    (Step::Line(0), &[("};", Nothing)]),
    (
        Step::Line(0),
        &[("if ", Prefix), ("action == 0 { return false; }", Nothing)],
    ),
    (
        Step::Line(0),
        &[("if ", Prefix), ("action > 0 { return true; }", Nothing)],
    ),
    (
        Step::Line(0),
        &[
            ("let (", Prefix),
            ("to_pop, ", Prefix),
            ("nt) = match ", Prefix),
            ("simulate_reduce(-(", Prefix),
            ("action + 1), ", Hole(0)),
            (") {", Nothing),
        ],
    ),
    (
        Step::Line(0),
        &[
            ("", Prefix),
            ("state_machine::SimulatedReduce::Reduce {", Nothing),
        ],
    ),
    (
        Step::Line(0),
        &[("states_to_pop, nonterminal_produced", Nothing)],
    ),
    (
        Step::Line(0),
        &[("} => (states_to_pop, nonterminal_produced),", Nothing)],
    ),
    (
        Step::Line(0),
        &[
            ("", Prefix),
            (
                "state_machine::SimulatedReduce::Accept => return true,",
                Nothing,
            ),
        ],
    ),
    (Step::Line(0), &[("};", Nothing)]),
    (
        Step::Line(0),
        &[
            ("", Prefix),
            ("states_len -= ", Prefix),
            ("to_pop;", Nothing),
        ],
    ),
    (
        Step::Line(0),
        &[
            ("", Prefix),
            ("states.truncate(", Prefix),
            ("states_len);", Nothing),
        ],
    ),
    (
        Step::Line(0),
        &[
            ("let ", Prefix),
            ("top = ", Prefix),
            ("states[", Prefix),
            ("states_len - 1];", Nothing),
        ],
    ),
    (
        Step::Line(0),
        &[
            ("let ", Prefix),
            ("next_state = ", Prefix),
            ("goto(", Prefix),
            ("top, ", Prefix),
            ("nt);", Nothing),
        ],
    ),
    (
        Step::Line(0),
        &[
            ("", Prefix),
            ("states.push(", Prefix),
            ("next_state);", Nothing),
        ],
    ),
    (Step::Line(0), &[("}", Nothing)]),
    (Step::Line(0), &[("}", Nothing)]),
];

/// The hole of `ACCEPTS`: the phantom expression.
pub const ACCEPTS_HOLES: &[Kind] = &[Kind::Text];
