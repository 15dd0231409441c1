//! State functions of recursive ascent.

use crate::class::Class;
use crate::template::Slot::{Hole, Nothing, Prefix};
use crate::template::{Kind, Line, NO_PARTS, Step};

/// The start of a parse by recursive ascent: the first token, and the call of the first state.
pub const START: &[Line] = &[
    (
        Step::Line(0),
        &[
            ("let ", Prefix),
            ("lookahead = match ", Prefix),
            ("tokens.next() {", Nothing),
        ],
    ),
    (Step::Line(0), &[("Some(Ok(v)) => Some(v),", Nothing)]),
    (
        Step::Line(0),
        &[("Some(Err(e)) => return Err(e),", Nothing)],
    ),
    (Step::Line(0), &[("None => None,", Nothing)]),
    (Step::Line(0), &[("};", Nothing)]),
    (
        Step::Line(0),
        &[
            ("let mut ", Prefix),
            ("states: alloc::vec::Vec<", Hole(0)),
            ("> = alloc::vec![0];", Nothing),
        ],
    ),
    (
        Step::Line(0),
        &[
            ("match ", Prefix),
            ("state0(", Hole(1)),
            ("&mut ", Prefix),
            ("tokens, &mut ", Prefix),
            ("states, ", Prefix),
            ("lookahead, ", Hole(2)),
            (")? {", Nothing),
        ],
    ),
    (
        Step::Line(0),
        &[("(Some(", Prefix), ("lookahead), _) => {", Nothing)],
    ),
    (
        Step::Line(0),
        &[
            ("Err(", Prefix),
            ("lalrpop_util::ParseError::ExtraToken { token: ", Prefix),
            ("lookahead })", Nothing),
        ],
    ),
    (Step::Line(0), &[("}", Nothing)]),
    (
        Step::Line(0),
        &[
            ("(None, ", Prefix),
            ("Nonterminal::", Hole(3)),
            ("((_, ", Prefix),
            ("nt, _))) => {", Nothing),
        ],
    ),
    (Step::Line(0), &[("Ok(", Prefix), ("nt)", Nothing)]),
    (Step::Line(0), &[("}", Nothing)]),
    (Step::Line(0), &[("_ => unreachable!(),", Nothing)]),
    (Step::Line(0), &[("}", Nothing)]),
];

/// The holes of `START`: state type, parameter names, phantom expression, start nonterminal.
pub const START_HOLES: &[Kind] = &[Kind::Name, Kind::Parameters, Kind::Text, Kind::Escaped];

/// The enum that state functions return, with a variant per nonterminal.
pub const RETURN_ENUM: &[Line] = &[
    (Step::Line(0), &[("#[allow(dead_code)]", Nothing)]),
    (
        Step::Line(0),
        &[("enum ", Prefix), ("Nonterminal<", Hole(0)), (">", Nothing)],
    ),
    (Step::Optional(Class::WhereLine), NO_PARTS),
    (Step::Line(1), &[("{", Nothing)]),
    (Step::Many(Class::ReturnRow), NO_PARTS),
    (Step::Line(0), &[("}", Nothing)]),
];

/// The hole of `RETURN_ENUM`: the type parameters.
pub const RETURN_ENUM_HOLES: &[Kind] = &[Kind::Text];

/// The variant of a nonterminal in the enum that state functions return.
pub const RETURN_ROW: &[Line] = &[(
    Step::Line(0),
    &[("", Hole(0)), ("((", Hole(1)), (")),", Nothing)],
)];

/// The holes of `RETURN_ROW`: the nonterminal, its type between two location types.
pub const RETURN_ROW_HOLES: &[Kind] = &[Kind::Escaped, Kind::Text];

/// The function of a state: its shifts, reductions, error arm and gotos.
pub const STATE_FN: &[Line] = &[
    (Step::Empty, NO_PARTS),
    (Step::Note, NO_PARTS),
    (Step::One(Class::HeaderState), NO_PARTS),
    (Step::Line(0), &[("{", Nothing)]),
    (
        Step::Line(0),
        &[
            ("let mut ", Prefix),
            ("result: (Option<(", Hole(0)),
            (")>, ", Prefix),
            ("Nonterminal<", Hole(1)),
            (">);", Nothing),
        ],
    ),
    (Step::Optional(Class::NextToken), NO_PARTS),
    (Step::Many(Class::SlotLine), NO_PARTS),
    (
        Step::Line(0),
        &[("match ", Prefix), ("lookahead {", Nothing)],
    ),
    (Step::Many(Class::ShiftArm), NO_PARTS),
    (Step::Many(Class::ReduceArm), NO_PARTS),
    (Step::One(Class::ErrorArm), NO_PARTS),
    (Step::Line(0), &[("}", Nothing)]),
    (Step::Optional(Class::GotoLoop), NO_PARTS),
    (Step::Line(0), &[("}", Nothing)]),
];

/// The holes of `STATE_FN`: the types of a token and its locations, the enum's parameters.
pub const STATE_FN_HOLES: &[Kind] = &[Kind::Text, Kind::Text];

/// Takes the next token as the lookahead, or returns the error of the token source.
pub const NEXT_TOKEN: &[Line] = &[
    (
        Step::Line(0),
        &[
            ("let ", Prefix),
            ("lookahead = match ", Prefix),
            ("tokens.next() {", Nothing),
        ],
    ),
    (Step::Line(0), &[("Some(Ok(v)) => Some(v),", Nothing)]),
    (
        Step::Line(0),
        &[("Some(Err(e)) => return Err(e),", Nothing)],
    ),
    (Step::Line(0), &[("None => None,", Nothing)]),
    (Step::Line(0), &[("};", Nothing)]),
];

/// Makes a fixed slot optional, for a callee to take it.
pub const SLOT_LINE: &[Line] = &[(
    Step::Line(0),
    &[
        ("let ", Prefix),
        ("sym", Hole(0)),
        (" = &mut Some(", Prefix),
        ("sym", Hole(0)),
        (");", Nothing),
    ],
)];

/// The hole of `SLOT_LINE`: the slot.
pub const SLOT_LINE_HOLES: &[Kind] = &[Kind::Number];

/// The shift of a terminal with captures.
pub const SHIFT_ARM: &[Line] = &[
    (
        Step::Line(0),
        &[
            ("Some((", Prefix),
            ("loc1, ", Hole(0)),
            (", ", Prefix),
            ("loc2)) => {", Nothing),
        ],
    ),
    (
        Step::Line(0),
        &[
            ("let ", Prefix),
            ("sym", Hole(1)),
            (" = (", Prefix),
            ("loc1, (", Hole(2)),
            ("), ", Prefix),
            ("loc2);", Nothing),
        ],
    ),
    (Step::One(Class::Transition), NO_PARTS),
    (Step::Line(0), &[("}", Nothing)]),
];

/// The holes of `SHIFT_ARM`: the pattern, the symbol's number, the names of the captures.
pub const SHIFT_ARM_HOLES: &[Kind] = &[Kind::Filled, Kind::Number, Kind::Names];

/// The shift of a terminal without captures: the whole token is the value.
pub const SHIFT_WHOLE: &[Line] = &[
    (
        Step::Line(0),
        &[
            ("Some((", Prefix),
            ("loc1, ", Prefix),
            ("tok @ ", Hole(0)),
            (", ", Prefix),
            ("loc2)) => {", Nothing),
        ],
    ),
    (
        Step::Line(0),
        &[
            ("let ", Prefix),
            ("sym", Hole(1)),
            (" = (", Prefix),
            ("loc1, (", Prefix),
            ("tok), ", Prefix),
            ("loc2);", Nothing),
        ],
    ),
    (Step::One(Class::Transition), NO_PARTS),
    (Step::Line(0), &[("}", Nothing)]),
];

/// The holes of `SHIFT_WHOLE`: the pattern, the symbol's number.
pub const SHIFT_WHOLE_HOLES: &[Kind] = &[Kind::Pattern, Kind::Number];

/// The arm of a lookahead without an action: returns the error, with the expected terminals.
pub const ERROR_ARM: &[Line] = &[
    (Step::Line(0), &[("_ => {", Nothing)]),
    (
        Step::Line(0),
        &[
            ("let ", Prefix),
            ("expected = ", Prefix),
            ("expected(", Prefix),
            ("states);", Nothing),
        ],
    ),
    (Step::Line(0), &[("return Err(", Nothing)]),
    (
        Step::Line(0),
        &[("match ", Prefix), ("lookahead {", Nothing)],
    ),
    (
        Step::Line(0),
        &[("Some(", Prefix), ("token) => {", Nothing)],
    ),
    (
        Step::Line(0),
        &[
            ("", Prefix),
            ("lalrpop_util::ParseError::UnrecognizedToken {", Nothing),
        ],
    ),
    (Step::Line(0), &[("token: ", Prefix), ("token,", Nothing)]),
    (
        Step::Line(0),
        &[("expected: ", Prefix), ("expected,", Nothing)],
    ),
    (Step::Line(0), &[("}", Nothing)]),
    (Step::Line(0), &[("}", Nothing)]),
    (Step::Line(0), &[("None => {", Nothing)]),
    (Step::One(Class::LocationLines), NO_PARTS),
    (
        Step::Line(0),
        &[
            ("", Prefix),
            ("lalrpop_util::ParseError::UnrecognizedEof {", Nothing),
        ],
    ),
    (
        Step::Line(0),
        &[("location: ", Prefix), ("location,", Nothing)],
    ),
    (
        Step::Line(0),
        &[("expected: ", Prefix), ("expected,", Nothing)],
    ),
    (Step::Line(0), &[("}", Nothing)]),
    (Step::Line(0), &[("}", Nothing)]),
    (Step::Line(0), &[("}", Nothing)]),
    (Step::Line(0), &[(")", Nothing)]),
    (Step::Line(0), &[("}", Nothing)]),
];

/// The location of an error at the end of input: the end of a fixed slot.
pub const LOCATION_FIXED: &[Line] = &[(
    Step::Line(0),
    &[
        ("let ", Prefix),
        ("location = ", Prefix),
        ("sym", Hole(0)),
        (".2;", Nothing),
    ],
)];

/// The hole of `LOCATION_FIXED`: the slot.
pub const LOCATION_FIXED_HOLES: &[Kind] = &[Kind::Number];

/// The location of an error at the end of input: the default location.
pub const LOCATION_DEFAULT: &[Line] = &[(
    Step::Line(0),
    &[
        ("let ", Prefix),
        ("location = Default::default();", Nothing),
    ],
)];

/// The location of an error at the end of input: the end of the topmost full slot, or the default.
pub const LOCATION_CHAIN: &[Line] = &[
    (Step::Line(0), &[("let ", Prefix), ("location = ", Nothing)]),
    (Step::Some(Class::LocationRow), NO_PARTS),
    (Step::Line(0), &[("Default::default()", Nothing)]),
    (Step::Each(0), &[("})", Nothing)]),
    (Step::Line(0), &[(";", Nothing)]),
];

/// The end of an optional slot, or what follows where the slot was taken.
pub const LOCATION_ROW: &[Line] = &[(
    Step::Line(0),
    &[
        ("", Prefix),
        ("sym", Hole(0)),
        (
            ".as_ref().map(|sym| sym.2.clone()).unwrap_or_else(|| {",
            Nothing,
        ),
    ],
)];

/// The hole of `LOCATION_ROW`: the slot.
pub const LOCATION_ROW_HOLES: &[Kind] = &[Kind::Number];

/// The call of another state's function, after a shift or a goto.
pub const TRANSITION: &[Line] = &[
    (Step::Many(Class::TakeLine), NO_PARTS),
    (
        Step::Line(0),
        &[("", Prefix), ("states.push(", Hole(0)), (");", Nothing)],
    ),
    (
        Step::Line(0),
        &[
            ("", Prefix),
            ("result = ", Prefix),
            ("state", Hole(0)),
            ("(", Hole(1)),
            ("", Prefix),
            ("tokens, ", Prefix),
            ("states, ", Hole(2)),
            (", ", Hole(3)),
            (")?;", Nothing),
        ],
    ),
    (Step::Line(0), &[("", Prefix), ("states.pop();", Nothing)]),
    (Step::Optional(Class::ReturnLine), NO_PARTS),
];

/// The holes of `TRANSITION`: state, parameter names, handed symbols, phantom expression.
pub const TRANSITION_HOLES: &[Kind] = &[Kind::Number, Kind::Parameters, Kind::Symbols, Kind::Text];

/// The end of a state function without gotos: returns the result.
pub const GOTO_RETURN: &[Line] = &[(
    Step::Line(0),
    &[("return Ok(", Prefix), ("result);", Nothing)],
)];

/// The gotos of a state function, on each nonterminal that its result holds.
pub const GOTO_LOOP: &[Line] = &[
    (Step::Line(0), &[("#[allow(clippy::never_loop)]", Nothing)]),
    (Step::Line(0), &[("loop {", Nothing)]),
    (Step::Optional(Class::EmptyCheck), NO_PARTS),
    (
        Step::Line(0),
        &[
            ("let (", Prefix),
            ("lookahead, ", Prefix),
            ("nt) = ", Prefix),
            ("result;", Nothing),
        ],
    ),
    (Step::Line(0), &[("match ", Prefix), ("nt {", Nothing)]),
    (Step::Many(Class::GotoArm), NO_PARTS),
    (Step::Optional(Class::GotoOther), NO_PARTS),
    (Step::Line(0), &[("}", Nothing)]),
    (Step::Line(0), &[("}", Nothing)]),
];

/// Returns the result if the top slot was taken.
pub const EMPTY_CHECK: &[Line] = &[
    (
        Step::Line(0),
        &[("if ", Prefix), ("sym", Hole(0)), (".is_none() {", Nothing)],
    ),
    (
        Step::Line(0),
        &[("return Ok(", Prefix), ("result);", Nothing)],
    ),
    (Step::Line(0), &[("}", Nothing)]),
];

/// The hole of `EMPTY_CHECK`: the slot.
pub const EMPTY_CHECK_HOLES: &[Kind] = &[Kind::Number];

/// The goto of a nonterminal.
pub const GOTO_ARM: &[Line] = &[
    (
        Step::Line(0),
        &[
            ("", Prefix),
            ("Nonterminal::", Hole(0)),
            ("(", Prefix),
            ("sym", Hole(1)),
            (") => {", Nothing),
        ],
    ),
    (Step::One(Class::Transition), NO_PARTS),
    (Step::Line(0), &[("}", Nothing)]),
];

/// The holes of `GOTO_ARM`: the nonterminal, the symbol's number.
pub const GOTO_ARM_HOLES: &[Kind] = &[Kind::Escaped, Kind::Number];

/// The arm of the nonterminals without a goto: returns the nonterminal.
pub const GOTO_OTHER: &[Line] = &[
    (Step::Line(0), &[("_ => {", Nothing)]),
    (
        Step::Line(0),
        &[
            ("return Ok((", Prefix),
            ("lookahead, ", Prefix),
            ("nt));", Nothing),
        ],
    ),
    (Step::Line(0), &[("}", Nothing)]),
];

/// The function from a production to how many states it pops and which nonterminal it produces.
pub const ASCENT_SIMULATE: &[Line] = &[
    (
        Step::Line(0),
        &[
            ("fn ", Prefix),
            ("simulate(", Prefix),
            ("index: ", Hole(0)),
            (") -> Option<(usize, usize)> {", Nothing),
        ],
    ),
    (Step::Line(0), &[("match ", Prefix), ("index {", Nothing)]),
    (Step::Many(Class::AscentRow), NO_PARTS),
    (Step::Line(0), &[("_ => unreachable!(),", Nothing)]),
    (Step::Line(0), &[("}", Nothing)]),
    (Step::Line(0), &[("}", Nothing)]),
];

/// The hole of `ASCENT_SIMULATE`: the state type.
pub const ASCENT_SIMULATE_HOLES: &[Kind] = &[Kind::Name];

/// The arm of the start production, which accepts.
pub const ASCENT_ACCEPT: &[Line] = &[(Step::Line(0), &[("", Hole(0)), (" => None,", Nothing)])];

/// The hole of `ASCENT_ACCEPT`: the production.
pub const ASCENT_ACCEPT_HOLES: &[Kind] = &[Kind::Number];

/// The arm of another production.
pub const ASCENT_ARM: &[Line] = &[(
    Step::Line(0),
    &[
        ("", Hole(0)),
        (" => Some((", Hole(1)),
        (", ", Hole(2)),
        (")),", Nothing),
    ],
)];

/// The holes of `ASCENT_ARM`: the production, how many states it pops, the nonterminal.
pub const ASCENT_ARM_HOLES: &[Kind] = &[Kind::Number, Kind::Number, Kind::Number];

/// The function that tells whether a stack of states accepts a terminal.
pub const ASCENT_ACCEPTS: &[Line] = &[
    (
        Step::Line(0),
        &[
            ("fn ", Prefix),
            ("accepts(", Prefix),
            ("states: &[", Hole(0)),
            ("], ", Prefix),
            ("integer: usize) -> bool {", Nothing),
        ],
    ),
    (
        Step::Line(0),
        &[
            ("let mut ", Prefix),
            ("states = ", Prefix),
            ("states.to_vec();", Nothing),
        ],
    ),
    (Step::Line(0), &[("loop {", Nothing)]),
    (
        Step::Line(0),
        &[
            ("let ", Prefix),
            ("top = ", Prefix),
            ("states[", Prefix),
            ("states.len() - 1];", Nothing),
        ],
    ),
    (
        Step::Line(0),
        &[
            ("let ", Prefix),
            ("action = ", Prefix),
            ("action(", Prefix),
            ("top, ", Prefix),
            ("integer);", Nothing),
        ],
    ),
    (
        Step::Line(0),
        &[("if ", Prefix), ("action == 0 { return false; }", Nothing)],
    ),
    (
        Step::Line(0),
        &[("if ", Prefix), ("action > 0 { return true; }", Nothing)],
    ),
    (
        Step::Line(0),
        &[
            ("let (", Prefix),
            ("to_pop, ", Prefix),
            ("nt) = match ", Prefix),
            ("simulate(-(", Prefix),
            ("action + 1)) {", Nothing),
        ],
    ),
    (Step::Line(0), &[("Some(v) => v,", Nothing)]),
    (Step::Line(0), &[("None => return true,", Nothing)]),
    (Step::Line(0), &[("};", Nothing)]),
    (
        Step::Line(0),
        &[
            ("let ", Prefix),
            ("states_len = ", Prefix),
            ("states.len();", Nothing),
        ],
    ),
    (
        Step::Line(0),
        &[
            ("", Prefix),
            ("states.truncate(", Prefix),
            ("states_len - ", Prefix),
            ("to_pop);", Nothing),
        ],
    ),
    (
        Step::Line(0),
        &[
            ("let ", Prefix),
            ("top = ", Prefix),
            ("states[", Prefix),
            ("states.len() - 1];", Nothing),
        ],
    ),
    (
        Step::Line(0),
        &[
            ("let ", Prefix),
            ("next_state = ", Prefix),
            ("goto(", Prefix),
            ("top, ", Prefix),
            ("nt);", Nothing),
        ],
    ),
    (
        Step::Line(0),
        &[
            ("", Prefix),
            ("states.push(", Prefix),
            ("next_state);", Nothing),
        ],
    ),
    (Step::Line(0), &[("}", Nothing)]),
    (Step::Line(0), &[("}", Nothing)]),
];

/// The hole of `ASCENT_ACCEPTS`: the state type.
pub const ASCENT_ACCEPTS_HOLES: &[Kind] = &[Kind::Name];

/// The function that lists the terminals that a stack of states accepts.
pub const ASCENT_EXPECTED: &[Line] = &[
    (
        Step::Line(0),
        &[
            ("fn ", Prefix),
            ("expected(", Prefix),
            ("states: &[", Hole(0)),
            ("]) -> alloc::vec::Vec<alloc::string::String> {", Nothing),
        ],
    ),
    (
        Step::Line(0),
        &[
            ("", Prefix),
            (
                "TERMINAL.iter().enumerate().filter_map(|(index, terminal)| {",
                Nothing,
            ),
        ],
    ),
    (
        Step::Line(0),
        &[
            ("if ", Prefix),
            ("accepts(", Prefix),
            ("states, index) {", Nothing),
        ],
    ),
    (
        Step::Line(0),
        &[(
            "Some(alloc::string::ToString::to_string(terminal))",
            Nothing,
        )],
    ),
    (Step::Line(0), &[("} else {", Nothing)]),
    (Step::Line(0), &[("None", Nothing)]),
    (Step::Line(0), &[("}", Nothing)]),
    (Step::Line(0), &[("}).collect()", Nothing)]),
    (Step::Line(0), &[("}", Nothing)]),
];

/// The hole of `ASCENT_EXPECTED`: the state type.
pub const ASCENT_EXPECTED_HOLES: &[Kind] = &[Kind::Name];
