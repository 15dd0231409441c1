//! Reductions of the table-driven code.

use crate::class::Class;
use crate::template::Slot::{Hole, Nothing, Prefix};
use crate::template::{Kind, Line, NO_PARTS, Step};

/// The function that reduces by a production, and then goes to the next state.
pub const REDUCE: &[Line] = &[
    (Step::One(Class::HeaderReduce), NO_PARTS),
    (Step::Line(0), &[("{", Nothing)]),
    (
        Step::Line(0),
        &[
            ("let (", Prefix),
            ("pop_states, ", Prefix),
            ("nonterminal) = match ", Prefix),
            ("action {", Nothing),
        ],
    ),
    (Step::Many(Class::ReduceRow), NO_PARTS),
    (
        Step::Line(0),
        &[
            ("_ => panic!(\"invalid action code {", Prefix),
            ("action}\")", Nothing),
        ],
    ),
    (Step::Line(0), &[("};", Nothing)]),
    (
        Step::Line(0),
        &[
            ("let ", Prefix),
            ("states_len = ", Prefix),
            ("states.len();", Nothing),
        ],
    ),
    (
        Step::Line(0),
        &[
            ("", Prefix),
            ("states.truncate(", Prefix),
            ("states_len - ", Prefix),
            ("pop_states);", Nothing),
        ],
    ),
    (
        Step::Line(0),
        &[
            ("let ", Prefix),
            ("state = *", Prefix),
            ("states.last().unwrap();", Nothing),
        ],
    ),
    (
        Step::Line(0),
        &[
            ("let ", Prefix),
            ("next_state = ", Prefix),
            ("goto(", Prefix),
            ("state, ", Prefix),
            ("nonterminal);", Nothing),
        ],
    ),
    (
        Step::Line(0),
        &[
            ("", Prefix),
            ("states.push(", Prefix),
            ("next_state);", Nothing),
        ],
    ),
    (Step::Line(0), &[("None", Nothing)]),
    (Step::Line(0), &[("}", Nothing)]),
];

/// The arm of a production that is reduced by a function of its own.
pub const REDUCE_CALL_ARM: &[Line] = &[
    (Step::Line(0), &[("", Hole(0)), (" => {", Nothing)]),
    (
        Step::Line(0),
        &[
            ("", Prefix),
            ("reduce", Hole(0)),
            ("(", Hole(1)),
            ("", Prefix),
            ("lookahead_start, ", Prefix),
            ("symbols, ", Hole(2)),
            (")", Nothing),
        ],
    ),
    (Step::Line(0), &[("}", Nothing)]),
];

/// The holes of `REDUCE_CALL_ARM`: production, parameter names, phantom expression.
pub const REDUCE_CALL_ARM_HOLES: &[Kind] = &[Kind::Number, Kind::Parameters, Kind::Text];

/// The arm of a production that is reduced in place.
pub const REDUCE_BODY_ARM: &[Line] = &[
    (Step::Line(0), &[("", Hole(0)), (" => {", Nothing)]),
    (Step::One(Class::ReduceBody), NO_PARTS),
    (Step::Line(0), &[("}", Nothing)]),
];

/// The hole of `REDUCE_BODY_ARM`: the production.
pub const REDUCE_BODY_ARM_HOLES: &[Kind] = &[Kind::Number];

/// The reduction of one production: the popped symbols, the span, the action, the outcome.
pub const REDUCE_BODY: &[Line] = &[
    (Step::NoteAlways, NO_PARTS),
    (Step::Optional(Class::AssertLine), NO_PARTS),
    (Step::Many(Class::PopLine), NO_PARTS),
    (Step::One(Class::SpanLines), NO_PARTS),
    (Step::One(Class::CallLines), NO_PARTS),
    (Step::One(Class::OutcomeLines), NO_PARTS),
];

/// Asserts that the stack has at least the symbols of the production.
pub const ASSERT_LINE: &[Line] = &[(
    Step::Line(0),
    &[
        ("assert!(", Prefix),
        ("symbols.len() >= ", Hole(0)),
        (");", Nothing),
    ],
)];

/// The hole of `ASSERT_LINE`: the number of symbols.
pub const ASSERT_LINE_HOLES: &[Kind] = &[Kind::Number];

/// Pops a symbol.
pub const POP_LINE: &[Line] = &[(
    Step::Line(0),
    &[
        ("let ", Prefix),
        ("sym", Hole(0)),
        (" = ", Prefix),
        ("pop_", Hole(1)),
        ("(", Prefix),
        ("symbols);", Nothing),
    ],
)];

/// The holes of `POP_LINE`: the symbol's number, its variant.
pub const POP_LINE_HOLES: &[Kind] = &[Kind::Number, Kind::Name];

/// The span of popped symbols, from the start of the first to the end of the last.
pub const SPAN_POPPED: &[Line] = &[
    (
        Step::Line(0),
        &[
            ("let ", Prefix),
            ("start = ", Prefix),
            ("sym", Hole(0)),
            (".0.clone();", Nothing),
        ],
    ),
    (
        Step::Line(0),
        &[
            ("let ", Prefix),
            ("end = ", Prefix),
            ("sym", Hole(1)),
            (".2.clone();", Nothing),
        ],
    ),
];

/// The holes of `SPAN_POPPED`: the first symbol's number, the last symbol's number.
pub const SPAN_POPPED_HOLES: &[Kind] = &[Kind::Number, Kind::Number];

/// The span of no symbols: the start of the lookahead, the end of the top symbol, or the default.
pub const SPAN_EMPTY: &[Line] = &[
    (
        Step::Line(0),
        &[
            ("let ", Prefix),
            ("start = ", Prefix),
            ("lookahead_start.cloned().or_else(|| ", Prefix),
            ("symbols.last().map(|s| s.2)).unwrap_or_default();", Nothing),
        ],
    ),
    (
        Step::Line(0),
        &[("let ", Prefix), ("end = ", Prefix), ("start;", Nothing)],
    ),
];

/// The call of an infallible action.
pub const CALL_PLAIN: &[Line] = &[(
    Step::Line(0),
    &[
        ("let ", Prefix),
        ("nt = super::", Prefix),
        ("action", Hole(0)),
        ("::<", Hole(1)),
        (">(", Hole(2)),
        (");", Nothing),
    ],
)];

/// The holes of `CALL_PLAIN`: the action, type arguments, arguments.
pub const CALL_PLAIN_HOLES: &[Kind] = &[Kind::Number, Kind::Generics, Kind::Arguments];

/// The call of a fallible action: an error is returned.
pub const CALL_FALLIBLE: &[Line] = &[
    (
        Step::Line(0),
        &[
            ("let ", Prefix),
            ("nt = match super::", Prefix),
            ("action", Hole(0)),
            ("::<", Hole(1)),
            (">(", Hole(2)),
            (") {", Nothing),
        ],
    ),
    (Step::Line(0), &[("Ok(v) => v,", Nothing)]),
    (
        Step::Line(0),
        &[("Err(e) => return Some(Err(e)),", Nothing)],
    ),
    (Step::Line(0), &[("};", Nothing)]),
];

/// The holes of `CALL_FALLIBLE`: the action, type arguments, arguments.
pub const CALL_FALLIBLE_HOLES: &[Kind] = &[Kind::Number, Kind::Generics, Kind::Arguments];

/// The outcome of the start production: returns the value of the parse.
pub const OUTCOME_START: &[Line] = &[(
    Step::Line(0),
    &[("return Some(Ok(", Prefix), ("nt));", Nothing)],
)];

/// The outcome of another production: pushes its nonterminal.
pub const OUTCOME_PUSH: &[Line] = &[
    (
        Step::Line(0),
        &[
            ("", Prefix),
            ("symbols.push((", Prefix),
            ("start, ", Prefix),
            ("Symbol::", Hole(0)),
            ("(", Prefix),
            ("nt), ", Prefix),
            ("end));", Nothing),
        ],
    ),
    (
        Step::Line(0),
        &[("(", Hole(1)), (", ", Hole(2)), (")", Nothing)],
    ),
];

/// The holes of `OUTCOME_PUSH`: the variant, how many states to pop, the nonterminal.
pub const OUTCOME_PUSH_HOLES: &[Kind] = &[Kind::Name, Kind::Number, Kind::Number];

/// The function for a symbol of an unexpected variant, which panics.
pub const MISMATCH: &[Line] = &[
    (Step::Line(0), &[("#[inline(never)]", Nothing)]),
    (
        Step::Line(0),
        &[("fn ", Prefix), ("symbol_type_mismatch() -> ! {", Nothing)],
    ),
    (
        Step::Line(0),
        &[("panic!(\"symbol type mismatch\")", Nothing)],
    ),
    (Step::Line(0), &[("}", Nothing)]),
];

/// The function that pops a symbol of one variant.
pub const POP: &[Line] = &[
    (
        Step::Line(0),
        &[("fn ", Prefix), ("pop_", Hole(0)), ("<", Nothing)],
    ),
    (Step::Many(Class::PopRow), NO_PARTS),
    (Step::Line(0), &[(">(", Nothing)]),
    (
        Step::Line(0),
        &[
            ("", Prefix),
            ("symbols: &mut alloc::vec::Vec<(", Hole(1)),
            (",", Prefix),
            ("Symbol<", Hole(2)),
            (">,", Hole(1)),
            (")>", Nothing),
        ],
    ),
    (
        Step::Line(0),
        &[
            (") -> (", Hole(1)),
            (", ", Hole(3)),
            (", ", Hole(1)),
            (")", Nothing),
        ],
    ),
    (Step::Optional(Class::WhereLine), NO_PARTS),
    (Step::Line(1), &[("{", Nothing)]),
    (
        Step::Line(0),
        &[("match ", Prefix), ("symbols.pop() {", Nothing)],
    ),
    (
        Step::Line(0),
        &[
            ("Some((", Prefix),
            ("l, ", Prefix),
            ("Symbol::", Hole(0)),
            ("(", Prefix),
            ("v), ", Prefix),
            ("r)) => (", Prefix),
            ("l, ", Prefix),
            ("v, ", Prefix),
            ("r),", Nothing),
        ],
    ),
    (
        Step::Line(0),
        &[("_ => ", Prefix), ("symbol_type_mismatch()", Nothing)],
    ),
    (Step::Line(0), &[("}", Nothing)]),
    (Step::Line(0), &[("}", Nothing)]),
];

/// The holes of `POP`: variant, location type, parameters of the symbol enum, variant's type.
pub const POP_HOLES: &[Kind] = &[Kind::Name, Kind::Text, Kind::Text, Kind::Text];

/// A type parameter of a pop function.
pub const POP_ROW: &[Line] = &[(Step::Line(2), &[("", Hole(0)), (",", Nothing)])];

/// The hole of `POP_ROW`: the type parameter.
pub const POP_ROW_HOLES: &[Kind] = &[Kind::Text];

/// The reduce function of one production.
pub const REDUCE_FN: &[Line] = &[
    (Step::One(Class::HeaderReduceFn), NO_PARTS),
    (Step::Line(0), &[("{", Nothing)]),
    (Step::One(Class::ReduceBody), NO_PARTS),
    (Step::Line(0), &[("}", Nothing)]),
];
