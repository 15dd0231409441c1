//! Tables, and what looks them up.

use crate::class::Class;
use crate::template::Slot::{Hole, Nothing, Prefix};
use crate::template::{Kind, Line, NO_PARTS, Step};

/// The enum of the values of symbols.
pub const SYMBOL_ENUM: &[Line] = &[
    (Step::Line(0), &[("#[allow(dead_code)]", Nothing)]),
    (
        Step::Line(0),
        &[
            ("pub(crate) enum ", Prefix),
            ("Symbol<", Hole(0)),
            (">", Nothing),
        ],
    ),
    (Step::Optional(Class::WhereLine), NO_PARTS),
    (Step::Line(1), &[("{", Nothing)]),
    (Step::Many(Class::VariantRow), NO_PARTS),
    (Step::Line(0), &[("}", Nothing)]),
];

/// The hole of `SYMBOL_ENUM`: the type parameters.
pub const SYMBOL_ENUM_HOLES: &[Kind] = &[Kind::Text];

/// The where clauses of an enum or of a pop function.
pub const WHERE_LINE: &[Line] = &[(Step::Line(1), &[("where ", Hole(0))])];

/// The hole of `WHERE_LINE`: the where clauses.
pub const WHERE_LINE_HOLES: &[Kind] = &[Kind::Text];

/// A variant of the symbol enum.
pub const VARIANT_ROW: &[Line] = &[(
    Step::Line(0),
    &[("", Hole(0)), ("(", Hole(1)), ("),", Nothing)],
)];

/// The holes of `VARIANT_ROW`: the variant, its type.
pub const VARIANT_ROW_HOLES: &[Kind] = &[Kind::Name, Kind::Text];

/// The table of actions, by state and terminal.
pub const ACTION_TABLE: &[Line] = &[
    (
        Step::Line(0),
        &[
            ("const ", Prefix),
            ("ACTION: &[", Hole(0)),
            ("] = &[", Nothing),
        ],
    ),
    (Step::Entries, NO_PARTS),
    (Step::Line(0), &[("];", Nothing)]),
];

/// The hole of `ACTION_TABLE`: the state type.
pub const ACTION_TABLE_HOLES: &[Kind] = &[Kind::Name];

/// The function that looks up the action of a state on a terminal.
pub const ACTION_LOOKUP: &[Line] = &[
    (
        Step::Line(0),
        &[
            ("fn ", Prefix),
            ("action(state: ", Hole(0)),
            (", integer: usize) -> ", Hole(0)),
            (" {", Nothing),
        ],
    ),
    (
        Step::Line(0),
        &[
            ("", Prefix),
            ("ACTION[(state as usize) * ", Hole(1)),
            (" + integer]", Nothing),
        ],
    ),
    (Step::Line(0), &[("}", Nothing)]),
];

/// The holes of `ACTION_LOOKUP`: the state type, the number of terminals.
pub const ACTION_LOOKUP_HOLES: &[Kind] = &[Kind::Name, Kind::NotOne];

/// The function that looks up the action of a state, where there is one terminal.
pub const ACTION_LOOKUP_ONE: &[Line] = &[
    (
        Step::Line(0),
        &[
            ("fn ", Prefix),
            ("action(state: ", Hole(0)),
            (", integer: usize) -> ", Hole(0)),
            (" {", Nothing),
        ],
    ),
    (
        Step::Line(0),
        &[
            ("", Prefix),
            ("ACTION[(state as usize)  + integer]", Nothing),
        ],
    ),
    (Step::Line(0), &[("}", Nothing)]),
];

/// The hole of `ACTION_LOOKUP_ONE`: the state type.
pub const ACTION_LOOKUP_ONE_HOLES: &[Kind] = &[Kind::Name];

/// The table of actions at the end of input, by state.
pub const EOF_TABLE: &[Line] = &[
    (
        Step::Line(0),
        &[
            ("const ", Prefix),
            ("EOF_ACTION: &[", Hole(0)),
            ("] = &[", Nothing),
        ],
    ),
    (Step::Entries, NO_PARTS),
    (Step::Line(0), &[("];", Nothing)]),
];

/// The hole of `EOF_TABLE`: the state type.
pub const EOF_TABLE_HOLES: &[Kind] = &[Kind::Name];

/// The goto function, by nonterminal and state.
pub const GOTO_FN: &[Line] = &[
    (
        Step::Line(0),
        &[
            ("fn ", Prefix),
            ("goto(state: ", Hole(0)),
            (", nt: usize) -> ", Hole(0)),
            (" {", Nothing),
        ],
    ),
    (Step::Line(0), &[("match nt {", Nothing)]),
    (Step::Many(Class::Goto), NO_PARTS),
    (Step::Line(0), &[("_ => 0,", Nothing)]),
    (Step::Line(0), &[("}", Nothing)]),
    (Step::Line(0), &[("}", Nothing)]),
];

/// The hole of `GOTO_FN`: the state type.
pub const GOTO_FN_HOLES: &[Kind] = &[Kind::Name];

/// The arm of a nonterminal whose gotos have one target.
pub const GOTO_ONE: &[Line] = &[(
    Step::Line(0),
    &[("", Hole(0)), (" => ", Hole(1)), (",", Nothing)],
)];

/// The holes of `GOTO_ONE`: the nonterminal, the target.
pub const GOTO_ONE_HOLES: &[Kind] = &[Kind::Number, Kind::Number];

/// The arm of a nonterminal whose gotos have several targets.
pub const GOTO_MATCH: &[Line] = &[
    (
        Step::Line(0),
        &[("", Hole(0)), (" => match state {", Nothing)],
    ),
    (Step::Many(Class::GotoRange), NO_PARTS),
    (Step::Line(0), &[("_ => ", Hole(1)), (",", Nothing)]),
    (Step::Line(0), &[("},", Nothing)]),
];

/// The holes of `GOTO_MATCH`: the nonterminal, the target of the states without an arm.
pub const GOTO_MATCH_HOLES: &[Kind] = &[Kind::Number, Kind::Number];

/// The arm of the states whose gotos on a nonterminal have one target.
pub const GOTO_RANGE: &[Line] = &[
    (Step::Note, NO_PARTS),
    (
        Step::Line(0),
        &[("", Hole(0)), (" => ", Hole(1)), (",", Nothing)],
    ),
];

/// The holes of `GOTO_RANGE`: the states, the target.
pub const GOTO_RANGE_HOLES: &[Kind] = &[Kind::Ranges, Kind::Number];

/// The names of the terminals, without the error terminal.
pub const TERMINAL_LIST: &[Line] = &[
    (
        Step::Line(0),
        &[("#[allow(clippy::needless_raw_string_hashes)]", Nothing)],
    ),
    (
        Step::Line(0),
        &[("const ", Prefix), ("TERMINAL: &[&str] = &[", Nothing)],
    ),
    (Step::Many(Class::TerminalRow), NO_PARTS),
    (Step::Line(0), &[("];", Nothing)]),
];

/// The name of a terminal.
pub const TERMINAL_ROW: &[Line] = &[(Step::Line(0), &[("r###\"", Hole(0)), ("\"###,", Nothing)])];

/// The hole of `TERMINAL_ROW`: the name.
pub const TERMINAL_ROW_HOLES: &[Kind] = &[Kind::Terminal];

/// The function that lists the terminals with an action in a state.
pub const EXPECTED: &[Line] = &[
    (
        Step::Line(0),
        &[
            ("fn ", Prefix),
            ("expected_tokens(", Prefix),
            ("state: ", Hole(0)),
            (") -> alloc::vec::Vec<alloc::string::String> {", Nothing),
        ],
    ),
    (
        Step::Line(0),
        &[
            ("", Prefix),
            (
                "TERMINAL.iter().enumerate().filter_map(|(index, terminal)| {",
                Nothing,
            ),
        ],
    ),
    (
        Step::Line(0),
        &[
            ("let next_state = ", Prefix),
            ("action(", Prefix),
            ("state, index);", Nothing),
        ],
    ),
    (Step::Line(0), &[("if next_state == 0 {", Nothing)]),
    (Step::Line(0), &[("None", Nothing)]),
    (Step::Line(0), &[("} else {", Nothing)]),
    (
        Step::Line(0),
        &[(
            "Some(alloc::string::ToString::to_string(terminal))",
            Nothing,
        )],
    ),
    (Step::Line(0), &[("}", Nothing)]),
    (Step::Line(0), &[("}).collect()", Nothing)]),
    (Step::Line(0), &[("}", Nothing)]),
];

/// The hole of `EXPECTED`: the state type.
pub const EXPECTED_HOLES: &[Kind] = &[Kind::Name];

/// The function that lists the terminals that a stack of states accepts.
pub const EXPECTED_FROM_STATES: &[Line] = &[
    (Step::One(Class::HeaderExpectedFromStates), NO_PARTS),
    (Step::Line(0), &[("{", Nothing)]),
    (
        Step::Line(0),
        &[
            ("", Prefix),
            (
                "TERMINAL.iter().enumerate().filter_map(|(index, terminal)| {",
                Nothing,
            ),
        ],
    ),
    (
        Step::Line(0),
        &[
            ("if ", Prefix),
            ("accepts(None, ", Prefix),
            ("states, Some(index), ", Hole(0)),
            (") {", Nothing),
        ],
    ),
    (
        Step::Line(0),
        &[(
            "Some(alloc::string::ToString::to_string(terminal))",
            Nothing,
        )],
    ),
    (Step::Line(0), &[("} else {", Nothing)]),
    (Step::Line(0), &[("None", Nothing)]),
    (Step::Line(0), &[("}", Nothing)]),
    (Step::Line(0), &[("}).collect()", Nothing)]),
    (Step::Line(0), &[("}", Nothing)]),
];

/// The hole of `EXPECTED_FROM_STATES`: the phantom expression.
pub const EXPECTED_FROM_STATES_HOLES: &[Kind] = &[Kind::Text];

/// The function from a token to the number of its terminal.
pub const TOKEN_TO_INTEGER: &[Line] = &[
    (Step::One(Class::HeaderTokenToInteger), NO_PARTS),
    (Step::Line(0), &[("{", Nothing)]),
    (Step::Line(0), &[("#[warn(unused_variables)]", Nothing)]),
    (Step::Line(0), &[("match ", Prefix), ("token {", Nothing)]),
    (Step::Many(Class::IntegerRow), NO_PARTS),
    (Step::Line(0), &[("_ => None,", Nothing)]),
    (Step::Line(0), &[("}", Nothing)]),
    (Step::Line(0), &[("}", Nothing)]),
];

/// The arm of a terminal.
pub const INTEGER_ROW: &[Line] = &[(
    Step::Line(0),
    &[
        ("", Hole(0)),
        (" if true => Some(", Hole(1)),
        ("),", Nothing),
    ],
)];

/// The holes of `INTEGER_ROW`: the pattern, the terminal.
pub const INTEGER_ROW_HOLES: &[Kind] = &[Kind::Pattern, Kind::Number];

/// The function from a token to its value as a symbol.
pub const TOKEN_TO_SYMBOL: &[Line] = &[
    (Step::One(Class::HeaderTokenToSymbol), NO_PARTS),
    (Step::Line(0), &[("{", Nothing)]),
    (
        Step::Line(0),
        &[
            ("#[allow(clippy::manual_range_patterns)]match ", Prefix),
            ("token_index {", Nothing),
        ],
    ),
    (Step::Many(Class::SymbolArm), NO_PARTS),
    (Step::Line(0), &[("_ => unreachable!(),", Nothing)]),
    (Step::Line(0), &[("}", Nothing)]),
    (Step::Line(0), &[("}", Nothing)]),
];

/// The arm of terminals without captures: the whole token is the value.
pub const SYMBOL_ARM: &[Line] = &[(
    Step::Line(0),
    &[
        ("", Hole(0)),
        (" => ", Prefix),
        ("Symbol::", Hole(1)),
        ("(", Prefix),
        ("token),", Nothing),
    ],
)];

/// The holes of `SYMBOL_ARM`: the terminals, the variant.
pub const SYMBOL_ARM_HOLES: &[Kind] = &[Kind::Numbers, Kind::Name];

/// The arm of terminals with captures, which are the value.
pub const SYMBOL_MATCH: &[Line] = &[
    (
        Step::Line(0),
        &[("", Hole(0)), (" => match ", Prefix), ("token {", Nothing)],
    ),
    (
        Step::Line(0),
        &[
            ("", Hole(1)),
            (" if true => ", Prefix),
            ("Symbol::", Hole(2)),
            ("(", Hole(3)),
            ("),", Nothing),
        ],
    ),
    (Step::Line(0), &[("_ => unreachable!(),", Nothing)]),
    (Step::Line(0), &[("},", Nothing)]),
];

/// The holes of `SYMBOL_MATCH`: the terminals, the patterns, the variant, the captures.
pub const SYMBOL_MATCH_HOLES: &[Kind] = &[
    Kind::Numbers,
    Kind::Patterns,
    Kind::Name,
    Kind::Captures,
];
