//! Reductions of recursive ascent.

use crate::class::Class;
use crate::template::Slot::{Hole, Nothing, Prefix};
use crate::template::{Kind, Line, NO_PARTS, Step};

/// A reduction on several lookaheads.
pub const REDUCE_MANY: &[Line] = &[
    (
        Step::Line(0),
        &[("Some((_, ", Hole(0)), (", _)) |", Nothing)],
    ),
    (Step::Many(Class::TokenRow), NO_PARTS),
    (Step::One(Class::LastToken), NO_PARTS),
    (Step::One(Class::ReduceLines), NO_PARTS),
];

/// The hole of `REDUCE_MANY`: the pattern of the first token.
pub const REDUCE_MANY_HOLES: &[Kind] = &[Kind::Pattern];

/// A reduction on one token.
pub const REDUCE_TOKEN: &[Line] = &[
    (
        Step::Line(0),
        &[("Some((_, ", Hole(0)), (", _)) => {", Nothing)],
    ),
    (Step::One(Class::ReduceLines), NO_PARTS),
];

/// The hole of `REDUCE_TOKEN`: the pattern.
pub const REDUCE_TOKEN_HOLES: &[Kind] = &[Kind::Pattern];

/// A reduction at the end of input alone.
pub const REDUCE_END: &[Line] = &[
    (Step::Line(0), &[("None => {", Nothing)]),
    (Step::One(Class::ReduceLines), NO_PARTS),
];

/// A token between the first lookahead and the last one.
pub const TOKEN_ROW: &[Line] = &[(
    Step::Line(0),
    &[("Some((_, ", Hole(0)), (", _)) |", Nothing)],
)];

/// The hole of `TOKEN_ROW`: the pattern.
pub const TOKEN_ROW_HOLES: &[Kind] = &[Kind::Pattern];

/// A token as the last of several lookaheads.
pub const LAST_TOKEN: &[Line] = &[(
    Step::Line(0),
    &[("Some((_, ", Hole(0)), (", _)) => {", Nothing)],
)];

/// The hole of `LAST_TOKEN`: the pattern.
pub const LAST_TOKEN_HOLES: &[Kind] = &[Kind::Pattern];

/// The end of input as the last of several lookaheads.
pub const LAST_END: &[Line] = &[(Step::Line(0), &[("None => {", Nothing)])];

/// What a reduction does: the span, the call of the action, and the result.
pub const REDUCE_LINES: &[Line] = &[
    (Step::Many(Class::TakeLine), NO_PARTS),
    (Step::One(Class::AscentSpan), NO_PARTS),
    (Step::One(Class::AscentCall), NO_PARTS),
    (
        Step::Line(0),
        &[
            ("let ", Prefix),
            ("nt = ", Prefix),
            ("Nonterminal::", Hole(0)),
            ("((", Nothing),
        ],
    ),
    (Step::Line(0), &[("", Prefix), ("start,", Nothing)]),
    (Step::Line(0), &[("", Prefix), ("nt,", Nothing)]),
    (Step::Line(0), &[("", Prefix), ("end,", Nothing)]),
    (Step::Line(0), &[("));", Nothing)]),
    (
        Step::Line(0),
        &[
            ("", Prefix),
            ("result = (", Prefix),
            ("lookahead, ", Prefix),
            ("nt);", Nothing),
        ],
    ),
    (Step::Optional(Class::ReturnLine), NO_PARTS),
    (Step::Line(0), &[("}", Nothing)]),
];

/// The hole of `REDUCE_LINES`: the nonterminal.
pub const REDUCE_LINES_HOLES: &[Kind] = &[Kind::Escaped];

/// Takes the symbol out of an optional slot.
pub const TAKE_LINE: &[Line] = &[(
    Step::Line(0),
    &[
        ("let ", Prefix),
        ("sym", Hole(0)),
        (" = ", Prefix),
        ("sym", Hole(0)),
        (".take().unwrap();", Nothing),
    ],
)];

/// The hole of `TAKE_LINE`: the slot.
pub const TAKE_LINE_HOLES: &[Kind] = &[Kind::Number];

/// Returns the result.
pub const RETURN_LINE: &[Line] = &[(
    Step::Line(0),
    &[("return Ok(", Prefix), ("result);", Nothing)],
)];

/// The span of popped symbols, from the start of the first to the end of the last.
pub const ASCENT_POPPED: &[Line] = &[
    (
        Step::Line(0),
        &[
            ("let ", Prefix),
            ("start = ", Prefix),
            ("sym", Hole(0)),
            (".0.clone();", Nothing),
        ],
    ),
    (
        Step::Line(0),
        &[
            ("let ", Prefix),
            ("end = ", Prefix),
            ("sym", Hole(1)),
            (".2.clone();", Nothing),
        ],
    ),
];

/// The holes of `ASCENT_POPPED`: the first slot, the last slot.
pub const ASCENT_POPPED_HOLES: &[Kind] = &[Kind::Number, Kind::Number];

/// The span of no symbols: the start of the lookahead, else the end of a fixed slot.
pub const ASCENT_FIXED: &[Line] = &[
    (
        Step::Line(0),
        &[
            ("let ", Prefix),
            ("start = ", Prefix),
            ("lookahead.as_ref().map(|o| o.0).unwrap_or_else(|| ", Prefix),
            ("sym", Hole(0)),
            (".2);", Nothing),
        ],
    ),
    (
        Step::Line(0),
        &[("let ", Prefix), ("end = ", Prefix), ("start;", Nothing)],
    ),
];

/// The hole of `ASCENT_FIXED`: the slot.
pub const ASCENT_FIXED_HOLES: &[Kind] = &[Kind::Number];

/// The span of no symbols: the start of the lookahead, else the end of an optional slot.
pub const ASCENT_OPTIONAL: &[Line] = &[
    (
        Step::Line(0),
        &[
            ("let ", Prefix),
            ("start = ", Prefix),
            (
                "lookahead.as_ref().map(|o| o.0.clone()).unwrap_or_else(|| ",
                Prefix,
            ),
            ("sym", Hole(0)),
            (".as_ref().unwrap().2.clone());", Nothing),
        ],
    ),
    (
        Step::Line(0),
        &[("let ", Prefix), ("end = ", Prefix), ("start;", Nothing)],
    ),
];

/// The hole of `ASCENT_OPTIONAL`: the slot.
pub const ASCENT_OPTIONAL_HOLES: &[Kind] = &[Kind::Number];

/// The span of no symbols: the start of the lookahead, else the default location.
pub const ASCENT_BOTTOM: &[Line] = &[
    (
        Step::Line(0),
        &[
            ("let ", Prefix),
            ("start: ", Hole(0)),
            (" = ", Prefix),
            (
                "lookahead.as_ref().map(|o| o.0.clone()).unwrap_or_default();",
                Nothing,
            ),
        ],
    ),
    (
        Step::Line(0),
        &[("let ", Prefix), ("end = ", Prefix), ("start;", Nothing)],
    ),
];

/// The hole of `ASCENT_BOTTOM`: the location type.
pub const ASCENT_BOTTOM_HOLES: &[Kind] = &[Kind::Text];

/// The call of an infallible action.
pub const ASCENT_CALL: &[Line] = &[(
    Step::Line(0),
    &[
        ("let ", Prefix),
        ("nt = super::", Prefix),
        ("action", Hole(0)),
        ("::<", Hole(1)),
        (">(", Hole(2)),
        (");", Nothing),
    ],
)];

/// The holes of `ASCENT_CALL`: the action, type arguments, arguments.
pub const ASCENT_CALL_HOLES: &[Kind] = &[Kind::Number, Kind::Generics, Kind::Arguments];

/// The call of a fallible action: an error is returned.
pub const ASCENT_CALL_FALLIBLE: &[Line] = &[(
    Step::Line(0),
    &[
        ("let ", Prefix),
        ("nt = super::", Prefix),
        ("action", Hole(0)),
        ("::<", Hole(1)),
        (">(", Hole(2)),
        (")?;", Nothing),
    ],
)];

/// The holes of `ASCENT_CALL_FALLIBLE`: the action, type arguments, arguments.
pub const ASCENT_CALL_FALLIBLE_HOLES: &[Kind] = &[Kind::Number, Kind::Generics, Kind::Arguments];
