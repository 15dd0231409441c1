//! Action functions.

use crate::class::Class;
use crate::template::Slot::{Hole, Nothing, Prefix};
use crate::template::{Kind, Line, NO_PARTS, Step};

/// An action function.
pub const ACTION_FN: &[Line] = &[
    (Step::Empty, NO_PARTS),
    (
        Step::Line(0),
        &[(
            "#[allow(clippy::too_many_arguments, clippy::needless_lifetimes, clippy::just_underscores_and_digits)]",
            Nothing,
        )],
    ),
    (Step::One(Class::HeaderAction), NO_PARTS),
    (Step::Line(0), &[("{", Nothing)]),
    (Step::One(Class::ActionBody), NO_PARTS),
    (Step::Line(0), &[("}", Nothing)]),
];

/// An action function of a grammar with parameters, which it need not all use.
pub const ACTION_FN_UNUSED: &[Line] = &[
    (Step::Empty, NO_PARTS),
    (Step::Line(0), &[("#[allow(unused_variables)]", Nothing)]),
    (
        Step::Line(0),
        &[(
            "#[allow(clippy::too_many_arguments, clippy::needless_lifetimes, clippy::just_underscores_and_digits)]",
            Nothing,
        )],
    ),
    (Step::One(Class::HeaderAction), NO_PARTS),
    (Step::Line(0), &[("{", Nothing)]),
    (Step::One(Class::ActionBody), NO_PARTS),
    (Step::Line(0), &[("}", Nothing)]),
];

/// The function of a lookahead or lookbehind action.
pub const LOOKAROUND: &[Line] = &[
    (Step::Empty, NO_PARTS),
    (
        Step::Line(0),
        &[("#[allow(clippy::needless_lifetimes)]", Nothing)],
    ),
    (Step::One(Class::HeaderAction), NO_PARTS),
    (Step::Line(0), &[("{", Nothing)]),
    (Step::One(Class::LookaroundBody), NO_PARTS),
    (Step::Line(0), &[("}", Nothing)]),
];

/// The function of a lookahead or lookbehind action of a grammar with parameters.
pub const LOOKAROUND_UNUSED: &[Line] = &[
    (Step::Empty, NO_PARTS),
    (Step::Line(0), &[("#[allow(unused_variables)]", Nothing)]),
    (
        Step::Line(0),
        &[("#[allow(clippy::needless_lifetimes)]", Nothing)],
    ),
    (Step::One(Class::HeaderAction), NO_PARTS),
    (Step::Line(0), &[("{", Nothing)]),
    (Step::One(Class::LookaroundBody), NO_PARTS),
    (Step::Line(0), &[("}", Nothing)]),
];

/// The body of an action function: user code.
pub const USER_BODY: &[Line] = &[(Step::Code, NO_PARTS)];

/// The body of a lookahead action: the location of the lookahead.
pub const LOOKAHEAD_BODY: &[Line] = &[(Step::Line(0), &[("*", Prefix), ("lookahead", Nothing)])];

/// The body of a lookbehind action: the location behind.
pub const LOOKBEHIND_BODY: &[Line] = &[(Step::Line(0), &[("*", Prefix), ("lookbehind", Nothing)])];

/// The body of an action with inlined actions: their spans, their calls, and the outer call.
pub const INLINE_BODY: &[Line] = &[
    (Step::Many(Class::InlineSpan), NO_PARTS),
    (Step::Many(Class::InlineCall), NO_PARTS),
    (Step::One(Class::OuterCall), NO_PARTS),
];

/// The span of an inlined action: its start and its end.
pub const INLINE_SPAN: &[Line] = &[
    (
        Step::Line(0),
        &[
            ("let ", Prefix),
            ("start", Hole(0)),
            (" = ", Hole(1)),
            (";", Nothing),
        ],
    ),
    (
        Step::Line(0),
        &[
            ("let ", Prefix),
            ("end", Hole(0)),
            (" = ", Hole(2)),
            (";", Nothing),
        ],
    ),
];

/// The holes of `INLINE_SPAN`: the inlined action's number, the start, the end.
pub const INLINE_SPAN_HOLES: &[Kind] = &[Kind::Number, Kind::Location, Kind::Location];

/// The call of an inlined action, whose value is then put between its start and its end.
pub const INLINE_CALL: &[Line] = &[
    (
        Step::Line(0),
        &[
            ("let ", Prefix),
            ("temp", Hole(0)),
            (" = ", Prefix),
            ("action", Hole(1)),
            ("(", Nothing),
        ],
    ),
    (Step::Many(Class::ArgumentRow), NO_PARTS),
    (Step::One(Class::CallEnd), NO_PARTS),
    (
        Step::Line(0),
        &[
            ("let ", Prefix),
            ("temp", Hole(0)),
            (" = (", Prefix),
            ("start", Hole(0)),
            (", ", Prefix),
            ("temp", Hole(0)),
            (", ", Prefix),
            ("end", Hole(0)),
            (");", Nothing),
        ],
    ),
];

/// The holes of `INLINE_CALL`: the inlined action's number, the called action.
pub const INLINE_CALL_HOLES: &[Kind] = &[Kind::Number, Kind::Number];

/// The call of an inlined action with type arguments.
pub const INLINE_CALL_TYPED: &[Line] = &[
    (
        Step::Line(0),
        &[
            ("let ", Prefix),
            ("temp", Hole(0)),
            (" = ", Prefix),
            ("action", Hole(1)),
            ("::<", Nothing),
        ],
    ),
    (Step::Many(Class::TypeArgument), NO_PARTS),
    (Step::Line(0), &[(">(", Nothing)]),
    (Step::Many(Class::ArgumentRow), NO_PARTS),
    (Step::One(Class::CallEnd), NO_PARTS),
    (
        Step::Line(0),
        &[
            ("let ", Prefix),
            ("temp", Hole(0)),
            (" = (", Prefix),
            ("start", Hole(0)),
            (", ", Prefix),
            ("temp", Hole(0)),
            (", ", Prefix),
            ("end", Hole(0)),
            (");", Nothing),
        ],
    ),
];

/// The holes of `INLINE_CALL_TYPED`: the inlined action's number, the called action.
pub const INLINE_CALL_TYPED_HOLES: &[Kind] = &[Kind::Number, Kind::Number];

/// The end of the call of an infallible inlined action.
pub const CALL_END_PLAIN: &[Line] = &[(Step::Line(0), &[(");", Nothing)])];

/// The end of the call of a fallible inlined action: an error is returned.
pub const CALL_END_FALLIBLE: &[Line] = &[(Step::Line(0), &[(")?;", Nothing)])];

/// An argument of a call.
pub const ARGUMENT_ROW: &[Line] = &[(Step::Line(0), &[("", Hole(0)), (",", Nothing)])];

/// The hole of `ARGUMENT_ROW`: the argument.
pub const ARGUMENT_ROW_HOLES: &[Kind] = &[Kind::Argument];

/// A type argument of a call.
pub const TYPE_ARGUMENT: &[Line] = &[(Step::Line(0), &[("", Hole(0)), (",", Nothing)])];

/// The hole of `TYPE_ARGUMENT`: the type argument.
pub const TYPE_ARGUMENT_HOLES: &[Kind] = &[Kind::Text];

/// The outer call, behind those of inlined actions.
pub const OUTER_CALL: &[Line] = &[
    (
        Step::Line(0),
        &[("", Prefix), ("action", Hole(0)), ("(", Nothing)],
    ),
    (Step::Many(Class::ArgumentRow), NO_PARTS),
    (Step::Line(0), &[(")", Nothing)]),
];

/// The hole of `OUTER_CALL`: the called action.
pub const OUTER_CALL_HOLES: &[Kind] = &[Kind::Number];

/// The outer call with type arguments.
pub const OUTER_CALL_TYPED: &[Line] = &[
    (
        Step::Line(0),
        &[("", Prefix), ("action", Hole(0)), ("::<", Nothing)],
    ),
    (Step::Many(Class::TypeArgument), NO_PARTS),
    (Step::Line(0), &[(">(", Nothing)]),
    (Step::Many(Class::ArgumentRow), NO_PARTS),
    (Step::Line(0), &[(")", Nothing)]),
];

/// The hole of `OUTER_CALL_TYPED`: the called action.
pub const OUTER_CALL_TYPED_HOLES: &[Kind] = &[Kind::Number];

/// The outer call under `Ok`.
pub const OUTER_CALL_OK: &[Line] = &[
    (
        Step::Line(0),
        &[("Ok(", Prefix), ("action", Hole(0)), ("(", Nothing)],
    ),
    (Step::Many(Class::ArgumentRow), NO_PARTS),
    (Step::Line(0), &[("))", Nothing)]),
];

/// The hole of `OUTER_CALL_OK`: the called action.
pub const OUTER_CALL_OK_HOLES: &[Kind] = &[Kind::Number];

/// The outer call under `Ok`, with type arguments.
pub const OUTER_CALL_OK_TYPED: &[Line] = &[
    (
        Step::Line(0),
        &[("Ok(", Prefix), ("action", Hole(0)), ("::<", Nothing)],
    ),
    (Step::Many(Class::TypeArgument), NO_PARTS),
    (Step::Line(0), &[(">(", Nothing)]),
    (Step::Many(Class::ArgumentRow), NO_PARTS),
    (Step::Line(0), &[("))", Nothing)]),
];

/// The hole of `OUTER_CALL_OK_TYPED`: the called action.
pub const OUTER_CALL_OK_TYPED_HOLES: &[Kind] = &[Kind::Number];
