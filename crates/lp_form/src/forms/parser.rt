//! Function headers, and parsers with their `parse` method.

use crate::class::Class;
use crate::template::Slot::{Hole, Nothing, Prefix};
use crate::template::{Kind, Line, NO_PARTS, Step};

/// The header of a parser's `parse` method.
pub const HEADER_PARSE: &[Line] = &[
    (Step::Line(0), &[("", Hole(0)), ("fn parse<", Nothing)]),
    (Step::Many(Class::TypeRow), NO_PARTS),
    (Step::Line(0), &[(">(", Nothing)]),
    (Step::Many(Class::ParameterRow), NO_PARTS),
    (Step::One(Class::ResultLine), NO_PARTS),
    (Step::Optional(Class::Clauses), NO_PARTS),
];

/// The hole of `HEADER_PARSE`: the visibility.
pub const HEADER_PARSE_HOLES: &[Kind] = &[Kind::Visibility];

/// The header of `expected_tokens_from_states`.
pub const HEADER_EXPECTED_FROM_STATES: &[Line] = &[
    (
        Step::Line(0),
        &[("fn ", Prefix), ("expected_tokens_from_states<", Nothing)],
    ),
    (Step::Many(Class::TypeRow), NO_PARTS),
    (Step::Line(0), &[(">(", Nothing)]),
    (Step::Many(Class::ParameterRow), NO_PARTS),
    (Step::One(Class::ResultLine), NO_PARTS),
    (Step::Optional(Class::Clauses), NO_PARTS),
];

/// The header of `token_to_integer`.
pub const HEADER_TOKEN_TO_INTEGER: &[Line] = &[
    (
        Step::Line(0),
        &[("fn ", Prefix), ("token_to_integer<", Nothing)],
    ),
    (Step::Many(Class::TypeRow), NO_PARTS),
    (Step::Line(0), &[(">(", Nothing)]),
    (Step::Many(Class::ParameterRow), NO_PARTS),
    (Step::One(Class::ResultLine), NO_PARTS),
    (Step::Optional(Class::Clauses), NO_PARTS),
];

/// The header of `token_to_symbol`.
pub const HEADER_TOKEN_TO_SYMBOL: &[Line] = &[
    (
        Step::Line(0),
        &[("fn ", Prefix), ("token_to_symbol<", Nothing)],
    ),
    (Step::Many(Class::TypeRow), NO_PARTS),
    (Step::Line(0), &[(">(", Nothing)]),
    (Step::Many(Class::ParameterRow), NO_PARTS),
    (Step::One(Class::ResultLine), NO_PARTS),
    (Step::Optional(Class::Clauses), NO_PARTS),
];

/// The header of `simulate_reduce`.
pub const HEADER_SIMULATE_REDUCE: &[Line] = &[
    (
        Step::Line(0),
        &[("fn ", Prefix), ("simulate_reduce<", Nothing)],
    ),
    (Step::Many(Class::TypeRow), NO_PARTS),
    (Step::Line(0), &[(">(", Nothing)]),
    (Step::Many(Class::ParameterRow), NO_PARTS),
    (Step::One(Class::ResultLine), NO_PARTS),
    (Step::Optional(Class::Clauses), NO_PARTS),
];

/// The header of `accepts`.
pub const HEADER_ACCEPTS: &[Line] = &[
    (Step::Line(0), &[("fn ", Prefix), ("accepts<", Nothing)]),
    (Step::Many(Class::TypeRow), NO_PARTS),
    (Step::Line(0), &[(">(", Nothing)]),
    (Step::Many(Class::ParameterRow), NO_PARTS),
    (Step::One(Class::ResultLine), NO_PARTS),
    (Step::Optional(Class::Clauses), NO_PARTS),
];

/// The header of `reduce`.
pub const HEADER_REDUCE: &[Line] = &[
    (Step::Line(0), &[("fn ", Prefix), ("reduce<", Nothing)]),
    (Step::Many(Class::TypeRow), NO_PARTS),
    (Step::Line(0), &[(">(", Nothing)]),
    (Step::Many(Class::ParameterRow), NO_PARTS),
    (Step::One(Class::ResultLine), NO_PARTS),
    (Step::Optional(Class::Clauses), NO_PARTS),
];

/// The header of the reduce function of one production.
pub const HEADER_REDUCE_FN: &[Line] = &[
    (
        Step::Line(0),
        &[("fn ", Prefix), ("reduce", Hole(0)), ("<", Nothing)],
    ),
    (Step::Many(Class::TypeRow), NO_PARTS),
    (Step::Line(0), &[(">(", Nothing)]),
    (Step::Many(Class::ParameterRow), NO_PARTS),
    (Step::One(Class::ResultLine), NO_PARTS),
    (Step::Optional(Class::Clauses), NO_PARTS),
];

/// The hole of `HEADER_REDUCE_FN`: the production.
pub const HEADER_REDUCE_FN_HOLES: &[Kind] = &[Kind::Number];

/// The header of a state function.
pub const HEADER_STATE: &[Line] = &[
    (
        Step::Line(0),
        &[("fn ", Prefix), ("state", Hole(0)), ("<", Nothing)],
    ),
    (Step::Many(Class::TypeRow), NO_PARTS),
    (Step::Line(0), &[(">(", Nothing)]),
    (Step::Many(Class::ParameterRow), NO_PARTS),
    (Step::One(Class::ResultLine), NO_PARTS),
    (Step::Optional(Class::Clauses), NO_PARTS),
];

/// The hole of `HEADER_STATE`: the state.
pub const HEADER_STATE_HOLES: &[Kind] = &[Kind::Number];

/// The header of an action function.
pub const HEADER_ACTION: &[Line] = &[
    (
        Step::Line(0),
        &[("fn ", Prefix), ("action", Hole(0)), ("<", Nothing)],
    ),
    (Step::Many(Class::TypeRow), NO_PARTS),
    (Step::Line(0), &[(">(", Nothing)]),
    (Step::Many(Class::ParameterRow), NO_PARTS),
    (Step::One(Class::ResultLine), NO_PARTS),
    (Step::Optional(Class::Clauses), NO_PARTS),
];

/// The hole of `HEADER_ACTION`: the action.
pub const HEADER_ACTION_HOLES: &[Kind] = &[Kind::Number];

/// A type parameter of a header.
pub const TYPE_ROW: &[Line] = &[(Step::Line(4), &[("", Hole(0)), (",", Nothing)])];

/// The hole of `TYPE_ROW`: the type parameter.
pub const TYPE_ROW_HOLES: &[Kind] = &[Kind::Text];

/// A parameter of a header.
pub const PARAMETER_ROW: &[Line] = &[(Step::Line(0), &[("", Hole(0)), (",", Nothing)])];

/// The hole of `PARAMETER_ROW`: the parameter.
pub const PARAMETER_ROW_HOLES: &[Kind] = &[Kind::Text];

/// The end of the parameters of a header whose result is `()`.
pub const RESULT_UNIT: &[Line] = &[(Step::Line(0), &[(")", Nothing)])];

/// The end of the parameters of a header, and its result type.
pub const RESULT_TYPE: &[Line] = &[(Step::Line(0), &[(") -> ", Hole(0))])];

/// The hole of `RESULT_TYPE`: the result type.
pub const RESULT_TYPE_HOLES: &[Kind] = &[Kind::Result];

/// The where clauses of a header.
pub const CLAUSES: &[Line] = &[
    (Step::Line(0), &[("where", Nothing)]),
    (Step::Many(Class::ClauseRow), NO_PARTS),
];

/// A where clause of a header.
pub const CLAUSE_ROW: &[Line] = &[(Step::Line(4), &[("", Hole(0)), (",", Nothing)])];

/// The hole of `CLAUSE_ROW`: the where clause.
pub const CLAUSE_ROW_HOLES: &[Kind] = &[Kind::Text];

/// A table-driven parser with the generated lexer.
pub const TABLE_PARSER_INTERNED: &[Line] = &[
    (
        Step::Line(0),
        &[("", Hole(0)), ("struct ", Hole(1)), ("Parser {", Nothing)],
    ),
    (
        Step::Line(0),
        &[
            ("builder: ", Prefix),
            ("lalrpop_util::lexer::MatcherBuilder,", Nothing),
        ],
    ),
    (Step::Line(0), &[("_priv: (),", Nothing)]),
    (Step::Line(0), &[("}", Nothing)]),
    (Step::Empty, NO_PARTS),
    (
        Step::Line(0),
        &[
            ("impl Default for ", Hole(1)),
            ("Parser { fn default() -> Self { Self::new() } }", Nothing),
        ],
    ),
    (Step::Line(0), &[("impl ", Hole(1)), ("Parser {", Nothing)]),
    (
        Step::Line(0),
        &[
            ("", Hole(0)),
            ("fn new() -> ", Hole(1)),
            ("Parser {", Nothing),
        ],
    ),
    (
        Step::Line(0),
        &[
            ("let ", Prefix),
            ("builder = super::", Prefix),
            ("intern_token::new_builder();", Nothing),
        ],
    ),
    (Step::Line(0), &[("", Hole(1)), ("Parser {", Nothing)]),
    (
        Step::Line(0),
        &[("builder: ", Prefix), ("builder,", Nothing)],
    ),
    (Step::Line(0), &[("_priv: (),", Nothing)]),
    (Step::Line(0), &[("}", Nothing)]),
    (Step::Line(0), &[("}", Nothing)]),
    (Step::Empty, NO_PARTS),
    (Step::Line(0), &[("#[allow(dead_code)]", Nothing)]),
    (Step::One(Class::HeaderParse), NO_PARTS),
    (Step::Line(0), &[("{", Nothing)]),
    (Step::One(Class::TokenSource), NO_PARTS),
    (Step::One(Class::Drive), NO_PARTS),
    (Step::Line(0), &[("}", Nothing)]),
    (Step::Line(0), &[("}", Nothing)]),
];

/// The holes of `TABLE_PARSER_INTERNED`: the visibility, the public name.
pub const TABLE_PARSER_INTERNED_HOLES: &[Kind] = &[Kind::Visibility, Kind::Name];

/// A table-driven parser of tokens that are handed in.
pub const TABLE_PARSER_PLAIN: &[Line] = &[
    (
        Step::Line(0),
        &[("", Hole(0)), ("struct ", Hole(1)), ("Parser {", Nothing)],
    ),
    (Step::Line(0), &[("_priv: (),", Nothing)]),
    (Step::Line(0), &[("}", Nothing)]),
    (Step::Empty, NO_PARTS),
    (
        Step::Line(0),
        &[
            ("impl Default for ", Hole(1)),
            ("Parser { fn default() -> Self { Self::new() } }", Nothing),
        ],
    ),
    (Step::Line(0), &[("impl ", Hole(1)), ("Parser {", Nothing)]),
    (
        Step::Line(0),
        &[
            ("", Hole(0)),
            ("fn new() -> ", Hole(1)),
            ("Parser {", Nothing),
        ],
    ),
    (Step::Line(0), &[("", Hole(1)), ("Parser {", Nothing)]),
    (Step::Line(0), &[("_priv: (),", Nothing)]),
    (Step::Line(0), &[("}", Nothing)]),
    (Step::Line(0), &[("}", Nothing)]),
    (Step::Empty, NO_PARTS),
    (Step::Line(0), &[("#[allow(dead_code)]", Nothing)]),
    (Step::One(Class::HeaderParse), NO_PARTS),
    (Step::Line(0), &[("{", Nothing)]),
    (Step::One(Class::TokenSource), NO_PARTS),
    (Step::One(Class::Drive), NO_PARTS),
    (Step::Line(0), &[("}", Nothing)]),
    (Step::Line(0), &[("}", Nothing)]),
];

/// The holes of `TABLE_PARSER_PLAIN`: the visibility, the public name.
pub const TABLE_PARSER_PLAIN_HOLES: &[Kind] = &[Kind::Visibility, Kind::Name];

/// A parser by recursive ascent with the generated lexer.
pub const ASCENT_PARSER_INTERNED: &[Line] = &[
    (
        Step::Line(0),
        &[("", Hole(0)), ("struct ", Hole(1)), ("Parser {", Nothing)],
    ),
    (
        Step::Line(0),
        &[
            ("builder: ", Prefix),
            ("lalrpop_util::lexer::MatcherBuilder,", Nothing),
        ],
    ),
    (Step::Line(0), &[("_priv: (),", Nothing)]),
    (Step::Line(0), &[("}", Nothing)]),
    (Step::Empty, NO_PARTS),
    (
        Step::Line(0),
        &[
            ("impl Default for ", Hole(1)),
            ("Parser { fn default() -> Self { Self::new() } }", Nothing),
        ],
    ),
    (Step::Line(0), &[("impl ", Hole(1)), ("Parser {", Nothing)]),
    (
        Step::Line(0),
        &[
            ("", Hole(0)),
            ("fn new() -> ", Hole(1)),
            ("Parser {", Nothing),
        ],
    ),
    (
        Step::Line(0),
        &[
            ("let ", Prefix),
            ("builder = super::", Prefix),
            ("intern_token::new_builder();", Nothing),
        ],
    ),
    (Step::Line(0), &[("", Hole(1)), ("Parser {", Nothing)]),
    (
        Step::Line(0),
        &[("builder: ", Prefix), ("builder,", Nothing)],
    ),
    (Step::Line(0), &[("_priv: (),", Nothing)]),
    (Step::Line(0), &[("}", Nothing)]),
    (Step::Line(0), &[("}", Nothing)]),
    (Step::Empty, NO_PARTS),
    (Step::Line(0), &[("#[allow(dead_code)]", Nothing)]),
    (Step::One(Class::HeaderParse), NO_PARTS),
    (Step::Line(0), &[("{", Nothing)]),
    (Step::One(Class::TokenSource), NO_PARTS),
    (Step::One(Class::Start), NO_PARTS),
    (Step::Line(0), &[("}", Nothing)]),
    (Step::Line(0), &[("}", Nothing)]),
];

/// The holes of `ASCENT_PARSER_INTERNED`: the visibility, the public name.
pub const ASCENT_PARSER_INTERNED_HOLES: &[Kind] = &[Kind::Visibility, Kind::Name];

/// A parser by recursive ascent of tokens that are handed in.
pub const ASCENT_PARSER_PLAIN: &[Line] = &[
    (
        Step::Line(0),
        &[("", Hole(0)), ("struct ", Hole(1)), ("Parser {", Nothing)],
    ),
    (Step::Line(0), &[("_priv: (),", Nothing)]),
    (Step::Line(0), &[("}", Nothing)]),
    (Step::Empty, NO_PARTS),
    (
        Step::Line(0),
        &[
            ("impl Default for ", Hole(1)),
            ("Parser { fn default() -> Self { Self::new() } }", Nothing),
        ],
    ),
    (Step::Line(0), &[("impl ", Hole(1)), ("Parser {", Nothing)]),
    (
        Step::Line(0),
        &[
            ("", Hole(0)),
            ("fn new() -> ", Hole(1)),
            ("Parser {", Nothing),
        ],
    ),
    (Step::Line(0), &[("", Hole(1)), ("Parser {", Nothing)]),
    (Step::Line(0), &[("_priv: (),", Nothing)]),
    (Step::Line(0), &[("}", Nothing)]),
    (Step::Line(0), &[("}", Nothing)]),
    (Step::Empty, NO_PARTS),
    (Step::Line(0), &[("#[allow(dead_code)]", Nothing)]),
    (Step::One(Class::HeaderParse), NO_PARTS),
    (Step::Line(0), &[("{", Nothing)]),
    (Step::One(Class::TokenSource), NO_PARTS),
    (Step::One(Class::Start), NO_PARTS),
    (Step::Line(0), &[("}", Nothing)]),
    (Step::Line(0), &[("}", Nothing)]),
];

/// The holes of `ASCENT_PARSER_PLAIN`: the visibility, the public name.
pub const ASCENT_PARSER_PLAIN_HOLES: &[Kind] = &[Kind::Visibility, Kind::Name];

/// The tokens that the generated lexer finds in the input.
pub const TOKEN_SOURCE_INTERNED: &[Line] = &[(
    Step::Line(0),
    &[
        ("let mut ", Prefix),
        ("tokens = self.builder.matcher(input);", Nothing),
    ],
)];

/// The tokens that are handed in, as triples.
pub const TOKEN_SOURCE_PLAIN: &[Line] = &[
    (
        Step::Line(0),
        &[
            ("let ", Prefix),
            ("tokens = ", Prefix),
            ("tokens0.into_iter();", Nothing),
        ],
    ),
    (
        Step::Line(0),
        &[
            ("let mut ", Prefix),
            ("tokens = ", Prefix),
            ("tokens.map(|t| ", Prefix),
            ("ToTriple::to_triple(t));", Nothing),
        ],
    ),
];
