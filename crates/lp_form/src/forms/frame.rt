//! The forms around the modules.

use crate::class::Class;
use crate::template::Slot::{Hole, Nothing, Prefix};
use crate::template::{Kind, Line, NO_PARTS, Step};

/// The whole text of an emitted parser.
pub const PROGRAM: &[Line] = &[
    (Step::Many(Class::Attribute), NO_PARTS),
    (Step::Many(Class::Use), NO_PARTS),
    (Step::One(Class::StandardUses), NO_PARTS),
    (Step::Pairs(Class::Module, Class::Reexport), NO_PARTS),
    (Step::Optional(Class::TokenModule), NO_PARTS),
    (Step::Many(Class::Action), NO_PARTS),
    (Step::Empty, NO_PARTS),
    (
        Step::Line(0),
        &[("#[allow(clippy::type_complexity, dead_code)]", Nothing)],
    ),
    (Step::One(Class::ToTriple), NO_PARTS),
];

/// An inner attribute of the whole text.
pub const ATTRIBUTE: &[Line] = &[(Step::Line(0), &[("", Hole(0))])];

/// The hole of `ATTRIBUTE`: the attribute.
pub const ATTRIBUTE_HOLES: &[Kind] = &[Kind::Attribute];

/// A `use` of the grammar.
pub const USE_LINE: &[Line] = &[(Step::Use, NO_PARTS)];

/// The uses that the whole text and each module have: of the runtime crate and of `alloc`.
pub const STANDARD_USES: &[Line] = &[
    (
        Step::Line(0),
        &[("#[allow(unused_extern_crates)]", Nothing)],
    ),
    (
        Step::Line(0),
        &[
            ("extern crate lalrpop_util as ", Prefix),
            ("lalrpop_util;", Nothing),
        ],
    ),
    (Step::Line(0), &[("#[allow(unused_imports)]", Nothing)]),
    (
        Step::Line(0),
        &[
            ("use self::", Prefix),
            ("lalrpop_util::state_machine as ", Prefix),
            ("state_machine;", Nothing),
        ],
    ),
    (
        Step::Line(0),
        &[("#[allow(unused_extern_crates)]", Nothing)],
    ),
    (Step::Line(0), &[("extern crate alloc;", Nothing)]),
];

/// The module of a start nonterminal.
pub const PARSE_MODULE: &[Line] = &[
    (Step::Empty, NO_PARTS),
    (Step::Line(0), &[("#[rustfmt::skip]", Nothing)]),
    (
        Step::Line(0),
        &[(
            "#[allow(explicit_outlives_requirements, non_snake_case, non_camel_case_types, unused_mut, unused_variables, unused_imports, unused_parens, clippy::needless_lifetimes, clippy::type_complexity, clippy::needless_return, clippy::too_many_arguments, clippy::match_single_binding, clippy::clone_on_copy, clippy::unit_arg)]",
            Nothing,
        )],
    ),
    (
        Step::Line(0),
        &[("mod ", Prefix), ("parse", Hole(0)), (" {", Nothing)],
    ),
    (Step::Empty, NO_PARTS),
    (Step::Many(Class::Use), NO_PARTS),
    (Step::One(Class::StandardUses), NO_PARTS),
    (Step::One(Class::TokenUse), NO_PARTS),
    (Step::One(Class::ModuleItems), NO_PARTS),
    (Step::Line(0), &[("}", Nothing)]),
];

/// The hole of `PARSE_MODULE`: the start nonterminal.
pub const PARSE_MODULE_HOLES: &[Kind] = &[Kind::Name];

/// The use of the token type of the generated lexer.
pub const TOKEN_USE_INTERNED: &[Line] = &[(
    Step::Line(0),
    &[
        ("use self::", Prefix),
        ("lalrpop_util::lexer::Token;", Nothing),
    ],
)];

/// The use of the trait of the tokens that are handed in.
pub const TOKEN_USE_PLAIN: &[Line] = &[(
    Step::Line(0),
    &[("use super::", Prefix), ("ToTriple;", Nothing)],
)];

/// The re-export of a parser under its public name.
pub const REEXPORT: &[Line] = &[
    (Step::Line(0), &[("#[allow(unused_imports)]", Nothing)]),
    (
        Step::Line(0),
        &[
            ("", Hole(0)),
            ("use self::", Prefix),
            ("parse", Hole(1)),
            ("::", Hole(2)),
            ("Parser;", Nothing),
        ],
    ),
];

/// The holes of `REEXPORT`: the visibility, the start nonterminal, the public name.
pub const REEXPORT_HOLES: &[Kind] = &[Kind::Visibility, Kind::Name, Kind::Name];

/// The items of a module of table-driven code.
pub const TABLE_ITEMS: &[Line] = &[
    (Step::One(Class::SymbolEnum), NO_PARTS),
    (Step::One(Class::ActionTable), NO_PARTS),
    (Step::One(Class::ActionLookup), NO_PARTS),
    (Step::One(Class::EofTable), NO_PARTS),
    (Step::One(Class::GotoFn), NO_PARTS),
    (Step::One(Class::TerminalList), NO_PARTS),
    (Step::One(Class::Expected), NO_PARTS),
    (Step::One(Class::ExpectedFromStates), NO_PARTS),
    (Step::One(Class::MachineStruct), NO_PARTS),
    (Step::One(Class::MachineImpl), NO_PARTS),
    (Step::One(Class::TokenToInteger), NO_PARTS),
    (Step::One(Class::TokenToSymbol), NO_PARTS),
    (Step::One(Class::SimulateReduce), NO_PARTS),
    (Step::One(Class::TableParser), NO_PARTS),
    (Step::One(Class::Accepts), NO_PARTS),
    (Step::One(Class::Reduce), NO_PARTS),
    (Step::One(Class::Mismatch), NO_PARTS),
    (Step::Many(Class::Pop), NO_PARTS),
    (Step::Many(Class::ReduceFn), NO_PARTS),
];

/// The items of a module of recursive ascent.
pub const ASCENT_ITEMS: &[Line] = &[
    (Step::One(Class::AscentParser), NO_PARTS),
    (Step::Empty, NO_PARTS),
    (Step::One(Class::ReturnEnum), NO_PARTS),
    (Step::Many(Class::StateFn), NO_PARTS),
    (Step::One(Class::ActionTable), NO_PARTS),
    (Step::One(Class::ActionLookup), NO_PARTS),
    (Step::One(Class::GotoFn), NO_PARTS),
    (Step::One(Class::TerminalList), NO_PARTS),
    (Step::One(Class::AscentSimulate), NO_PARTS),
    (Step::One(Class::AscentAccepts), NO_PARTS),
    (Step::One(Class::AscentExpected), NO_PARTS),
];

/// The module of the generated lexer, with the regular expressions of its tokens.
pub const TOKEN_MODULE: &[Line] = &[
    (Step::Line(0), &[("#[rustfmt::skip]", Nothing)]),
    (
        Step::Line(0),
        &[("mod ", Prefix), ("intern_token {", Nothing)],
    ),
    (Step::Line(0), &[("#![allow(unused_imports)]", Nothing)]),
    (Step::Many(Class::Use), NO_PARTS),
    (Step::One(Class::StandardUses), NO_PARTS),
    (
        Step::Line(0),
        &[
            ("pub fn new_builder() -> ", Prefix),
            ("lalrpop_util::lexer::MatcherBuilder {", Nothing),
        ],
    ),
    (
        Step::Line(0),
        &[("let ", Prefix), ("strs: &[(&str, bool)] = &[", Nothing)],
    ),
    (Step::Many(Class::InternRow), NO_PARTS),
    (Step::Optional(Class::WhitespaceRow), NO_PARTS),
    (Step::Line(0), &[("];", Nothing)]),
    (
        Step::Line(0),
        &[
            ("", Prefix),
            ("lalrpop_util::lexer::MatcherBuilder::new(", Prefix),
            ("strs.iter().copied()).unwrap()", Nothing),
        ],
    ),
    (Step::Line(0), &[("}", Nothing)]),
    (Step::Line(0), &[("}", Nothing)]),
    (
        Step::Line(0),
        &[
            ("pub(crate) use self::", Prefix),
            ("lalrpop_util::lexer::Token;", Nothing),
        ],
    ),
];

/// A regular expression whose matches are skipped.
pub const INTERN_SKIP: &[Line] = &[(Step::Line(0), &[("(", Hole(0)), (", true),", Nothing)])];

/// The hole of `INTERN_SKIP`: the regular expression as a string literal.
pub const INTERN_SKIP_HOLES: &[Kind] = &[Kind::Literal];

/// A regular expression whose matches are tokens.
pub const INTERN_KEEP: &[Line] = &[(Step::Line(0), &[("(", Hole(0)), (", false),", Nothing)])];

/// The hole of `INTERN_KEEP`: the regular expression as a string literal.
pub const INTERN_KEEP_HOLES: &[Kind] = &[Kind::Literal];

/// White space, which is skipped where no regular expression of the grammar is.
pub const WHITESPACE_ROW: &[Line] = &[(Step::Line(0), &[("(r\"\\s+\", true),", Nothing)])];

/// The trait that makes triples of tokens with locations, with where clauses.
pub const TO_TRIPLE_LOCATED_WHERE: &[Line] = &[
    (
        Step::Line(0),
        &[
            ("", Hole(0)),
            ("trait ", Prefix),
            ("ToTriple<", Hole(1)),
            (">", Nothing),
        ],
    ),
    (Step::Line(0), &[("where ", Hole(2))]),
    (Step::Line(0), &[("{", Nothing)]),
    (
        Step::Line(0),
        &[
            ("fn to_triple(self) -> Result<(", Hole(3)),
            ("), ", Prefix),
            ("lalrpop_util::ParseError<", Hole(4)),
            (">>;", Nothing),
        ],
    ),
    (Step::Line(0), &[("}", Nothing)]),
    (Step::Empty, NO_PARTS),
    (
        Step::Line(0),
        &[
            ("impl<", Hole(1)),
            ("> ", Prefix),
            ("ToTriple<", Hole(1)),
            ("> for (", Hole(5)),
            (")", Nothing),
        ],
    ),
    (Step::Line(0), &[("where ", Hole(2))]),
    (Step::Line(0), &[("{", Nothing)]),
    (
        Step::Line(0),
        &[
            ("fn to_triple(self) -> Result<(", Hole(3)),
            ("), ", Prefix),
            ("lalrpop_util::ParseError<", Hole(4)),
            (">> {", Nothing),
        ],
    ),
    (Step::Line(0), &[("Ok(self)", Nothing)]),
    (Step::Line(0), &[("}", Nothing)]),
    (Step::Line(0), &[("}", Nothing)]),
    (
        Step::Line(0),
        &[
            ("impl<", Hole(1)),
            ("> ", Prefix),
            ("ToTriple<", Hole(1)),
            ("> for Result<(", Hole(5)),
            ("), ", Hole(6)),
            (">", Nothing),
        ],
    ),
    (Step::Line(0), &[("where ", Hole(2))]),
    (Step::Line(0), &[("{", Nothing)]),
    (
        Step::Line(0),
        &[
            ("fn to_triple(self) -> Result<(", Hole(3)),
            ("), ", Prefix),
            ("lalrpop_util::ParseError<", Hole(4)),
            (">> {", Nothing),
        ],
    ),
    (
        Step::Line(0),
        &[
            ("self.map_err(|error| ", Prefix),
            ("lalrpop_util::ParseError::User { error })", Nothing),
        ],
    ),
    (Step::Line(0), &[("}", Nothing)]),
    (Step::Line(0), &[("}", Nothing)]),
];

/// The holes of `TO_TRIPLE_LOCATED_WHERE`: visibility, type parameters, where clauses, types of
/// the returned triple, types of the returned error, types of a located token, error type.
pub const TO_TRIPLE_LOCATED_WHERE_HOLES: &[Kind] = &[
    Kind::Visibility,
    Kind::Text,
    Kind::Text,
    Kind::Text,
    Kind::Text,
    Kind::Text,
    Kind::Text,
];

/// The trait that makes triples of tokens with locations.
pub const TO_TRIPLE_LOCATED: &[Line] = &[
    (
        Step::Line(0),
        &[
            ("", Hole(0)),
            ("trait ", Prefix),
            ("ToTriple<", Hole(1)),
            (">", Nothing),
        ],
    ),
    (Step::Line(0), &[("{", Nothing)]),
    (
        Step::Line(0),
        &[
            ("fn to_triple(self) -> Result<(", Hole(2)),
            ("), ", Prefix),
            ("lalrpop_util::ParseError<", Hole(3)),
            (">>;", Nothing),
        ],
    ),
    (Step::Line(0), &[("}", Nothing)]),
    (Step::Empty, NO_PARTS),
    (
        Step::Line(0),
        &[
            ("impl<", Hole(1)),
            ("> ", Prefix),
            ("ToTriple<", Hole(1)),
            ("> for (", Hole(4)),
            (")", Nothing),
        ],
    ),
    (Step::Line(0), &[("{", Nothing)]),
    (
        Step::Line(0),
        &[
            ("fn to_triple(self) -> Result<(", Hole(2)),
            ("), ", Prefix),
            ("lalrpop_util::ParseError<", Hole(3)),
            (">> {", Nothing),
        ],
    ),
    (Step::Line(0), &[("Ok(self)", Nothing)]),
    (Step::Line(0), &[("}", Nothing)]),
    (Step::Line(0), &[("}", Nothing)]),
    (
        Step::Line(0),
        &[
            ("impl<", Hole(1)),
            ("> ", Prefix),
            ("ToTriple<", Hole(1)),
            ("> for Result<(", Hole(4)),
            ("), ", Hole(5)),
            (">", Nothing),
        ],
    ),
    (Step::Line(0), &[("{", Nothing)]),
    (
        Step::Line(0),
        &[
            ("fn to_triple(self) -> Result<(", Hole(2)),
            ("), ", Prefix),
            ("lalrpop_util::ParseError<", Hole(3)),
            (">> {", Nothing),
        ],
    ),
    (
        Step::Line(0),
        &[
            ("self.map_err(|error| ", Prefix),
            ("lalrpop_util::ParseError::User { error })", Nothing),
        ],
    ),
    (Step::Line(0), &[("}", Nothing)]),
    (Step::Line(0), &[("}", Nothing)]),
];

/// The holes of `TO_TRIPLE_LOCATED`: visibility, type parameters, types of the returned triple,
/// types of the returned error, types of a located token, error type.
pub const TO_TRIPLE_LOCATED_HOLES: &[Kind] = &[
    Kind::Visibility,
    Kind::Text,
    Kind::Text,
    Kind::Text,
    Kind::Text,
    Kind::Text,
];

/// The trait that makes triples of tokens without locations, with where clauses.
pub const TO_TRIPLE_PLAIN_WHERE: &[Line] = &[
    (
        Step::Line(0),
        &[
            ("", Hole(0)),
            ("trait ", Prefix),
            ("ToTriple<", Hole(1)),
            (">", Nothing),
        ],
    ),
    (Step::Line(0), &[("where ", Hole(2))]),
    (Step::Line(0), &[("{", Nothing)]),
    (
        Step::Line(0),
        &[
            ("fn to_triple(self) -> Result<(", Hole(3)),
            ("), ", Prefix),
            ("lalrpop_util::ParseError<", Hole(4)),
            (">>;", Nothing),
        ],
    ),
    (Step::Line(0), &[("}", Nothing)]),
    (Step::Empty, NO_PARTS),
    (
        Step::Line(0),
        &[
            ("impl<", Hole(1)),
            ("> ", Prefix),
            ("ToTriple<", Hole(1)),
            ("> for ", Hole(5)),
        ],
    ),
    (Step::Line(0), &[("where ", Hole(2))]),
    (Step::Line(0), &[("{", Nothing)]),
    (
        Step::Line(0),
        &[
            ("fn to_triple(self) -> Result<(", Hole(3)),
            ("), ", Prefix),
            ("lalrpop_util::ParseError<", Hole(4)),
            (">> {", Nothing),
        ],
    ),
    (Step::Line(0), &[("Ok(((), self, ()))", Nothing)]),
    (Step::Line(0), &[("}", Nothing)]),
    (Step::Line(0), &[("}", Nothing)]),
    (
        Step::Line(0),
        &[
            ("impl<", Hole(1)),
            ("> ", Prefix),
            ("ToTriple<", Hole(1)),
            ("> for Result<", Hole(5)),
            (",", Hole(6)),
            (">", Nothing),
        ],
    ),
    (Step::Line(0), &[("where ", Hole(2))]),
    (Step::Line(0), &[("{", Nothing)]),
    (
        Step::Line(0),
        &[
            ("fn to_triple(self) -> Result<(", Hole(3)),
            ("), ", Prefix),
            ("lalrpop_util::ParseError<", Hole(4)),
            (">> {", Nothing),
        ],
    ),
    (Step::Line(0), &[("match self {", Nothing)]),
    (Step::Line(0), &[("Ok(v) => Ok(((), v, ())),", Nothing)]),
    (
        Step::Line(0),
        &[
            ("Err(error) => Err(", Prefix),
            ("lalrpop_util::ParseError::User { error }),", Nothing),
        ],
    ),
    (Step::Line(0), &[("}", Nothing)]),
    (Step::Line(0), &[("}", Nothing)]),
    (Step::Line(0), &[("}", Nothing)]),
];

/// The holes of `TO_TRIPLE_PLAIN_WHERE`: visibility, type parameters, where clauses, types of
/// the returned triple, types of the returned error, token type, error type.
pub const TO_TRIPLE_PLAIN_WHERE_HOLES: &[Kind] = &[
    Kind::Visibility,
    Kind::Text,
    Kind::Text,
    Kind::Text,
    Kind::Text,
    Kind::Text,
    Kind::Text,
];

/// The trait that makes triples of tokens without locations.
pub const TO_TRIPLE_PLAIN: &[Line] = &[
    (
        Step::Line(0),
        &[
            ("", Hole(0)),
            ("trait ", Prefix),
            ("ToTriple<", Hole(1)),
            (">", Nothing),
        ],
    ),
    (Step::Line(0), &[("{", Nothing)]),
    (
        Step::Line(0),
        &[
            ("fn to_triple(self) -> Result<(", Hole(2)),
            ("), ", Prefix),
            ("lalrpop_util::ParseError<", Hole(3)),
            (">>;", Nothing),
        ],
    ),
    (Step::Line(0), &[("}", Nothing)]),
    (Step::Empty, NO_PARTS),
    (
        Step::Line(0),
        &[
            ("impl<", Hole(1)),
            ("> ", Prefix),
            ("ToTriple<", Hole(1)),
            ("> for ", Hole(4)),
        ],
    ),
    (Step::Line(0), &[("{", Nothing)]),
    (
        Step::Line(0),
        &[
            ("fn to_triple(self) -> Result<(", Hole(2)),
            ("), ", Prefix),
            ("lalrpop_util::ParseError<", Hole(3)),
            (">> {", Nothing),
        ],
    ),
    (Step::Line(0), &[("Ok(((), self, ()))", Nothing)]),
    (Step::Line(0), &[("}", Nothing)]),
    (Step::Line(0), &[("}", Nothing)]),
    (
        Step::Line(0),
        &[
            ("impl<", Hole(1)),
            ("> ", Prefix),
            ("ToTriple<", Hole(1)),
            ("> for Result<", Hole(4)),
            (",", Hole(5)),
            (">", Nothing),
        ],
    ),
    (Step::Line(0), &[("{", Nothing)]),
    (
        Step::Line(0),
        &[
            ("fn to_triple(self) -> Result<(", Hole(2)),
            ("), ", Prefix),
            ("lalrpop_util::ParseError<", Hole(3)),
            (">> {", Nothing),
        ],
    ),
    (Step::Line(0), &[("match self {", Nothing)]),
    (Step::Line(0), &[("Ok(v) => Ok(((), v, ())),", Nothing)]),
    (
        Step::Line(0),
        &[
            ("Err(error) => Err(", Prefix),
            ("lalrpop_util::ParseError::User { error }),", Nothing),
        ],
    ),
    (Step::Line(0), &[("}", Nothing)]),
    (Step::Line(0), &[("}", Nothing)]),
    (Step::Line(0), &[("}", Nothing)]),
];

/// The holes of `TO_TRIPLE_PLAIN`: visibility, type parameters, types of the returned triple,
/// types of the returned error, token type, error type.
pub const TO_TRIPLE_PLAIN_HOLES: &[Kind] = &[
    Kind::Visibility,
    Kind::Text,
    Kind::Text,
    Kind::Text,
    Kind::Text,
    Kind::Text,
];
