//! The values of a parse: locations, tokens, terms, events and outcomes.

ghost use Rattle.std.specs.Prelude.{◌++◌, Some, refl, codes, decimal};
ghost use Rattle.std.specs.List.{join_by};
ghost use Rattle.std.specs.Fmt.{WritesOnOk};
ghost use Rattle.lp_repr.specs.Escapes.{escaped_text};
ghost use Rattle.lp_repr.specs.ShownValues.{loc_text, payloads_text, given_text, token_text, spanned_text, spanned_list_text, list_text, result_text, user_error_text, error_text, recovery_text, term_text, place_text, call_text, event_text, outcome_text};

use crate::escaped::Escaped;
use crate::joined::{Shown, write_joined};
use crate::text::{Items, Text};
use std::fmt;
use std::fmt::Display;

/// A location of the input.
#[derive(Clone, Copy)]
pub enum Loc {
    /// The default of the location type.
    Default,
    At(u64),
}

/// A token: the text of its pattern with `_` in the holes, and what the holes capture. The form
/// of a token of no terminal is empty.
#[derive(Clone, Drop)]
pub struct TokenValue {
    pub form: Text,
    pub payloads: Items<Text>,
}

/// What a token source gives.
#[derive(Clone, Drop)]
pub enum RunItem {
    Token(Loc, TokenValue, Loc),
    /// An error of the lexer, by name.
    Fault(Text),
}

/// A token with its span.
pub type SpannedToken = (Loc, TokenValue, Loc);

/// A symbol's value with its span.
pub type SpannedTerm = (Loc, Term, Loc);

/// The value of a symbol.
#[derive(Clone, Drop)]
pub enum Term {
    /// What the one hole of a token's pattern captured.
    Payload(Text),
    Token(TokenValue),
    /// What the holes of a token's pattern captured.
    Tuple(Items<Text>),
    Location(Loc),
    /// The result of the call of this number.
    Result(u64),
    Recovered(Box<Recovery>),
}

/// What the error symbol holds.
#[derive(Clone, Drop)]
pub struct Recovery {
    pub error: RunParseError,
    pub dropped: Items<SpannedToken>,
}

/// An error that user code or the token source gives.
#[derive(Clone, Drop)]
pub enum UserError {
    /// Of the call of this number.
    Call(u64),
    /// Of the token source, by name.
    Fault(Text),
}

/// How a parse fails: over locations, tokens and user errors.
#[derive(Clone, Drop)]
pub enum ParseError<L, T, E> {
    InvalidToken {
        location: L,
    },
    UnrecognizedEof {
        location: L,
        expected: Items<Text>,
    },
    UnrecognizedToken {
        token: (L, T, L),
        expected: Items<Text>,
    },
    ExtraToken {
        token: (L, T, L),
    },
    User {
        error: E,
    },
}

/// How the parse of a run fails.
pub type RunParseError = ParseError<Loc, TokenValue, UserError>;

/// A call of user code.
#[derive(Clone, Drop)]
pub struct Event {
    /// Counted from 0.
    pub number: u64,
    pub code: Text,
    pub params: Items<Text>,
    pub args: Items<SpannedTerm>,
    /// Where it stands, if it has no arguments.
    pub place: Option<(Loc, Loc)>,
}

/// How a run ends.
#[derive(Clone, Drop)]
pub enum Outcome {
    Value(Term),
    Error(RunParseError),
    /// It had no steps left.
    Spent,
}

impl fmt::Display for Loc {
    ghost output = { λ x. Some (loc_text x) };

    /// `_` for the default.
    fn fmt<W: fmt::Write>(&self, f: &mut fmt::Formatter<W>) -> fmt::Result {
        match self {
            Loc::Default => f.write_str("_"),
            Loc::At(place) => place.fmt(f),
        }
    }
}

impl fmt::Display for TokenValue {
    ghost output = { λ x. Some (token_text x) };

    /// `<form>`, followed by `("7", "8")` where it has payloads.
    fn fmt<W: fmt::Write>(&self, f: &mut fmt::Formatter<W>) -> fmt::Result {
        f.write_str("<")?;
        self.form.fmt(f)?;
        f.write_str(">")?;
        write_given(f, self.payloads.as_slice())
    }
}

/// `("7", "8")`, or nothing for no payloads.
fn write_given<W: fmt::Write>(f: &mut fmt::Formatter<W>, payloads: &[Text]) -> fmt::Result
    ensures { WritesOnOk W.write_str_gives f.old result (given_text payloads.now) f.new }
{
    if payloads.is_empty() {
        return Ok(());
    }
    write_payloads(f, payloads)
}

/// `("7", "8")`
fn write_payloads<W: fmt::Write>(f: &mut fmt::Formatter<W>, payloads: &[Text]) -> fmt::Result
    ensures { WritesOnOk W.write_str_gives f.old result (payloads_text payloads.now) f.new }
{
    f.write_str("(")?;
    write_literals(f, payloads)?;
    f.write_str(")")
}

/// The texts as literals, joined by `, `.
fn write_literals<W: fmt::Write>(f: &mut fmt::Formatter<W>, texts: &[Text]) -> fmt::Result
    ensures { WritesOnOk W.write_str_gives f.old result (join_by escaped_text (codes ", ") texts.now) f.new }
{
    let mut separator = "";
    for text in texts {
        f.write_str(separator)?;
        Escaped(text.as_str()).fmt(f)?;
        separator = ", ";
    }
    Ok(())
}

/// `x@a-b`
fn write_spanned<W: fmt::Write, L: Shown, T: Shown>(
    f: &mut fmt::Formatter<W>,
    spanned: &(L, T, L),
) -> fmt::Result
    ensures { WritesOnOk W.write_str_gives f.old result (spanned_text L.text T.text spanned.now) f.new }
{
    let (start, value, end) = spanned;
    value.fmt(f)?;
    f.write_str("@")?;
    start.fmt(f)?;
    f.write_str("-")?;
    end.fmt(f)
}

/// `[x@a-b, y@c-d]`
fn write_spanned_list<W: fmt::Write, L: Shown, T: Shown>(
    f: &mut fmt::Formatter<W>,
    list: &[(L, T, L)],
) -> fmt::Result
    ensures { WritesOnOk W.write_str_gives f.old result (spanned_list_text L.text T.text list.now) f.new }
{
    f.write_str("[")?;
    write_each_spanned(f, list)?;
    f.write_str("]")
}

/// `x@a-b, y@c-d`
fn write_each_spanned<W: fmt::Write, L: Shown, T: Shown>(
    f: &mut fmt::Formatter<W>,
    list: &[(L, T, L)],
) -> fmt::Result
    ensures { WritesOnOk W.write_str_gives f.old result (join_by (spanned_text L.text T.text) (codes ", ") list.now) f.new }
{
    let mut separator = "";
    for spanned in list {
        f.write_str(separator)?;
        write_spanned(f, spanned)?;
        separator = ", ";
    }
    Ok(())
}

/// `[x, y]`
fn write_list<W: fmt::Write>(f: &mut fmt::Formatter<W>, list: &[Text]) -> fmt::Result
    ensures { WritesOnOk W.write_str_gives f.old result (list_text list.now) f.new }
{
    f.write_str("[")?;
    write_joined(f, list, ", ")?;
    f.write_str("]")
}

/// `#k`
fn write_result<W: fmt::Write>(f: &mut fmt::Formatter<W>, call: u64) -> fmt::Result
    ensures { WritesOnOk W.write_str_gives f.old result (result_text call) f.new }
{
    f.write_str("#")?;
    call.fmt(f)
}

impl fmt::Display for Term {
    ghost output = { λ x. Some (term_text x) };

    /// `"7"`, `<form>`, `("7", "8")`, `loc(n)`, `#k` or `recovery(error, [token@a-b])`.
    fn fmt<W: fmt::Write>(&self, f: &mut fmt::Formatter<W>) -> fmt::Result {
        match self {
            Term::Payload(text) => Escaped(text.as_str()).fmt(f),
            Term::Token(token) => token.fmt(f),
            Term::Tuple(payloads) => write_payloads(f, payloads.as_slice()),
            Term::Location(location) => {
                f.write_str("loc(")?;
                location.fmt(f)?;
                f.write_str(")")
            }
            Term::Result(call) => write_result(f, *call),
            Term::Recovered(recovery) => (**recovery).fmt(f),
        }
    }
}

impl fmt::Display for Recovery {
    ghost output = { λ x. Some (recovery_text x) };

    /// `recovery(error, [token@a-b, ..])`
    fn fmt<W: fmt::Write>(&self, f: &mut fmt::Formatter<W>) -> fmt::Result {
        f.write_str("recovery(")?;
        self.error.fmt(f)?;
        f.write_str(", ")?;
        write_spanned_list(f, self.dropped.as_slice())?;
        f.write_str(")")
    }
}

impl fmt::Display for UserError {
    ghost output = { λ x. Some (user_error_text x) };

    /// `#k`, or the name of a fault.
    fn fmt<W: fmt::Write>(&self, f: &mut fmt::Formatter<W>) -> fmt::Result {
        match self {
            UserError::Call(call) => write_result(f, *call),
            UserError::Fault(name) => name.fmt(f),
        }
    }
}

impl<L: Shown, T: Shown, E: Shown> fmt::Display for ParseError<L, T, E> {
    ghost output = { λ x. Some (error_text L.text T.text E.text x) };

    /// The name of the error, and then its token or place and its expected list.
    fn fmt<W: fmt::Write>(&self, f: &mut fmt::Formatter<W>) -> fmt::Result {
        match self {
            ParseError::InvalidToken { location } => {
                f.write_str("InvalidToken at ")?;
                location.fmt(f)
            }
            ParseError::UnrecognizedEof { location, expected } => {
                f.write_str("UnrecognizedEof at ")?;
                location.fmt(f)?;
                f.write_str(" expected ")?;
                write_list(f, expected.as_slice())
            }
            ParseError::UnrecognizedToken { token, expected } => {
                f.write_str("UnrecognizedToken ")?;
                write_spanned(f, token)?;
                f.write_str(" expected ")?;
                write_list(f, expected.as_slice())
            }
            ParseError::ExtraToken { token } => {
                f.write_str("ExtraToken ")?;
                write_spanned(f, token)
            }
            ParseError::User { error } => {
                f.write_str("User ")?;
                error.fmt(f)
            }
        }
    }
}

impl fmt::Display for Event {
    ghost output = { λ x. Some (event_text x) };

    /// `call {k} {code} params [x, y] args [t@a-b, ..]`, and ` at {a} {b}` where it has a place.
    fn fmt<W: fmt::Write>(&self, f: &mut fmt::Formatter<W>) -> fmt::Result {
        write_call(f, self.number, self.code.as_str())?;
        f.write_str(" params ")?;
        write_list(f, self.params.as_slice())?;
        f.write_str(" args ")?;
        write_spanned_list(f, self.args.as_slice())?;
        write_place(f, &self.place)
    }
}

/// `call {k} {code}`
fn write_call<W: fmt::Write>(f: &mut fmt::Formatter<W>, number: u64, code: &str) -> fmt::Result
    ensures { WritesOnOk W.write_str_gives f.old result (call_text number code.now) f.new }
{
    f.write_str("call ")?;
    number.fmt(f)?;
    f.write_str(" ")?;
    Escaped(code).fmt(f)
}

/// ` at {a} {b}`, or nothing.
fn write_place<W: fmt::Write>(f: &mut fmt::Formatter<W>, place: &Option<(Loc, Loc)>) -> fmt::Result
    ensures { WritesOnOk W.write_str_gives f.old result (place_text place.now) f.new }
{
    match place {
        None => Ok(()),
        Some((start, end)) => {
            f.write_str(" at ")?;
            start.fmt(f)?;
            f.write_str(" ")?;
            end.fmt(f)
        }
    }
}

impl fmt::Display for Outcome {
    ghost output = { λ x. Some (outcome_text x) };

    /// `value {term}`, `error {error}` or `spent`.
    fn fmt<W: fmt::Write>(&self, f: &mut fmt::Formatter<W>) -> fmt::Result {
        match self {
            Outcome::Value(term) => {
                f.write_str("value ")?;
                term.fmt(f)
            }
            Outcome::Error(error) => {
                f.write_str("error ")?;
                error.fmt(f)
            }
            Outcome::Spent => f.write_str("spent"),
        }
    }
}

impl Shown for Loc {
    ghost text = { loc_text };

    ghost shows = { λ _. refl };
}

impl Shown for TokenValue {
    ghost text = { token_text };

    ghost shows = { λ _. refl };
}

impl Shown for Term {
    ghost text = { term_text };

    ghost shows = { λ _. refl };
}

impl Shown for Recovery {
    ghost text = { recovery_text };

    ghost shows = { λ _. refl };
}

impl Shown for UserError {
    ghost text = { user_error_text };

    ghost shows = { λ _. refl };
}

impl Shown for Event {
    ghost text = { event_text };

    ghost shows = { λ _. refl };
}

impl Shown for Outcome {
    ghost text = { outcome_text };

    ghost shows = { λ _. refl };
}

impl<L: Shown, T: Shown, E: Shown> Shown for ParseError<L, T, E> {
    ghost text = { error_text L.text T.text E.text };

    ghost shows = { λ _. refl };
}
