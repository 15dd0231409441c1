//! The lowered grammar.

ghost use Rattle.std.specs.Prelude.{◌++◌, Some, refl, codes, decimal};
ghost use Rattle.std.specs.Fmt.{WritesOnOk};
ghost use Rattle.std.specs.List.{join_by};
ghost use Rattle.lp_repr.specs.Shown.{terminal_text, symbol_text, production_text, pattern_text};
ghost use Rattle.lp_repr.specs.ShownTypes.{tuple_text, parameters_text, ret_text, arguments_text, reference_text, fn_head_text, type_text, nominal_text, clause_text};

use crate::escaped::Escaped;
use crate::joined::{Shown, write_joined};
use crate::parse_tree::{Path, TypeBound, TypeParameter, Visibility, write_binder};
use crate::text::{Items, Text};
use std::collections::BTreeMap;
use std::fmt;
use std::fmt::Display;

/// A lowered grammar: productions over terminals and nonterminals, and the actions of their
/// reductions.
#[derive(Drop)]
pub struct Grammar {
    /// In front of each name that the emitted text makes itself.
    pub prefix: Text,
    pub algorithm: Algorithm,
    /// The error terminal is used.
    pub uses_error_recovery: bool,
    /// From each public name to its start nonterminal.
    pub start_nonterminals: BTreeMap<NonterminalString, NonterminalString>,
    /// The texts between `use` and `;`.
    pub uses: Items<Text>,
    pub type_parameters: Items<TypeParameter>,
    pub parameters: Items<Parameter>,
    pub where_clauses: Items<WhereClause>,
    /// How the tokens of a grammar without an enum of its own are made.
    pub intern_token: Option<InternToken>,
    /// The actions, by number.
    pub action_fn_defns: Items<ActionFnDefn>,
    pub terminals: TerminalSet,
    pub nonterminals: BTreeMap<NonterminalString, NonterminalData>,
    /// From each terminal but the error terminal to its pattern.
    pub conversions: BTreeMap<TerminalString, TokenPattern>,
    pub types: Types,
    pub module_attributes: Items<Text>,
}

/// How the tables are made, and which code.
#[derive(Clone, Copy)]
pub struct Algorithm {
    pub lalr: bool,
    pub codegen: LrCodeGeneration,
}

/// Which back end writes the parsers; `TestAll` is both side by side, for tests of the back ends.
#[derive(Clone, Copy)]
pub enum LrCodeGeneration {
    TableDriven,
    RecursiveAscent,
    TestAll,
}

/// The name of a nonterminal. Inlined and generated ones have the names that the grammar printed them
/// with, such as `("," T)*`.
#[derive(Clone, PartialEq, Eq, PartialOrd, Ord, Drop)]
pub struct NonterminalString(pub Text);

/// A terminal as the grammar writes it.
#[derive(Clone, PartialEq, Eq, PartialOrd, Ord, Drop)]
pub enum TerminalString {
    /// A string literal, without its quotes and with its escapes applied.
    Quoted(Text),
    Bare(Text),
    /// The error terminal.
    Error,
}

/// What a production is made of.
#[derive(Clone, PartialEq, Eq, PartialOrd, Ord, Drop)]
pub enum Symbol {
    Nonterminal(NonterminalString),
    Terminal(TerminalString),
}

/// The terminals by number; the error terminal is the last where it is used.
#[derive(Drop)]
pub struct TerminalSet {
    pub all: Items<TerminalString>,
}

/// A nonterminal that the grammar defines: who may call its parser where it is a start, and its
/// productions in the order of the grammar.
#[derive(Drop)]
pub struct NonterminalData {
    pub visibility: Visibility,
    pub productions: Items<Production>,
}

/// `nonterminal = symbols`: a way to derive a nonterminal, and the action that makes its value.
#[derive(Clone, Drop)]
pub struct Production {
    pub nonterminal: NonterminalString,
    pub symbols: Items<Symbol>,
    /// The number of its action.
    pub action: usize,
}

/// A parameter of the emitted parsers.
#[derive(Clone, Drop)]
pub struct Parameter {
    pub name: Text,
    pub ty: TypeRepr,
}

/// The generated lexer: the regular expressions of its tokens, the earlier winning over the later where
/// both match as much.
#[derive(Drop)]
pub struct InternToken {
    pub match_entries: Items<MatchEntry>,
}

/// A regular expression of a token, and whether its matches are skipped.
#[derive(Drop)]
pub struct MatchEntry {
    pub regex: Text,
    pub skip: bool,
}

/// An action: what a reduction calls.
#[derive(Drop)]
pub struct ActionFnDefn {
    pub fallible: bool,
    pub ret_type: TypeRepr,
    pub kind: ActionFnDefnKind,
}

/// What an action function does.
#[derive(Drop)]
pub enum ActionFnDefnKind {
    /// User code over the values of its symbols.
    User {
        arg_patterns: Items<Text>,
        arg_types: Items<TypeRepr>,
        code: Text,
    },
    /// The location of the lookahead, or the one behind.
    Lookaround(LookaroundActionFn),
    /// An action some of whose symbols are inlined actions.
    Inline {
        action: usize,
        symbols: Items<InlinedSymbol>,
    },
}

/// Which location a lookaround answers: `@L` is the start of the lookahead, `@R` the end of the token
/// before it.
#[derive(Clone, Copy)]
pub enum LookaroundActionFn {
    Lookahead,
    Lookbehind,
}

/// A symbol of an action that inlines others: one of the production itself, or the value of an action.
#[derive(Drop)]
pub enum InlinedSymbol {
    Original(Symbol),
    /// An action that runs first, on these symbols.
    Inlined(usize, Items<Symbol>),
}

/// The types of the symbols, of locations, tokens and errors.
#[derive(Drop)]
pub struct Types {
    pub loc: Option<TypeRepr>,
    pub token: TypeRepr,
    pub error: Option<TypeRepr>,
    pub terminals: BTreeMap<TerminalString, TypeRepr>,
    pub nonterminals: BTreeMap<NonterminalString, TypeRepr>,
}

/// A pattern of a token: pieces of text, with a hole between each two.
#[derive(Clone, Drop)]
pub struct TokenPattern {
    pub pieces: Items<Text>,
    /// The types of what the holes capture.
    pub holes: Items<TypeRepr>,
}

/// A type of Rust.
#[derive(PartialEq, Eq, PartialOrd, Ord, Drop)]
#[cycle(types)]
pub enum TypeRepr {
    Tuple(Vec<TypeRepr>),
    Slice(Box<TypeRepr>),
    Nominal(NominalTypeRepr),
    Associated {
        type_parameter: String,
        id: String,
    },
    TraitObject(NominalTypeRepr),
    Lifetime(String),
    Ref {
        lifetime: Option<String>,
        mutable: bool,
        referent: Box<TypeRepr>,
    },
    Fn {
        binder: Vec<TypeParameter>,
        path: Path,
        parameters: Vec<TypeRepr>,
        ret: Option<Box<TypeRepr>>,
    },
}

/// A path with its arguments.
#[derive(PartialEq, Eq, PartialOrd, Ord, Drop)]
#[cycle(types)]
pub struct NominalTypeRepr {
    pub path: Path,
    pub types: Vec<TypeRepr>,
}

/// One bound of a type or a lifetime.
#[derive(Drop)]
pub enum WhereClause {
    Forall {
        binder: Vec<TypeParameter>,
        clause: Box<WhereClause>,
    },
    Bound {
        subject: TypeRepr,
        bound: TypeBound<TypeRepr>,
    },
}

impl fmt::Display for NonterminalString {
    ghost output = { λ x. Some (x.0) };

    fn fmt<W: fmt::Write>(&self, f: &mut fmt::Formatter<W>) -> fmt::Result {
        self.0.fmt(f)
    }
}

impl fmt::Display for TerminalString {
    ghost output = { λ x. Some (terminal_text x) };

    /// A quoted one as a literal, a bare one as it is, the error terminal as `error`.
    fn fmt<W: fmt::Write>(&self, f: &mut fmt::Formatter<W>) -> fmt::Result {
        match self {
            TerminalString::Quoted(text) => Escaped(text.as_str()).fmt(f),
            TerminalString::Bare(name) => name.fmt(f),
            TerminalString::Error => f.write_str("error"),
        }
    }
}

impl fmt::Display for Symbol {
    ghost output = { λ x. Some (symbol_text x) };

    fn fmt<W: fmt::Write>(&self, f: &mut fmt::Formatter<W>) -> fmt::Result {
        match self {
            Symbol::Nonterminal(name) => name.fmt(f),
            Symbol::Terminal(terminal) => terminal.fmt(f),
        }
    }
}

impl Shown for Symbol {
    ghost text = { symbol_text };

    ghost shows = { λ _. refl };
}

impl fmt::Display for Production {
    ghost output = { λ x. Some (production_text x) };

    /// `N = s, t => ActionFn(a);`
    fn fmt<W: fmt::Write>(&self, f: &mut fmt::Formatter<W>) -> fmt::Result {
        self.nonterminal.fmt(f)?;
        f.write_str(" = ")?;
        write_joined(f, self.symbols.as_slice(), ", ")?;
        write_action(f, self.action)
    }
}

/// ` => ActionFn(a);`
fn write_action<W: fmt::Write>(f: &mut fmt::Formatter<W>, action: usize) -> fmt::Result
    ensures { WritesOnOk W.write_str_gives f.old result (codes " => ActionFn(" ++ (decimal action ++ codes ");")) f.new }
{
    f.write_str(" => ActionFn(")?;
    action.fmt(f)?;
    f.write_str(");")
}

impl fmt::Display for TokenPattern {
    ghost output = { λ x. Some (pattern_text x) };

    /// The pieces, with `_` in the holes.
    fn fmt<W: fmt::Write>(&self, f: &mut fmt::Formatter<W>) -> fmt::Result {
        write_joined(f, self.pieces.as_slice(), "_")
    }
}

impl fmt::Display for TypeRepr {
    ghost output = { λ x. Some (type_text x) };

    /// `(A, B)`, `(A,)`, `[A]`, `p::q<A, B>`, `T::I`, `dyn p<A>`, `'a`, `&'a mut A` or
    /// `dyn for<'a> p(A) -> B`.
    #[cycle(type_fmt)]
    fn fmt<W: fmt::Write>(&self, f: &mut fmt::Formatter<W>) -> fmt::Result {
        match self {
            TypeRepr::Tuple(types) => write_tuple(f, types.as_slice()),
            TypeRepr::Slice(element) => {
                f.write_str("[")?;
                (**element).fmt(f)?;
                f.write_str("]")
            }
            TypeRepr::Nominal(nominal) => nominal.fmt(f),
            TypeRepr::Associated { type_parameter, id } => {
                f.write_str(type_parameter.as_str())?;
                f.write_str("::")?;
                f.write_str(id.as_str())
            }
            TypeRepr::TraitObject(nominal) => {
                f.write_str("dyn ")?;
                nominal.fmt(f)
            }
            TypeRepr::Lifetime(name) => f.write_str(name.as_str()),
            TypeRepr::Ref {
                lifetime,
                mutable,
                referent,
            } => {
                write_reference(f, lifetime, *mutable)?;
                (**referent).fmt(f)
            }
            TypeRepr::Fn {
                binder,
                path,
                parameters,
                ret,
            } => {
                write_fn_head(f, binder, path)?;
                write_parameters(f, parameters)?;
                write_ret(f, ret)
            }
        }
    }
}

/// `dyn for<'a> p`
fn write_fn_head<W: fmt::Write>(
    f: &mut fmt::Formatter<W>,
    binder: &Vec<TypeParameter>,
    path: &Path,
) -> fmt::Result
    ensures { WritesOnOk W.write_str_gives f.old result (fn_head_text binder.now.items path.now) f.new }
{
    f.write_str("dyn ")?;
    write_binder(f, binder.as_slice())?;
    path.fmt(f)
}

/// `(A, B)`
#[cycle(type_fmt)]
fn write_parameters<W: fmt::Write>(
    f: &mut fmt::Formatter<W>,
    parameters: &Vec<TypeRepr>,
) -> fmt::Result
    ensures { WritesOnOk W.write_str_gives f.old result (parameters_text type_text parameters.now.items) f.new }
{
    f.write_str("(")?;
    write_types(f, parameters.as_slice())?;
    f.write_str(")")
}

/// ` -> C`, or nothing.
#[cycle(type_fmt)]
fn write_ret<W: fmt::Write>(f: &mut fmt::Formatter<W>, ret: &Option<Box<TypeRepr>>) -> fmt::Result
    ensures { WritesOnOk W.write_str_gives f.old result (ret_text (λ b. type_text b.value) ret.now) f.new }
{
    match ret {
        None => Ok(()),
        Some(ret) => {
            f.write_str(" -> ")?;
            (**ret).fmt(f)
        }
    }
}

/// `&`, `&'a `, `&mut ` or `&'a mut `.
fn write_reference<W: fmt::Write>(
    f: &mut fmt::Formatter<W>,
    lifetime: &Option<String>,
    mutable: bool,
) -> fmt::Result
    ensures { WritesOnOk W.write_str_gives f.old result (reference_text lifetime.now mutable) f.new }
{
    f.write_str("&")?;
    if let Some(name) = lifetime {
        f.write_str(name.as_str())?;
        f.write_str(" ")?;
    }
    if mutable { f.write_str("mut ") } else { Ok(()) }
}

/// `(A, B)`, or `(A,)` for one type.
#[cycle(type_fmt)]
fn write_tuple<W: fmt::Write>(f: &mut fmt::Formatter<W>, types: &[TypeRepr]) -> fmt::Result
    ensures { WritesOnOk W.write_str_gives f.old result (tuple_text type_text types.now) f.new }
{
    f.write_str("(")?;
    write_types(f, types)?;
    f.write_str(if types.len() == 1 { ",)" } else { ")" })
}

/// The types, joined by `, `.
#[cycle(type_fmt)]
fn write_types<W: fmt::Write>(f: &mut fmt::Formatter<W>, types: &[TypeRepr]) -> fmt::Result
    ensures { WritesOnOk W.write_str_gives f.old result (join_by type_text (codes ", ") types.now) f.new }
{
    let mut separator = "";
    for ty in types {
        f.write_str(separator)?;
        ty.fmt(f)?;
        separator = ", ";
    }
    Ok(())
}

/// `<A, B>`, or nothing for no arguments.
#[cycle(type_fmt)]
fn write_arguments<W: fmt::Write>(f: &mut fmt::Formatter<W>, types: &[TypeRepr]) -> fmt::Result
    ensures { WritesOnOk W.write_str_gives f.old result (arguments_text type_text types.now) f.new }
{
    if types.is_empty() {
        return Ok(());
    }
    f.write_str("<")?;
    write_types(f, types)?;
    f.write_str(">")
}

impl fmt::Display for NominalTypeRepr {
    ghost output = { λ x. Some (nominal_text x) };

    /// `p::q<A, B>`, or the path alone without arguments.
    #[cycle(type_fmt)]
    fn fmt<W: fmt::Write>(&self, f: &mut fmt::Formatter<W>) -> fmt::Result {
        self.path.fmt(f)?;
        write_arguments(f, self.types.as_slice())
    }
}

impl Shown for TypeRepr {
    ghost text = { type_text };

    ghost shows = { λ _. refl };
}

impl fmt::Display for WhereClause {
    ghost output = { λ x. Some (clause_text x) };

    /// `for<'a> c` or `A: bound`.
    fn fmt<W: fmt::Write>(&self, f: &mut fmt::Formatter<W>) -> fmt::Result {
        match self {
            WhereClause::Forall { binder, clause } => {
                f.write_str("for<")?;
                write_joined(f, binder.as_slice(), ", ")?;
                f.write_str("> ")?;
                (**clause).fmt(f)
            }
            WhereClause::Bound { subject, bound } => {
                subject.fmt(f)?;
                f.write_str(": ")?;
                bound.fmt(f)
            }
        }
    }
}

impl Shown for NonterminalString {
    ghost text = { λ x. x.0 };

    ghost shows = { λ _. refl };
}

impl Shown for TerminalString {
    ghost text = { terminal_text };

    ghost shows = { λ _. refl };
}

impl Shown for Production {
    ghost text = { production_text };

    ghost shows = { λ _. refl };
}

impl Shown for WhereClause {
    ghost text = { clause_text };

    ghost shows = { λ _. refl };
}
