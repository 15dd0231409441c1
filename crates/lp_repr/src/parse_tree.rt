//! What a grammar file says of names, bounds and visibilities.

ghost use Rattle.std.specs.Prelude.{◌++◌, Some, codes, refl};
ghost use Rattle.std.specs.Fmt.{WritesOnOk};
ghost use Rattle.lp_repr.specs.Shown.{parameter_text, path_text, visibility_text, binder_text};
ghost use Rattle.lp_repr.specs.ShownTypes.{parameters_text, ret_text, arguments_text, bound_parameter_text, bound_text, file_clause_text};

use crate::joined::{Shown, write_joined};
use crate::text::{Items, Text};
use std::fmt;
use std::fmt::Display;

/// A path, as `a::b`; an absolute one begins with `::`.
#[derive(Clone, PartialEq, Eq, PartialOrd, Ord, Drop)]
pub struct Path {
    pub absolute: bool,
    pub ids: Items<Text>,
}

/// A type parameter of a grammar. A lifetime's text has its `'`.
#[derive(Clone, PartialEq, Eq, PartialOrd, Ord, Drop)]
pub enum TypeParameter {
    Lifetime(Text),
    Id(Text),
}

/// `pub`, `pub(path)` or nothing.
#[derive(Clone, PartialEq, Eq, Drop)]
pub enum Visibility {
    Pub(Option<Path>),
    Priv,
}

/// A bound of a type.
#[derive(Clone, Drop)]
pub enum TypeBound<T> {
    Lifetime(Text),
    Fn {
        binder: Items<TypeParameter>,
        path: Path,
        parameters: Items<T>,
        ret: Option<T>,
    },
    Trait {
        binder: Items<TypeParameter>,
        path: Path,
        parameters: Items<TypeBoundParameter<T>>,
    },
}

/// An argument of a bound's path.
#[derive(Clone, Drop)]
pub enum TypeBoundParameter<T> {
    Lifetime(Text),
    TypeParameter(T),
    Associated(Text, T),
}

/// A where clause as a grammar file has it.
#[derive(Clone, Drop)]
pub enum WhereClause<T> {
    Lifetime {
        lifetime: Text,
        bounds: Items<Text>,
    },
    Bounded {
        binder: Items<TypeParameter>,
        ty: T,
        bounds: Items<TypeBound<T>>,
    },
}

impl fmt::Display for Path {
    ghost output = { λ x. Some (path_text x) };

    /// `a::b` or `::a::b`.
    fn fmt<W: fmt::Write>(&self, f: &mut fmt::Formatter<W>) -> fmt::Result {
        if self.absolute {
            f.write_str("::")?;
        }
        write_joined(f, self.ids.as_slice(), "::")
    }
}

impl fmt::Display for TypeParameter {
    ghost output = { λ x. Some (parameter_text x) };

    fn fmt<W: fmt::Write>(&self, f: &mut fmt::Formatter<W>) -> fmt::Result {
        match self {
            TypeParameter::Lifetime(name) => name.fmt(f),
            TypeParameter::Id(name) => name.fmt(f),
        }
    }
}

impl fmt::Display for Visibility {
    ghost output = { λ x. Some (visibility_text x) };

    /// `pub `, `pub(path) ` or nothing.
    fn fmt<W: fmt::Write>(&self, f: &mut fmt::Formatter<W>) -> fmt::Result {
        match self {
            Visibility::Pub(None) => f.write_str("pub "),
            Visibility::Pub(Some(path)) => {
                f.write_str("pub(")?;
                path.fmt(f)?;
                f.write_str(") ")
            }
            Visibility::Priv => Ok(()),
        }
    }
}

/// `for<'a, T> `, or nothing where the binder names none.
pub(crate) fn write_binder<W: fmt::Write>(
    f: &mut fmt::Formatter<W>,
    binder: &[TypeParameter],
) -> fmt::Result
    ensures { WritesOnOk W.write_str_gives f.old result (binder_text binder.now) f.new }
{
    if binder.is_empty() {
        return Ok(());
    }
    f.write_str("for<")?;
    write_joined(f, binder, ", ")?;
    f.write_str("> ")
}

impl<T: Shown> fmt::Display for TypeBound<T> {
    ghost output = { λ x. Some (bound_text T.text x) };

    /// `'a`, `for<'a> p(A) -> B` or `for<'a> p<A, I = B>`.
    fn fmt<W: fmt::Write>(&self, f: &mut fmt::Formatter<W>) -> fmt::Result {
        match self {
            TypeBound::Lifetime(name) => name.fmt(f),
            TypeBound::Fn {
                binder,
                path,
                parameters,
                ret,
            } => {
                write_binder(f, binder.as_slice())?;
                path.fmt(f)?;
                write_parameters(f, parameters.as_slice())?;
                write_ret(f, ret)
            }
            TypeBound::Trait {
                binder,
                path,
                parameters,
            } => {
                write_binder(f, binder.as_slice())?;
                path.fmt(f)?;
                write_arguments(f, parameters.as_slice())
            }
        }
    }
}

/// `(A, B)`
fn write_parameters<W: fmt::Write, T: Shown>(
    f: &mut fmt::Formatter<W>,
    parameters: &[T],
) -> fmt::Result
    ensures { WritesOnOk W.write_str_gives f.old result (parameters_text T.text parameters.now) f.new }
{
    f.write_str("(")?;
    write_joined(f, parameters, ", ")?;
    f.write_str(")")
}

/// ` -> C`, or nothing.
fn write_ret<W: fmt::Write, T: Shown>(f: &mut fmt::Formatter<W>, ret: &Option<T>) -> fmt::Result
    ensures { WritesOnOk W.write_str_gives f.old result (ret_text T.text ret.now) f.new }
{
    match ret {
        None => Ok(()),
        Some(ret) => {
            f.write_str(" -> ")?;
            ret.fmt(f)
        }
    }
}

/// `<A, B>`, or nothing for no arguments.
fn write_arguments<W: fmt::Write, T: Shown>(
    f: &mut fmt::Formatter<W>,
    arguments: &[T],
) -> fmt::Result
    ensures { WritesOnOk W.write_str_gives f.old result (arguments_text T.text arguments.now) f.new }
{
    if arguments.is_empty() {
        return Ok(());
    }
    f.write_str("<")?;
    write_joined(f, arguments, ", ")?;
    f.write_str(">")
}

impl<T: Shown> fmt::Display for TypeBoundParameter<T> {
    ghost output = { λ x. Some (bound_parameter_text T.text x) };

    /// `'a`, `A` or `I = B`.
    fn fmt<W: fmt::Write>(&self, f: &mut fmt::Formatter<W>) -> fmt::Result {
        match self {
            TypeBoundParameter::Lifetime(name) => name.fmt(f),
            TypeBoundParameter::TypeParameter(ty) => ty.fmt(f),
            TypeBoundParameter::Associated(name, ty) => {
                name.fmt(f)?;
                f.write_str(" = ")?;
                ty.fmt(f)
            }
        }
    }
}

impl<T: Shown> fmt::Display for WhereClause<T> {
    ghost output = { λ x. Some (file_clause_text T.text x) };

    /// `'a: 'b + 'c` or `for<'a> A: x + y`.
    fn fmt<W: fmt::Write>(&self, f: &mut fmt::Formatter<W>) -> fmt::Result {
        match self {
            WhereClause::Lifetime { lifetime, bounds } => {
                lifetime.fmt(f)?;
                f.write_str(": ")?;
                write_joined(f, bounds.as_slice(), " + ")
            }
            WhereClause::Bounded { binder, ty, bounds } => {
                write_binder(f, binder.as_slice())?;
                ty.fmt(f)?;
                f.write_str(": ")?;
                write_joined(f, bounds.as_slice(), " + ")
            }
        }
    }
}

impl Shown for TypeParameter {
    ghost text = { parameter_text };

    ghost shows = { λ _. refl };
}

impl<T: Shown> Shown for TypeBoundParameter<T> {
    ghost text = { bound_parameter_text T.text };

    ghost shows = { λ _. refl };
}

impl<T: Shown> Shown for TypeBound<T> {
    ghost text = { bound_text T.text };

    ghost shows = { λ _. refl };
}

impl<T: Shown> Shown for WhereClause<T> {
    ghost text = { file_clause_text T.text };

    ghost shows = { λ _. refl };
}
