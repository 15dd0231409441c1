//! Types and texts that don't hold the grammar's prefix.

ghost use Rattle.std.specs.Prelude.{◌≡◌, ◌==◌, ◌&&◌, ◌||◌, not, drop, length, codes, nat_eq};
ghost use Rattle.std.specs.List.{list_all, starts_with};
ghost use Rattle.lp_repr.specs.Names.{same_text};
ghost use Rattle.lp_repr.specs.Shown.{parameter_text};
ghost use Rattle.lp_valid.specs.PrefixRules.{lacks, same_type, is_unit, is_one_name, is_str, is_static, is_static_str, is_location, is_user_error, are_error_names, are_error_arguments, is_error_type, is_clear_lifetime, is_clear_reference, is_clear_binder, is_clear_head, is_clear};
ghost use Rattle.lp_valid.specs.PrefixParts.{is_clear_ret_type, is_clear_nominal};

use lp_repr::Text;
use lp_repr::parse_tree::{Path, TypeParameter};
use lp_repr::repr::{NominalTypeRepr, TypeRepr, Types};

/// The prefix, which no word that is printed for a type may hold, and the types of which the error terminal's type
/// is made, which may.
#[derive(Clone, Copy)]
pub(crate) struct Forbidden<'g> {
    pub(crate) prefix: &'g str,
    pub(crate) types: &'g Types,
}

/// Whether the prefix stands nowhere in the text.
pub(crate) fn lacks(prefix: &str, text: &str) -> bool
    ensures { result ≡ lacks prefix.now text.now }
{
    !text.contains(prefix)
}

/// Whether the text begins with the prefix.
pub(crate) fn begins(prefix: &str, text: &str) -> bool
    ensures { result ≡ starts_with nat_eq text.now prefix.now }
{
    text.starts_with(prefix)
}

/// Whether the path and the arguments are those of the error terminal's type: the prefix,
/// `lalrpop_util::ErrorRecovery`, and the types of locations, tokens and errors.
fn is_error_type(forbidden: &Forbidden<'_>, nominal: &NominalTypeRepr) -> bool
    ensures { result
        ≡ is_error_type forbidden.now.prefix.now forbidden.now.types.now nominal.now.path nominal.now.types.items }
{
    is_error_path(forbidden.prefix, &nominal.path)
        && are_error_arguments(forbidden.types, nominal.types.as_slice())
}

fn is_error_path(prefix: &str, path: &Path) -> bool
    ensures { result ≡ (not path.now.absolute && are_error_names prefix.now path.now.ids) }
{
    !path.absolute && are_error_names(prefix, path.ids.as_slice())
}

fn are_error_names(prefix: &str, names: &[Text]) -> bool
    ensures { result ≡ are_error_names prefix.now names.now }
{
    match names {
        [] => false,
        [_] => false,
        [module, name] => is_error_module(prefix, module.as_str())
            && name.as_str() == "ErrorRecovery",
        [_, _, _, ..] => false,
    }
}

fn is_error_module(prefix: &str, name: &str) -> bool
    ensures { result
        ≡ (starts_with nat_eq name.now prefix.now
        && same_text (drop (length prefix.now) name.now) (codes "lalrpop_util")) }
{
    match name.strip_prefix(prefix) {
        None => false,
        Some(rest) => rest == "lalrpop_util",
    }
}

fn are_error_arguments(types: &Types, arguments: &[TypeRepr]) -> bool
    ensures { result ≡ are_error_arguments types.now arguments.now }
{
    match arguments {
        [] => false,
        [_] => false,
        [_, _] => false,
        [location, token, error] => {
            is_location(&types.loc, location)
                && is_same(token, &types.token)
                && is_user_error(&types.error, error)
        }
        [_, _, _, _, ..] => false,
    }
}

fn is_same(ty: &TypeRepr, other: &TypeRepr) -> bool
    ensures { result ≡ same_type ty.now other.now }
{
    *ty == *other
}

/// The location type, `()` where the grammar has none.
fn is_location(location: &Option<TypeRepr>, ty: &TypeRepr) -> bool
    ensures { result ≡ is_location location.now ty.now }
{
    match location {
        None => is_unit(ty),
        Some(location) => is_same(ty, location),
    }
}

/// The error type, `&'static str` where the grammar has none.
fn is_user_error(error: &Option<TypeRepr>, ty: &TypeRepr) -> bool
    ensures { result ≡ is_user_error error.now ty.now }
{
    match error {
        None => is_static_str(ty),
        Some(error) => is_same(ty, error),
    }
}

fn is_unit(ty: &TypeRepr) -> bool
    ensures { result ≡ is_unit ty.now }
{
    match ty {
        TypeRepr::Tuple(types) => types.as_slice().is_empty(),
        TypeRepr::Slice(_) => false,
        TypeRepr::Nominal(_) => false,
        TypeRepr::TraitObject(_) => false,
        TypeRepr::Associated { .. } => false,
        TypeRepr::Lifetime(_) => false,
        TypeRepr::Ref { .. } => false,
        TypeRepr::Fn { .. } => false,
    }
}

fn is_static_str(ty: &TypeRepr) -> bool
    ensures { result ≡ is_static_str ty.now }
{
    match ty {
        TypeRepr::Tuple(_) => false,
        TypeRepr::Slice(_) => false,
        TypeRepr::Nominal(_) => false,
        TypeRepr::TraitObject(_) => false,
        TypeRepr::Associated { .. } => false,
        TypeRepr::Lifetime(_) => false,
        TypeRepr::Ref {
            lifetime,
            mutable,
            referent,
        } => !*mutable && is_static(lifetime) && is_str(referent),
        TypeRepr::Fn { .. } => false,
    }
}

fn is_static(lifetime: &Option<String>) -> bool
    ensures { result ≡ is_static lifetime.now }
{
    match lifetime {
        None => false,
        Some(name) => name.as_str() == "'static",
    }
}

fn is_str(ty: &TypeRepr) -> bool
    ensures { result ≡ is_str ty.now }
{
    match ty {
        TypeRepr::Tuple(_) => false,
        TypeRepr::Slice(_) => false,
        TypeRepr::Nominal(nominal) => is_str_path(nominal),
        TypeRepr::TraitObject(_) => false,
        TypeRepr::Associated { .. } => false,
        TypeRepr::Lifetime(_) => false,
        TypeRepr::Ref { .. } => false,
        TypeRepr::Fn { .. } => false,
    }
}

fn is_str_path(nominal: &NominalTypeRepr) -> bool
    ensures { result
        ≡ ((length nominal.now.types.items == 0)
        && (not nominal.now.path.absolute && is_one_name (codes "str") nominal.now.path.ids)) }
{
    nominal.types.as_slice().is_empty()
        && !nominal.path.absolute
        && is_one_name("str", nominal.path.ids.as_slice())
}

fn is_one_name(name: &str, names: &[Text]) -> bool
    ensures { result ≡ is_one_name name.now names.now }
{
    match names {
        [] => false,
        [one] => one.as_str() == name,
        [_, _, ..] => false,
    }
}

/// Whether no word that is printed for the type holds the prefix, except inside the error terminal's
/// type.
#[cycle(clear)]
pub(crate) fn is_clear(forbidden: &Forbidden<'_>, ty: &TypeRepr) -> bool
    ensures { result ≡ is_clear forbidden.now.prefix.now forbidden.now.types.now ty.now }
{
    match ty {
        TypeRepr::Tuple(types) => are_clear(forbidden, types.as_slice()),
        TypeRepr::Slice(element) => is_clear(forbidden, element),
        TypeRepr::Nominal(nominal) => {
            is_error_type(forbidden, nominal) || is_clear_nominal(forbidden, nominal)
        }
        TypeRepr::TraitObject(nominal) => {
            lacks(forbidden.prefix, "dyn") && is_clear_nominal(forbidden, nominal)
        }
        TypeRepr::Associated { type_parameter, id } => {
            lacks(forbidden.prefix, type_parameter.as_str()) && lacks(forbidden.prefix, id.as_str())
        }
        TypeRepr::Lifetime(name) => lacks(forbidden.prefix, name.as_str()),
        TypeRepr::Ref {
            lifetime,
            mutable,
            referent,
        } => {
            is_clear_reference(forbidden.prefix, lifetime, *mutable)
                && is_clear(forbidden, referent)
        }
        TypeRepr::Fn {
            binder,
            path,
            parameters,
            ret,
        } => {
            if !is_clear_head(forbidden.prefix, binder.as_slice(), path) {
                return false;
            }
            if !are_clear_types(forbidden, parameters) {
                return false;
            }
            is_clear_ret(forbidden, ret)
        }
    }
}

#[cycle(clear)]
fn are_clear(forbidden: &Forbidden<'_>, types: &[TypeRepr]) -> bool
    ensures { result ≡ list_all (is_clear forbidden.now.prefix.now forbidden.now.types.now) types.now }
{
    for ty in types {
        if !is_clear(forbidden, ty) {
            return false;
        }
    }
    true
}

#[cycle(clear)]
fn are_clear_types(forbidden: &Forbidden<'_>, types: &Vec<TypeRepr>) -> bool
    ensures { result
        ≡ list_all (is_clear forbidden.now.prefix.now forbidden.now.types.now) types.now.items }
{
    are_clear(forbidden, types.as_slice())
}

#[cycle(clear)]
fn is_clear_ret(forbidden: &Forbidden<'_>, ret: &Option<Box<TypeRepr>>) -> bool
    ensures { result ≡ is_clear_ret_type forbidden.now.prefix.now forbidden.now.types.now ret.now }
{
    match ret {
        None => true,
        Some(ret) => is_clear(forbidden, ret),
    }
}

#[cycle(clear)]
fn is_clear_nominal(forbidden: &Forbidden<'_>, nominal: &NominalTypeRepr) -> bool
    ensures { result ≡ is_clear_nominal forbidden.now.prefix.now forbidden.now.types.now nominal.now }
{
    are_clear_names(forbidden.prefix, nominal.path.ids.as_slice())
        && are_clear(forbidden, nominal.types.as_slice())
}

fn is_clear_lifetime(prefix: &str, lifetime: &Option<String>) -> bool
    ensures { result ≡ is_clear_lifetime prefix.now lifetime.now }
{
    match lifetime {
        None => true,
        Some(name) => lacks(prefix, name.as_str()),
    }
}

/// What is printed between `&` and a type.
fn is_clear_reference(prefix: &str, lifetime: &Option<String>, mutable: bool) -> bool
    ensures { result ≡ is_clear_reference prefix.now lifetime.now mutable }
{
    is_clear_lifetime(prefix, lifetime) && (!mutable || lacks(prefix, "mut"))
}

/// What is printed before the parameters of a function.
fn is_clear_head(prefix: &str, binder: &[TypeParameter], path: &Path) -> bool
    ensures { result ≡ is_clear_head prefix.now binder.now path.now }
{
    lacks(prefix, "dyn")
        && is_clear_binder(prefix, binder)
        && are_clear_names(prefix, path.ids.as_slice())
}

fn is_clear_binder(prefix: &str, binder: &[TypeParameter]) -> bool
    ensures { result ≡ is_clear_binder prefix.now binder.now }
{
    match binder {
        [] => true,
        [_, ..] => lacks(prefix, "for") && are_clear_parameters(prefix, binder),
    }
}

fn are_clear_names(prefix: &str, names: &[Text]) -> bool
    ensures { result ≡ list_all (lacks prefix.now) names.now }
{
    names.iter().all(|n| lacks(prefix, n.as_str()))
}

fn are_clear_parameters(prefix: &str, binder: &[TypeParameter]) -> bool
    ensures { result ≡ list_all (λ b. lacks prefix.now (parameter_text b)) binder.now }
{
    binder.iter().all(|p| is_clear_parameter(prefix, p))
}

fn is_clear_parameter(prefix: &str, parameter: &TypeParameter) -> bool
    ensures { result ≡ lacks prefix.now (parameter_text parameter.now) }
{
    match parameter {
        TypeParameter::Lifetime(name) => lacks(prefix, name.as_str()),
        TypeParameter::Id(name) => lacks(prefix, name.as_str()),
    }
}
