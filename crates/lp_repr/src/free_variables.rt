//! Free variables: the type and lifetime parameters that occur in a type or bound and that no
//! binder names.

ghost use Rattle.std.specs.Prelude.{◌≡◌, ◌++◌, [], ◌∷◌, IfOk, OnOk, string_bytes, map};
ghost use Rattle.std.specs.List.{list_any, flat_map};
ghost use Rattle.lp_repr.specs.FreeVariables.{same_parameter, declared_one, unbound, free_in_path, free_in_type, free_in_row, free_in_ret, free_in_option, free_in_bound, free_in_parameter, free_in_file_clause, free_in_clause};
ghost use Rattle.lp_repr.specs.declared.parse_tree.TypeParameter.TheVariants as kind;

use crate::parse_tree::{Path, TypeBound, TypeBoundParameter, TypeParameter};
use crate::repr::{NominalTypeRepr, TypeRepr};
use crate::text::Text;
use crate::{parse_tree, repr};
use std::alloc::{AllocError, Global};

/// What has free variables.
///
/// A path of one name that isn't absolute, an associated type's parameter and a lifetime count
/// where they are declared. A reference's lifetime, and the lifetimes of a
/// `parse_tree::WhereClause::Lifetime`, count always. A `for<..>` binder takes its names away.
/// Associated parameters of bounds give none.
pub trait FreeVariables {
    ghost use Rattle.std.specs.Prelude.{List, ◌≡◌, ◌++◌, OnOk, IfOk};
    ghost use Rattle.lp_repr.specs.declared.parse_tree.TypeParameter.{TypeParameter};

    /// The free variables, by the declared parameters.
    ghost free_of: { List TypeParameter → Self → List TypeParameter };

    /// Appends the free variables in order of occurrence, with repeats.
    fn push_free_variables(
        &self,
        type_parameters: &[TypeParameter],
        free: &mut Vec<TypeParameter>,
    ) -> Result<(), AllocError>
        ensures { OnOk result (free.new.items ≡ free.old.items ++ free_of type_parameters.now self.now) };

    /// The free variables in order of occurrence, with repeats.
    final fn free_variables(
        &self,
        alloc: Global,
        type_parameters: &[TypeParameter],
    ) -> Result<Vec<TypeParameter>, AllocError>
        ensures { IfOk result (λ v. v.items ≡ free_of type_parameters.now self.now) }
    {
        let mut free = Vec::new(alloc);
        self.push_free_variables(type_parameters, &mut free)?;
        Ok(free)
    }
}

/// Appends a type parameter of this name, where it is declared.
fn push_name(
    name: &str,
    type_parameters: &[TypeParameter],
    free: &mut Vec<TypeParameter>,
) -> Result<(), AllocError>
    ensures { OnOk result (free.new.items ≡ free.old.items ++ declared_one type_parameters.now (kind.Id name.now)) }
{
    if declares_name(type_parameters, name) {
        free.push(TypeParameter::Id(Text::from_str(*free.allocator(), name)?))?;
    }
    Ok(())
}

/// Appends a lifetime, where it is declared.
fn push_lifetime(
    name: &str,
    type_parameters: &[TypeParameter],
    free: &mut Vec<TypeParameter>,
) -> Result<(), AllocError>
    ensures { OnOk result (free.new.items ≡ free.old.items ++ declared_one type_parameters.now (kind.Lifetime name.now)) }
{
    if declares_lifetime(type_parameters, name) {
        push_always(name, free)?;
    }
    Ok(())
}

/// Appends a lifetime, declared or not.
fn push_always(name: &str, free: &mut Vec<TypeParameter>) -> Result<(), AllocError>
    ensures { OnOk result (free.new.items ≡ free.old.items ++ kind.Lifetime name.now ∷ []) }
{
    free.push(TypeParameter::Lifetime(Text::from_str(*free.allocator(), name)?))?;
    Ok(())
}

fn declares_name(type_parameters: &[TypeParameter], name: &str) -> bool
    ensures { result ≡ list_any (same_parameter (kind.Id name.now)) type_parameters.now }
{
    for parameter in type_parameters {
        if is_name(parameter, name) {
            return true;
        }
    }
    false
}

fn is_name(parameter: &TypeParameter, name: &str) -> bool
    ensures { result ≡ same_parameter (kind.Id name.now) parameter.now }
{
    match parameter {
        TypeParameter::Id(id) => name == id.as_str(),
        TypeParameter::Lifetime(_) => false,
    }
}

fn declares_lifetime(type_parameters: &[TypeParameter], name: &str) -> bool
    ensures { result ≡ list_any (same_parameter (kind.Lifetime name.now)) type_parameters.now }
{
    for parameter in type_parameters {
        if is_lifetime(parameter, name) {
            return true;
        }
    }
    false
}

fn is_lifetime(parameter: &TypeParameter, name: &str) -> bool
    ensures { result ≡ same_parameter (kind.Lifetime name.now) parameter.now }
{
    match parameter {
        TypeParameter::Lifetime(id) => name == id.as_str(),
        TypeParameter::Id(_) => false,
    }
}

/// Whether a binder names the parameter.
fn binds(binder: &[TypeParameter], parameter: &TypeParameter) -> bool
    ensures { result ≡ list_any (same_parameter parameter.now) binder.now }
{
    match parameter {
        TypeParameter::Id(name) => declares_name(binder, name.as_str()),
        TypeParameter::Lifetime(name) => declares_lifetime(binder, name.as_str()),
    }
}

/// Appends the variables that the binder doesn't name.
fn push_unbound(
    inner: Vec<TypeParameter>,
    binder: &[TypeParameter],
    free: &mut Vec<TypeParameter>,
) -> Result<(), AllocError>
    ensures { OnOk result (free.new.items ≡ free.old.items ++ unbound binder.now inner.items) }
{
    for parameter in inner {
        if !binds(binder, &parameter) {
            free.push(parameter)?;
        }
    }
    Ok(())
}

impl FreeVariables for Path {
    ghost free_of = { λ declared path. free_in_path declared path };

    fn push_free_variables(
        &self,
        type_parameters: &[TypeParameter],
        free: &mut Vec<TypeParameter>,
    ) -> Result<(), AllocError> {
        match self.ids.as_slice() {
            [name] if !self.absolute => push_name(name.as_str(), type_parameters, free),
            _ => Ok(()),
        }
    }
}

impl FreeVariables for TypeRepr {
    ghost free_of = { λ declared ty. free_in_type declared ty };

    #[cycle(type_free)]
    fn push_free_variables(
        &self,
        type_parameters: &[TypeParameter],
        free: &mut Vec<TypeParameter>,
    ) -> Result<(), AllocError> {
        match self {
            TypeRepr::Tuple(types) => push_types(types.as_slice(), type_parameters, free),
            TypeRepr::Slice(element) => (**element).push_free_variables(type_parameters, free),
            TypeRepr::Nominal(nominal) => nominal.push_free_variables(type_parameters, free),
            TypeRepr::TraitObject(nominal) => nominal.push_free_variables(type_parameters, free),
            TypeRepr::Associated { type_parameter, .. } => {
                push_name(type_parameter.as_str(), type_parameters, free)
            }
            TypeRepr::Lifetime(name) => push_lifetime(name.as_str(), type_parameters, free),
            TypeRepr::Ref {
                lifetime,
                referent,
                ..
            } => {
                if let Some(name) = lifetime {
                    push_always(name.as_str(), free)?;
                }
                (**referent).push_free_variables(type_parameters, free)
            }
            TypeRepr::Fn {
                binder,
                path,
                parameters,
                ret,
            } => {
                let mut inner = Vec::new(*free.allocator());
                path.push_free_variables(type_parameters, &mut inner)?;
                push_parameters(parameters, type_parameters, &mut inner)?;
                push_ret(ret, type_parameters, &mut inner)?;
                push_unbound(inner, binder.as_slice(), free)
            }
        }
    }
}

#[cycle(type_free)]
fn push_types(
    types: &[TypeRepr],
    type_parameters: &[TypeParameter],
    free: &mut Vec<TypeParameter>,
) -> Result<(), AllocError>
    ensures { OnOk result (free.new.items ≡ free.old.items ++ flat_map (free_in_type type_parameters.now) types.now) }
{
    for ty in types {
        ty.push_free_variables(type_parameters, free)?;
    }
    Ok(())
}

#[cycle(type_free)]
fn push_parameters(
    types: &Vec<TypeRepr>,
    type_parameters: &[TypeParameter],
    free: &mut Vec<TypeParameter>,
) -> Result<(), AllocError>
    ensures { OnOk result (free.new.items ≡ free.old.items ++ flat_map (free_in_type type_parameters.now) types.now.items) }
{
    push_types(types.as_slice(), type_parameters, free)
}

#[cycle(type_free)]
fn push_ret(
    ret: &Option<Box<TypeRepr>>,
    type_parameters: &[TypeParameter],
    free: &mut Vec<TypeParameter>,
) -> Result<(), AllocError>
    ensures { OnOk result (free.new.items ≡ free.old.items ++ free_in_option (λ b. free_in_type type_parameters.now b.value) ret.now) }
{
    match ret {
        None => Ok(()),
        Some(ret) => (**ret).push_free_variables(type_parameters, free),
    }
}

impl FreeVariables for NominalTypeRepr {
    ghost free_of = { λ declared n. free_in_path declared n.path ++ flat_map (free_in_type declared) n.types.items };

    #[cycle(type_free)]
    fn push_free_variables(
        &self,
        type_parameters: &[TypeParameter],
        free: &mut Vec<TypeParameter>,
    ) -> Result<(), AllocError> {
        self.path.push_free_variables(type_parameters, free)?;
        push_types(self.types.as_slice(), type_parameters, free)
    }
}

impl FreeVariables for repr::WhereClause {
    ghost free_of = { λ declared clause. free_in_clause declared clause };

    fn push_free_variables(
        &self,
        type_parameters: &[TypeParameter],
        free: &mut Vec<TypeParameter>,
    ) -> Result<(), AllocError> {
        match self {
            repr::WhereClause::Forall { binder, clause } => {
                let mut inner = Vec::new(*free.allocator());
                (**clause).push_free_variables(type_parameters, &mut inner)?;
                push_unbound(inner, binder.as_slice(), free)
            }
            repr::WhereClause::Bound { subject, bound } => {
                subject.push_free_variables(type_parameters, free)?;
                bound.push_free_variables(type_parameters, free)
            }
        }
    }
}

/// Appends the free variables of each.
fn push_each<T: FreeVariables>(
    all: &[T],
    type_parameters: &[TypeParameter],
    free: &mut Vec<TypeParameter>,
) -> Result<(), AllocError>
    ensures { OnOk result (free.new.items ≡ free.old.items ++ flat_map (T.free_of type_parameters.now) all.now) }
{
    for one in all {
        one.push_free_variables(type_parameters, free)?;
    }
    Ok(())
}

impl<T: FreeVariables> FreeVariables for Option<T> {
    ghost free_of = { λ declared o. free_in_option (T.free_of declared) o };

    fn push_free_variables(
        &self,
        type_parameters: &[TypeParameter],
        free: &mut Vec<TypeParameter>,
    ) -> Result<(), AllocError> {
        match self {
            None => Ok(()),
            Some(one) => one.push_free_variables(type_parameters, free),
        }
    }
}

impl<T: FreeVariables> FreeVariables for Vec<T> {
    ghost free_of = { λ declared v. flat_map (T.free_of declared) v.items };

    fn push_free_variables(
        &self,
        type_parameters: &[TypeParameter],
        free: &mut Vec<TypeParameter>,
    ) -> Result<(), AllocError> {
        push_each(self.as_slice(), type_parameters, free)
    }
}

impl<T: FreeVariables> FreeVariables for parse_tree::WhereClause<T> {
    ghost free_of = { λ declared clause. free_in_file_clause (T.free_of declared) declared clause };

    fn push_free_variables(
        &self,
        type_parameters: &[TypeParameter],
        free: &mut Vec<TypeParameter>,
    ) -> Result<(), AllocError> {
        match self {
            parse_tree::WhereClause::Lifetime { lifetime, bounds } => {
                push_always(lifetime.as_str(), free)?;
                push_lifetimes(bounds.as_slice(), free)
            }
            parse_tree::WhereClause::Bounded { binder, ty, bounds } => {
                let mut inner = Vec::new(*free.allocator());
                ty.push_free_variables(type_parameters, &mut inner)?;
                push_each(bounds.as_slice(), type_parameters, &mut inner)?;
                push_unbound(inner, binder.as_slice(), free)
            }
        }
    }
}

/// Appends the lifetimes, declared or not.
fn push_lifetimes(names: &[Text], free: &mut Vec<TypeParameter>) -> Result<(), AllocError>
    ensures { OnOk result (free.new.items ≡ free.old.items ++ map kind.Lifetime names.now) }
{
    for name in names {
        push_always(name.as_str(), free)?;
    }
    Ok(())
}

impl<T: FreeVariables> FreeVariables for TypeBoundParameter<T> {
    ghost free_of = { λ declared p. free_in_parameter (T.free_of declared) declared p };

    fn push_free_variables(
        &self,
        type_parameters: &[TypeParameter],
        free: &mut Vec<TypeParameter>,
    ) -> Result<(), AllocError> {
        match self {
            TypeBoundParameter::Lifetime(name) => {
                push_lifetime(name.as_str(), type_parameters, free)
            }
            TypeBoundParameter::TypeParameter(ty) => ty.push_free_variables(type_parameters, free),
            TypeBoundParameter::Associated(..) => Ok(()),
        }
    }
}

impl<T: FreeVariables> FreeVariables for TypeBound<T> {
    ghost free_of = { λ declared b. free_in_bound (T.free_of declared) declared b };

    fn push_free_variables(
        &self,
        type_parameters: &[TypeParameter],
        free: &mut Vec<TypeParameter>,
    ) -> Result<(), AllocError> {
        match self {
            TypeBound::Lifetime(name) => push_lifetime(name.as_str(), type_parameters, free),
            TypeBound::Fn {
                binder,
                path,
                parameters,
                ret,
            } => {
                let mut inner = Vec::new(*free.allocator());
                path.push_free_variables(type_parameters, &mut inner)?;
                push_each(parameters.as_slice(), type_parameters, &mut inner)?;
                ret.push_free_variables(type_parameters, &mut inner)?;
                push_unbound(inner, binder.as_slice(), free)
            }
            TypeBound::Trait {
                binder,
                path,
                parameters,
            } => {
                let mut inner = Vec::new(*free.allocator());
                path.push_free_variables(type_parameters, &mut inner)?;
                push_each(parameters.as_slice(), type_parameters, &mut inner)?;
                push_unbound(inner, binder.as_slice(), free)
            }
        }
    }
}
