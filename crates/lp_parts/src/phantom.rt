//! Phantom data that uses each type parameter of a grammar, so that none is unused.

ghost use Rattle.std.specs.Prelude.{◌≡◌, ◌++◌, codes, map, string_bytes, IfOk};
ghost use Rattle.lp_parts.specs.Phantom.{phantom_expression_of, phantom_type_of, used_in_expression, used_in_type};

use crate::texts::comma_list;
use lp_repr::Text;
use lp_repr::parse_tree::TypeParameter;
use std::alloc::{AllocError, Global};

/// `core::marker::PhantomData<(..)>`, with `&'a ()` per lifetime and the name per type.
pub fn phantom_type(alloc: Global, parameters: &[TypeParameter]) -> Result<String, AllocError>
    ensures { IfOk result (λ s. string_bytes s ≡ phantom_type_of parameters.now) }
{
    let mut uses = Vec::new(alloc);
    for parameter in parameters {
        uses.push(used_in_type(alloc, parameter)?)?;
    }
    let list = comma_list(alloc, uses.as_slice())?;
    enclosed(alloc, "core::marker::PhantomData<(", list.as_str())
}

/// `core::marker::PhantomData::<(..)>`, with `&()` per lifetime and the name per type.
pub fn phantom_expression(alloc: Global, parameters: &[TypeParameter]) -> Result<String, AllocError>
    ensures { IfOk result (λ s. string_bytes s ≡ phantom_expression_of parameters.now) }
{
    let mut uses = Vec::new(alloc);
    for parameter in parameters {
        uses.push(used_in_expression(alloc, parameter)?)?;
    }
    let list = comma_list(alloc, uses.as_slice())?;
    enclosed(alloc, "core::marker::PhantomData::<(", list.as_str())
}

/// The list after its front, and the end of a phantom.
fn enclosed(alloc: Global, front: &str, list: &str) -> Result<String, AllocError>
    ensures { IfOk result (λ s. string_bytes s ≡ front.now ++ (list.now ++ codes ")>")) }
{
    let mut text = String::from_str(alloc, front)?;
    text.push_str(list)?;
    text.push_str(")>")?;
    Ok(text)
}

/// A use of a parameter in a type.
fn used_in_type(alloc: Global, parameter: &TypeParameter) -> Result<Text, AllocError>
    ensures { IfOk result (λ t. t ≡ used_in_type parameter.now) }
{
    match parameter {
        TypeParameter::Lifetime(name) => Ok(Text(format!(in alloc; "&{name} ()")?)),
        TypeParameter::Id(name) => name.clone(),
    }
}

/// A use of a parameter in an expression.
fn used_in_expression(alloc: Global, parameter: &TypeParameter) -> Result<Text, AllocError>
    ensures { IfOk result (λ t. t ≡ used_in_expression parameter.now) }
{
    match parameter {
        TypeParameter::Lifetime(_) => Text::from_str(alloc, "&()"),
        TypeParameter::Id(name) => name.clone(),
    }
}
