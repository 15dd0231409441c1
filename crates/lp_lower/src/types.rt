//! The types of symbols.

ghost use Rattle.std.specs.Prelude.{◌≡◌, ◌++◌, IfOk};
ghost use Rattle.lp_repr.specs.TypeTrees.{type_tree, types_trees, nominal_type};
ghost use Rattle.lp_lower.specs.TypeOf.{path_of, location_tree, static_str_tree, error_tree, recovery_tree, holes_tree, rule_tree, terminal_tree, target_tree};

use crate::copies::copy_types;
use crate::names::{Names, Target};
use lp_repr::parse_tree::Path;
use lp_repr::repr::{NominalTypeRepr, TypeRepr};
use lp_repr::text::{Items, Text};
use lp_syntax::PlainGrammar;
use std::alloc::{AllocError, Global};

/// A path that isn't absolute, with these arguments.
fn nominal(ids: Items<Text>, types: Vec<TypeRepr>) -> TypeRepr
    ensures { type_tree result ≡ nominal_type (path_of ids) (types_trees types.items) }
{
    let path = Path {
        absolute: false,
        ids,
    };
    TypeRepr::Nominal(NominalTypeRepr { path, types })
}

/// The type of locations, `()` by default.
pub fn location_type(alloc: Global, plain: &PlainGrammar) -> Result<TypeRepr, AllocError>
    ensures { IfOk result (λ t. type_tree t ≡ location_tree plain.now) }
{
    match &plain.location {
        Some(ty) => Ok(ty.clone()?),
        None => Ok(TypeRepr::Tuple(Vec::new(alloc))),
    }
}

/// The type `&'static str`.
fn static_str(alloc: Global) -> Result<TypeRepr, AllocError>
    ensures { IfOk result (λ t. type_tree t ≡ static_str_tree) }
{
    let name = Text::from_str(alloc, "str")?;
    let ids = vec![in alloc; name]?;
    let types = Vec::new(alloc);
    let str_type = nominal(Items(ids), types);
    let lifetime = String::from_str(alloc, "'static")?;
    let referent = Box::new(alloc, str_type)?;
    Ok(TypeRepr::Ref {
        lifetime: Some(lifetime),
        mutable: false,
        referent,
    })
}

/// The type of errors, `&'static str` by default.
fn error_type(alloc: Global, plain: &PlainGrammar) -> Result<TypeRepr, AllocError>
    ensures { IfOk result (λ t. type_tree t ≡ error_tree plain.now) }
{
    match &plain.error {
        Some(ty) => Ok(ty.clone()?),
        None => Ok(static_str(alloc)?),
    }
}

/// The prefix and a name.
pub fn prefixed(alloc: Global, plain: &PlainGrammar, name: &str) -> Result<Text, AllocError>
    ensures { IfOk result (λ t. t ≡ plain.now.prefix ++ name.now) }
{
    let mut text = String::from_str(alloc, plain.prefix.as_str())?;
    text.push_str(name)?;
    Ok(Text(text))
}

/// The type of the error terminal.
pub fn recovery_type(alloc: Global, plain: &PlainGrammar) -> Result<TypeRepr, AllocError>
    ensures { IfOk result (λ t. type_tree t ≡ recovery_tree plain.now) }
{
    let crate_name = prefixed(alloc, plain, "lalrpop_util")?;
    let type_name = Text::from_str(alloc, "ErrorRecovery")?;
    let location = location_type(alloc, plain)?;
    let token = plain.token.clone()?;
    let error = error_type(alloc, plain)?;
    let ids = vec![in alloc; crate_name, type_name]?;
    let types = vec![in alloc; location, token, error]?;
    Ok(nominal(Items(ids), types))
}

/// The type of a terminal whose pattern has these holes: of its one capture, of the tuple of its
/// captures, or else of tokens.
pub fn holes_type(
    alloc: Global,
    token: &TypeRepr,
    holes: &[TypeRepr],
) -> Result<TypeRepr, AllocError>
    ensures { IfOk result (λ t. type_tree t ≡ holes_tree token.now holes.now) }
{
    match holes {
        [] => Ok(token.clone()?),
        [hole] => Ok(hole.clone()?),
        [_, _, ..] => Ok(TypeRepr::Tuple(copy_types(alloc, holes)?)),
    }
}

/// The type of what a symbol stands for.
pub fn target_type(
    alloc: Global,
    names: &Names<'_>,
    target: Option<Target>,
) -> Result<TypeRepr, AllocError>
    ensures { IfOk result (λ t. type_tree t ≡ target_tree names.now.plain.now target) }
{
    match target {
        None => Ok(names.plain.token.clone()?),
        Some(Target::Rule(number)) => Ok(rule_type(names, number)?),
        Some(Target::Terminal(number)) => Ok(terminal_type(alloc, names, number)?),
        Some(Target::Lookahead) => Ok(location_type(alloc, names.plain)?),
        Some(Target::Lookbehind) => Ok(location_type(alloc, names.plain)?),
        Some(Target::Error) => Ok(recovery_type(alloc, names.plain)?),
    }
}

/// The type of the rule of this number.
fn rule_type(names: &Names<'_>, number: usize) -> Result<TypeRepr, AllocError>
    ensures { IfOk result (λ t. type_tree t ≡ rule_tree names.now.plain.now number) }
{
    match names.rule(number) {
        None => Ok(names.plain.token.clone()?),
        Some(rule) => Ok(rule.ty.clone()?),
    }
}

/// The type of the terminal of this number.
fn terminal_type(alloc: Global, names: &Names<'_>, number: usize) -> Result<TypeRepr, AllocError>
    ensures { IfOk result (λ t. type_tree t ≡ terminal_tree names.now.plain.now number) }
{
    match names.terminal(number) {
        None => Ok(names.plain.token.clone()?),
        Some(terminal) => {
            let holes = terminal.pattern.holes.as_slice();
            Ok(holes_type(alloc, &names.plain.token, holes)?)
        }
    }
}
