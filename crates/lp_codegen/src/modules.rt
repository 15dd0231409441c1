//! The lines that stand around what a module has of its own.

ghost use Rattle.std.specs.Prelude.{◌≡◌, IfOk};
ghost use Rattle.lp_codegen.specs.Modules.{allowed_lints, inside_of, module_head, module_line, token_use};

use crate::lines::text;
use lp_repr::Text;
use std::alloc::{AllocError, Global};

/// What the compiler is told to let pass in a module.
#[tactic(auto, unfolding(crate::specs::Modules::allowed_lints))]
fn allowed_lints(alloc: Global) -> Result<Text, AllocError>
    ensures { IfOk result (λ t. t ≡ allowed_lints) }
{
    text(
        alloc,
        "#[allow(explicit_outlives_requirements, non_snake_case, non_camel_case_types, unused_mut, unused_variables, unused_imports, unused_parens, clippy::needless_lifetimes, clippy::type_complexity, clippy::needless_return, clippy::too_many_arguments, clippy::match_single_binding, clippy::clone_on_copy, clippy::unit_arg)]",
    )
}

/// The line that opens the module of a start nonterminal.
fn module_line(alloc: Global, prefix: &str, start: &str) -> Result<Text, AllocError>
    ensures { IfOk result (λ t. t ≡ module_line prefix.now start.now) }
{
    Ok(Text(format!(in alloc; "mod {prefix}parse{start} {{")?))
}

/// The lines before the uses.
pub(crate) fn module_head(alloc: Global, prefix: &str, start: &str) -> Result<Vec<Text>, AllocError>
    ensures { IfOk result (λ v. v.items ≡ module_head prefix.now start.now) }
{
    let blank = text(alloc, "")?;
    let skip = text(alloc, "#[rustfmt::skip]")?;
    let lints = allowed_lints(alloc)?;
    let opening = module_line(alloc, prefix, start)?;
    let last = text(alloc, "")?;
    Ok(vec![in alloc; blank, skip, lints, opening, last]?)
}

/// Where the token type, or the trait of the tokens, comes from.
pub(crate) fn token_use(
    alloc: Global,
    interned: bool,
    action_module: &str,
    prefix: &str,
) -> Result<Text, AllocError>
    ensures { IfOk result (λ t. t ≡ token_use interned action_module.now prefix.now) }
{
    if interned {
        Ok(Text(format!(in alloc; "use self::{prefix}lalrpop_util::lexer::Token;")?))
    } else {
        Ok(Text(format!(in alloc; "use {action_module}::{prefix}ToTriple;")?))
    }
}

/// The path of an action module, in front of what it has.
pub(crate) fn inside_of(alloc: Global, action_module: &str) -> Result<Text, AllocError>
    ensures { IfOk result (λ t. t ≡ inside_of action_module.now) }
{
    Ok(Text(format!(in alloc; "{action_module}::")?))
}
