//! The texts of `use` lines.

ghost use Rattle.std.specs.Prelude.{◌≡◌, List, [], ◌∷◌, ◌++◌, map, IfOk, OnOk, codes};
ghost use Rattle.lp_write.specs.Uses.{use_text, util_use, machine_use, standard_uses, all_uses};

use lp_repr::Text;
use std::alloc::{AllocError, Global};

/// The uses, and the uses of every module.
pub(crate) fn all_uses(
    alloc: Global,
    super_prefix: &str,
    prefix: &str,
    paths: &[Text],
) -> Result<Vec<Text>, AllocError>
    ensures { IfOk result (λ lines. lines.items ≡ all_uses super_prefix.now prefix.now paths.now) }
{
    let mut lines = Vec::new(alloc);
    push_uses(alloc, &mut lines, super_prefix, paths)?;
    push_standard_uses(alloc, &mut lines, prefix)?;
    Ok(lines)
}

fn push_uses(
    alloc: Global,
    lines: &mut Vec<Text>,
    super_prefix: &str,
    paths: &[Text],
) -> Result<(), AllocError>
    ensures { OnOk result (lines.new.items ≡ lines.old.items ++ map (use_text super_prefix.now) paths.now) }
{
    for path in paths {
        lines.push(use_text(alloc, super_prefix, path.as_str())?)?;
    }
    Ok(())
}

/// A `use` of a path, which stands behind the prefix where it begins with `super::`.
fn use_text(alloc: Global, super_prefix: &str, path: &str) -> Result<Text, AllocError>
    ensures { IfOk result (λ text. text ≡ use_text super_prefix.now path.now) }
{
    let front = if path.as_bytes().starts_with(b"super::") {
        super_prefix
    } else {
        ""
    };
    Ok(Text(format!(in alloc; "use {front}{path};")?))
}

/// The uses of every module.
pub(crate) fn standard_uses(alloc: Global, prefix: &str) -> Result<Vec<Text>, AllocError>
    ensures { IfOk result (λ lines. lines.items ≡ standard_uses prefix.now) }
{
    let mut lines = Vec::new(alloc);
    push_standard_uses(alloc, &mut lines, prefix)?;
    Ok(lines)
}

fn push_standard_uses(alloc: Global, lines: &mut Vec<Text>, prefix: &str) -> Result<(), AllocError>
    ensures { OnOk result (lines.new.items ≡ lines.old.items ++ standard_uses prefix.now) }
{
    push_use(
        alloc,
        lines,
        "#[allow(unused_extern_crates)]",
        util_use(alloc, prefix)?,
    )?;
    push_use(
        alloc,
        lines,
        "#[allow(unused_imports)]",
        machine_use(alloc, prefix)?,
    )?;
    push_use(
        alloc,
        lines,
        "#[allow(unused_extern_crates)]",
        alloc_use(alloc)?,
    )?;
    Ok(())
}

fn util_use(alloc: Global, prefix: &str) -> Result<Text, AllocError>
    ensures { IfOk result (λ text. text ≡ util_use prefix.now) }
{
    Ok(Text(format!(in alloc; "extern crate lalrpop_util as {prefix}lalrpop_util;")?))
}

fn machine_use(alloc: Global, prefix: &str) -> Result<Text, AllocError>
    ensures { IfOk result (λ text. text ≡ machine_use prefix.now) }
{
    Ok(Text(format!(in alloc;
        "use self::{prefix}lalrpop_util::state_machine as {prefix}state_machine;"
    )?))
}

fn alloc_use(alloc: Global) -> Result<Text, AllocError>
    ensures { IfOk result (λ text. text ≡ codes "extern crate alloc;") }
{
    Text::from_str(alloc, "extern crate alloc;")
}

/// A use after its attribute.
fn push_use(
    alloc: Global,
    lines: &mut Vec<Text>,
    attribute: &str,
    text: Text,
) -> Result<(), AllocError>
    ensures { OnOk result (lines.new.items ≡ lines.old.items ++ attribute.now ∷ text ∷ []) }
{
    lines.push(Text::from_str(alloc, attribute)?)?;
    lines.push(text)?;
    Ok(())
}
