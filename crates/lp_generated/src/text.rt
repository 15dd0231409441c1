//! The text of the grammar.

ghost use Rattle.std.specs.Prelude.{◌≡◌, ◌++◌, ◌+◌, IfOk, OnOk, string_bytes};
ghost use Rattle.lp_generated.specs.Generated.{alternatives_text, each_below, end_text, entry_text, grammar_text, head_text, rule_text, visibility_text};

use std::alloc::{AllocError, Global};

/// The text of the grammar of `levels` operators, each of which binds tighter than the one before.
pub fn make_text(alloc: Global, levels: u32) -> Result<String, AllocError>
    ensures { IfOk result (λ text. string_bytes text ≡ grammar_text levels) }
{
    let mut text = String::new(alloc);
    add_head(&mut text)?;
    add_entries(&mut text, levels)?;
    text.push_str("    }\n}\n")?;
    add_rules(&mut text, levels)?;
    add_visibility(&mut text, levels)?;
    add_end(&mut text, levels)?;
    Ok(text)
}

/// Appends what stands before the operators' entries.
#[tactic(auto, unfolding(crate::specs::Generated::head_text))]
fn add_head(text: &mut String) -> Result<(), AllocError>
    ensures { OnOk result (string_bytes text.new ≡ string_bytes text.old ++ head_text) }
{
    text.push_str(
        "grammar;\nextern {\n    type Location = usize;\n    enum Tok {\n        \"n\" => Tok::N(<i32>),\n        \"(\" => Tok::Open,\n        \")\" => Tok::Close,\n",
    )
}

/// Appends the entry of each operator.
fn add_entries(text: &mut String, levels: u32) -> Result<(), AllocError>
    ensures { OnOk result (string_bytes text.new ≡ string_bytes text.old ++ each_below entry_text levels) }
{
    for level in 0..levels {
        add_entry(text, level)?;
    }
    Ok(())
}

/// Appends the rule of each operator.
fn add_rules(text: &mut String, levels: u32) -> Result<(), AllocError>
    ensures { OnOk result (string_bytes text.new ≡ string_bytes text.old ++ each_below rule_text levels) }
{
    for level in 0..levels {
        add_rule(text, level, level + 1)?;
    }
    Ok(())
}

/// Appends the entry of the operator of a level.
#[tactic(auto, unfolding(crate::specs::Generated::entry_text))]
fn add_entry(text: &mut String, level: u32) -> Result<(), AllocError>
    ensures { OnOk result (string_bytes text.new ≡ string_bytes text.old ++ entry_text level) }
{
    write!(text, "        \"o{level}\" => Tok::O{level},\n")
}

/// The rule of the first level is public.
fn add_visibility(text: &mut String, level: u32) -> Result<(), AllocError>
    ensures { OnOk result (string_bytes text.new ≡ string_bytes text.old ++ visibility_text level) }
{
    if level == 0 {
        text.push_str("pub ")?;
    }
    Ok(())
}

/// Appends the rule of the operator of a level.
fn add_rule(text: &mut String, level: u32, next: u32) -> Result<(), AllocError>
    requires { next ≡ level + 1 }
    ensures { OnOk result (string_bytes text.new ≡ string_bytes text.old ++ rule_text level) }
{
    add_visibility(text, level)?;
    add_alternatives(text, level, next)
}

/// Appends its name and its alternatives.
#[tactic(auto, unfolding(crate::specs::Generated::alternatives_text))]
fn add_alternatives(text: &mut String, level: u32, next: u32) -> Result<(), AllocError>
    ensures { OnOk result (string_bytes text.new ≡ string_bytes text.old ++ alternatives_text level next) }
{
    write!(
        text,
        "E{level}: i32 = {{\n    <a:E{level}> \"o{level}\" <b:E{next}> => o{level}(a, b),\n    <a:E{next}> => a,\n}};\n"
    )
}

/// Appends the rule of numbers and parentheses.
#[tactic(auto, unfolding(crate::specs::Generated::end_text))]
fn add_end(text: &mut String, levels: u32) -> Result<(), AllocError>
    ensures { OnOk result (string_bytes text.new ≡ string_bytes text.old ++ end_text levels) }
{
    write!(
        text,
        "E{levels}: i32 = {{\n    <a:\"n\"> => a,\n    \"(\" <a:E0> \")\" => a,\n}};\n"
    )
}
