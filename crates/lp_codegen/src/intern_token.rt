//! The module of tokens of a grammar without an enum of its own.

ghost use Rattle.std.specs.Prelude.{◌≡◌, ◌++◌, map, IfOk, OnOk};
ghost use Rattle.std.specs.List.{list_any};
ghost use Rattle.lp_write.specs.Lines.Line.{line};
ghost use Rattle.lp_write.specs.Writes.{writing, Writes, write_ending};
ghost use Rattle.lp_codegen.specs.TokenModules.{builder_end, builder_head, builder_lines, entry_line, function_line, list_line, matcher_line, opening_line, row_lines, token_head, token_module, white_space};

use crate::lines::{push_if, text, write_found};
use lp_repr::Text;
use lp_repr::repr::{Grammar, InternToken, MatchEntry};
use lp_write::{RustWrite, Sink, WriteError, literal};
use std::alloc::{AllocError, Global};

/// Appends the module that makes the tokens of an interned grammar: its uses, and the regular
/// expressions with whether their matches are skipped. White space is skipped where nothing else is.
pub fn compile<W: Sink>(
    alloc: Global,
    grammar: &Grammar,
    intern_token: &InternToken,
    out: &mut RustWrite<W>,
) -> Result<(), WriteError>
    ensures { Writes (write_ending result) (writing W.told out.old) (writing W.told out.new) (map line (token_module grammar.now intern_token.now.match_entries)) }
{
    write_head(alloc, out, grammar)?;
    out.write_uses(alloc, "super::", grammar)?;
    write_builder(alloc, out, grammar, intern_token)
}

/// Appends the lines before the uses.
fn write_head<W: Sink>(
    alloc: Global,
    out: &mut RustWrite<W>,
    grammar: &Grammar,
) -> Result<(), WriteError>
    ensures { Writes (write_ending result) (writing W.told out.old) (writing W.told out.new) (map line (token_head grammar.now.prefix)) }
{
    write_found(out, token_head(alloc, grammar))
}

/// Appends the lines after the uses.
fn write_builder<W: Sink>(
    alloc: Global,
    out: &mut RustWrite<W>,
    grammar: &Grammar,
    intern_token: &InternToken,
) -> Result<(), WriteError>
    ensures { Writes (write_ending result) (writing W.told out.old) (writing W.told out.new) (map line (builder_lines grammar.now.prefix intern_token.now.match_entries)) }
{
    write_found(out, builder_lines(alloc, grammar, intern_token))
}

/// The lines before the uses.
fn token_head(alloc: Global, grammar: &Grammar) -> Result<Vec<Text>, AllocError>
    ensures { IfOk result (λ v. v.items ≡ token_head grammar.now.prefix) }
{
    let prefix = grammar.prefix.as_str();
    let skip = text(alloc, "#[rustfmt::skip]")?;
    let opening = opening_line(alloc, prefix)?;
    let allowed = text(alloc, "#![allow(unused_imports)]")?;
    Ok(vec![in alloc; skip, opening, allowed]?)
}

fn opening_line(alloc: Global, prefix: &str) -> Result<Text, AllocError>
    ensures { IfOk result (λ t. t ≡ opening_line prefix.now) }
{
    Ok(Text(format!(in alloc; "mod {prefix}intern_token {{")?))
}

/// The lines after the uses: what makes a matcher of the regular expressions.
fn builder_lines(
    alloc: Global,
    grammar: &Grammar,
    intern_token: &InternToken,
) -> Result<Vec<Text>, AllocError>
    ensures { IfOk result (λ v. v.items ≡ builder_lines grammar.now.prefix intern_token.now.match_entries) }
{
    let prefix = grammar.prefix.as_str();
    let entries = intern_token.match_entries.as_slice();
    let mut lines = builder_head(alloc, prefix)?;
    let mut rows = row_lines(alloc, entries)?;
    lines.append(&mut rows)?;
    let mut rest = builder_end(alloc, prefix)?;
    lines.append(&mut rest)?;
    Ok(lines)
}

fn builder_head(alloc: Global, prefix: &str) -> Result<Vec<Text>, AllocError>
    ensures { IfOk result (λ v. v.items ≡ builder_head prefix.now) }
{
    let function = function_line(alloc, prefix)?;
    let list = list_line(alloc, prefix)?;
    Ok(vec![in alloc; function, list]?)
}

fn function_line(alloc: Global, prefix: &str) -> Result<Text, AllocError>
    ensures { IfOk result (λ t. t ≡ function_line prefix.now) }
{
    Ok(Text(format!(in alloc;
        "pub fn new_builder() -> {prefix}lalrpop_util::lexer::MatcherBuilder {{"
    )?))
}

fn list_line(alloc: Global, prefix: &str) -> Result<Text, AllocError>
    ensures { IfOk result (λ t. t ≡ list_line prefix.now) }
{
    Ok(Text(format!(in alloc; "let {prefix}strs: &[(&str, bool)] = &[")?))
}

/// The regular expressions, and white space where nothing is skipped.
fn row_lines(alloc: Global, entries: &[MatchEntry]) -> Result<Vec<Text>, AllocError>
    ensures { IfOk result (λ v. v.items ≡ row_lines entries.now) }
{
    let mut lines = Vec::new(alloc);
    push_rows(alloc, &mut lines, entries)?;
    push_if(&mut lines, !skips_some(entries), white_space(alloc)?)?;
    Ok(lines)
}

/// A line per regular expression.
fn push_rows(alloc: Global, lines: &mut Vec<Text>, entries: &[MatchEntry]) -> Result<(), AllocError>
    ensures { OnOk result (lines.new.items ≡ lines.old.items ++ map entry_line entries.now) }
{
    for entry in entries {
        lines.push(entry_line(alloc, entry)?)?;
    }
    Ok(())
}

/// A regular expression as a literal, and whether its matches are skipped.
fn entry_line(alloc: Global, entry: &MatchEntry) -> Result<Text, AllocError>
    ensures { IfOk result (λ t. t ≡ entry_line entry.now) }
{
    let regex = literal(alloc, entry.regex.as_str())?;
    let regex = regex.as_str();
    let skip = if entry.skip { "true" } else { "false" };
    Ok(Text(format!(in alloc; "({regex}, {skip}),")?))
}

/// Whether the matches of some regular expression are skipped.
fn skips_some(entries: &[MatchEntry]) -> bool
    ensures { result ≡ list_any (λ e. e.skip) entries.now }
{
    entries.iter().any(|entry| entry.skip)
}

/// The line of white space.
fn white_space(alloc: Global) -> Result<Text, AllocError>
    ensures { IfOk result (λ t. t ≡ white_space) }
{
    text(alloc, "(r\"\\s+\", true),")
}

fn builder_end(alloc: Global, prefix: &str) -> Result<Vec<Text>, AllocError>
    ensures { IfOk result (λ v. v.items ≡ builder_end prefix.now) }
{
    let close = text(alloc, "];")?;
    let matcher = matcher_line(alloc, prefix)?;
    let function = text(alloc, "}")?;
    let module = text(alloc, "}")?;
    Ok(vec![in alloc; close, matcher, function, module]?)
}

fn matcher_line(alloc: Global, prefix: &str) -> Result<Text, AllocError>
    ensures { IfOk result (λ t. t ≡ matcher_line prefix.now) }
{
    Ok(Text(format!(in alloc;
        "{prefix}lalrpop_util::lexer::MatcherBuilder::new({prefix}strs.iter().copied()).unwrap()"
    )?))
}
