//! The lines of a parser up to the body of its `parse` method.

ghost use Rattle.std.specs.Prelude.{◌≡◌, map, string_bytes, IfOk};
ghost use Rattle.lp_repr.specs.Shown.{parameter_text};
ghost use Rattle.lp_codegen.specs.Parsers.{builder_field, builder_line, builder_value, default_line, impl_line, impl_lines, matcher_line, new_line, parse_answer, parser_front, clone_bound, source_line, struct_line, struct_lines, token_bound, token_generics, token_iterator, token_parameters, token_source, tokens_bound, tokens_parameter, triples_line, value_line, value_lines};

use crate::lines::{push_if, text};
use lp_parts::texts::each_with_comma;
use lp_repr::Text;
use lp_repr::parse_tree::TypeParameter;
use std::alloc::{AllocError, Global};

/// The lines of a parser before the header of its `parse` method.
pub(crate) fn parser_front(
    alloc: Global,
    interned: bool,
    action_module: &str,
    prefix: &str,
    visibility: &str,
    name: &str,
) -> Result<Vec<Text>, AllocError>
    ensures { IfOk result (λ v. v.items ≡ parser_front interned action_module.now prefix.now visibility.now name.now) }
{
    let mut lines = struct_lines(alloc, interned, prefix, visibility, name)?;
    let mut implementation = impl_lines(alloc, interned, action_module, prefix, visibility, name)?;
    let mut value = value_lines(alloc, interned, prefix, name)?;
    lines.append(&mut implementation)?;
    lines.append(&mut value)?;
    Ok(lines)
}

/// The struct of a parser.
fn struct_lines(
    alloc: Global,
    interned: bool,
    prefix: &str,
    visibility: &str,
    name: &str,
) -> Result<Vec<Text>, AllocError>
    ensures { IfOk result (λ v. v.items ≡ struct_lines interned prefix.now visibility.now name.now) }
{
    let mut lines = vec![in alloc; struct_line(alloc, visibility, name)?]?;
    push_if(&mut lines, interned, builder_field(alloc, prefix)?)?;
    lines.push(text(alloc, "_priv: (),")?)?;
    lines.push(text(alloc, "}")?)?;
    lines.push(text(alloc, "")?)?;
    Ok(lines)
}

fn struct_line(alloc: Global, visibility: &str, name: &str) -> Result<Text, AllocError>
    ensures { IfOk result (λ t. t ≡ struct_line visibility.now name.now) }
{
    Ok(Text(format!(in alloc; "{visibility}struct {name}Parser {{")?))
}

fn builder_field(alloc: Global, prefix: &str) -> Result<Text, AllocError>
    ensures { IfOk result (λ t. t ≡ builder_field prefix.now) }
{
    Ok(Text(format!(in alloc; "builder: {prefix}lalrpop_util::lexer::MatcherBuilder,")?))
}

/// The implementations of a parser, up to the value that `new` makes.
fn impl_lines(
    alloc: Global,
    interned: bool,
    action_module: &str,
    prefix: &str,
    visibility: &str,
    name: &str,
) -> Result<Vec<Text>, AllocError>
    ensures { IfOk result (λ v. v.items ≡ impl_lines interned action_module.now prefix.now visibility.now name.now) }
{
    let default = default_line(alloc, name)?;
    let opening = impl_line(alloc, name)?;
    let new = new_line(alloc, visibility, name)?;
    let mut lines = vec![in alloc; default, opening, new]?;
    push_if(
        &mut lines,
        interned,
        builder_line(alloc, action_module, prefix)?,
    )?;
    Ok(lines)
}

fn default_line(alloc: Global, name: &str) -> Result<Text, AllocError>
    ensures { IfOk result (λ t. t ≡ default_line name.now) }
{
    Ok(Text(format!(in alloc;
        "impl Default for {name}Parser {{ fn default() -> Self {{ Self::new() }} }}"
    )?))
}

fn impl_line(alloc: Global, name: &str) -> Result<Text, AllocError>
    ensures { IfOk result (λ t. t ≡ impl_line name.now) }
{
    Ok(Text(format!(in alloc; "impl {name}Parser {{")?))
}

fn new_line(alloc: Global, visibility: &str, name: &str) -> Result<Text, AllocError>
    ensures { IfOk result (λ t. t ≡ new_line visibility.now name.now) }
{
    Ok(Text(format!(in alloc; "{visibility}fn new() -> {name}Parser {{")?))
}

fn builder_line(alloc: Global, action_module: &str, prefix: &str) -> Result<Text, AllocError>
    ensures { IfOk result (λ t. t ≡ builder_line action_module.now prefix.now) }
{
    Ok(Text(format!(in alloc;
        "let {prefix}builder = {action_module}::{prefix}intern_token::new_builder();"
    )?))
}

/// The value that `new` makes, up to the header of `parse`.
fn value_lines(
    alloc: Global,
    interned: bool,
    prefix: &str,
    name: &str,
) -> Result<Vec<Text>, AllocError>
    ensures { IfOk result (λ v. v.items ≡ value_lines interned prefix.now name.now) }
{
    let mut lines = vec![in alloc; value_line(alloc, name)?]?;
    push_if(&mut lines, interned, builder_value(alloc, prefix)?)?;
    lines.push(text(alloc, "_priv: (),")?)?;
    lines.push(text(alloc, "}")?)?;
    lines.push(text(alloc, "}")?)?;
    lines.push(text(alloc, "")?)?;
    lines.push(text(alloc, "#[allow(dead_code)]")?)?;
    Ok(lines)
}

fn value_line(alloc: Global, name: &str) -> Result<Text, AllocError>
    ensures { IfOk result (λ t. t ≡ value_line name.now) }
{
    Ok(Text(format!(in alloc; "{name}Parser {{")?))
}

fn builder_value(alloc: Global, prefix: &str) -> Result<Text, AllocError>
    ensures { IfOk result (λ t. t ≡ builder_value prefix.now) }
{
    Ok(Text(format!(in alloc; "builder: {prefix}builder,")?))
}

/// The further type parameters of `parse`.
pub(crate) fn token_generics(
    alloc: Global,
    interned: bool,
    repeatable: bool,
    prefix: &str,
    generics: &[TypeParameter],
) -> Result<Vec<Text>, AllocError>
    ensures { IfOk result (λ v. v.items ≡ token_generics interned repeatable prefix.now generics.now) }
{
    if interned {
        return Ok(Vec::new(alloc));
    }
    let token = token_bound(alloc, prefix, generics)?;
    let tokens = tokens_bound(alloc, repeatable, prefix)?;
    Ok(vec![in alloc; token, tokens]?)
}

/// The type parameter of tokens.
fn token_bound(alloc: Global, prefix: &str, generics: &[TypeParameter]) -> Result<Text, AllocError>
    ensures { IfOk result (λ t. t ≡ token_bound prefix.now generics.now) }
{
    let user = each_with_comma(alloc, generics)?;
    let user = user.as_str();
    Ok(Text(format!(in alloc; "{prefix}TOKEN: {prefix}ToTriple<{user}>")?))
}

/// The type parameter of what gives tokens.
fn tokens_bound(alloc: Global, repeatable: bool, prefix: &str) -> Result<Text, AllocError>
    ensures { IfOk result (λ t. t ≡ tokens_bound repeatable prefix.now) }
{
    let iterator = token_iterator(alloc, repeatable, prefix)?;
    Ok(Text(format!(in alloc; "{prefix}TOKENS: {iterator}")?))
}

/// What gives tokens.
#[tactic(auto, unfolding(crate::specs::Parsers::token_iterator))]
fn token_iterator(alloc: Global, repeatable: bool, prefix: &str) -> Result<String, AllocError>
    ensures { IfOk result (λ s. string_bytes s ≡ token_iterator repeatable prefix.now) }
{
    let clone = clone_bound(repeatable);
    format!(in alloc; "IntoIterator<Item={prefix}TOKEN>{clone}")
}

/// What a token list that is gone through again is bound by.
fn clone_bound(repeatable: bool) -> &'static str
    ensures { result.now ≡ clone_bound repeatable }
{
    if repeatable { " + Clone" } else { "" }
}

/// The further parameter of `parse`.
pub(crate) fn token_parameters(
    alloc: Global,
    interned: bool,
    prefix: &str,
) -> Result<Vec<Text>, AllocError>
    ensures { IfOk result (λ v. v.items ≡ token_parameters interned prefix.now) }
{
    if interned {
        return Ok(Vec::new(alloc));
    }
    Ok(vec![in alloc; tokens_parameter(alloc, prefix)?]?)
}

fn tokens_parameter(alloc: Global, prefix: &str) -> Result<Text, AllocError>
    ensures { IfOk result (λ t. t ≡ tokens_parameter prefix.now) }
{
    Ok(Text(format!(in alloc; "{prefix}tokens0: {prefix}TOKENS")?))
}

/// What `parse` answers.
pub(crate) fn parse_answer(alloc: Global, ty: &str, error: &str) -> Result<Text, AllocError>
    ensures { IfOk result (λ t. t ≡ parse_answer ty.now error.now) }
{
    Ok(Text(format!(in alloc; "Result<{ty}, {error}>")?))
}

/// Where the tokens come from.
pub(crate) fn token_source(
    alloc: Global,
    interned: bool,
    repeatable: bool,
    prefix: &str,
) -> Result<Vec<Text>, AllocError>
    ensures { IfOk result (λ v. v.items ≡ token_source interned repeatable prefix.now) }
{
    if interned {
        return Ok(vec![in alloc; matcher_line(alloc, prefix)?]?);
    }
    let source = source_line(alloc, repeatable, prefix)?;
    let triples = triples_line(alloc, prefix)?;
    Ok(vec![in alloc; source, triples]?)
}

fn matcher_line(alloc: Global, prefix: &str) -> Result<Text, AllocError>
    ensures { IfOk result (λ t. t ≡ matcher_line prefix.now) }
{
    Ok(Text(format!(in alloc; "let mut {prefix}tokens = self.builder.matcher(input);")?))
}

fn source_line(alloc: Global, repeatable: bool, prefix: &str) -> Result<Text, AllocError>
    ensures { IfOk result (λ t. t ≡ source_line repeatable prefix.now) }
{
    let clone = if repeatable { ".clone()" } else { "" };
    Ok(Text(format!(in alloc; "let {prefix}tokens = {prefix}tokens0{clone}.into_iter();")?))
}

fn triples_line(alloc: Global, prefix: &str) -> Result<Text, AllocError>
    ensures { IfOk result (λ t. t ≡ triples_line prefix.now) }
{
    Ok(Text(format!(in alloc;
        "let mut {prefix}tokens = {prefix}tokens.map(|t| {prefix}ToTriple::to_triple(t));"
    )?))
}
