//! The header of a parser's `parse` method.

ghost use Rattle.std.specs.Prelude.{◌≡◌, ◌++◌, Some, map, codes, IfOk, OnOk};
ghost use Rattle.lp_repr.specs.Shown.{parameter_text};
ghost use Rattle.lp_write.specs.Headers.{closing, header_lines, listed, opening, parameter_lines, where_lines};
ghost use Rattle.lp_codegen.specs.Parsers.{declared_text, declared_texts, generic_texts, parse_header};
ghost use Rattle.lp_codegen.specs.Texts.{texts_header};

use crate::lines::text;
use lp_repr::parse_tree::Visibility;
use lp_repr::repr::{Grammar, Parameter};
use lp_repr::{Shown, Text};
use std::alloc::{AllocError, Global};

/// The texts of a header.
#[derive(Drop)]
pub(crate) struct HeaderTexts {
    name: Text,
    type_parameters: Vec<Text>,
    parameters: Vec<Text>,
    return_type: Option<Text>,
    where_clauses: Vec<Text>,
}

/// The header of `parse`: the lists of the grammar, then what is further.
pub(crate) fn parse_header(
    alloc: Global,
    grammar: &Grammar,
    generics: Vec<Text>,
    parameters: Vec<Text>,
    answer: Text,
) -> Result<HeaderTexts, AllocError>
    ensures { IfOk result (λ h. texts_header h ≡ parse_header grammar.now generics.items parameters.items answer) }
{
    let name = text(alloc, "parse")?;
    let type_parameters = generic_texts(alloc, grammar, generics)?;
    let parameters = declared_texts(alloc, grammar, parameters)?;
    let where_clauses = shown_each(alloc, grammar.where_clauses.as_slice())?;
    Ok(HeaderTexts {
        name,
        type_parameters,
        parameters,
        return_type: Some(answer),
        where_clauses,
    })
}

/// The type parameters of the grammar, then others.
fn generic_texts(
    alloc: Global,
    grammar: &Grammar,
    others: Vec<Text>,
) -> Result<Vec<Text>, AllocError>
    ensures { IfOk result (λ v. v.items ≡ generic_texts grammar.now others.items) }
{
    let mut texts = shown_each(alloc, grammar.type_parameters.as_slice())?;
    let mut further = others;
    texts.append(&mut further)?;
    Ok(texts)
}

/// The parser itself and the parameters of the grammar, then others.
fn declared_texts(
    alloc: Global,
    grammar: &Grammar,
    others: Vec<Text>,
) -> Result<Vec<Text>, AllocError>
    ensures { IfOk result (λ v. v.items ≡ declared_texts grammar.now others.items) }
{
    let mut texts = vec![in alloc; text(alloc, "&self")?]?;
    push_declared(alloc, &mut texts, grammar.parameters.as_slice())?;
    let mut further = others;
    texts.append(&mut further)?;
    Ok(texts)
}

/// Adds parameters as they are declared.
fn push_declared(
    alloc: Global,
    texts: &mut Vec<Text>,
    parameters: &[Parameter],
) -> Result<(), AllocError>
    ensures { OnOk result (texts.new.items ≡ texts.old.items ++ map declared_text parameters.now) }
{
    for parameter in parameters {
        texts.push(declared_text(alloc, parameter)?)?;
    }
    Ok(())
}

/// A parameter as it is declared.
fn declared_text(alloc: Global, parameter: &Parameter) -> Result<Text, AllocError>
    ensures { IfOk result (λ t. t ≡ declared_text parameter.now) }
{
    let name = &parameter.name;
    let ty = &parameter.ty;
    Ok(Text(format!(in alloc; "{name}: {ty}")?))
}

/// What the values are shown as.
fn shown_each<T: Shown>(alloc: Global, values: &[T]) -> Result<Vec<Text>, AllocError>
    ensures { IfOk result (λ v. v.items ≡ map T.text values.now) }
{
    let mut texts = Vec::new(alloc);
    for value in values {
        texts.push(shown_text(alloc, value)?)?;
    }
    Ok(texts)
}

/// What a value is shown as.
fn shown_text<T: Shown>(alloc: Global, value: &T) -> Result<Text, AllocError>
    ensures { IfOk result (λ t. t ≡ T.text value.now) }
{
    Ok(Text(value.to_string(alloc)?))
}

/// The lines of a header.
pub(crate) fn header_lines(
    alloc: Global,
    visibility: &Visibility,
    texts: &HeaderTexts,
) -> Result<Vec<Text>, AllocError>
    ensures { IfOk result (λ lines. lines.items ≡ header_lines visibility.now (texts_header texts.now)) }
{
    let mut lines = parameter_lines(alloc, visibility, texts)?;
    lines.push(closing(alloc, &texts.return_type)?)?;
    push_where(alloc, &mut lines, texts.where_clauses.as_slice())?;
    Ok(lines)
}

/// The lines up to the parameters.
fn parameter_lines(
    alloc: Global,
    visibility: &Visibility,
    texts: &HeaderTexts,
) -> Result<Vec<Text>, AllocError>
    ensures { IfOk result (λ lines. lines.items ≡ parameter_lines visibility.now (texts_header texts.now)) }
{
    let mut lines = Vec::new(alloc);
    lines.push(opening(alloc, visibility, &texts.name)?)?;
    push_listed(alloc, &mut lines, "    ", texts.type_parameters.as_slice())?;
    lines.push(Text::from_str(alloc, ">(")?)?;
    push_listed(alloc, &mut lines, "", texts.parameters.as_slice())?;
    Ok(lines)
}

/// The line with the name.
fn opening(alloc: Global, visibility: &Visibility, name: &Text) -> Result<Text, AllocError>
    ensures { IfOk result (λ t. t ≡ opening visibility.now name.now) }
{
    Ok(Text(format!(in alloc; "{visibility}fn {name}<")?))
}

/// A line per text, after a front and with a `,`.
fn push_listed(
    alloc: Global,
    lines: &mut Vec<Text>,
    front: &str,
    texts: &[Text],
) -> Result<(), AllocError>
    ensures { OnOk result (lines.new.items ≡ lines.old.items ++ map (listed front.now) texts.now) }
{
    for text in texts {
        lines.push(Text(format!(in alloc; "{front}{text},")?))?;
    }
    Ok(())
}

/// The line that closes the parameters.
fn closing(alloc: Global, return_type: &Option<Text>) -> Result<Text, AllocError>
    ensures { IfOk result (λ t. t ≡ closing return_type.now) }
{
    match return_type {
        Some(text) if text.as_str() != "()" => Ok(Text(format!(in alloc; ") -> {text}")?)),
        _ => Text::from_str(alloc, ")"),
    }
}

/// The lines of where clauses.
fn push_where(alloc: Global, lines: &mut Vec<Text>, clauses: &[Text]) -> Result<(), AllocError>
    ensures { OnOk result (lines.new.items ≡ lines.old.items ++ where_lines clauses.now) }
{
    if clauses.is_empty() {
        return Ok(());
    }
    lines.push(Text::from_str(alloc, "where")?)?;
    push_listed(alloc, lines, "    ", clauses)
}
