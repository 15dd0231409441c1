//! The `extern` block of a grammar file.

ghost use Rattle.std.specs.Prelude.{◌≡◌, map};
ghost use Rattle.std.specs.Option.{option_map};
ghost use Rattle.lp_repr.specs.TypeTrees.{type_tree};
ghost use Rattle.lp_reading.specs.ExternView.{enum_tree, extern_tree, types_told};
ghost use Rattle.lp_reading.specs.Externs.{associated_type, associated_types, bare_terminal, conversion, conversions, error_alone, error_behind, extern_block, location_first, maybe_error, terminal, terminal_tree, token_enum, told_types};
ghost use Rattle.lp_tok.specs.declared.tok.Tok.TheVariants.{RightBrace};
ghost use Rattle.lp_types.specs.Left.{left};
ghost use Rattle.lp_types.specs.Reading.{Answers, listed};

use crate::read_literal::takes_value;
use crate::read_pattern::token_pattern;
use lp_repr::consts::{ERROR, LOCATION};
use lp_repr::repr::{TerminalString, TypeRepr};
use lp_repr::text::Text;
use lp_syntax::PlainTerminal;
use lp_tok::Tok;
use lp_types::{Kind, Read, Reader};

/// The `extern` block.
#[derive(Drop)]
pub struct Extern {
    pub types: AssociatedTypes,
    pub tokens: TokenEnum,
}

/// The types of locations and of errors, where they are told.
#[derive(Drop)]
pub struct AssociatedTypes {
    pub location: Option<TypeRepr>,
    pub error: Option<TypeRepr>,
}

/// The type of tokens, and the terminals.
#[derive(Drop)]
pub struct TokenEnum {
    pub token: TypeRepr,
    pub conversions: Vec<PlainTerminal>,
}

/// The `extern` block.
pub fn extern_block<'i>(reader: &mut Reader<'_, 'i>) -> Read<'i, Extern>
    ensures { Answers extern_tree (extern_block (left reader.old)) result (left reader.new) }
{
    reader.expect(&Tok::Extern)?;
    reader.expect(&Tok::LeftBrace)?;
    let types = associated_types(reader)?;
    let tokens = token_enum(reader)?;
    reader.expect(&Tok::RightBrace)?;
    Ok(Extern { types, tokens })
}

/// `enum T { .. }`.
fn token_enum<'i>(reader: &mut Reader<'_, 'i>) -> Read<'i, TokenEnum>
    ensures { Answers enum_tree (token_enum (left reader.old)) result (left reader.new) }
{
    reader.expect(&Tok::Enum)?;
    let token = reader.full_type()?;
    reader.expect(&Tok::LeftBrace)?;
    let conversions = conversions(reader)?;
    Ok(TokenEnum { token, conversions })
}

/// `type Location = T;` and `type Error = T;` in this order, each of which may be there.
fn associated_types<'i>(reader: &mut Reader<'_, 'i>) -> Read<'i, AssociatedTypes>
    ensures { Answers types_told (associated_types (left reader.old)) result (left reader.new) }
{
    if reader.passes(&Tok::TypeWord) {
        told_types(reader)
    } else {
        Ok(AssociatedTypes {
            location: None,
            error: None,
        })
    }
}

/// What follows `type`.
fn told_types<'i>(reader: &mut Reader<'_, 'i>) -> Read<'i, AssociatedTypes>
    ensures { Answers types_told (told_types (left reader.old)) result (left reader.new) }
{
    if reader.passes_word(ERROR) {
        error_alone(reader)
    } else {
        location_first(reader)
    }
}

/// `= T;` behind `type Error`.
fn error_alone<'i>(reader: &mut Reader<'_, 'i>) -> Read<'i, AssociatedTypes>
    ensures { Answers types_told (error_alone (left reader.old)) result (left reader.new) }
{
    let ty = associated_type(reader)?;
    Ok(AssociatedTypes {
        location: None,
        error: Some(ty),
    })
}

/// `Location = T;`, and `type Error = T;`, if it comes.
fn location_first<'i>(reader: &mut Reader<'_, 'i>) -> Read<'i, AssociatedTypes>
    ensures { Answers types_told (location_first (left reader.old)) result (left reader.new) }
{
    reader.expect_word(LOCATION)?;
    let ty = associated_type(reader)?;
    maybe_error(reader, Some(ty))
}

/// `type Error = T;`, if it comes.
fn maybe_error<'i>(
    reader: &mut Reader<'_, 'i>,
    location: Option<TypeRepr>,
) -> Read<'i, AssociatedTypes>
    ensures { Answers types_told (maybe_error (option_map type_tree location) (left reader.old)) result (left reader.new) }
{
    if reader.passes(&Tok::TypeWord) {
        error_behind(reader, location)
    } else {
        Ok(AssociatedTypes {
            location,
            error: None,
        })
    }
}

/// `Error = T;` behind a location's type.
fn error_behind<'i>(
    reader: &mut Reader<'_, 'i>,
    location: Option<TypeRepr>,
) -> Read<'i, AssociatedTypes>
    ensures { Answers types_told (error_behind (option_map type_tree location) (left reader.old)) result (left reader.new) }
{
    reader.expect_word(ERROR)?;
    let ty = associated_type(reader)?;
    Ok(AssociatedTypes {
        location,
        error: Some(ty),
    })
}

/// What follows the name of an associated type.
fn associated_type<'i>(reader: &mut Reader<'_, 'i>) -> Read<'i, TypeRepr>
    ensures { Answers type_tree (associated_type (left reader.old)) result (left reader.new) }
{
    reader.expect(&Tok::Equals)?;
    let ty = reader.full_type()?;
    reader.expect(&Tok::Semi)?;
    Ok(ty)
}

/// Terminals between commas, up to `}`.
fn conversions<'i>(reader: &mut Reader<'_, 'i>) -> Read<'i, Vec<PlainTerminal>>
    ensures { Answers (λ v. map terminal_tree v.items) (conversions (left reader.old)) result (left reader.new) }
{
    let mut list = Vec::new(reader.alloc);
    for turn in 0..reader.turns() {
        match next_conversion(reader)? {
            None => return Ok(list),
            Some(terminal) => list.push(terminal)?,
        }
    }
    Err(reader.error())
}

/// The next terminal, or none at `}`, which is passed.
fn next_conversion<'i>(reader: &mut Reader<'_, 'i>) -> Read<'i, Option<PlainTerminal>>
    ensures { Answers (option_map terminal_tree) (listed RightBrace conversion (left reader.old)) result (left reader.new) }
{
    if reader.passes(&Tok::RightBrace) {
        return Ok(None);
    }
    let found = conversion(reader)?;
    reader.separates(&Tok::RightBrace)?;
    Ok(Some(found))
}

/// A terminal, `=>` and its pattern.
fn conversion<'i>(reader: &mut Reader<'_, 'i>) -> Read<'i, PlainTerminal>
    ensures { Answers terminal_tree (conversion (left reader.old)) result (left reader.new) }
{
    let place = reader.next_place();
    let name = terminal(reader)?;
    let _code = reader.text(Kind::Code)?;
    let pattern = token_pattern(reader)?;
    Ok(PlainTerminal {
        name,
        pattern,
        place,
    })
}

/// A terminal: a string literal, its escapes applied, or a name.
fn terminal<'i>(reader: &mut Reader<'_, 'i>) -> Read<'i, TerminalString>
    ensures { Answers (λ t. t) (terminal (left reader.old)) result (left reader.new) }
{
    let found = takes_value(reader)?;
    match found {
        Some(value) => Ok(TerminalString::Quoted(value)),
        None => bare_terminal(reader),
    }
}

/// A terminal that is a name.
fn bare_terminal<'i>(reader: &mut Reader<'_, 'i>) -> Read<'i, TerminalString>
    ensures { Answers (λ t. t) (bare_terminal (left reader.old)) result (left reader.new) }
{
    let id = reader.text(Kind::Id)?;
    let name = Text::from_str(reader.alloc, id)?;
    Ok(TerminalString::Bare(name))
}
