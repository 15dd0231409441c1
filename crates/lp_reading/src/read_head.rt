//! What stands before the rules of a grammar file.

ghost use Rattle.std.specs.Prelude.{◌≡◌, map};
ghost use Rattle.std.specs.Option.{option_map};
ghost use Rattle.lp_repr.specs.TypeTrees.{clause_tree};
ghost use Rattle.lp_reading.specs.HeadView.{head_tree, lists_tree};
ghost use Rattle.lp_reading.specs.Heads.{attributes, codegen, head, lists, marked_codegen, maybe_clauses, maybe_parameters, maybe_type_parameters, named_codegen, next_use, parameter, parameter_tree, parameters, table_driven, uses};
ghost use Rattle.lp_tok.specs.declared.tok.Tok.TheVariants.{RightParen};
ghost use Rattle.lp_types.specs.Left.{left};
ghost use Rattle.lp_types.specs.Reading.{Answers, listed, taken};

use lp_repr::consts::{RECURSIVE_ASCENT, TABLE_DRIVEN};
use lp_repr::parse_tree::TypeParameter;
use lp_repr::repr::{LrCodeGeneration, Parameter, WhereClause};
use lp_repr::text::Text;
use lp_tok::Tok;
use lp_types::{Kind, Read, Reader};

/// What stands before the rules.
#[derive(Drop)]
pub struct Head {
    pub attributes: Vec<Text>,
    pub uses: Vec<Text>,
    pub codegen: LrCodeGeneration,
    pub lists: Lists,
}

/// What `grammar` is followed by.
#[derive(Drop)]
pub struct Lists {
    pub type_parameters: Vec<TypeParameter>,
    pub parameters: Vec<Parameter>,
    pub where_clauses: Vec<WhereClause>,
}

/// What stands before the rules.
pub fn file_head<'i>(reader: &mut Reader<'_, 'i>) -> Read<'i, Head>
    ensures { Answers head_tree (head (left reader.old)) result (left reader.new) }
{
    let attributes = attributes(reader)?;
    let uses = uses(reader)?;
    let codegen = codegen(reader)?;
    let lists = head_lists(reader)?;
    Ok(Head {
        attributes,
        uses,
        codegen,
        lists,
    })
}

/// `grammar` with its type parameters, parameters and clauses, and `;`.
fn head_lists<'i>(reader: &mut Reader<'_, 'i>) -> Read<'i, Lists>
    ensures { Answers lists_tree (lists (left reader.old)) result (left reader.new) }
{
    reader.expect(&Tok::Grammar)?;
    let type_parameters = maybe_type_parameters(reader)?;
    let parameters = maybe_parameters(reader)?;
    let where_clauses = maybe_clauses(reader)?;
    reader.expect(&Tok::Semi)?;
    Ok(Lists {
        type_parameters,
        parameters,
        where_clauses,
    })
}

/// Type parameters in `<` and `>`, if they come.
fn maybe_type_parameters<'i>(reader: &mut Reader<'_, 'i>) -> Read<'i, Vec<TypeParameter>>
    ensures { Answers (λ v. v.items) (maybe_type_parameters (left reader.old)) result (left reader.new) }
{
    if reader.passes(&Tok::LessThan) {
        reader.type_parameters()
    } else {
        Ok(Vec::new(reader.alloc))
    }
}

/// Parameters in `(` and `)`, if they come.
fn maybe_parameters<'i>(reader: &mut Reader<'_, 'i>) -> Read<'i, Vec<Parameter>>
    ensures { Answers (λ v. map parameter_tree v.items) (maybe_parameters (left reader.old)) result (left reader.new) }
{
    if reader.passes(&Tok::LeftParen) {
        parameters(reader)
    } else {
        Ok(Vec::new(reader.alloc))
    }
}

/// `where` with its clauses, if it comes.
fn maybe_clauses<'i>(reader: &mut Reader<'_, 'i>) -> Read<'i, Vec<WhereClause>>
    ensures { Answers (λ v. map clause_tree v.items) (maybe_clauses (left reader.old)) result (left reader.new) }
{
    if reader.passes(&Tok::Where) {
        reader.clauses()
    } else {
        Ok(Vec::new(reader.alloc))
    }
}

/// Any number of attributes `#![..]`.
fn attributes<'i>(reader: &mut Reader<'_, 'i>) -> Read<'i, Vec<Text>>
    ensures { Answers (λ v. v.items) (attributes (left reader.old)) result (left reader.new) }
{
    let mut list = Vec::new(reader.alloc);
    for turn in 0..reader.turns() {
        match next_attribute(reader)? {
            None => return Ok(list),
            Some(text) => list.push(text)?,
        }
    }
    Err(reader.error())
}

/// The next attribute, if one comes.
fn next_attribute<'i>(reader: &mut Reader<'_, 'i>) -> Read<'i, Option<Text>>
    ensures { Answers (λ o. o) (taken Kind.Attribute (left reader.old)) result (left reader.new) }
{
    match reader.takes(Kind::Attribute) {
        None => Ok(None),
        Some(text) => {
            let copy = Text::from_str(reader.alloc, text)?;
            Ok(Some(copy))
        }
    }
}

/// Any number of `use ..;`.
fn uses<'i>(reader: &mut Reader<'_, 'i>) -> Read<'i, Vec<Text>>
    ensures { Answers (λ v. v.items) (uses (left reader.old)) result (left reader.new) }
{
    let mut list = Vec::new(reader.alloc);
    for turn in 0..reader.turns() {
        match next_use(reader)? {
            None => return Ok(list),
            Some(text) => list.push(text)?,
        }
    }
    Err(reader.error())
}

/// The next `use ..;`, if one comes, without blanks around the text.
fn next_use<'i>(reader: &mut Reader<'_, 'i>) -> Read<'i, Option<Text>>
    ensures { Answers (λ o. o) (next_use (left reader.old)) result (left reader.new) }
{
    match reader.takes(Kind::Use) {
        None => Ok(None),
        Some(text) => {
            reader.expect(&Tok::Semi)?;
            let copy = Text::from_str(reader.alloc, text.trim())?;
            Ok(Some(copy))
        }
    }
}

/// `#[recursive_ascent]`, `#[table_driven]` or nothing.
fn codegen<'i>(reader: &mut Reader<'_, 'i>) -> Read<'i, LrCodeGeneration>
    ensures { Answers (λ g. g) (codegen (left reader.old)) result (left reader.new) }
{
    if reader.passes(&Tok::Hash) {
        marked_codegen(reader)
    } else {
        Ok(LrCodeGeneration::TableDriven)
    }
}

/// What follows `#`.
fn marked_codegen<'i>(reader: &mut Reader<'_, 'i>) -> Read<'i, LrCodeGeneration>
    ensures { Answers (λ g. g) (marked_codegen (left reader.old)) result (left reader.new) }
{
    reader.expect(&Tok::LeftBracket)?;
    let found = named_codegen(reader)?;
    reader.expect(&Tok::RightBracket)?;
    Ok(found)
}

/// `recursive_ascent` or `table_driven`.
fn named_codegen<'i>(reader: &mut Reader<'_, 'i>) -> Read<'i, LrCodeGeneration>
    ensures { Answers (λ g. g) (named_codegen (left reader.old)) result (left reader.new) }
{
    if reader.passes_word(RECURSIVE_ASCENT) {
        Ok(LrCodeGeneration::RecursiveAscent)
    } else {
        table_driven(reader)
    }
}

/// `table_driven`.
fn table_driven<'i>(reader: &mut Reader<'_, 'i>) -> Read<'i, LrCodeGeneration>
    ensures { Answers (λ g. g) (table_driven (left reader.old)) result (left reader.new) }
{
    reader.expect_word(TABLE_DRIVEN)?;
    Ok(LrCodeGeneration::TableDriven)
}

/// Parameters between commas, up to `)`.
fn parameters<'i>(reader: &mut Reader<'_, 'i>) -> Read<'i, Vec<Parameter>>
    ensures { Answers (λ v. map parameter_tree v.items) (parameters (left reader.old)) result (left reader.new) }
{
    let mut list = Vec::new(reader.alloc);
    for turn in 0..reader.turns() {
        match next_parameter(reader)? {
            None => return Ok(list),
            Some(parameter) => list.push(parameter)?,
        }
    }
    Err(reader.error())
}

/// The next parameter, or none at `)`, which is passed.
fn next_parameter<'i>(reader: &mut Reader<'_, 'i>) -> Read<'i, Option<Parameter>>
    ensures { Answers (option_map parameter_tree) (listed RightParen parameter (left reader.old)) result (left reader.new) }
{
    if reader.passes(&Tok::RightParen) {
        return Ok(None);
    }
    let found = parameter(reader)?;
    reader.separates(&Tok::RightParen)?;
    Ok(Some(found))
}

/// `name: type`.
fn parameter<'i>(reader: &mut Reader<'_, 'i>) -> Read<'i, Parameter>
    ensures { Answers parameter_tree (parameter (left reader.old)) result (left reader.new) }
{
    let id = reader.text(Kind::Id)?;
    reader.expect(&Tok::Colon)?;
    let ty = reader.full_type()?;
    let name = Text::from_str(reader.alloc, id)?;
    Ok(Parameter { name, ty })
}
