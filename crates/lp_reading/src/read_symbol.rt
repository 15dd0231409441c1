//! Symbols and alternatives.

ghost use Rattle.std.specs.Prelude.{◌≡◌, IfOk};
ghost use Rattle.lp_reading.specs.Symbols.{alternative, arrow, bare_symbol, binding, bound_name, bound_to, fallible_arrow, linked_symbol, literal_or_sign, more_symbols, named_symbol, no_fallible, no_symbols, sign, symbol, symbol_kind, symbols};
ghost use Rattle.lp_types.specs.Left.{left};
ghost use Rattle.lp_types.specs.Reading.{Answers, Read, chained};

use crate::read_literal::takes_value;
use lp_repr::text::{Items, Text};
use lp_syntax::{PlainAlternative, PlainKind, PlainSymbol};
use lp_tok::Tok;
use lp_types::{Kind, Read, Reader};
use std::alloc::{AllocError, Global};

/// An alternative: symbols, and an arrow with its code.
pub fn alternative<'i>(reader: &mut Reader<'_, 'i>) -> Read<'i, PlainAlternative>
    ensures { Answers (λ a. a) (alternative (left reader.old)) result (left reader.new) }
{
    let found = symbols(reader)?;
    let tail = arrow(reader)?;
    let code = Text::from_str(reader.alloc, tail.1.trim())?;
    Ok(PlainAlternative {
        symbols: found,
        fallible: tail.0,
        code,
    })
}

/// An arrow with its code: whether it is `=>?`, and the code.
fn arrow<'i>(reader: &mut Reader<'_, 'i>) -> Read<'i, (bool, &'i str)>
    ensures { Answers (λ p. (p.0, p.1.now)) (arrow (left reader.old)) result (left reader.new) }
{
    match reader.takes(Kind::Code) {
        Some(code) => Ok((false, code)),
        None => fallible_arrow(reader),
    }
}

/// `=>?` and its code.
fn fallible_arrow<'i>(reader: &mut Reader<'_, 'i>) -> Read<'i, (bool, &'i str)>
    ensures { Answers (λ p. (p.0, p.1.now)) (fallible_arrow (left reader.old)) result (left reader.new) }
{
    match reader.takes(Kind::FallibleCode) {
        Some(code) => Ok((true, code)),
        None => Err(reader.error()),
    }
}

/// `()`, or symbols, at least one, up to an arrow.
fn symbols<'i>(reader: &mut Reader<'_, 'i>) -> Read<'i, Items<PlainSymbol>>
    ensures { Answers (λ list. list) (symbols (left reader.old)) result (left reader.new) }
{
    if reader.passes(&Tok::LeftParen) {
        no_symbols(reader)
    } else {
        some_symbols(reader)
    }
}

/// What follows the `(` of `()`.
fn no_symbols<'i>(reader: &mut Reader<'_, 'i>) -> Read<'i, Items<PlainSymbol>>
    ensures { Answers (λ list. list) (no_symbols (left reader.old)) result (left reader.new) }
{
    reader.expect(&Tok::RightParen)?;
    let none = Vec::new(reader.alloc);
    Ok(Items(none))
}

/// Symbols, at least one, up to an arrow.
fn some_symbols<'i>(reader: &mut Reader<'_, 'i>) -> Read<'i, Items<PlainSymbol>>
    ensures { Answers (λ list. list) (chained linked_symbol (left reader.old)) result (left reader.new) }
{
    let mut list = Vec::new(reader.alloc);
    for turn in 0..reader.turns() {
        let found = linked_symbol(reader)?;
        let more = found.1;
        list.push(found.0)?;
        if !more {
            return Ok(Items(list));
        }
    }
    Err(reader.error())
}

/// A symbol, and whether another one follows: no arrow does.
fn linked_symbol<'i>(reader: &mut Reader<'_, 'i>) -> Read<'i, (PlainSymbol, bool)>
    ensures { Answers (λ p. p) (linked_symbol (left reader.old)) result (left reader.new) }
{
    let found = symbol(reader)?;
    let more = more_symbols(reader);
    Ok((found, more))
}

/// Whether no arrow comes next.
fn more_symbols<'i>(reader: &Reader<'_, 'i>) -> bool
    ensures { more_symbols (left reader.now) ≡ Read result (left reader.now) }
{
    match reader.seen_text(Kind::Code) {
        Some(_) => false,
        None => no_fallible(reader),
    }
}

/// Whether no `=>?` comes next.
fn no_fallible<'i>(reader: &Reader<'_, 'i>) -> bool
    ensures { no_fallible (left reader.now) ≡ Read result (left reader.now) }
{
    match reader.seen_text(Kind::FallibleCode) {
        Some(_) => false,
        None => true,
    }
}

/// A symbol, which may be bound to a name.
fn symbol<'i>(reader: &mut Reader<'_, 'i>) -> Read<'i, PlainSymbol>
    ensures { Answers (λ s. s) (symbol (left reader.old)) result (left reader.new) }
{
    if reader.passes(&Tok::LessThan) {
        named_symbol(reader)
    } else {
        bare_symbol(reader)
    }
}

/// What follows the `<` of `<name:symbol>` or `<mut name:symbol>`.
fn named_symbol<'i>(reader: &mut Reader<'_, 'i>) -> Read<'i, PlainSymbol>
    ensures { Answers (λ s. s) (named_symbol (left reader.old)) result (left reader.new) }
{
    let name = binding(reader)?;
    reader.expect(&Tok::Colon)?;
    let found = bound_to(reader, name)?;
    reader.expect(&Tok::GreaterThan)?;
    Ok(found)
}

/// A symbol alone, which binds `_`.
fn bare_symbol<'i>(reader: &mut Reader<'_, 'i>) -> Read<'i, PlainSymbol>
    ensures { Answers (λ s. s) (bare_symbol (left reader.old)) result (left reader.new) }
{
    let name = Text::from_str(reader.alloc, "_")?;
    bound_to(reader, name)
}

/// `name`, or `mut name`, as the pattern that is printed.
fn binding<'i>(reader: &mut Reader<'_, 'i>) -> Read<'i, Text>
    ensures { Answers (λ name. name) (binding (left reader.old)) result (left reader.new) }
{
    let mutable = reader.passes(&Tok::Mut);
    let id = reader.text(Kind::Id)?;
    let name = bound_name(reader.alloc, mutable, id)?;
    Ok(name)
}

fn bound_name(alloc: Global, mutable: bool, id: &str) -> Result<Text, AllocError>
    ensures { IfOk result (λ t. t ≡ bound_name mutable id.now) }
{
    if mutable {
        let mut name = String::from_str(alloc, "mut ")?;
        name.push_str(id)?;
        Ok(Text(name))
    } else {
        Text::from_str(alloc, id)
    }
}

/// A symbol itself, bound to this name.
fn bound_to<'i>(reader: &mut Reader<'_, 'i>, name: Text) -> Read<'i, PlainSymbol>
    ensures { Answers (λ s. s) (bound_to name (left reader.old)) result (left reader.new) }
{
    let place = reader.next_place();
    let kind = symbol_kind(reader)?;
    Ok(PlainSymbol { name, kind, place })
}

/// What a symbol stands for: a name, a string literal, `@L`, `@R` or `!`.
fn symbol_kind<'i>(reader: &mut Reader<'_, 'i>) -> Read<'i, PlainKind>
    ensures { Answers (λ k. k) (symbol_kind (left reader.old)) result (left reader.new) }
{
    match reader.takes(Kind::Id) {
        Some(id) => {
            let name = Text::from_str(reader.alloc, id)?;
            Ok(PlainKind::Name(name))
        }
        None => literal_or_sign(reader),
    }
}

/// A string literal, or a sign.
fn literal_or_sign<'i>(reader: &mut Reader<'_, 'i>) -> Read<'i, PlainKind>
    ensures { Answers (λ k. k) (literal_or_sign (left reader.old)) result (left reader.new) }
{
    let found = takes_value(reader)?;
    match found {
        Some(value) => Ok(PlainKind::Terminal(value)),
        None => sign(reader),
    }
}

/// `@L`, `@R` or `!`.
fn sign<'i>(reader: &mut Reader<'_, 'i>) -> Read<'i, PlainKind>
    ensures { Answers (λ k. k) (sign (left reader.old)) result (left reader.new) }
{
    let is_lookahead = reader.passes(&Tok::Lookahead);
    if is_lookahead {
        return Ok(PlainKind::Lookahead);
    }
    let is_lookbehind = reader.passes(&Tok::Lookbehind);
    if is_lookbehind {
        return Ok(PlainKind::Lookbehind);
    }
    let is_error = reader.passes(&Tok::Bang);
    if is_error {
        return Ok(PlainKind::Error);
    }
    Err(reader.error())
}
