//! Patterns of tokens, as what is printed for them.

ghost use Rattle.std.specs.Prelude.{◌≡◌, [], ◌∷◌, ◌++◌, IfOk, map};
ghost use Rattle.lp_repr.specs.Shown.{path_text};
ghost use Rattle.lp_reading.specs.LayoutView.{layout_of};
ghost use Rattle.lp_reading.specs.Patterns.{arguments_by, char_or_path_by, closed, enclosed, group_by, hole_by, laid, layout, linked_pattern, literal_or_path_by, more_patterns, part_tree, path_pattern_by, pattern_by, pattern_from, pattern_of, pattern_within, patterns_by, printed, quoted, separator, token_pattern};
ghost use Rattle.lp_types.specs.Left.{left};
ghost use Rattle.lp_types.specs.Reading.{Answers, Read, spread};
ghost use Rattle.lp_types.specs.Types.{type_within};

use lp_repr::parse_tree::Path;
use lp_repr::repr::{TokenPattern, TypeRepr};
use lp_repr::text::{Items, Text};
use lp_tok::Tok;
use lp_types::{Kind, MOST_DEPTH, PlainError, Read, Reader};
use std::alloc::{AllocError, Global};
use std::mem;

/// A part of what is printed for a pattern: text, or a hole for what is captured.
#[derive(Drop)]
pub enum Part<T> {
    Printed(Text),
    Hole(T),
}

/// A pattern in the making: the pieces before the last hole, what the holes capture, and the text
/// behind them.
#[derive(Drop)]
struct Layout {
    pieces: Vec<Text>,
    holes: Vec<TypeRepr>,
    last: String,
}

/// A pattern.
pub fn token_pattern<'i>(reader: &mut Reader<'_, 'i>) -> Read<'i, TokenPattern>
    ensures { Answers pattern_of (token_pattern (left reader.old)) result (left reader.new) }
{
    let parts = pattern(reader, MOST_DEPTH)?;
    let made = laid_out(reader.alloc, parts)?;
    Ok(made)
}

/// A pattern that nests at most so deep.
#[cycle(pattern_reading)]
fn pattern<'i>(reader: &mut Reader<'_, 'i>, depth: usize) -> Read<'i, Vec<Part<TypeRepr>>>
    ensures { Answers (λ v. map part_tree v.items) (pattern_within depth (left reader.old)) result (left reader.new) }
{
    match depth.checked_sub(1) {
        None => Err(PlainError::Memory),
        Some(inner) => shallow_pattern(reader, inner),
    }
}

/// A pattern whose parts nest at most so deep.
#[cycle(pattern_reading)]
fn shallow_pattern<'i>(reader: &mut Reader<'_, 'i>, inner: usize) -> Read<'i, Vec<Part<TypeRepr>>>
    ensures { Answers (λ v. map part_tree v.items) (pattern_by (type_within inner) (pattern_within inner) (left reader.old)) result (left reader.new) }
{
    let is_group = reader.passes(&Tok::LeftParen);
    if is_group {
        return patterns(reader, inner);
    }
    let is_hole = reader.passes(&Tok::LessThan);
    if is_hole {
        return hole(reader, inner);
    }
    let is_any = reader.passes(&Tok::Underscore);
    if is_any {
        return shown(reader, "_");
    }
    let is_rest = reader.passes(&Tok::DotDot);
    if is_rest {
        return shown(reader, "..");
    }
    literal_or_path(reader, inner)
}

/// A string or a character literal, or a path, which may have patterns.
#[cycle(pattern_reading)]
fn literal_or_path<'i>(reader: &mut Reader<'_, 'i>, inner: usize) -> Read<'i, Vec<Part<TypeRepr>>>
    ensures { Answers (λ v. map part_tree v.items) (literal_or_path_by (pattern_within inner) (left reader.old)) result (left reader.new) }
{
    match reader.takes(Kind::StringLiteral) {
        Some(text) => quoted(reader, "\"", text),
        None => char_or_path(reader, inner),
    }
}

/// A character literal, or a path, which may have patterns.
#[cycle(pattern_reading)]
fn char_or_path<'i>(reader: &mut Reader<'_, 'i>, inner: usize) -> Read<'i, Vec<Part<TypeRepr>>>
    ensures { Answers (λ v. map part_tree v.items) (char_or_path_by (pattern_within inner) (left reader.old)) result (left reader.new) }
{
    match reader.takes(Kind::CharLiteral) {
        Some(text) => quoted(reader, "'", text),
        None => path_pattern(reader, inner),
    }
}

/// A path, or a path with patterns.
#[cycle(pattern_reading)]
fn path_pattern<'i>(reader: &mut Reader<'_, 'i>, inner: usize) -> Read<'i, Vec<Part<TypeRepr>>>
    ensures { Answers (λ v. map part_tree v.items) (path_pattern_by (pattern_within inner) (left reader.old)) result (left reader.new) }
{
    let path = reader.path(false)?;
    let inside = arguments(reader, inner)?;
    let parts = behind_path(reader.alloc, &path, inside)?;
    Ok(parts)
}

/// Patterns in parentheses, if they come.
#[cycle(pattern_reading)]
fn arguments<'i>(reader: &mut Reader<'_, 'i>, inner: usize) -> Read<'i, Vec<Part<TypeRepr>>>
    ensures { Answers (λ v. map part_tree v.items) (arguments_by (pattern_within inner) (left reader.old)) result (left reader.new) }
{
    if reader.passes(&Tok::LeftParen) {
        patterns(reader, inner)
    } else {
        Ok(Vec::new(reader.alloc))
    }
}

/// What follows `(`: patterns between commas, and `)`.
#[cycle(pattern_reading)]
fn patterns<'i>(reader: &mut Reader<'_, 'i>, inner: usize) -> Read<'i, Vec<Part<TypeRepr>>>
    ensures { Answers (λ v. map part_tree v.items) (patterns_by (pattern_within inner) (left reader.old)) result (left reader.new) }
{
    let inside = group(reader, inner)?;
    let parts = enclosed(reader.alloc, inside)?;
    Ok(parts)
}

/// Patterns between commas, up to `)`.
#[cycle(pattern_reading)]
fn group<'i>(reader: &mut Reader<'_, 'i>, inner: usize) -> Read<'i, Vec<Part<TypeRepr>>>
    ensures { Answers (λ v. map part_tree v.items) (group_by (pattern_within inner) (left reader.old)) result (left reader.new) }
{
    if reader.passes(&Tok::RightParen) {
        Ok(Vec::new(reader.alloc))
    } else {
        linked_patterns(reader, inner)
    }
}

/// Patterns, at least one, up to the `)` behind the last.
#[cycle(pattern_reading)]
fn linked_patterns<'i>(reader: &mut Reader<'_, 'i>, inner: usize) -> Read<'i, Vec<Part<TypeRepr>>>
    ensures { Answers (λ v. map part_tree v.items) (spread (linked_pattern (pattern_within inner)) (left reader.old)) result (left reader.new) }
{
    let mut parts = Vec::new(reader.alloc);
    for turn in 0..reader.turns() {
        let found = linked_pattern(reader, inner)?;
        let more = found.1;
        let mut list = found.0;
        parts.append(&mut list)?;
        if !more {
            return Ok(parts);
        }
    }
    Err(reader.error())
}

/// A pattern with what is printed behind it, and whether another one follows.
#[cycle(pattern_reading)]
fn linked_pattern<'i>(
    reader: &mut Reader<'_, 'i>,
    inner: usize,
) -> Read<'i, (Vec<Part<TypeRepr>>, bool)>
    ensures { Answers (λ p. (map part_tree p.0.items, p.1)) (linked_pattern (pattern_within inner) (left reader.old)) result (left reader.new) }
{
    let found = pattern(reader, inner)?;
    let more = more_patterns(reader)?;
    let parts = separated(reader.alloc, found, more)?;
    Ok((parts, more))
}

/// Whether another pattern follows: a `,` comes with no `)` behind it. What comes is passed.
fn more_patterns<'i>(reader: &mut Reader<'_, 'i>) -> Read<'i, bool>
    ensures { Answers (λ more. more) (more_patterns (left reader.old)) result (left reader.new) }
{
    let is_comma = reader.passes(&Tok::Comma);
    if !is_comma {
        return closed(reader);
    }
    let is_last = reader.passes(&Tok::RightParen);
    if is_last {
        return Ok(false);
    }
    Ok(true)
}

/// The `)` behind the last pattern.
fn closed<'i>(reader: &mut Reader<'_, 'i>) -> Read<'i, bool>
    ensures { Answers (λ more. more) (closed (left reader.old)) result (left reader.new) }
{
    reader.expect(&Tok::RightParen)?;
    Ok(false)
}

/// What follows `<`: the type of what is captured, and `>`.
fn hole<'i>(reader: &mut Reader<'_, 'i>, inner: usize) -> Read<'i, Vec<Part<TypeRepr>>>
    ensures { Answers (λ v. map part_tree v.items) (hole_by (type_within inner) (left reader.old)) result (left reader.new) }
{
    let ty = reader.ty(inner)?;
    reader.expect(&Tok::GreaterThan)?;
    let parts = alone(reader.alloc, Part::Hole(ty))?;
    Ok(parts)
}

/// This text, which is printed; nothing is passed.
fn shown<'i>(reader: &Reader<'_, 'i>, text: &str) -> Read<'i, Vec<Part<TypeRepr>>>
    ensures { Answers (λ v. map part_tree v.items) (Read (printed text.now) (left reader.now)) result (left reader.now) }
{
    let parts = printed(reader.alloc, text)?;
    Ok(parts)
}

/// A literal between its quotes; nothing is passed.
fn quoted<'i>(reader: &Reader<'_, 'i>, quote: &str, text: &str) -> Read<'i, Vec<Part<TypeRepr>>>
    ensures { Answers (λ v. map part_tree v.items) (Read (quoted quote.now text.now) (left reader.now)) result (left reader.now) }
{
    let literal = between(reader.alloc, quote, text)?;
    let parts = printed(reader.alloc, literal.as_str())?;
    Ok(parts)
}

/// A text between quotes.
fn between(alloc: Global, quote: &str, text: &str) -> Result<Text, AllocError>
    ensures { IfOk result (λ t. t ≡ quote.now ++ (text.now ++ quote.now)) }
{
    let mut literal = String::from_str(alloc, quote)?;
    literal.push_str(text)?;
    literal.push_str(quote)?;
    Ok(Text(literal))
}

/// A text, as what is printed.
fn printed(alloc: Global, text: &str) -> Result<Vec<Part<TypeRepr>>, AllocError>
    ensures { IfOk result (λ v. map part_tree v.items ≡ printed text.now) }
{
    let text = Text::from_str(alloc, text)?;
    alone(alloc, Part::Printed(text))
}

/// One part.
fn alone(alloc: Global, part: Part<TypeRepr>) -> Result<Vec<Part<TypeRepr>>, AllocError>
    ensures { IfOk result (λ v. map part_tree v.items ≡ part_tree part ∷ []) }
{
    let mut parts = Vec::new(alloc);
    parts.push(part)?;
    Ok(parts)
}

/// A path, and what is printed behind it.
fn behind_path(
    alloc: Global,
    path: &Path,
    inside: Vec<Part<TypeRepr>>,
) -> Result<Vec<Part<TypeRepr>>, AllocError>
    ensures { IfOk result (λ v. map part_tree v.items ≡ part_tree (Part.Printed (path_text path.now)) ∷ map part_tree inside.items) }
{
    let text = path_shown(alloc, path)?;
    front_of(alloc, text, inside)
}

/// A text, and what is printed behind it.
fn front_of(
    alloc: Global,
    text: Text,
    inside: Vec<Part<TypeRepr>>,
) -> Result<Vec<Part<TypeRepr>>, AllocError>
    ensures { IfOk result (λ v. map part_tree v.items ≡ part_tree (Part.Printed text) ∷ map part_tree inside.items) }
{
    let mut parts = Vec::new(alloc);
    let mut behind = inside;
    parts.push(Part::Printed(text))?;
    parts.append(&mut behind)?;
    Ok(parts)
}

/// What a path is shown as.
fn path_shown(alloc: Global, path: &Path) -> Result<Text, AllocError>
    ensures { IfOk result (λ t. t ≡ path_text path.now) }
{
    let text = path.to_string(alloc)?;
    Ok(Text(text))
}

/// A group, whose inside this is.
fn enclosed(alloc: Global, inside: Vec<Part<TypeRepr>>) -> Result<Vec<Part<TypeRepr>>, AllocError>
    ensures { IfOk result (λ v. map part_tree v.items ≡ enclosed (map part_tree inside.items)) }
{
    let front = Text::from_str(alloc, "(")?;
    let closed = behind(alloc, inside, ")")?;
    front_of(alloc, front, closed)
}

/// Parts, with this text behind them.
fn behind(
    alloc: Global,
    parts: Vec<Part<TypeRepr>>,
    text: &str,
) -> Result<Vec<Part<TypeRepr>>, AllocError>
    ensures { IfOk result (λ v. map part_tree v.items ≡ map part_tree parts.items ++ printed text.now) }
{
    let mut all = parts;
    let text = Text::from_str(alloc, text)?;
    all.push(Part::Printed(text))?;
    Ok(all)
}

/// A pattern with what is printed behind it, where another one follows or not.
fn separated(
    alloc: Global,
    parts: Vec<Part<TypeRepr>>,
    more: bool,
) -> Result<Vec<Part<TypeRepr>>, AllocError>
    ensures { IfOk result (λ v. map part_tree v.items ≡ map part_tree parts.items ++ separator more) }
{
    if more {
        behind(alloc, parts, ", ")
    } else {
        Ok(parts)
    }
}

/// The pattern of parts.
fn laid_out(alloc: Global, parts: Vec<Part<TypeRepr>>) -> Result<TokenPattern, AllocError>
    ensures { IfOk result (λ p. pattern_of p ≡ pattern_from (layout (map part_tree parts.items))) }
{
    let mut made = unlaid(alloc);
    for part in parts {
        lay(alloc, &mut made, part)?;
    }
    finished(made)
}

/// Nothing laid out.
fn unlaid(alloc: Global) -> Layout
    ensures { layout_of result ≡ layout [] }
{
    Layout {
        pieces: Vec::new(alloc),
        holes: Vec::new(alloc),
        last: String::new(alloc),
    }
}

/// Lays out one part more.
fn lay(alloc: Global, made: &mut Layout, part: Part<TypeRepr>) -> Result<(), AllocError>
    ensures { IfOk result (λ _. layout_of made.new ≡ laid (layout_of made.old) (part_tree part)) }
{
    match part {
        Part::Printed(text) => {
            made.last.push_str(text.as_str())?;
            Ok(())
        }
        Part::Hole(ty) => {
            let piece = mem::replace(&mut made.last, String::new(alloc));
            made.pieces.push(Text(piece))?;
            made.holes.push(ty)?;
            Ok(())
        }
    }
}

/// The pattern that was laid out.
fn finished(made: Layout) -> Result<TokenPattern, AllocError>
    ensures { IfOk result (λ p. pattern_of p ≡ pattern_from (layout_of made)) }
{
    let Layout {
        mut pieces,
        holes,
        last,
    } = made;
    pieces.push(Text(last))?;
    Ok(TokenPattern {
        pieces: Items(pieces),
        holes: Items(holes),
    })
}
