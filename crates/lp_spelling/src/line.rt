//! Reading a line by its template.

ghost use Rattle.std.specs.Prelude.{◌≡◌, ◌++◌, [], map, option_copied, IfOk, IfSome, vec_len};
ghost use Rattle.std.specs.Bool.{OnTrue};
ghost use Rattle.std.specs.Str.{IsUtf8};
ghost use Rattle.lp_form.specs.declared.template.Slot.TheVariants.{Hole};
ghost use Rattle.lp_form.specs.Templates.{piece};
ghost use Rattle.lp_spelling.specs.Lines.{TakesSlot, TakesParts};
ghost use Rattle.lp_spelling.specs.LineReading.{after, kind_of, new_at, slot_at, line_at, ReadsSlot, ReadsLine};

use crate::ends::hole_len;
use crate::fill::may_fill;
use lp_form::template::Piece as LinePart;
use lp_form::{Kind, Slot};
use lp_tree::piece::Piece;
use std::alloc::{AllocError, Global};
use std::borrow::CowStr;

/// What is known while a part is read: the prefix, and what its holes are to hold.
#[derive(Clone, Copy)]
pub struct Scope<'s> {
    pub alloc: Global,
    pub prefix: &'s str,
    pub kinds: &'static [Kind],
}

/// The kind of a hole.
fn kind_of(kinds: &[Kind], k: usize) -> Kind
    ensures { result ≡ kind_of kinds.now k }
{
    if k < kinds.len() {
        kinds[k]
    } else {
        Kind::Text
    }
}

/// The text after its front, if it begins so.
#[tactic(auto, using(crate::proofs::Spelled::front_off))]
fn after_front<'t>(front: &str, text: &'t str) -> Option<&'t str>
    ensures spelled { IfSome result (λ rest. text.now ≡ front.now ++ rest.now) }
    ensures text { IfSome result (λ rest. IsUtf8 rest.now) }
    ensures exact { option_copied result ≡ after front.now text.now }
{
    text.strip_prefix(front)
}

/// Takes a hole that isn't known yet, and gives the text after it.
fn take_new<'t>(
    scope: Scope<'_>,
    k: usize,
    parts: &[LinePart],
    known: &mut Vec<Piece<'t>>,
    text: &'t str,
) -> Result<Option<&'t str>, AllocError>
    requires { k ≡ vec_len known.old }
    ensures spelled { IfOk result (λ r. IfSome r (λ rest. TakesSlot scope.entry.prefix.now (Hole k) known.old.items known.new.items text.now rest.now)) }
    ensures text { IfOk result (λ r. IfSome r (λ rest. IsUtf8 rest.now)) }
    ensures exact { IfOk result (λ r. ReadsSlot scope.entry.prefix.now scope.entry.kinds.now known.old.items known.new.items (new_at scope.entry.prefix.now scope.entry.kinds.now k (map piece parts.now) known.old.items text.now) r) }
{
    let kind = kind_of(scope.kinds, k);
    let n = hole_len(scope.prefix, kind, k, parts, known.as_slice(), text);
    if !text.is_char_boundary(n) {
        return Ok(None);
    }
    let (front, rest) = text.split_at(n);
    if !may_fill(scope.alloc, scope.prefix, kind, front)? {
        return Ok(None);
    }
    known.push(Piece::new(CowStr::Borrowed(front)))?;
    Ok(Some(rest))
}

/// Takes what a slot holds, and gives the text after it.
fn take_slot<'t>(
    scope: Scope<'_>,
    slot: Slot,
    parts: &[LinePart],
    known: &mut Vec<Piece<'t>>,
    text: &'t str,
) -> Result<Option<&'t str>, AllocError>
    ensures spelled { IfOk result (λ r. IfSome r (λ rest. TakesSlot scope.entry.prefix.now slot known.old.items known.new.items text.now rest.now)) }
    ensures text { IfOk result (λ r. IfSome r (λ rest. IsUtf8 rest.now)) }
    ensures exact { IfOk result (λ r. ReadsSlot scope.entry.prefix.now scope.entry.kinds.now known.old.items known.new.items (slot_at scope.entry.prefix.now scope.entry.kinds.now slot (map piece parts.now) known.old.items text.now) r) }
{
    match slot {
        Slot::Nothing => Ok(Some(text)),
        Slot::Prefix => Ok(after_front(scope.prefix, text)),
        Slot::Hole(k) => {
            if k < known.len() {
                return Ok(after_front(known[k].as_str(), text));
            }
            if k > known.len() {
                return Ok(None);
            }
            take_new(scope, k, parts, known, text)
        }
    }
}

/// Whether a line is spelled by the parts. The holes that it tells are added to those that are
/// known.
pub fn read_line<'t>(
    scope: Scope<'_>,
    parts: &[LinePart],
    known: &mut Vec<Piece<'t>>,
    line: &'t str,
) -> Result<bool, AllocError>
    ensures spelled { IfOk result (λ b. OnTrue b (TakesParts scope.entry.prefix.now (map piece parts.now) known.old.items known.new.items line.now [])) }
    ensures exact { IfOk result (ReadsLine scope.entry.prefix.now scope.entry.kinds.now known.old.items known.new.items (line_at scope.entry.prefix.now scope.entry.kinds.now (map piece parts.now) known.old.items line.now)) }
{
    let mut rest = line;
    for (i, part) in parts.iter().enumerate() {
        let Some(after) = after_front(part.0, rest) else {
            return Ok(false);
        };
        match take_slot(scope, part.1, &parts[i + 1..], known, after)? {
            None => return Ok(false),
            Some(text) => rest = text,
        }
    }
    Ok(rest.is_empty())
}
