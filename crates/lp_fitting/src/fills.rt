//! What the holes of a part hold.

ghost use Rattle.std.specs.Prelude.{◌≡◌, ◌↔◌, ◌<◌, [], get_or, length, All, IsTrue, IfOk};
ghost use Rattle.std.specs.Str.{IsUtf8};
ghost use Rattle.lp_spelling.specs.LineReading.{kind_of};
ghost use Rattle.lp_reading_laws.specs.Printing.WellFormed.{is_pattern, HolesFill};
ghost use Rattle.lp_fitting.specs.Fitting.{MayStand};

use lp_form::Kind;
use lp_spelling::may_fill;
use lp_tree::Piece;
use std::alloc::{AllocError, Global};

/// Whether a hole of a kind holds patterns.
fn is_pattern(kind: Kind) -> bool
    ensures { result ≡ is_pattern kind }
{
    matches!(kind, Kind::Pattern | Kind::Patterns)
}

/// Whether a text may stand in a hole of a kind. An empty pattern would leave a blank at the front
/// of its line.
fn may_stand(alloc: Global, prefix: &str, kind: Kind, text: &str) -> Result<bool, AllocError>
    ensures { IfOk result (λ b. IsTrue b ↔ MayStand prefix.now kind text.now) }
{
    if is_pattern(kind) && text.is_empty() {
        return Ok(false);
    }
    may_fill(alloc, prefix, kind, text)
}

/// What a hole holds: nothing, where there are fewer.
pub(crate) fn hole_at<'h>(holes: &'h [Piece<'_>], k: usize) -> &'h str
    ensures { result.now ≡ get_or holes.now k [] }
{
    match holes.get(k) {
        None => "",
        Some(hole) => hole.as_str(),
    }
}

/// Whether a hole holds what it may, if the part has one of this number.
fn fits_at(
    alloc: Global,
    prefix: &str,
    kinds: &[Kind],
    holes: &[Piece<'_>],
    k: usize,
) -> Result<bool, AllocError>
    ensures utf8 { IsUtf8 (get_or holes.now k []) }
    ensures fits { IfOk result (λ b. IsTrue b ↔ (k < length kinds.now → MayStand prefix.now (kind_of kinds.now k) (get_or holes.now k []))) }
{
    let text = hole_at(holes, k);
    match kinds.get(k) {
        None => Ok(true),
        Some(kind) => may_stand(alloc, prefix, *kind, text),
    }
}

/// Whether each hole of a part holds what it may.
pub(crate) fn holes_fill(
    alloc: Global,
    prefix: &str,
    kinds: &[Kind],
    holes: &[Piece<'_>],
) -> Result<bool, AllocError>
    ensures { IfOk result (λ b. IsTrue b ↔ (HolesFill prefix.now kinds.now holes.now × All IsUtf8 holes.now)) }
{
    for k in 0..kinds.len().max(holes.len()) {
        if !fits_at(alloc, prefix, kinds, holes, k)? {
            return Ok(false);
        }
    }
    Ok(true)
}
