//! Holes that are found again in the lines that they are printed on.

ghost use Rattle.std.specs.Prelude.{◌↔◌, IsTrue, IfOk};
ghost use Rattle.lp_reading_laws.specs.Holes.Parted.{BeginsNo, HoldsNo, IsParted};

use crate::fills::hole_at;
use lp_form::Part;
use lp_spelling::holds;
use lp_tree::Piece;
use std::alloc::{AllocError, Global};

/// Whether a text doesn't hold another, which has the prefix in its middle.
fn holds_no(
    alloc: Global,
    prefix: &str,
    front: &str,
    behind: &str,
    text: &str,
) -> Result<bool, AllocError>
    ensures { IfOk result (λ b. IsTrue b ↔ HoldsNo prefix.now front.now behind.now text.now) }
{
    let sought = format!(in alloc; "{front}{prefix}{behind}")?;
    Ok(!holds(sought.as_bytes(), text.as_bytes()))
}

/// Whether a text doesn't begin with the prefix.
fn begins_no(prefix: &str, text: &str) -> bool
    ensures { IsTrue result ↔ BeginsNo prefix.now text.now }
{
    !text.as_bytes().starts_with(prefix.as_bytes())
}

/// Whether the holes of a part are parted: a type doesn't hold what stands behind it in its line,
/// and the text behind symbols begins as no symbol.
pub(crate) fn is_parted(
    alloc: Global,
    prefix: &str,
    part: Part,
    holes: &[Piece<'_>],
) -> Result<bool, AllocError>
    ensures { IfOk result (λ b. IsTrue b ↔ IsParted prefix.now part holes.now) }
{
    match part {
        Part::StateFn => holds_no(alloc, prefix, ")>, ", "Nonterminal<", hole_at(holes, 0)),
        Part::ToTripleLocatedWhere | Part::ToTriplePlainWhere => holds_no(
            alloc,
            prefix,
            "), ",
            "lalrpop_util::ParseError<",
            hole_at(holes, 3),
        ),
        Part::ToTripleLocated | Part::ToTriplePlain => holds_no(
            alloc,
            prefix,
            "), ",
            "lalrpop_util::ParseError<",
            hole_at(holes, 2),
        ),
        Part::Pop => holds_no(alloc, prefix, ",", "Symbol<", hole_at(holes, 1)),
        Part::Transition => Ok(begins_no(prefix, hole_at(holes, 3))),
        _ => Ok(true),
    }
}
