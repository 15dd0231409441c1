//! The spans of inlined actions.

ghost use Rattle.std.specs.Prelude.{◌≡◌, ◌+◌, ◌^◌, ◌<◌, ◌++◌, map, vec_len, IfOk, OnOk};
ghost use Rattle.lp_build.specs.Actions.{span_row};
ghost use Rattle.lp_actions.specs.Inlines.{end_of, inlined_count, location_ahead, location_behind, span_end, span_if, span_start, spans_from, start_of, total_width};
ghost use Rattle.lp_actions.specs.Parameters.{width};

use crate::symbols::{behind, total_width};
use lp_build::InlineSpan;
use lp_repr::repr::InlinedSymbol;
use lp_table::pieces::made;
use lp_tree::Piece;
use std::alloc::{AllocError, Global};

/// Where each inlined action starts and ends.
pub fn spans<'t>(
    alloc: Global,
    prefix: &str,
    symbols: &[InlinedSymbol],
) -> Result<Vec<InlineSpan<'t>>, AllocError>
    ensures { IfOk result (λ v. map span_row v.items ≡ spans_from prefix.now (total_width symbols.now) 0 0 symbols.now) }
{
    let total = total_width(symbols)?;
    let mut spans = Vec::new(alloc);
    let mut before = 0usize;
    for symbol in symbols {
        let next = behind(before, symbol)?;
        push_span(alloc, &mut spans, prefix, total, before, symbol)?;
        before = next;
    }
    Ok(spans)
}

/// Adds the span of an inlined action.
fn push_span<'t>(
    alloc: Global,
    spans: &mut Vec<InlineSpan<'t>>,
    prefix: &str,
    total: usize,
    before: usize,
    symbol: &InlinedSymbol,
) -> Result<(), AllocError>
    requires { before + width symbol.now < 2 ^ 64 }
    ensures rows { OnOk result (map span_row spans.new.items ≡ map span_row spans.old.items ++ span_if prefix.now total (vec_len spans.old) before symbol.now) }
    ensures count { OnOk result (vec_len spans.new ≡ vec_len spans.old + inlined_count symbol.now) }
{
    match symbol {
        InlinedSymbol::Original(_) => Ok(()),
        InlinedSymbol::Inlined(_, inner) => {
            let number = spans.len() as u64;
            let count = inner.as_slice().len();
            let start = span_start(alloc, prefix, before, count, total)?;
            let end = span_end(alloc, prefix, before, count, total)?;
            spans.push(InlineSpan { number, start, end })?;
            Ok(())
        }
    }
}

/// Where an inlined action of so many arguments starts, after others of `total`: at its first
/// argument, else at the end of the one before, else at the first of all, else behind.
fn span_start<'t>(
    alloc: Global,
    prefix: &str,
    before: usize,
    count: usize,
    total: usize,
) -> Result<Piece<'t>, AllocError>
    ensures { IfOk result (λ p. p ≡ span_start prefix.now before count total) }
{
    if count > 0 {
        start_of(alloc, prefix, before)
    } else if before > 0 {
        end_of(alloc, prefix, before - 1)
    } else if total > 0 {
        start_of(alloc, prefix, 0)
    } else {
        location_behind(alloc, prefix)
    }
}

/// Where an inlined action ends: at its last argument, else at the start of the next one, else at
/// the end of the last of all, else ahead.
fn span_end<'t>(
    alloc: Global,
    prefix: &str,
    before: usize,
    count: usize,
    total: usize,
) -> Result<Piece<'t>, AllocError>
    requires { before + count < 2 ^ 64 }
    ensures { IfOk result (λ p. p ≡ span_end prefix.now before count total) }
{
    if count > 0 {
        end_of(alloc, prefix, before + (count - 1))
    } else if before < total {
        start_of(alloc, prefix, before)
    } else if total > 0 {
        end_of(alloc, prefix, total - 1)
    } else {
        location_ahead(alloc, prefix)
    }
}

/// Where an argument starts.
fn start_of<'t>(alloc: Global, prefix: &str, number: usize) -> Result<Piece<'t>, AllocError>
    ensures { IfOk result (λ p. p ≡ start_of prefix.now number) }
{
    Ok(made(format!(in alloc; "{prefix}{number}.0")?))
}

/// Where an argument ends.
fn end_of<'t>(alloc: Global, prefix: &str, number: usize) -> Result<Piece<'t>, AllocError>
    ensures { IfOk result (λ p. p ≡ end_of prefix.now number) }
{
    Ok(made(format!(in alloc; "{prefix}{number}.2")?))
}

/// The location behind.
fn location_behind<'t>(alloc: Global, prefix: &str) -> Result<Piece<'t>, AllocError>
    ensures { IfOk result (λ p. p ≡ location_behind prefix.now) }
{
    Ok(made(format!(in alloc; "*{prefix}lookbehind")?))
}

/// The location of the lookahead.
fn location_ahead<'t>(alloc: Global, prefix: &str) -> Result<Piece<'t>, AllocError>
    ensures { IfOk result (λ p. p ≡ location_ahead prefix.now) }
{
    Ok(made(format!(in alloc; "*{prefix}lookahead")?))
}
