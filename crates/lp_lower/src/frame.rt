//! Which symbols of their own kind are used, and where the actions begin.

ghost use Rattle.std.specs.Prelude.{◌≡◌, ◌+◌, if◌then◌else◌, IfOk, map, count_by};
ghost use Rattle.std.specs.List.{list_any};
ghost use Rattle.std.specs.Map.Iter.{deref};
ghost use Rattle.lp_lower.specs.ActionNumbers.{is_lookahead, is_lookbehind, is_error};
ghost use Rattle.lp_lower.specs.Framing.{frame_of};

use crate::symbols::all_symbols;
use lp_syntax::{PlainGrammar, PlainKind, PlainRule, PlainSymbol};
use std::alloc::{AllocError, Global};

/// Which symbols of their own kind are used, the numbers of the lookarounds' actions, and the
/// number of the rules' first action.
#[derive(Clone, Copy)]
pub struct Frame {
    pub uses_lookahead: bool,
    pub uses_lookbehind: bool,
    pub uses_error: bool,
    pub lookahead: usize,
    pub lookbehind: usize,
    pub first: usize,
}

/// The frame of a grammar: the actions of the starts stand first, then the lookarounds that are
/// used, and then the rules.
pub fn make_frame(alloc: Global, plain: &PlainGrammar) -> Result<Frame, AllocError>
    ensures { IfOk result (λ f. f ≡ frame_of plain.now) }
{
    let all = all_symbols(alloc, plain)?;
    let symbols = all.as_slice();
    let ahead = uses_lookahead(symbols);
    let behind = uses_lookbehind(symbols);
    let error = uses_error(symbols);
    let lookahead = public_count(plain.rules.as_slice())?;
    let lookbehind = after(lookahead, ahead)?;
    let first = after(lookbehind, behind)?;
    Ok(Frame {
        uses_lookahead: ahead,
        uses_lookbehind: behind,
        uses_error: error,
        lookahead,
        lookbehind,
        first,
    })
}

/// The sum of two numbers. More than a usize can count are more than memory can hold.
pub fn sum(first: usize, second: usize) -> Result<usize, AllocError>
    ensures { IfOk result (λ n. n ≡ first + second) }
{
    match first.checked_add(second) {
        None => Err(AllocError),
        Some(sum) => Ok(sum),
    }
}

/// The number after this one where an action stands there.
pub fn after(number: usize, used: bool) -> Result<usize, AllocError>
    ensures { IfOk result (λ n. n ≡ number + (if used then 1 else 0)) }
{
    if used {
        Ok(sum(number, 1)?)
    } else {
        Ok(number)
    }
}

/// How many rules are public.
fn public_count(rules: &[PlainRule]) -> Result<usize, AllocError>
    ensures { IfOk result (λ n. n ≡ count_by (λ r. r.public) rules.now) }
{
    let mut count: usize = 0;
    for rule in rules {
        count = after(count, rule.public)?;
    }
    Ok(count)
}

fn uses_lookahead(symbols: &[&PlainSymbol]) -> bool
    ensures { result ≡ list_any (λ s. is_lookahead s.kind) (map deref symbols.now) }
{
    symbols
        .iter()
        .any(|symbol| matches!(&symbol.kind, PlainKind::Lookahead))
}

fn uses_lookbehind(symbols: &[&PlainSymbol]) -> bool
    ensures { result ≡ list_any (λ s. is_lookbehind s.kind) (map deref symbols.now) }
{
    symbols
        .iter()
        .any(|symbol| matches!(&symbol.kind, PlainKind::Lookbehind))
}

fn uses_error(symbols: &[&PlainSymbol]) -> bool
    ensures { result ≡ list_any (λ s. is_error s.kind) (map deref symbols.now) }
{
    symbols
        .iter()
        .any(|symbol| matches!(&symbol.kind, PlainKind::Error))
}
