//! The symbols of an action some of which are inlined actions.

ghost use Rattle.std.specs.Prelude.{◌≡◌, ◌+◌, ◌^◌, ◌<◌, ◌++◌, map, IfOk, OnOk};
ghost use Rattle.std.specs.List.{flat_map};
ghost use Rattle.std.specs.Map.Iter.{deref};
ghost use Rattle.lp_actions.specs.Inlines.{inlined_count, total_width};
ghost use Rattle.lp_actions.specs.Parameters.{symbols_of, takes_any, width};

use lp_repr::repr::{InlinedSymbol, Symbol};
use std::alloc::{AllocError, Global};

/// How many arguments a symbol stands for.
pub fn width(symbol: &InlinedSymbol) -> usize
    ensures { result ≡ width symbol.now }
{
    match symbol {
        InlinedSymbol::Original(_) => 1,
        InlinedSymbol::Inlined(_, symbols) => symbols.as_slice().len(),
    }
}

/// How many inlined actions a symbol stands for.
pub fn inlined_count(symbol: &InlinedSymbol) -> usize
    ensures { result ≡ inlined_count symbol.now }
{
    match symbol {
        InlinedSymbol::Original(_) => 0,
        InlinedSymbol::Inlined(_, _) => 1,
    }
}

/// The symbols take an argument.
pub fn takes_any(symbols: &[InlinedSymbol]) -> bool
    ensures { result ≡ takes_any symbols.now }
{
    symbols.iter().any(|symbol| width(symbol) > 0)
}

/// How many arguments the symbols take together. The error is want of memory for so many.
pub fn total_width(symbols: &[InlinedSymbol]) -> Result<usize, AllocError>
    ensures { IfOk result (λ n. n ≡ total_width symbols.now) }
{
    let mut total = 0usize;
    for symbol in symbols {
        total = behind(total, symbol)?;
    }
    Ok(total)
}

/// The place behind the arguments of a symbol.
pub fn behind(before: usize, symbol: &InlinedSymbol) -> Result<usize, AllocError>
    ensures sum { IfOk result (λ n. n ≡ before + width symbol.now) }
    ensures within { OnOk result (before + width symbol.now < 2 ^ 64) }
{
    before.checked_add(width(symbol)).ok_or(AllocError)
}

/// The symbols, those of inlined actions in their place.
pub fn flat_symbols(alloc: Global, symbols: &[InlinedSymbol]) -> Result<Vec<&Symbol>, AllocError>
    ensures { IfOk result (λ v. map deref v.items ≡ flat_map symbols_of symbols.now) }
{
    let mut flat = Vec::new(alloc);
    for symbol in symbols {
        push_symbols(&mut flat, symbol)?;
    }
    Ok(flat)
}

/// Adds the symbols that one stands for.
fn push_symbols<'s>(flat: &mut Vec<&'s Symbol>, symbol: &'s InlinedSymbol) -> Result<(), AllocError>
    ensures { OnOk result (map deref flat.new.items ≡ map deref flat.old.items ++ symbols_of symbol.entry.now) }
{
    match symbol {
        InlinedSymbol::Original(symbol) => {
            flat.push(symbol)?;
            Ok(())
        }
        InlinedSymbol::Inlined(_, symbols) => push_each(flat, symbols.as_slice()),
    }
}

/// Adds the symbols.
fn push_each<'s>(flat: &mut Vec<&'s Symbol>, symbols: &'s [Symbol]) -> Result<(), AllocError>
    ensures { OnOk result (map deref flat.new.items ≡ map deref flat.old.items ++ symbols.entry.now) }
{
    for symbol in symbols {
        flat.push(symbol)?;
    }
    Ok(())
}
