//! The symbols of a plain grammar, one after the other.

ghost use Rattle.std.specs.Prelude.{◌≡◌, ◌++◌, IfOk, OnOk, map};
ghost use Rattle.std.specs.List.{flat_map};
ghost use Rattle.std.specs.Map.Iter.{deref};
ghost use Rattle.lp_lower.specs.Symbols.{symbols_in, symbols_of};

use lp_syntax::{PlainAlternative, PlainGrammar, PlainRule, PlainSymbol};
use std::alloc::{AllocError, Global};

/// The symbols of all alternatives, in order.
pub fn all_symbols(alloc: Global, plain: &PlainGrammar) -> Result<Vec<&PlainSymbol>, AllocError>
    ensures { IfOk result (λ v. map deref v.items ≡ symbols_of plain.now) }
{
    let mut all = Vec::new(alloc);
    for rule in plain.rules.as_slice() {
        push_alternatives(rule.alternatives.as_slice(), &mut all)?;
    }
    Ok(all)
}

/// The symbols of a rule, in order.
pub fn rule_symbols(alloc: Global, rule: &PlainRule) -> Result<Vec<&PlainSymbol>, AllocError>
    ensures { IfOk result (λ v. map deref v.items ≡ symbols_in rule.now) }
{
    let mut all = Vec::new(alloc);
    push_alternatives(rule.alternatives.as_slice(), &mut all)?;
    Ok(all)
}

/// Appends the symbols of these alternatives.
fn push_alternatives<'g>(
    alternatives: &'g [PlainAlternative],
    all: &mut Vec<&'g PlainSymbol>,
) -> Result<(), AllocError>
    ensures { OnOk result (map deref all.new.items ≡ map deref all.old.items ++ flat_map (λ a. a.symbols) alternatives.entry.now) }
{
    for alternative in alternatives {
        push_symbols(alternative.symbols.as_slice(), all)?;
    }
    Ok(())
}

/// Appends these symbols.
fn push_symbols<'g>(
    symbols: &'g [PlainSymbol],
    all: &mut Vec<&'g PlainSymbol>,
) -> Result<(), AllocError>
    ensures { OnOk result (map deref all.new.items ≡ map deref all.old.items ++ symbols.entry.now) }
{
    for symbol in symbols {
        all.push(symbol)?;
    }
    Ok(())
}
