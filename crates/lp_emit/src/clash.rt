//! Nonterminals whose escaped names are equal.

ghost use Rattle.std.specs.Prelude.{◌≡◌, IfOk};
ghost use Rattle.lp_emit.specs.Clashes.{IsLeastRepeat, escaped_names, lesser_of};

use lp_repr::Text;
use lp_repr::repr::Grammar;
use lp_write::Escape;
use std::alloc::{AllocError, Global};
use std::collections::BTreeMap;

/// The least pair of numbers of nonterminals with one escaped name.
pub fn name_clash(alloc: Global, grammar: &Grammar) -> Result<Option<(usize, usize)>, AllocError>
    ensures { IfOk result (IsLeastRepeat (escaped_names grammar.now)) }
{
    let names = names(alloc, grammar)?;
    least_repeat(alloc, names.as_slice())
}

/// The escaped names of the nonterminals, by number.
fn names(alloc: Global, grammar: &Grammar) -> Result<Vec<Text>, AllocError>
    ensures { IfOk result (λ v. v.items ≡ escaped_names grammar.now) }
{
    let mut names = Vec::new(alloc);
    for name in grammar.nonterminals.keys() {
        names.push(Text(Escape(name.0.as_str()).to_string(alloc)?))?;
    }
    Ok(names)
}

/// The least pair of places with one text.
fn least_repeat(alloc: Global, texts: &[Text]) -> Result<Option<(usize, usize)>, AllocError>
    ensures { IfOk result (IsLeastRepeat texts.now) }
{
    let mut firsts: BTreeMap<&str, usize> = BTreeMap::new(alloc);
    let mut least: Option<(usize, usize)> = None;
    for (place, text) in texts.iter().enumerate() {
        let text = text.as_str();
        match firsts.get(&text) {
            Some(first) => least = Some(lesser(least, (*first, place))),
            None => {
                firsts.insert(text, place)?;
            }
        }
    }
    Ok(least)
}

/// The lesser of a pair so far and a new one, whose second number is greater.
fn lesser(least: Option<(usize, usize)>, pair: (usize, usize)) -> (usize, usize)
    ensures { result ≡ lesser_of least pair }
{
    match least {
        Some(least) if least.0 <= pair.0 => least,
        _ => pair,
    }
}
