//! Which words derive the empty word, and the terminals that words begin with.

ghost use Rattle.std.specs.Prelude.{◌≡◌, IfOk, OnOk, false, bit_or, ℕ, ◌==◌, ◌<◌, ◌^◌, if◌then◌else◌, slice_index, vec_len};
ghost use Rattle.lp_sets.specs.FirstTables.{vanishes, first_terminals, AreFirsts, IsSoundEmpty, IsClosedEmpty, AreSoundFirsts, AreClosedFirsts};

use crate::bits::Bits;
use lp_repr::numbering::{Rule, SymbolNumber};
use std::alloc::{AllocError, Global};

/// The nonterminals that derive the empty word, and the first terminals of each.
#[derive(Drop)]
pub struct Firsts {
    pub empty: Bits,
    pub sets: Vec<Bits>,
}

impl Firsts {
    /// Those of some productions. Rounds over all productions go on until one adds nothing.
    pub fn new(alloc: Global, rules: &[Rule]) -> Result<Firsts, AllocError>
        ensures { IfOk result (λ f. AreFirsts rules.now f.empty f.sets.items) }
    {
        let empty = empty_words(alloc, rules)?;
        let sets = first_sets(alloc, rules, &empty)?;
        Ok(Firsts { empty, sets })
    }

    /// Adds the terminals that a word begins with; answers whether it derives the empty word.
    pub fn add_first(&self, symbols: &[SymbolNumber], set: &mut Bits) -> Result<bool, AllocError>
        ensures terminals { OnOk result (set.new ≡ bit_or set.old (first_terminals self.now.empty self.now.sets.items symbols.now)) }
        ensures empty { IfOk result (λ b. b ≡ vanishes self.now.empty symbols.now) }
    {
        add_first(&self.empty, self.sets.as_slice(), symbols, set)
    }
}

fn add_first(
    empty: &Bits,
    sets: &[Bits],
    symbols: &[SymbolNumber],
    set: &mut Bits,
) -> Result<bool, AllocError>
    ensures terminals { OnOk result (set.new ≡ bit_or set.old (first_terminals empty.now sets.now symbols.now)) }
    ensures empty { IfOk result (λ b. b ≡ vanishes empty.now symbols.now) }
{
    for symbol in symbols {
        match *symbol {
            SymbolNumber::Terminal(number) => {
                set.insert(number)?;
                return Ok(false);
            }
            SymbolNumber::Nonterminal(number) => {
                add_set(sets, number, set)?;
                if !empty.contains(number) {
                    return Ok(false);
                }
            }
        }
    }
    Ok(true)
}

/// Adds one of the sets.
fn add_set(sets: &[Bits], number: usize, set: &mut Bits) -> Result<(), AllocError>
    ensures { OnOk result (set.new ≡ bit_or set.old (slice_index sets.now number)) }
{
    match sets.get(number) {
        None => Ok(()),
        Some(more) => {
            set.union(more)?;
            Ok(())
        }
    }
}

/// The nonterminals that derive the empty word.
fn empty_words(alloc: Global, rules: &[Rule]) -> Result<Bits, AllocError>
    ensures sound { IfOk result (IsSoundEmpty rules.now) }
    ensures closed { IfOk result (IsClosedEmpty rules.now) }
{
    let mut empty = Bits::new(alloc);
    for _ in 0..u64::MAX {
        if !add_empty_words(rules, &mut empty)? {
            return Ok(empty);
        }
    }
    Err(AllocError)
}

/// One round; answers whether it adds any.
fn add_empty_words(rules: &[Rule], empty: &mut Bits) -> Result<bool, AllocError>
    requires { IsSoundEmpty rules.now empty.old }
    ensures sound { OnOk result (IsSoundEmpty rules.now empty.new) }
    ensures closed { IfOk result (λ grew. grew ≡ false → IsClosedEmpty rules.now empty.new) }
{
    let mut grew = false;
    for rule in rules {
        let new = add_empty_word(rule, empty)?;
        grew = grew | new;
    }
    Ok(grew)
}

/// Adds the left side of a production whose symbols all derive the empty word; answers whether it
/// is new.
fn add_empty_word(rule: &Rule, empty: &mut Bits) -> Result<bool, AllocError>
    ensures added { OnOk result (empty.new ≡ (if vanishes empty.old rule.now.right then bit_or empty.old (2 ^ rule.now.left) else empty.old)) }
    ensures unchanged { IfOk result (λ grew. grew ≡ false → empty.new ≡ empty.old) }
{
    if is_empty_word(rule.right.as_slice(), empty) {
        empty.insert(rule.left)
    } else {
        Ok(false)
    }
}

fn is_empty_word(symbols: &[SymbolNumber], empty: &Bits) -> bool
    ensures { result ≡ vanishes empty.now symbols.now }
{
    for symbol in symbols {
        match *symbol {
            SymbolNumber::Terminal(_) => return false,
            SymbolNumber::Nonterminal(number) => {
                if !empty.contains(number) {
                    return false;
                }
            }
        }
    }
    true
}

/// The first terminals of each nonterminal.
fn first_sets(alloc: Global, rules: &[Rule], empty: &Bits) -> Result<Vec<Bits>, AllocError>
    requires { IsSoundEmpty rules.now empty.now }
    ensures sound { IfOk result (λ v. AreSoundFirsts rules.now v.items) }
    ensures closed { IfOk result (λ v. AreClosedFirsts rules.now empty.now v.items) }
{
    let mut sets = Vec::new(alloc);
    for _ in 0..u64::MAX {
        if !add_first_sets(alloc, rules, empty, &mut sets)? {
            return Ok(sets);
        }
    }
    Err(AllocError)
}

/// One round; answers whether it adds any.
fn add_first_sets(
    alloc: Global,
    rules: &[Rule],
    empty: &Bits,
    sets: &mut Vec<Bits>,
) -> Result<bool, AllocError>
    requires empty { IsSoundEmpty rules.now empty.now }
    requires sets { AreSoundFirsts rules.now sets.old.items }
    ensures sound { OnOk result (AreSoundFirsts rules.now sets.new.items) }
    ensures closed { IfOk result (λ grew. grew ≡ false → AreClosedFirsts rules.now empty.now sets.new.items) }
{
    let mut grew = false;
    for rule in rules {
        let new = add_first_set(alloc, rule, empty, sets)?;
        grew = grew | new;
    }
    Ok(grew)
}

/// Adds the first terminals of a production to those of its left side; answers whether any is
/// new.
fn add_first_set(
    alloc: Global,
    rule: &Rule,
    empty: &Bits,
    sets: &mut Vec<Bits>,
) -> Result<bool, AllocError>
    ensures added { OnOk result ((n : ℕ) → slice_index sets.new.items n ≡ (if n == rule.now.left then bit_or (slice_index sets.old.items n) (first_terminals empty.now sets.old.items rule.now.right) else slice_index sets.old.items n)) }
    ensures unchanged { IfOk result (λ grew. grew ≡ false → (n : ℕ) → slice_index sets.new.items n ≡ slice_index sets.old.items n) }
{
    let mut more = Bits::new(alloc);
    add_first(empty, sets.as_slice(), rule.right.as_slice(), &mut more)?;
    add_to(alloc, sets, rule.left, &more)
}

/// Adds numbers to the set at a place, which is made where there is none; answers whether any is
/// new.
fn add_to(
    alloc: Global,
    sets: &mut Vec<Bits>,
    place: usize,
    more: &Bits,
) -> Result<bool, AllocError>
    ensures added { OnOk result ((n : ℕ) → slice_index sets.new.items n ≡ (if n == place then bit_or (slice_index sets.old.items n) more.now else slice_index sets.old.items n)) }
    ensures unchanged { IfOk result (λ grew. grew ≡ false → (n : ℕ) → slice_index sets.new.items n ≡ slice_index sets.old.items n) }
{
    make_room(alloc, sets, place)?;
    let set = &mut sets[place];
    set.union(more)
}

/// Makes empty sets up to a place.
fn make_room(alloc: Global, sets: &mut Vec<Bits>, place: usize) -> Result<(), AllocError>
    ensures room { OnOk result (place < vec_len sets.new) }
    ensures same { OnOk result ((n : ℕ) → slice_index sets.new.items n ≡ slice_index sets.old.items n) }
{
    while sets.len() <= place {
        sets.push(Bits::new(alloc))?;
    }
    Ok(())
}
