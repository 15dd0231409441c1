//! The variants of the symbol enum: one per distinct type of a symbol.

ghost use Rattle.std.specs.Prelude.{◌≡◌, ◌++◌, map, IfOk, OnOk, unwrap_or, position, length};
ghost use Rattle.std.specs.Map.Iter.{deref};
ghost use Rattle.lp_repr.specs.TypeOrder.{type_eq};
ghost use Rattle.lp_parts.specs.Variants.{nonterminal_type, nonterminal_types, nonterminal_variants, terminal_type, terminal_types, terminal_variants, variant_number, variant_numbers, variant_types, with_type, with_types};

use lp_repr::numbering::nonterminals;
use lp_repr::repr::{Grammar, NonterminalString, TerminalString, TypeRepr};
use std::alloc::{AllocError, Global};

/// The variants by number, and the number of each symbol's variant. Terminals come first, then
/// nonterminals in the order of their names.
#[derive(Drop)]
pub struct Variants<'t> {
    pub types: Vec<&'t TypeRepr>,
    pub terminals: Vec<usize>,
    pub nonterminals: Vec<usize>,
}

impl<'t> Variants<'t> {
    /// The variants of a grammar's symbols. The error is want of memory.
    #[tactic(auto, unfolding(crate::specs::Variants::variant_types, crate::specs::Variants::terminal_variants, crate::specs::Variants::nonterminal_variants))]
    pub fn new(alloc: Global, grammar: &'t Grammar) -> Result<Variants<'t>, AllocError>
        ensures types { IfOk result (λ v. map deref v.types.items ≡ variant_types grammar.entry.now) }
        ensures terminals { IfOk result (λ v. v.terminals.items ≡ terminal_variants grammar.entry.now) }
        ensures nonterminals { IfOk result (λ v. v.nonterminals.items ≡ nonterminal_variants grammar.entry.now) }
    {
        let of_terminals = terminal_types(alloc, grammar)?;
        let of_nonterminals = nonterminal_types(alloc, grammar)?;
        let mut types = Vec::new(alloc);
        let terminals = variant_numbers(alloc, &mut types, of_terminals.as_slice())?;
        let nonterminals = variant_numbers(alloc, &mut types, of_nonterminals.as_slice())?;
        Ok(Variants {
            types,
            terminals,
            nonterminals,
        })
    }
}

/// The type of each terminal's values, by number.
fn terminal_types<'t>(alloc: Global, grammar: &'t Grammar) -> Result<Vec<&'t TypeRepr>, AllocError>
    ensures { IfOk result (λ v. map deref v.items ≡ terminal_types grammar.entry.now) }
{
    let terminals = grammar.terminals.all.as_slice();
    let mut types = Vec::new(alloc);
    for terminal in terminals {
        types.push(terminal_type(grammar, terminal))?;
    }
    Ok(types)
}

/// The type of each nonterminal's values, by number.
fn nonterminal_types<'t>(
    alloc: Global,
    grammar: &'t Grammar,
) -> Result<Vec<&'t TypeRepr>, AllocError>
    ensures { IfOk result (λ v. map deref v.items ≡ nonterminal_types grammar.entry.now) }
{
    let mut types = Vec::new(alloc);
    for nonterminal in grammar.nonterminals.keys() {
        types.push(nonterminal_type(grammar, nonterminal))?;
    }
    Ok(types)
}

/// The type of a terminal's values, that of tokens where it has none of its own.
fn terminal_type<'t>(grammar: &'t Grammar, terminal: &TerminalString) -> &'t TypeRepr
    ensures { result.now ≡ terminal_type grammar.entry.now terminal.now }
{
    match grammar.types.terminals.get(terminal) {
        Some(ty) => ty,
        None => &grammar.types.token,
    }
}

/// The type of a nonterminal's values, that of tokens where it has none of its own.
fn nonterminal_type<'t>(grammar: &'t Grammar, nonterminal: &NonterminalString) -> &'t TypeRepr
    ensures { result.now ≡ nonterminal_type grammar.entry.now nonterminal.now }
{
    match grammar.types.nonterminals.get(nonterminal) {
        Some(ty) => ty,
        None => &grammar.types.token,
    }
}

/// The variant of each type; new types get theirs behind those that are there.
fn variant_numbers<'t>(
    alloc: Global,
    types: &mut Vec<&'t TypeRepr>,
    others: &[&'t TypeRepr],
) -> Result<Vec<usize>, AllocError>
    ensures types { OnOk result (map deref types.new.items ≡ with_types (map deref types.old.items) (map deref others.now)) }
    ensures numbers { IfOk result (λ v. v.items ≡ variant_numbers (map deref types.old.items) (map deref others.now)) }
{
    let mut numbers = Vec::new(alloc);
    for ty in others {
        numbers.push(variant_of(types, *ty)?)?;
    }
    Ok(numbers)
}

/// The variant of a type, which is a new one for a new type.
#[tactic(auto, using(std::proofs::lemmas::Grind::common_steps, crate::proofs::VariantPlaces::lengths))]
fn variant_of<'t>(types: &mut Vec<&'t TypeRepr>, ty: &'t TypeRepr) -> Result<usize, AllocError>
    ensures types { OnOk result (map deref types.new.items ≡ with_type (map deref types.old.items) ty.entry.now) }
    ensures number { IfOk result (λ n. n ≡ variant_number (map deref types.old.items) ty.entry.now) }
{
    let number = variant_number(types.as_slice(), ty);
    if number >= types.len() {
        types.push(ty)?;
    }
    Ok(number)
}

/// The place of a type among types, their count where it isn't there.
#[tactic(auto, using(std::proofs::lemmas::Grind::common_steps, crate::proofs::VariantPlaces::lengths))]
fn variant_number(types: &[&TypeRepr], ty: &TypeRepr) -> usize
    ensures { result ≡ variant_number (map deref types.now) ty.now }
{
    match place_of(types, ty) {
        Some(place) => place,
        None => types.len(),
    }
}

/// The place of a type among types.
fn place_of(types: &[&TypeRepr], ty: &TypeRepr) -> Option<usize>
    ensures { result ≡ position (type_eq ty.now) (map deref types.now) }
{
    place_in(types, ty)
}

/// The same, among the references to types.
fn place_in(types: &[&TypeRepr], ty: &TypeRepr) -> Option<usize>
    ensures { result ≡ position (λ t. type_eq ty.now t.now) types.now }
{
    types.iter().position(|other| is_same(ty, *other))
}

/// The types are equal.
fn is_same(one: &TypeRepr, other: &TypeRepr) -> bool
    ensures { result ≡ type_eq one.now other.now }
{
    one == other
}
