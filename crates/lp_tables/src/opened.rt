//! Closures of items, by the nonterminals that they open: those before which a dot stands.

ghost use Rattle.std.specs.Prelude.{◌≡◌, ◌==◌, ◌+◌, ◌↔◌, ℕ, Some, IfOk, OnOk, IsTrue, not, true, false, count_by, length, slice_index_or, vec_len};
ghost use Rattle.std.specs.List.{AllByRecursion, list_all};
ghost use Rattle.lp_repr.specs.ValidTables.{Begins};
ghost use Rattle.lp_repr.specs.declared.numbering.SymbolNumber.TheVariants as symbol;
ghost use Rattle.lp_tables.specs.ItemSets.{has, IsSetOf};
ghost use Rattle.lp_tables.specs.Numbers.{IsIndex};
ghost use Rattle.lp_tables.specs.Opening.{Leads, FollowsKernel, AreOpened, IsClosed, IsOpenedAt, BeginsOpened};
ghost use Rattle.lp_tables.specs.Walk.{is_opened, IsFresh, AllWait, Marks};

use crate::item_sets::ItemSet;
use crate::rules::{Rules, is_marked};
use lp_repr::numbering::SymbolNumber;
use lp_repr::{Item, Lr1State};
use std::alloc::{AllocError, Global};

/// The nonterminals that were opened, and those of them whose productions are still to be looked
/// at.
#[derive(Drop)]
struct Opened {
    opened: Vec<bool>,
    work: Vec<usize>,
}

impl Opened {
    fn new(alloc: Global, count: usize) -> Result<Opened, AllocError>
        ensures { IfOk result (IsFresh count) }
    {
        Ok(Opened {
            opened: vec![in alloc; false; count]?,
            work: Vec::new(alloc),
        })
    }

    fn open(&mut self, nonterminal: usize) -> Result<(), AllocError>
        ensures marks { OnOk result (Marks self.old self.new (λ n. n ≡ nonterminal)) }
        ensures count { OnOk result (count_by not self.new.opened.items + vec_len self.new.work
            ≡ count_by not self.old.opened.items + vec_len self.old.work) }
    {
        if nonterminal < self.opened.len() && !self.opened[nonterminal] {
            self.opened[nonterminal] = true;
            self.work.push(nonterminal)?;
        }
        Ok(())
    }

    /// Opens the symbol if it is a nonterminal.
    fn open_next(&mut self, next: Option<SymbolNumber>) -> Result<(), AllocError>
        ensures marks { OnOk result (Marks self.old self.new (λ n. next ≡ Some (symbol.Nonterminal n))) }
        ensures count { OnOk result (count_by not self.new.opened.items + vec_len self.new.work
            ≡ count_by not self.old.opened.items + vec_len self.old.work) }
    {
        match next {
            Some(SymbolNumber::Nonterminal(nonterminal)) => self.open(nonterminal),
            _ => Ok(()),
        }
    }

    /// Opens what stands first in the productions of a nonterminal.
    fn open_firsts(&mut self, rules: &Rules, nonterminal: usize) -> Result<(), AllocError>
        requires { IsIndex rules.now.all.items rules.now.firsts.items }
        ensures marks { OnOk result (Marks self.old self.new (Leads rules.entry.now.all.items nonterminal)) }
        ensures count { OnOk result (count_by not self.new.opened.items + vec_len self.new.work
            ≡ count_by not self.old.opened.items + vec_len self.old.work) }
    {
        let (first, end) = rules.productions_of(nonterminal);
        for production in first..end {
            self.open_next(rules.next(production, 0))?;
        }
        Ok(())
    }

    /// Opens what stands after the dots that aren't first.
    fn open_kernel(&mut self, rules: &Rules, items: &[Item]) -> Result<(), AllocError>
        ensures marks { OnOk result (Marks self.old self.new (FollowsKernel rules.entry.now.all.items items.entry.now)) }
    {
        for item in items {
            if item.index > 0 {
                self.open_next(rules.next(item.production, item.index))?;
            }
        }
        Ok(())
    }

    /// Opens what stands first in the productions of all that is opened.
    fn close(mut self, rules: &Rules) -> Result<Vec<bool>, AllocError>
        requires index { IsIndex rules.now.all.items rules.now.firsts.items }
        requires size { length self.opened.items ≡ length rules.now.firsts.items }
        requires waiting { AllWait self }
        ensures { IfOk result (λ v. AreOpened rules.now.all.items (λ n. is_opened self n ≡ true) v.items) }
    {
        while let Some(nonterminal) = self.work.pop() {
            self.open_firsts(rules, nonterminal)?;
        }
        Ok(self.opened)
    }
}

/// Whether a state is the closure of those of its items that have a symbol before the dot.
pub(crate) fn is_closed(
    alloc: Global,
    rules: &Rules,
    state: &Lr1State,
    set: &ItemSet,
) -> Result<bool, AllocError>
    requires index { IsIndex rules.now.all.items rules.now.firsts.items }
    requires set { IsSetOf state.now.items set.now }
    ensures { IfOk result (λ b. IsTrue b ↔ IsClosed rules.now.all.items state.now) }
{
    let items = state.items.as_slice();
    let mut opened = Opened::new(alloc, rules.firsts.len())?;
    opened.open_kernel(rules, items)?;
    let marks = opened.close(rules)?;
    Ok(begins_opened(rules, items, set, marks.as_slice()))
}

/// Whether a state is the closure of the productions of a nonterminal with the dot first; without a
/// nonterminal none is.
pub(crate) fn begins(
    alloc: Global,
    rules: &Rules,
    start: Option<usize>,
    state: &Lr1State,
    set: &ItemSet,
) -> Result<bool, AllocError>
    requires index { IsIndex rules.now.all.items rules.now.firsts.items }
    requires set { IsSetOf state.now.items set.now }
    ensures { IfOk result (λ b. IsTrue b ↔ Begins rules.now.all.items start state.now) }
{
    let Some(nonterminal) = start else {
        return Ok(false);
    };
    let items = state.items.as_slice();
    if !have_dots_first(items) {
        return Ok(false);
    }
    let mut opened = Opened::new(alloc, rules.firsts.len())?;
    opened.open(nonterminal)?;
    let marks = opened.close(rules)?;
    Ok(begins_opened(rules, items, set, marks.as_slice()))
}

fn have_dots_first(items: &[Item]) -> bool
    ensures { result ≡ list_all (λ item. item.index == 0) items.now }
{
    items.iter().all(|item| item.index == 0)
}

/// Whether the items with the dot first are exactly the productions of the marked nonterminals.
fn begins_opened(rules: &Rules, items: &[Item], set: &ItemSet, marks: &[bool]) -> bool
    requires { IsSetOf items.now set.now }
    ensures { IsTrue result ↔ BeginsOpened rules.now.all.items marks.now items.now }
{
    begin_alone(rules, items, marks) && all_begin(rules, set, marks)
}

/// Whether the items with the dot first are productions of marked nonterminals.
fn begin_alone(rules: &Rules, items: &[Item], marks: &[bool]) -> bool
    ensures { IsTrue result ↔ AllByRecursion (λ item. item.index ≡ 0 → IsOpenedAt rules.now.all.items marks.now item.production) items.now }
{
    for item in items {
        if !begins_alone(rules, item.production, item.index, marks) {
            return false;
        }
    }
    true
}

/// Whether the item has its dot elsewhere, or begins a production of a marked nonterminal.
fn begins_alone(rules: &Rules, production: usize, dot: usize, marks: &[bool]) -> bool
    ensures { IsTrue result ↔ (dot ≡ 0 → IsOpenedAt rules.now.all.items marks.now production) }
{
    dot > 0 || rules.is_opened(production, marks)
}

/// Whether all productions of the marked nonterminals are there with the dot first.
fn all_begin(rules: &Rules, set: &ItemSet, marks: &[bool]) -> bool
    ensures { IsTrue result ↔ ((p : ℕ) → IsOpenedAt rules.now.all.items marks.now p → IsTrue (has set.now p 0)) }
{
    for (production, rule) in rules.all.iter().enumerate() {
        if !stands_if_marked(set, marks, rule.left, production) {
            return false;
        }
    }
    true
}

/// Whether the production stands in the set with the dot first, if its nonterminal is marked.
fn stands_if_marked(set: &ItemSet, marks: &[bool], left: usize, production: usize) -> bool
    ensures { IsTrue result ↔ (IsTrue (slice_index_or marks.now left false) → IsTrue (has set.now production 0)) }
{
    !is_marked(marks, left) || set.contains(&(production, 0))
}
