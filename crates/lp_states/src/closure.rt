//! The closure of a set of items.

ghost use Rattle.std.specs.Prelude.{◌≡◌, ◌↔◌, ◌⊎◌, ℕ, [], ◌∷◌, ◌++◌, Some, IfOk, OnOk, Contains, OnSome};
ghost use Rattle.std.specs.Ordering.{nat_cmp};
ghost use Rattle.std.specs.BTreeMap.{get, IsOrdered};
ghost use Rattle.lp_repr.specs.declared.lr1.Token.{Token};
ghost use Rattle.lp_repr.specs.Closure.{next_symbol, HasLeft};
ghost use Rattle.lp_repr.specs.Numbering.{rules_of};
ghost use Rattle.lp_sets.specs.declared.tokens.TokenSet.{TokenSet};
ghost use Rattle.lp_sets.specs.TokenSets.{HasToken};
ghost use Rattle.lp_sets.specs.FirstTables.{AreFirsts};
ghost use Rattle.lp_states.specs.ItemMaps.{ItemMap, IsClosureOf, lookaheads_at, item_cmp, closed_at, IsPut, added_to};
ghost use Rattle.lp_states.specs.Asking.{MayFollow, Covers, IsSoundItem, IsSoundAsked, IsSpread, IsSpreadOrWork, Widens, AsksFor};

use crate::asked::Asked;
use crate::rules::Rules;
use lp_repr::numbering::SymbolNumber;
use lp_repr::repr::Grammar;
use lp_sets::first::Firsts;
use lp_sets::tokens::TokenSet;
use std::alloc::{AllocError, Global};
use std::collections::BTreeMap;

/// Items, as productions with a dot, and the lookaheads of each.
pub type ItemSet = BTreeMap<(usize, usize), TokenSet>;

/// The grammar, as closures need it.
#[derive(Drop)]
pub struct Closing {
    pub rules: Rules,
    /// What the words of these productions begin with.
    pub firsts: Firsts,
}

impl Closing {
    /// The productions of a grammar, and what their words begin with. Fails where memory runs out,
    /// or where 2^64 - 1 rounds over the productions aren't enough.
    pub fn new(alloc: Global, grammar: &Grammar) -> Result<Closing, AllocError>
        ensures rules { IfOk result (λ c. c.rules.all.items ≡ rules_of grammar.now) }
        ensures firsts { IfOk result (λ c. AreFirsts c.rules.all.items c.firsts.empty c.firsts.sets.items) }
    {
        let rules = Rules::new(alloc, grammar)?;
        let firsts = Firsts::new(alloc, rules.all.as_slice())?;
        Ok(Closing { rules, firsts })
    }

    /// The closure of some items.
    pub fn close(&self, alloc: Global, kernel: &ItemSet) -> Result<ItemSet, AllocError>
        requires { AreFirsts self.now.rules.all.items self.now.firsts.empty self.now.firsts.sets.items }
        ensures { IfOk result (IsClosureOf self.now.rules.all.items kernel.now) }
    {
        let mut asked = self.ask_kernel(alloc, kernel)?;
        self.spread(alloc, &mut asked)?;
        self.items(kernel, &asked)
    }

    /// What the items of a kernel ask for.
    fn ask_kernel(&self, alloc: Global, kernel: &ItemSet) -> Result<Asked, AllocError>
        requires { AreFirsts self.now.rules.all.items self.now.firsts.empty self.now.firsts.sets.items }
        ensures covers { IfOk result (λ a. (p d : ℕ) (s : TokenSet) → lookaheads_at kernel.now p d ≡ Some s → Covers self.now.rules.all.items a.sets p d s) }
        ensures work { IfOk result (λ a. IsSpreadOrWork self.now.rules.all.items a.sets a.work.items) }
        ensures sound { IfOk result (λ a. IsSoundAsked self.now.rules.all.items kernel.now a.sets) }
        ensures ordered { OnOk result (IsOrdered item_cmp kernel.now) }
    {
        let mut asked = Asked::new(alloc);
        for (item, lookaheads) in kernel {
            self.ask_item(alloc, &mut asked, item.0, item.1, lookaheads)?;
        }
        Ok(asked)
    }

    /// Goes on until nothing more is asked for.
    fn spread(&self, alloc: Global, asked: &mut Asked) -> Result<(), AllocError>
        requires firsts { AreFirsts self.now.rules.all.items self.now.firsts.empty self.now.firsts.sets.items }
        requires work { IsSpreadOrWork self.now.rules.all.items asked.old.sets asked.old.work.items }
        ensures grows { OnOk result ((n : ℕ) (s : TokenSet) → get nat_cmp asked.old.sets n ≡ Some s → AsksFor asked.new.sets n (HasToken s)) }
        ensures spread { OnOk result ((n : ℕ) (s : TokenSet) → get nat_cmp asked.new.sets n ≡ Some s → IsSpread self.now.rules.all.items asked.new.sets n s) }
        ensures sound { OnOk result ((kernel : ItemMap) → IsSoundAsked self.now.rules.all.items kernel asked.old.sets → IsSoundAsked self.now.rules.all.items kernel asked.new.sets) }
    {
        for _ in 0..u64::MAX {
            match asked.work.pop_front() {
                None => return Ok(()),
                Some(nonterminal) => self.spread_one(alloc, asked, nonterminal)?,
            }
        }
        Err(AllocError)
    }

    /// Asks for what the productions of a nonterminal ask for, if it is asked for.
    fn spread_one(
        &self,
        alloc: Global,
        asked: &mut Asked,
        nonterminal: usize,
    ) -> Result<(), AllocError>
        requires firsts { AreFirsts self.now.rules.all.items self.now.firsts.empty self.now.firsts.sets.items }
        requires work { IsSpreadOrWork self.now.rules.all.items asked.old.sets (nonterminal ∷ asked.old.work.items) }
        ensures work { OnOk result (IsSpreadOrWork self.now.rules.all.items asked.new.sets asked.new.work.items) }
        ensures grows { OnOk result ((n : ℕ) (s : TokenSet) → get nat_cmp asked.old.sets n ≡ Some s → AsksFor asked.new.sets n (HasToken s)) }
        ensures sound { OnOk result ((kernel : ItemMap) → IsSoundAsked self.now.rules.all.items kernel asked.old.sets → IsSoundAsked self.now.rules.all.items kernel asked.new.sets) }
    {
        match asked.sets.get(&nonterminal) {
            None => Ok(()),
            Some(set) => {
                let lookaheads = set.clone()?;
                self.ask_productions(alloc, asked, nonterminal, &lookaheads)
            }
        }
    }

    /// Asks for what the productions of a nonterminal with these lookaheads ask for.
    fn ask_productions(
        &self,
        alloc: Global,
        asked: &mut Asked,
        nonterminal: usize,
        lookaheads: &TokenSet,
    ) -> Result<(), AllocError>
        requires { AreFirsts self.now.rules.all.items self.now.firsts.empty self.now.firsts.sets.items }
        ensures widens { OnOk result (Widens asked.old.sets asked.old.work.items asked.new.sets asked.new.work.items) }
        ensures covers { OnOk result (IsSpread self.now.rules.all.items asked.new.sets nonterminal lookaheads.now) }
        ensures sound { OnOk result ((kernel : ItemMap) → ((q : ℕ) → HasLeft self.now.rules.all.items q nonterminal → IsSoundItem self.now.rules.all.items kernel q 0 lookaheads.now) → IsSoundAsked self.now.rules.all.items kernel asked.old.sets → IsSoundAsked self.now.rules.all.items kernel asked.new.sets) }
    {
        let range = self.rules.productions_of(nonterminal);
        for production in range.from..range.to {
            self.ask_item(alloc, asked, production, 0, lookaheads)?;
        }
        Ok(())
    }

    /// Asks for the nonterminal after the dot of an item.
    fn ask_item(
        &self,
        alloc: Global,
        asked: &mut Asked,
        production: usize,
        dot: usize,
        lookaheads: &TokenSet,
    ) -> Result<(), AllocError>
        requires { AreFirsts self.now.rules.all.items self.now.firsts.empty self.now.firsts.sets.items }
        ensures widens { OnOk result (Widens asked.old.sets asked.old.work.items asked.new.sets asked.new.work.items) }
        ensures covers { OnOk result (Covers self.now.rules.all.items asked.new.sets production dot lookaheads.now) }
        ensures sound { OnOk result ((kernel : ItemMap) → IsSoundItem self.now.rules.all.items kernel production dot lookaheads.now → IsSoundAsked self.now.rules.all.items kernel asked.old.sets → IsSoundAsked self.now.rules.all.items kernel asked.new.sets) }
    {
        match self.rules.next(production, dot) {
            Some(SymbolNumber::Nonterminal(nonterminal)) => {
                let follow = self.follow(alloc, production, dot, lookaheads)?;
                asked.ask(nonterminal, follow)
            }
            _ => Ok(()),
        }
    }

    /// What may follow the symbol after the dot of an item.
    fn follow(
        &self,
        alloc: Global,
        production: usize,
        dot: usize,
        lookaheads: &TokenSet,
    ) -> Result<TokenSet, AllocError>
        requires { AreFirsts self.now.rules.all.items self.now.firsts.empty self.now.firsts.sets.items }
        ensures { IfOk result (λ s. (t : Token) → HasToken s t ↔ MayFollow self.now.rules.all.items production dot lookaheads.now t) }
    {
        let mut follow = TokenSet::new(alloc);
        let word = self.rules.after(production, dot);
        if self.firsts.add_first(word, &mut follow.terminals)? {
            follow.union(lookaheads)?;
        }
        Ok(follow)
    }

    /// The items of a kernel and the productions that were asked for, these with the dot first.
    fn items(&self, kernel: &ItemSet, asked: &Asked) -> Result<ItemSet, AllocError>
        requires { IsOrdered item_cmp kernel.now }
        ensures exact { IfOk result (λ m. (p d : ℕ) → lookaheads_at m p d ≡ closed_at self.now.rules.all.items kernel.now asked.now.sets p d) }
        ensures ordered { IfOk result (IsOrdered item_cmp) }
    {
        let mut items = kernel.clone()?;
        for production in 0..self.rules.all.len() {
            let left = self.rules.all[production].left;
            match asked.sets.get(&left) {
                None => {}
                Some(lookaheads) => put(&mut items, production, lookaheads)?,
            }
        }
        Ok(items)
    }
}

/// Puts a production with the dot first, or adds to its lookaheads.
fn put(items: &mut ItemSet, production: usize, lookaheads: &TokenSet) -> Result<(), AllocError>
    ensures put { OnOk result (IsPut item_cmp items.old items.new (production, 0) (added_to (lookaheads_at items.old production 0) lookaheads.now)) }
    ensures ordered { OnOk result (IsOrdered item_cmp items.new) }
{
    let key = (production, 0usize);
    match items.remove(&key) {
        None => {
            items.insert(key, lookaheads.clone()?)?;
        }
        Some(mut set) => {
            set.union(lookaheads)?;
            items.insert(key, set)?;
        }
    }
    Ok(())
}
