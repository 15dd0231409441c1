//! The states of one start, numbered breadth first.

ghost use Rattle.std.specs.Prelude.{◌≡◌, ℕ, ◌<◌, [], ◌∷◌, ◌++◌, List, map, length, Some, None, IfOk, OnOk, IfErr, IfSome, MatchOption, slice_get, slice_index_or};
ghost use Rattle.std.specs.BTreeMap.{get};
ghost use Rattle.lp_repr.specs.Numbering.{rules_of};
ghost use Rattle.lp_repr.specs.ValidTables.{start_number};
ghost use Rattle.lp_repr.specs.declared.numbering.SymbolNumber.{SymbolNumber};
ghost use Rattle.lp_sets.specs.FirstTables.{AreFirsts};
ghost use Rattle.lp_states.specs.ItemMaps.{ItemMap, IsKernelAfter, IsStartKernel};
ghost use Rattle.lp_states.specs.States.{AreStates};
ghost use Rattle.lp_states.specs.Causes.{IsCause};
ghost use Rattle.lp_states.specs.Naming.{IsSpelled, AreSpelled};
ghost use Rattle.lp_states.specs.Building.{paths_of, path_before, edge_of, edge_from, kernel_cmp, NumbersNew, StopsAt, IsNotedIn, IsBuilt, IsStopped};

use crate::closure::{Closing, ItemSet};
use crate::names::Names;
use crate::state::{Moved, advance, conflict, new_state};
use lp_repr::lr1::{Lr1State, Token};
use lp_repr::numbering::{Numbers, SymbolNumber};
use lp_repr::repr::{Grammar, Symbol};
use lp_repr::text::Items;
use lp_sets::tokens::TokenSet;
use std::alloc::{AllocError, AllocFailed, Global};
use std::collections::{BTreeMap, VecDeque};

/// The most states of one start.
pub const MOST_STATES: usize = 4096;

/// Why a start has no states.
#[derive(Drop)]
pub enum BuildFault {
    /// The items after the path have two actions on the token.
    Conflict { path: Items<Symbol>, token: Token },
    /// The paths reach that many distinct item sets, one more than there may be.
    TooManyStates { paths: Items<Items<Symbol>> },
    Memory,
}

impl From<AllocError> for BuildFault {
    ghost use Rattle.std.specs.Prelude.{◌≡◌};
    ghost use Rattle.lp_states.specs.declared.builder.BuildFault.TheVariants.{Memory};

    ghost from_gives = { λ _ e. e ≡ Memory };

    fn from(_e: AllocError) -> BuildFault {
        BuildFault::Memory
    }
}

/// Why numbering stops.
#[derive(Drop)]
enum Stop {
    /// The items that were numbered last have two actions on the token.
    Conflict(Token),
    /// The items that were reached last are one set more than there may be.
    TooMany,
    Memory,
}

impl From<AllocError> for Stop {
    ghost use Rattle.std.specs.Prelude.{◌≡◌};
    ghost use Rattle.lp_states.specs.declared.builder.Stop.TheVariants.{Memory};

    ghost from_gives = { λ _ e. e ≡ Memory };

    fn from(_e: AllocError) -> Stop {
        Stop::Memory
    }
}

impl<T: Drop> From<AllocFailed<T>> for Stop {
    ghost use Rattle.std.specs.Prelude.{◌≡◌};
    ghost use Rattle.lp_states.specs.declared.builder.Stop.TheVariants.{Memory};

    ghost from_gives = { λ _ e. e ≡ Memory };

    fn from(_e: AllocFailed<T>) -> Stop {
        Stop::Memory
    }
}

/// How a state was first reached.
#[derive(Clone, Copy)]
enum Origin {
    Start,
    After(usize, SymbolNumber),
}

/// The items that a symbol leads to from a state, before their closure.
#[derive(Drop)]
struct Edge {
    from: usize,
    over: SymbolNumber,
    kernel: ItemSet,
}

#[derive(Drop)]
struct Builder {
    closing: Closing,
    /// The states but the first by their kernels.
    numbers: BTreeMap<ItemSet, usize>,
    origins: Vec<Origin>,
    states: Vec<Lr1State>,
    /// The edges that weren't followed, in the order of their states and then of their symbols.
    edges: VecDeque<Edge>,
}

/// The canonical LR(1) states of the start of this number (Knuth 1965), in the order in which a
/// breadth-first walk reaches them: of each state terminals by number, then nonterminals by key.
/// Where one of the first 4,096 has two actions on a token, the first such one gives `Conflict`,
/// with the path that first reached it and the first such token, the end of input last; else
/// `TooManyStates` where there are more. A number of no start has no states.
pub fn build_states(
    alloc: Global,
    grammar: &Grammar,
    start: usize,
) -> Result<Vec<Lr1State>, BuildFault>
    ensures states { IfOk result (λ v. MatchOption (start_number grammar.now start) (v.items ≡ []) (λ n. (paths : List (List SymbolNumber)) × AreStates (rules_of grammar.now) n paths v.items)) }
    ensures fault { IfErr result (IsCause grammar.now start) }
{
    let mut builder = Builder::new(alloc, grammar)?;
    match start_nonterminal(alloc, grammar, start)? {
        None => Ok(Vec::new(alloc)),
        Some(nonterminal) => match builder.run(alloc, nonterminal) {
            Ok(()) => Ok(builder.states),
            Err(stop) => Err(builder.fault(alloc, grammar, stop)?),
        },
    }
}

/// The nonterminal of a start.
fn start_nonterminal(
    alloc: Global,
    grammar: &Grammar,
    start: usize,
) -> Result<Option<usize>, AllocError>
    ensures { IfOk result (λ o. o ≡ start_number grammar.now start) }
{
    let numbers = Numbers::new(alloc, grammar)?;
    match grammar.start_nonterminals.values().nth(start) {
        None => Ok(None),
        Some(name) => Ok(numbers.nonterminal(name)),
    }
}

impl Builder {
    fn new(alloc: Global, grammar: &Grammar) -> Result<Builder, AllocError>
        ensures rules { IfOk result (λ b. b.closing.rules.all.items ≡ rules_of grammar.now) }
        ensures firsts { IfOk result (λ b. AreFirsts b.closing.rules.all.items b.closing.firsts.empty b.closing.firsts.sets.items) }
        ensures empty { IfOk result (λ b. (b.origins.items ≡ []) × (b.states.items ≡ []) × (b.edges.items ≡ []) × ((k : ItemMap) → get kernel_cmp b.numbers k ≡ None)) }
    {
        Ok(Builder {
            closing: Closing::new(alloc, grammar)?,
            numbers: BTreeMap::new(alloc),
            origins: Vec::new(alloc),
            states: Vec::new(alloc),
            edges: VecDeque::new(alloc),
        })
    }

    fn run(&mut self, alloc: Global, nonterminal: usize) -> Result<(), Stop>
        requires firsts { AreFirsts self.old.closing.rules.all.items self.old.closing.firsts.empty self.old.closing.firsts.sets.items }
        requires empty { (self.old.origins.items ≡ []) × (self.old.states.items ≡ []) × (self.old.edges.items ≡ []) × ((k : ItemMap) → get kernel_cmp self.old.numbers k ≡ None) }
        ensures states { OnOk result ((paths : List (List SymbolNumber)) × AreStates self.old.closing.rules.all.items nonterminal paths self.new.states.items) }
        ensures stop { IfErr result (IsStopped self.old.closing.rules.all.items nonterminal self.new) }
    {
        let kernel = self.start_kernel(alloc, nonterminal)?;
        if kernel.is_empty() {
            return Ok(());
        }
        self.number(alloc, &kernel, Origin::Start)?;
        self.walk(alloc, nonterminal)
    }

    /// Follows edges until none is left.
    fn walk(&mut self, alloc: Global, nonterminal: usize) -> Result<(), Stop>
        requires firsts { AreFirsts self.old.closing.rules.all.items self.old.closing.firsts.empty self.old.closing.firsts.sets.items }
        requires built { IsBuilt self.old.closing.rules.all.items nonterminal [] self.old }
        ensures built { OnOk result (IsBuilt self.old.closing.rules.all.items nonterminal [] self.new) }
        ensures empty { OnOk result (self.new.edges.items ≡ []) }
        ensures stop { IfErr result (IsStopped self.old.closing.rules.all.items nonterminal self.new) }
    {
        for _ in 0..u64::MAX {
            match self.edges.pop_front() {
                None => return Ok(()),
                Some(edge) => self.follow(alloc, edge)?,
            }
        }
        Err(Stop::Memory)
    }

    /// The productions of the start nonterminal with the dot first, before the end of input.
    fn start_kernel(&self, alloc: Global, nonterminal: usize) -> Result<ItemSet, AllocError>
        ensures { IfOk result (IsStartKernel self.now.closing.rules.all.items nonterminal) }
    {
        let mut kernel = BTreeMap::new(alloc);
        let range = self.closing.rules.productions_of(nonterminal);
        for production in range.from..range.to {
            let mut lookaheads = TokenSet::new(alloc);
            lookaheads.end = true;
            kernel.insert((production, 0usize), lookaheads)?;
        }
        Ok(kernel)
    }

    /// Notes the state that an edge leads to, which is numbered where it is new.
    fn follow(&mut self, alloc: Global, edge: Edge) -> Result<(), Stop>
        requires { AreFirsts self.old.closing.rules.all.items self.old.closing.firsts.empty self.old.closing.firsts.sets.items }
        ensures closing { self.new.closing ≡ self.old.closing }
        ensures built { OnOk result ((start : ℕ) (u : List SymbolNumber) → IsBuilt self.old.closing.rules.all.items start (edge_of edge ∷ []) self.old → slice_get (paths_of self.old.origins.items) edge.from ≡ Some u → IsKernelAfter self.old.closing.rules.all.items start edge.over u edge.kernel → IsBuilt self.old.closing.rules.all.items start [] self.new) }
        ensures stop { IfErr result (λ stop. (start : ℕ) (u : List SymbolNumber) → IsBuilt self.old.closing.rules.all.items start (edge_of edge ∷ []) self.old → slice_get (paths_of self.old.origins.items) edge.from ≡ Some u → IsKernelAfter self.old.closing.rules.all.items start edge.over u edge.kernel → IsStopped self.old.closing.rules.all.items start self.new stop) }
    {
        let Edge { from, over, kernel } = edge;
        match self.numbers.get(&kernel).copied() {
            Some(number) => self.note(from, over, number),
            None => {
                let number = self.states.len();
                self.number(alloc, &kernel, Origin::After(from, over))?;
                self.numbers.insert(kernel, number)?;
                self.note(from, over, number)
            }
        }
    }

    /// Notes where a symbol leads to from a state.
    fn note(&mut self, from: usize, over: SymbolNumber, target: usize) -> Result<(), Stop>
        ensures noted { OnOk result (from < length self.old.states.items → IsNotedIn self.old.states.items self.new.states.items from over target) }
        ensures closing { self.new.closing ≡ self.old.closing }
        ensures numbers { self.new.numbers ≡ self.old.numbers }
        ensures origins { self.new.origins ≡ self.old.origins }
        ensures edges { self.new.edges ≡ self.old.edges }
        ensures stop { IfErr result (λ stop. stop ≡ Stop.Memory) }
    {
        if from < self.states.len() {
            let state = &mut self.states[from];
            match over {
                SymbolNumber::Terminal(number) => {
                    state.shifts.insert(number, target)?;
                }
                SymbolNumber::Nonterminal(number) => {
                    state.gotos.insert(number, target)?;
                }
            }
        }
        Ok(())
    }

    /// Numbers a new state, if it has no conflict, and notes its edges.
    fn number(&mut self, alloc: Global, kernel: &ItemSet, origin: Origin) -> Result<(), Stop>
        requires { AreFirsts self.old.closing.rules.all.items self.old.closing.firsts.empty self.old.closing.firsts.sets.items }
        ensures closing { self.new.closing ≡ self.old.closing }
        ensures numbered { OnOk result (NumbersNew self.old.closing.rules.all.items self.old self.new kernel.now origin) }
        ensures stop { IfErr result (StopsAt self.old.closing.rules.all.items self.old self.new kernel.now origin) }
    {
        self.origins.push(origin)?;
        let number = self.states.len();
        if number >= MOST_STATES {
            return Err(Stop::TooMany);
        }
        let items = self.closing.close(alloc, kernel)?;
        if let Some(token) = conflict(alloc, &self.closing.rules, &items)? {
            return Err(Stop::Conflict(token));
        }
        let state = new_state(alloc, &self.closing.rules, &items)?;
        let moved = advance(alloc, &self.closing.rules, &items)?;
        self.states.push(state)?;
        push_edges(&mut self.edges, number, moved)?;
        Ok(())
    }

    fn fault(&self, alloc: Global, grammar: &Grammar, stop: Stop) -> Result<BuildFault, AllocError>
        ensures { IfOk result (λ f. (start n : ℕ) → start_number grammar.now start ≡ Some n → IsStopped (rules_of grammar.now) n self.now stop → IsCause grammar.now start f) }
    {
        match stop {
            Stop::Memory => Ok(BuildFault::Memory),
            Stop::Conflict(token) => {
                let names = Names::new(alloc, grammar)?;
                let last = self.origins.len().saturating_sub(1);
                let path = self.path(alloc, &names, last)?;
                Ok(BuildFault::Conflict { path, token })
            }
            Stop::TooMany => {
                let names = Names::new(alloc, grammar)?;
                let paths = self.paths(alloc, &names)?;
                Ok(BuildFault::TooManyStates { paths })
            }
        }
    }

    /// The paths that first reached the states.
    fn paths(&self, alloc: Global, names: &Names<'_>) -> Result<Items<Items<Symbol>>, AllocError>
        ensures { IfOk result (λ v. AreSpelled names.now v (paths_of self.now.origins.items)) }
    {
        let mut paths = Vec::new(alloc);
        for state in 0..self.origins.len() {
            paths.push(self.path(alloc, names, state)?)?;
        }
        Ok(Items(paths))
    }

    /// The path that first reached a state.
    fn path(
        &self,
        alloc: Global,
        names: &Names<'_>,
        state: usize,
    ) -> Result<Items<Symbol>, AllocError>
        ensures { IfOk result (λ p. IsSpelled names.now p (slice_index_or (paths_of self.now.origins.items) state [])) }
    {
        let mut backwards = Vec::new(alloc);
        let mut next = Some(state);
        while let Some(at) = next {
            next = self.step_back(at, &mut backwards)?;
        }
        names.path(alloc, backwards.as_slice())
    }

    /// Appends the last symbol of the path to a state; answers the state before it.
    fn step_back(
        &self,
        at: usize,
        backwards: &mut Vec<SymbolNumber>,
    ) -> Result<Option<usize>, AllocError>
        ensures path { IfOk result (λ o. backwards.new.items ++ path_before (paths_of self.now.origins.items) o ≡ backwards.old.items ++ slice_index_or (paths_of self.now.origins.items) at []) }
        ensures before { IfOk result (λ o. IfSome o (λ n. n < at)) }
    {
        match self.origins.get(at) {
            None => Ok(None),
            Some(origin) => match *origin {
                Origin::Start => Ok(None),
                Origin::After(from, symbol) => {
                    backwards.push(symbol)?;
                    if from < at { Ok(Some(from)) } else { Ok(None) }
                }
            },
        }
    }
}

/// Appends the edges of a state.
fn push_edges(edges: &mut VecDeque<Edge>, from: usize, moved: Moved) -> Result<(), AllocError>
    ensures { OnOk result (edges.new.items ≡ edges.old.items ++ map (edge_from from) moved.entries) }
{
    for (over, kernel) in moved {
        edges.push_back(Edge { from, over, kernel })?;
    }
    Ok(())
}
