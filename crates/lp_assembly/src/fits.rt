//! Whether the entries of states fit 32 bits.

ghost use Rattle.std.specs.Prelude.{◌≡◌, ◌<◌, true, nat_lt, All, IfNone};
ghost use Rattle.std.specs.List.{list_all};
ghost use Rattle.std.specs.BTreeMap.{values};
ghost use Rattle.lp_assembly.specs.Built.{AllFit};
ghost use Rattle.lp_parts.specs.Entries.{EntriesFit};

use lp_repr::lr1::{Lr1State, Token};
use lp_repr::{Items, StartStates};
use std::collections::BTreeMap;

/// Above each state and each production that an entry can name.
const LIMIT: usize = 2147483647;

/// The first state with a target or a production that doesn't fit an entry.
pub fn first_unfit(states: &[Lr1State]) -> Option<usize>
    ensures { IfNone result (All EntriesFit states.now) }
{
    for (number, state) in states.iter().enumerate() {
        if !entries_fit(state) {
            return Some(number);
        }
    }
    None
}

/// Whether the entries of all states fit.
pub fn all_fit(lists: &[StartStates]) -> bool
    ensures { result ≡ true → AllFit lists.now }
{
    for list in lists {
        match first_unfit(list.states.as_slice()) {
            Some(_) => return false,
            None => {}
        }
    }
    true
}

fn entries_fit(state: &Lr1State) -> bool
    ensures { result ≡ true → EntriesFit state.now }
{
    shifts_fit(&state.shifts) && reductions_fit(state.reductions.as_slice())
}

fn shifts_fit(shifts: &BTreeMap<usize, usize>) -> bool
    ensures { result ≡ list_all (λ target. nat_lt target 2147483647) (values shifts.now) }
{
    shifts.values().all(|target| *target < LIMIT)
}

fn reductions_fit(reductions: &[(Items<Token>, usize)]) -> bool
    ensures { result ≡ true → All (λ r. r.1 < 2147483647) reductions.now }
{
    reductions.iter().all(|reduction| reduction.1 < LIMIT)
}
