//! The canonical states of one start.

ghost use Rattle.std.specs.Prelude.{IfOk, IfErr};
ghost use Rattle.lp_states.specs.Causes.{IsCause};
ghost use Rattle.lp_starts.specs.Tables.{AreStatesOf, AreTheirTables, ShiftsAscend};

use lp_repr::Lr1State;
use lp_repr::repr::Grammar;
use lp_states::BuildFault;
use std::alloc::Global;

/// The canonical LR(1) states of the start of this number, as `lp_states::build_states` builds
/// them. Those of a start of a valid grammar are valid tables.
pub fn build_states(
    alloc: Global,
    grammar: &Grammar,
    start: usize,
) -> Result<Vec<Lr1State>, BuildFault>
    ensures states { IfOk result (λ v. AreStatesOf grammar.now start v.items) }
    ensures valid { IfOk result (λ v. AreTheirTables grammar.now start v.items) }
    ensures fault { IfErr result (IsCause grammar.now start) }
{
    let states = lp_states::build_states(alloc, grammar, start)?;
    shifts_ascend(states.as_slice());
    Ok(states)
}

/// The terminals of each state's shifts ascend, as a call of each map says.
fn shifts_ascend(states: &[Lr1State])
    ensures { ShiftsAscend states.now }
{
    for state in states {
        state.shifts.len();
    }
}
