//! A call of a printed function, under the steps that are left.

ghost use Rattle.std.specs.Prelude.{IfOk};
ghost use Rattle.lp_core.specs.Store.{program_of};
ghost use Rattle.lp_core.specs.Eval.{run_call};
ghost use Rattle.lp_core.specs.Flow.{State};
ghost use Rattle.lp_core.specs.FrameView.{state_of, done_flow};
ghost use Rattle.lp_core.specs.Endings.{Ends, as_call};

use crate::machine::{Now, Pause, Step, make_step, settle};
use crate::value::Value;
use crate::world::{Done, Setting, World};
use std::alloc::{AllocError, Global};

/// How a call ended.
#[derive(Drop)]
pub enum Ending {
    Value(Value),
    /// One step more would be made, and none is left.
    Spent,
    /// It goes no further.
    Stuck,
}

/// Calls a function, by its number. The call is a step; `left` is how many steps are left. The
/// answer, the calls of user code and the steps that are left then are those that the call means.
pub fn call(
    alloc: Global,
    setting: &Setting<'_>,
    world: &mut World,
    left: &mut u64,
    function: usize,
    args: Vec<Value>,
) -> Result<Ending, AllocError>
    ensures { IfOk result (λ ending. Ends ending (state_of world.new left.new) (run_call (program_of setting.now) function args.items (state_of world.old left.old))) }
{
    let mut frames = Vec::new(alloc);
    let mut now = Now::Make(Step::Enter(function, args));
    'running: loop {
        match settle(alloc, setting, world, &mut frames, now)? {
            Pause::Over(done) => return Ok(ending_of(done)),
            Pause::Wants(step) => {
                if *left == 0 {
                    return Ok(Ending::Spent);
                }
                *left -= 1;
                now = make_step(setting, world, &mut frames, step)?;
            }
        }
    }
}

// How a call ended that is over.
fn ending_of(done: Done) -> Ending
    ensures { (st : State) → Ends result st (as_call (done_flow done st)) }
{
    match done {
        Done::Valued(v) => Ending::Value(v),
        _ => Ending::Stuck,
    }
}
