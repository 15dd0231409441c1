//! The evaluator, whose frames stand in a `Vec`: it goes on until a step is to be made.

ghost use Rattle.std.specs.Prelude.{◌≡◌, ℕ, ◌+◌, ◌<◌, ◌++◌, ◌∷◌, [], replicate, Some, IfOk, MatchOption, slice_get};
ghost use Rattle.std.specs.Option.{option_copied};
ghost use Rattle.lp_core.specs.Datum.{Unset};
ghost use Rattle.lp_core.specs.Val.{Val, Plain};
ghost use Rattle.lp_core.specs.Tree.{trees_of};
ghost use Rattle.lp_core.specs.Store.{Program, program_of};
ghost use Rattle.lp_core.specs.CaseMeaning.{chosen};
ghost use Rattle.lp_core.specs.Flow.{State, Flow, Gives, Returns, with_body, leave};
ghost use Rattle.lp_core.specs.Eval.{count, run, run_args, run_block, run_at, enter_with};
ghost use Rattle.lp_core.specs.FrameView.{state_of, done_flow, frame_flow, rest, now_flow, step_flow, pause_flow};
ghost use Rattle.lp_core.specs.Weight.{weight, weight_all, weight_frame, weights, weight_now};

use crate::act::{do_leaf, do_op};
use crate::cases::chosen;
use crate::expr::{Case, Expr, Function, Node, Op, Target};
use crate::join::do_join;
use crate::slots::write;
use crate::value::Value;
use crate::world::{Done, Setting, World};
use std::alloc::{AllocError, Global};
use std::mem;

/// What is to be done with a value, once there is one.
#[derive(Drop)]
pub enum Frame<'a> {
    /// What is done with the value.
    Apply(&'a Op),
    /// The other expressions of a block.
    Sequence(&'a [Expr]),
    /// What is done where the value is true, and where it is false.
    Choose(&'a Expr, &'a Expr),
    /// A match: the slot for the value, the cases and the bodies.
    Select(usize, &'a [Case], &'a [Expr]),
    /// A call: what is called, the arguments before this one, and the expressions after it.
    Argument(&'a Target, Vec<Value>, &'a [Expr]),
    /// The body of a loop, for another turn.
    Turn(&'a Expr),
    /// Back in the caller: its slots, and how many cells there were.
    Leave(Vec<Value>, usize),
}

/// What makes a step.
#[derive(Drop)]
pub enum Step<'a> {
    /// Enters the function of this number, counted from 0, with these arguments.
    Enter(usize, Vec<Value>),
    /// Begins a turn of a loop with this body.
    Again(&'a Expr),
}

/// Where the run is.
#[derive(Drop)]
pub enum Now<'a> {
    /// This expression is to begin.
    Eval(&'a Expr),
    /// A call: what is called, the arguments so far, and the expressions of the others.
    Arguments(&'a Target, Vec<Value>, &'a [Expr]),
    /// A block: its expressions that are left, and the value of the last one before.
    Sequence(&'a [Expr], Value),
    /// An expression has ended; the last frame goes on.
    Ended(Done),
    /// A step is to be made.
    Make(Step<'a>),
}

/// Where the run is when a step is to be made, or it is over.
#[derive(Drop)]
pub enum Pause<'a> {
    Over(Done),
    Wants(Step<'a>),
}

// Begins an expression.
fn start<'a>(
    alloc: Global,
    setting: &Setting<'_>,
    world: &mut World,
    frames: &mut Vec<Frame<'a>>,
    e: &'a Expr,
) -> Result<Now<'a>, AllocError>
    ensures same { IfOk result (λ now. (left : ℕ) → rest (program_of setting.now) frames.new.items (now_flow (program_of setting.now) now (state_of world.new left)) ≡ rest (program_of setting.now) frames.old.items (run (program_of setting.now) e.now (state_of world.old left))) }
    ensures smaller { IfOk result (λ now. weights frames.new.items + weight_now now < weights frames.old.items + weight e.now) }
{
    match &e.node {
        Node::Plain(l) => Ok(Now::Ended(do_leaf(alloc, setting, world, l)?)),
        Node::Apply(op, a) => {
            frames.push(Frame::Apply(op))?;
            Ok(Now::Eval(a))
        }
        Node::If(t, a, b) => {
            frames.push(Frame::Choose(a, b))?;
            Ok(Now::Eval(t))
        }
        Node::Match(t, x, cases, bodies) => {
            frames.push(Frame::Select(*x, cases, bodies))?;
            Ok(Now::Eval(t))
        }
        Node::Loop(a) => Ok(Now::Make(Step::Again(a))),
        Node::Call(target, args) => Ok(Now::Arguments(target, Vec::new(alloc), args)),
        Node::Block(es) => Ok(Now::Sequence(es, Value::unset())),
    }
}

// Goes on with the arguments of a call.
fn next_argument<'a>(
    alloc: Global,
    setting: &Setting<'_>,
    world: &mut World,
    frames: &mut Vec<Frame<'a>>,
    target: &'a Target,
    values: Vec<Value>,
    args: &'a [Expr],
) -> Result<Now<'a>, AllocError>
    ensures same { IfOk result (λ now. (left : ℕ) → rest (program_of setting.now) frames.new.items (now_flow (program_of setting.now) now (state_of world.new left)) ≡ rest (program_of setting.now) frames.old.items (run_args (program_of setting.now) target.now (trees_of args.now) values.items (state_of world.old left))) }
    ensures smaller { IfOk result (λ now. weights frames.new.items + weight_now now < weights frames.old.items + weight_all (trees_of args.now)) }
{
    match split(args) {
        None => match target {
            Target::Function(f) => Ok(Now::Make(Step::Enter(*f, values))),
            Target::Join(join) => { Ok(Now::Ended(do_join(alloc, setting, world, join, values)?)) }
        },
        Some((e, others)) => {
            frames.push(Frame::Argument(target, values, others))?;
            Ok(Now::Eval(e))
        }
    }
}

// Goes on with a block.
fn next_of_block<'a>(
    frames: &mut Vec<Frame<'a>>,
    es: &'a [Expr],
    value: Value,
) -> Result<Now<'a>, AllocError>
    ensures same { IfOk result (λ now. (p : Program) (st : State) → rest p frames.new.items (now_flow p now st) ≡ rest p frames.old.items (run_block p (trees_of es.now) value st)) }
    ensures smaller { IfOk result (λ now. weights frames.new.items + weight_now now < weights frames.old.items + weight_all (trees_of es.now)) }
{
    match split(es) {
        None => Ok(Now::Ended(Done::Valued(value))),
        Some((e, others)) => {
            frames.push(Frame::Sequence(others))?;
            Ok(Now::Eval(e))
        }
    }
}

// Goes on where a part gave a value.
fn resume_with<'a>(
    alloc: Global,
    setting: &Setting<'_>,
    world: &mut World,
    frame: Frame<'a>,
    v: Value,
) -> Result<Now<'a>, AllocError>
    ensures same { IfOk result (λ now. (left : ℕ) → now_flow (program_of setting.now) now (state_of world.new left) ≡ frame_flow (program_of setting.now) frame.entry (Gives v (state_of world.old left))) }
    ensures smaller { IfOk result (λ now. weight_now now < weight_frame frame.entry) }
{
    match frame {
        Frame::Apply(op) => Ok(Now::Ended(do_op(alloc, setting, world, op, v)?)),
        Frame::Sequence(es) => Ok(Now::Sequence(es, v)),
        Frame::Choose(a, b) => Ok(match v.as_bool() {
            None => Now::Ended(Done::Stuck),
            Some(true) => Now::Eval(a),
            Some(false) => Now::Eval(b),
        }),
        Frame::Select(x, cases, bodies) => Ok(select(setting, world, x, cases, bodies, v)),
        Frame::Argument(target, mut values, args) => {
            values.push(v)?;
            Ok(Now::Arguments(target, values, args))
        }
        Frame::Turn(e) => Ok(Now::Make(Step::Again(e))),
        Frame::Leave(env, cells) => {
            leave(world, env, cells);
            Ok(Now::Ended(Done::Valued(v)))
        }
    }
}

// Goes on with the body of the first case that fits a value.
#[tactic(auto, using(crate::proofs::Bodies::count_length))]
fn select<'a>(
    setting: &Setting<'_>,
    world: &mut World,
    x: usize,
    cases: &'a [Case],
    bodies: &'a [Expr],
    v: Value,
) -> Now<'a>
    ensures same { (left : ℕ) → now_flow (program_of setting.now) result (state_of world.new left) ≡ with_body x v (run_at (program_of setting.now) (trees_of bodies.now)) (chosen (program_of setting.now) cases.now (count (trees_of bodies.now)) v) (state_of world.old left) }
    ensures smaller { weight_now result < weight_all (trees_of bodies.now) + 1 }
{
    match chosen(setting, cases, bodies.len(), &v) {
        None => Now::Ended(Done::Stuck),
        Some(body) => with_body(world, x, bodies, body, v),
    }
}

// Goes on with the body of a number, the value in its slot.
fn with_body<'a>(world: &mut World, x: usize, bodies: &'a [Expr], body: usize, v: Value) -> Now<'a>
    ensures same { (p : Program) (left : ℕ) → now_flow p result (state_of world.new left) ≡ with_body x v (run_at p (trees_of bodies.now)) (Some body) (state_of world.old left) }
    ensures smaller { weight_now result < weight_all (trees_of bodies.now) + 1 }
{
    if write(world, x, v) {
        body_at(bodies, body)
    } else {
        Now::Ended(Done::Stuck)
    }
}

// The body of a number, if there is one.
fn body_at(bodies: &[Expr], body: usize) -> Now<'_>
    ensures same { (p : Program) (st : State) → now_flow p result st ≡ run_at p (trees_of bodies.now) body st }
    ensures smaller { weight_now result < weight_all (trees_of bodies.now) + 1 }
{
    match nth(bodies, body) {
        None => Now::Ended(Done::Stuck),
        Some(e) => Now::Eval(e),
    }
}

fn nth(bodies: &[Expr], body: usize) -> Option<&Expr>
    ensures { option_copied result ≡ slice_get bodies.now body }
{
    bodies.get(body)
}

// Back in the caller.
fn leave(world: &mut World, env: Vec<Value>, cells: usize)
    ensures { (v : Val) (left : ℕ) → Gives v (state_of world.new left) ≡ leave env.items cells (Gives v (state_of world.old left)) }
{
    world.env = env;
    world.cells.truncate(cells);
}

// A return ends at its call.
fn leave_by<'a>(world: &mut World, frame: Frame<'a>, v: Value) -> Done
    ensures { (p : Program) (left : ℕ) → done_flow result (state_of world.new left) ≡ frame_flow p frame.entry (Returns v (state_of world.old left)) }
{
    match frame {
        Frame::Leave(env, cells) => {
            leave(world, env, cells);
            Done::Valued(v)
        }
        _ => Done::Returned(v),
    }
}

// Goes on in one frame.
fn resume<'a>(
    alloc: Global,
    setting: &Setting<'_>,
    world: &mut World,
    frame: Frame<'a>,
    done: Done,
) -> Result<Now<'a>, AllocError>
    ensures same { IfOk result (λ now. (left : ℕ) → now_flow (program_of setting.now) now (state_of world.new left) ≡ frame_flow (program_of setting.now) frame.entry (done_flow done (state_of world.old left))) }
    ensures smaller { IfOk result (λ now. weight_now now < weight_frame frame.entry) }
{
    match done {
        Done::Valued(v) => resume_with(alloc, setting, world, frame, v),
        Done::Returned(v) => Ok(Now::Ended(leave_by(world, frame, v))),
        Done::Stuck => Ok(Now::Ended(Done::Stuck)),
    }
}

/// Goes on until a step is to be made, or the run is over.
pub fn settle<'a>(
    alloc: Global,
    setting: &Setting<'_>,
    world: &mut World,
    frames: &mut Vec<Frame<'a>>,
    first: Now<'a>,
) -> Result<Pause<'a>, AllocError>
    ensures { IfOk result (λ pause. (left : ℕ) → pause_flow (program_of setting.now) frames.new.items pause (state_of world.new left) ≡ rest (program_of setting.now) frames.old.items (now_flow (program_of setting.now) first.entry (state_of world.old left))) }
{
    let mut now = first;
    'settling: loop {
        now = match now {
            Now::Eval(e) => start(alloc, setting, world, frames, e)?,
            Now::Arguments(target, values, args) => {
                next_argument(alloc, setting, world, frames, target, values, args)?
            }
            Now::Sequence(es, value) => next_of_block(frames, es, value)?,
            Now::Ended(done) => match frames.pop() {
                Some(frame) => resume(alloc, setting, world, frame, done)?,
                None => return Ok(Pause::Over(done)),
            },
            Now::Make(step) => return Ok(Pause::Wants(step)),
        };
    }
}

/// Makes a step: enters a function, or begins a turn of a loop.
pub fn make_step<'a>(
    setting: &Setting<'a>,
    world: &mut World,
    frames: &mut Vec<Frame<'a>>,
    step: Step<'a>,
) -> Result<Now<'a>, AllocError>
    ensures { IfOk result (λ now. (left : ℕ) → rest (program_of setting.now) frames.new.items (now_flow (program_of setting.now) now (state_of world.new left)) ≡ rest (program_of setting.now) frames.old.items (step_flow (program_of setting.now) step.entry (state_of world.old (left + 1)))) }
{
    match step {
        Step::Again(e) => {
            frames.push(Frame::Turn(e))?;
            Ok(Now::Eval(e))
        }
        Step::Enter(f, values) => match function_at(&setting.code.functions, f) {
            None => Ok(Now::Ended(Done::Stuck)),
            Some(function) => {
                if function.params == values.len() {
                    enter(world, frames, function, values)
                } else {
                    Ok(Now::Ended(Done::Stuck))
                }
            }
        },
    }
}

// Enters a function that has as many parameters as there are values.
fn enter<'a>(
    world: &mut World,
    frames: &mut Vec<Frame<'a>>,
    function: &'a Function,
    values: Vec<Value>,
) -> Result<Now<'a>, AllocError>
    ensures { IfOk result (λ now. (p : Program) (left : ℕ) → rest p frames.new.items (now_flow p now (state_of world.new left)) ≡ rest p frames.old.items (enter_with p function.now (run p) values.items (state_of world.old left))) }
{
    let env = with_slots(values, function.slots)?;
    let caller = mem::replace(&mut world.env, env);
    frames.push(Frame::Leave(caller, world.cells.len()))?;
    Ok(Now::Eval(&function.body))
}

// The slots of a new call.
fn with_slots(mut values: Vec<Value>, slots: usize) -> Result<Vec<Value>, AllocError>
    ensures { IfOk result (λ env. env.items ≡ values.items ++ replicate slots (Plain Unset)) }
{
    for _i in 0..slots {
        values.push(Value::unset())?;
    }
    Ok(values)
}

fn function_at(functions: &[Function], f: usize) -> Option<&Function>
    ensures { option_copied result ≡ slice_get functions.now f }
{
    functions.get(f)
}

// The first expression, and the others.
fn split(es: &[Expr]) -> Option<(&Expr, &[Expr])>
    ensures { MatchOption result (es.now ≡ []) (λ r. es.now ≡ r.0.now ∷ r.1.now) }
{
    es.split_first()
}
