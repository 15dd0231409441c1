//! Slots and cells of the world.

ghost use Rattle.std.specs.Prelude.{◌≡◌, ◌+◌, ◌^◌, ◌<◌, true, Some, None, MatchBool, IfOk, OnOk, slice_get};
ghost use Rattle.std.specs.Option.{option_map, option_and_then, option_copied};
ghost use Rattle.lp_core.specs.Reading.{cell_of};
ghost use Rattle.lp_core.specs.Datum.{Unset};
ghost use Rattle.lp_core.specs.Val as val;
ghost use Rattle.lp_core.specs.Store.{Store, store_of, held, States};
ghost use Rattle.lp_core.specs.Effect.{effect, gave, did, written, all_written, set_value, with_slot, new_cell, new_cell_of};
ghost use Rattle.lp_core.specs.CellMeaning.{cell_change, changes, pushed, cut_to, states_in};
ghost use Rattle.lp_core.specs.OpMeaning.{parts_written, parts_stored, on_cell, on_reference, cell_at};

use crate::cell::{Cell, unit_if};
use crate::expr::Op;
use crate::value::{Atom, Value};
use crate::world::{Done, World};
use std::alloc::{AllocError, Global};

/// The value, or that there is none.
pub fn given(o: Option<Value>) -> Done
    ensures { (s : Store) → effect result s ≡ gave o s }
{
    match o {
        None => Done::Stuck,
        Some(v) => Done::Valued(v),
    }
}

/// `()` where something could be done.
pub fn done(alloc: Global, could: bool) -> Done
    ensures { (s : Store) → effect result s ≡ did could s }
{
    given(unit_if(alloc, could))
}

// What has a value.
fn set_value(v: Value) -> Option<Value>
    ensures { result ≡ set_value v }
{
    match v.as_atom() {
        Some(Atom::Unset) => None,
        _ => Some(v),
    }
}

/// What a slot holds.
pub fn read(alloc: Global, world: &World, x: usize) -> Result<Done, AllocError>
    ensures { IfOk result (λ d. (s : Store) → effect d s ≡ gave (option_and_then set_value (slice_get world.now.env.items x)) s) }
{
    match slot(world, x) {
        None => Ok(Done::Stuck),
        Some(v) => Ok(given(set_value(v.copied(alloc)?))),
    }
}

fn slot(world: &World, x: usize) -> Option<&Value>
    ensures { option_copied result ≡ slice_get world.now.env.items x }
{
    world.env.get(x)
}

/// What a slot holds, which has no value afterwards.
pub fn take(world: &mut World, x: usize) -> Done
    ensures does { effect result (store_of world.new) ≡ gave (option_and_then set_value (slice_get world.old.env.items x)) (with_slot x (val.Plain Unset) (store_of world.old)) }
    ensures events { world.new.events ≡ world.old.events }
{
    if x >= world.env.len() {
        return Done::Stuck;
    }
    let v = std::mem::replace(&mut world.env[x], Value::unset());
    given(set_value(v))
}

/// Writes to a slot; false where there is none.
pub fn write(world: &mut World, x: usize, v: Value) -> bool
    ensures does { MatchBool result (written x v (store_of world.old) ≡ Some (store_of world.new)) (written x v (store_of world.old) ≡ None) }
    ensures bound { result ≡ true → x + 1 < 2 ^ 64 }
    ensures events { world.new.events ≡ world.old.events }
{
    if x >= world.env.len() {
        return false;
    }
    world.env[x] = v;
    true
}

/// Writes the parts of a value to slots; false where it has another number of parts.
pub fn write_parts(world: &mut World, first: usize, count: usize, v: Value) -> bool
    ensures does { MatchBool result (parts_stored first count v (store_of world.old) ≡ Some (store_of world.new)) (parts_stored first count v (store_of world.old) ≡ None) }
    ensures events { world.new.events ≡ world.old.events }
{
    match v.into_parts() {
        None => false,
        Some((_, parts)) => {
            if parts.len() == count {
                write_all(world, first, parts)
            } else {
                false
            }
        }
    }
}

// Writes the values to slots, from the first one on; false where a slot isn't there.
fn write_all(world: &mut World, first: usize, values: Vec<Value>) -> bool
    ensures does { MatchBool result (all_written first values.items (store_of world.old) ≡ Some (store_of world.new)) (all_written first values.items (store_of world.old) ≡ None) }
    ensures events { world.new.events ≡ world.old.events }
{
    let mut x = first;
    for v in values {
        if !write(world, x, v) {
            return false;
        }
        x += 1;
    }
    true
}

/// A reference to a new cell.
pub fn new_cell(world: &mut World, cell: Cell) -> Result<Done, AllocError>
    ensures does { IfOk result (λ d. effect d (store_of world.new) ≡ new_cell (held cell) (store_of world.old)) }
    ensures events { OnOk result (world.new.events ≡ world.old.events) }
{
    let n = world.cells.len();
    world.cells.push(cell)?;
    Ok(Done::Valued(Value::plain(Atom::Cell(n))))
}

/// A reference to a new cell with the states of the one that a value refers to.
pub fn copy_states(alloc: Global, world: &mut World, v: &Value) -> Result<Done, AllocError>
    ensures does { IfOk result (λ d. effect d (store_of world.new) ≡ new_cell_of (option_map States (option_and_then states_in (cell_at v.now (store_of world.old)))) (store_of world.old)) }
    ensures events { OnOk result (world.new.events ≡ world.old.events) }
{
    match copied_at(alloc, world, v)? {
        None => Ok(Done::Stuck),
        Some(cell) => new_cell(world, cell),
    }
}

fn copied_at(alloc: Global, world: &World, v: &Value) -> Result<Option<Cell>, AllocError>
    ensures { IfOk result (λ o. option_map held o ≡ option_map States (option_and_then states_in (cell_at v.now (store_of world.now)))) }
{
    match cell_at(world, v) {
        None => Ok(None),
        Some(cell) => cell.copied(alloc),
    }
}

/// The cell that a value refers to.
pub fn cell_at<'w>(world: &'w World, v: &Value) -> Option<&'w Cell>
    ensures { option_map held (option_copied result) ≡ cell_at v.now (store_of world.now) }
{
    match v.as_cell() {
        None => None,
        Some(n) => nth(&world.cells, n),
    }
}

fn nth(cells: &[Cell], n: usize) -> Option<&Cell>
    ensures { option_copied result ≡ slice_get cells.now n }
{
    cells.get(n)
}

/// What an operation does with the cell that a value refers to.
pub fn change_cell(alloc: Global, world: &mut World, op: &Op, v: &Value) -> Result<Done, AllocError>
    ensures does { IfOk result (λ d. effect d (store_of world.new) ≡ on_reference (store_of world.old) (cell_change op.now) (cell_of v.now)) }
    ensures events { OnOk result (world.new.events ≡ world.old.events) }
{
    match v.as_cell() {
        None => Ok(Done::Stuck),
        Some(n) => change_nth(alloc, world, op, n),
    }
}

fn change_nth(alloc: Global, world: &mut World, op: &Op, n: usize) -> Result<Done, AllocError>
    ensures does { IfOk result (λ d. effect d (store_of world.new) ≡ on_cell (store_of world.old) (cell_change op.now) n) }
    ensures events { OnOk result (world.new.events ≡ world.old.events) }
{
    if n >= world.cells.len() {
        return Ok(Done::Stuck);
    }
    let o = world.cells[n].change(alloc, op)?;
    Ok(given(o))
}

/// Puts a value on the list that a value refers to.
pub fn push_on(alloc: Global, world: &mut World, a: &Value, v: Value) -> Result<Done, AllocError>
    ensures does { IfOk result (λ d. effect d (store_of world.new) ≡ on_reference (store_of world.old) (λ c. changes (pushed v c)) (cell_of a.now)) }
    ensures events { OnOk result (world.new.events ≡ world.old.events) }
{
    match a.as_cell() {
        None => Ok(Done::Stuck),
        Some(n) => push_nth(alloc, world, n, v),
    }
}

fn push_nth(alloc: Global, world: &mut World, n: usize, v: Value) -> Result<Done, AllocError>
    ensures does { IfOk result (λ d. effect d (store_of world.new) ≡ on_cell (store_of world.old) (λ c. changes (pushed v c)) n) }
    ensures events { OnOk result (world.new.events ≡ world.old.events) }
{
    if n >= world.cells.len() {
        return Ok(Done::Stuck);
    }
    let could = world.cells[n].push(v)?;
    Ok(done(alloc, could))
}

/// Cuts the list of states that a value refers to.
pub fn cut(alloc: Global, world: &mut World, a: &Value, length: usize) -> Done
    ensures does { effect result (store_of world.new) ≡ on_reference (store_of world.old) (λ c. changes (cut_to length c)) (cell_of a.now) }
    ensures events { world.new.events ≡ world.old.events }
{
    match a.as_cell() {
        None => Done::Stuck,
        Some(n) => cut_nth(alloc, world, n, length),
    }
}

fn cut_nth(alloc: Global, world: &mut World, n: usize, length: usize) -> Done
    ensures does { effect result (store_of world.new) ≡ on_cell (store_of world.old) (λ c. changes (cut_to length c)) n }
    ensures events { world.new.events ≡ world.old.events }
{
    if n >= world.cells.len() {
        return Done::Stuck;
    }
    let could = world.cells[n].truncate(length);
    done(alloc, could)
}
