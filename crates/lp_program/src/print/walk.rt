//! The order of the lines: the steps of a part, and the parts below it in their places.

ghost use Rattle.std.specs.Prelude.{◌≡◌, ℕ, ◌<◌, ◌≤◌, List, ◌++◌, length, map, take, min, IfOk, IsTrue};
ghost use Rattle.std.specs.List.{prefix_len};
ghost use Rattle.lp_form.specs.Templates.{piece};
ghost use Rattle.lp_program.specs.Places.{printed_from, takes_next, IsAfter, place_ending};
ghost use Rattle.lp_program.specs.OwnLines.{own_lines};
ghost use Rattle.lp_program.specs.Printed.{all_lines, is_member, lines, list_lines, node_lines, part_lines, takes, takes_one, taken};
ghost use Rattle.lp_program.specs.Trees.{content, forest, tree_count};
ghost use Rattle.lp_write.specs.declared.rust.Options.{Options};
ghost use Rattle.lp_write.specs.Writes.{options_of, writing, Writes, write_ending};

use crate::print::own::print_own;
use lp_form::template::Piece as LinePart;
use lp_form::{Class, Part, Step, members, steps};
use lp_tree::tree::{Entry, Node, Program};
use lp_view::end_of;
use lp_write::{RustWrite, Sink, WriteError};
use std::alloc::Global;

/// Appends the lines of the program.
pub fn print_program<W: Sink>(
    alloc: Global,
    program: &Program<'_>,
    out: &mut RustWrite<W>,
) -> Result<(), WriteError>
    ensures { Writes (write_ending result) (writing W.told out.old) (writing W.told out.new) (lines (options_of out.old) program.now) }
{
    print_list(
        alloc,
        program.prefix.as_str(),
        program.entries.as_slice(),
        out,
    )
}

/// Appends the lines of one node, under the prefix of its program.
pub fn print_node<W: Sink>(
    alloc: Global,
    prefix: &str,
    node: &Node<'_>,
    out: &mut RustWrite<W>,
) -> Result<(), WriteError>
    ensures { Writes (write_ending result) (writing W.told out.old) (writing W.told out.new) (node_lines (options_of out.old) prefix.now node.now) }
{
    print_part(alloc, prefix, &node.first, node.below.as_slice(), out)
}

/// Appends the lines of a list of parts: of its first part, with all others below it.
fn print_list<W: Sink>(
    alloc: Global,
    prefix: &str,
    entries: &[Entry<'_>],
    out: &mut RustWrite<W>,
) -> Result<(), WriteError>
    ensures { Writes (write_ending result) (writing W.told out.old) (writing W.told out.new) (list_lines (options_of out.old) prefix.now entries.now) }
{
    if entries.is_empty() {
        return Ok(());
    }
    print_part(alloc, prefix, &entries[0], &entries[1..], out)
}

/// Appends the lines of a part, with those of all below it.
#[cycle(printing)]
fn print_part<W: Sink>(
    alloc: Global,
    prefix: &str,
    entry: &Entry<'_>,
    below: &[Entry<'_>],
    out: &mut RustWrite<W>,
) -> Result<(), WriteError>
    ensures { Writes (write_ending result) (writing W.told out.old) (writing W.told out.new) (part_lines (options_of out.old) prefix.now entry.now below.now) }
{
    let mut at = 0;
    for step in steps(entry.part) {
        at = print_step(alloc, prefix, entry, below, at, step.0, step.1, out)?;
    }
    Ok(())
}

/// Appends the lines of a step, with those of the parts from a place on that it takes; gives the
/// place after these.
#[cycle(printing)]
fn print_step<W: Sink>(
    alloc: Global,
    prefix: &str,
    entry: &Entry<'_>,
    below: &[Entry<'_>],
    at: usize,
    step: Step,
    pieces: &[LinePart],
    out: &mut RustWrite<W>,
) -> Result<usize, WriteError>
    requires { at ≤ length below.now }
    ensures place { let trees = printed_from (options_of out.old) prefix.now below.now at in IfOk result (λ n. IsAfter (options_of out.old) prefix.now below.now at (taken step trees) n) }
    ensures lines { let trees = printed_from (options_of out.old) prefix.now below.now at in Writes (place_ending result) (writing W.told out.old) (writing W.told out.new) (own_lines (options_of out.old) prefix.now (content entry.now) (tree_count (forest below.now)) (map piece pieces.now) step ++ all_lines (take (taken step trees) trees)) }
{
    print_own(alloc, prefix, entry, below, step, pieces, out)?;
    if takes_one(step) {
        print_first(alloc, prefix, below, at, step, out)
    } else {
        print_run(alloc, prefix, below, at, step, out)
    }
}

/// Appends the part at a place, if the step takes it; gives the place after it.
#[cycle(printing)]
fn print_first<W: Sink>(
    alloc: Global,
    prefix: &str,
    below: &[Entry<'_>],
    at: usize,
    step: Step,
    out: &mut RustWrite<W>,
) -> Result<usize, WriteError>
    requires { at ≤ length below.now }
    ensures place { let trees = printed_from (options_of out.old) prefix.now below.now at in IfOk result (λ n. IsAfter (options_of out.old) prefix.now below.now at (min 1 (prefix_len (λ p. takes step p.0) trees)) n) }
    ensures lines { let trees = printed_from (options_of out.old) prefix.now below.now at in Writes (place_ending result) (writing W.told out.old) (writing W.told out.new) (all_lines (take (min 1 (prefix_len (λ p. takes step p.0) trees)) trees)) }
{
    if takes_next(step, below, at) {
        return print_tree(alloc, prefix, below, at, out);
    }
    Ok(at)
}

/// Appends the parts from a place on, as long as the step takes them; gives the place after them.
#[cycle(printing)]
fn print_run<W: Sink>(
    alloc: Global,
    prefix: &str,
    below: &[Entry<'_>],
    from: usize,
    step: Step,
    out: &mut RustWrite<W>,
) -> Result<usize, WriteError>
    requires { from ≤ length below.now }
    ensures place { let trees = printed_from (options_of out.old) prefix.now below.now from in IfOk result (λ n. IsAfter (options_of out.old) prefix.now below.now from (prefix_len (λ p. takes step p.0) trees) n) }
    ensures lines { let trees = printed_from (options_of out.old) prefix.now below.now from in Writes (place_ending result) (writing W.told out.old) (writing W.told out.new) (all_lines (take (prefix_len (λ p. takes step p.0) trees) trees)) }
{
    let mut at = from;
    'trees: while takes_next(step, below, at) {
        at = print_tree(alloc, prefix, below, at, out)?;
    }
    Ok(at)
}

/// Appends the part at a place, with all below it; gives the place after it.
#[cycle(printing)]
fn print_tree<W: Sink>(
    alloc: Global,
    prefix: &str,
    below: &[Entry<'_>],
    at: usize,
    out: &mut RustWrite<W>,
) -> Result<usize, WriteError>
    requires { at < length below.now }
    ensures after { IfOk result (λ n. at < n) }
    ensures place { IfOk result (λ n. IsAfter (options_of out.old) prefix.now below.now at 1 n) }
    ensures lines { Writes (place_ending result) (writing W.told out.old) (writing W.told out.new) (all_lines (take 1 (printed_from (options_of out.old) prefix.now below.now at))) }
{
    let end = end_of(below, at);
    print_part(alloc, prefix, &below[at], &below[at + 1..end], out)?;
    Ok(end)
}

/// Whether a step takes the part at a place.
fn takes_next(step: Step, below: &[Entry<'_>], at: usize) -> bool
    ensures there { IsTrue result → at < length below.now }
    ensures next { (options : Options) (prefix : List ℕ) → result ≡ takes_next step (printed_from options prefix below.now at) }
{
    if at < below.len() {
        takes(step, below[at].part)
    } else {
        false
    }
}

/// Whether a step takes a part from those below.
fn takes(step: Step, part: Part) -> bool
    ensures { result ≡ takes step part }
{
    match step {
        Step::One(class) => is_member(class, part),
        Step::Optional(class) => is_member(class, part),
        Step::Many(class) => is_member(class, part),
        Step::Some(class) => is_member(class, part),
        Step::Pairs(first, second) => is_member(first, part) || is_member(second, part),
        _ => false,
    }
}

/// Whether it takes at most one.
fn takes_one(step: Step) -> bool
    ensures { result ≡ takes_one step }
{
    match step {
        Step::One(_) => true,
        Step::Optional(_) => true,
        _ => false,
    }
}

/// Whether a part belongs to a class.
fn is_member(class: Class, part: Part) -> bool
    ensures { result ≡ is_member class part }
{
    members(class).contains(&part)
}
