//! The notes of a program's parts.

ghost use Rattle.std.specs.Prelude.{◌≡◌, [], ◌∷◌, map, option_copied, string_bytes, IfOk};
ghost use Rattle.lp_notes.specs.Modules.{states_by};
ghost use Rattle.lp_notes.specs.Notes.{comments_by, goto_line, notes_by, notes_from, notes_of_module, notes_of_program, one_line, part_notes, production_line, second, state_notes, states_in};
ghost use Rattle.lp_tree.specs.ProgramTree.{all_notes, entry_notes, item, items, lines_note, noted, program_items, program_notes};

use crate::place::{Kind, Place, kind_of, number_told};
use crate::rows::{action_rows, end_rows, item_lines, made};
use crate::source::Source;
use lp_repr::repr::{Grammar, NonterminalString, Production};
use lp_repr::{Lr1State, StartStates};
use lp_tree::{Entry, Node, Piece, Program, RowNote};
use std::alloc::{AllocError, Global};

/// The states that modules are made of.
#[derive(Clone, Copy)]
pub enum Modules<'s> {
    /// Those of the one module that there is.
    One(&'s [Lr1State]),
    /// Those of each module, in their order.
    Each(&'s [StartStates]),
}

/// The program with its notes, in place of those that it has: where the rows of its tables end, the productions
/// of reductions, and other comments if there are to be any.
#[tactic(auto, unfolding(crate::specs::Notes::notes_of_program))]
pub fn noted_program<'t>(
    alloc: Global,
    grammar: &Grammar,
    states: &[StartStates],
    comments: bool,
    program: Program<'t>,
) -> Result<Program<'t>, AllocError>
    ensures prefix { IfOk result (λ p. p.prefix ≡ program.entry.prefix) }
    ensures parts { IfOk result (λ p. program_items p ≡ program_items program.entry) }
    ensures notes { IfOk result (λ p. program_notes p ≡ notes_of_program comments grammar.now states.now (program_items program.entry)) }
{
    let source = Source::new(alloc, grammar, comments)?;
    let Program { prefix, entries } = program;
    let modules = Modules::Each(states);
    let entries = noted_entries(alloc, &source, modules, Place::first(), entries)?;
    Ok(Program { prefix, entries })
}

/// The node of a module with its notes, in place of those that it has.
#[tactic(auto, unfolding(crate::specs::Notes::notes_of_module))]
pub fn noted_module<'t>(
    alloc: Global,
    grammar: &Grammar,
    states: &[Lr1State],
    comments: bool,
    node: Node<'t>,
) -> Result<Node<'t>, AllocError>
    ensures parts { IfOk result (λ n. items n ≡ items node.entry) }
    ensures notes { IfOk result (λ n. all_notes n ≡ notes_of_module comments grammar.now states.now (items node.entry)) }
{
    let source = Source::new(alloc, grammar, comments)?;
    let Node { first, below } = node;
    let place = Place::first();
    let next = place.behind(kind_of(first.part), first.holes.as_slice())?;
    let first = noted_entry(alloc, &source, states, place, first)?;
    let below = noted_entries(alloc, &source, Modules::One(states), next, below)?;
    Ok(Node { first, below })
}

/// The entries with their notes, from a place on.
#[tactic(auto, using(std::proofs::lemmas::Grind::common_steps, crate::proofs::Walks::notes_more))]
fn noted_entries<'t>(
    alloc: Global,
    source: &Source<'_>,
    modules: Modules<'_>,
    first: Place,
    entries: Vec<Entry<'t>>,
) -> Result<Vec<Entry<'t>>, AllocError>
    ensures parts { IfOk result (λ v. map item v.items ≡ map item entries.entry.items) }
    ensures notes { IfOk result (λ v. map entry_notes v.items ≡ notes_from source.now.comments source.now.grammar.now (states_by modules.entry) first (map item entries.entry.items)) }
{
    let mut place = first;
    let mut noted = Vec::new(alloc);
    for entry in entries {
        let states = states_by(modules, place.modules);
        let next = place.behind(kind_of(entry.part), entry.holes.as_slice())?;
        noted.push(noted_entry(alloc, source, states, place, entry)?)?;
        place = next;
    }
    Ok(noted)
}

/// The states of the last of so many modules.
fn states_by<'s>(modules: Modules<'s>, begun: usize) -> &'s [Lr1State]
    ensures { result.now ≡ states_by modules.entry begun }
{
    match modules {
        Modules::One(states) => states,
        Modules::Each(lists) => states_in(lists.get(begun.saturating_sub(1))),
    }
}

/// The states of a list, none where there is no list.
fn states_in<'s>(list: Option<&'s StartStates>) -> &'s [Lr1State]
    ensures { result.now ≡ states_in (option_copied list.entry) }
{
    match list {
        None => &[],
        Some(list) => list.states.as_slice(),
    }
}

/// An entry with its notes.
fn noted_entry<'t>(
    alloc: Global,
    source: &Source<'_>,
    states: &[Lr1State],
    place: Place,
    mut entry: Entry<'t>,
) -> Result<Entry<'t>, AllocError>
    ensures part { IfOk result (λ e. item e ≡ item entry.entry) }
    ensures notes { IfOk result (λ e. entry_notes e ≡ part_notes source.now.comments source.now.grammar.now states.now place (item entry.entry)) }
{
    entry.notes = part_notes(alloc, source, states, place, &entry)?;
    Ok(entry)
}

/// The notes of a part, in a module with these states.
fn part_notes<'t>(
    alloc: Global,
    source: &Source<'_>,
    states: &[Lr1State],
    place: Place,
    entry: &Entry<'_>,
) -> Result<Vec<RowNote<'t>>, AllocError>
    ensures { IfOk result (λ v. map noted v.items ≡ part_notes source.now.comments source.now.grammar.now states.now place (item entry.now)) }
{
    match kind_of(entry.part) {
        Kind::Actions => action_rows(alloc, source, states, entry.numbers.as_slice()),
        Kind::Ends => end_rows(alloc, source, entry.numbers.as_slice()),
        Kind::Reduction => {
            let production = source.production_told(place.number);
            production_line(alloc, "// ", production)
        }
        kind => {
            if source.comments {
                comments_by(alloc, source, states, place, kind, entry.holes.as_slice())
            } else {
                Ok(Vec::new(alloc))
            }
        }
    }
}

/// The comments of a part of a kind that has no other notes, in a module with these states.
fn comments_by<'t>(
    alloc: Global,
    source: &Source<'_>,
    states: &[Lr1State],
    place: Place,
    kind: Kind,
    holes: &[Piece<'_>],
) -> Result<Vec<RowNote<'t>>, AllocError>
    ensures { IfOk result (λ v. map noted v.items ≡ comments_by source.now.grammar.now states.now place kind holes.now) }
{
    match kind {
        Kind::State => {
            let number = place.functions;
            state_notes(alloc, source, number, states.get(number))
        }
        Kind::Simulated => {
            let production = source.production_told(number_told(holes));
            production_line(alloc, "// simulate ", production)
        }
        Kind::GotoArm => {
            let nonterminal = source.nonterminal_told(place.number);
            goto_line(alloc, nonterminal, second(holes))
        }
        Kind::Reduction => Ok(Vec::new(alloc)),
        Kind::Actions => Ok(Vec::new(alloc)),
        Kind::Ends => Ok(Vec::new(alloc)),
        Kind::Module => Ok(Vec::new(alloc)),
        Kind::Numbered => Ok(Vec::new(alloc)),
        Kind::Plain => Ok(Vec::new(alloc)),
    }
}

/// One note, of these comment lines.
fn one_note<'t>(alloc: Global, lines: Vec<Piece<'t>>) -> Result<Vec<RowNote<'t>>, AllocError>
    ensures { IfOk result (λ v. map noted v.items ≡ lines_note lines.entry.items ∷ []) }
{
    let note = RowNote {
        end: 0,
        lines,
        comments: Vec::new(alloc),
    };
    Ok(vec![in alloc; note]?)
}

/// One comment line.
fn one_line<'t>(alloc: Global, line: String) -> Result<Vec<RowNote<'t>>, AllocError>
    ensures { IfOk result (λ v. map noted v.items ≡ one_line (string_bytes line)) }
{
    let lines = vec![in alloc; made(line)]?;
    one_note(alloc, lines)
}

/// The comment line of a production, behind what stands before it.
fn production_line<'t>(
    alloc: Global,
    head: &str,
    production: Option<&Production>,
) -> Result<Vec<RowNote<'t>>, AllocError>
    ensures { IfOk result (λ v. map noted v.items ≡ production_line head.now (option_copied production.entry)) }
{
    match production {
        None => Ok(Vec::new(alloc)),
        Some(production) => one_line(alloc, format!(in alloc; "{head}{production}")?),
    }
}

/// The comment line of an arm of gotos on a nonterminal, to a state as it is printed.
fn goto_line<'t>(
    alloc: Global,
    nonterminal: Option<&NonterminalString>,
    target: &str,
) -> Result<Vec<RowNote<'t>>, AllocError>
    ensures { IfOk result (λ v. map noted v.items ≡ goto_line (option_copied nonterminal.entry) target.now) }
{
    match nonterminal {
        None => Ok(Vec::new(alloc)),
        Some(nonterminal) => {
            let name = nonterminal.0.as_str();
            one_line(alloc, format!(in alloc; " // on {name}, goto {target}")?)
        }
    }
}

/// The comment lines before the function of a state.
fn state_notes<'t>(
    alloc: Global,
    source: &Source<'_>,
    number: usize,
    state: Option<&Lr1State>,
) -> Result<Vec<RowNote<'t>>, AllocError>
    ensures { IfOk result (λ v. map noted v.items ≡ state_notes source.now.grammar.now number (option_copied state.entry)) }
{
    match state {
        None => Ok(Vec::new(alloc)),
        Some(state) => {
            let mut lines = vec![in alloc; made(format!(in alloc; "// State {number}")?)]?;
            let mut items = item_lines(alloc, source, state)?;
            lines.append(&mut items)?;
            one_note(alloc, lines)
        }
    }
}

/// The second text of a part.
fn second<'p>(holes: &'p [Piece<'_>]) -> &'p str
    ensures { result.now ≡ second holes.entry.now }
{
    if 1 < holes.len() {
        holes[1].as_str()
    } else {
        ""
    }
}
