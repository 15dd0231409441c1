//! Program trees as flat lists: each part before those below it, with their number.

ghost use Rattle.std.specs.Prelude.{◌≡◌, [], ◌∷◌, ◌++◌, map, IfOk, OnOk};
ghost use Rattle.std.specs.List.{flat_map};
ghost use Rattle.lp_tree.specs.ProgramTree.{all_notes, entry_notes, head, head_notes, is_part, item, items, leaf, lines_note, noted, notes_below, parts_below, unnoted};

use crate::piece::Piece;
use lp_form::Part;
use std::alloc::{AllocError, Global};

/// The comments of a table row or of one line. They count for nothing but printing.
#[derive(Drop)]
pub struct RowNote<'t> {
    /// How many entries of the table stand in this row and those before it.
    pub end: usize,
    /// Comment lines before the row, printed with comments on.
    pub lines: Vec<Piece<'t>>,
    /// What stands after each entry of the row with comments on.
    pub comments: Vec<Piece<'t>>,
}

/// A part with what it holds, and how many of the parts after it are below it.
#[derive(Drop)]
pub struct Entry<'t> {
    pub part: Part,
    /// What its holes hold.
    pub holes: Vec<Piece<'t>>,
    /// The entries of a table.
    pub numbers: Vec<i32>,
    pub notes: Vec<RowNote<'t>>,
    pub below: usize,
}

/// One form, or a row of one, with all that is below it.
#[derive(Drop)]
pub struct Node<'t> {
    /// Its own part. How many are below it is set where the node is put below another.
    pub first: Entry<'t>,
    pub below: Vec<Entry<'t>>,
}

/// A whole program: its prefix, and its parts in the order of the text.
#[derive(Drop)]
pub struct Program<'t> {
    pub prefix: Piece<'t>,
    pub entries: Vec<Entry<'t>>,
}

impl<'t> Program<'t> {
    /// The prefix of the names that the text makes itself.
    pub fn prefix(&self) -> &str
        ensures { result.now ≡ self.now.prefix }
    {
        self.prefix.as_str()
    }
}

/// What a reduction does: how many states it pops, and which nonterminal it produces.
#[derive(Clone, Copy)]
pub struct Reduced {
    pub pop: u64,
    pub nonterminal: u64,
}

/// Puts the parts of a node behind others.
pub fn push_node<'t>(entries: &mut Vec<Entry<'t>>, node: Node<'t>) -> Result<(), AllocError>
    ensures items { OnOk result (map item entries.new.items ≡ map item entries.old.items ++ items node.entry) }
    ensures notes { OnOk result (map entry_notes entries.new.items ≡ map entry_notes entries.old.items ++ all_notes node.entry) }
{
    let Node { first, mut below } = node;
    let Entry {
        part,
        holes,
        numbers,
        notes,
        below: _,
    } = first;
    entries.push(Entry {
        part,
        holes,
        numbers,
        notes,
        below: below.len(),
    })?;
    entries.append(&mut below)
}

impl<'t> Node<'t> {
    /// A part with nothing below it.
    pub fn leaf(alloc: Global, part: Part, holes: Vec<Piece<'t>>) -> Result<Node<'t>, AllocError>
        ensures items { IfOk result (λ n. items n ≡ leaf part holes.entry.items) }
        ensures head { IfOk result (λ n. head n ≡ (part, holes.entry.items, [])) }
        ensures below { IfOk result (λ n. parts_below n ≡ []) }
        ensures notes { IfOk result (λ n. all_notes n ≡ unnoted (leaf part holes.entry.items)) }
    {
        Ok(Node {
            first: Entry {
                part,
                holes,
                numbers: Vec::new(alloc),
                notes: Vec::new(alloc),
                below: 0,
            },
            below: Vec::new(alloc),
        })
    }

    /// Puts a node below this one, after those that are there.
    pub fn add(&mut self, child: Node<'t>) -> Result<(), AllocError>
        ensures head { head self.new ≡ head self.old }
        ensures below { OnOk result (parts_below self.new ≡ parts_below self.old ++ items child.entry) }
        ensures notes { head_notes self.new ≡ head_notes self.old }
        ensures notes_below { OnOk result (notes_below self.new ≡ notes_below self.old ++ all_notes child.entry) }
    {
        push_node(&mut self.below, child)
    }

    /// Puts the nodes below this one, in their order.
    pub fn add_all(&mut self, children: Vec<Node<'t>>) -> Result<(), AllocError>
        ensures head { head self.new ≡ head self.old }
        ensures below { OnOk result (parts_below self.new ≡ parts_below self.old ++ flat_map items children.entry.items) }
        ensures notes { head_notes self.new ≡ head_notes self.old }
        ensures notes_below { OnOk result (notes_below self.new ≡ notes_below self.old ++ flat_map all_notes children.entry.items) }
    {
        for child in children {
            self.add(child)?;
        }
        Ok(())
    }

    /// Puts what is below another node below this one.
    pub fn add_below(&mut self, other: Node<'t>) -> Result<(), AllocError>
        ensures head { head self.new ≡ head self.old }
        ensures below { OnOk result (parts_below self.new ≡ parts_below self.old ++ parts_below other.entry) }
        ensures notes { head_notes self.new ≡ head_notes self.old }
        ensures notes_below { OnOk result (notes_below self.new ≡ notes_below self.old ++ notes_below other.entry) }
    {
        let Node {
            first: _,
            mut below,
        } = other;
        self.below.append(&mut below)
    }

    /// Gives the first part one note, of these comment lines.
    pub fn note(&mut self, alloc: Global, lines: Vec<Piece<'t>>) -> Result<(), AllocError>
        ensures items { items self.new ≡ items self.old }
        ensures notes { OnOk result (head_notes self.new ≡ lines_note lines.entry.items ∷ []) }
        ensures notes_below { notes_below self.new ≡ notes_below self.old }
    {
        let note = RowNote {
            end: 0,
            lines,
            comments: Vec::new(alloc),
        };
        self.first.notes = vec![in alloc; note]?;
        Ok(())
    }

    /// Gives the first part the entries of a table, and its notes.
    pub fn fill(&mut self, numbers: Vec<i32>, notes: Vec<RowNote<'t>>)
        ensures head { head self.new ≡ ((head self.old).0, (head self.old).1, numbers.items) }
        ensures below { parts_below self.new ≡ parts_below self.old }
        ensures notes { head_notes self.new ≡ map noted notes.entry.items }
        ensures notes_below { notes_below self.new ≡ notes_below self.old }
    {
        self.first.numbers = numbers;
        self.first.notes = notes;
    }

    /// Whether the node is that part.
    pub fn is(&self, part: Part) -> bool
        ensures { result ≡ is_part part self.now }
    {
        self.first.part == part
    }
}
