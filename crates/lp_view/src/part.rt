//! The parts of a program by their templates: the forms, their rows, and the alternatives of lines.

ghost use Rattle.std.specs.Prelude.{◌≡◌, ◌<◌, ◌≤◌, ◌-◌, [], ◌∷◌, drop, get_or, length, map, take, IfSome, MatchOption};
ghost use Rattle.lp_tree.specs.ProgramTree.{item};
ghost use Rattle.lp_view.specs.PartLists.{part_of, hole_of, numbers_of, parts_of, level, listed, form_listed, parts_left};

use crate::walk::{FormRef, after_first, end_of, first};
use lp_form::Part;
use lp_tree::tree::Entry;

/// A part of a program, with all that is below it.
#[derive(Clone, Copy)]
pub struct PartRef<'p> {
    entries: &'p [Entry<'p>],
}

impl<'p> FormRef<'p, '_> {
    /// The form as a part.
    pub fn as_part(self) -> PartRef<'p>
        ensures { listed result ≡ form_listed self.entry }
    {
        PartRef {
            entries: self.entries,
        }
    }
}

impl<'p> PartRef<'p> {
    /// Which part it is.
    pub fn part(self) -> Part
        ensures { result ≡ part_of (listed self.entry) }
    {
        match first(self.entries) {
            Some(entry) => entry.part,
            None => Part::Program,
        }
    }

    /// What a hole holds, as it stands; the empty text where there is no such hole.
    pub fn hole(self, hole: usize) -> &'p str
        ensures { result.now ≡ hole_of hole (listed self.entry) }
    {
        text(self.entries, hole)
    }

    /// The entries of a table.
    pub fn numbers(self) -> &'p [i32]
        ensures { result.now ≡ numbers_of (listed self.entry) }
    {
        match first(self.entries) {
            Some(entry) => entry.numbers.as_slice(),
            None => &[],
        }
    }

    /// The parts directly below, in the order of the text.
    #[tactic(auto, using(crate::proofs::Levels::level_rest))]
    pub fn parts(self) -> Parts<'p>
        ensures { parts_left result ≡ parts_of (listed self.entry) }
    {
        let rest = after_first(self.entries);
        Parts {
            rest,
            left: rest.len(),
        }
    }
}

/// Parts that are below the same one.
#[derive(Drop)]
pub struct Parts<'p> {
    rest: &'p [Entry<'p>],
    left: usize,
}

impl<'p> Iterator for Parts<'p> {
    type Item = PartRef<'p>;

    ghost use Rattle.std.specs.Iterator.{YieldsFirstBy, item_count};
    ghost use Rattle.lp_view.specs.PartLists.{listed, parts_left};

    ghost next_gives = { YieldsFirstBy listed parts_left };

    ghost remaining = { item_count parts_left };

    fn next(&mut self) -> Option<PartRef<'p>> {
        let rest = self.rest;
        match first_end(rest, self.left) {
            None => None,
            Some(end) => {
                self.left -= 1;
                self.rest = &rest[end..];
                Some(PartRef {
                    entries: &rest[..end],
                })
            }
        }
    }
}

/// What a hole of the first part holds; the empty text where there is no such hole.
fn text<'p>(entries: &'p [Entry<'p>], hole: usize) -> &'p str
    ensures { result.now ≡ hole_of hole (map item entries.now) }
{
    match first(entries) {
        Some(entry) => hole_text(entry, hole),
        None => "",
    }
}

fn hole_text<'p>(entry: &'p Entry<'p>, hole: usize) -> &'p str
    ensures { result.now ≡ get_or entry.now.holes.items hole [] }
{
    if hole < entry.holes.len() {
        entry.holes[hole].as_str()
    } else {
        ""
    }
}

/// Where the first of at most so many parts that stand side by side ends.
#[tactic(auto, using(crate::proofs::Levels::level_none, crate::proofs::Levels::level_empty, crate::proofs::Levels::level_step))]
fn first_end(rest: &[Entry<'_>], left: usize) -> Option<usize>
    ensures some { IfSome result (λ end. (0 < left) × (end ≤ length rest.now)) }
    ensures parts { MatchOption result (level left (map item rest.now) ≡ []) (λ end. level left (map item rest.now) ≡ map item (take end rest.now) ∷ level (left - 1) (map item (drop end rest.now))) }
{
    if left == 0 {
        return None;
    }
    if rest.is_empty() {
        return None;
    }
    Some(end_of(rest, 0))
}
