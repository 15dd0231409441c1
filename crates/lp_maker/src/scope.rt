//! The names of a function body, and their slots.

ghost use Rattle.std.specs.Prelude.{◌≡◌, ◌+◌, ◌<◌, ◌^◌, None, length, IfOk, OnOk};
ghost use Rattle.lp_maker.specs.Slots.{no_names, after_slots, bound, named, cut_to, slot_after, slot_among, slot_of};

use crate::texts::same;
use lp_repr::Text;
use std::alloc::{AllocError, Global};
use std::marker::Model;

/// The names that can be seen at a place. A later name hides an earlier one.
#[derive(Drop)]
pub struct Scope {
    names: Vec<(Text, usize)>,
    next: usize,
}

impl Model for Scope {
    ghost use Rattle.lp_maker.specs.Slots.{Names, names_of};

    ghost Value = { Names };

    ghost view = { λ s. names_of s.names.items s.next };
}

impl Scope {
    /// No names; the first slot that is given out has number 0.
    pub fn new(alloc: Global) -> Scope
        ensures { result ≡ no_names }
    {
        Scope {
            names: Vec::new(alloc),
            next: 0,
        }
    }

    /// A slot without a name. Fails where no number is left.
    pub fn fresh(&mut self) -> Result<usize, AllocError>
        ensures slot { IfOk result (λ slot. slot ≡ self.old.next) }
        ensures names { OnOk result (self.new ≡ after_slots 1 self.old) }
    {
        self.fresh_many(1)
    }

    /// So many slots without names, one after another; the first of them. Fails where no number is
    /// left.
    pub fn fresh_many(&mut self, count: usize) -> Result<usize, AllocError>
        ensures slot { IfOk result (λ slot. slot ≡ self.old.next) }
        ensures fits { IfOk result (λ slot. slot + count < 2 ^ 64) }
        ensures names { OnOk result (self.new ≡ after_slots count self.old) }
    {
        let slot = self.next;
        self.next = slot.checked_add(count).ok_or(AllocError)?;
        Ok(slot)
    }

    /// A new slot for a name.
    pub fn bind(&mut self, alloc: Global, name: &str) -> Result<usize, AllocError>
        ensures slot { IfOk result (λ slot. slot ≡ self.old.next) }
        ensures names { OnOk result (self.new ≡ bound name.now self.old) }
    {
        let slot = self.fresh()?;
        self.name(alloc, name, slot)?;
        Ok(slot)
    }

    /// Gives a slot a name.
    pub fn name(&mut self, alloc: Global, name: &str, slot: usize) -> Result<(), AllocError>
        ensures { OnOk result (self.new ≡ named name.now slot self.old) }
    {
        self.names.push((Text::from_str(alloc, name)?, slot))?;
        Ok(())
    }

    /// The slot of a name.
    pub fn find(&self, name: &str) -> Option<usize>
        ensures { result ≡ slot_of name.now self.now }
    {
        slot_among(self.names.as_slice(), name)
    }

    /// How many names can be seen: the mark of a block that begins here.
    pub fn open(&self) -> usize
        ensures { result ≡ length self.now.known }
    {
        self.names.len()
    }

    /// Ends the block that began at the mark.
    pub fn close(&mut self, mark: usize)
        ensures { self.new ≡ cut_to mark self.old }
    {
        self.names.truncate(mark);
    }

    /// How many slots were given out.
    pub fn slots(&self) -> usize
        ensures { result ≡ self.now.next }
    {
        self.next
    }
}

// The slot of the last entry with this name.
fn slot_among(names: &[(Text, usize)], name: &str) -> Option<usize>
    ensures { result ≡ slot_among name.now None names.now }
{
    let mut found = None;
    for entry in names {
        found = slot_after(name, found, entry);
    }
    found
}

// The slot of an entry with this name, or else what was found.
fn slot_after(name: &str, found: Option<usize>, entry: &(Text, usize)) -> Option<usize>
    ensures { result ≡ slot_after name.now found entry.now }
{
    if same(entry.0.as_str(), name) {
        Some(entry.1)
    } else {
        found
    }
}
