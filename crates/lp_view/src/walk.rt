//! Walking over the forms of a program.

ghost use Rattle.std.specs.Prelude.{◌≡◌, ◌+◌, ◌-◌, ◌<◌, ◌≤◌, [], ◌∷◌, drop, get_or, length, map, min, slice_get, take, unwrap_or, IfSome, MatchOption};
ghost use Rattle.std.specs.Option.{option_copied, option_map};
ghost use Rattle.lp_tree.specs.declared.tree.Entry.{Entry};
ghost use Rattle.lp_form.specs.Forms.{form_of};
ghost use Rattle.lp_tree.specs.ProgramTree.{item, program_items};
ghost use Rattle.lp_view.specs.PartLists.{form_listed, forms_among, forms_below, forms_left, is_form, kind_of};

use lp_form::{FormKind, Part, form};
use lp_tree::tree::{Entry, Program};

/// A form of a program, with all that is below it.
#[derive(Clone, Copy)]
pub struct FormRef<'p, 't> {
    /// The form's own entry, and those below it.
    pub(crate) entries: &'p [Entry<'t>],
}

impl<'p, 't> FormRef<'p, 't> {
    /// Which form it is.
    pub fn kind(&self) -> FormKind
        ensures { result ≡ kind_of (form_listed self.now) }
    {
        kind_or_program(self.as_part().part())
    }

    /// The forms below it, in the order of the text.
    pub fn below(&self) -> Below<'p, 't>
        ensures { forms_left result ≡ forms_below (form_listed self.now) }
    {
        Below {
            rest: after_first(self.entries),
        }
    }
}

/// The form of the whole text of a program.
pub fn root<'p, 't>(program: &'p Program<'t>) -> FormRef<'p, 't>
    ensures { form_listed result ≡ program_items program.now }
{
    FormRef {
        entries: program.entries.as_slice(),
    }
}

/// The first, if there is one.
pub(crate) fn first<'p, 't>(entries: &'p [Entry<'t>]) -> Option<&'p Entry<'t>>
    ensures { option_map item (option_copied result) ≡ slice_get (map item entries.now) 0 }
{
    entries.first()
}

/// All but the first.
pub(crate) fn after_first<'p, 't>(entries: &'p [Entry<'t>]) -> &'p [Entry<'t>]
    ensures { result.now ≡ drop 1 entries.now }
{
    if entries.is_empty() {
        entries
    } else {
        &entries[1..]
    }
}

/// Where the part at a place ends, with all that is below it.
pub fn end_of(entries: &[Entry<'_>], at: usize) -> usize
    requires { at < length entries.now }
    ensures after { at < result }
    ensures within { result ≤ length entries.now }
    ensures place { (e : Entry) → result ≡ min (at + 1 + (get_or entries.now at e).below) (length entries.now) }
{
    let len = entries.len();
    let below = entries[at].below;
    if below < len - at {
        at + 1 + below
    } else {
        len
    }
}

/// The forms below a form, in the order of the text.
#[derive(Drop)]
pub struct Below<'p, 't> {
    rest: &'p [Entry<'t>],
}

impl<'p, 't> Iterator for Below<'p, 't> {
    type Item = FormRef<'p, 't>;

    ghost use Rattle.std.specs.Iterator.{YieldsFirstBy, item_count};
    ghost use Rattle.lp_view.specs.PartLists.{form_listed, forms_left};

    ghost next_gives = { YieldsFirstBy form_listed forms_left };

    ghost remaining = { item_count forms_left };

    fn next(&mut self) -> Option<FormRef<'p, 't>> {
        let rest = self.rest;
        match first_form(rest) {
            None => None,
            Some((at, end)) => {
                self.rest = &rest[end..];
                Some(FormRef {
                    entries: &rest[at..end],
                })
            }
        }
    }
}

/// Where the first form of parts stands, with all that is below it.
fn first_form(entries: &[Entry<'_>]) -> Option<(usize, usize)>
    ensures within { IfSome result (λ place. (place.0 ≤ place.1) × (place.1 ≤ length entries.now)) }
    ensures forms { MatchOption result (forms_among (map item entries.now) ≡ []) (λ place. forms_among (map item entries.now) ≡ map item (take (place.1 - place.0) (drop place.0 entries.now)) ∷ forms_among (map item (drop place.1 entries.now))) }
{
    for at in 0..entries.len() {
        if is_form(entries[at].part) {
            return Some((at, end_of(entries, at)));
        }
    }
    None
}

fn is_form(part: Part) -> bool
    ensures { result ≡ is_form part }
{
    form(part).is_some()
}

/// Which form a part is; the program's, where it is none.
fn kind_or_program(part: Part) -> FormKind
    ensures { result ≡ unwrap_or (form_of part) FormKind.Program }
{
    form(part).unwrap_or(FormKind::Program)
}
