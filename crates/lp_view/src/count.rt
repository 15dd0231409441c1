//! How many forms a program has, and how large it is.

ghost use Rattle.std.specs.Prelude.{◌≡◌, ◌-◌, ◌^◌, length, min, slice_get};
ghost use Rattle.std.specs.Option.{option_map};
ghost use Rattle.lp_form.specs.Forms.{number_of};
ghost use Rattle.lp_tree.specs.ProgramTree.{forms, item};
ghost use Rattle.lp_view.specs.Elements.{elements, patterns};
ghost use Rattle.lp_view.specs.Weights.{elements_in, elements_of, own_weight, weight, weight_of};

use crate::joined::{parts_of, patterns_of};
use lp_form::{Kind, Part, form, holes, is_element};
use lp_tree::Piece;
use lp_tree::tree::{Entry, Program};

/// The number of forms.
pub fn form_count(program: &Program<'_>) -> usize
    ensures { result ≡ length (forms program.now) }
{
    program.entries.iter().filter_map(|e| form(e.part)).count()
}

/// The number of the i-th form in preorder, from 0; None exactly where i is at least the count.
pub fn form_number(program: &Program<'_>, i: usize) -> Option<u8>
    ensures { result ≡ option_map number_of (slice_get (forms program.now) i) }
{
    let mut left = i;
    for entry in &program.entries {
        if let Some(kind) = form(entry.part) {
            if left == 0 {
                return Some(kind.number());
            }
            left -= 1;
        }
    }
    None
}

/// The forms and all elements of their lists, or the greatest u64 where these are more.
pub fn node_count(program: &Program<'_>) -> u64
    ensures { result ≡ min (2 ^ 64 - 1) (weight program.now) }
{
    let mut count = 0u64;
    for entry in &program.entries {
        count = count.saturating_add(weight(entry));
    }
    count
}

/// The part itself where it is a form or an element of a list, its table entries, and the elements
/// of the lists in its holes.
fn weight(entry: &Entry<'_>) -> u64
    ensures { result ≡ min (2 ^ 64 - 1) (weight_of (item entry.now)) }
{
    let own = own_weight(entry.part);
    let listed = elements_of(holes(entry.part), entry.holes.as_slice());
    own.saturating_add(entry.numbers.len() as u64)
        .saturating_add(listed)
}

/// 1 for a form or an element of a list of one.
fn own_weight(part: Part) -> u64
    ensures { result ≡ own_weight part }
{
    if form(part).is_some() || is_element(part) {
        1
    } else {
        0
    }
}

/// The elements of the lists in holes of these kinds.
fn elements_of(kinds: &[Kind], holes: &[Piece<'_>]) -> u64
    ensures { result ≡ min (2 ^ 64 - 1) (elements_of kinds.now holes.now) }
{
    let mut count = 0u64;
    for (i, hole) in holes.iter().enumerate() {
        if i < kinds.len() {
            count = count.saturating_add(elements_in(kinds[i], hole.as_str()));
        }
    }
    count
}

/// The elements of the list that a hole of this kind holds.
#[tactic(auto, unfolding(crate::specs::Weights::elements_in))]
fn elements_in(kind: Kind, text: &str) -> u64
    ensures { result ≡ elements_in kind text.now }
{
    match kind {
        Kind::Numbers => element_count(text, " | "),
        Kind::Ranges => element_count(text, " | "),
        Kind::Patterns => pattern_count(text),
        Kind::Arguments => element_count(text, ", "),
        Kind::Symbols => element_count(text, ", "),
        Kind::Names => element_count(text, ", "),
        Kind::Parameters => element_count(text, ", "),
        _ => 0,
    }
}

fn element_count(text: &str, separator: &'static str) -> u64
    ensures { result ≡ length (elements separator.now text.now) }
{
    parts_of(text, separator).count() as u64
}

fn pattern_count(text: &str) -> u64
    ensures { result ≡ length (patterns text.now) }
{
    patterns_of(text).count() as u64
}
