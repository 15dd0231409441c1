//! The patterns of tokens: captured names, and forms with `_` for these names.

ghost use Rattle.std.specs.Prelude.{◌≡◌, ◌<◌, ◌≤◌, ◌-◌, ◌++◌, length, map, string_bytes, slice_index, IfOk, OnOk};
ghost use Rattle.std.specs.Option.{option_copied};
ghost use Rattle.lp_maker.specs.Patterns.{digit_count, after_digits, form_within, form_of, number_after, capture_of, inner_of, captures_of};
ghost use Rattle.lp_maker.specs.Texts.{without_end};

use crate::texts::{after_front, cut_at, end_place, number, numbered, parted};
use lp_repr::Text;
use std::alloc::{AllocError, Global};

/// The number of a captured name: j of `tok` and j after the prefix.
pub fn capture(prefix: &str, name: &str) -> Option<usize>
    ensures { result ≡ capture_of prefix.now name.now }
{
    match after_front(prefix, name) {
        None => None,
        Some(rest) => number_after(after_front("tok", rest)),
    }
}

fn number_after(rest: Option<&str>) -> Option<usize>
    ensures { result ≡ number_after (option_copied rest.entry) }
{
    match rest {
        None => None,
        Some(rest) => number(rest),
    }
}

/// A pattern's text with `_` for the names of captures.
#[tactic(auto, using(crate::proofs::Parting::form_end))]
pub fn form_of(alloc: Global, prefix: &str, pattern: &str) -> Result<Text, AllocError>
    ensures { IfOk result (λ t. t ≡ form_of prefix.now pattern.now) }
{
    let name = numbered(alloc, prefix, "tok")?;
    let mut form = String::new(alloc);
    let mut rest = pattern;
    let mut left = pattern.len();
    while left > 0 {
        let (others, fewer) = push_form(&mut form, rest, name.as_str(), left)?;
        rest = others;
        left = fewer;
    }
    form.push_str(rest)?;
    Ok(Text(form))
}

// Puts what stands before the first name, and `_`, behind others; what is left of the text, and how many names
// more there may be.
#[tactic(auto, using(crate::proofs::Parting::form_more))]
fn push_form<'t>(
    form: &mut String,
    rest: &'t str,
    name: &str,
    left: usize,
) -> Result<(&'t str, usize), AllocError>
    requires { 0 < left }
    ensures fewer { IfOk result (λ r. r.1 < left) }
    ensures form { IfOk result (λ r. string_bytes form.new ++ form_within r.1 name.now r.0.now ≡ string_bytes form.old ++ form_within left name.now rest.now) }
{
    match cut_at(name, rest) {
        None => Ok((rest, 0)),
        Some(cut) => {
            form.push_str(cut.0)?;
            form.push_str("_")?;
            Ok((after_digits(cut.1), left - 1))
        }
    }
}

#[tactic(auto, using(crate::proofs::Parting::cut_after))]
fn after_digits(text: &str) -> &str
    ensures { result.now ≡ after_digits text.now }
{
    &text[digit_count(text.as_bytes())..]
}

#[tactic(auto, using(crate::proofs::Parting::small_digit))]
fn digit_count(text: &[u8]) -> usize
    ensures count { result ≡ digit_count text.now }
    ensures within { result ≤ length text.now }
    ensures digit { 0 < result → slice_index text.now (result - 1) < 128 }
{
    for i in 0..text.len() {
        if !text[i].is_ascii_digit() {
            return i;
        }
    }
    text.len()
}

/// The names of a capture, or of several in parentheses.
pub fn captures<'t>(alloc: Global, text: &'t str) -> Result<Vec<&'t str>, AllocError>
    ensures { IfOk result (λ v. map (λ name. name.now) v.items ≡ captures_of text.now) }
{
    parted(alloc, inner_of(text, after_front("(", text)), ", ")
}

fn inner_of<'t>(text: &'t str, inner: Option<&'t str>) -> &'t str
    ensures { result.now ≡ inner_of text.now (option_copied inner.entry) }
{
    match inner {
        None => text,
        Some(inner) => without_close(inner),
    }
}

#[tactic(auto, using(crate::proofs::Parting::cut_before))]
fn without_close(text: &str) -> &str
    ensures { result.now ≡ without_end 41 text.now }
{
    &text[..end_place(b')', text.as_bytes())]
}
