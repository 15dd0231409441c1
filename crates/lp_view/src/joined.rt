//! The elements of lists that stand in one text.

ghost use Rattle.std.specs.Prelude.{◌≡◌, length};
ghost use Rattle.lp_view.specs.Elements.{before, behind, before_bar, behind_bar, elements, patterns, joined_left, patterns_left};

use lp_texts::first_bar;

/// The elements of a list that is joined by a separator, as `, ` or ` | `.
#[derive(Drop)]
pub struct Joined<'p> {
    rest: &'p str,
    separator: &'static str,
    left: usize,
}

/// The elements of the text between the separators. The empty text has none.
pub fn parts_of<'p>(text: &'p str, separator: &'static str) -> Joined<'p>
    ensures { joined_left result ≡ elements separator.now text.now }
{
    Joined {
        rest: text,
        separator,
        left: text.len(),
    }
}

impl<'p> Iterator for Joined<'p> {
    type Item = &'p str;

    ghost use Rattle.std.specs.Iterator.{YieldsFirstRef, item_count};
    ghost use Rattle.lp_view.specs.Elements.{joined_left};

    ghost next_gives = { YieldsFirstRef joined_left };

    ghost remaining = { item_count joined_left };

    #[tactic(auto, using(crate::proofs::ElementSteps::none_left, crate::proofs::ElementSteps::none_there, crate::proofs::ElementSteps::one_more))]
    fn next(&mut self) -> Option<&'p str> {
        let rest = self.rest;
        if self.left == 0 || rest.is_empty() {
            return None;
        }
        self.left -= 1;
        let (element, others) = parted(rest, self.separator);
        self.rest = others;
        Some(element)
    }
}

/// What stands before the first place of the separator, and what stands behind it.
fn parted<'p>(text: &'p str, separator: &str) -> (&'p str, &'p str)
    ensures before { result.0.now ≡ before separator.now text.now }
    ensures behind { result.1.now ≡ behind separator.now text.now }
{
    match text.split_once(separator) {
        None => (text, ""),
        Some(cut) => cut,
    }
}

/// The patterns of a list that is joined by ` | `.
#[derive(Drop)]
pub struct Patterns<'p> {
    rest: &'p str,
    left: usize,
}

/// The patterns of a list that is joined by ` | `. The empty text has none.
pub fn patterns_of(text: &str) -> Patterns<'_>
    ensures { patterns_left result ≡ patterns text.now }
{
    Patterns {
        rest: text,
        left: text.len(),
    }
}

impl<'p> Iterator for Patterns<'p> {
    type Item = &'p str;

    ghost use Rattle.std.specs.Iterator.{YieldsFirstRef, item_count};
    ghost use Rattle.lp_view.specs.Elements.{patterns_left};

    ghost next_gives = { YieldsFirstRef patterns_left };

    ghost remaining = { item_count patterns_left };

    #[tactic(auto, using(crate::proofs::ElementSteps::none_left, crate::proofs::ElementSteps::none_there, crate::proofs::ElementSteps::one_more))]
    fn next(&mut self) -> Option<&'p str> {
        let rest = self.rest;
        if self.left == 0 || rest.is_empty() {
            return None;
        }
        self.left -= 1;
        let (pattern, others) = parted_by_bar(rest);
        self.rest = others;
        Some(pattern)
    }
}

/// What stands before the first bar outside quotes and brackets, and what stands behind it.
fn parted_by_bar(text: &str) -> (&str, &str)
    ensures before { result.0.now ≡ before_bar text.now }
    ensures behind { result.1.now ≡ behind_bar text.now }
{
    match first_bar(text.as_bytes()) {
        None => (text, ""),
        Some(end) => (&text[..end], &text[end + 3..]),
    }
}
