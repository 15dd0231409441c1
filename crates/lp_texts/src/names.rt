//! The rules on attributes, and on the texts of terminals and nonterminals.

ghost use Rattle.std.specs.Prelude.{◌≡◌, ◌<◌, ◌&&◌, not, ◌+◌, ◌==◌, drop, length, codes, nat_eq};
ghost use Rattle.std.specs.List.{starts_with};
ghost use Rattle.lp_texts.specs.Names.{stands, differs_from_front, is_wrong_last, is_wrong_attribute, is_wrong_terminal};
ghost use Rattle.lp_texts.specs.TextRules.{AnswersAttribute, AnswersTerminal, AnswersNonterminal};

/// Whether this byte stands at a place.
fn stands(byte: u8, text: &[u8], at: usize) -> bool
    ensures { result ≡ stands byte text.now at }
{
    at < text.len() && text[at] == byte
}

/// Whether the byte at a place is not that of `#![`.
fn differs_from_front(text: &[u8], at: usize) -> bool
    ensures { result ≡ differs_from_front text.now at }
{
    (at == 0 && !stands(b'#', text, at))
        || ((at == 1 && !stands(b'!', text, at)) || (at == 2 && !stands(b'[', text, at)))
}

/// Whether the byte at a place is the last one and no `]`.
fn is_wrong_last(text: &[u8], at: usize) -> bool
    requires { at < length text.now + 3 }
    ensures { result ≡ is_wrong_last text.now at }
{
    at < text.len() && at + 1 == text.len() && !stands(b']', text, at)
}

fn is_wrong_attribute(text: &[u8], at: usize) -> bool
    requires { at < length text.now + 3 }
    ensures { result ≡ is_wrong_attribute text.now at }
{
    differs_from_front(text, at)
        || (stands(b'\n', text, at) || (is_wrong_last(text, at) && text.starts_with(b"#![")))
}

/// What is wrong about an attribute.
pub(crate) fn attribute_fault(text: &[u8]) -> Option<usize>
    ensures { AnswersAttribute text.now result }
{
    for i in 0..text.len().max(3) {
        if is_wrong_attribute(text, i) {
            return Some(i);
        }
    }
    None
}

fn is_wrong_terminal(text: &[u8], at: usize) -> bool
    requires { at < length text.now }
    ensures { result ≡ is_wrong_terminal text.now at }
{
    stands(b'\n', text, at) || text[at..].starts_with(b"\"###")
}

/// What is wrong about a terminal's text.
pub(crate) fn terminal_fault(text: &[u8]) -> Option<usize>
    ensures { AnswersTerminal text.now result }
{
    for i in 0..text.len() {
        if is_wrong_terminal(text, i) {
            return Some(i);
        }
    }
    None
}

/// What is wrong about a nonterminal's name.
pub(crate) fn nonterminal_fault(text: &[u8]) -> Option<usize>
    ensures { AnswersNonterminal text.now result }
{
    for i in 0..text.len() {
        if stands(b'\n', text, i) {
            return Some(i);
        }
    }
    None
}
