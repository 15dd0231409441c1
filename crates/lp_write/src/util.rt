//! Wrappers that show texts and lists.

ghost use Rattle.std.specs.Prelude.{◌≡◌, ℕ, List, map, Some, IfOk, string_bytes};
ghost use Rattle.std.specs.Fmt.{WritesOnOk, DisplaysOnOk};
ghost use Rattle.std.specs.Str.{trim};
ghost use Rattle.lp_repr.specs.Escapes.{escaped_text};
ghost use Rattle.lp_write.specs.Texts.{after_each, between, name_character, name_text};

use lp_repr::{Escaped, Text};
use std::alloc::{AllocError, Global};
use std::fmt::{self, Display};

/// The elements of a list with a text between each two.
#[derive(Clone, Copy)]
pub struct Sep<S>(pub &'static str, pub S);

impl<S: Display> Display for Sep<&Vec<S>> {
    ghost output = { λ x. between x.0.now (map S.output x.1.now.items) };

    fn fmt<W: fmt::Write>(&self, f: &mut fmt::Formatter<W>) -> fmt::Result {
        match self.1.as_slice().split_first() {
            None => Ok(()),
            Some((first, rest)) => {
                first.fmt(f)?;
                write_after_each(f, self.0, rest)
            }
        }
    }
}

/// The elements of a list with a text before each.
#[derive(Clone, Copy)]
pub struct Prefix<S>(pub &'static str, pub S);

impl<S: Display> Display for Prefix<&[S]> {
    ghost output = { λ x. after_each x.0.now (map S.output x.1.now) };

    fn fmt<W: fmt::Write>(&self, f: &mut fmt::Formatter<W>) -> fmt::Result {
        write_after_each(f, self.0, self.1)
    }
}

/// The elements, each after the text.
fn write_after_each<W: fmt::Write, S: Display>(
    f: &mut fmt::Formatter<W>,
    text: &str,
    elements: &[S],
) -> fmt::Result
    ensures { DisplaysOnOk W.write_str_gives f.old result (after_each text.now (map S.output elements.now)) f.new }
{
    for element in elements {
        f.write_str(text)?;
        element.fmt(f)?;
    }
    Ok(())
}

/// What has a text.
pub trait AsStr {
    ghost text: { Self → List ℕ };

    /// The text, borrowed.
    fn as_str(&self) -> &str
        ensures { result.now ≡ text self.now };
}

impl AsStr for &str {
    ghost text = { λ s. s.now };

    fn as_str(&self) -> &str {
        self
    }
}

impl AsStr for String {
    ghost text = { λ s. string_bytes s };

    fn as_str(&self) -> &str {
        String::as_str(self)
    }
}

impl AsStr for Text {
    ghost text = { λ s. s };

    fn as_str(&self) -> &str {
        Text::as_str(self)
    }
}

/// A text as part of an identifier: ASCII letters and digits stay, `_` is doubled, and any other
/// character is `_` and its number in lower-case hexadecimal.
#[derive(Clone, Copy)]
pub struct Escape<S>(pub S);

impl<S: AsStr> Display for Escape<S> {
    ghost output = { λ e. Some (name_text (S.text e.0)) };

    fn fmt<W: fmt::Write>(&self, f: &mut fmt::Formatter<W>) -> fmt::Result {
        write_name(f, self.0.as_str())
    }
}

fn write_name<W: fmt::Write>(f: &mut fmt::Formatter<W>, text: &str) -> fmt::Result
    ensures { WritesOnOk W.write_str_gives f.old result (name_text text.now) f.new }
{
    for c in text.chars() {
        write_name_character(f, c)?;
    }
    Ok(())
}

fn write_name_character<W: fmt::Write>(f: &mut fmt::Formatter<W>, c: char) -> fmt::Result
    ensures { WritesOnOk W.write_str_gives f.old result (name_character c) f.new }
{
    if c.is_ascii_alphanumeric() {
        return f.write_char(c);
    }
    if c == '_' {
        return f.write_str("__");
    }
    let code = c as u32;
    write!(f, "_{code:x}")
}

/// The text without blanks in front and behind.
pub fn strip(s: &str) -> &str
    ensures { result.now ≡ trim s.now }
{
    s.trim()
}

/// The text as a literal of Rust.
pub fn literal(alloc: Global, text: &str) -> Result<String, AllocError>
    ensures { IfOk result (λ t. string_bytes t ≡ escaped_text text.now) }
{
    let escaped = Escaped(text);
    format!(in alloc; "{escaped}")
}
