//! What a template is made of.

use crate::class::Class;

/// What a hole holds.
#[derive(Clone, Copy)]
pub enum Kind {
    /// A name, or `&` and a name.
    Argument,
    /// Arguments joined by `, `.
    Arguments,
    /// `#![` to `]`.
    Attribute,
    /// The name of a capture, or several in parentheses.
    Captures,
    /// Letters, digits and `_`, perhaps none.
    Escaped,
    /// A pattern with names in its holes.
    Filled,
    /// Type arguments joined by `, `.
    Generics,
    /// `0`, or a number above 1 and ` - 1`.
    Last,
    /// A string literal.
    Literal,
    /// A place of a span.
    Location,
    /// An identifier.
    Name,
    /// Names of captures, joined by `, `.
    Names,
    /// A decimal number other than 1.
    NotOne,
    /// A decimal number.
    Number,
    /// Numbers joined by ` | `.
    Numbers,
    /// Names, each with `, ` after it.
    Parameters,
    /// A pattern with `_` in its holes.
    Pattern,
    /// Patterns joined by ` | `, with names in their holes.
    Patterns,
    /// An identifier without the prefix.
    PlainName,
    /// Numbers and ranges joined by ` | `.
    Ranges,
    /// A one-line text other than `()`.
    Result,
    /// Names that begin with the prefix, joined by `, `.
    Symbols,
    /// A text without a line feed and without `"###`.
    Terminal,
    /// A one-line text.
    Text,
    /// Nothing, `pub ` or `pub(path) `.
    Visibility,
}

/// What follows a literal text on a line: nothing, the prefix of the program, or a hole by number.
#[derive(Clone, Copy)]
pub enum Slot {
    Nothing,
    Prefix,
    Hole(usize),
}

/// A literal text and what follows it.
pub type Piece = (&'static str, Slot);

/// A step of a template.
#[derive(Clone, Copy)]
pub enum Step {
    /// One line, printed with so many blanks in front.
    Line(u8),
    /// One line as often as there are parts below so far.
    Each(u8),
    /// An empty line, which reading doesn't count.
    Empty,
    /// The comment lines of a note, with comments on.
    Note,
    /// The comment lines of a note, always.
    NoteAlways,
    /// One part of a class.
    One(Class),
    /// At most one part of a class.
    Optional(Class),
    /// Any number of parts of a class.
    Many(Class),
    /// One part of a class or more.
    Some(Class),
    /// Any number of pairs, each of a part of the first class and one of the second.
    Pairs(Class, Class),
    /// `use `, a text that its cut ends, and `;`.
    Use,
    /// User code, which its cut ends.
    Code,
    /// The entries of a table.
    Entries,
}

/// A step, and the line where it is one.
pub type Line = (Step, &'static [Piece]);

/// No line.
pub const NO_PARTS: &[Piece] = &[];
