//! The comments that tables have beside their entries.

ghost use Rattle.std.specs.Prelude.{◌≡◌};
ghost use Rattle.std.specs.Fmt.{WritesOnOk};
ghost use Rattle.lp_parts.specs.Comments.{comment_end, comment_on, comment_text};

use lp_repr::repr::Production;
use std::fmt::{self, Display};

/// What an entry means: the token or nonterminal, and the new state or the production.
#[derive(Clone, Copy)]
pub enum Comment<'a, T> {
    Goto(T, usize),
    Error(T),
    Reduce(T, &'a Production),
}

impl<T: Display> Display for Comment<'_, T> {
    ghost output = { λ c. comment_text T.output c };

    /// ` // on t, goto n`, ` // on t, error`, or `reduce` with the production in backquotes.
    fn fmt<W: fmt::Write>(&self, f: &mut fmt::Formatter<W>) -> fmt::Result {
        f.write_str(" // on ")?;
        comment_on(self).fmt(f)?;
        write_end(f, self)
    }
}

/// The token or nonterminal of a comment.
fn comment_on<'c, T>(comment: &'c Comment<'_, T>) -> &'c T
    ensures { result.now ≡ comment_on comment.entry.now }
{
    match comment {
        Comment::Goto(token, _) => token,
        Comment::Error(token) => token,
        Comment::Reduce(token, _) => token,
    }
}

/// What a comment says after its token or nonterminal.
fn write_end<W: fmt::Write, T>(f: &mut fmt::Formatter<W>, comment: &Comment<'_, T>) -> fmt::Result
    ensures { WritesOnOk W.write_str_gives f.old result (comment_end comment.now) f.new }
{
    match comment {
        Comment::Goto(_, state) => write!(f, ", goto {state}"),
        Comment::Error(_) => f.write_str(", error"),
        Comment::Reduce(_, production) => {
            f.write_str(", reduce `")?;
            production.fmt(f)?;
            f.write_str("`")
        }
    }
}
