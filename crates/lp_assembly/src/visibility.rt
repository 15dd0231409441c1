//! The visibilities of starts, and one that serves them all.

ghost use Rattle.std.specs.Prelude.{◌≡◌, Some};
ghost use Rattle.lp_repr.specs.Shown.{visibility_text};
ghost use Rattle.lp_assembly.specs.Visibilities.{common, visibility_at, visibility_of as visibility_that_is, wider, widest};

use lp_repr::parse_tree::Visibility;
use lp_repr::repr::{Grammar, NonterminalString};
use std::fmt;

/// A visibility: nothing, that of a start, or `pub`.
#[derive(Clone, Copy)]
pub enum Shared<'g> {
    Private,
    Start(&'g Visibility),
    Public,
}

impl fmt::Display for Shared<'_> {
    ghost output = { λ s. Some (visibility_text (visibility_that_is s)) };

    fn fmt<W: fmt::Write>(&self, f: &mut fmt::Formatter<W>) -> fmt::Result {
        match self {
            Shared::Private => Ok(()),
            Shared::Start(visibility) => visibility.fmt(f),
            Shared::Public => f.write_str("pub "),
        }
    }
}

/// The visibility of a nonterminal; private where it isn't declared, which no valid grammar leaves
/// out.
pub fn visibility_of<'g>(grammar: &'g Grammar, nonterminal: &NonterminalString) -> Shared<'g>
    ensures { visibility_that_is result ≡ visibility_at grammar.entry.now nonterminal.now }
{
    match grammar.nonterminals.get(nonterminal) {
        Some(data) => Shared::Start(&data.visibility),
        None => Shared::Private,
    }
}

/// A visibility that serves all starts: the one that all that aren't private have, else `pub`.
pub fn widest_visibility(grammar: &Grammar) -> Shared<'_>
    ensures { visibility_that_is result ≡ widest grammar.entry.now }
{
    let mut served = Shared::Private;
    for start in grammar.start_nonterminals.values() {
        served = wider(served, visibility_of(grammar, start));
    }
    served
}

/// The visibility that serves what one served, and a further start.
fn wider<'g>(served: Shared<'g>, start: Shared<'g>) -> Shared<'g>
    ensures { visibility_that_is result ≡ wider (visibility_that_is served.entry) (visibility_that_is start.entry) }
{
    match (served, start) {
        (Shared::Private | Shared::Start(Visibility::Priv), _) => start,
        (_, Shared::Private | Shared::Start(Visibility::Priv)) => served,
        (Shared::Start(one), Shared::Start(other)) => common(one, other),
        _ => Shared::Public,
    }
}

/// One of two that aren't private: theirs where they are one, else `pub`.
fn common<'g>(one: &'g Visibility, other: &Visibility) -> Shared<'g>
    ensures { visibility_that_is result ≡ common one.entry.now other.now }
{
    if *one == *other {
        Shared::Start(one)
    } else {
        Shared::Public
    }
}
