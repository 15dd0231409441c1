//! How far a walk through the parts of a program has come.

ghost use Rattle.std.specs.Prelude.{◌≡◌, IfOk};
ghost use Rattle.lp_notes.specs.Numbers.{number_told, printed_number};
ghost use Rattle.lp_notes.specs.Places.{commented_kind, first_place, kind_of, place_behind, tells_number};

use lp_form::Part;
use lp_tree::Piece;
use std::alloc::AllocError;

/// What a part is to a walk.
#[derive(Clone, Copy)]
pub enum Kind {
    /// A module begins.
    Module,
    /// The function of a state begins.
    State,
    /// It tells a number to those below it.
    Numbered,
    /// A production of a simulation.
    Simulated,
    /// The states with one target.
    GotoArm,
    /// The body of a reduction.
    Reduction,
    /// The table of actions.
    Actions,
    /// The table of the end of input.
    Ends,
    /// Nothing.
    Plain,
}

/// How far a walk has come.
#[derive(Clone, Copy)]
pub struct Place {
    /// How many modules have begun.
    pub modules: usize,
    /// How many functions of states have begun in the last of them.
    pub functions: usize,
    /// The number that the last part told that tells one.
    pub number: Option<usize>,
}

/// What a part is to a walk.
pub fn kind_of(part: Part) -> Kind
    ensures { result ≡ kind_of part }
{
    if part == Part::ParseModule {
        Kind::Module
    } else if part == Part::StateFn {
        Kind::State
    } else if part == Part::ActionTable {
        Kind::Actions
    } else if part == Part::EofTable {
        Kind::Ends
    } else {
        commented_kind(part)
    }
}

/// The parts that have comments alone.
fn commented_kind(part: Part) -> Kind
    ensures { result ≡ commented_kind part }
{
    if part == Part::SimulateArm {
        Kind::Simulated
    } else if part == Part::SimulateAccept {
        Kind::Simulated
    } else if part == Part::GotoRange {
        Kind::GotoArm
    } else if part == Part::ReduceBody {
        Kind::Reduction
    } else {
        tells_number(part)
    }
}

/// The parts that tell a number to those below them.
fn tells_number(part: Part) -> Kind
    ensures { result ≡ tells_number part }
{
    if part == Part::GotoMatch {
        Kind::Numbered
    } else if part == Part::ReduceBodyArm {
        Kind::Numbered
    } else if part == Part::HeaderReduceFn {
        Kind::Numbered
    } else {
        Kind::Plain
    }
}

/// The number in the first hole of a part.
pub fn number_told(holes: &[Piece<'_>]) -> Option<usize>
    ensures { result ≡ number_told holes.now }
{
    match holes.split_first() {
        None => None,
        Some((text, _)) => printed_number(text.as_str()),
    }
}

/// A printed number.
fn printed_number(text: &str) -> Option<usize>
    ensures { result ≡ printed_number text.now }
{
    text.parse::<usize>().ok()
}

impl Place {
    /// Before the first part.
    pub fn first() -> Place
        ensures { result ≡ first_place }
    {
        Place {
            modules: 0,
            functions: 0,
            number: None,
        }
    }

    /// Behind a part of a kind with these texts.
    pub fn behind(self, kind: Kind, holes: &[Piece<'_>]) -> Result<Place, AllocError>
        ensures { IfOk result (λ p. p ≡ place_behind self kind holes.now) }
    {
        match kind {
            Kind::Module => Ok(Place {
                modules: self.modules.checked_add(1).ok_or(AllocError)?,
                functions: 0,
                number: None,
            }),
            Kind::State => Ok(Place {
                functions: self.functions.checked_add(1).ok_or(AllocError)?,
                ..self
            }),
            Kind::Numbered => Ok(Place {
                number: number_told(holes),
                ..self
            }),
            Kind::Simulated => Ok(self),
            Kind::GotoArm => Ok(self),
            Kind::Reduction => Ok(self),
            Kind::Actions => Ok(self),
            Kind::Ends => Ok(self),
            Kind::Plain => Ok(self),
        }
    }
}
