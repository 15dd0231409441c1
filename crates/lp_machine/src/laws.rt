//! Laws of the machine's definitions, for all tables.

ghost use Rattle.lp_machine.specs.ExpectedLaw.{TriedHaveActions, MovesTryNames};
ghost use Rattle.lp_machine.specs.RecoveryLaw.{MovesRecover};
ghost use Rattle.lp_machine.specs.DriverStanding.{TurnsMove};

/// Each expected list with tried terminals is contained in the one with the terminals that have an
/// action in the top state, both in terminal order. The machine's moves at an error give the first
/// list, where each trial ends.
pub fn expected_lists()
    ensures contained { TriedHaveActions }
    ensures listed { MovesTryNames }
{}

/// An error is mended with the least number of dropped tokens, and for it with the longest prefix of
/// the stack that serves: the machine's moves come to that.
pub fn recovery()
    ensures { MovesRecover }
{}

/// The turns of a driver over a definition that answers by tables make the machine's moves, where
/// errors are mended and where they are not: after any number of turns the machine comes to the same
/// place, or to the same end with the same calls. Where the driver halts, for want of steps or of an
/// answer, the machine comes to the same calls.
pub fn turns()
    ensures { TurnsMove }
{}
