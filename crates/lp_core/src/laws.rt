//! Laws of calls.

ghost use Rattle.lp_core.specs.Budget.{MoreSteps};

/// With more steps left a call ends the same, unless it was spent; a spent call's calls of user
/// code come first.
pub fn more_steps()
    ensures { MoreSteps }
{}
