//! Laws of runs, for all programs.

ghost use Rattle.lp_run.specs.RunLaw.{DriverEnds};

/// After more turns of the driver than there are steps, a run is over: it has an outcome, or a
/// question was not answered.
pub fn driver_ends()
    ensures { DriverEnds }
{}
