//! Laws between emitting and choosing.

ghost use Rattle.lp_round_trip.specs.BackEnds.{BackEndsAgree};
ghost use Rattle.lp_round_trip.specs.Codes.{BodiesSuitTold, CodesAreTold};
ghost use Rattle.lp_round_trip.specs.Laws.{EmissionAgreesAsRead, EmissionIsChosen, EmissionIsNotRefused, EmissionIsRead, EmissionTellsBodies, FittingIsParted};

/// What is emitted tells the bodies of actions, and is chosen as the program that was built of the grammar
/// and its states, as far as a text tells it, and as no other. So it is never refused but for want of memory.
/// All runs of the program that it is read as are those of the stack machine over the tables.
pub fn emissions()
    ensures parted { FittingIsParted }
    ensures bodies { EmissionTellsBodies }
    ensures chosen { EmissionIsChosen }
    ensures read { EmissionIsRead }
    ensures never { EmissionIsNotRefused }
    ensures agrees { EmissionAgreesAsRead }
{}

/// User code whose first line that counts begins otherwise than those of inlined actions is told in every
/// text. So are the bodies of actions that their parameters or such code tell.
pub fn codes()
    ensures code { CodesAreTold }
    ensures bodies { BodiesSuitTold }
{}

/// The texts of one grammar by both back ends agree: where runs of both end, they make the same
/// calls of user code, in order, with the same arguments and spans, and end with the same value, or
/// with the same error at the same place, its expected list included.
pub fn back_ends()
    ensures { BackEndsAgree }
{}
