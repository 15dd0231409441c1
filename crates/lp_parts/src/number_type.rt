//! The integer type of states.

ghost use Rattle.std.specs.Prelude.{◌≡◌};
ghost use Rattle.lp_parts.specs.StateType.{state_type_of};

/// The smallest of `i8`, `i16` and `i32` that holds the numbers of so many states and productions
/// and their negatives.
pub fn state_type(states: usize, productions: usize) -> &'static str
    ensures { result.now ≡ state_type_of states productions }
{
    if states <= 127 && productions <= 127 {
        "i8"
    } else if states <= 32767 && productions <= 32767 {
        "i16"
    } else {
        "i32"
    }
}
