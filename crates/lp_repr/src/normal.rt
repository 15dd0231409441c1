//! The normal form of user code.

ghost use Rattle.std.specs.Prelude.{◌≡◌};
ghost use Rattle.lp_repr.specs.NormalCode.{norm_of};

/// The code without leading blanks, and `()` where nothing is left.
pub fn norm(code: &str) -> &str
    ensures { result.now ≡ norm_of code.now }
{
    let rest = code.trim_start();
    if rest.is_empty() { "()" } else { rest }
}
