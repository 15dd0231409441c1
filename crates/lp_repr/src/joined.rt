//! Elements shown one after another.

ghost use Rattle.std.specs.Prelude.{◌++◌};
ghost use Rattle.std.specs.List.{flat_map, join_by};
ghost use Rattle.std.specs.Fmt.{WritesOnOk};

use std::fmt;

/// What is always shown as the same text.
pub trait Shown: fmt::Display {
    ghost use Rattle.std.specs.Prelude.{◌≡◌, ℕ, List, Some};

    /// The text.
    ghost text: { Self → List ℕ };

    ghost shows: { (x : Self) → Self.output x ≡ Some (text x) };
}

/// The elements, with a text between each two.
pub(crate) fn write_joined<W: fmt::Write, T: Shown>(
    f: &mut fmt::Formatter<W>,
    items: &[T],
    separator: &str,
) -> fmt::Result
    ensures { WritesOnOk W.write_str_gives f.old result (join_by T.text separator.now items.now) f.new }
{
    match items.split_first() {
        None => Ok(()),
        Some((first, rest)) => {
            first.fmt(f)?;
            write_after_each(f, rest, separator)
        }
    }
}

/// The elements, each after the text.
pub(crate) fn write_after_each<W: fmt::Write, T: Shown>(
    f: &mut fmt::Formatter<W>,
    items: &[T],
    separator: &str,
) -> fmt::Result
    ensures { WritesOnOk W.write_str_gives f.old result (flat_map (λ x. separator.now ++ T.text x) items.now) f.new }
{
    for item in items {
        f.write_str(separator)?;
        item.fmt(f)?;
    }
    Ok(())
}
