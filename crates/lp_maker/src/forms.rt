//! The forms of a program as parts.

ghost use Rattle.std.specs.Prelude.{◌≡◌, slice_get};
ghost use Rattle.std.specs.Option.{option_map};
ghost use Rattle.lp_view.specs.PartLists.{is_a, listed, parts_of};

use lp_form::Part;
use lp_view::PartRef;

/// A form of a program, a row of one, or a line of several alternatives.
pub type Form<'p> = PartRef<'p>;

/// Whether a form is that part.
pub fn is_a(part: Part, form: Form<'_>) -> bool
    ensures { result ≡ is_a part (listed form.entry) }
{
    form.part() == part
}

/// The first part below.
pub fn first(form: Form<'_>) -> Option<Form<'_>>
    ensures { option_map listed result ≡ slice_get (parts_of (listed form.entry)) 0 }
{
    let mut parts = form.parts();
    parts.next()
}

/// The second part below.
pub fn second(form: Form<'_>) -> Option<Form<'_>>
    ensures { option_map listed result ≡ slice_get (parts_of (listed form.entry)) 1 }
{
    let mut parts = form.parts();
    // Where there is no first, there is no second.
    let _before = parts.next();
    parts.next()
}
