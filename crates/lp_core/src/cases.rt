//! Which body of a match a value chooses.

ghost use Rattle.std.specs.Prelude.{◌≡◌};
ghost use Rattle.std.specs.Option.{option_copied, option_map};
ghost use Rattle.lp_core.specs.Reading.{tag_of};
ghost use Rattle.lp_core.specs.Numbers.{number_of};
ghost use Rattle.lp_core.specs.Store.{program_of};
ghost use Rattle.lp_core.specs.CaseMeaning.{same_tag, between, has_form, passes, part_passes, second_passes, fits, last_body, chosen};

use crate::act::{text_at, token_of};
use crate::expr::{Case, Place, Test};
use crate::numbers::number;
use crate::value::{Tag, Value};
use crate::world::Setting;
use lp_repr::values::TokenValue;

/// The number of the body of the first case that fits, else of the last of so many bodies.
pub fn chosen(setting: &Setting<'_>, cases: &[Case], bodies: usize, v: &Value) -> Option<usize>
    ensures { result ≡ chosen (program_of setting.now) cases.now bodies v.now }
{
    for case in cases {
        match fits(setting, case, v) {
            None => return None,
            Some(true) => return Some(case.body),
            Some(false) => {}
        }
    }
    last_body(bodies)
}

fn last_body(bodies: usize) -> Option<usize>
    ensures { result ≡ last_body bodies }
{
    if bodies == 0 { None } else { Some(bodies - 1) }
}

// Whether a case fits a value; none where the value is of another kind.
fn fits(setting: &Setting<'_>, case: &Case, v: &Value) -> Option<bool>
    ensures { result ≡ fits (program_of setting.now) case.now v.now }
{
    match case.place {
        Place::Here => passes(setting, case.test, v),
        Place::Inside => part_passes(setting, case.test, v.part(0)),
        Place::TokenInside => token_passes(setting, case.test, v.part(0)),
    }
}

fn part_passes(setting: &Setting<'_>, test: Test, part: Option<&Value>) -> Option<bool>
    ensures { result ≡ part_passes (passes (program_of setting.now) test) (option_copied part.entry) }
{
    match part {
        None => Some(false),
        Some(part) => passes(setting, test, part),
    }
}

fn token_passes(setting: &Setting<'_>, test: Test, triple: Option<&Value>) -> Option<bool>
    ensures { result ≡ part_passes (second_passes (passes (program_of setting.now) test)) (option_copied triple.entry) }
{
    match triple {
        None => Some(false),
        Some(triple) => second_passes(setting, test, triple),
    }
}

fn second_passes(setting: &Setting<'_>, test: Test, triple: &Value) -> Option<bool>
    ensures { result ≡ second_passes (passes (program_of setting.now) test) triple.now }
{
    match triple.part(1) {
        None => None,
        Some(part) => passes(setting, test, part),
    }
}

fn passes(setting: &Setting<'_>, test: Test, v: &Value) -> Option<bool>
    ensures { result ≡ passes (program_of setting.now) test v.now }
{
    match test {
        Test::Between(low, high) => is_between(v, low, high),
        Test::Is(tag) => is_tagged(v, tag),
        Test::Form(text) => match token_of(v) {
            None => None,
            Some(token) => has_form(setting, text, token),
        },
    }
}

fn is_between(v: &Value, low: i64, high: i64) -> Option<bool>
    ensures { result ≡ option_map (between low high) (number_of v.now) }
{
    match number(v) {
        None => None,
        Some(n) => Some(i128::from(low) <= n && n <= i128::from(high)),
    }
}

fn is_tagged(v: &Value, tag: Tag) -> Option<bool>
    ensures { result ≡ option_map (λ t. same_tag t tag) (tag_of v.now) }
{
    match v.tag() {
        None => None,
        Some(t) => Some(same_tag(t, tag)),
    }
}

fn same_tag(t: Tag, tag: Tag) -> bool
    ensures { result ≡ same_tag t tag }
{
    t == tag
}

fn has_form(setting: &Setting<'_>, text: usize, token: &TokenValue) -> Option<bool>
    ensures { result ≡ has_form (program_of setting.now) text token.now }
{
    match text_at(&setting.code.texts, text) {
        None => None,
        Some(form) => Some(form.as_str() == token.form.as_str()),
    }
}
