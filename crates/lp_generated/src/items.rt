//! Tokens for it.

ghost use Rattle.std.specs.Prelude.{◌≡◌, ◌+◌, ◌<◌, ◌^◌, ◌∷◌, [], ℕ, List, IfOk, codes, decimal};
ghost use Rattle.lp_generated.specs.Generated.{number_item, operator_form, operator_item, token_at, token_list};

use lp_repr::text::{Items, Text};
use lp_repr::values::{Loc, RunItem, TokenValue};
use std::alloc::{AllocError, Global};

/// The tokens of a number, and then of each operator and a number. Token j spans j to j + 1; the
/// payload of a number is its place.
pub fn make_items(alloc: Global, levels: u32) -> Result<Vec<RunItem>, AllocError>
    ensures { IfOk result (λ items. items.items ≡ token_list levels) }
{
    let mut items = Vec::new(alloc);
    items.push(number_item(alloc, 0)?)?;
    for level in 0..levels {
        let place = u64::from(level) * 2 + 1;
        items.push(operator_item(alloc, level, place)?)?;
        items.push(number_item(alloc, place + 1)?)?;
    }
    Ok(items)
}

/// The token of a number.
fn number_item(alloc: Global, place: u64) -> Result<RunItem, AllocError>
    requires { place + 1 < 2 ^ 64 }
    ensures { IfOk result (λ item. item ≡ number_item place) }
{
    let form = Text(String::from_str(alloc, "Tok::N(_)")?);
    let payload = Text(format!(in alloc; "{place}")?);
    Ok(token_at(place, form, Items(vec![in alloc; payload]?)))
}

/// The token of the operator of a level.
fn operator_item(alloc: Global, level: u32, place: u64) -> Result<RunItem, AllocError>
    requires { place + 1 < 2 ^ 64 }
    ensures { IfOk result (λ item. item ≡ operator_item level place) }
{
    let form = operator_form(alloc, level)?;
    Ok(token_at(place, form, Items(Vec::new(alloc))))
}

#[tactic(auto, unfolding(crate::specs::Generated::operator_form))]
fn operator_form(alloc: Global, level: u32) -> Result<Text, AllocError>
    ensures { IfOk result (λ form. form ≡ operator_form level) }
{
    let form = format!(in alloc; "Tok::O{level}")?;
    Ok(Text(form))
}

fn token_at(place: u64, form: Text, payloads: Items<Text>) -> RunItem
    requires { place + 1 < 2 ^ 64 }
    ensures { result ≡ token_at place form payloads }
{
    let token = TokenValue { form, payloads };
    RunItem::Token(Loc::At(place), token, Loc::At(place + 1))
}
