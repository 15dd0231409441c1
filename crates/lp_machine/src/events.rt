//! Events of calls.

ghost use Rattle.std.specs.Prelude.{◌≡◌, map, IfOk};
ghost use Rattle.lp_machine.specs.RunEnds.{spanned_value, call_of};

use crate::calls::Call;
use crate::terms::Symbol;
use lp_repr::text::Items;
use lp_repr::values::{Event, Loc, SpannedTerm};
use std::alloc::{AllocError, Global};

fn triples_of(
    alloc: Global,
    triples: Items<(Loc, Symbol, Loc)>,
) -> Result<Items<SpannedTerm>, AllocError>
    ensures { IfOk result (λ l. map spanned_value l ≡ triples) }
{
    let mut terms = Vec::new(alloc);
    for (start, symbol, end) in triples.0 {
        terms.push((start, symbol.into_term(), end))?;
    }
    Ok(Items(terms))
}

fn event_of(alloc: Global, call: Call) -> Result<Event, AllocError>
    ensures { IfOk result (λ e. call_of e ≡ call) }
{
    Ok(Event {
        number: call.number,
        code: call.code,
        params: call.params,
        args: triples_of(alloc, call.args)?,
        place: call.place,
    })
}

/// The events that tell of these calls.
pub fn events_of(alloc: Global, calls: Items<Call>) -> Result<Vec<Event>, AllocError>
    ensures { IfOk result (λ l. map call_of l.items ≡ calls) }
{
    let mut events = Vec::new(alloc);
    for call in calls.0 {
        events.push(event_of(alloc, call)?)?;
    }
    Ok(events)
}
