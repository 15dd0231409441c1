//! The calls of user code that a run has made.

ghost use Rattle.std.specs.Prelude.{◌≡◌, [], map};
ghost use Rattle.lp_core.specs.Store.{call_of};

use lp_repr::values::Event;
use std::alloc::Global;
use std::marker::Model;

/// The calls of user code so far. Contracts see what each was made with.
#[derive(Drop)]
pub struct Calls {
    events: Vec<Event>,
}

impl Model for Calls {
    ghost use Rattle.std.specs.Prelude.{List, map};
    ghost use Rattle.lp_core.specs.Store.{UserCall, call_of};

    ghost Value = { List UserCall };

    ghost view = { λ c. map call_of c.events.items };
}

impl Calls {
    /// No call.
    pub fn none(alloc: Global) -> Calls
        ensures { result ≡ [] }
    {
        Calls {
            events: Vec::new(alloc),
        }
    }

    /// The calls that these events tell of.
    pub fn made(events: Vec<Event>) -> Calls
        ensures { result ≡ map call_of events.items }
    {
        Calls { events }
    }

    /// Their events.
    pub fn into_events(self) -> Vec<Event>
        ensures { map call_of result.items ≡ self }
    {
        self.events
    }
}
