//! What a run changes, and what it goes by.

use crate::cell::Cell;
use crate::expr::Code;
use crate::value::Value;
use lp_repr::Text;
use lp_repr::values::{Event, RunItem};

/// What a run goes by.
#[derive(Drop)]
pub struct Setting<'p> {
    pub code: &'p Code,
    pub items: &'p [RunItem],
    pub params: &'p [Text],
    /// The numbers of the calls that fail.
    pub failing: &'p [u64],
    /// Whether items have the locations that they were given, else the default.
    pub located: bool,
}

/// What a run changes.
#[derive(Drop)]
pub struct World {
    /// The slots of the call.
    pub env: Vec<Value>,
    pub cells: Vec<Cell>,
    pub events: Vec<Event>,
    /// How many items were taken.
    pub taken: usize,
}

/// How an expression ended.
#[derive(Drop)]
pub enum Done {
    Valued(Value),
    Returned(Value),
    Stuck,
}
