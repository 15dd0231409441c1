//! Sources and sinks, the writer of indented lines, function headers and texts.
#![tactic(auto)]

pub mod counting;
pub mod headers;
pub mod memory;
mod rows;
pub mod rust;
pub mod sinks;
pub mod sources;
pub mod standard;
mod uses;
pub mod util;

pub use counting::CountSink;
pub use headers::{FnHeader, ParameterDisplay};
pub use memory::{MemorySink, MemorySource};
pub use rust::{Options, RustWrite, WriteError};
pub use sinks::{Failed, Sink};
pub use sources::Source;
pub use standard::{StdinSource, StdoutSink};
pub use util::{AsStr, Escape, Prefix, Sep, literal, strip};
