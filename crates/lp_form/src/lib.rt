//! The printed forms as data: each part of a program is a constant, its lines with their holes and
//! what stands between them.
#![tactic(auto)]

pub mod class;
pub mod forms;
pub mod kind;
mod member;
pub mod part;
mod step;
pub mod template;

pub use class::Class;
pub use kind::FormKind;
pub use member::members;
pub use part::{Part, form, is_element};
pub use step::{holes, steps};
pub use template::{Kind, Line, Slot, Step};
