//! A grammar of so many levels of operators, generated as the text of a grammar file, and tokens for it.
#![tactic(auto)]

mod items;
mod text;

pub use items::make_items;
pub use text::make_text;
