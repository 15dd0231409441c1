//! The module of table-driven code, and that back end.
#![tactic(auto)]

pub mod back_end;
pub mod table_module;

pub use back_end::TableBackEnd;
pub use table_module::{build_table_module, table_module_of};
