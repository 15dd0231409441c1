//! The laws of both back ends: the module that each makes makes the reductions of its tables.
#![tactic(auto)]
