//! The bodies of the functions of a recursive ascent parser.
#![tactic(auto)]

pub mod ascent;
pub mod ascent_arms;
pub mod ascent_error;
pub mod ascent_goto;
pub mod ascent_reduce;
pub mod ascent_state;
pub mod ascent_trial;
