//! Laws of the first lines of a text: what is read of its front depends on them alone.
#![tactic(auto)]
