//! Laws of core code: how its expressions end and in how many steps, names and their slots, printed lines.
#![tactic(auto)]
