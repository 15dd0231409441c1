//! Laws that lead from what an emission says to the runs of its text: the module that a public name enters, its parameters, and what a run of it tells.
#![tactic(auto)]
