//! Laws of a driver's turns over tables: paths through LR tables, a driver over a definition that answers by tables, what a call of a method answers it.
#![tactic(auto)]
