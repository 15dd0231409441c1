//! Laws of what the code of built modules answers to the driver's questions: gotos, items and tokens, expected lists, reductions, and the functions of actions.
#![tactic(auto)]
