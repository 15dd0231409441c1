//! What it means that the program of a text agrees with the stack machine over the tables that it was made of.
#![tactic(auto)]
