// The three steps of a mask.

#![tactic(auto)]

pub mod steps;
