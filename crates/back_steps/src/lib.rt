// The back steps of a mask.

#![tactic(auto)]

pub mod back;
mod tables;
