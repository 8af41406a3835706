// The permutation P of BLAKE2b with any number of rounds, and the back permutation that undoes it.

#![tactic(auto)]

pub mod g;
pub mod permute;
pub mod round;
pub mod way;
