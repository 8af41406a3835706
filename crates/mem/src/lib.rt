// The masked Even-Mansour cipher: the start, and P under a mask.

#![tactic(auto)]

pub mod cipher;
pub mod start;
