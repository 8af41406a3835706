// The run of words that all masks of a call are taken from.

#![tactic(auto)]

pub mod growing;
pub mod kinds;
pub mod run;
pub mod windows;
