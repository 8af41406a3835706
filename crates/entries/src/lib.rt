// Sales in a store's cells: one filled in, and the cash of all.

#![tactic(auto)]

pub mod filling;
pub mod summing;
