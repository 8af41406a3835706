// The conserved total of a store, over histories of calls; no code.

#![tactic(auto)]
