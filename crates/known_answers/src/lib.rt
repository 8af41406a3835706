// The bench sheet's cases are a table in specs/, proved in proofs/: there is no code to run.

#![tactic(auto)]
