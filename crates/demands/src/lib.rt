// Theorems about the calls' definitions, demands 2 and 3 among them: stated in specs/, proved in proofs/. No code.

#![tactic(auto)]
