// The claims about every list of calls, by the definitions of `model`: demand 3 and what the tickets claim. Definitions and
// proofs alone.

#![tactic(auto)]
