// The claims of `claims` and `front_claims`, of the functions that are linked: `agent` and `front`. Proofs alone.

#![tactic(auto)]
