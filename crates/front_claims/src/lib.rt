// The claims about every list of calls with pieces among them, by the definitions of `front_model` (02, ticket 9).
// Definitions and proofs alone.

#![tactic(auto)]
