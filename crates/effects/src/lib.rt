// What the effect of every accepted call leaves true, for the proofs of `agent` and of the claims. Proofs alone.

#![tactic(auto)]
