// What the definitions of every crate need of choices: specs/ has connectives, choices by a test and tables of a
// function's values; proofs/ has the laws of loops over them.

#![tactic(auto)]
