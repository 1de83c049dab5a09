// What a line of a list of calls asks for, and what its fields give.
#![tactic(auto)]

pub mod given;
pub mod kind;
pub mod numbers;
