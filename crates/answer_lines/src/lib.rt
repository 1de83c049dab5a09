// Lines of text: the answers of the agent's calls, and what a state holds.
#![tactic(auto)]

pub mod answers;
pub mod listing;
