// A list of calls, one a line: each line read, its call made of the agent, and the answer written as text.
#![tactic(auto)]

mod list;
mod parsed;

pub use list::run;
