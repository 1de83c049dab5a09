// Text of the programs: whole lines and their fields read, lines of answers made, gathered and written in large
// pieces, and how a program ended.
#![tactic(auto)]

pub mod fields;
pub mod form;
pub mod input;
pub mod list;
pub mod outcome;
pub mod output;
mod scan;
