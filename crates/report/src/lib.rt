// The answers as text, written into a buffer that the caller lends, and which answer is asked for.
#![tactic(auto)]

pub mod answer;
pub mod command;
