// The words and fields of an answer, and a descriptor opened for one.
#![tactic(auto)]

pub mod line;
pub mod opening;
