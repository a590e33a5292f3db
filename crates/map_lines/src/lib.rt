// The line of a mapping.
#![tactic(auto)]

pub mod map;
