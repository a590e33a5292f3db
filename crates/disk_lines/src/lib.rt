// The lines of a whole disk.
#![tactic(auto)]

pub mod whole;
