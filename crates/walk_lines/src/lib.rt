// The lines of a walk.
#![tactic(auto)]

pub mod walk;
