// The extent table, and building it.
#![tactic(auto)]

pub mod build;
pub mod table;
