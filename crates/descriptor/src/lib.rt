// Reading a descriptor.
#![tactic(auto)]

pub mod empty;
pub mod read;
