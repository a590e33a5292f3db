// The keys of a descriptor.
#![tactic(auto)]

pub mod key;
