// Whether bytes are a descriptor.
#![tactic(auto)]

pub mod probe;
