// What one line of a descriptor says: nothing, an extent, a value, or a refusal.
#![tactic(auto)]

mod extent;
pub mod line;
mod placed;
pub mod record;
