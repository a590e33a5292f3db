// The row search, mapping an offset of the disk, and the walk over the disk.
#![tactic(auto)]

mod halving;
pub mod mapping;
pub mod stepping;
pub mod walk;
