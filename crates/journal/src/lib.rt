//! The journal: groups of commands in an area of a device, each guarded by a gate.
#![tactic(auto)]

mod area;
mod group;

pub use area::Area;
pub use group::Group;
