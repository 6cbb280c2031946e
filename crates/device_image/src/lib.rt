//! What the content of a device stands for, what is bad of one that stands for nothing, and what a keeper keeps; what a checkpoint
//! copies out of an area of the journal.
#![tactic(auto)]

mod laws;
mod plan;

pub use laws::{keeper_laws, stands_laws};
pub use plan::{CopyPlan, latest_writes, map_after_area};
