//! The blocks of an image that are in memory, in frames that are taken once, and the state of each block.
#![tactic(auto)]

mod cache;
mod cached_blocks;
mod fault;
mod index;

pub use cache::Cache;
pub use fault::{KeepFault, Missing};
