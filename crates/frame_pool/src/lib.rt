//! Frames of 4,096 bytes, each of which is free, clean or dirty. Their memory is taken once.
#![tactic(auto)]

mod cells;
mod fault;
mod frames;
mod links;
mod lists;
mod nodes;
mod place;
mod pool;
mod region;

pub use fault::NoFrame;
pub use pool::FramePool;
