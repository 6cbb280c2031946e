//! An image as an array in memory, which carries out edits: what tests and sweeps compare with.
#![tactic(auto)]

mod plain_image;

pub use plain_image::{OutOfRange, PlainImage};
