//! One history of commands under two locks: an order and a keeper that share it.
//!
//! Whenever a lock is taken, the state under it is of one history: the order has all of it, and the keeper has stored a prefix. The
//! board ties the two, without both locks being taken for that.
#![tactic(auto)]

mod group;
mod keeper;
mod name;
mod order;

pub use group::SealedGroup;
pub use keeper::{SharedKeeper, Unstored};
pub use name::ImageName;
pub use order::SharedOrder;
