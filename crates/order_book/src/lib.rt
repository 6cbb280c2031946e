//! The total order of write commands: their numbers, the pending ones, and the groups that are made of them.
#![tactic(auto)]

mod backlog;
mod commands;
mod edits;
mod fault;
mod kept;
mod laws;
mod order;
mod pending;
mod reading;
mod span;

pub use fault::OrderFault;
pub use kept::Kept;
pub use laws::dirty_blocks_law;
pub use order::Order;
pub use span::Span;
