//! Requests are validated, and served with the keeper of the device or without it.
//!
//! The threads of a server call these functions, each under the locks that it needs, and so do the steps of an export's world
//! (`export_steps`), one after another.
#![tactic(auto)]

mod answers;
mod edits;
mod judgement;
mod opening;
mod reading;
mod runs;
mod serving;

pub use export_model::{Action, Mode};
pub use judgement::judge;
pub use opening::fresh_order;
pub use reading::{Blocks, plan_read, serve_read_over};
pub use serving::{NeedsKeeper, Served, Terms, serve_held, serve_with_keeper};
