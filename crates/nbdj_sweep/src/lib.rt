//! Every crash and every fault of a script: its steps are run anew for each call of the device, which stops there or
//! fails, and what is opened afterwards is compared with plain bytes.
//!
//! Nothing of it rests on what is proved of the keeper and the order: a run is judged by its log and by what an opening
//! reads.
#![tactic(auto)]

mod comparing;
mod opening;
mod promise;
mod trial;
mod trying;

pub use comparing::is_plain;
pub use trying::{faults, sweep};
