//! The keeper of a device: it formats the device, opens and recovers it, adds groups to its journal, carries a checkpoint
//! out step by step, and reads blocks and the map. A report says what a device holds that isn't opened.
#![tactic(auto)]

mod content;
mod device_steps;
mod fault;
mod format;
mod keeper;
mod laws;
mod opening;
mod plans;
mod reading;
mod recovery;
mod report;
mod simulated;
mod steps;
mod upgrade;

pub use content::Content;
pub use fault::KeeperFault;
pub use keeper::Keeper;
pub use laws::refusal_law;
pub use report::Report;
