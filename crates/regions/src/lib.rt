//! The places of a device's map slots and data, and the calls that read and write them.
#![tactic(auto)]

mod fault;
mod laws;
mod regions;

pub use fault::RegionFault;
pub use laws::layout_laws;
pub use regions::Regions;
