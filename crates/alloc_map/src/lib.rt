//! The map of an image: the state of each of its blocks, two bits a block as in a map slot.
#![tactic(auto)]

mod codes;
mod fault;
mod laws;
mod map;
mod run;

pub use fault::BadMap;
pub use laws::map_laws;
pub use map::AllocMap;
pub use run::Run;
