//! The last touches of a journal's area: which of its commands made each block of the image what it is.
#![tactic(auto)]

mod latest_writes;
mod overlay;
mod range;
mod touch;

pub use latest_writes::LastTouches;
pub use range::{LastRange, PutRange};
pub use touch::LastTouch;
