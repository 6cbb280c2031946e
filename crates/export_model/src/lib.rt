//! The world of an export: its connections, the order of write commands and what of it is stored, as a run of steps
//! changes them; what a log of such a run must be, and what a FLUSH covers.
//!
//! The definitions stand in `specs/`; `docs/ASSURANCE.md` has the main ones. Here are the types that they share with the programs
//! that carry such runs out, and the law of what holds of them under every schedule.
#![tactic(auto)]

mod action;
mod connection;
mod event;
mod law;
mod step;

pub use action::Action;
pub use connection::Connection;
pub use event::{Event, StepFault};
pub use law::schedule_law;
pub use step::{Mode, Step};
