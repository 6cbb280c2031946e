//! An export's world, step by step.
//!
//! A world has connections, an order of commands and a keeper. `pipe` takes its steps one by one, by `engine` over `requests`,
//! `storing` and `checkpointing`. A rehearsal, and it alone, takes any list of such steps and keeps a log (`rehearsal`).
#![tactic(auto)]

mod checkpointing;
mod connections;
mod engine;
mod laws;
mod rehearsal;
mod requests;
mod storing;

pub use connections::Connections;
pub use engine::{copy_some, take_step};
pub use export_model::{Connection, Event, Mode, Step, StepFault};
pub use laws::{fresh_parts_law, leads_law, next_life_law};
pub use rehearsal::{Bench, rehearse};
