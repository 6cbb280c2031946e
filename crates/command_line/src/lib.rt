//! The command line of `nbdj`.
#![tactic(auto)]

mod commands;
mod parse;
mod repeats;
mod seconds;
mod size;

pub use clap::Error as LineFault;
pub use parse::{address_fault, line};
pub use repeats::last_given;
