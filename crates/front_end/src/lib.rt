//! What lies above the engine and below what uses it: what a command line may ask for, how an image is served, how many frames it may
//! have, and why a run of the program ends early.
#![tactic(auto)]

mod format_options;
mod limits;
mod options;
mod pipe_options;
mod plan;
mod refusal;

/// The version of the program.
pub const VERSION: &str = "1.3.10";

pub use format_options::{FormatOptions, ImportSizes};
pub use limits::{LEAST_FRAMES, LEAST_LOSS_BYTES, MOST_FRAMES, MOST_LOSS_BYTES};
pub use options::{Limits, MOST_IN_FLIGHT, MOST_WORKERS, OnFault, OnFull, ServeOptions, WhenFull};
pub use pipe_options::PipeOptions;
pub use plan::{Address, Course, Invocation, MOST_NAME_BYTES, Plan, ServedName, StatusForm};
pub use refusal::Refusal;
