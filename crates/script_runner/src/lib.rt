//! The script language of `nbdj rehearse`: steps of connections, the flusher and a device that fails, a line each.
#![tactic(auto)]

mod answer_line;
mod ending;
mod life;
mod lines;
mod playing;
mod rehearsing;
mod script_line;
mod stepping;

pub use ending::{End, exit_status, failed, print};
pub use lines::Schedule;
pub use playing::{Played, PlayedLife, Trouble};
pub use rehearsing::script;
pub use script_line::{Clearing, Filling, Range, Setup, StepLine};
