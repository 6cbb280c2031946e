//! What a device holds: its geometry, the states of its blocks, and the commands that change them.
#![tactic(auto)]

mod command;
mod edit;
mod gate;
mod geometry;
mod laws;
mod layout;
mod side;

pub use command::{Command, Edges, Kind};
pub use edit::Edit;
pub use gate::{CLOSED, OPEN};
pub use geometry::{BLOCK_BYTES, Geometry, LEAST_AREA_BYTES, MOST_AREA_BYTES, MOST_BLOCKS};
pub use laws::{edits_become_commands, puts_become_commands, whole_edits_become_commands};
pub use layout::Layout;
pub use side::Side;
