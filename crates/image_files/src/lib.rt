//! The file or the block device that holds an image: opened and locked, made, filled, and told of where a call of it fails; and the
//! standard streams, kept apart from it.
#![tactic(auto)]

mod contents;
mod copying;
mod devices;
mod files;
mod filling;
mod fresh;
mod noted;
mod progress;
mod reading_ahead;
mod sources;
mod streams;
mod targets;
mod told;
mod told_source;
mod writing_out;

pub use contents::{Content, has_magic};
pub use devices::Locks;
pub use files::{
    FileFault, Holder, Opened, Wanted, header_of, is_same_file, open, open_for_reading, open_fresh,
    remove_made, try_fresh,
};
pub use fresh::FreshFile;
pub use reading_ahead::begin_reading;
pub use sources::{FileSource, StreamSource};
pub use streams::ClosedStreams;
pub use targets::{FileTarget, StreamTarget};
pub use told::{FileLines, ToldFile, is_full};
pub use told_source::ToldSource;
