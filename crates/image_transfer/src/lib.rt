//! An image made of the bytes of a source, and the bytes of an image given to a target.
//!
//! [`import`] writes what a [`Source`] gives straight to its places, and makes the device an image last. [`export`] gives a [`Target`]
//! what a source gives. [`ImageReader`] is the source that a device is: it reads the device and its journal, and writes nothing.
#![tactic(auto)]

mod exporting;
mod fault;
mod importing;
mod reader;
mod source;
mod target;
mod zeroes;

pub use exporting::export;
pub use fault::{SourceFault, TargetFault, TransferFault};
pub use importing::import;
pub use reader::ImageReader;
pub use source::Source;
pub use target::Target;
