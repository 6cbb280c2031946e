use export_model::Event;
use image_model::Command;

/// What a step says, for the proofs alone.
#[derive(Drop)]
pub(crate) enum Said {
    Speaks(Event),
    Adds(Command),
}
