use image_model::Kind;

/// Blocks one after another that have one state.
#[derive(Clone, Copy, PartialEq, Eq)]
pub struct Run {
    pub blocks: u64,
    pub kind: Kind,
}
