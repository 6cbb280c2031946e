/// Whether blocks that were read are kept in memory.
#[derive(Clone, Copy, Debug, PartialEq, Eq)]
pub enum Kept {
    /// Each for which there is a frame that isn't dirty.
    All,
    /// Some first ones, perhaps none: memory was refused.
    NoMemory,
}
