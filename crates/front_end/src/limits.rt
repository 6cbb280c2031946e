/// The fewest frames of 4,096 bytes that an export may have.
pub const LEAST_FRAMES: u64 = 512;

/// The most of them.
pub const MOST_FRAMES: u64 = 65_536;

/// The fewest bytes that a server may be told to have pending at most: the longest write fits, with the blocks that it touches in part.
pub const LEAST_LOSS_BYTES: u64 = 2_097_152;

/// The most of them: an order has no more pending in any case.
pub const MOST_LOSS_BYTES: u64 = 67_108_864;
