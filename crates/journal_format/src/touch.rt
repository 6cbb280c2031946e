ghost use Rattle.std.specs.Prelude.{◌+◌, ◌*◌, ◌<◌, ◌^◌};

use image_model::{Edges, Kind};

/// What a command of an area made of a block.
#[derive(Clone, Copy, Debug, PartialEq, Eq)]
pub enum Touch {
    /// A put: the block's bytes stand from this byte of the device on.
    Put(u64),
    /// A clear to this kind.
    Clear(Kind),
}

/// What a command of an area made of its blocks; a put's place is that of the first of them.
#[derive(Clone, Copy, Drop)]
pub struct TouchedRange {
    pub first: u64,
    pub blocks: u32,
    pub touch: Touch,
}

/// The edges of a clear, whose bytes stand in an area.
#[derive(Clone, Copy)]
pub struct StoredEdges {
    pub edges: Edges,
    /// The byte of the device from which their bytes stand on.
    pub place: u64,
    /// How many blocks of bytes stand there: one for each edge.
    pub blocks: u64,
    ghost bytes_fit: { place + 4096 * blocks < 2 ^ 64 },
}

/// What a command of an area made of its blocks, and of its edges, where it has some.
#[derive(Clone, Copy)]
pub struct CommandTouch {
    pub range: TouchedRange,
    pub edges: Option<StoredEdges>,
}
