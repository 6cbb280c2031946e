ghost use Rattle.std.specs.Prelude.{◌≡◌};
ghost use Rattle.latest_writes.specs.Touches.{HasBytesWithin, touch_within};

use image_model::{BLOCK_BYTES, Kind};

/// What the last command that touched some blocks made of them.
#[derive(Clone, Copy, Debug, PartialEq, Eq)]
pub enum LastTouch {
    /// A put: the bytes of the first of the blocks stand from this byte of the area on, the others' after them.
    Put(u32),
    /// A clear to this kind.
    Clear(Kind),
}

impl LastTouch {
    // What a touch of more blocks is for the one this many after the first.
    pub(crate) fn within(self, blocks: u32) -> LastTouch
        requires { HasBytesWithin 4294967295 blocks self }
        ensures { result ≡ touch_within blocks self }
    {
        match self {
            LastTouch::Put(place) => LastTouch::Put(place + BLOCK_BYTES as u32 * blocks),
            LastTouch::Clear(kind) => LastTouch::Clear(kind),
        }
    }
}
