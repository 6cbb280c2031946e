ghost use Rattle.std.specs.Prelude.{◌≡◌, ◌+◌, ◌-◌, ◌*◌, ◌<◌, ◌≤◌, ◌↔◌, min, nat_le, ℕ, None, IsTrue, IfSome};
ghost use Rattle.std.specs.Option.{option_to_list};
ghost use Rattle.latest_writes.specs.inner.Puts.{put_from};
ghost use Rattle.latest_writes.specs.Ranges.{GoesOn, IsRange, touch_at};
ghost use Rattle.latest_writes.specs.Touches.{HasBytesWithin, on_device, said_by, touch_on_device, touch_within};
ghost use Rattle.journal_format.specs.Touches.{IsWithin, touch_in};

use crate::touch::LastTouch;
use image_model::BLOCK_BYTES;
use journal_format::{Touch, TouchedRange};

/// Blocks that follow one another and have their last touches from one command, or are of one kind of clear; the touch
/// is that of the first of them.
#[derive(Clone, Copy)]
pub struct LastRange {
    pub first: u32,
    pub blocks: u32,
    pub touch: LastTouch,
}

/// Blocks whose last touch is a put and that follow one another in the image and in the area; the place is that of the
/// first one's bytes in the area.
#[derive(Clone, Copy)]
pub struct PutRange {
    pub first: u32,
    pub blocks: u32,
    pub place: u32,
}

impl LastRange {
    // The block after the last.
    pub(crate) fn end(self) -> u32
        requires { self.first + self.blocks ≤ 4294967295 }
        ensures { result ≡ self.first + self.blocks }
    {
        self.first + self.blocks
    }

    // Its blocks from this one on.
    pub(crate) fn from_block(self, block: u32) -> LastRange
        requires range { IsRange self }
        requires low { self.first ≤ block }
        requires high { block < self.first + self.blocks }
        ensures { result ≡ record {
          first = block;
          blocks = self.first + self.blocks - block;
          touch = touch_within (block - self.first) self.touch;
        } }
    {
        let passed = block - self.first;
        LastRange {
            first: block,
            blocks: self.blocks - passed,
            touch: self.touch.within(passed),
        }
    }

    // Whether all its blocks are before this one.
    pub(crate) fn ends_by(self, block: u32) -> bool
        ensures { result ≡ nat_le (self.first + self.blocks) block }
    {
        self.first <= block && self.blocks <= block - self.first
    }

    // The touch of a block, if it is one of the range, which doesn't end before it.
    pub(crate) fn touch_of(self, block: u32) -> Option<LastTouch>
        requires range { IsRange self }
        requires behind { block < self.first + self.blocks }
        ensures { result ≡ said_by self.first self.blocks self.touch block }
    {
        if block < self.first {
            return None;
        }
        Some(self.touch.within(block - self.first))
    }

    // Its blocks before this one.
    pub(crate) fn before(self, block: u32) -> LastRange
        requires { self.first < block }
        ensures { result ≡ record self { blocks = min self.blocks (block - self.first) } }
    {
        LastRange {
            blocks: self.blocks.min(block - self.first),
            ..self
        }
    }

    // Whether the next range begins where this one ends, in the image and in the area.
    pub(crate) fn goes_on(self, next: LastRange) -> bool
        requires { IsRange self }
        ensures { IsTrue result ↔ GoesOn self next }
    {
        self.end() == next.first && self.touch.within(self.blocks) == next.touch
    }
}

impl PutRange {
    // Whether all its blocks are before this one.
    pub(crate) fn ends_by(self, block: u32) -> bool
        ensures { result ≡ nat_le (self.first + self.blocks) block }
    {
        self.first <= block && self.blocks <= block - self.first
    }

    // Its blocks from this one on: all of them where it begins there or after it.
    pub(crate) fn from_block(self, block: u32) -> PutRange
        requires blocks_fit { self.first + self.blocks ≤ 4294967295 }
        requires bytes_fit { self.place + 4096 * self.blocks ≤ 4294967295 }
        requires behind { block < self.first + self.blocks }
        ensures { result ≡ put_from block self }
    {
        let passed = block.saturating_sub(self.first);
        PutRange {
            first: self.first + passed,
            blocks: self.blocks - passed,
            place: self.place + BLOCK_BYTES as u32 * passed,
        }
    }
}

// What a command of an area that begins at byte `from` of the device touched of the blocks before this one, if anything.
pub fn clip(from: u64, range: TouchedRange, blocks: u32) -> Option<LastRange>
    requires { IsWithin from (from + 4294967295) range }
    ensures range { IfSome result IsRange }
    ensures exact { (block : ℕ) → block < blocks → touch_on_device from (touch_at block (option_to_list result)) ≡ touch_in block range }
    ensures none { (block : ℕ) → blocks ≤ block → touch_at block (option_to_list result) ≡ None }
{
    if range.blocks == 0 || range.first >= blocks as u64 {
        return None;
    }
    let first = range.first as u32;
    Some(LastRange {
        first,
        blocks: range.blocks.min(blocks - first),
        touch: in_area(from, range),
    })
}

// What a command made of its blocks, of an area that begins at byte `from` of the device.
fn in_area(from: u64, range: TouchedRange) -> LastTouch
    requires { IsWithin from (from + 4294967295) range }
    ensures same { on_device from result ≡ range.touch }
    ensures within { HasBytesWithin 4294967295 range.blocks result }
{
    match range.touch {
        Touch::Put(place) => LastTouch::Put((place - from) as u32),
        Touch::Clear(kind) => LastTouch::Clear(kind),
    }
}
