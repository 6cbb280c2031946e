//! A pool and plain lists, on which the same calls are made.
ghost use Rattle.std.specs.Prelude.{◌<◌};
ghost use Rattle.storage_tests.specs.Both.{IsAtMost};

use crate::plain::PlainPool;
use frame_pool::FramePool;
use std::alloc::{AllocError, Global};

// Both, and a number that no dirty frame's passes.
pub struct Both {
    pool: FramePool,
    plain: PlainPool,
    last: u64,
    ghost order: { IsAtMost last pool.dirty },
}

// Written out, it is proved once, and not again in each function that lets such a value go.
impl Drop for Both {
    fn drop(self) {
        let Both {
            pool: _,
            plain: _,
            last: _,
        } = self;
    }
}

// The bytes that this call writes.
fn bytes_of(salt: u64) -> [u8; 4096] {
    let mut bytes = [(salt % 256) as u8; 4096];
    bytes[(salt >> 8) as usize % 4096] = (salt >> 56) as u8;
    bytes
}

impl Both {
    pub fn new(alloc: Global, frames: u32) -> Result<Both, AllocError>
        requires { frames < 1000 }
    {
        Ok(Both {
            pool: FramePool::new(alloc, frames)?,
            plain: PlainPool::new(alloc, frames)?,
            last: 0,
        })
    }

    // Whether both show the same of a frame.
    pub fn agree_on(&self, frame: u32) -> bool {
        if self.pool.frames() <= frame {
            return true;
        }
        self.plain.bytes(frame) == Some(self.pool.bytes(frame))
            && self.plain.is_dirty(frame) == self.pool.is_dirty(frame)
            && self.plain.dirty_frames() == self.pool.dirty_frames() as usize
            && self.plain.front_free() == self.pool.take_free().ok()
    }

    // Writes a frame, which is dirty then, with a number so much above the last one.
    pub fn write_dirty(&mut self, frame: u32, above: u64, salt: u64) -> Result<(), AllocError> {
        if self.pool.frames() <= frame {
            return Ok(());
        }
        let number = self.last.saturating_add(above).max(1);
        let bytes = bytes_of(salt);
        self.pool.write_dirty(frame, number, &bytes);
        self.last = number;
        self.plain.write_dirty(frame, number, &bytes)
    }

    pub fn write_clean(&mut self, frame: u32, salt: u64) -> Result<(), AllocError> {
        if self.pool.frames() <= frame {
            return Ok(());
        }
        let bytes = bytes_of(salt);
        self.pool.write_clean(frame, &bytes);
        self.plain.write_clean(frame, &bytes)
    }

    pub fn release(&mut self, frame: u32) -> Result<(), AllocError> {
        if self.pool.frames() <= frame {
            return Ok(());
        }
        self.pool.release(frame);
        self.plain.release(frame)
    }

    // Writes the front of the free frames, where one is free.
    pub fn take(&mut self, above: u64, salt: u64) -> Result<(), AllocError> {
        match self.pool.take_free() {
            Ok(frame) => self.write_dirty(frame, above, salt),
            Err(_) => Ok(()),
        }
    }

    // Whether both evict the same frame, or none.
    pub fn evict(&mut self) -> Result<bool, AllocError> {
        let evicted = self.pool.evict_front().ok();
        Ok(self.plain.evict_front()? == evicted)
    }

    // Whether both make the same frame clean, or none, by a number so much below the last one.
    pub fn pop(&mut self, below: u64) -> Result<bool, AllocError> {
        let number = self.last.saturating_sub(below);
        let popped = self.pool.pop_clean_through(number);
        Ok(self.plain.pop_clean_through(number)? == popped)
    }
}
