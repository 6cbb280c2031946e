//! A pool of frames as plain lists.
use std::alloc::{AllocError, Global};

// The frames of each list from its front to its back, the dirty ones with their numbers, and the bytes of each frame.
pub struct PlainPool {
    free: Vec<u32>,
    clean: Vec<u32>,
    dirty: Vec<(u32, u64)>,
    bytes: Vec<[u8; 4096]>,
}

// Written out, it is proved once, and not again in each function that lets such a value go.
impl Drop for PlainPool {
    fn drop(self) {
        let PlainPool {
            free: _,
            clean: _,
            dirty: _,
            bytes: _,
        } = self;
    }
}

impl PlainPool {
    // This many frames, which are free, in ascending order, and hold zero bytes.
    pub fn new(alloc: Global, frames: u32) -> Result<PlainPool, AllocError> {
        Ok(PlainPool {
            free: (0..frames).collect(alloc)?,
            clean: Vec::new(alloc),
            dirty: Vec::new(alloc),
            bytes: vec![in alloc; [0; 4096]; frames as usize]?,
        })
    }

    pub fn dirty_frames(&self) -> usize {
        self.dirty.len()
    }

    pub fn is_dirty(&self, frame: u32) -> bool {
        self.dirty.iter().any(|held| held.0 == frame)
    }

    pub fn bytes(&self, frame: u32) -> Option<&[u8; 4096]> {
        self.bytes.get(frame as usize)
    }

    pub fn front_free(&self) -> Option<u32> {
        self.free.first().copied()
    }

    // Takes a frame out of the list that it is in.
    fn take_out(&mut self, frame: u32) {
        self.free.retain(|other| *other != frame);
        self.clean.retain(|other| *other != frame);
        self.dirty.retain(|held| held.0 != frame);
    }

    fn write(&mut self, frame: u32, bytes: &[u8; 4096]) {
        if let Some(place) = self.bytes.get_mut(frame as usize) {
            *place = *bytes;
        }
    }

    pub fn release(&mut self, frame: u32) -> Result<(), AllocError> {
        self.take_out(frame);
        self.free.push(frame)?;
        Ok(())
    }

    pub fn write_clean(&mut self, frame: u32, bytes: &[u8; 4096]) -> Result<(), AllocError> {
        self.take_out(frame);
        self.write(frame, bytes);
        self.clean.push(frame)?;
        Ok(())
    }

    pub fn write_dirty(
        &mut self,
        frame: u32,
        number: u64,
        bytes: &[u8; 4096],
    ) -> Result<(), AllocError> {
        self.take_out(frame);
        self.write(frame, bytes);
        self.dirty.push((frame, number))?;
        Ok(())
    }

    pub fn evict_front(&mut self) -> Result<Option<u32>, AllocError> {
        let front = self.clean.first().copied();
        if let Some(frame) = front {
            self.release(frame)?;
        }
        Ok(front)
    }

    pub fn pop_clean_through(&mut self, number: u64) -> Result<Option<u32>, AllocError> {
        let Some((frame, kept)) = self.dirty.first().copied() else {
            return Ok(None);
        };
        if number < kept {
            return Ok(None);
        }
        self.take_out(frame);
        self.clean.push(frame)?;
        Ok(Some(frame))
    }
}
