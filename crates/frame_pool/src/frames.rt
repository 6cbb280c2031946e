ghost use Rattle.std.specs.Prelude.{◌≡◌, ◌<◌, length, replicate, slice_index_or, slice_set, is_some, IfOk, Some, None};
ghost use Rattle.frame_pool.specs.inner.Frames.{shown_at};

use crate::region::Region;
use std::alloc::{AllocError, Global};
use std::marker::Model;

// What a frame shows that was never written.
static ZERO_BYTES: [u8; 4096] = [0; 4096];

// The bytes of each frame. Their memory isn't touched before a frame is written, so that the bytes which lie in one that
// never was aren't bytes that anybody may read: it shows zeros that lie elsewhere.
#[derive(Drop)]
pub struct Frames {
    region: Region<[u8; 4096]>,
    written: Vec<bool>,
}

// In contracts these are the bytes of each frame, or none.
impl Model for Frames {
    ghost use Rattle.std.specs.Prelude.{ℕ, List, Option, ◌≡◌, map, is_some};

    ghost Value = { List (Option (List ℕ)) };

    ghost view = { λ frames. frames.region };

    ghost invariant = { λ frames. frames.written.items ≡ map is_some frames.region };
}

impl Frames {
    // This many frames, none of which has bytes.
    pub fn new(alloc: Global, frames: u32) -> Result<Frames, AllocError>
        ensures { IfOk result (λ made. made ≡ replicate frames None) }
    {
        Ok(Frames {
            region: Region::new(alloc, frames as usize)?,
            written: vec![in alloc; false; frames as usize]?,
        })
    }

    // Whether a frame has bytes.
    fn is_written(&self, frame: u32) -> bool
        requires { frame < length self.now }
        ensures { result ≡ is_some (slice_index_or self.now frame None) }
    {
        self.written[frame as usize]
    }

    // The bytes of a frame, or zeros where it has none.
    pub fn bytes(&self, frame: u32) -> &[u8; 4096]
        requires { frame < length self.now }
        ensures { result.now ≡ shown_at self.now frame }
    {
        if self.is_written(frame) {
            self.region.get(frame as usize)
        } else {
            &ZERO_BYTES
        }
    }

    // Gives a frame these bytes.
    pub fn write(&mut self, frame: u32, bytes: &[u8; 4096])
        requires { frame < length self.old }
        ensures { self.new ≡ slice_set self.old frame (Some bytes.now) }
    {
        if self.is_written(frame) {
            self.region.write_over(frame as usize, bytes);
        } else {
            self.region.write(frame as usize, *bytes);
            self.written[frame as usize] = true;
        }
    }
}
