ghost use Rattle.std.specs.Prelude.{◌≡◌, ◌==◌, true, if◌then◌else◌, ◌+◌, ◌<◌, ◌≤◌, ◌^◌, [], ℕ, All, length, slice_set, IfOk, IfNone, IfSome, IsErr, OnOk, OnErr, ◌↔◌};
ghost use Rattle.std.specs.Option.{option_copied};
ghost use Rattle.frame_pool.specs.Lists.{times};
ghost use Rattle.frame_pool.specs.Pool.{DirtyFrame, front_through, with_bytes, with_clean, with_dirty, with_free};
ghost use Rattle.shared_cache.specs.Blocks.{HasNoFrame, available_frames, bytes_of, cleaned, count_missing, is_dirty, with_fill, with_put, with_puts, without};
ghost use Rattle.shared_cache.specs.inner.Blocks.{evicted, taken_leaves, IsMissing};
ghost use Rattle.image_model.specs.Image.{covers};
ghost use Rattle.shared_cache.specs.CachedBlocks.{IsHeld, block_at, blocks_of, held_times};

use crate::index;
use frame_pool::{FramePool, NoFrame};
use std::alloc::{AllocError, Global};
use std::collections::HashMap;
use std::marker::Model;

// Frames that hold blocks, and which frame holds a block.
#[derive(Drop)]
pub struct CachedBlocks {
    pool: FramePool,
    blocks: Vec<u64>,
    frames: HashMap<u64, u32>,
}

// In contracts these are the pool and the block of each frame.
impl Model for CachedBlocks {
    ghost use Rattle.std.specs.Prelude.{nat_eq};
    ghost use Rattle.std.specs.HashMap as hash;
    ghost use Rattle.shared_cache.specs.CachedBlocks.{CachedState, IsIndexed};

    ghost Value = { CachedState };

    ghost view = { λ held. record { pool = held.pool; blocks = held.blocks.items; spare = hash.spare held.frames } };

    ghost invariant = { λ held. IsIndexed held.pool held.blocks.items (hash.get nat_eq held.frames) };
}

impl CachedBlocks {
    // This many frames that hold no blocks, with room in the index for a block of each.
    pub fn new(alloc: Global, frames: u32) -> Result<CachedBlocks, AllocError>
        requires { frames + 3 < 2 ^ 31 }
        ensures blocks { IfOk result (λ held. blocks_of held.pool held.blocks ≡ record { free = frames; clean = []; dirty = [] }) }
        ensures held { IfOk result IsHeld }
        ensures spare { IfOk result (λ held. frames ≤ held.spare) }
    {
        Ok(CachedBlocks {
            pool: FramePool::new(alloc, frames)?,
            blocks: vec![in alloc; 0; frames as usize]?,
            frames: HashMap::with_capacity(alloc, frames as usize)?,
        })
    }

    // Makes room for this many blocks more.
    pub fn reserve(&mut self, count: usize) -> Result<(), AllocError>
        ensures room { OnOk result (count ≤ self.new.spare) }
        ensures enough { count ≤ self.old.spare → OnErr result ⊥ }
        ensures pool { self.new.pool ≡ self.old.pool }
        ensures blocks { self.new.blocks ≡ self.old.blocks }
        ensures held { IsHeld self.new }
    {
        self.frames.reserve(count)
    }

    // The frame that holds a block.
    fn frame_of(&self, block: u64) -> Option<u32>
        ensures found { IfSome result (λ frame. (1 ≤ held_times frame self.now.pool) × (block_at self.now.blocks frame ≡ block)) }
        ensures missing { IfNone result (IsMissing block self.now) }
        ensures held { IsHeld self.now }
    {
        self.frames.get(&block).copied()
    }

    // Frees a frame; its block is in memory no longer.
    fn free_frame(&mut self, frame: u32)
        requires { 1 ≤ held_times frame self.old.pool }
        ensures pool { self.new.pool ≡ with_free frame self.old.pool }
        ensures blocks { self.new.blocks ≡ self.old.blocks }
        ensures spare { self.old.spare ≤ self.new.spare }
        ensures held { IsHeld self.new }
    {
        index::unset(&mut self.frames, self.blocks[frame as usize]);
        self.pool.release(frame);
    }

    // Holds a block in a frame that is free; it is dirty.
    fn assign_dirty(&mut self, frame: u32, block: u64, number: u64, bytes: &[u8; 4096])
        requires free { 1 ≤ times frame self.old.pool.free }
        requires missing { IsMissing block self.old }
        requires order { All (λ (held : DirtyFrame). held.number ≤ number) self.old.pool.dirty }
        requires some { 0 < number }
        requires room { 0 < self.old.spare }
        ensures pool { self.new.pool ≡ with_bytes frame bytes.now (with_dirty frame number self.old.pool) }
        ensures blocks { self.new.blocks ≡ slice_set self.old.blocks frame block }
        ensures spare { self.old.spare ≤ self.new.spare + 1 }
        ensures held { IsHeld self.new }
    {
        index::set(&mut self.frames, block, frame);
        self.blocks[frame as usize] = block;
        self.pool.write_dirty(frame, number, bytes);
    }

    // Writes the block that a frame holds again; it is dirty.
    fn write_again(&mut self, frame: u32, number: u64, bytes: &[u8; 4096])
        requires held { 1 ≤ held_times frame self.old.pool }
        requires order { All (λ (held : DirtyFrame). held.number ≤ number) self.old.pool.dirty }
        requires some { 0 < number }
        ensures pool { self.new.pool ≡ with_bytes frame bytes.now (with_dirty frame number self.old.pool) }
        ensures blocks { self.new.blocks ≡ self.old.blocks }
        ensures spare { self.new.spare ≡ self.old.spare }
        ensures held { IsHeld self.new }
    {
        self.pool.write_dirty(frame, number, bytes);
    }

    // Holds a block in a frame that is free; it is clean.
    fn assign_clean(&mut self, frame: u32, block: u64, bytes: &[u8; 4096])
        requires free { 1 ≤ times frame self.old.pool.free }
        requires missing { IsMissing block self.old }
        requires room { 0 < self.old.spare }
        ensures pool { self.new.pool ≡ with_bytes frame bytes.now (with_clean frame self.old.pool) }
        ensures blocks { self.new.blocks ≡ slice_set self.old.blocks frame block }
        ensures spare { self.old.spare ≤ self.new.spare + 1 }
        ensures held { IsHeld self.new }
    {
        index::set(&mut self.frames, block, frame);
        self.blocks[frame as usize] = block;
        self.pool.write_clean(frame, bytes);
    }

    // The front of the dirty frames becomes clean, where its number is at most this one.
    fn clean_front(&mut self, number: u64) -> Option<u32>
        ensures front { result ≡ front_through number self.old.pool.dirty }
        ensures pool { IfSome result (λ frame. self.new.pool ≡ with_clean frame self.old.pool) }
        ensures none { IfNone result (self.new.pool ≡ self.old.pool) }
        ensures blocks { self.new.blocks ≡ self.old.blocks }
        ensures spare { self.new.spare ≡ self.old.spare }
        ensures held { IsHeld self.new }
    {
        self.pool.pop_clean_through(number)
    }

    // Frees the frame at the front of the clean ones. Its block is in memory no longer.
    fn evict(&mut self) -> Result<u32, NoFrame>
        ensures free { IfOk result (λ frame. 1 ≤ times frame self.new.pool.free) }
        ensures front { IfOk result (λ frame. blocks_of self.new.pool self.new.blocks ≡ evicted (blocks_of self.old.pool self.old.blocks)) }
        ensures held_left { (frame : ℕ) → 1 ≤ held_times frame self.new.pool → 1 ≤ held_times frame self.old.pool }
        ensures blocks { self.new.blocks ≡ self.old.blocks }
        ensures dirty { self.new.pool.dirty ≡ self.old.pool.dirty }
        ensures no_frame { IsErr result ↔ (self.old.pool.clean ≡ []) }
        ensures err { OnErr result (self.new ≡ self.old) }
        ensures spare { self.old.spare ≤ self.new.spare }
        ensures held { IsHeld self.new }
    {
        let frame = self.pool.evict_front()?;
        index::unset(&mut self.frames, self.blocks[frame as usize]);
        Ok(frame)
    }

    // Whether a dirty frame holds a block.
    pub fn is_dirty(&self, block: u64) -> bool
        ensures { result ≡ is_dirty block (blocks_of self.now.pool self.now.blocks) }
    {
        match self.frame_of(block) {
            Some(frame) => self.pool.is_dirty(frame),
            None => false,
        }
    }

    // A frame that holds no block: a free one, else that of the clean front.
    fn take(&mut self) -> Result<u32, NoFrame>
        ensures free { IfOk result (λ frame. 1 ≤ times frame self.new.pool.free) }
        ensures taken { OnOk result (taken_leaves (blocks_of self.old.pool self.old.blocks) (blocks_of self.new.pool self.new.blocks)) }
        ensures held_left { (frame : ℕ) → 1 ≤ held_times frame self.new.pool → 1 ≤ held_times frame self.old.pool }
        ensures blocks { self.new.blocks ≡ self.old.blocks }
        ensures dirty { self.new.pool.dirty ≡ self.old.pool.dirty }
        ensures no_frame { IsErr result ↔ ((self.old.pool.free ≡ []) × (self.old.pool.clean ≡ [])) }
        ensures err { OnErr result (self.new ≡ self.old) }
        ensures spare { self.old.spare ≤ self.new.spare }
        ensures held { IsHeld self.new }
    {
        match self.pool.take_free() {
            Ok(frame) => Ok(frame),
            Err(NoFrame) => self.evict(),
        }
    }

    // Writes a block, for whose frame there is room: in its own frame, else in one that is taken.
    pub fn put(&mut self, block: u64, number: u64, bytes: &[u8; 4096])
        requires frames { count_missing block 1 (blocks_of self.old.pool self.old.blocks) ≤ available_frames (blocks_of self.old.pool self.old.blocks) }
        requires order { All (λ (held : DirtyFrame). held.number ≤ number) self.old.pool.dirty }
        requires some { 0 < number }
        requires room { 0 < self.old.spare }
        ensures blocks { blocks_of self.new.pool self.new.blocks ≡ with_put number block bytes.now (blocks_of self.old.pool self.old.blocks) }
        ensures order { All (λ (held : DirtyFrame). held.number ≤ number) self.new.pool.dirty }
        ensures spare { self.old.spare ≤ self.new.spare + 1 }
        ensures held { IsHeld self.new }
    {
        match self.frame_of(block) {
            Some(frame) => self.write_again(frame, number, bytes),
            None => {
                let Ok(frame) = self.take() else {
                    unreachable!();
                };
                self.assign_dirty(frame, block, number, bytes);
            }
        }
    }

    // Keeps a block that was read, in a frame that is taken; one that is held stays as it is.
    pub fn fill(&mut self, block: u64, bytes: &[u8; 4096]) -> Result<(), NoFrame>
        requires room { 0 < self.old.spare }
        ensures ok { OnOk result (blocks_of self.new.pool self.new.blocks ≡ with_fill block bytes.now (blocks_of self.old.pool self.old.blocks)) }
        ensures no_frame { IsErr result ↔ HasNoFrame block (blocks_of self.old.pool self.old.blocks) }
        ensures err { OnErr result (self.new ≡ self.old) }
        ensures held { IsHeld self.new }
    {
        match self.frame_of(block) {
            Some(_) => Ok(()),
            None => {
                let frame = match self.take() {
                    Ok(frame) => frame,
                    Err(NoFrame) => return Err(NoFrame),
                };
                self.assign_clean(frame, block, bytes);
                Ok(())
            }
        }
    }

    // Frees the frame of a block, if it has one.
    pub fn release(&mut self, block: u64)
        ensures blocks { blocks_of self.new.pool self.new.blocks ≡ without (λ other. other == block) (blocks_of self.old.pool self.old.blocks) }
        ensures missing { IsMissing block self.new }
        ensures held_left { (frame : ℕ) → 1 ≤ held_times frame self.new.pool → 1 ≤ held_times frame self.old.pool }
        ensures kept { self.new.blocks ≡ self.old.blocks }
        ensures spare { self.old.spare ≤ self.new.spare }
        ensures held { IsHeld self.new }
    {
        match self.frame_of(block) {
            Some(frame) => self.free_frame(frame),
            None => {}
        }
    }

    // How many of this many blocks from the first one on aren't dirty.
    pub fn count_missing(&self, first: u64, count: u64) -> u64
        requires { first + count < 2 ^ 64 }
        ensures count { result ≡ count_missing first count (blocks_of self.now.pool self.now.blocks) }
        ensures few { result ≤ count }
    {
        let mut missing = 0;
        for offset in 0..count {
            missing += self.missing_one(first + offset);
        }
        missing
    }

    // 1 for a block that isn't dirty, 0 for one that is.
    fn missing_one(&self, block: u64) -> u64
        ensures { result ≡ (if is_dirty block (blocks_of self.now.pool self.now.blocks) then 0 else 1) }
    {
        if self.is_dirty(block) { 0 } else { 1 }
    }

    // How many frames hold no dirty block.
    pub fn available_frames(&self) -> u64
        ensures { result ≡ available_frames (blocks_of self.now.pool self.now.blocks) }
    {
        u64::from(self.pool.frames() - self.pool.dirty_frames())
    }

    // How many blocks are dirty.
    pub fn dirty_blocks(&self) -> u32
        ensures { result ≡ length (blocks_of self.now.pool self.now.blocks).dirty }
    {
        self.pool.dirty_frames()
    }

    // How many blocks are held, clean ones and dirty ones.
    pub fn cached_blocks(&self) -> usize {
        self.frames.len()
    }

    // Writes the blocks from the first one on, for whose frames there is room.
    pub fn put_all(&mut self, number: u64, first: u64, blocks: &[[u8; 4096]])
        requires range { first + length blocks.now < 2 ^ 64 }
        requires frames { count_missing first (length blocks.now) (blocks_of self.old.pool self.old.blocks)
            ≤ available_frames (blocks_of self.old.pool self.old.blocks) }
        requires order { All (λ (held : DirtyFrame). held.number ≤ number) self.old.pool.dirty }
        requires some { 0 < number }
        requires room { length blocks.now ≤ self.old.spare }
        requires held { IsHeld self.old }
        ensures blocks { blocks_of self.new.pool self.new.blocks ≡ with_puts number first blocks.now (blocks_of self.old.pool self.old.blocks) }
        ensures order { All (λ (held : DirtyFrame). held.number ≤ number) self.new.pool.dirty }
        ensures spare { self.old.spare ≤ self.new.spare + length blocks.now }
        ensures held { IsHeld self.new }
    {
        for (offset, bytes) in blocks.iter().enumerate() {
            self.put(first + offset as u64, number, bytes);
        }
    }

    // Frees the frames of this many blocks from the first one on, by as many steps as there are blocks in the range, or frames.
    pub fn release_blocks(&mut self, first: u64, count: u64)
        requires range { first + count < 2 ^ 64 }
        requires held { IsHeld self.old }
        ensures blocks { blocks_of self.new.pool self.new.blocks ≡ without (covers first count) (blocks_of self.old.pool self.old.blocks) }
        ensures spare { self.old.spare ≤ self.new.spare }
        ensures held { IsHeld self.new }
    {
        if count <= u64::from(self.pool.frames()) {
            self.release_range(first, count);
        } else {
            self.release_frames(first, count);
        }
    }

    // Frees the frames of this many blocks from the first one on, by a look at each of them.
    fn release_range(&mut self, first: u64, count: u64)
        requires range { first + count < 2 ^ 64 }
        requires held { IsHeld self.old }
        ensures blocks { blocks_of self.new.pool self.new.blocks ≡ without (covers first count) (blocks_of self.old.pool self.old.blocks) }
        ensures spare { self.old.spare ≤ self.new.spare }
        ensures held { IsHeld self.new }
    {
        for offset in 0..count {
            self.release(first + offset);
        }
    }

    // Frees the same, by a look at each frame.
    fn release_frames(&mut self, first: u64, count: u64)
        requires range { first + count < 2 ^ 64 }
        requires held { IsHeld self.old }
        ensures blocks { blocks_of self.new.pool self.new.blocks ≡ without (covers first count) (blocks_of self.old.pool self.old.blocks) }
        ensures spare { self.old.spare ≤ self.new.spare }
        ensures held { IsHeld self.new }
    {
        for frame in 0..self.pool.frames() {
            let block = self.blocks[frame as usize];
            self.release_inside(block, first, count);
        }
    }

    // Frees the frame of a block, if it is one of `count` blocks from `first` on.
    fn release_inside(&mut self, block: u64, first: u64, count: u64)
        requires range { first + count < 2 ^ 64 }
        requires held { IsHeld self.old }
        ensures left { without (covers first count) (blocks_of self.new.pool self.new.blocks)
            ≡ without (covers first count) (blocks_of self.old.pool self.old.blocks) }
        ensures missing { covers first count block ≡ true → IsMissing block self.new }
        ensures held_left { (frame : ℕ) → 1 ≤ held_times frame self.new.pool → 1 ≤ held_times frame self.old.pool }
        ensures kept { self.new.blocks ≡ self.old.blocks }
        ensures spare { self.old.spare ≤ self.new.spare }
        ensures held { IsHeld self.new }
    {
        if first <= block && block < first + count {
            self.release(block);
        }
    }

    // Makes the dirty blocks up to this number clean.
    pub fn clean_through(&mut self, number: u64)
        requires { IsHeld self.old }
        ensures blocks { blocks_of self.new.pool self.new.blocks ≡ cleaned number (blocks_of self.old.pool self.old.blocks) }
        ensures held { IsHeld self.new }
    {
        while let Some(_) = self.clean_front(number) {}
    }

    // The bytes of a block that is held.
    pub fn bytes(&self, block: u64) -> Option<&[u8; 4096]>
        requires { IsHeld self.now }
        ensures { option_copied result ≡ bytes_of block (blocks_of self.now.pool self.now.blocks) }
    {
        match self.frame_of(block) {
            Some(frame) => Some(self.pool.bytes(frame)),
            None => None,
        }
    }
}
