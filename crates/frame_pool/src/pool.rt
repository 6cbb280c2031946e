ghost use Rattle.std.specs.Prelude.{◌≡◌, ◌+◌, ◌<◌, ◌≤◌, ◌^◌, ◌↔◌, [], All, length, replicate, slice_get, slice_set, IfOk, IfNone, IfSome, IsErr, OnErr, Some};
ghost use Rattle.std.specs.List.{range_with_len};
ghost use Rattle.frame_pool.specs.Lists.{moved, total};
ghost use Rattle.frame_pool.specs.Numbers.{kept_at, one_if_kept};
ghost use Rattle.frame_pool.specs.Pool.{DirtyFrame, IsPool, front_through, is_dirty, with_bytes, with_clean, with_dirty, with_free};

use crate::fault::NoFrame;
use crate::frames::Frames;
use crate::lists::FrameLists;
use crate::place::Place;
use std::alloc::{AllocError, Global};
use std::marker::Model;

/// Frames of 4,096 bytes, named by their numbers from 0 on. Each is in one of three lists: free, clean, or dirty with a
/// number. Every call but `new` takes the same few steps however many frames there are, beside the copy of a frame's
/// bytes, and no memory; a pool takes 4,096 bytes a frame, which aren't touched before it is written, and 17 more.
#[derive(Drop)]
pub struct FramePool {
    lists: FrameLists,
    dirty: u32,
    frames: Frames,
}

// In contracts a pool is its three lists, each from front to back, and the bytes of each frame.
impl Model for FramePool {
    ghost use Rattle.std.specs.Prelude.{length, map};
    ghost use Rattle.frame_pool.specs.Frames.{HaveBytes, shown};
    ghost use Rattle.frame_pool.specs.Pool.{PoolState};
    ghost use Rattle.frame_pool.specs.Numbers.{AreNumbered, pool_of};

    ghost Value = { PoolState };

    ghost view = { λ pool. pool_of pool.lists.linked pool.lists.numbers (map shown pool.frames) };

    ghost invariant = { λ pool. AreNumbered (length pool.frames) pool.lists.linked pool.lists.numbers pool.dirty × HaveBytes pool.lists.linked pool.frames };
}

// Moves a frame to the back of a list, with this number or none, and counts the frames that have one.
fn move_to(lists: &mut FrameLists, count: &mut u32, frame: u32, place: Place, number: Option<u64>)
    requires frame { frame < total lists.old.linked }
    requires counted { one_if_kept (kept_at lists.old.numbers frame) ≤ count.old }
    requires few { count.old + 1 < 2 ^ 32 }
    requires some { IfSome number (λ n. 0 < n) }
    ensures lists { lists.new ≡ record { linked = moved lists.old.linked frame place; numbers = slice_set lists.old.numbers frame number } }
    ensures count { count.new + one_if_kept (kept_at lists.old.numbers frame) ≡ count.old + one_if_kept number }
{
    if number.is_some() {
        *count += 1;
    }
    if lists.number(frame).is_some() {
        *count -= 1;
    }
    lists.set_number(frame, number);
    lists.move_to(frame, place);
}

impl FramePool {
    /// `frames` frames, all of them free, in ascending order, with zero bytes. Refusal 0 (no memory).
    pub fn new(alloc: Global, frames: u32) -> Result<FramePool, AllocError>
        requires { frames + 3 < 2 ^ 31 }
        ensures made { IfOk result (λ pool. pool ≡ record {
          free = range_with_len 0 frames;
          clean = [];
          dirty = [];
          bytes = replicate frames (replicate 4096 0);
        }) }
        ensures pool { IfOk result (λ made. IsPool made) }
    {
        Ok(FramePool {
            lists: FrameLists::new(alloc, frames)?,
            dirty: 0,
            frames: Frames::new(alloc, frames)?,
        })
    }

    /// How many frames there are.
    pub fn frames(&self) -> u32
        ensures frames { result ≡ length self.now.bytes }
        ensures pool { IsPool self.now }
    {
        self.lists.total()
    }

    /// How many frames are dirty.
    pub fn dirty_frames(&self) -> u32
        ensures { result ≡ length self.now.dirty }
    {
        self.dirty
    }

    /// Whether a frame is dirty.
    pub fn is_dirty(&self, frame: u32) -> bool
        requires { frame < length self.now.bytes }
        ensures { result ≡ is_dirty frame self.now.dirty }
    {
        self.lists.number(frame).is_some()
    }

    /// The bytes that were last written to a frame.
    pub fn bytes(&self, frame: u32) -> &[u8; 4096]
        requires { frame < length self.now.bytes }
        ensures { slice_get self.now.bytes frame ≡ Some result.now }
    {
        self.frames.bytes(frame)
    }

    /// The front of the free frames, which stays there until it is written. Refusal 13 (no frame) where none is free.
    pub fn take_free(&self) -> Result<u32, NoFrame>
        ensures front { IfOk result (λ frame. slice_get self.now.free 0 ≡ Some frame) }
        ensures inside { IfOk result (λ frame. frame < length self.now.bytes) }
        ensures no_frame { IsErr result ↔ (self.now.free ≡ []) }
    {
        self.lists.front(Place::Free).ok_or(NoFrame)
    }

    /// Moves the front of the clean frames to the back of the free ones, and names it. Refusal 13 (no frame) where none is
    /// clean, and then nothing has changed.
    pub fn evict_front(&mut self) -> Result<u32, NoFrame>
        ensures front { IfOk result (λ frame. slice_get self.old.clean 0 ≡ Some frame) }
        ensures inside { IfOk result (λ frame. frame < length self.old.bytes) }
        ensures moved { IfOk result (λ frame. self.new ≡ with_free frame self.old) }
        ensures no_frame { IsErr result ↔ (self.old.clean ≡ []) }
        ensures err { OnErr result (self.new ≡ self.old) }
        ensures pool { IsPool self.new }
    {
        let frame = self.lists.front(Place::Clean).ok_or(NoFrame)?;
        self.release(frame);
        Ok(frame)
    }

    /// Moves a frame from where it is to the back of the free ones. Its bytes stay until it is written.
    pub fn release(&mut self, frame: u32)
        requires { frame < length self.old.bytes }
        ensures moved { self.new ≡ with_free frame self.old }
        ensures pool { IsPool self.new }
    {
        move_to(&mut self.lists, &mut self.dirty, frame, Place::Free, None);
    }

    /// Writes a frame, and moves it from where it is to the back of the clean ones.
    pub fn write_clean(&mut self, frame: u32, bytes: &[u8; 4096])
        requires { frame < length self.old.bytes }
        ensures written { self.new ≡ with_bytes frame bytes.now (with_clean frame self.old) }
        ensures pool { IsPool self.new }
    {
        self.frames.write(frame, bytes);
        move_to(&mut self.lists, &mut self.dirty, frame, Place::Clean, None);
    }

    /// Writes a frame, and moves it from where it is to the back of the dirty ones, with this number, which is at
    /// least 1 and no smaller than the others there.
    pub fn write_dirty(&mut self, frame: u32, number: u64, bytes: &[u8; 4096])
        requires frame { frame < length self.old.bytes }
        requires order { All (λ (held : DirtyFrame). held.number ≤ number) self.old.dirty }
        requires some { 0 < number }
        ensures written { self.new ≡ with_bytes frame bytes.now (with_dirty frame number self.old) }
        ensures pool { IsPool self.new }
    {
        self.frames.write(frame, bytes);
        move_to(
            &mut self.lists,
            &mut self.dirty,
            frame,
            Place::Dirty,
            Some(number),
        );
    }

    /// Moves the front of the dirty frames to the back of the clean ones where its number is at most this one, and names
    /// it.
    pub fn pop_clean_through(&mut self, number: u64) -> Option<u32>
        ensures front { result ≡ front_through number self.old.dirty }
        ensures inside { IfSome result (λ frame. frame < length self.old.bytes) }
        ensures moved { IfSome result (λ frame. self.new ≡ with_clean frame self.old) }
        ensures none { IfNone result (self.new ≡ self.old) }
        ensures pool { IsPool self.new }
    {
        let frame = self.front_through(number)?;
        move_to(&mut self.lists, &mut self.dirty, frame, Place::Clean, None);
        Some(frame)
    }

    // The front of the dirty frames, where its number is at most this one.
    fn front_through(&self, number: u64) -> Option<u32>
        ensures front { result ≡ front_through number self.now.dirty }
        ensures inside { IfSome result (λ frame. frame < length self.now.bytes) }
        ensures pool { IsPool self.now }
    {
        let frame = self.lists.front(Place::Dirty)?;
        let kept = self.lists.number(frame).unwrap_or(0);
        if kept <= number { Some(frame) } else { None }
    }
}
