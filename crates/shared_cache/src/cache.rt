ghost use Rattle.std.specs.Prelude.{◌≡◌, ◌≢◌, ◌+◌, ◌<◌, ◌≤◌, ◌^◌, ◌↔◌, true, [], ℕ, All, length, replicate, List, Some, IfOk, IsErr, OnOk, OnErr, slice_index_or, IsTrue};
ghost use Rattle.std.specs.Option.{option_copied};
ghost use Rattle.alloc_map.specs.Codes.{state_at};
ghost use Rattle.image_model.specs.Image.{covers};
ghost use Rattle.image_model.specs.Patched.{patched};
ghost use Rattle.image_model.specs.declared.command.Kind.TheVariants as Kind;
ghost use Rattle.shared_cache.specs.Blocks.{DirtyBlock, HasNoFrame, IsOnce, available_frames, cleaned, count_missing, edges_missing, is_cached, with_fill, with_puts, without};
ghost use Rattle.shared_cache.specs.Cache.{LacksBytes, bytes_seen, with_edges};
ghost use Rattle.shared_cache.specs.View.{ShowsClean, ShowsClear, ShowsEdges, ShowsFill, ShowsPut};
ghost use Rattle.shared_cache.specs.declared.fault.KeepFault.TheVariants as KeepFault;

use crate::cached_blocks::CachedBlocks;
use crate::fault::{KeepFault, Missing};
use alloc_map::AllocMap;
use image_model::Kind;
use std::alloc::{AllocError, Global};
use std::marker::Model;

// A block of zero bytes.
static ZERO_BLOCK: [u8; 4096] = [0; 4096];

/// The current state of each block of an image, and the bytes of those that frames hold. A frame is free, or holds a
/// block that is clean, as the image has it, or dirty, with the number of the command that wrote it.
#[derive(Drop)]
pub struct Cache {
    held: CachedBlocks,
    map: AllocMap,
}

impl Model for Cache {
    ghost use Rattle.shared_cache.specs.Cache.{CacheState, IsCache};
    ghost use Rattle.shared_cache.specs.CachedBlocks.{blocks_of};

    ghost Value = { CacheState };

    ghost view = { λ cache. record { states = cache.map; blocks = blocks_of cache.held.pool cache.held.blocks } };

    ghost invariant = { λ cache. IsCache cache.map cache.held };
}

impl Cache {
    /// A cache of `frames` frames, all of them free, over an image with these states. Refusal 0 (no memory).
    pub fn new(alloc: Global, map: AllocMap, frames: u32) -> Result<Cache, AllocError>
        requires frames { frames + 3 < 2 ^ 31 }
        requires few { length map ≤ 16777216 }
        ensures { IfOk result (λ cache. cache ≡ record { states = map; blocks = record { free = frames; clean = []; dirty = [] } }) }
    {
        Ok(Cache {
            held: CachedBlocks::new(alloc, frames)?,
            map,
        })
    }

    /// The current state of each block.
    pub fn map(&self) -> &AllocMap
        ensures { result.now ≡ self.now.states }
    {
        &self.map
    }

    /// How many blocks are dirty.
    pub fn dirty_blocks(&self) -> u32
        ensures count { result ≡ length self.now.blocks.dirty }
        ensures once { IsOnce self.now.blocks }
    {
        self.held.dirty_blocks()
    }

    /// How many frames hold a block, a clean or a dirty one. No clause says the number.
    pub fn cached_blocks(&self) -> usize {
        self.held.cached_blocks()
    }

    /// Whether there are frames for `count` blocks from `first` on, in addition to the blocks that are dirty.
    pub fn has_frames(&self, first: u64, count: u64) -> bool
        requires range { first + count ≤ length self.now.states }
        ensures enough { IsTrue result ↔ (count_missing first count self.now.blocks ≤ available_frames self.now.blocks) }
        ensures once { IsOnce self.now.blocks }
    {
        // If there are as many available frames as blocks, none has to be looked up.
        let available_frames = self.held.available_frames();
        count <= available_frames || self.held.count_missing(first, count) <= available_frames
    }

    /// Writes blocks from the first one on, with the number of their command, which is at least 1 and no smaller than
    /// those of the blocks that are dirty; they become data. Each takes the frame that it has, else a free one, else
    /// that of the clean front. It is refused with 13 (no frame) exactly where these don't suffice, and with 0 (no
    /// memory); where it is refused nothing has changed.
    pub fn put(&mut self, number: u64, first: u64, blocks: &[[u8; 4096]]) -> Result<(), KeepFault>
        requires range { first + length blocks.now ≤ length self.old.states }
        requires order { All (λ (held : DirtyBlock). held.number ≤ number) self.old.blocks.dirty }
        requires some { 0 < number }
        ensures ok { OnOk result (self.new ≡ record {
          states = patched self.old.states first (replicate (length blocks.now) Kind.Data);
          blocks = with_puts number first blocks.now self.old.blocks;
        }) }
        ensures view { OnOk result (ShowsPut first blocks.now self.old self.new) }
        ensures once { IsOnce self.new.blocks }
        ensures no_frame { (result ≡ Err KeepFault.NoFrame) ↔ (available_frames self.old.blocks < count_missing first (length blocks.now) self.old.blocks) }
        ensures err { OnErr result (self.new ≡ self.old) }
    {
        let count = blocks.len() as u64;
        if !self.has_frames(first, count) {
            return Err(KeepFault::NoFrame);
        }
        self.held.reserve(blocks.len())?;
        self.map.set_range(first, count, Kind::Data);
        self.held.put_all(number, first, blocks);
        Ok(())
    }

    /// Gives `count` blocks from `first` on this state, and frees their frames.
    pub fn clear(&mut self, first: u64, count: u64, kind: Kind)
        requires range { first + count ≤ length self.old.states }
        requires kind { kind ≢ Kind.Data }
        ensures new { self.new ≡ record {
          states = patched self.old.states first (replicate count kind);
          blocks = without (covers first count) self.old.blocks;
        } }
        ensures view { ShowsClear first count kind self.old self.new }
    {
        self.held.release_blocks(first, count);
        self.map.set_range(first, count, kind);
    }

    /// Whether there are frames for the edges of a range, in addition to the blocks that are dirty: `head` blocks at its start,
    /// and `tail` at its end.
    pub fn has_frames_at_edges(&self, first: u64, count: u64, head: u64, tail: u64) -> bool
        requires range { first + count ≤ length self.now.states }
        requires edges { head + tail ≤ count }
        ensures enough { IsTrue result ↔ (edges_missing first count head tail self.now.blocks ≤ available_frames self.now.blocks) }
        ensures once { IsOnce self.now.blocks }
    {
        let at_head = self.held.count_missing(first, head);
        let at_tail = self.held.count_missing(first + count - tail, tail);
        at_head + at_tail <= self.held.available_frames()
    }

    /// Clears `count` blocks from `first` on but for the edges, which are written with the number of their command: the first
    /// blocks with those of `head`, the last with those of `tail`. The blocks between free their frames first. Refusals 13 (no
    /// frame), exactly when a put of the edges alone would get it, and 0 (no memory); both change nothing.
    pub fn clear_between(
        &mut self,
        number: u64,
        first: u64,
        count: u64,
        kind: Kind,
        head: &[[u8; 4096]],
        tail: &[[u8; 4096]],
    ) -> Result<(), KeepFault>
        requires range { first + count ≤ length self.old.states }
        requires edges { length head.now + length tail.now ≤ count }
        requires kind { kind ≢ Kind.Data }
        requires order { All (λ (held : DirtyBlock). held.number ≤ number) self.old.blocks.dirty }
        requires some { 0 < number }
        ensures ok { OnOk result (self.new ≡ with_edges number first count kind head.now tail.now self.old) }
        ensures view { OnOk result (ShowsEdges first count kind head.now tail.now self.old self.new) }
        ensures once { IsOnce self.new.blocks }
        ensures no_frame { (result ≡ Err KeepFault.NoFrame) ↔ (available_frames self.old.blocks < edges_missing first count (length head.now) (length tail.now) self.old.blocks) }
        ensures err { OnErr result (self.new ≡ self.old) }
    {
        if !self.has_frames_at_edges(first, count, head.len() as u64, tail.len() as u64) {
            return Err(KeepFault::NoFrame);
        }
        let between = first + head.len() as u64;
        let behind = first + count - tail.len() as u64;
        self.held.reserve(head.len() + tail.len())?;
        self.held.release_blocks(between, behind - between);
        self.held.put_all(number, first, head);
        self.held.put_all(number, behind, tail);
        self.map.set_range(between, behind - between, kind);
        self.map.set_range(first, head.len() as u64, Kind::Data);
        self.map.set_range(behind, tail.len() as u64, Kind::Data);
        Ok(())
    }

    /// Keeps a block of data that was read from the image, in a free frame, else in that of the clean front; one that
    /// is held already stays as it is. It is refused with 13 (no frame) exactly where neither is there, and with 0
    /// (no memory); where it is refused nothing has changed.
    pub fn fill(&mut self, block: u64, bytes: &[u8; 4096]) -> Result<(), KeepFault>
        requires range { block < length self.old.states }
        requires data { state_at self.old.states block ≡ Kind.Data }
        ensures ok { OnOk result (self.new ≡ record { states = self.old.states; blocks = with_fill block bytes.now self.old.blocks }) }
        ensures view { OnOk result (ShowsFill block bytes.now self.old self.new) }
        ensures hit { is_cached block self.old.blocks ≡ true → self.new ≡ self.old }
        ensures no_frame { (result ≡ Err KeepFault.NoFrame) ↔ HasNoFrame block self.old.blocks }
        ensures err { OnErr result (self.new ≡ self.old) }
    {
        if self.held.available_frames() == 0 && !self.held.is_dirty(block) {
            return Err(KeepFault::NoFrame);
        }
        self.held.reserve(1)?;
        let Ok(()) = self.held.fill(block, bytes) else {
            return Err(KeepFault::NoFrame);
        };
        Ok(())
    }

    /// Makes the dirty blocks up to this number clean, in their order.
    pub fn clean_through(&mut self, number: u64)
        ensures new { self.new ≡ record { states = self.old.states; blocks = cleaned number self.old.blocks } }
        ensures view { ShowsClean number self.old self.new }
    {
        self.held.clean_through(number);
    }

    /// Reads blocks from the first one on: the bytes of its frame for one that is data, else zero. It is refused with
    /// 14 (missing block) exactly where one that is data has no frame; the slice then holds any bytes.
    ///
    /// The server reads block by block and doesn't call it. It is for callers that want a range or nothing.
    pub fn read_cached(&self, first: u64, into: &mut [[u8; 4096]]) -> Result<(), Missing>
        requires range { first + length into.old ≤ length self.now.states }
        ensures ok { OnOk result ((k : ℕ) (d : List ℕ) → k < length into.new → bytes_seen self.now (first + k) ≡ Some (slice_index_or into.new k d)) }
        ensures missing { IsErr result ↔ LacksBytes self.now first (length into.old) }
    {
        // Looked at for the proof alone, which reads the invariant of the map.
        let _ = &self.map;
        for (offset, block) in into.iter_mut().enumerate() {
            let Some(bytes) = self.read(first + offset as u64) else {
                return Err(Missing);
            };
            *block = *bytes;
        }
        Ok(())
    }

    /// The bytes of a block, where they are in memory: of one that is data those of its frame, of another one zeros.
    pub fn read(&self, block: u64) -> Option<&[u8; 4096]>
        requires { block < length self.now.states }
        ensures { option_copied result ≡ bytes_seen self.now block }
    {
        match self.map.state(block) {
            Kind::Data => self.held.bytes(block),
            Kind::Zero => Some(&ZERO_BLOCK),
            Kind::Hole => Some(&ZERO_BLOCK),
        }
    }
}
