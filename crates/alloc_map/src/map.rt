ghost use Rattle.std.specs.Prelude.{◌≡◌, ◌+◌, ◌*◌, ◌<◌, ◌≤◌, ◌↔◌, count_by, length, replicate, IfOk, IsErr};
ghost use Rattle.alloc_map.specs.Codes.{is_state, state_at};
ghost use Rattle.alloc_map.specs.Map.{IsMapOf, IsBadMap};
ghost use Rattle.alloc_map.specs.Runs.{AreRuns, IsRun};
ghost use Rattle.image_model.specs.Geometry.{map_bytes_of};
ghost use Rattle.image_model.specs.Patched.{patched};
ghost use Rattle.image_model.specs.declared.command.Kind.TheVariants as Kind;

use crate::codes::{code_in, code_of, has_good_codes, run_end, set_codes};
use crate::fault::BadMap;
use crate::run::Run;
use image_model::Kind;
use std::alloc::{AllocError, Global};
use std::marker::Model;

/// The states of an image's blocks, kept in the bytes of a map slot.
pub struct AllocMap {
    blocks: u64,
    bytes: Vec<u8>,
}

// Written out, it is proved once, and not again in each function that lets a map go.
impl Drop for AllocMap {
    fn drop(self) {
        let AllocMap {
            blocks: _,
            bytes: _,
        } = self;
    }
}

// In contracts a map is the list of the states, block after block.
impl Model for AllocMap {
    ghost use Rattle.std.specs.Prelude.{List};
    ghost use Rattle.image_model.specs.declared.command.Kind.{Kind};
    ghost use Rattle.alloc_map.specs.Codes.{states_of};
    ghost use Rattle.alloc_map.specs.Map.{IsMap};

    ghost Value = { List Kind };

    ghost view = { λ map. states_of map.blocks map.bytes.items };

    ghost invariant = { λ map. IsMap map.blocks map.bytes.items };
}

// The bytes of the map of this many blocks.
fn map_bytes(blocks: u64) -> usize
    requires { blocks ≤ 16777216 }
    ensures { result ≡ map_bytes_of blocks }
{
    4096 * blocks.div_ceil(16384) as usize
}

impl AllocMap {
    /// The map of an image of `blocks` blocks, all of them holes. Refusal 0 (no memory).
    pub fn new(alloc: Global, blocks: u64) -> Result<AllocMap, AllocError>
        requires { blocks ≤ 16777216 }
        ensures { IfOk result (λ map. map ≡ replicate blocks Kind.Hole) }
    {
        Ok(AllocMap {
            blocks,
            bytes: vec![in alloc; 0; map_bytes(blocks)]?,
        })
    }

    /// The map of an image of `blocks` blocks, read from the bytes of a map slot, which it keeps. It looks at them in the
    /// steps of `runs`, and takes no memory. Refusal 6 (bad map).
    pub fn from_bytes(blocks: u64, bytes: Vec<u8>) -> Result<AllocMap, BadMap>
        requires few { blocks ≤ 16777216 }
        requires size { length bytes.items ≡ map_bytes_of blocks }
        ensures blocks { IfOk result (λ map. length map ≡ blocks) }
        ensures states { IfOk result (λ map. IsMapOf bytes.items map) }
        ensures bad_map { IsErr result ↔ IsBadMap blocks bytes.items }
    {
        if !has_good_codes(blocks, &bytes) {
            return Err(BadMap);
        }
        Ok(AllocMap { blocks, bytes })
    }

    /// The bytes of a map slot that holds this map.
    pub fn bytes(&self) -> &[u8]
        ensures { IsMapOf result.now self.now }
    {
        &self.bytes
    }

    /// A copy of the bytes of a map slot that holds this map. Refusal 0 (no memory).
    ///
    /// The server writes `bytes` and doesn't call it. It is for callers that keep the bytes, and read them by `from_bytes`.
    pub fn to_bytes(&self, alloc: Global) -> Result<Vec<u8>, AllocError>
        ensures { IfOk result (λ bytes. IsMapOf bytes.items self.now) }
    {
        let copied = Vec::from_slice(alloc, &self.bytes)?;
        Ok(copied)
    }

    /// Another map of the same states. Refusal 0 (no memory).
    pub fn copy(&self, alloc: Global) -> Result<AllocMap, AllocError>
        ensures { IfOk result (λ map. map ≡ self.now) }
    {
        Ok(AllocMap {
            blocks: self.blocks,
            bytes: Vec::from_slice(alloc, &self.bytes)?,
        })
    }

    /// How many blocks there are.
    pub fn blocks(&self) -> u64
        ensures { result ≡ length self.now }
    {
        self.blocks
    }

    /// The state of a block.
    pub fn state(&self, block: u64) -> Kind
        requires { block < length self.now }
        ensures { result ≡ state_at self.now block }
    {
        match code_in(&self.bytes, block) {
            0 => Kind::Hole,
            1 => Kind::Zero,
            _ => Kind::Data,
        }
    }

    /// Gives `blocks` blocks from `first` on this state: whole bytes of the map at once, and the blocks at the edges one by
    /// one.
    pub fn set_range(&mut self, first: u64, blocks: u64, kind: Kind)
        requires { first + blocks ≤ length self.old }
        ensures { self.new ≡ patched self.old first (replicate blocks kind) }
    {
        set_codes(&mut self.bytes, first, first + blocks, code_of(kind));
    }

    /// The longest runs of equal states from one block on up to another, the first `limit` of them. It takes a step
    /// for the 32 blocks of a word, else for the 4 of a byte, where they are of one state, else for each block. Refusal 0
    /// (no memory).
    pub fn runs(
        &self,
        alloc: Global,
        from: u64,
        to: u64,
        limit: usize,
    ) -> Result<Vec<Run>, AllocError>
        requires order { from ≤ to }
        requires inside { to ≤ length self.now }
        ensures { IfOk result (λ runs. AreRuns self.now from to limit runs.items) }
    {
        let mut runs = Vec::new(alloc);
        let mut block = from;
        while block < to && runs.len() < limit {
            let run = self.run_at(block, to);
            block += run.blocks;
            runs.push(run)?;
        }
        Ok(runs)
    }

    /// How many blocks have this state. It takes as many steps as `runs` of all blocks.
    pub fn count(&self, kind: Kind) -> u64
        ensures { result ≡ count_by (is_state kind) self.now }
    {
        let mut count = 0;
        let mut block = 0;
        while block < self.blocks {
            let run = self.run_at(block, self.blocks);
            if run.kind == kind {
                count += run.blocks;
            }
            block += run.blocks;
        }
        count
    }

    // The longest run that begins with this block, before `to`.
    fn run_at(&self, block: u64, to: u64) -> Run
        requires before { block < to }
        requires inside { to ≤ length self.now }
        ensures { IsRun self.now block to result }
    {
        Run {
            blocks: run_end(&self.bytes, block, to) - block,
            kind: self.state(block),
        }
    }
}
