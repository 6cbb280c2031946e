ghost use Rattle.std.specs.Prelude.{◌≡◌, ℕ, ◌+◌, ◌*◌, ◌≤◌, ◌<◌, ◌^◌, ◌↔◌, length, replicate, slice_index, slice_index_or, IfOk, OnOk, OnErr, IsErr, IsTrue};
ghost use Rattle.image_model.specs.declared.command.Kind.TheVariants as Kind;
ghost use Rattle.image_model.specs.Edit.{apply_edit, byte_edited, count_of, edit_of, kind_edited, offset_of};
ghost use Rattle.image_model.specs.Patched.{patched};
ghost use Rattle.plain_image.specs.Plain.{image_of};

use image_model::{BLOCK_BYTES, Edit, Kind};
use std::alloc::{AllocError, Global};
use std::marker::Model;
use thiserror::Error;

/// Refusal 2 (out of range): an edit's range passes the image.
#[derive(Clone, Copy, Debug, PartialEq, Eq, Error)]
#[error("out of range")]
pub struct OutOfRange;

/// An image as an array in memory: what edits mean, for tests to compare with.
pub struct PlainImage {
    bytes: Vec<u8>,
    kinds: Vec<Kind>,
}

// Written out, it is proved once, and not again in each function that lets such a value go.
impl Drop for PlainImage {
    fn drop(self) {
        let PlainImage { bytes: _, kinds: _ } = self;
    }
}

impl Model for PlainImage {
    ghost use Rattle.std.specs.Prelude.{◌≡◌, ◌*◌, length};
    ghost use Rattle.plain_image.specs.Plain.{PlainState};

    ghost Value = { PlainState };

    ghost view = { λ plain. record { bytes = plain.bytes.items; kinds = plain.kinds.items } };

    ghost invariant = { λ plain. length plain.bytes.items ≡ 4096 * length plain.kinds.items };
}

impl PlainImage {
    /// An image of `blocks` blocks, all of them holes. Refusal 0 (no memory).
    pub fn new(alloc: Global, blocks: u32) -> Result<PlainImage, AllocError>
        ensures { IfOk result (λ plain. plain ≡ record { bytes = replicate (4096 * blocks) 0; kinds = replicate blocks Kind.Hole }) }
    {
        Ok(PlainImage {
            bytes: vec![in alloc; 0; 4096 * blocks as usize]?,
            kinds: vec![in alloc; Kind::Hole; blocks as usize]?,
        })
    }

    /// The bytes, block after block.
    pub fn bytes(&self) -> &[u8]
        ensures { result.now ≡ self.now.bytes }
    {
        &self.bytes
    }

    /// The state of each block.
    pub fn kinds(&self) -> &[Kind]
        ensures { result.now ≡ self.now.kinds }
    {
        &self.kinds
    }

    /// Carries out an edit. It is refused where its range passes the image, and then nothing has changed.
    pub fn apply(&mut self, edit: &Edit) -> Result<(), OutOfRange>
        ensures ok { OnOk result (image_of self.new ≡ apply_edit (edit_of edit.now) (image_of self.old)) }
        ensures size { length self.new.kinds ≡ length self.old.kinds }
        ensures err { OnErr result (self.new ≡ self.old) }
        ensures out_of_range { IsErr result
            ↔ (4096 * length self.old.kinds < offset_of (edit_of edit.now) + count_of (edit_of edit.now)) }
    {
        if !self.has_room(edit) {
            return Err(OutOfRange);
        }
        write_bytes(&mut self.bytes, edit);
        set_kinds(&mut self.kinds, edit);
        Ok(())
    }

    // Whether an edit's range lies in the image.
    fn has_room(&self, edit: &Edit) -> bool
        ensures { IsTrue result ↔ (offset_of (edit_of edit.now) + count_of (edit_of edit.now) ≤ 4096 * length self.now.kinds) }
    {
        let all = self.bytes.len() as u64;
        edit.length() <= all && edit.offset() <= all - edit.length()
    }
}

// Gives each place its byte after an edit.
fn write_bytes(bytes: &mut Vec<u8>, edit: &Edit)
    requires { offset_of (edit_of edit.now) + count_of (edit_of edit.now) ≤ length bytes.old.items }
    ensures count { length bytes.new.items ≡ length bytes.old.items }
    ensures each { (place : ℕ) → slice_index bytes.new.items place ≡ byte_edited (edit_of edit.now) place (slice_index bytes.old.items place) }
{
    match edit {
        Edit::Put {
            offset,
            bytes: written,
        } => overwrite(bytes, *offset as usize, written),
        Edit::Zeroes { offset, length, .. } => fill_zero(bytes, *offset as usize, *length as usize),
        Edit::Trim { offset, length } => {
            let first = offset.div_ceil(BLOCK_BYTES) as usize;
            let end = ((*offset + *length as u64) / BLOCK_BYTES) as usize;
            if first < end {
                fill_zero(bytes, 4096 * first, 4096 * (end - first));
            }
        }
    }
}

// Gives each block its state after an edit.
fn set_kinds(kinds: &mut [Kind], edit: &Edit)
    requires fits { 4096 * length kinds.old < 2 ^ 64 }
    requires inside { offset_of (edit_of edit.now) + count_of (edit_of edit.now) ≤ 4096 * length kinds.old }
    ensures count { length kinds.new ≡ length kinds.old }
    ensures each { (block : ℕ) → slice_index_or kinds.new block Kind.Hole ≡ kind_edited (edit_of edit.now) block (slice_index_or kinds.old block Kind.Hole) }
{
    for (block, kind) in kinds.iter_mut().enumerate() {
        *kind = edit.kind_after(block as u64, *kind);
    }
}

// Puts these bytes from `at` on.
fn overwrite(bytes: &mut Vec<u8>, at: usize, written: &[u8])
    requires { at + length written.now ≤ length bytes.old.items }
    ensures { bytes.new.items ≡ patched bytes.old.items at written.now }
{
    bytes[at..at + written.len()].copy_from_slice(written);
}

// Makes `count` bytes from `at` on zero.
fn fill_zero(bytes: &mut Vec<u8>, at: usize, count: usize)
    requires { at + count ≤ length bytes.old.items }
    ensures { bytes.new.items ≡ patched bytes.old.items at (replicate count 0) }
{
    bytes[at..at + count].fill(0);
}
