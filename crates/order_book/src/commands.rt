ghost use Rattle.std.specs.Prelude.{◌≡◌, ◌≢◌, is_ok, ◌+◌, ◌/◌, ◌<◌, ◌≤◌, ◌↔◌, ℕ, All, true, false, IsTrue, OnOk, OnErr, length};
ghost use Rattle.std.specs.FinMap.{len};
ghost use Rattle.image_model.specs.Change.{change_of};
ghost use Rattle.image_model.specs.Command.{IsCommand};
ghost use Rattle.image_model.specs.Dirty.{dirty_after, clean_through, frames_suffice};
ghost use Rattle.image_model.specs.Image.{Image, apply as image_after};
ghost use Rattle.order_book.specs.Cached.{ShowsCommand, cache_after, cache_cleaned, dirty_of, frames_of, head_count};
ghost use Rattle.order_book.specs.Shown.{ShowsImage};
ghost use Rattle.shared_cache.specs.Blocks.{DirtyBlock};
ghost use Rattle.shared_cache.specs.View.{ShowsClean};
ghost use Rattle.shared_cache.specs.declared.fault.KeepFault.TheVariants as KeepFault;

use image_model::{BLOCK_BYTES, Command, Edges};
use shared_cache::{Cache, KeepFault};
use std::alloc::AllocError;

// The blocks that the bytes fill.
fn blocks_in(bytes: &[u8]) -> u64
    ensures { result ≡ (length bytes.now + 4095) / 4096 }
{
    (bytes.len() as u64).div_ceil(BLOCK_BYTES)
}

// How many of a clear's edges stand at its head.
pub(crate) fn head_blocks(edges: Edges) -> usize
    ensures { result ≡ head_count edges }
{
    match edges {
        Edges::Head | Edges::Both => 1,
        Edges::Tail => 0,
    }
}

// A refusal where the frames are there: it is for want of memory.
fn as_alloc_result(kept: Result<(), KeepFault>) -> Result<(), AllocError>
    requires { kept ≢ Err KeepFault.NoFrame }
    ensures { is_ok result ≡ is_ok kept }
{
    match kept {
        Ok(()) => Ok(()),
        Err(KeepFault::NoMemory) => Err(AllocError),
        Err(KeepFault::NoFrame) => unreachable!(),
    }
}

// Whether the frames hold the dirty blocks and those of the command.
pub(crate) fn has_frames(cache: &Cache, command: &Command) -> bool
    requires { IsCommand (length cache.now.states) command.now }
    ensures { (number : ℕ) → result ≡ frames_suffice (frames_of cache.now) (dirty_of cache.now) number (change_of command.now) }
{
    match command {
        Command::Put { first, bytes } => cache.has_frames(*first, blocks_in(bytes)),
        Command::Clear { .. } => true,
        Command::Edged {
            first,
            blocks,
            edges,
            ..
        } => {
            let head = head_blocks(*edges) as u64;
            let tail = edges.count() as u64 - head;
            cache.has_frames_at_edges(*first, *blocks as u64, head, tail)
        }
    }
}

// Changes the blocks as the command with this number does, for which there are frames.
pub(crate) fn apply(cache: &mut Cache, command: &Command, number: u64) -> Result<(), AllocError>
    requires inside { IsCommand (length cache.old.states) command.now }
    requires frames { frames_suffice (frames_of cache.old) (dirty_of cache.old) number (change_of command.now) ≡ true }
    requires order { All (λ (held : DirtyBlock). held.number ≤ number) cache.old.blocks.dirty }
    requires some { 0 < number }
    ensures after { OnOk result (cache.new ≡ cache_after cache.old number (change_of command.now)) }
    ensures view { OnOk result (ShowsCommand (change_of command.now) cache.old cache.new) }
    ensures image { OnOk result ((image : Image) → ShowsImage image cache.old → ShowsImage (image_after (change_of command.now) image) cache.new) }
    ensures dirty { OnOk result (dirty_of cache.new ≡ dirty_after (dirty_of cache.old) number (change_of command.now)) }
    ensures kept { frames_of cache.new ≡ frames_of cache.old }
    ensures blocks { length cache.new.states ≡ length cache.old.states }
    ensures order { OnOk result (All (λ (held : DirtyBlock). held.number ≤ number) cache.new.blocks.dirty) }
    ensures err { OnErr result (cache.new ≡ cache.old) }
{
    match command {
        Command::Put { first, bytes } => {
            let (blocks, _) = bytes.as_chunks::<4096>();
            as_alloc_result(cache.put(number, *first, blocks))
        }
        Command::Clear {
            first,
            blocks,
            kind,
        } => {
            cache.clear(*first, *blocks as u64, *kind);
            Ok(())
        }
        Command::Edged {
            first,
            blocks,
            kind,
            edges,
            bytes,
        } => {
            let (written, _) = bytes.as_chunks::<4096>();
            let (head, tail) = written.split_at(head_blocks(*edges));
            as_alloc_result(cache.clear_between(number, *first, *blocks as u64, *kind, head, tail))
        }
    }
}

// Makes the dirty blocks up to this number clean, and tells whether there were any.
pub(crate) fn clean_through(cache: &mut Cache, number: u64) -> bool
    ensures after { cache.new ≡ cache_cleaned cache.old number }
    ensures view { ShowsClean number cache.old cache.new }
    ensures image { (image : Image) → ShowsImage image cache.old → ShowsImage image cache.new }
    ensures dirty { dirty_of cache.new ≡ clean_through (dirty_of cache.old) number }
    ensures kept { frames_of cache.new ≡ frames_of cache.old }
    ensures any { IsTrue result ↔ (len (dirty_of cache.new) < len (dirty_of cache.old)) }
    ensures none { (result ≡ false) ↔ (cache.new ≡ cache.old) }
{
    let before = cache.dirty_blocks();
    cache.clean_through(number);
    cache.dirty_blocks() < before
}
