ghost use Rattle.std.specs.Prelude.{◌≡◌, ◌⊎◌, ◌+◌, ◌-◌, ◌*◌, ◌/◌, ◌%◌, ◌<◌, ◌≤◌, ◌^◌, ◌↔◌, ◌++◌, ◌==◌, ◌&&◌, not, if◌then◌else◌, ℕ, List, length, replicate, slice_index, Some, None, true, false, IfErr, IfOk, IsTrue, OnOk, OnErr};
ghost use Rattle.alloc_map.specs.Codes.{state_at};
ghost use Rattle.checkpoint.specs.Keeper.{faults_by, refused_by};
ghost use Rattle.checkpoint.specs.declared.fault.KeeperFault.TheVariants as KeeperFault;
ghost use Rattle.device_image.specs.Holds.{Holds, is_written, joined};
ghost use Rattle.journal_format.specs.Reading.{IsOnlyRead};
ghost use Rattle.image_model.specs.Bodies.{body_bytes};
ghost use Rattle.image_model.specs.Change.{Change, change_of};
ghost use Rattle.image_model.specs.Command.{IsCleared};
ghost use Rattle.image_model.specs.Dirty.{frames_suffice};
ghost use Rattle.image_model.specs.Edit.{BytesPut, BytesTrimmed, BytesZeroed, IsEdit, becomes, blocks_met, count_of, edit_of, is_partial_data, offset_of};
ghost use Rattle.image_model.specs.Image.{Image, last_of};
ghost use Rattle.image_model.specs.declared.command.Kind.TheVariants.{Data};
ghost use Rattle.order_book.specs.Cached.{dirty_of, frames_of};
ghost use Rattle.order_book.specs.Edits.{IsMissing, LacksOld, bytes_or, image_in, image_with, is_in_part, needs_old};
ghost use Rattle.order_book.specs.inner.Edits.{IsPut, IsWholePut, edge_bytes, edges_given, put_again, put_bytes, whole_change, zeroed_block};
ghost use Rattle.order_book.specs.declared.fault.OrderFault.TheVariants as OrderFault;
ghost use Rattle.shared_cache.specs.Cache.{bytes_seen};

use crate::commands::head_blocks;
use crate::fault::OrderFault;
use crate::reading::{BLOCK, read_blocks};
use checkpoint::{Keeper, KeeperFault};
use disk_model::Disk;
use image_model::{BLOCK_BYTES, Command, Edges, Edit, Kind};
use shared_cache::Cache;
use std::alloc::{AllocError, Global};

// The fault of an edit for which the device was to be read.
pub(crate) fn from_keeper_fault(fault: KeeperFault) -> OrderFault
    requires { (fault ≡ KeeperFault.DeviceFault) ⊎ (fault ≡ KeeperFault.Failed) }
    ensures device_fault { fault ≡ KeeperFault.DeviceFault → result ≡ OrderFault.DeviceFault }
    ensures failed { fault ≡ KeeperFault.Failed → result ≡ OrderFault.Failed }
{
    match fault {
        KeeperFault::Failed => OrderFault::Failed,
        _ => OrderFault::DeviceFault,
    }
}

/// A block of zero bytes.
pub(crate) static ZERO_BLOCK: [u8; 4096] = [0; 4096];

// How many blocks this many bytes touch.
fn blocks_met(offset: u64, count: u64) -> u64
    requires { count < 2 ^ 63 }
    ensures { result ≡ blocks_met offset count }
{
    (offset % BLOCK_BYTES + count + BLOCK_BYTES - 1) / BLOCK_BYTES
}

// Whether some of a block's bytes are among this many, and not all.
fn is_in_part(offset: u64, count: u64, block: u64) -> bool
    requires fits { offset + count < 2 ^ 63 }
    requires number { block < 2 ^ 50 }
    ensures { result ≡ is_in_part offset count block }
{
    let start = BLOCK_BYTES * block;
    let end = start + BLOCK_BYTES;
    let meets = offset.max(start) < (offset + count).min(end);
    let spans = offset <= start && end <= offset + count;
    meets && !spans
}

// Whether the edit needs the old bytes of a block.
fn needs_old(edit: &Edit, block: u64) -> bool
    requires fits { offset_of (edit_of edit.now) + count_of (edit_of edit.now) < 2 ^ 63 }
    requires number { block < 2 ^ 50 }
    ensures { result ≡ needs_old (edit_of edit.now) block }
{
    match edit {
        Edit::Put { offset, bytes } => is_in_part(*offset, bytes.len() as u64, block),
        Edit::Zeroes { offset, length, .. } => is_in_part(*offset, *length as u64, block),
        Edit::Trim { .. } => false,
    }
}

// Whether the edit needs the old bytes of a block that is missing.
fn is_missing(cache: &Cache, edit: &Edit, block: u64) -> bool
    requires fits { offset_of (edit_of edit.now) + count_of (edit_of edit.now) < 2 ^ 63 }
    requires number { block < 2 ^ 50 }
    requires inside { block < length cache.now.states }
    ensures { IsTrue result ↔ IsMissing (edit_of edit.now) cache.now block }
{
    if !needs_old(edit, block) {
        return false;
    }
    match cache.read(block) {
        Some(_) => false,
        None => true,
    }
}

// The first block that an edit touches, and the last.
fn ends_of(edit: &Edit) -> (u64, u64)
    requires some { 1 ≤ count_of (edit_of edit.now) }
    requires fits { offset_of (edit_of edit.now) + count_of (edit_of edit.now) < 2 ^ 63 }
    ensures first { result.0 ≡ offset_of (edit_of edit.now) / 4096 }
    ensures last { result.1 ≡ (offset_of (edit_of edit.now) + count_of (edit_of edit.now) - 1) / 4096 }
{
    let offset = edit.offset();
    (
        offset / BLOCK_BYTES,
        (offset + edit.length() - 1) / BLOCK_BYTES,
    )
}

// Whether the edit needs old bytes of blocks that are missing.
pub(crate) fn lacks_old(cache: &Cache, edit: &Edit) -> bool
    requires edit { IsEdit (length cache.now.states) (edit_of edit.now) }
    requires few { length cache.now.states ≤ 16777216 }
    ensures { IsTrue result ↔ LacksOld (edit_of edit.now) cache.now }
{
    let (first, last) = ends_of(edit);
    is_missing(cache, edit, first) || is_missing(cache, edit, last)
}

// Reads a block whose old bytes the edit needs, from memory if it is there.
fn read_part<D: Disk>(
    cache: &Cache,
    keeper: &mut Keeper<D>,
    edit: &Edit,
    block: u64,
    into: &mut [u8],
) -> Result<(), KeeperFault>
    requires fits { offset_of (edit_of edit.now) + count_of (edit_of edit.now) < 2 ^ 63 }
    requires number { block < 2 ^ 50 }
    requires inside { block < length cache.now.states }
    requires device { block < keeper.old.geometry.blocks }
    requires whole { length into.old ≡ 4096 }
    ensures size { length into.new ≡ 4096 }
    ensures ok { OnOk result (keeper.new ≡ record keeper.old { disk = keeper.new.disk }) }
    ensures err { IfErr result (λ fault. keeper.new ≡ refused_by fault keeper.old keeper.new.disk) }
    ensures failed { (result ≡ Err KeeperFault.Failed) ↔ (IsTrue keeper.old.failed × IsMissing (edit_of edit.now) cache.now block) }
    ensures works { OnOk result (IsMissing (edit_of edit.now) cache.now block → keeper.old.failed ≡ false) }
    ensures hit { (IsMissing (edit_of edit.now) cache.now block → ⊥) → keeper.new ≡ keeper.old }
    ensures lacks { OnErr result (IsMissing (edit_of edit.now) cache.now block) }
    ensures only { IfErr result (λ fault. (fault ≡ KeeperFault.DeviceFault) ⊎ (fault ≡ KeeperFault.Failed)) }
    ensures extent { D.extent keeper.new.disk ≡ D.extent keeper.old.disk }
    ensures faults_ok { OnOk result (D.faults keeper.new.disk ≡ D.faults keeper.old.disk) }
    ensures faults_err { IfErr result (λ fault. D.faults keeper.new.disk ≡ faults_by fault (D.faults keeper.old.disk)) }
    ensures honest { D.honest keeper.new.disk ↔ D.honest keeper.old.disk }
    ensures only_read { D.honest keeper.old.disk → IsOnlyRead (D.state keeper.old.disk) (D.state keeper.new.disk) }
    ensures holds { D.honest keeper.old.disk → (base : Image) (fronts : List (List Change)) (last : List Change) → Holds keeper.old (D.state keeper.old.disk) base fronts last
        → OnOk result (Holds keeper.new (D.state keeper.new.disk) base fronts last) }
    ensures bytes { D.honest keeper.old.disk → (base : Image) (fronts : List (List Change)) (last : List Change) → Holds keeper.old (D.state keeper.old.disk) base fronts last
        → OnOk result ((k : ℕ) → k < 4096 → IsMissing (edit_of edit.now) cache.now block → base.kind block ≡ Data → is_written block (joined fronts) ≡ false
        → slice_index into.new k ≡ base.byte (4096 * block + k)) }
{
    if !needs_old(edit, block) {
        return Ok(());
    }
    read_blocks(cache, keeper, block, into)?;
    Ok(())
}

// Reads the blocks whose old bytes the edit needs, into `head` its first block, and into `tail` its last where that is another.
pub(crate) fn read_old<D: Disk>(
    cache: &Cache,
    keeper: &mut Keeper<D>,
    edit: &Edit,
    head: &mut [u8],
    tail: &mut [u8],
) -> Result<(), KeeperFault>
    requires edit { IsEdit (length cache.now.states) (edit_of edit.now) }
    requires few { length cache.now.states ≤ 16777216 }
    requires device { offset_of (edit_of edit.now) + count_of (edit_of edit.now) ≤ 4096 * keeper.old.geometry.blocks }
    requires head { length head.old ≡ 4096 }
    requires tail { length tail.old ≡ 4096 }
    ensures head { length head.new ≡ 4096 }
    ensures tail { length tail.new ≡ 4096 }
    ensures ok { OnOk result (keeper.new ≡ record keeper.old { disk = keeper.new.disk }) }
    ensures err { IfErr result (λ fault. keeper.new ≡ refused_by fault keeper.old keeper.new.disk) }
    ensures failed { (result ≡ Err KeeperFault.Failed) ↔ (IsTrue keeper.old.failed × LacksOld (edit_of edit.now) cache.now) }
    ensures only { IfErr result (λ fault. (fault ≡ KeeperFault.DeviceFault) ⊎ (fault ≡ KeeperFault.Failed)) }
    ensures extent { D.extent keeper.new.disk ≡ D.extent keeper.old.disk }
    ensures faults_ok { OnOk result (D.faults keeper.new.disk ≡ D.faults keeper.old.disk) }
    ensures faults_err { IfErr result (λ fault. D.faults keeper.new.disk ≡ faults_by fault (D.faults keeper.old.disk)) }
    ensures honest { D.honest keeper.new.disk ↔ D.honest keeper.old.disk }
    ensures only_read { D.honest keeper.old.disk → IsOnlyRead (D.state keeper.old.disk) (D.state keeper.new.disk) }
    ensures holds { D.honest keeper.old.disk → (base : Image) (fronts : List (List Change)) (last : List Change) → Holds keeper.old (D.state keeper.old.disk) base fronts last
        → OnOk result (Holds keeper.new (D.state keeper.new.disk) base fronts last) }
    ensures bytes { D.honest keeper.old.disk → (base : Image) (fronts : List (List Change)) (last : List Change) → Holds keeper.old (D.state keeper.old.disk) base fronts last
        → OnOk result ((block k : ℕ) → k < 4096 → IsMissing (edit_of edit.now) cache.now block → base.kind block ≡ Data → is_written block (joined fronts) ≡ false
        → slice_index (if block == offset_of (edit_of edit.now) / 4096 then head.new else tail.new) k ≡ base.byte (4096 * block + k)) }
{
    let (first, last) = ends_of(edit);
    read_part(cache, keeper, edit, first, head)?;
    if last == first {
        return Ok(());
    }
    read_part(cache, keeper, edit, last, tail)
}

// Whether a block is data that this many bytes cover in part, where they touch it.
fn is_partial_data(cache: &Cache, offset: u64, count: u64, block: u64) -> bool
    requires fits { offset + count < 2 ^ 63 }
    requires number { block < 2 ^ 50 }
    requires inside { block < length cache.now.states }
    ensures { result ≡ is_partial_data offset count block (state_at cache.now.states block) }
{
    let start = BLOCK_BYTES * block;
    let spans = offset <= start && start + BLOCK_BYTES <= offset + count;
    match cache.map().state(block) {
        Kind::Data => !spans,
        Kind::Zero | Kind::Hole => false,
    }
}

// Whether the last block that zeroes touch is an edge: where it is another than the first.
fn has_tail(cache: &Cache, offset: u64, count: u64, first: u64, last: u64) -> bool
    requires fits { offset + count < 2 ^ 63 }
    requires number { last < 2 ^ 50 }
    requires inside { last < length cache.now.states }
    ensures { result ≡ (not (last == first) && is_partial_data offset count last (state_at cache.now.states last)) }
{
    if last == first {
        return false;
    }
    is_partial_data(cache, offset, count, last)
}

// Which edges the clear has that zeroes become: data blocks that they cover in part.
fn edges_of(cache: &Cache, offset: u64, count: u64) -> Option<Edges>
    requires some { 1 ≤ count }
    requires inside { offset + count ≤ 4096 * length cache.now.states }
    requires few { length cache.now.states ≤ 16777216 }
    ensures { result ≡ edges_given
        (is_partial_data offset count (offset / 4096) (state_at cache.now.states (offset / 4096)))
        (not (last_of (offset / 4096) (blocks_met offset count) == offset / 4096)
        && is_partial_data offset count (last_of (offset / 4096) (blocks_met offset count)) (state_at cache.now.states (last_of (offset / 4096) (blocks_met offset count)))) }
{
    let first = offset / BLOCK_BYTES;
    let last = first + blocks_met(offset, count) - 1;
    let head = is_partial_data(cache, offset, count, first);
    let tail = has_tail(cache, offset, count, first, last);
    match (head, tail) {
        (true, true) => Some(Edges::Both),
        (true, false) => Some(Edges::Head),
        (false, true) => Some(Edges::Tail),
        (false, false) => None,
    }
}

// Whether the frames hold the dirty blocks and those of the command that the edit becomes.
pub(crate) fn has_frames_for(cache: &Cache, edit: &Edit) -> bool
    requires edit { IsEdit (length cache.now.states) (edit_of edit.now) }
    requires few { length cache.now.states ≤ 16777216 }
    ensures { (number : ℕ) → result ≡ frames_suffice (frames_of cache.now) (dirty_of cache.now) number (becomes (edit_of edit.now) (image_in cache.now)) }
{
    match edit {
        Edit::Put { offset, bytes } => {
            let blocks = blocks_met(*offset, bytes.len() as u64);
            cache.has_frames(*offset / BLOCK_BYTES, blocks)
        }
        Edit::Zeroes { offset, length, .. } => has_frames_at_edges(cache, *offset, *length as u64),
        Edit::Trim { .. } => true,
    }
}

// Whether the frames hold the dirty blocks and the edges of the clear that zeroes become.
fn has_frames_at_edges(cache: &Cache, offset: u64, count: u64) -> bool
    requires some { 1 ≤ count }
    requires short { count < 2 ^ 32 }
    requires inside { offset + count ≤ 4096 * length cache.now.states }
    requires few { length cache.now.states ≤ 16777216 }
    ensures { (number : ℕ) (kind : Kind) → IsCleared kind
        → result ≡ frames_suffice (frames_of cache.now) (dirty_of cache.now) number (becomes (BytesZeroed offset count kind) (image_in cache.now)) }
{
    let Some(edges) = edges_of(cache, offset, count) else {
        return true;
    };
    let head = head_blocks(edges) as u64;
    let tail = edges.count() as u64 - head;
    cache.has_frames_at_edges(offset / BLOCK_BYTES, blocks_met(offset, count), head, tail)
}

// The bytes that the command takes in a group that the edit becomes.
pub(crate) fn body_for(cache: &Cache, edit: &Edit) -> u64
    requires edit { IsEdit (length cache.now.states) (edit_of edit.now) }
    requires few { length cache.now.states ≤ 16777216 }
    ensures body { result ≡ body_bytes (becomes (edit_of edit.now) (image_in cache.now)) }
    ensures small { result < 2 ^ 32 }
{
    match edit {
        Edit::Put { offset, bytes } => 13 + BLOCK_BYTES * blocks_met(*offset, bytes.len() as u64),
        Edit::Zeroes { offset, length, .. } => match edges_of(cache, *offset, *length as u64) {
            Some(edges) => 14 + BLOCK_BYTES * edges.count() as u64,
            None => 13,
        },
        Edit::Trim { .. } => 13,
    }
}

// The bytes of a block that are in memory, or else these.
fn bytes_or<'a>(cache: &'a Cache, block: u64, other: &'a [u8]) -> &'a [u8]
    requires inside { block < length cache.now.states }
    requires whole { length other.now ≡ 4096 }
    ensures bytes { result.now ≡ bytes_or (bytes_seen cache.now block) other.now }
    ensures size { length result.now ≡ 4096 }
{
    match cache.read(block) {
        Some(bytes) => bytes,
        None => other,
    }
}

// What was read of a block: the bytes of the first one, or of another.
fn read_of<'a>(block: u64, first: u64, head: &'a [u8], tail: &'a [u8]) -> &'a [u8]
    ensures { result.now ≡ (if block == first then head.now else tail.now) }
{
    if block == first {
        return head;
    }
    tail
}

// The bytes of all blocks that a put touches: old ones up to its offset, its own, and old ones up to the end of its last block.
fn put_bytes(
    alloc: Global,
    old_first: &[u8],
    offset: u64,
    bytes: &[u8],
    old_last: &[u8],
) -> Result<Vec<u8>, AllocError>
    requires some { 1 ≤ length bytes.now }
    requires few { length bytes.now ≤ 1048576 }
    requires first { length old_first.now ≡ 4096 }
    requires last { length old_last.now ≡ 4096 }
    ensures { IfOk result (λ all. all.items ≡ put_bytes old_first.now offset bytes.now old_last.now) }
{
    let before = (offset % BLOCK_BYTES) as usize;
    let blocks = blocks_met(offset, bytes.len() as u64) as usize;
    let behind = before + bytes.len() - BLOCK * (blocks - 1);
    let mut all = Vec::with_capacity(alloc, BLOCK * blocks)?;
    all.extend_from_slice(&old_first[..before])?;
    all.extend_from_slice(bytes)?;
    all.extend_from_slice(&old_last[behind..])?;
    Ok(all)
}

// This many zero bytes, of no more than a block.
fn zeros(count: usize) -> &'static [u8]
    requires { count ≤ 4096 }
    ensures { result.now ≡ replicate count 0 }
{
    &ZERO_BLOCK[..count]
}

// Adds a block of old bytes, but zero where this many bytes from the offset on stand.
fn push_zeroed(
    all: &mut Vec<u8>,
    old: &[u8],
    block: u64,
    offset: u64,
    count: u64,
) -> Result<(), AllocError>
    requires whole { length old.now ≡ 4096 }
    requires fits { offset + count < 2 ^ 63 }
    requires number { block < 2 ^ 50 }
    requires low { offset < 4096 * block + 4096 }
    requires high { 4096 * block < offset + count }
    ensures { OnOk result (all.new.items ≡ all.old.items ++ zeroed_block offset count block old.now) }
{
    let start = BLOCK_BYTES * block;
    let from = (offset.max(start) - start) as usize;
    let to = ((offset + count).min(start + BLOCK_BYTES) - start) as usize;
    all.extend_from_slice(&old[..from])?;
    all.extend_from_slice(zeros(to - from))?;
    all.extend_from_slice(&old[to..])?;
    Ok(())
}

// The bytes of the edges that a clear has which zeroes become.
fn edge_bytes(
    alloc: Global,
    cache: &Cache,
    offset: u64,
    count: u64,
    edges: Edges,
    head: &[u8],
    tail: &[u8],
) -> Result<Vec<u8>, AllocError>
    requires some { 1 ≤ count }
    requires inside { offset + count ≤ 4096 * length cache.now.states }
    requires few { length cache.now.states ≤ 16777216 }
    requires head { length head.now ≡ 4096 }
    requires tail { length tail.now ≡ 4096 }
    ensures first { length (bytes_or (bytes_seen cache.now (offset / 4096)) head.now) ≡ 4096 }
    ensures last { length (bytes_or (bytes_seen cache.now (last_of (offset / 4096) (blocks_met offset count))) tail.now) ≡ 4096 }
    ensures bytes { IfOk result (λ bytes. bytes.items ≡ edge_bytes edges
        (zeroed_block offset count (offset / 4096) (bytes_or (bytes_seen cache.now (offset / 4096)) head.now))
        (zeroed_block offset count (last_of (offset / 4096) (blocks_met offset count)) (bytes_or (bytes_seen cache.now (last_of (offset / 4096) (blocks_met offset count))) tail.now))) }
{
    let first = offset / BLOCK_BYTES;
    let last = first + blocks_met(offset, count) - 1;
    let old_first = bytes_or(cache, first, head);
    let old_last = bytes_or(cache, last, tail);
    let mut bytes = Vec::with_capacity(alloc, BLOCK * edges.count())?;
    match edges {
        Edges::Head => push_zeroed(&mut bytes, old_first, first, offset, count)?,
        Edges::Tail => push_zeroed(&mut bytes, old_last, last, offset, count)?,
        Edges::Both => {
            push_zeroed(&mut bytes, old_first, first, offset, count)?;
            push_zeroed(&mut bytes, old_last, last, offset, count)?;
        }
    }
    Ok(bytes)
}

// The command that zeroes become.
fn zero_command(
    alloc: Global,
    cache: &Cache,
    offset: u64,
    count: u32,
    kind: Kind,
    head: &[u8],
    tail: &[u8],
) -> Result<Command, AllocError>
    requires edit { IsEdit (length cache.now.states) (BytesZeroed offset count kind) }
    requires few { length cache.now.states ≤ 16777216 }
    requires head { length head.now ≡ 4096 }
    requires tail { length tail.now ≡ 4096 }
    ensures { IfOk result (λ command. change_of command ≡ becomes (BytesZeroed offset count kind) (image_with cache.now (offset / 4096) head.now tail.now)) }
{
    let count = count as u64;
    let first = offset / BLOCK_BYTES;
    let blocks = blocks_met(offset, count) as u32;
    let Some(edges) = edges_of(cache, offset, count) else {
        return Ok(Command::Clear {
            first,
            blocks,
            kind,
        });
    };
    let bytes = edge_bytes(alloc, cache, offset, count, edges, head, tail)?;
    Ok(Command::Edged {
        first,
        blocks,
        kind,
        edges,
        bytes,
    })
}

// The command that a trim becomes: a clear of the blocks that lie wholly within it, or of none from its own block on.
fn trim_command(offset: u64, count: u32) -> Command
    requires { offset + count < 2 ^ 63 }
    ensures { (image : Image) → change_of result ≡ becomes (BytesTrimmed offset count) image }
{
    let first = (offset + BLOCK_BYTES - 1) / BLOCK_BYTES;
    let end = (offset + count as u64) / BLOCK_BYTES;
    if first < end {
        return Command::Clear {
            first,
            blocks: (end - first) as u32,
            kind: Kind::Hole,
        };
    }
    Command::Clear {
        first: offset / BLOCK_BYTES,
        blocks: 0,
        kind: Kind::Hole,
    }
}

// The command that the edit becomes, where of the blocks that are missing its first one has the bytes `head`, and another one
// the bytes `tail`.
pub(crate) fn command_for(
    alloc: Global,
    cache: &Cache,
    edit: &Edit,
    head: &[u8],
    tail: &[u8],
) -> Result<Command, AllocError>
    requires edit { IsEdit (length cache.now.states) (edit_of edit.now) }
    requires few { length cache.now.states ≤ 16777216 }
    requires head { length head.now ≡ 4096 }
    requires tail { length tail.now ≡ 4096 }
    ensures { IfOk result (λ command. change_of command
        ≡ becomes (edit_of edit.now) (image_with cache.now (offset_of (edit_of edit.now) / 4096) head.now tail.now)) }
{
    match edit {
        Edit::Put { offset, bytes } => put(alloc, cache, *offset, bytes, head, tail),
        Edit::Zeroes {
            offset,
            length,
            kind,
        } => zero_command(alloc, cache, *offset, *length, *kind, head, tail),
        Edit::Trim { offset, length } => Ok(trim_command(*offset, *length)),
    }
}

// The command that a put becomes.
fn put<'a>(
    alloc: Global,
    cache: &'a Cache,
    offset: u64,
    bytes: &[u8],
    head: &'a [u8],
    tail: &'a [u8],
) -> Result<Command, AllocError>
    requires edit { IsEdit (length cache.now.states) (BytesPut offset bytes.now) }
    requires few { length cache.now.states ≤ 16777216 }
    requires head { length head.now ≡ 4096 }
    requires tail { length tail.now ≡ 4096 }
    ensures { IfOk result (λ command. change_of command ≡ becomes (BytesPut offset bytes.now) (image_with cache.now (offset / 4096) head.now tail.now)) }
{
    let first = offset / BLOCK_BYTES;
    let last = first + blocks_met(offset, bytes.len() as u64) - 1;
    let old_first = bytes_or(cache, first, head);
    let old_last = bytes_or(cache, last, read_of(last, first, head, tail));
    let bytes = put_bytes(alloc, old_first, offset, bytes, old_last)?;
    Ok(Command::Put { first, bytes })
}

// Whether the edit puts whole blocks: its bytes are those of its command then.
pub(crate) fn is_whole_put(edit: &Edit) -> bool
    ensures { IsTrue result ↔ IsWholePut (edit_of edit.now) }
{
    match edit {
        Edit::Put { offset, bytes } => *offset % BLOCK_BYTES == 0
            && bytes.len() as u64 % BLOCK_BYTES == 0,
        Edit::Zeroes { .. } | Edit::Trim { .. } => false,
    }
}

// The command of an edit that puts whole blocks.
pub(crate) fn whole_put(edit: Edit) -> Command
    requires { IsWholePut (edit_of edit) }
    ensures put { IsPut result }
    ensures change { change_of result ≡ whole_change (edit_of edit) }
    ensures again { put_again (offset_of (edit_of edit)) result ≡ edit }
{
    match edit {
        Edit::Put { offset, bytes } => Command::Put {
            first: offset / BLOCK_BYTES,
            bytes,
        },
        Edit::Zeroes { .. } | Edit::Trim { .. } => unreachable!(),
    }
}

// The edit at this offset whose command was handed back.
pub(crate) fn put_again(offset: u64, command: Command) -> Edit
    requires { IsPut command }
    ensures { result ≡ put_again offset command }
{
    match command {
        Command::Put { first: _, bytes } => Edit::Put { offset, bytes },
        Command::Clear { .. } | Command::Edged { .. } => unreachable!(),
    }
}
