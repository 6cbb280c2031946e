ghost use Rattle.std.specs.Prelude.{◌≡◌, ◌≢◌, ◌⊎◌, ◌+◌, ◌*◌, ◌/◌, ◌%◌, ◌<◌, ◌≤◌, ◌^◌, ◌↔◌, ◌-◌, ℕ, List, length, slice_index, Some, None, false, IfErr, IfOk, IsTrue, OnOk, OnErr, vec_len, vec_capacity};
ghost use Rattle.checkpoint.specs.Keeper.{faults_by, refused_by};
ghost use Rattle.checkpoint.specs.declared.fault.KeeperFault.TheVariants as KeeperFault;
ghost use Rattle.device_image.specs.Holds.{Holds, is_written, joined};
ghost use Rattle.image_model.specs.Change.{Change};
ghost use Rattle.image_model.specs.Edit.{blocks_met};
ghost use Rattle.image_model.specs.Image.{Image};
ghost use Rattle.image_model.specs.declared.command.Kind.TheVariants.{Data};
ghost use Rattle.journal_format.specs.Reading.{IsOnlyRead};
ghost use Rattle.order_book.specs.Cached.{frames_of};
ghost use Rattle.order_book.specs.Reading.{IsKept, LiesIn, ShowsRead, with_kept};
ghost use Rattle.order_book.specs.declared.kept.Kept.TheVariants as Kept;
ghost use Rattle.shared_cache.specs.Cache.{LacksBytes, bytes_seen};
ghost use Rattle.shared_cache.specs.View.{ShowsFill};

use crate::kept::Kept;
use crate::span::Span;
use checkpoint::{Keeper, KeeperFault};
use disk_model::Disk;
use image_model::{BLOCK_BYTES, Kind};
use shared_cache::{Cache, KeepFault};
use std::alloc::AllocError;

/// The bytes of a block.
pub(crate) const BLOCK: usize = 4_096;

// Reads blocks that are in memory, from this one of them on up to the first that isn't, which it tells.
fn read_in_memory(cache: &Cache, first: u64, from: usize, into: &mut [u8]) -> usize
    requires whole { length into.old % 4096 ≡ 0 }
    requires range { first + length into.old / 4096 ≤ length cache.now.states }
    requires fits { first + length into.old / 4096 < 2 ^ 64 }
    requires from { 4096 * from ≤ length into.old }
    ensures size { length into.new ≡ length into.old }
    ensures order { from ≤ result }
    ensures inside { 4096 * result ≤ length into.new }
    ensures kept { (k : ℕ) → k < 4096 * from → slice_index into.new k ≡ slice_index into.old k }
    ensures held { (j k : ℕ) (bytes : List ℕ) → from ≤ j → j < result → k < 4096 → bytes_seen cache.now (first + j) ≡ Some bytes
        → slice_index into.new (4096 * j + k) ≡ slice_index bytes k }
    ensures there { (j : ℕ) → from ≤ j → j < result → bytes_seen cache.now (first + j) ≢ None }
    ensures missing { 4096 * result < length into.new → bytes_seen cache.now (first + result) ≡ None }
{
    let blocks = into.len() / BLOCK;
    for block in from..blocks {
        let Some(bytes) = cache.read(first + block as u64) else {
            return block;
        };
        into[BLOCK * block..BLOCK * block + BLOCK].copy_from_slice(bytes);
    }
    blocks
}

// The bytes of the image from this offset on, of blocks that are all in memory, in the memory of `room` if that is enough.
pub(crate) fn copy_in_memory(
    room: Vec<u8>,
    cache: &Cache,
    offset: u64,
    count: usize,
) -> Result<Vec<u8>, AllocError>
    requires range { offset + count ≤ 4096 * length cache.now.states }
    requires few { length cache.now.states ≤ 16777216 }
    requires held { LacksBytes cache.now (offset / 4096) (blocks_met offset count) → ⊥ }
    ensures size { IfOk result (λ bytes. vec_len bytes ≡ count) }
    ensures full { OnErr result (vec_capacity room < count) }
    ensures there { IfOk result (λ bytes. (k : ℕ) → k < count → bytes_seen cache.now ((offset + k) / 4096) ≢ None) }
    ensures bytes { IfOk result (λ bytes. (k : ℕ) (block : List ℕ) → k < count → bytes_seen cache.now ((offset + k) / 4096) ≡ Some block
        → slice_index bytes.items k ≡ slice_index block ((offset + k) % 4096)) }
{
    let mut bytes = room;
    bytes.clear();
    bytes.reserve(count)?;
    while bytes.len() < count {
        let place = offset + bytes.len() as u64;
        let Some(block) = cache.read(place / BLOCK_BYTES) else {
            unreachable!();
        };
        let from = (place % BLOCK_BYTES) as usize;
        let to = BLOCK.min(from + count - bytes.len());
        bytes.extend_from_slice(&block[from..to])?;
    }
    Ok(bytes)
}

// Whether this many blocks from the first one on are all in memory.
pub(crate) fn holds(cache: &Cache, first: u64, count: u64) -> bool
    requires range { first + count ≤ length cache.now.states }
    requires fits { first + count < 2 ^ 64 }
    ensures { (result ≡ false) ↔ LacksBytes cache.now first count }
{
    for offset in 0..count {
        let Some(_) = cache.read(first + offset) else {
            return false;
        };
    }
    true
}

// The end of the run of blocks that aren't in memory, from this one of N on.
fn missing_end(cache: &Cache, first: u64, from: usize, blocks: usize) -> usize
    requires range { first + blocks ≤ length cache.now.states }
    requires fits { first + blocks < 2 ^ 64 }
    requires some { from < blocks }
    requires missing { bytes_seen cache.now (first + from) ≡ None }
    ensures some { from < result }
    ensures inside { result ≤ blocks }
    ensures missing { (j : ℕ) → from ≤ j → j < result → bytes_seen cache.now (first + j) ≡ None }
{
    for block in from + 1..blocks {
        if cache.read(first + block as u64).is_some() {
            return block;
        }
    }
    blocks
}

// Reads a run of blocks from the device, in one call.
fn read_run<D: Disk>(
    keeper: &mut Keeper<D>,
    first: u64,
    from: usize,
    to: usize,
    into: &mut [u8],
) -> Result<(), KeeperFault>
    requires some { from < to }
    requires inside { 4096 * to ≤ length into.old }
    requires range { first + to ≤ keeper.old.geometry.blocks }
    ensures size { length into.new ≡ length into.old }
    ensures kept { (k : ℕ) → k < 4096 * from → slice_index into.new k ≡ slice_index into.old k }
    ensures ok { OnOk result (keeper.new ≡ record keeper.old { disk = keeper.new.disk }) }
    ensures err { IfErr result (λ fault. keeper.new ≡ refused_by fault keeper.old keeper.new.disk) }
    ensures failed { (result ≡ Err KeeperFault.Failed) ↔ IsTrue keeper.old.failed }
    ensures only { IfErr result (λ fault. (fault ≡ KeeperFault.DeviceFault) ⊎ (fault ≡ KeeperFault.Failed)) }
    ensures extent { D.extent keeper.new.disk ≡ D.extent keeper.old.disk }
    ensures faults_ok { OnOk result (D.faults keeper.new.disk ≡ D.faults keeper.old.disk) }
    ensures faults_err { IfErr result (λ fault. D.faults keeper.new.disk ≡ faults_by fault (D.faults keeper.old.disk)) }
    ensures honest { D.honest keeper.new.disk ↔ D.honest keeper.old.disk }
    ensures only_read { D.honest keeper.old.disk → IsOnlyRead (D.state keeper.old.disk) (D.state keeper.new.disk) }
    ensures holds { D.honest keeper.old.disk → (base : Image) (fronts : List (List Change)) (last : List Change) → Holds keeper.old (D.state keeper.old.disk) base fronts last
        → OnOk result (Holds keeper.new (D.state keeper.new.disk) base fronts last) }
    ensures bytes { D.honest keeper.old.disk → (base : Image) (fronts : List (List Change)) (last : List Change) → Holds keeper.old (D.state keeper.old.disk) base fronts last
        → OnOk result ((j k : ℕ) → from ≤ j → j < to → k < 4096 → base.kind (first + j) ≡ Data → is_written (first + j) (joined fronts) ≡ false
        → slice_index into.new (4096 * j + k) ≡ base.byte (4096 * (first + j) + k)) }
{
    keeper.read_base(first + from as u64, &mut into[BLOCK * from..BLOCK * to])
}

// Reads blocks, from memory those that are there and from the device the others, each run of these in one call. It tells
// the first of these.
pub(crate) fn read_blocks<D: Disk>(
    cache: &Cache,
    keeper: &mut Keeper<D>,
    first: u64,
    into: &mut [u8],
) -> Result<usize, KeeperFault>
    requires whole { length into.old % 4096 ≡ 0 }
    requires range { first + length into.old / 4096 ≤ length cache.now.states }
    requires device { first + length into.old / 4096 ≤ keeper.old.geometry.blocks }
    ensures size { length into.new ≡ length into.old }
    ensures inside { IfOk result (λ held. 4096 * held ≤ length into.new) }
    ensures there { IfOk result (λ held. (j : ℕ) → j < held → bytes_seen cache.now (first + j) ≢ None) }
    ensures missing { IfOk result (λ held. 4096 * held < length into.new → bytes_seen cache.now (first + held) ≡ None) }
    ensures all_held { (LacksBytes cache.now first (length into.old / 4096) → ⊥) → IfOk result (λ held. (4096 * held ≡ length into.new) × (keeper.new ≡ keeper.old)) }
    ensures ok { OnOk result (keeper.new ≡ record keeper.old { disk = keeper.new.disk }) }
    ensures err { IfErr result (λ fault. keeper.new ≡ refused_by fault keeper.old keeper.new.disk) }
    ensures failed { (result ≡ Err KeeperFault.Failed) ↔ (IsTrue keeper.old.failed × LacksBytes cache.now first (length into.old / 4096)) }
    ensures lacks { OnErr result (LacksBytes cache.now first (length into.old / 4096)) }
    ensures only { IfErr result (λ fault. (fault ≡ KeeperFault.DeviceFault) ⊎ (fault ≡ KeeperFault.Failed)) }
    ensures extent { D.extent keeper.new.disk ≡ D.extent keeper.old.disk }
    ensures faults_ok { OnOk result (D.faults keeper.new.disk ≡ D.faults keeper.old.disk) }
    ensures faults_err { IfErr result (λ fault. D.faults keeper.new.disk ≡ faults_by fault (D.faults keeper.old.disk)) }
    ensures honest { D.honest keeper.new.disk ↔ D.honest keeper.old.disk }
    ensures only_read { D.honest keeper.old.disk → IsOnlyRead (D.state keeper.old.disk) (D.state keeper.new.disk) }
    ensures holds { D.honest keeper.old.disk → (base : Image) (fronts : List (List Change)) (last : List Change) → Holds keeper.old (D.state keeper.old.disk) base fronts last
        → OnOk result (Holds keeper.new (D.state keeper.new.disk) base fronts last) }
    ensures in_memory { OnOk result ((j k : ℕ) (bytes : List ℕ) → 4096 * j < length into.new → k < 4096
        → bytes_seen cache.now (first + j) ≡ Some bytes → slice_index into.new (4096 * j + k) ≡ slice_index bytes k) }
    ensures from_base { D.honest keeper.old.disk → (base : Image) (fronts : List (List Change)) (last : List Change) → Holds keeper.old (D.state keeper.old.disk) base fronts last
        → OnOk result ((j k : ℕ) → 4096 * j < length into.new → k < 4096 → bytes_seen cache.now (first + j) ≡ None
        → base.kind (first + j) ≡ Data → is_written (first + j) (joined fronts) ≡ false
        → slice_index into.new (4096 * j + k) ≡ base.byte (4096 * (first + j) + k)) }
{
    let blocks = into.len() / BLOCK;
    let held = read_in_memory(cache, first, 0, into);
    let mut done = held;
    while done < blocks {
        let end = missing_end(cache, first, done, blocks);
        read_run(keeper, first, done, end, into)?;
        done = read_in_memory(cache, first, end, into);
    }
    Ok(held)
}

// Keeps a block that was read, where it is data and there is a frame for it; whether it is kept changes no answer.
fn keep_block(cache: &mut Cache, block: u64, bytes: &[u8; 4096]) -> Kept
    requires range { block < length cache.old.states }
    ensures all { result ≡ Kept.All → cache.new ≡ with_kept block bytes.now cache.old }
    ensures none { result ≡ Kept.NoMemory → cache.new ≡ cache.old }
    ensures view { (cache.new ≡ cache.old) ⊎ ShowsFill block bytes.now cache.old cache.new }
    ensures states { cache.new.states ≡ cache.old.states }
    ensures dirty { cache.new.blocks.dirty ≡ cache.old.blocks.dirty }
    ensures frames { frames_of cache.new ≡ frames_of cache.old }
{
    match cache.map().state(block) {
        Kind::Data => match cache.fill(block, bytes) {
            Ok(()) => Kept::All,
            Err(KeepFault::NoFrame) => Kept::All,
            Err(KeepFault::NoMemory) => Kept::NoMemory,
        },
        Kind::Zero => Kept::All,
        Kind::Hole => Kept::All,
    }
}

// Keeps blocks that were read, from this one of them on, where those before it are in memory.
pub(crate) fn keep_blocks(cache: &mut Cache, first: u64, from: usize, bytes: &[u8]) -> Kept
    requires whole { length bytes.now % 4096 ≡ 0 }
    requires range { first + length bytes.now / 4096 ≤ length cache.old.states }
    requires fits { first + length bytes.now / 4096 < 2 ^ 64 }
    requires from { 4096 * from ≤ length bytes.now }
    requires there { (j : ℕ) → j < from → bytes_seen cache.old (first + j) ≢ None }
    ensures kept { IsKept first bytes.now cache.old cache.new result }
    ensures view { ShowsRead first bytes.now cache.old cache.new }
    ensures none { 4096 * from ≡ length bytes.now → cache.new ≡ cache.old }
{
    let (blocks, _) = bytes.as_chunks::<4096>();
    for offset in from..blocks.len() {
        match keep_block(cache, first + offset as u64, &blocks[offset]) {
            Kept::All => {}
            Kept::NoMemory => return Kept::NoMemory,
        }
    }
    Kept::All
}

// The span from the first block that isn't in memory to the last, of N; where all are it is empty.
pub(crate) fn missing_span(cache: &Cache, first: u64, count: u64) -> Span
    requires range { first + count ≤ length cache.now.states }
    requires some { 0 < count }
    requires fits { first + count < 2 ^ 64 }
    ensures bounds { (first ≤ result.first) × (result.first < first + count) × (result.first ≤ result.end) × (result.end ≤ first + count) }
    ensures all { (block : ℕ) → first ≤ block → block < first + count → bytes_seen cache.now block ≡ None → LiesIn block result }
    ensures begins { result.first < result.end → bytes_seen cache.now result.first ≡ None }
    ensures ends { (block : ℕ) → result.first ≤ block → block + 1 ≡ result.end → bytes_seen cache.now block ≡ None }
{
    let mut from = first;
    let mut end = first;
    for block in first..first + count {
        if cache.read(block).is_none() {
            if end == first {
                from = block;
            }
            end = block + 1;
        }
    }
    Span { first: from, end }
}

// Puts what is in memory over bytes that were read of blocks. It isn't done where one that isn't in memory lies outside the
// span; the slice then holds any bytes.
pub(crate) fn put_cached_over(cache: &Cache, first: u64, span: Span, into: &mut [u8]) -> bool
    requires whole { length into.old % 4096 ≡ 0 }
    requires range { first + length into.old / 4096 ≤ length cache.now.states }
    requires fits { first + length into.old / 4096 < 2 ^ 64 }
    ensures size { length into.new ≡ length into.old }
    ensures done { IsTrue result → (j : ℕ) → 4096 * j < length into.old → bytes_seen cache.now (first + j) ≡ None → LiesIn (first + j) span }
    ensures undone { result ≡ false → (j : ℕ) × (4096 * j < length into.old) × (bytes_seen cache.now (first + j) ≡ None) × (LiesIn (first + j) span → ⊥) }
    ensures in_memory { IsTrue result → (j k : ℕ) (bytes : List ℕ) → 4096 * j < length into.new → k < 4096
        → bytes_seen cache.now (first + j) ≡ Some bytes → slice_index into.new (4096 * j + k) ≡ slice_index bytes k }
    ensures handed { IsTrue result → (j k : ℕ) → 4096 * j < length into.new → k < 4096 → bytes_seen cache.now (first + j) ≡ None
        → slice_index into.new (4096 * j + k) ≡ slice_index into.old (4096 * j + k) }
{
    let blocks = into.len() / BLOCK;
    for block in 0..blocks {
        let at = first + block as u64;
        if let Some(bytes) = cache.read(at) {
            into[BLOCK * block..BLOCK * block + BLOCK].copy_from_slice(bytes);
        } else if at < span.first || span.end <= at {
            return false;
        }
    }
    true
}
