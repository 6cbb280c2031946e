ghost use Rattle.std.specs.Prelude.{◌≡◌, ◌+◌, ◌*◌, ◌/◌, ◌%◌, ◌<◌, ◌≤◌, ◌↔◌, ℕ, length, replicate, IfErr, OnOk};
ghost use Rattle.checkpoint.specs.Format.{AreClosed};
ghost use Rattle.disk_model.specs.Disk.{IsAllSynced, LeavesOnly};
ghost use Rattle.disk_model.specs.Faults.{faults_after};
ghost use Rattle.image_model.specs.Geometry.{device_bytes_of};
ghost use Rattle.image_model.specs.declared.command.Kind.TheVariants as Kind;
ghost use Rattle.image_transfer.specs.Import.{IsImported, IsSomeImage, LeavesImport, LeavesSomeImage, faults_by};
ghost use Rattle.image_transfer.specs.declared.fault.TransferFault.TheVariants as TransferFault;
ghost use Rattle.image_transfer.specs.inner.Import.{AreBytesOf, AreSomeIn, AreZeroBlocks, IsFilled, LeavesNone};

use crate::fault::TransferFault;
use crate::source::Source;
use crate::zeroes::{BLOCK, is_zero_block};
use alloc_map::AllocMap;
use checkpoint::Keeper;
use disk_model::{DeviceFault, Disk};
use image_model::{Geometry, Kind};
use regions::Regions;
use std::alloc::Global;

// The most blocks that are read at once, and written in one call of the device: 1 MiB.
const MOST_BLOCKS: u64 = 256;

/// Makes the device an image of the next bytes of the source: a block is data if one of its bytes isn't zero, and else a hole.
///
/// It syncs, and then closes the gates of both headers and syncs. Then each run of data is written to its place, the journal is emptied, map and
/// header are written, and once all of that is stable the header's gate is opened. It takes memory for one map and 1 MiB.
pub fn import<D: Disk, S: Source>(
    alloc: Global,
    disk: &mut D,
    geometry: Geometry,
    source: &mut S,
) -> Result<(), TransferFault>
    requires size { D.extent disk.old ≡ device_bytes_of geometry.blocks geometry.area }
    requires first { S.block source.old ≡ 0 }
    ensures extent { D.extent disk.new ≡ D.extent disk.old }
    ensures faults_ok { OnOk result (D.faults disk.new ≡ D.faults disk.old) }
    ensures faults_err { IfErr result (λ fault. D.faults disk.new ≡ faults_by fault (D.faults disk.old)) }
    ensures honest { D.honest disk.new ↔ D.honest disk.old }
    ensures unchanged { IfErr result (λ fault. fault ≡ TransferFault.NoMemory → disk.new ≡ disk.old) }

    // On an honest device, if the source reads as it is.
    ensures synced { D.honest disk.old → OnOk result (IsAllSynced (D.state disk.new)) }
    ensures imported { D.honest disk.old → S.honest source.old
        → OnOk result (IsImported (S.byte source.old) geometry (D.state disk.new).seen) }
    ensures any_moment { D.honest disk.old → S.honest source.old
        → LeavesOnly (D.state disk.old) (D.state disk.new) (LeavesImport (D.state disk.old) (S.byte source.old) geometry) }
    // Whatever the source reads as, the device was made some image, and a crash leaves that, none, or what was there.
    ensures made { D.honest disk.old → OnOk result (IsSomeImage geometry (D.state disk.new).seen) }
    ensures whole { D.honest disk.old → LeavesOnly (D.state disk.old) (D.state disk.new) (LeavesSomeImage (D.state disk.old) geometry) }
{
    let mut map = AllocMap::new(alloc, geometry.blocks)?;
    let mut buffer = vec![in alloc; 0; BLOCK * MOST_BLOCKS as usize]?;
    make_image(alloc, disk, geometry, source, &mut map, &mut buffer)
}

// Makes the device an image of the source's blocks, by a map of holes and a buffer.
fn make_image<D: Disk, S: Source>(
    alloc: Global,
    disk: &mut D,
    geometry: Geometry,
    source: &mut S,
    map: &mut AllocMap,
    buffer: &mut Vec<u8>,
) -> Result<(), TransferFault>
    requires size { D.extent disk.old ≡ device_bytes_of geometry.blocks geometry.area }
    requires first { S.block source.old ≡ 0 }
    requires holes { map.old ≡ replicate geometry.blocks Kind.Hole }
    requires buffer { length buffer.old.items ≡ 1048576 }
    ensures extent { D.extent disk.new ≡ D.extent disk.old }
    ensures faults_ok { OnOk result (D.faults disk.new ≡ D.faults disk.old) }
    ensures faults_err { IfErr result (λ fault. D.faults disk.new ≡ faults_by fault (D.faults disk.old)) }
    ensures honest { D.honest disk.new ↔ D.honest disk.old }
    ensures memory { IfErr result (λ fault. fault ≡ TransferFault.NoMemory → ⊥) }

    ensures synced { D.honest disk.old → OnOk result (IsAllSynced (D.state disk.new)) }
    ensures imported { D.honest disk.old → S.honest source.old
        → OnOk result (IsImported (S.byte source.old) geometry (D.state disk.new).seen) }
    ensures any_moment { D.honest disk.old → S.honest source.old
        → LeavesOnly (D.state disk.old) (D.state disk.new) (LeavesImport (D.state disk.old) (S.byte source.old) geometry) }
    // Whatever the source reads as, the device was made some image, and a crash leaves that, none, or what was there.
    ensures made { D.honest disk.old → OnOk result (IsSomeImage geometry (D.state disk.new).seen) }
    ensures whole { D.honest disk.old → LeavesOnly (D.state disk.old) (D.state disk.new) (LeavesSomeImage (D.state disk.old) geometry) }
{
    Keeper::close_headers(disk)?;
    fill(disk, geometry, source, map, buffer)?;
    Keeper::open_header_over(alloc, disk, geometry, map)?;
    Ok(())
}

// Writes the data of all blocks to their places, and notes their states.
fn fill<D: Disk, S: Source>(
    disk: &mut D,
    geometry: Geometry,
    source: &mut S,
    map: &mut AllocMap,
    buffer: &mut Vec<u8>,
) -> Result<(), TransferFault>
    requires size { D.extent disk.old ≡ device_bytes_of geometry.blocks geometry.area }
    requires first { S.block source.old ≡ 0 }
    requires holes { map.old ≡ replicate geometry.blocks Kind.Hole }
    requires buffer { length buffer.old.items ≡ 1048576 }
    ensures extent { D.extent disk.new ≡ D.extent disk.old }
    ensures faults_ok { OnOk result (D.faults disk.new ≡ D.faults disk.old) }
    ensures faults_err { IfErr result (λ fault. D.faults disk.new ≡ faults_by fault (D.faults disk.old)) }
    ensures honest { D.honest disk.new ↔ D.honest disk.old }
    ensures memory { IfErr result (λ fault. fault ≡ TransferFault.NoMemory → ⊥) }
    ensures count { length map.new ≡ geometry.blocks }

    ensures closed { D.honest disk.old → AreClosed (D.state disk.old) → OnOk result (AreClosed (D.state disk.new)) }
    ensures filled { D.honest disk.old → AreClosed (D.state disk.old) → S.honest source.old
        → OnOk result (IsFilled (S.byte source.old) geometry (D.state disk.new).seen map.new geometry.blocks) }
    ensures any_moment { D.honest disk.old → AreClosed (D.state disk.old) → LeavesOnly (D.state disk.old) (D.state disk.new) LeavesNone }
{
    let mut block = 0;
    while block < geometry.blocks {
        block += source.pass_zeroes(geometry.blocks - block)?;
        let count = (geometry.blocks - block).min(MOST_BLOCKS);
        copy(
            disk,
            geometry,
            source,
            block,
            &mut buffer[..BLOCK * count as usize],
            map,
        )?;
        block += count;
    }
    Ok(())
}

// Reads the blocks that the buffer takes, which are those from `first` on, and writes their data.
fn copy<D: Disk, S: Source>(
    disk: &mut D,
    geometry: Geometry,
    source: &mut S,
    first: u64,
    buffer: &mut [u8],
    map: &mut AllocMap,
) -> Result<(), TransferFault>
    requires size { D.extent disk.old ≡ device_bytes_of geometry.blocks geometry.area }
    requires first { S.block source.old ≡ first }
    requires count { length map.old ≡ geometry.blocks }
    requires whole { length buffer.old % 4096 ≡ 0 }
    requires inside { 4096 * first + length buffer.old ≤ 4096 * geometry.blocks }
    ensures extent { D.extent disk.new ≡ D.extent disk.old }
    ensures faults_ok { OnOk result (D.faults disk.new ≡ D.faults disk.old) }
    ensures faults_err { IfErr result (λ fault. D.faults disk.new ≡ faults_by fault (D.faults disk.old)) }
    ensures honest { D.honest disk.new ↔ D.honest disk.old }
    ensures memory { IfErr result (λ fault. fault ≡ TransferFault.NoMemory → ⊥) }
    ensures count { length map.new ≡ geometry.blocks }
    ensures buffer { length buffer.new ≡ length buffer.old }
    ensures source { S.honest source.new ↔ S.honest source.old }
    ensures byte { S.honest source.old → S.byte source.new ≡ S.byte source.old }
    ensures block { OnOk result (S.block source.new ≡ first + length buffer.old / 4096) }

    ensures closed { D.honest disk.old → AreClosed (D.state disk.old) → OnOk result (AreClosed (D.state disk.new)) }
    ensures filled { D.honest disk.old → AreClosed (D.state disk.old) → S.honest source.old
        → IsFilled (S.byte source.old) geometry (D.state disk.old).seen map.old first
        → OnOk result (IsFilled (S.byte source.old) geometry (D.state disk.new).seen map.new (first + length buffer.old / 4096)) }
    ensures any_moment { D.honest disk.old → AreClosed (D.state disk.old) → LeavesOnly (D.state disk.old) (D.state disk.new) LeavesNone }
{
    source.read(buffer)?;
    put_blocks(disk, geometry, first, buffer, map)?;
    Ok(())
}

// Writes the blocks of these bytes that aren't all zero to their places, and notes that they are data.
fn put_blocks<D: Disk>(
    disk: &mut D,
    geometry: Geometry,
    first: u64,
    bytes: &[u8],
    map: &mut AllocMap,
) -> Result<(), DeviceFault>
    requires size { D.extent disk.old ≡ device_bytes_of geometry.blocks geometry.area }
    requires count { length map.old ≡ geometry.blocks }
    requires whole { length bytes.now % 4096 ≡ 0 }
    requires inside { 4096 * first + length bytes.now ≤ 4096 * geometry.blocks }
    ensures extent { D.extent disk.new ≡ D.extent disk.old }
    ensures faults { D.faults disk.new ≡ faults_after result (D.faults disk.old) }
    ensures honest { D.honest disk.new ↔ D.honest disk.old }
    ensures count { length map.new ≡ geometry.blocks }

    ensures closed { D.honest disk.old → AreClosed (D.state disk.old) → OnOk result (AreClosed (D.state disk.new)) }
    ensures filled { D.honest disk.old → AreClosed (D.state disk.old) → (byte : ℕ → ℕ) → AreBytesOf byte first bytes.now
        → IsFilled byte geometry (D.state disk.old).seen map.old first
        → OnOk result (IsFilled byte geometry (D.state disk.new).seen map.new (first + length bytes.now / 4096)) }
    ensures any_moment { D.honest disk.old → AreClosed (D.state disk.old) → LeavesOnly (D.state disk.old) (D.state disk.new) LeavesNone }
{
    let count = bytes.len() / BLOCK;
    let mut at = 0;
    while at < count {
        let end = zeroes_end(bytes, at, count);
        at = data_end(bytes, end, count);
        put_run(disk, geometry, first, bytes, end, at, map)?;
    }
    Ok(())
}

// The first block from one on and before another that isn't all zero; that other one if there is none.
pub fn zeroes_end(bytes: &[u8], from: usize, to: usize) -> usize
    requires order { from ≤ to }
    requires inside { 4096 * to ≤ length bytes.now }
    ensures within { (from ≤ result) × (result ≤ to) }
    ensures zeroes { AreZeroBlocks bytes.now from result }
    ensures some { result < to → AreSomeIn bytes.now result (result + 1) }
{
    let mut end = from;
    while end < to && is_zero_block(bytes, end) {
        end += 1;
    }
    end
}

// The first block from one on and before another that is all zero; that other one if there is none.
pub fn data_end(bytes: &[u8], from: usize, to: usize) -> usize
    requires order { from ≤ to }
    requires inside { 4096 * to ≤ length bytes.now }
    ensures within { (from ≤ result) × (result ≤ to) }
    ensures some { AreSomeIn bytes.now from result }
    ensures longer { AreSomeIn bytes.now from (from + 1) → from < to → from < result }
{
    let mut end = from;
    while end < to && !is_zero_block(bytes, end) {
        end += 1;
    }
    end
}

// Writes the blocks from one on and before another to their places, if there are some, and notes that they are data.
fn put_run<D: Disk>(
    disk: &mut D,
    geometry: Geometry,
    first: u64,
    bytes: &[u8],
    from: usize,
    to: usize,
    map: &mut AllocMap,
) -> Result<(), DeviceFault>
    requires size { D.extent disk.old ≡ device_bytes_of geometry.blocks geometry.area }
    requires count { length map.old ≡ geometry.blocks }
    requires order { from ≤ to }
    requires whole { 4096 * to ≤ length bytes.now }
    requires inside { 4096 * first + length bytes.now ≤ 4096 * geometry.blocks }
    ensures extent { D.extent disk.new ≡ D.extent disk.old }
    ensures faults { D.faults disk.new ≡ faults_after result (D.faults disk.old) }
    ensures honest { D.honest disk.new ↔ D.honest disk.old }
    ensures count { length map.new ≡ geometry.blocks }

    ensures closed { D.honest disk.old → AreClosed (D.state disk.old) → OnOk result (AreClosed (D.state disk.new)) }
    ensures filled { D.honest disk.old → AreClosed (D.state disk.old) → (byte : ℕ → ℕ) → AreBytesOf byte first bytes.now → AreSomeIn bytes.now from to
        → IsFilled byte geometry (D.state disk.old).seen map.old (first + from)
        → OnOk result (IsFilled byte geometry (D.state disk.new).seen map.new (first + to)) }
    ensures any_moment { D.honest disk.old → AreClosed (D.state disk.old) → LeavesOnly (D.state disk.old) (D.state disk.new) LeavesNone }
{
    if from == to {
        return Ok(());
    }
    let place = first + from as u64;
    Regions::from_geometry(&geometry).write_blocks(disk, place, &bytes[BLOCK * from..BLOCK * to])?;
    map.set_range(place, (to - from) as u64, Kind::Data);
    Ok(())
}
