//! An area over a device whose reads give other bytes after a failed call.
ghost use Rattle.std.specs.Prelude.{◌≡◌, ◌<◌, ◌^◌, IfOk};

use crate::areas::last_touch;
use crate::scrambling::ScramblingDisk;
use disk_model::{DeviceFault, Disk};
use image_model::Command;
use journal::{Area, Group};
use journal_format::{JournalFault, Touch};
use std::alloc::{AllocError, Global};
use std::process::Abort;
use std::test::Fail;

// The byte at a place.
fn byte_at(rt: &impl Abort, disk: &mut ScramblingDisk, place: u64) -> u8
    ensures { ⟦<ScramblingDisk as Disk>⟧.extent disk.new ≡ ⟦<ScramblingDisk as Disk>⟧.extent disk.old }
{
    let mut byte = [0];
    assert!(rt; place < disk.size());
    assert_eq!(rt; disk.read(place, &mut byte), Ok(()));
    byte[0]
}

fn write(
    rt: &impl Abort,
    disk: &mut ScramblingDisk,
    place: u64,
    byte: u8,
) -> Result<(), DeviceFault> {
    assert!(rt; place < disk.size());
    disk.write_at(place, &[byte])
}

// A byte of each kind: synced, unsynced where a write fails, and that write's own.
#[test]
fn reads_after_a_failed_write(rt: HostRuntime) -> Result<(), Fail> {
    let mut disk = ScramblingDisk::new(rt.alloc(), 8, 0x30)?;
    write(&rt, &mut disk, 0, 1)?;
    disk.sync()?;
    write(&rt, &mut disk, 1, 2)?;
    assert!(rt; byte_at(&rt, &mut disk, 1) == 2);
    disk.fail(1);
    assert!(rt; write(&rt, &mut disk, 4, 3) == Err(DeviceFault));
    assert!(rt; byte_at(&rt, &mut disk, 0) == 1);
    assert!(rt; byte_at(&rt, &mut disk, 1) == 0x32);
    assert!(rt; byte_at(&rt, &mut disk, 4) == 0x33);
    write(&rt, &mut disk, 1, 5)?;
    assert!(rt; byte_at(&rt, &mut disk, 1) == 0x35);
    disk.sync()?;
    assert!(rt; byte_at(&rt, &mut disk, 1) == 0x35);
    write(&rt, &mut disk, 1, 5)?;
    assert!(rt; byte_at(&rt, &mut disk, 1) == 5);
    Ok(())
}

// The bytes of an area, which is the whole device.
const AREA_BYTES: u32 = 16_384;

// A put of block 3.
#[tactic(auto, using(std::proofs::lemmas::List::Sums::sum_by_push))]
fn put(alloc: Global, number: u32, byte: u8) -> Result<Group, AllocError> {
    let mut commands = Vec::new(alloc);
    commands.push(Command::Put {
        first: 3,
        bytes: vec![in alloc; byte; 4096]?,
    })?;
    Ok(Group::new(number as u64, commands))
}

// Adds a put of block 3 to the area that is found on the device.
fn append(
    alloc: Global,
    disk: &mut ScramblingDisk,
    number: u32,
    byte: u8,
) -> Result<(), JournalFault>
    requires { ⟦<ScramblingDisk as Disk>⟧.extent disk.old ≡ 16384 }
    ensures { ⟦<ScramblingDisk as Disk>⟧.extent disk.new ≡ 16384 }
{
    let mut area = found(alloc, disk)?;
    match area.append(disk, put(alloc, number, byte)?) {
        Ok(()) => Ok(()),
        Err((fault, group)) => {
            let _parts = group.into_parts();
            Err(fault)
        }
    }
}

// The area that is found on the device, which is synced first.
fn found(alloc: Global, disk: &mut ScramblingDisk) -> Result<Area, JournalFault>
    requires { ⟦<ScramblingDisk as Disk>⟧.extent disk.old ≡ 16384 }
    ensures extent { ⟦<ScramblingDisk as Disk>⟧.extent disk.new ≡ 16384 }
    ensures from { IfOk result (λ area. area.from ≡ 0) }
    ensures bytes { IfOk result (λ area. area.bytes ≡ 16384) }
{
    disk.sync()?;
    let mut area = Area::new(alloc, 0, AREA_BYTES, 8, 1);
    area.scan(alloc, disk)?;
    Ok(area)
}

// The byte that stands at both ends of block 3, and the number of the next group.
fn stored(rt: &impl Abort, alloc: Global, disk: &mut ScramblingDisk) -> Result<(u8, u64), Fail>
    requires { ⟦<ScramblingDisk as Disk>⟧.extent disk.old ≡ 16384 }
    ensures { ⟦<ScramblingDisk as Disk>⟧.extent disk.new ≡ 16384 }
{
    let area = found(alloc, disk)?;
    let Some(Touch::Put(place)) = last_touch(&area, 3) else {
        return Err(Fail::from("no put"));
    };
    let first = byte_at(rt, disk, place);
    assert!(rt; place < 1 << 32 && byte_at(rt, disk, place + 4095) == first);
    Ok((first, area.next()))
}

// A device with a put of block 3, and a second one of which this call has failed. What is found then, and after the second
// one is stored again where it isn't found.
fn check_failed_call(
    rt: &impl Abort,
    alloc: Global,
    call: u64,
    scrambles: u8,
    open: bool,
) -> Result<(), Fail>
    requires { call < 2 ^ 63 }
{
    let mut disk = ScramblingDisk::new(alloc, AREA_BYTES as u64, scrambles)?;
    append(alloc, &mut disk, 1, 0x41)?;
    // The sync before the scan is the first.
    disk.fail(1 + call);
    let failed = append(alloc, &mut disk, 2, 0x42);
    assert!(rt; failed == Err(JournalFault::DeviceFault));
    assert_eq!(rt; disk.failures(), 1);
    let wanted = if open { (0x42, 3) } else { (0x41, 2) };
    assert_eq!(rt;
        stored(rt, alloc, &mut disk)?,
        wanted,
        "call {call}, bits {scrambles}"
    );
    if !open {
        append(alloc, &mut disk, 2, 0x43)?;
        assert_eq!(rt; stored(rt, alloc, &mut disk)?, (0x43, 3));
    }
    Ok(())
}

#[test]
fn failed_calls_of_an_append(rt: HostRuntime) -> Result<(), Fail> {
    for (scrambles, gate_reads_as_open) in [(0, true), (1, false), (0x30, false)] {
        for call in 1..5 {
            let open = call > 2 && gate_reads_as_open;
            check_failed_call(&rt, rt.alloc(), call, scrambles, open)?;
        }
    }
    Ok(())
}

// The commands of a group that was stored, and the memory of its bytes, are handed out once; memory that is given back is
// handed out again.
#[test]
fn memory_of_a_group_is_used_again(rt: HostRuntime) -> Result<(), Fail> {
    let alloc = rt.alloc();
    let mut disk = ScramblingDisk::new(alloc, AREA_BYTES as u64, 0)?;
    let mut area = found(alloc, &mut disk)?;
    if let Err((_fault, group)) = area.append(&mut disk, put(alloc, 1, 0x41)?) {
        let _parts = group.into_parts();
        return Err(Fail::from("no append"));
    }
    assert_eq!(rt; area.take_stored().len(), 1);
    assert_eq!(rt; area.take_stored().len(), 0);
    let buffer = area.take_buffer();
    let room = buffer.capacity();
    assert!(rt; room >= 4096);
    assert_eq!(rt; area.take_buffer().capacity(), 0);
    area.give_buffer(buffer);
    assert_eq!(rt; area.take_buffer().capacity(), room);
    Ok(())
}
