//! What a FLUSH of one pass covers, and what is there once it was answered; and a pass that goes on by itself.
ghost use Rattle.std.specs.Prelude.{◌≡◌, ◌+◌, ◌<◌, ◌^◌};
ghost use Rattle.shared_store.specs.Orders.{SpanRead};

use crate::requests::{flush, fresh, has_block, reads_back, write_block};
use crate::threads::start_storing;
use checkpoint::Keeper;
use disk_model::{Disk, FileDisk};
use export::{ClientPass, Export, ExportName, OpenDevice};
use image_model::Geometry;
use request_core::Mode;
use std::alloc::Global;
use std::fs::{self, OpenOptions};
use std::marker::Brand;
use std::rt::Clock;
use std::sync::Wait;
use std::thread::{self, Threads};

// How many blocks a pass writes by itself, over fewer frames.
const ALONE: u64 = 700;

const FRAMES: u32 = 512;

// What two passes did: whether each call was answered as it had to be.
#[derive(Drop)]
struct Done {
    written: bool,
    early: bool,
    flushed: bool,
    late: bool,
    read: bool,
}

// Writes this many blocks from one on.
fn write_all<B: ExportName, D: Disk, R: Wait + Clock>(
    rt: &R,
    alloc: Global,
    export: &Export<B, D, ()>,
    pass: &mut ClientPass<B>,
    first: u64,
    count: u64,
) -> bool
    requires { first + count < 2 ^ 24 }
{
    let mut written = true;
    for block in first..first + count {
        written &= write_block(rt, alloc, export, pass, block, 1);
    }
    written
}

// Whether this many blocks from the first one on read back.
fn read_all<B: ExportName, D: Disk, R: Wait + Clock>(
    rt: &R,
    alloc: Global,
    export: &Export<B, D, ()>,
    pass: &mut ClientPass<B>,
    count: u64,
) -> bool
    requires { count < 2 ^ 24 }
{
    let mut read = true;
    for block in 0..count {
        read &= reads_back(rt, alloc, export, pass, block, 1);
    }
    read
}

// Two passes write 20 blocks each; one tells the other, which flushes and reads all.
fn two_passes<B: ExportName, D: Disk, R: Wait + Clock>(
    rt: &R,
    alloc: Global,
    export: &Export<B, D, ()>,
    mut one: ClientPass<B>,
    mut other: ClientPass<B>,
) -> Done {
    let written = write_all(rt, alloc, export, &mut one, 0, 20)
        & write_all(rt, alloc, export, &mut other, 20, 20);
    let told = export.tell(&mut one);
    export.learn(&mut other, told);
    let early = export.flush_now(&mut one).is_some();
    let flushed = flush(rt, alloc, export, &mut other);
    let late = export.flush_now(&mut other).is_some();
    let read = read_all(rt, alloc, export, &mut other, 40);
    export.leave(rt, one);
    export.leave(rt, other);
    Done {
        written,
        early,
        flushed,
        late,
        read,
    }
}

// One pass leaves, and the other goes on. It writes 20 blocks with a FLUSH after each, so that a group has one command, and then
// more than there are frames, so that some wait for room. It reads all of them twice, the first ones from the device.
fn one_pass_alone<B: ExportName, D: Disk, R: Wait + Clock>(
    rt: &R,
    alloc: Global,
    export: &Export<B, D, ()>,
    mut one: ClientPass<B>,
    other: ClientPass<B>,
) -> Done {
    export.leave(rt, other);
    let mut flushed = true;
    let mut written = true;
    for block in 0..20 {
        written &= write_block(rt, alloc, export, &mut one, block, 1);
        flushed &= flush(rt, alloc, export, &mut one);
    }
    written &= write_all(rt, alloc, export, &mut one, 20, ALONE - 20);
    let early = export.flush_now(&mut one).is_some();
    flushed &= flush(rt, alloc, export, &mut one);
    let late = export.flush_now(&mut one).is_some();
    let read = read_all(rt, alloc, export, &mut one, ALONE)
        & read_all(rt, alloc, export, &mut one, ALONE);
    export.leave(rt, one);
    Done {
        written,
        early,
        flushed,
        late,
        read,
    }
}

// The number that a device opens with again, and whether its image has the bytes of the first N blocks.
fn reopened<D: Disk + Drop>(alloc: Global, disk: D, count: u64) -> Option<(u64, bool)> {
    let mut keeper = Keeper::open(alloc, disk).ok()?;
    for block in 0..count {
        if !has_block(&mut keeper, block, 1, 1) {
            return Some((keeper.count(), false));
        }
    }
    Some((keeper.count(), true))
}

// Has 40 blocks written by two passes, or more by one; what they did, and the device that is left.
fn run<B: ExportName + Send + Sync, D: Disk + Send + Drop, R: Threads + Wait + Clock + Sync>(
    rt: &R,
    alloc: Global,
    device: OpenDevice<D, ()>,
    count: u64,
) -> Option<(Done, D)>
    requires board { device.blank.board ≡ B.board }
    requires named { device.blank.opening ≡ B.opening }
    requires image { device.keeper.geometry.blocks ≡ B.image.blocks }
    requires trusted { B.trusted → ⊥ }
    requires vouches { (read : SpanRead) → B.vouches read }
    requires geometry { device.keeper.geometry ≡ B.geometry }
    requires bound { B.most_pending ≡ 18446744073709551615 }
{
    let (export, mut passes, last) = Export::<B, D, ()>::open(
        alloc,
        device,
        FRAMES,
        Mode::Writeback,
        2,
        u64::MAX,
    ).ok()?;
    let other = passes.pop()?;
    let one = passes.pop()?;
    let done = with_threads(rt, alloc, &export, one, other, count == ALONE)?;
    Some((done, export.close(last).0))
}

// Has the passes served while a flusher and a checkpointer run; none where these can't be started.
fn with_threads<B: ExportName + Send + Sync, D: Disk + Send, R: Threads + Wait + Clock + Sync>(
    rt: &R,
    alloc: Global,
    export: &Export<B, D, ()>,
    one: ClientPass<B>,
    other: ClientPass<B>,
    alone: bool,
) -> Option<Done> {
    thread::scope(thread::scope_env(), rt, move |scope| {
        if !start_storing(scope, rt, export) {
            export.leave(rt, one);
            export.leave(rt, other);
            return None;
        }
        Some(if alone {
            one_pass_alone(rt, alloc, export, one, other)
        } else {
            two_passes(rt, alloc, export, one, other)
        })
    })
}

// Over a file, which is closed and opened anew before it is looked at.
#[test]
fn flushed_bytes_are_there_after_reopen(rt: HostRuntime) {
    let path = "flushed.img";
    let geometry = Geometry::new(64, 2_097_152).expect(&rt, "sizes of a device");
    let size = geometry.device_bytes();
    let file = OpenOptions::new()
        .read(true)
        .write(true)
        .create(true)
        .truncate(true)
        .open(&rt, path)
        .expect(&rt, "a new file");
    file.set_len(size)
        .expect(&rt, "a file as long as the device");
    let mut disk = FileDisk::new(file, size);
    Keeper::format(rt.alloc(), &mut disk, geometry).expect(&rt, "an image of holes");
    let device = OpenDevice::open(rt.alloc(), disk, None)
        .ok()
        .expect(&rt, "a device over holes");
    let (done, disk) = run::<Brand, _, _>(&rt, rt.alloc(), device, 40).expect(&rt, "two passes");
    drop(disk);
    let again = OpenOptions::new()
        .read(true)
        .write(true)
        .open(&rt, path)
        .expect(&rt, "the file again");
    let found = reopened(rt.alloc(), FileDisk::new(again, size), 40);
    fs::remove_file(&rt, path).expect(&rt, "an end of the file");
    assert!(rt; done.written);
    assert!(rt; !done.early);
    assert!(rt; done.flushed);
    assert!(rt; done.late);
    assert!(rt; done.read);
    assert!(rt; found == Some((40, true)));
}

#[test]
fn one_pass_goes_on_alone(rt: HostRuntime) {
    let device = fresh(rt.alloc(), 1024, 2_097_152).expect(&rt, "a device over holes");
    let (done, disk) = run::<Brand, _, _>(&rt, rt.alloc(), device, ALONE).expect(&rt, "two passes");
    assert!(rt; done.written);
    assert!(rt; done.flushed);
    assert!(rt; done.late);
    assert!(rt; done.read);
    assert!(rt; reopened(rt.alloc(), disk, ALONE) == Some((ALONE, true)));
}
