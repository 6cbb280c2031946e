//! What passes of one export know of one another, and what they read.
ghost use Rattle.std.specs.Prelude.{◌≡◌, ◌+◌, ◌<◌};
ghost use Rattle.shared_store.specs.Orders.{SpanRead};

use crate::requests::{flush, fresh, has_block, reads_back, write_block};
use checkpoint::Keeper;
use disk_model::SimDisk;
use export::{ClientPass, Export, ExportName, OpenDevice};
use request_core::Mode;
use std::alloc::Global;
use std::marker::Brand;
use std::rt::Clock;
use std::sync::Wait;
use std::sync::atomic::{AtomicU64, Ordering};
use std::thread::{self, Threads};

// Whether one pass reads what another wrote, once it was told; the number that is stored then.
fn tell_and_read<B: ExportName, R: Wait + Clock>(
    rt: &R,
    alloc: Global,
    device: OpenDevice<SimDisk, ()>,
) -> Option<(bool, u64)>
    requires board { device.blank.board ≡ B.board }
    requires named { device.blank.opening ≡ B.opening }
    requires image { device.keeper.geometry.blocks ≡ B.image.blocks }
    requires trusted { B.trusted → ⊥ }
    requires vouches { (read : SpanRead) → B.vouches read }
    requires geometry { device.keeper.geometry ≡ B.geometry }
    requires bound { B.most_pending ≡ 18446744073709551615 }
{
    let (export, mut passes, last) = Export::<B, SimDisk, ()>::open(
        alloc,
        device,
        512,
        Mode::Writeback,
        2,
        u64::MAX,
    ).ok()?;
    let mut other = passes.pop()?;
    let mut one = passes.pop()?;
    let mut good = true;
    for round in 1..4 {
        good &= write_block(rt, alloc, &export, &mut one, 5, round);
    }
    let told = export.tell(&mut one);
    export.learn(&mut other, told);
    good &= reads_back(rt, alloc, &export, &mut other, 5, 3);
    good &= reads_back(rt, alloc, &export, &mut other, 6, 0);
    export.leave(rt, one);
    export.leave(rt, other);
    let keeper = Keeper::open(alloc, export.close(last).0).ok()?;
    Some((good, keeper.count()))
}

#[test]
fn told_pass_reads_back(rt: HostRuntime) {
    let device = fresh(rt.alloc(), 64, 2_097_152).expect(&rt, "a device over holes");
    let (good, number) = tell_and_read::<Brand, _>(&rt, rt.alloc(), device).expect(
        &rt,
        "two passes",
    );
    assert!(rt; good);
    // There was no flusher, and nobody asked for one.
    assert_eq!(rt; number, 0);
}

// What `flush_now` says after a write, after a FLUSH, by a pass that hasn't looked yet, and after another write.
#[derive(Drop)]
struct Said {
    written: bool,
    flushed: bool,
    fresh: bool,
    again: bool,
}

fn ask<B: ExportName, R: Wait + Clock>(
    rt: &R,
    alloc: Global,
    export: &Export<B, SimDisk, ()>,
    mut one: ClientPass<B>,
    mut other: ClientPass<B>,
) -> Option<Said> {
    let mut good = write_block(rt, alloc, export, &mut one, 1, 1);
    let written = export.flush_now(&mut one).is_some();
    good &= flush(rt, alloc, export, &mut one);
    let flushed = export.flush_now(&mut one).is_some();
    let fresh = export.flush_now(&mut other).is_some();
    good &= write_block(rt, alloc, export, &mut one, 2, 1);
    let again = export.flush_now(&mut other).is_some();
    export.leave(rt, one);
    export.leave(rt, other);
    if !good {
        return None;
    }
    Some(Said {
        written,
        flushed,
        fresh,
        again,
    })
}

// None where the flusher can't be started.
fn with_flusher<B: ExportName + Send + Sync, R: Threads + Wait + Clock + Sync>(
    rt: &R,
    alloc: Global,
    export: &Export<B, SimDisk, ()>,
    one: ClientPass<B>,
    other: ClientPass<B>,
) -> Option<Said> {
    thread::scope(thread::scope_env(), rt, move |scope| {
        if scope.spawn(move || export.flusher(rt, &mut ())).is_err() {
            return None;
        }
        ask(rt, alloc, export, one, other)
    })
}

fn ask_beside_a_flusher<B: ExportName + Send + Sync, R: Threads + Wait + Clock + Sync>(
    rt: &R,
    alloc: Global,
    device: OpenDevice<SimDisk, ()>,
) -> Option<Said>
    requires board { device.blank.board ≡ B.board }
    requires named { device.blank.opening ≡ B.opening }
    requires image { device.keeper.geometry.blocks ≡ B.image.blocks }
    requires trusted { B.trusted → ⊥ }
    requires vouches { (read : SpanRead) → B.vouches read }
    requires geometry { device.keeper.geometry ≡ B.geometry }
    requires bound { B.most_pending ≡ 18446744073709551615 }
{
    let (export, mut passes, _last) = Export::<B, SimDisk, ()>::open(
        alloc,
        device,
        512,
        Mode::Writeback,
        2,
        u64::MAX,
    ).ok()?;
    let other = passes.pop()?;
    let one = passes.pop()?;
    with_flusher(rt, alloc, &export, one, other)
}

#[test]
fn flush_now_is_ok_after_publish(rt: HostRuntime) {
    let device = fresh(rt.alloc(), 64, 2_097_152).expect(&rt, "a device over holes");
    let said = ask_beside_a_flusher::<Brand, _>(&rt, rt.alloc(), device).expect(&rt, "a flusher");
    assert!(rt; !said.written);
    assert!(rt; said.flushed);
    assert!(rt; said.fresh);
    assert!(rt; !said.again);
}

// Writes 20 blocks of its own; how many were answered Ok is added up.
fn write_its_own<B: ExportName, R: Wait + Clock>(
    rt: &R,
    alloc: Global,
    export: &Export<B, SimDisk, ()>,
    mut pass: ClientPass<B>,
    places: &AtomicU64,
    written: &AtomicU64,
) {
    let place = places.fetch_add(1, Ordering::SeqCst) % 2;
    for block in 20 * place..20 * place + 20 {
        if write_block(rt, alloc, export, &mut pass, block, 1) {
            written.fetch_add(1, Ordering::SeqCst);
        }
    }
    export.leave(rt, pass);
}

// A thread for each pass; how many writes were answered Ok.
fn write_by_threads<B: ExportName + Send + Sync, R: Threads + Wait + Clock + Sync>(
    rt: &R,
    alloc: Global,
    export: &Export<B, SimDisk, ()>,
    passes: Vec<ClientPass<B>>,
) -> u64 {
    let next = AtomicU64::new(0);
    let sum = AtomicU64::new(0);
    let places = &next;
    let written = &sum;
    thread::scope(thread::scope_env(), rt, move |scope| {
        for pass in passes {
            if let Err(refused) = scope.spawn(move || write_its_own(
                rt, alloc, export, pass, places, written,
            )) {
                (refused.value)();
            }
        }
    });
    sum.load(Ordering::SeqCst)
}

// What two threads wrote, the number that the device opens with again, and whether it has all their bytes.
fn share<B: ExportName + Send + Sync, R: Threads + Wait + Clock + Sync>(
    rt: &R,
    alloc: Global,
    device: OpenDevice<SimDisk, ()>,
) -> Option<(u64, u64, bool)>
    requires board { device.blank.board ≡ B.board }
    requires named { device.blank.opening ≡ B.opening }
    requires image { device.keeper.geometry.blocks ≡ B.image.blocks }
    requires trusted { B.trusted → ⊥ }
    requires vouches { (read : SpanRead) → B.vouches read }
    requires geometry { device.keeper.geometry ≡ B.geometry }
    requires bound { B.most_pending ≡ 18446744073709551615 }
{
    let (export, passes, last) = Export::<B, SimDisk, ()>::open(
        alloc,
        device,
        512,
        Mode::Writeback,
        2,
        u64::MAX,
    ).ok()?;
    let written = write_by_threads(rt, alloc, &export, passes);
    // Once all have left, all is stored, with nobody waiting for it.
    export.flusher(rt, &mut ());
    let mut keeper = Keeper::open(alloc, export.close(last).0).ok()?;
    let mut kept = true;
    for block in 0..40 {
        kept &= has_block(&mut keeper, block, 1, 1);
    }
    Some((written, keeper.count(), kept))
}

#[test]
fn two_threads_share_an_export(rt: HostRuntime) {
    let device = fresh(rt.alloc(), 64, 2_097_152).expect(&rt, "a device over holes");
    let (written, number, kept) = share::<Brand, _>(&rt, rt.alloc(), device).expect(
        &rt,
        "two threads",
    );
    assert_eq!(rt; written, 40);
    assert_eq!(rt; number, 40);
    assert!(rt; kept);
}
