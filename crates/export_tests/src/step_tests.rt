//! A group that is stored while a checkpoint goes on.
ghost use Rattle.std.specs.Prelude.{◌≡◌, ◌*◌, ◌+◌, ◌<◌, ◌^◌};
ghost use Rattle.shared_store.specs.Orders.{SpanRead};

use crate::requests::{flush, fresh, write_block};
use checkpoint::Keeper;
use disk_model::SimDisk;
use export::{ClientPass, Export, ExportName, OpenDevice, Point, SyncPoints};
use request_core::Mode;
use std::alloc::Global;
use std::marker::Brand;
use std::rt::Clock;
use std::sync::Wait;
use std::sync::atomic::{AtomicBool, Ordering};
use std::thread::{self, Threads};
use std::time::Duration;

// What came of a run: whether all was answered as it had to be, and the number that the device opens with again.
#[derive(Drop)]
struct Ran {
    good: bool,
    number: u64,
}

// Holds the checkpointer between two copies until a FLUSH was answered, for at most 10,000 turns of a millisecond.
#[derive(Drop)]
struct HoldsSteps<'a, R: Clock> {
    rt: &'a R,
    steps: u64,
    held: &'a AtomicBool,
    answered: &'a AtomicBool,
}

impl<'a, R: Clock> SyncPoints for HoldsSteps<'a, R> {
    fn reach(&mut self, at: Point) {
        if at != Point::Step {
            return;
        }
        self.steps = self.steps.saturating_add(1);
        if self.steps != 3 {
            return;
        }
        self.held.store(true, Ordering::SeqCst);
        if !wait_for(self.rt, self.answered) {
            self.held.store(false, Ordering::SeqCst);
        }
    }
}

// Waits until a flag is up, at most ten seconds; whether it is.
fn wait_for<R: Clock>(rt: &R, flag: &AtomicBool) -> bool {
    for _ in 0..10_000 {
        if flag.load(Ordering::SeqCst) {
            return true;
        }
        thread::sleep(rt, Duration::from_millis(1));
    }
    false
}

// Writes blocks that lie apart until the checkpointer is held between two copies, and flushes; whether the FLUSH was answered
// while it is held.
fn flush_while_held<B: ExportName, R: Wait + Clock>(
    rt: &R,
    alloc: Global,
    export: &Export<B, SimDisk, ()>,
    mut pass: ClientPass<B>,
    held: &AtomicBool,
    answered: &AtomicBool,
) -> bool {
    let mut good = true;
    for block in 0..360 {
        good &= write_block(rt, alloc, export, &mut pass, 2 * block, 1);
    }
    good &= wait_for(rt, held);
    good &= write_block(rt, alloc, export, &mut pass, 1, 1);
    good &= flush(rt, alloc, export, &mut pass);
    answered.store(true, Ordering::SeqCst);
    good &= held.load(Ordering::SeqCst);
    export.leave(rt, pass);
    good
}

// None where a thread can't be started.
fn hold_steps<B: ExportName + Send + Sync, R: Threads + Wait + Clock + Sync>(
    rt: &R,
    alloc: Global,
    export: &Export<B, SimDisk, ()>,
    pass: ClientPass<B>,
    held: &AtomicBool,
    answered: &AtomicBool,
) -> Option<bool> {
    thread::scope(thread::scope_env(), rt, move |scope| {
        let flusher = scope.spawn(move || export.flusher(rt, &mut ()));
        if flusher.is_err()
            || scope
                .spawn(move || check_held(rt, export, held, answered))
                .is_err()
        {
            export.leave(rt, pass);
            return None;
        }
        Some(flush_while_held(rt, alloc, export, pass, held, answered))
    })
}

// The checkpointer, which is held between two copies.
fn check_held<B: ExportName, R: Wait + Clock>(
    rt: &R,
    export: &Export<B, SimDisk, ()>,
    held: &AtomicBool,
    answered: &AtomicBool,
) {
    let mut points = HoldsSteps {
        rt,
        steps: 0,
        held,
        answered,
    };
    export.checkpointer(rt, &mut points);
}

fn run_held<B: ExportName + Send + Sync, R: Threads + Wait + Clock + Sync>(
    rt: &R,
    alloc: Global,
    device: OpenDevice<SimDisk, ()>,
) -> Option<Ran>
    requires board { device.blank.board ≡ B.board }
    requires named { device.blank.opening ≡ B.opening }
    requires image { device.keeper.geometry.blocks ≡ B.image.blocks }
    requires trusted { B.trusted → ⊥ }
    requires vouches { (read : SpanRead) → B.vouches read }
    requires geometry { device.keeper.geometry ≡ B.geometry }
    requires bound { B.most_pending ≡ 18446744073709551615 }
{
    let (export, mut passes, last) = Export::<B, SimDisk, ()>::open(
        alloc,
        device,
        512,
        Mode::Writeback,
        1,
        u64::MAX,
    ).ok()?;
    let pass = passes.pop()?;
    let held = AtomicBool::new(false);
    let answered = AtomicBool::new(false);
    let good = hold_steps(rt, alloc, &export, pass, &held, &answered)?;
    let keeper = Keeper::open(alloc, export.close(last).0).ok()?;
    Some(Ran {
        good,
        number: keeper.count(),
    })
}

#[test]
fn group_is_stored_between_two_copies(rt: HostRuntime) {
    let device = fresh(rt.alloc(), 1_024, 2_097_152).expect(&rt, "a device over holes");
    let ran = run_held::<Brand, _>(&rt, rt.alloc(), device).expect(
        &rt,
        "a flush beside a checkpoint",
    );
    assert!(rt; ran.good);
    assert_eq!(rt; ran.number, 361);
}
