//! Reads without locks, during which all else goes on: writes, clears, checkpoints, and frames that are let go.
ghost use Rattle.std.specs.Prelude.{◌≡◌, ◌+◌, ◌<◌, ◌^◌};
ghost use Rattle.shared_store.specs.Orders.{SpanRead};

use crate::memory_file::{HeldHandle, Latch, MemoryFile, wait_for_turn};
use crate::requests::{flush, reads_back, trim_block, write_block};
use crate::threads::start_storing;
use checkpoint::Keeper;
use disk_model::{Disk, FileDisk};
use export::{ClientPass, Export, ExportName, OpenDevice, ReadUnlocked};
use image_model::Geometry;
use request_core::Mode;
use std::alloc::Global;
use std::marker::Brand;
use std::rt::Clock;
use std::sync::atomic::{AtomicU64, Ordering};
use std::sync::{Mutex, Wait};
use std::thread::{self, Scope, Threads};

// The turns, in each of which a READ of the block with the turn's number is held.
const TURNS: u64 = 8;

// Other blocks, of which more are written in a turn than there are frames.
const OTHERS: u64 = 100;

const MOST_OTHERS: u64 = 1_200;

// What passes between the one that writes and the one that reads: the turn begun, and the last one whose READ was answered.
#[derive(Drop)]
struct Turns {
    asked: AtomicU64,
    answered: AtomicU64,
    bad: AtomicU64,
}

// The round whose bytes a turn leaves in its block: it is written again, or trimmed.
fn round_left(turn: u64) -> u64 {
    if turn % 2 == 0 { 0 } else { 2 }
}

// Reads the block of each turn.
fn read_turns<B: ExportName, D: Disk, H: ReadUnlocked, R: Wait + Clock>(
    rt: &R,
    alloc: Global,
    export: &Export<B, D, H>,
    mut pass: ClientPass<B>,
    turns: &Turns,
) {
    for turn in 1..TURNS + 1 {
        if !wait_for_turn(rt, &turns.asked, turn)
            || !reads_back(rt, alloc, export, &mut pass, turn, round_left(turn))
        {
            turns.bad.fetch_add(1, Ordering::SeqCst);
        }
        turns.answered.store(turn, Ordering::SeqCst);
    }
    export.leave(rt, pass);
}

// Writes enough other blocks that all frames are let go and taken again, which takes checkpoints.
fn write_others<B: ExportName, D: Disk, H: ReadUnlocked, R: Wait + Clock>(
    rt: &R,
    alloc: Global,
    export: &Export<B, D, H>,
    pass: &mut ClientPass<B>,
    round: u64,
) -> bool {
    let mut good = true;
    for block in OTHERS..MOST_OTHERS {
        good &= write_block(rt, alloc, export, pass, block, round);
    }
    good & flush(rt, alloc, export, pass)
}

// Has a READ of the turn's block held with its bytes of round 1, changes the block, has all frames taken by others, and lets it
// go on; whether each call was answered as it had to be.
fn one_turn<B: ExportName, D: Disk, H: ReadUnlocked, R: Wait + Clock>(
    rt: &R,
    alloc: Global,
    export: &Export<B, D, H>,
    pass: &mut ClientPass<B>,
    turns: &Turns,
    latch: &Latch,
    turn: u64,
) -> bool
    requires { turn < 2 ^ 20 }
{
    latch.hold(turn);
    turns.asked.store(turn, Ordering::SeqCst);
    let mut good = latch.wait_held(rt, turn, &turns.answered);
    good &= if round_left(turn) == 0 {
        trim_block(rt, alloc, export, pass, turn)
    } else {
        write_block(rt, alloc, export, pass, turn, 2)
    };
    good &= write_others(rt, alloc, export, pass, turn + 1);
    latch.release(turn);
    good &= wait_for_turn(rt, &turns.answered, turn);
    // What the READ may have left in memory.
    good & reads_back(rt, alloc, export, pass, turn, round_left(turn))
}

fn write_turns<B: ExportName, D: Disk, H: ReadUnlocked, R: Wait + Clock>(
    rt: &R,
    alloc: Global,
    export: &Export<B, D, H>,
    mut pass: ClientPass<B>,
    turns: &Turns,
    latch: &Latch,
) -> bool {
    let mut good = true;
    for block in 0..OTHERS {
        good &= write_block(rt, alloc, export, &mut pass, block, 1);
    }
    good &= write_others(rt, alloc, export, &mut pass, 1);
    for turn in 1..TURNS + 1 {
        good &= one_turn(rt, alloc, export, &mut pass, turns, latch, turn);
    }
    export.leave(rt, pass);
    good
}

// None where a thread can't be started.
fn run_turns<
    B: ExportName + Send + Sync,
    D: Disk + Send,
    H: ReadUnlocked + Send + Sync,
    R: Threads + Wait + Clock + Sync,
>(
    rt: &R,
    alloc: Global,
    export: &Export<B, D, H>,
    mut passes: Vec<ClientPass<B>>,
    turns: &Turns,
    latch: &Latch,
) -> Option<bool> {
    let reads = passes.pop()?;
    let writes = passes.pop()?;
    thread::scope(thread::scope_env(), rt, move |scope| {
        start_turns(scope, rt, alloc, export, reads, writes, turns, latch)
    })
}

fn start_turns<'s, E, B, D, H, R>(
    scope: &Scope<'s, E>,
    rt: &'s R,
    alloc: Global,
    export: &'s Export<B, D, H>,
    reads: ClientPass<B>,
    writes: ClientPass<B>,
    turns: &'s Turns,
    latch: &Latch,
) -> Option<bool>
where
    B: ExportName + Send + Sync + 's,
    D: Disk + Send + 's,
    H: ReadUnlocked + Send + Sync + 's,
    R: Wait + Clock + Sync + 's,
{
    let mut have_started = start_storing(scope, rt, export);
    if !have_started {
        export.leave(rt, reads);
    } else if let Err(refused) = scope.spawn(move || read_turns(rt, alloc, export, reads, turns)) {
        // Its pass leaves all the same, with no turn to wait for.
        have_started = false;
        turns.asked.store(TURNS, Ordering::SeqCst);
        (refused.value)();
    }
    if have_started {
        Some(write_turns(rt, alloc, export, writes, turns, latch))
    } else {
        export.leave(rt, writes);
        None
    }
}

fn run_over<
    B: ExportName + Send + Sync,
    D: Disk + Send + Drop,
    H: ReadUnlocked + Send + Sync,
    R: Threads + Wait + Clock + Sync,
>(rt: &R, alloc: Global, device: OpenDevice<D, H>, latch: &Latch) -> Option<bool>
    requires board { device.blank.board ≡ B.board }
    requires named { device.blank.opening ≡ B.opening }
    requires image { device.keeper.geometry.blocks ≡ B.image.blocks }
    requires trusted { B.trusted → ⊥ }
    requires vouches { (read : SpanRead) → B.vouches read }
    requires geometry { device.keeper.geometry ≡ B.geometry }
    requires bound { B.most_pending ≡ 18446744073709551615 }
{
    let (export, passes, _last) = Export::<B, D, H>::open(
        alloc,
        device,
        512,
        Mode::Writeback,
        2,
        u64::MAX,
    ).ok()?;
    let turns = Turns {
        asked: AtomicU64::new(0),
        answered: AtomicU64::new(0),
        bad: AtomicU64::new(0),
    };
    let good = run_turns(rt, alloc, &export, passes, &turns, latch)?;
    Some(good && turns.bad.load(Ordering::SeqCst) == 0)
}

// Over an image of 2,048 blocks in memory, with areas of 2 MiB and 512 frames.
fn run_in_memory<R: Threads + Wait + Clock + Sync>(rt: &R, alloc: Global) -> Option<bool> {
    let geometry = Geometry::new(2_048, 2_097_152)?;
    let size = geometry.device_bytes();
    let bytes = Mutex::new(vec![in alloc; 0; size as usize].ok()?);
    let latch = Latch::new();
    let file = MemoryFile { rt, bytes: &bytes };
    let mut disk = FileDisk::new(file, size);
    Keeper::format(alloc, &mut disk, geometry).ok()?;
    let second_handle = HeldHandle {
        file: MemoryFile { rt, bytes: &bytes },
        latch: &latch,
    };
    let device = OpenDevice::open(alloc, disk, Some(second_handle)).ok()?;
    run_over::<Brand, _, _, R>(rt, alloc, device, &latch)
}

#[test]
fn held_read_gives_what_was_written_meanwhile(rt: HostRuntime) {
    let good = run_in_memory(&rt, rt.alloc()).expect(&rt, "a read without locks");
    assert!(rt; good);
}
