ghost use Rattle.std.specs.Prelude.{◌≡◌, IfOk};

use crate::comparing::is_plain;
use crate::promise::Promise;
use checkpoint::{Keeper, KeeperFault};
use disk_model::{CrashChoice, Disk, SimDisk};
use std::alloc::Global;

/// A device, and whether what was asked of it held.
#[derive(Drop)]
pub struct Judged {
    pub disk: SimDisk,
    pub right: bool,
}

/// Judges what a crash left: `found` is opened, on the device `work`, and then what a crash at each call of this opening
/// leaves of it, and one after its last call.
pub fn judge(
    alloc: Global,
    work: SimDisk,
    found: &SimDisk,
    choice: CrashChoice,
    promise: &Promise,
) -> Result<Judged, KeeperFault>
    requires { ⟦<SimDisk as Disk>⟧.extent found.now ≡ ⟦<SimDisk as Disk>⟧.extent work }
    ensures { IfOk result (λ judged. ⟦<SimDisk as Disk>⟧.extent judged.disk ≡ ⟦<SimDisk as Disk>⟧.extent work) }
{
    let mut judged = judge_opening(alloc, restored(work, found), promise)?;
    for k in 1..u64::MAX {
        if !judged.right {
            break;
        }
        let mut work = restored(judged.disk, found);
        work.stop_at(k);
        let mut left = open_up(alloc, work)?;
        let stopped = left.is_stopped();
        left.stop_at(0);
        left.crash(choice);
        judged = judge_opening(alloc, left, promise)?;
        if !stopped {
            break;
        }
    }
    Ok(judged)
}

/// The device, with the bytes of another one and nothing armed.
pub fn restored(device: SimDisk, from: &SimDisk) -> SimDisk
    requires { ⟦<SimDisk as Disk>⟧.extent from.now ≡ ⟦<SimDisk as Disk>⟧.extent device }
    ensures { ⟦<SimDisk as Disk>⟧.extent result ≡ ⟦<SimDisk as Disk>⟧.extent device }
{
    let mut device = device;
    device.restore(from);
    device
}

// Opens a device, and gives it back as it is then.
fn open_up(alloc: Global, disk: SimDisk) -> Result<SimDisk, KeeperFault>
    ensures { IfOk result (λ left. ⟦<SimDisk as Disk>⟧.extent left ≡ ⟦<SimDisk as Disk>⟧.extent disk) }
{
    match Keeper::open(alloc, disk) {
        Ok(keeper) => Ok(keeper.into_disk()),
        Err((KeeperFault::NoMemory, _disk)) => Err(KeeperFault::NoMemory),
        Err((_, disk)) => Ok(disk),
    }
}

// Opens a device in which nothing goes wrong, and judges the image that is found.
fn judge_opening(alloc: Global, disk: SimDisk, promise: &Promise) -> Result<Judged, KeeperFault>
    ensures { IfOk result (λ judged. ⟦<SimDisk as Disk>⟧.extent judged.disk ≡ ⟦<SimDisk as Disk>⟧.extent disk) }
{
    let failures = disk.failures();
    match Keeper::open(alloc, disk) {
        Ok(mut keeper) => {
            let right = is_promised(alloc, &mut keeper, promise)?;
            let disk = keeper.into_disk();
            Ok(Judged { disk, right })
        }
        Err((KeeperFault::NoMemory, _disk)) => Err(KeeperFault::NoMemory),
        Err((_, disk)) => {
            // A simulated device whose record can't grow fails too.
            if disk.failures() > failures {
                return Err(KeeperFault::NoMemory);
            }
            Ok(Judged { disk, right: false })
        }
    }
}

// Whether an opened keeper has the image of the first commands up to its number, and these have all that is covered.
fn is_promised(
    alloc: Global,
    keeper: &mut Keeper<SimDisk>,
    promise: &Promise,
) -> Result<bool, KeeperFault>
    ensures { IfOk result (λ right. ⟦<SimDisk as Disk>⟧.extent keeper.new.disk ≡ ⟦<SimDisk as Disk>⟧.extent keeper.old.disk) }
{
    let count = keeper.count();
    let blocks = keeper.geometry().blocks as u32;
    let Some(plain) = promise.image(alloc, blocks, count)? else {
        return Ok(false);
    };
    match is_plain(alloc, keeper, &plain) {
        Ok(same) => Ok(same && promise.covered <= count),
        Err(KeeperFault::NoMemory) => Err(KeeperFault::NoMemory),
        Err(_) => Ok(false),
    }
}
