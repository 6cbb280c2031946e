ghost use Rattle.std.specs.Prelude.{◌≡◌, IfOk};
ghost use Rattle.checkpoint.specs.Recovery.{IsRecovered};
ghost use Rattle.device_image.specs.Keeps.{Keeps};
ghost use Rattle.image_model.specs.Image.{Image};

use crate::life::{Life, Told, keeper_of};
use crate::lines::{Schedule, keep};
use crate::script_line::{Setup, StepLine};
use crate::stepping::carry_out;
use checkpoint::{Keeper, KeeperFault};
use disk_model::{CallKind, Disk, SimDisk};
use export_steps::{Event, StepFault};
use marks::{BlankBoard, BoardName};
use std::alloc::Global;
use std::marker::Brand;

/// What goes wrong with a device.
#[derive(Clone, Copy)]
pub enum Trouble {
    /// It stops at the k-th call, counted from 1.
    Stop(u64),
    /// The k-th call of this kind fails.
    Fault(CallKind, u64),
}

/// A device after the lines of a script were carried out on it.
#[derive(Drop)]
pub struct Played {
    pub disk: SimDisk,
    /// What each life came to, the first of them first.
    pub lives: Vec<PlayedLife>,
    /// Whether the script ended with an upgrade that told a fault of the device.
    pub upgrade_failed: bool,
}

/// The device from an opening, or an upgrade, to the next one.
#[derive(Drop)]
pub struct PlayedLife {
    /// The number of the last command that was found.
    pub opening: u64,
    /// What each step did.
    pub log: Vec<Event>,
}

impl Schedule {
    /// Opens the device, arms the trouble, and carries out the lines one after the other, until the device stops, or so
    /// many steps were done, or all lines, or until an upgrade fails.
    pub fn play(
        &self,
        alloc: Global,
        disk: SimDisk,
        trouble: Trouble,
        most: usize,
    ) -> Result<Played, KeeperFault>
        ensures { IfOk result (λ played. ⟦<SimDisk as Disk>⟧.extent played.disk ≡ ⟦<SimDisk as Disk>⟧.extent disk) }
    {
        let mut disk = disk;
        let mut lives: Vec<PlayedLife> = Vec::new(alloc);
        let mut left = most;
        let mut upgrades = false;
        for steps in &self.lives {
            let keeper = match keeper_of(alloc, disk, upgrades) {
                Ok(keeper) => keeper,
                Err((KeeperFault::DeviceFault, disk)) if upgrades => {
                    return Ok(Played {
                        disk,
                        lives,
                        upgrade_failed: true,
                    });
                }
                Err((fault, _disk)) => return Err(fault),
            };
            let opening = keeper.count();
            let blank = BlankBoard::new(alloc, opening)?;
            let armed = if upgrades { None } else { Some(trouble) };
            let (after, log) = live::<Brand>(alloc, self.setup, steps, blank, keeper, armed, left)?;
            disk = after;
            left = left.saturating_sub(log.len());
            keep(&mut lives, PlayedLife { opening, log })?;
            if disk.is_stopped() || left == 0 {
                break;
            }
            upgrades = true;
        }
        Ok(Played {
            disk,
            lives,
            upgrade_failed: false,
        })
    }
}

// Carries out the lines of one life of an opened device, whose board gets its name here, and gives the device and what each step did.
fn live<B: BoardName>(
    alloc: Global,
    setup: Setup,
    steps: &[StepLine],
    blank: BlankBoard,
    keeper: Keeper<SimDisk>,
    armed: Option<Trouble>,
    most: usize,
) -> Result<(SimDisk, Vec<Event>), KeeperFault>
    requires board { blank.board ≡ B.board }
    requires named { blank.opening ≡ B.opening }
    requires opening { blank.opening ≡ keeper.count }
    requires recovered { IsRecovered keeper }
    requires keeps { (image : Image) × Keeps keeper (⟦<SimDisk as Disk>⟧.state keeper.disk) image keeper.count }
    ensures { IfOk result (λ lived. ⟦<SimDisk as Disk>⟧.extent lived.0 ≡ ⟦<SimDisk as Disk>⟧.extent keeper.disk) }
{
    let Ok(mut life) = Life::<B, SimDisk>::begin(alloc, blank, keeper, setup) else {
        return Err(KeeperFault::NoMemory);
    };
    if let Some(trouble) = armed {
        arm(&mut life, trouble);
    }
    let done = carry_out_all(alloc, &mut life, steps, most);
    let ended = life.end();
    match done {
        Ok(()) => Ok(ended),
        Err(fault) => Err(fault),
    }
}

// Arms the trouble.
fn arm<B: BoardName>(life: &mut Life<B, SimDisk>, trouble: Trouble)
    ensures { ⟦<SimDisk as Disk>⟧.extent life.new.keeper.disk ≡ ⟦<SimDisk as Disk>⟧.extent life.old.keeper.disk }
{
    match trouble {
        Trouble::Stop(k) => life.stop_at(k),
        Trouble::Fault(kind, k) => life.fail(kind, k),
    }
}

// Carries out the lines, until the device stops or this many steps were done. The one refusal is want of memory.
fn carry_out_all<B: BoardName>(
    alloc: Global,
    life: &mut Life<B, SimDisk>,
    lines: &[StepLine],
    most: usize,
) -> Result<(), KeeperFault>
    ensures { ⟦<SimDisk as Disk>⟧.extent life.new.keeper.disk ≡ ⟦<SimDisk as Disk>⟧.extent life.old.keeper.disk }
{
    let mut cookie = 0;
    for line in lines {
        cookie = u64::wrapping_add(cookie, 1);
        let told = carry_out(alloc, life, *line, cookie);
        if matches!(told, Told::Failed(StepFault::NoMemory)) {
            return Err(KeeperFault::NoMemory);
        }
        if life.is_stopped() || life.log().len() >= most {
            return Ok(());
        }
    }
    Ok(())
}
