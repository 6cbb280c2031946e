ghost use Rattle.std.specs.Prelude.{◌≡◌, IfOk};

use crate::opening::{Judged, judge, restored};
use crate::promise::Promise;
use checkpoint::{Keeper, KeeperFault};
use disk_model::{CrashChoice, Disk, SimDisk};
use export_model::{Event, StepFault};
use nbd_wire::{Answer, Errno};
use script_runner::{Played, PlayedLife, Schedule, Setup, Trouble};
use std::alloc::Global;

/// A script that is run over and over, each time from its first line on.
pub struct Trial {
    alloc: Global,
    schedule: Schedule,
    // A device that was formatted.
    fresh: SimDisk,
    // What the last crash left.
    found: SimDisk,
    ghost same_size: { ⟦<SimDisk as Disk>⟧.extent found ≡ ⟦<SimDisk as Disk>⟧.extent fresh },
}

/// What came of a run.
#[derive(Drop)]
pub struct Outcome {
    /// The device on which it ran.
    pub disk: SimDisk,
    /// Whether what was to go wrong did.
    pub met: bool,
    pub right: bool,
}

// Written out, it is proved once, and not again in each function that lets such a value go.
impl Drop for Trial {
    fn drop(self) {
        let Trial {
            alloc: _,
            schedule: _,
            fresh: _,
            found: _,
        } = self;
    }
}

impl Trial {
    /// Makes the device of a script, and one on which it can be run.
    pub fn begin(alloc: Global, schedule: Schedule) -> Result<(Trial, SimDisk), KeeperFault>
        ensures { IfOk result (λ begun. ⟦<SimDisk as Disk>⟧.extent begun.1 ≡ ⟦<SimDisk as Disk>⟧.extent begun.0.fresh) }
    {
        let Some(geometry) = schedule.setup.geometry() else {
            return Err(KeeperFault::AreaSmall);
        };
        let size = geometry.device_bytes();
        let mut fresh = SimDisk::new(alloc, size)?;
        Keeper::format(alloc, &mut fresh, geometry)?;
        let found = SimDisk::new(alloc, size)?;
        let work = SimDisk::new(alloc, size)?;
        let trial = Trial {
            alloc,
            schedule,
            fresh,
            found,
        };
        Ok((trial, work))
    }

    /// Runs the script with this trouble, lets the device crash, and judges what it left.
    pub fn run(
        &mut self,
        work: SimDisk,
        trouble: Trouble,
        choice: CrashChoice,
    ) -> Result<Outcome, KeeperFault>
        requires { ⟦<SimDisk as Disk>⟧.extent work ≡ ⟦<SimDisk as Disk>⟧.extent self.old.fresh }
        ensures fresh { self.new.fresh ≡ self.old.fresh }
        ensures size { IfOk result (λ outcome. ⟦<SimDisk as Disk>⟧.extent outcome.disk ≡ ⟦<SimDisk as Disk>⟧.extent self.old.fresh) }
    {
        let Played {
            mut disk,
            lives,
            upgrade_failed: _,
        } = self.play(work, trouble, usize::MAX)?;
        let met = is_met(trouble, &disk);
        let promise = Promise::new(self.alloc, &lives, self.schedule.setup.mode)?;
        disk.crash(choice);
        self.found.restore(&disk);
        let Judged { disk, right } = judge(self.alloc, disk, &self.found, choice, &promise)?;
        Ok(Outcome { disk, met, right })
    }

    /// Runs the script with this trouble, and checks whether it tells a fault of the device before there was one.
    pub fn watch(&self, work: SimDisk, trouble: Trouble) -> Result<Outcome, KeeperFault>
        requires { ⟦<SimDisk as Disk>⟧.extent work ≡ ⟦<SimDisk as Disk>⟧.extent self.now.fresh }
        ensures { IfOk result (λ outcome. ⟦<SimDisk as Disk>⟧.extent outcome.disk ≡ ⟦<SimDisk as Disk>⟧.extent self.now.fresh) }
    {
        let Played {
            disk,
            lives,
            upgrade_failed,
        } = self.play(work, trouble, usize::MAX)?;
        let met = is_met(trouble, &disk);
        let Some(steps) = steps_until_told(&lives) else {
            let right = !upgrade_failed || disk.failures() > 0;
            return Ok(Outcome { disk, met, right });
        };
        let Played {
            disk,
            lives: _,
            upgrade_failed: _,
        } = self.play(disk, trouble, steps)?;
        let right = disk.failures() > 0;
        Ok(Outcome { disk, met, right })
    }

    // Runs the script, or this many steps of it, from its first line on.
    fn play(&self, work: SimDisk, trouble: Trouble, most: usize) -> Result<Played, KeeperFault>
        requires { ⟦<SimDisk as Disk>⟧.extent work ≡ ⟦<SimDisk as Disk>⟧.extent self.now.fresh }
        ensures { IfOk result (λ played. ⟦<SimDisk as Disk>⟧.extent played.disk ≡ ⟦<SimDisk as Disk>⟧.extent self.now.fresh) }
    {
        let work = restored(work, &self.fresh);
        self.schedule.play(self.alloc, work, trouble, most)
    }
}

// Whether this trouble was met on a device that nothing else was to fail on.
fn is_met(trouble: Trouble, disk: &SimDisk) -> bool {
    match trouble {
        Trouble::Stop(_) => disk.is_stopped(),
        Trouble::Fault(..) => disk.failures() > 0,
    }
}

// How many steps there were until one said that the device failed, itself among them; none where no step did.
fn steps_until_told(lives: &[PlayedLife]) -> Option<usize> {
    let mut before: usize = 0;
    for life in lives {
        if let Some(place) = life.log.iter().position(tells_fault) {
            return Some(before.saturating_add(place).saturating_add(1));
        }
        before = before.saturating_add(life.log.len());
    }
    None
}

// Whether a step says that the device failed.
fn tells_fault(event: &Event) -> bool {
    matches!(
        event,
        Event::Answered(_, Answer::Refused(Errno::Io)) | Event::Failed(StepFault::DeviceFault)
    )
}
