//! The state under the keeper lock.
ghost use Rattle.std.specs.Prelude.{◌≡◌, ◌+◌, ◌<◌, IfErr, OnOk};
ghost use Rattle.checkpoint.specs.Keeper.{grown_by, refused_by};
ghost use Rattle.checkpoint.specs.Steps.{rotated_by};
ghost use Rattle.shared_store.specs.Back.{IsBack};

use crate::name::ExportName;
use checkpoint::KeeperFault;
use disk_model::Disk;
use image_model::Command;
use journal::Group;
use marks::{Board, Trust};
use shared_store::{SealedGroup, SharedKeeper, Unstored};

/// What stands in an area round the commands of a group.
const GROUP_BYTES: u64 = 17;

// What is next of the first area that waits to be copied.
#[derive(Clone, Copy)]
enum Stage {
    // Its blocks are copied into the image.
    Copy,
    // The map after it is written.
    Map,
    // Its checkpoint is ended.
    Finish,
}

/// How much of the first area a step copies.
#[derive(Clone, Copy)]
pub(crate) enum StepLength {
    /// Little, so that those who wait for the keeper's lock don't wait long.
    Short,
    /// More, so that copying takes less time in all.
    Long,
}

impl StepLength {
    // The most that a step copies in one hold of the keeper's lock: blocks, and ranges of them, each in one read and one write.
    fn limits(self) -> (u32, u32) {
        match self {
            StepLength::Short => (64, 4),
            StepLength::Long => (256, 16),
        }
    }
}

/// What a step of copying did.
#[derive(Clone, Copy)]
pub(crate) enum CopyStep {
    /// It copied this many blocks.
    Blocks(u64),
    /// The checkpoint of the first area has ended, and this many areas still wait.
    AreaEnded { waiting: u8 },
}

/// What was stored as one group.
#[derive(Clone, Copy)]
pub(crate) struct StoredGroup {
    pub commands: u64,
    pub bytes: u64,
}

/// How much of the journal is used.
#[derive(Clone, Copy)]
pub(crate) struct JournalUse {
    pub areas: u8,
    pub area_bytes: u64,
    /// Areas that wait to be copied.
    pub waiting: u8,
    /// The bytes of groups in the area after those.
    pub last_used: u64,
}

/// The keeper of an export with its seat, and how much of its areas is used.
pub(crate) struct StorageEngine<B: ExportName, D: Disk> {
    pub(crate) shared: SharedKeeper<B, D>,
    // The bytes of the last area that groups take.
    used: u64,
    // How many areas before it wait to be copied, and what is next of the first of them.
    waiting: u8,
    stage: Stage,
    ghost geometry: { shared.keeper.geometry ≡ B.geometry },
}

impl<B: ExportName, D: Disk + Drop> Drop for StorageEngine<B, D> {
    fn drop(self) {
        let StorageEngine {
            shared: _,
            used: _,
            waiting: _,
            stage: _,
        } = self;
    }
}

// The bytes that a group takes in an area.
fn bytes_of(group: &Group) -> u64 {
    let mut sum = GROUP_BYTES;
    for command in group.commands() {
        sum = sum.saturating_add(command.body_bytes());
    }
    sum
}

impl<B: ExportName, D: Disk> StorageEngine<B, D> {
    pub(crate) fn new(shared: SharedKeeper<B, D>) -> StorageEngine<B, D>
        requires { shared.keeper.geometry ≡ B.geometry }
    {
        StorageEngine {
            shared,
            used: 0,
            waiting: 0,
            stage: Stage::Copy,
        }
    }

    /// The keeper with its seat, as it is.
    pub(crate) fn into_shared(self) -> SharedKeeper<B, D>
        ensures { result ≡ self.shared }
    {
        let StorageEngine {
            shared,
            used: _,
            waiting: _,
            stage: _,
        } = self;
        shared
    }

    // The bytes of each area.
    fn area_bytes(&self) -> u64 {
        u64::from(self.shared.keeper().geometry().area_size())
    }

    /// Whether half of the last area is used.
    pub(crate) fn is_filling(&self) -> bool {
        self.used.saturating_mul(2) >= self.area_bytes()
    }

    /// Whether half of the last area is used, and no other one is free.
    pub(crate) fn is_short(&self) -> bool {
        self.is_filling()
            && self.waiting.saturating_add(1) >= self.shared.keeper().geometry().areas()
    }

    /// Whether seven eighths of the last area are used.
    pub(crate) fn is_nearly_full(&self) -> bool {
        self.used.saturating_mul(8) >= self.area_bytes().saturating_mul(7)
    }

    /// Stores a sealed group; one that may be stored later comes back.
    pub(crate) fn append<T: Trust>(
        &mut self,
        board: &Board<B, T>,
        sealed: SealedGroup<B>,
    ) -> Result<StoredGroup, Unstored<B>>
        ensures ok { OnOk result (self.new.shared.keeper ≡ grown_by self.old.shared.keeper sealed.group self.new.shared.keeper.disk self.new.shared.keeper.memory) }
        ensures back { IfErr result (IsBack D.faults sealed self.old.shared.keeper self.new.shared.keeper) }
        ensures copying { (self.new.waiting ≡ self.old.waiting) × (self.new.stage ≡ self.old.stage) }
    {
        let group = sealed.group();
        let stored = StoredGroup {
            commands: group.commands().len() as u64,
            bytes: bytes_of(group),
        };
        self.shared.append(board, sealed)?;
        self.used = self.used.saturating_add(stored.bytes);
        Ok(stored)
    }

    /// Frees memory that is kept for the next steps.
    pub(crate) fn free_memory(&mut self)
        ensures shared { self.new.shared ≡ self.old.shared }
        ensures counts { (self.new.used ≡ self.old.used) × (self.new.waiting ≡ self.old.waiting) × (self.new.stage ≡ self.old.stage) }
    {
        self.shared.free_memory();
    }

    /// The commands of the last group that was stored.
    pub(crate) fn take_stored(&mut self) -> Vec<Command>
        ensures shared { self.new.shared ≡ self.old.shared }
        ensures counts { (self.new.used ≡ self.old.used) × (self.new.waiting ≡ self.old.waiting) × (self.new.stage ≡ self.old.stage) }
    {
        self.shared.take_stored()
    }

    /// How much of the journal is used.
    pub(crate) fn journal_use(&self) -> JournalUse {
        JournalUse {
            areas: self.shared.keeper().geometry().areas(),
            area_bytes: self.area_bytes(),
            waiting: self.waiting,
            last_used: self.used,
        }
    }

    /// Takes the next area into use.
    pub(crate) fn rotate(&mut self) -> Result<(), KeeperFault>
        ensures ok { OnOk result (self.new.shared.keeper ≡ rotated_by self.old.shared.keeper self.new.shared.keeper.disk self.new.shared.keeper.memory) }
        ensures err { IfErr result (λ fault. self.new.shared.keeper ≡ refused_by fault self.old.shared.keeper self.new.shared.keeper.disk) }
        ensures counted { OnOk result ((self.new.used ≡ 0) × (self.old.waiting < 255 → self.new.waiting ≡ self.old.waiting + 1)) }
        ensures uncounted { IfErr result (λ fault. (self.new.used ≡ self.old.used) × (self.new.waiting ≡ self.old.waiting)) }
        ensures stage { self.new.stage ≡ self.old.stage }
    {
        // (the next area would take memory for groups of its own)
        let buffer = self.shared.take_buffer();
        let rotated = self.shared.rotate();
        self.shared.give_buffer(buffer);
        rotated?;
        self.used = 0;
        self.waiting = self.waiting.saturating_add(1);
        Ok(())
    }

    /// How many areas wait to be copied.
    pub(crate) fn waiting(&self) -> u8 {
        self.waiting
    }

    /// Takes the next step of copying the first area that waits: some of its blocks, the map after it, or the end of its checkpoint.
    pub(crate) fn copy_on<T: Trust>(
        &mut self,
        board: &Board<B, T>,
        length: StepLength,
    ) -> Result<CopyStep, KeeperFault> {
        match self.stage {
            Stage::Copy => self.copy(length),
            Stage::Map => {
                self.shared.write_map()?;
                self.stage = Stage::Finish;
                Ok(CopyStep::Blocks(0))
            }
            Stage::Finish => {
                self.shared.finish(board)?;
                self.stage = Stage::Copy;
                self.waiting = self.waiting.saturating_sub(1);
                Ok(CopyStep::AreaEnded {
                    waiting: self.waiting,
                })
            }
        }
    }

    // Copies the next blocks, as many as one hold takes; the map is next where none is left.
    fn copy(&mut self, length: StepLength) -> Result<CopyStep, KeeperFault> {
        let (most, ranges) = length.limits();
        let mut left = most;
        for _ in 0..ranges {
            if left == 0 {
                break;
            }
            match self.shared.copy_some(left) {
                Ok(blocks) => left -= blocks,
                Err(KeeperFault::NotNow) => {
                    self.stage = Stage::Map;
                    break;
                }
                Err(fault) => return Err(fault),
            }
        }
        Ok(CopyStep::Blocks(most.saturating_sub(left) as u64))
    }
}
