ghost use Rattle.std.specs.Prelude.{◌≡◌, ◌⊎◌, ℕ, ◌+◌, ◌*◌, ◌/◌, ◌%◌, ◌<◌, ◌≤◌, ◌↔◌, List, length, slice_index, false, IfErr, IfOk, IsTrue, OnOk};
ghost use Rattle.alloc_map.specs.Codes.{state_at};
ghost use Rattle.checkpoint.specs.Keeper.{faults_by, refused_by};
ghost use Rattle.checkpoint.specs.declared.fault.KeeperFault.TheVariants as KeeperFault;
ghost use Rattle.device_image.specs.Holds.{Holds, is_written, joined};
ghost use Rattle.image_model.specs.Change.{Change};
ghost use Rattle.image_model.specs.Image.{Image};
ghost use Rattle.image_model.specs.declared.command.Kind.TheVariants.{Data};
ghost use Rattle.journal_format.specs.Reading.{IsOnlyRead};

use crate::fault::KeeperFault;
use crate::keeper::Keeper;
use alloc_map::AllocMap;
use disk_model::Disk;
use regions::Regions;
use std::alloc::{AllocError, Global};

impl<D: Disk> Keeper<D> {
    /// Reads blocks from `first` on out of the data region, in one call of the device.
    ///
    /// A block that is data at the base, and that no command stored before the last area writes, gives its bytes at
    /// the base; another gives any bytes. Refusals 1 (device fault), and 16 (failed) after an earlier device fault; `into`
    /// then holds any bytes.
    pub fn read_base(&mut self, first: u64, into: &mut [u8]) -> Result<(), KeeperFault>
        requires some { 0 < length into.old }
        requires whole { length into.old % 4096 ≡ 0 }
        requires inside { 4096 * first + length into.old ≤ 4096 * self.old.geometry.blocks }
        ensures ok { OnOk result (self.new ≡ record self.old { disk = self.new.disk }) }
        ensures err { IfErr result (λ fault. self.new ≡ refused_by fault self.old self.new.disk) }
        ensures failed { (result ≡ Err KeeperFault.Failed) ↔ IsTrue self.old.failed }
        ensures only { IfErr result (λ fault. (fault ≡ KeeperFault.DeviceFault) ⊎ (fault ≡ KeeperFault.Failed)) }
        ensures extent { D.extent self.new.disk ≡ D.extent self.old.disk }
        ensures faults_ok { OnOk result (D.faults self.new.disk ≡ D.faults self.old.disk) }
        ensures faults_err { IfErr result (λ fault. D.faults self.new.disk ≡ faults_by fault (D.faults self.old.disk)) }
        ensures honest { D.honest self.new.disk ↔ D.honest self.old.disk }

        // On an honest device nothing is written, and the keeper holds what it held.
        ensures only_read { D.honest self.old.disk → IsOnlyRead (D.state self.old.disk) (D.state self.new.disk) }
        ensures held { D.honest self.old.disk → (base : Image) (fronts : List (List Change)) (last : List Change) → Holds self.old (D.state self.old.disk) base fronts last
            → OnOk result (Holds self.new (D.state self.new.disk) base fronts last) }
        ensures bytes { D.honest self.old.disk → (base : Image) (fronts : List (List Change)) (last : List Change) → Holds self.old (D.state self.old.disk) base fronts last
            → OnOk result ((k : ℕ) → k < length into.new → base.kind (first + k / 4096) ≡ Data → is_written (first + k / 4096) (joined fronts) ≡ false
            → slice_index into.new k ≡ base.byte (4096 * first + k)) }
    {
        if self.failed {
            return Err(KeeperFault::Failed);
        }
        match Regions::from_geometry(&self.header.geometry).read_blocks(
            &mut self.disk,
            first,
            into,
        ) {
            Ok(()) => Ok(()),
            Err(fault) => {
                self.failed = true;
                Err(KeeperFault::from(fault))
            }
        }
    }

    /// A copy of the map: the states of the blocks at the base. A device fault doesn't change it. Refusal 0 (no memory).
    pub fn map(&self, alloc: Global) -> Result<AllocMap, AllocError>
        ensures blocks { IfOk result (λ map. length map ≡ self.now.geometry.blocks) }
        ensures remembered { IfOk result (λ map. map ≡ self.now.memory.map) }
        ensures kinds { (base : Image) (fronts : List (List Change)) (last : List Change) → Holds self.now (D.state self.now.disk) base fronts last
            → IfOk result (λ map. (block : ℕ) → state_at map block ≡ base.kind block) }
    {
        self.map.copy(alloc)
    }
}
