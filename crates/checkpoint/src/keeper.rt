ghost use Rattle.std.specs.Prelude.{◌≡◌, ◌≢◌, ℕ, ◌+◌, ◌++◌, ◌≤◌, ◌<◌, ◌⊎◌, ◌↔◌, List, length, map, IfErr, OnOk, IsErrAnd, IsTrue, false};
ghost use Rattle.checkpoint.specs.Keeper.{end_after, faults_by, grown_by, refused_by, IsAppendFault};
ghost use Rattle.device_image.specs.Holds.{Holds};
ghost use Rattle.device_image.specs.Keeps.{Keeps};
ghost use Rattle.device_image.specs.Remembers.{Remembers};
ghost use Rattle.device_image.specs.Stands.{StandsFor};
ghost use Rattle.checkpoint.specs.declared.fault.KeeperFault.TheVariants as KeeperFault;
ghost use Rattle.disk_model.specs.Disk.{LeavesOnly};
ghost use Rattle.image_model.specs.Change.{AreChanges, Change, change_of};
ghost use Rattle.image_model.specs.Image.{Image, apply_all};
ghost use Rattle.regions.specs.Layout.{area_size};

use crate::fault::KeeperFault;
use alloc_map::AllocMap;
use device_image::CopyPlan;
use disk_model::{Disk, free_buffer};
use header_slots::Header;
use image_model::{Command, Geometry, Side};
use journal::{Area, Group};
use std::alloc::Global;
use std::marker::Model;
use std::mem;

/// The keeper of an open device.
pub struct Keeper<D: Disk> {
    pub(crate) alloc: Global,
    pub(crate) disk: D,
    // The header in force, and its slot.
    pub(crate) header: Header,
    pub(crate) slot: Side,
    pub(crate) count: u64,
    // The states of the blocks at the base.
    pub(crate) map: AllocMap,
    // The checkpoint that is under way, where more than one area is in use, and those of the areas after the first.
    pub(crate) plan: Option<CopyPlan>,
    pub(crate) waiting: Vec<CopyPlan>,
    // The area that the next group goes to.
    pub(crate) area: Area,
    pub(crate) failed: bool,
    // The bytes of the blocks that were copied last.
    pub(crate) copied: Vec<u8>,
}

// Written out, it is proved once, and not again in each function that lets a keeper go.
impl<D: Disk + Drop> Drop for Keeper<D> {
    fn drop(self) {
        let Keeper {
            alloc: _,
            disk: _,
            header: _,
            slot: _,
            count: _,
            map: _,
            plan: _,
            waiting: _,
            area: _,
            failed: _,
            copied: _,
        } = self;
    }
}

impl<D: Disk> Model for Keeper<D> {
    ghost use Rattle.std.specs.Prelude.{◌≡◌, length, IfSome, None, []};
    ghost use Rattle.checkpoint.specs.Keeper.{AreSized, IsSized, plans_of};
    ghost use Rattle.image_model.specs.Geometry.{device_bytes_of};
    ghost use Rattle.device_image.specs.Keeper.{AreUncopied, KeeperState, last_turned, lefts_of, phase_of, turned_of};
    ghost use Rattle.device_image.specs.Stands.{next_number};

    ghost Value = { KeeperState D };

    ghost view = { λ keeper. record {
      disk = keeper.disk;
      geometry = keeper.header.geometry;
      generation = keeper.header.generation;
      count = keeper.count;
      base = keeper.header.base;
      turned = turned_of (plans_of keeper.plan keeper.waiting.items);
      lefts = lefts_of (plans_of keeper.plan keeper.waiting.items);
      used = keeper.area.gate;
      phase = phase_of (plans_of keeper.plan keeper.waiting.items);
      failed = keeper.failed;
      memory = record { header = keeper.header; slot = keeper.slot; map = keeper.map; plans = plans_of keeper.plan keeper.waiting.items; area = keeper.area };
    } };

    ghost invariant = { λ keeper. (D.extent keeper.disk ≡ device_bytes_of keeper.header.geometry.blocks keeper.header.geometry.area)
        × (length keeper.map ≡ keeper.header.geometry.blocks)
        × IfSome keeper.plan (λ plan. IsSized plan.first keeper.header.geometry (D.extent keeper.disk))
        × AreSized keeper.waiting.items keeper.header.geometry (D.extent keeper.disk)
        × (keeper.plan ≡ None → keeper.waiting.items ≡ [])
        × (keeper.header.before_last ≡ length (plans_of keeper.plan keeper.waiting.items))
        × IsSized keeper.area keeper.header.geometry (D.extent keeper.disk)
        × (keeper.area.next ≡ next_number keeper.count)
        × (keeper.area.gate ≡ 0 → (keeper.area.touched ≡ []) × (keeper.count ≡ last_turned keeper.header.base (turned_of (plans_of keeper.plan keeper.waiting.items))))
        × AreUncopied keeper.waiting.items };
}

impl<D: Disk> Keeper<D> {
    /// The device, as it is.
    pub fn into_disk(self) -> D
        ensures { result ≡ self.disk }
    {
        let Keeper {
            alloc: _,
            disk,
            header: _,
            slot: _,
            count: _,
            map: _,
            plan: _,
            waiting: _,
            area: _,
            failed: _,
            copied: _,
        } = self;
        disk
    }

    /// The sizes that the device was formatted with.
    pub fn geometry(&self) -> Geometry
        ensures { result ≡ self.now.geometry }
    {
        self.header.geometry
    }

    /// The generation of the header in force.
    pub fn generation(&self) -> u64
        ensures { result ≡ self.now.generation }
    {
        self.header.generation
    }

    /// The number of the last command stored.
    pub fn count(&self) -> u64
        ensures { result ≡ self.now.count }
    {
        self.count
    }

    /// The number of the last command that map and data hold.
    pub fn base(&self) -> u64
        ensures { result ≡ self.now.base }
    {
        self.header.base
    }

    /// Frees the memory that is kept for the next group and for the next blocks to copy.
    pub fn free_memory(&mut self)
        ensures { self.new ≡ self.old }
    {
        free_buffer(self.area.take_buffer());
        free_buffer(mem::replace(&mut self.copied, Vec::new(self.alloc)));
    }

    /// The memory that is kept for the bytes of a group. Whoever takes the next area into use gives it back after that.
    pub fn take_buffer(&mut self) -> Vec<u8>
        ensures { self.new ≡ self.old }
    {
        self.area.take_buffer()
    }

    /// Gives it memory for the bytes of a group.
    pub fn give_buffer(&mut self, buffer: Vec<u8>)
        ensures { self.new ≡ self.old }
    {
        self.area.give_buffer(buffer);
    }

    /// The commands of the last group that was stored, for those who use their memory again.
    pub fn take_stored(&mut self) -> Vec<Command>
        ensures { self.new ≡ self.old }
    {
        self.area.take_stored()
    }
}

impl<D: Disk> Keeper<D> {
    /// Stores the group after all that is stored, and makes it stable.
    ///
    /// Refusals 0 (no memory), 1 (device fault), 10 (area full), 11 (out of order) and 16 (failed): the group comes back.
    /// After a device fault every later group is refused with 16 (failed), until the device is opened again; the other
    /// refusals leave the keeper and its device as they were.
    pub fn append(&mut self, group: Group) -> Result<(), (KeeperFault, Group)>
        ensures ok { OnOk result (self.new ≡ grown_by self.old group self.new.disk self.new.memory) }
        ensures err { IfErr result (λ refused. self.new ≡ refused_by refused.0 self.old self.new.disk) }
        ensures group_back { IfErr result (λ refused. refused.1 ≡ group) }
        ensures unchanged { IfErr result (λ refused. (refused.0 ≡ KeeperFault.DeviceFault) ⊎ (self.new.disk ≡ self.old.disk)) }
        ensures extent { D.extent self.new.disk ≡ D.extent self.old.disk }
        ensures honest { D.honest self.new.disk ↔ D.honest self.old.disk }
        ensures remembered { (commands : List Change) → Remembers self.old commands → AreChanges self.old.geometry.blocks (map change_of group.commands)
            → OnOk result (Remembers self.new (commands ++ map change_of group.commands)) }

        // When it is refused, and which refusals count as a fault of the device.
        ensures failed { IsErrAnd result (λ refused. refused.0 ≡ KeeperFault.Failed) ↔ IsTrue self.old.failed }
        ensures full { IsErrAnd result (λ refused. refused.0 ≡ KeeperFault.AreaFull)
            ↔ ((self.old.failed ≡ false) × (area_size self.old.geometry < end_after self.old group)) }
        ensures out_of_order { IsErrAnd result (λ refused. refused.0 ≡ KeeperFault.OutOfOrder)
            ↔ ((self.old.failed ≡ false) × (end_after self.old group ≤ area_size self.old.geometry) × (group.first ≢ self.old.count + 1)) }
        ensures only { IfErr result (λ refused. IsAppendFault refused.0) }
        ensures faults_ok { OnOk result (D.faults self.new.disk ≡ D.faults self.old.disk) }
        ensures faults_err { IfErr result (λ refused. D.faults self.new.disk ≡ faults_by refused.0 (D.faults self.old.disk)) }

        // On an honest device, where the image's size takes the group's commands: at `Ok` the keeper holds them after
        // the others, and where it keeps an image a crash at any moment leaves it without or with them.
        ensures held { D.honest self.old.disk → (base : Image) (fronts : List (List Change)) (last : List Change) → Holds self.old (D.state self.old.disk) base fronts last
            → AreChanges self.old.geometry.blocks (map change_of group.commands)
            → OnOk result (Holds self.new (D.state self.new.disk) base fronts (last ++ map change_of group.commands)) }
        ensures any_moment { D.honest self.old.disk → (image : Image) (number : ℕ) → Keeps self.old (D.state self.old.disk) image number
            → AreChanges self.old.geometry.blocks (map change_of group.commands)
            → LeavesOnly (D.state self.old.disk) (D.state self.new.disk) (λ content. StandsFor content image number
            ⊎ StandsFor content (apply_all (map change_of group.commands) image) (number + length group.commands)) }
    {
        if self.failed {
            return Err((KeeperFault::Failed, group));
        }
        match self.area.append(&mut self.disk, group) {
            Ok(()) => {
                self.count = self.area.next().wrapping_sub(1);
                Ok(())
            }
            Err((fault, group)) => {
                let fault = KeeperFault::from(fault);
                self.failed = fault == KeeperFault::DeviceFault;
                Err((fault, group))
            }
        }
    }
}
