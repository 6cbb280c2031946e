ghost use Rattle.std.specs.Prelude.{◌≡◌, ◌≢◌, ◌⊎◌, ℕ, suc, ◌+◌, ◌-◌, ◌<◌, ◌≤◌, ◌↔◌, List, [], ◌∷◌, ◌++◌, length, false, IfErr, IfNone, IfOk, IfSome, IsTrue, Err, OnOk, vec_len};
ghost use Rattle.checkpoint.specs.Headers.{HasHeader, HasHeaderOrNext};
ghost use Rattle.checkpoint.specs.Keeper.{faults_by, refused_by};
ghost use Rattle.checkpoint.specs.Steps.{IsCopyTime, IsFinishTime, IsMapTime, IsRotateTime, IsStepFault, copied_by, finished_by, first_turned, left_in, mapped_by, phase_with, rotated_by};
ghost use Rattle.checkpoint.specs.inner.Steps.{map_after, plans_behind};
ghost use Rattle.checkpoint.specs.declared.fault.KeeperFault.TheVariants as KeeperFault;
ghost use Rattle.device_image.specs.Holds.{Holds};
ghost use Rattle.device_image.specs.Keeps.{Keeps};
ghost use Rattle.device_image.specs.Keeper.{lefts_of, phase_of, turned_of};
ghost use Rattle.device_image.specs.Remembers.{Remembers};
ghost use Rattle.image_model.specs.Dirty.{dirty_blocks};
ghost use Rattle.std.specs.FinMap.{len};
ghost use Rattle.device_image.specs.Stands.{StandsFor};
ghost use Rattle.device_image.specs.inner.CheckpointHeader.{with_next, without_first};
ghost use Rattle.disk_model.specs.Disk.{LeavesOnly};
ghost use Rattle.image_model.specs.Change.{Change};
ghost use Rattle.image_model.specs.Image.{Image, apply_all};
ghost use Rattle.image_model.specs.Side.{other_of};
ghost use Rattle.regions.specs.Layout.{area_at, area_size, areas_in, behind};

use crate::device_steps::{copy_over, start_area, store_map};
use crate::fault::KeeperFault;
use crate::keeper::Keeper;
use crate::plans::{add_plan, take_first};
use device_image::{CopyPlan, latest_writes};
use disk_model::Disk;
use header_slots::{Header, HeaderChange, change_header};
use image_model::BLOCK_BYTES;
use journal::Area;
use regions::Regions;
use std::alloc::AllocError;
use std::mem;

// The buffer with this many bytes, whatever they are.
fn with_len(buffer: Vec<u8>, len: usize) -> Result<Vec<u8>, AllocError>
    ensures len { IfOk result (λ buffer. vec_len buffer ≡ len) }
{
    let mut buffer = buffer;
    buffer.resize(len, 0)?;
    Ok(buffer)
}

impl<D: Disk> Keeper<D> {
    /// Copies the next blocks, at most `most`, that follow one another in the image and in the area, in one read and one
    /// write of the device, and answers how many. It is due if several areas are in use and a block of the first is left to
    /// copy.
    ///
    /// It copies those blocks whose last touch in the first area is a put, in ascending order, from there to the data
    /// region. It takes memory for their bytes. Refusals 0 (no memory), 1 (device fault), 15 (not now) and 16 (failed).
    pub fn copy_some(&mut self, most: u32) -> Result<u32, KeeperFault>
        requires { 1 ≤ most }
        ensures ok { IfOk result (λ blocks. (1 ≤ blocks) × (blocks ≤ most) × (self.new ≡ copied_by self.old blocks self.new.disk self.new.memory)) }
        ensures left { IfOk result (λ blocks. blocks ≤ left_in self.old.phase) }
        ensures err { IfErr result (λ fault. self.new ≡ refused_by fault self.old self.new.disk) }
        ensures failed { (result ≡ Err KeeperFault.Failed) ↔ IsTrue self.old.failed }
        ensures not_now { (result ≡ Err KeeperFault.NotNow) ↔ ((self.old.failed ≡ false) × (IsCopyTime self.old.phase → ⊥)) }
        ensures only { IfErr result IsStepFault }
        ensures not_full { result ≢ Err KeeperFault.NumbersFull }
        ensures unchanged { IfErr result (λ fault. (fault ≡ KeeperFault.DeviceFault) ⊎ (self.new.disk ≡ self.old.disk)) }
        ensures extent { D.extent self.new.disk ≡ D.extent self.old.disk }
        ensures faults_ok { OnOk result (D.faults self.new.disk ≡ D.faults self.old.disk) }
        ensures faults_err { IfErr result (λ fault. D.faults self.new.disk ≡ faults_by fault (D.faults self.old.disk)) }
        ensures honest { D.honest self.new.disk ↔ D.honest self.old.disk }
        ensures remembered { (commands : List Change) → Remembers self.old commands → OnOk result (Remembers self.new commands) }

        // On an honest device: at `Ok` the keeper holds the same commands over the same image, and where it keeps an image
        // whatever a crash at any moment leaves stands for it, with the same header in force.
        ensures held { D.honest self.old.disk → (base : Image) (fronts : List (List Change)) (last : List Change) → Holds self.old (D.state self.old.disk) base fronts last
            → OnOk result (Holds self.new (D.state self.new.disk) base fronts last) }
        ensures any_moment { D.honest self.old.disk → (image : Image) (number : ℕ) → Keeps self.old (D.state self.old.disk) image number
            → LeavesOnly (D.state self.old.disk) (D.state self.new.disk) (λ content. StandsFor content image number) }
        ensures header { D.honest self.old.disk → (image : Image) (number : ℕ) → Keeps self.old (D.state self.old.disk) image number
            → LeavesOnly (D.state self.old.disk) (D.state self.new.disk) (HasHeader self.old.geometry self.old.generation) }
    {
        if self.failed {
            return Err(KeeperFault::Failed);
        }
        let Some(plan) = &mut self.plan else {
            return Err(KeeperFault::NotNow);
        };
        let Some(put) = plan.next_copy(most) else {
            return Err(KeeperFault::NotNow);
        };
        let copied = mem::replace(&mut self.copied, Vec::new(self.alloc));
        let mut buffer = with_len(copied, put.blocks as usize * BLOCK_BYTES as usize)?;
        let from = plan.start() + put.place as u64;
        let geometry = self.header.geometry;
        let regions = Regions::from_geometry(&geometry);
        let done = copy_over(
            &mut self.disk,
            &regions,
            from,
            put.first as u64,
            &mut buffer,
        );
        self.copied = buffer;
        match done {
            Ok(()) => {
                plan.advance(put);
                Ok(put.blocks)
            }
            Err(fault) => {
                self.failed = true;
                Err(KeeperFault::from(fault))
            }
        }
    }

    /// Copies the next block, as [`Keeper::copy_some`] does. Refusals 0 (no memory), 1 (device fault), 15 (not now) and 16
    /// (failed).
    pub fn copy_one(&mut self) -> Result<(), KeeperFault>
        ensures ok { OnOk result (self.new ≡ copied_by self.old 1 self.new.disk self.new.memory) }
        ensures err { IfErr result (λ fault. self.new ≡ refused_by fault self.old self.new.disk) }
        ensures failed { (result ≡ Err KeeperFault.Failed) ↔ IsTrue self.old.failed }
        ensures not_now { (result ≡ Err KeeperFault.NotNow) ↔ ((self.old.failed ≡ false) × (IsCopyTime self.old.phase → ⊥)) }
        ensures only { IfErr result IsStepFault }
        ensures not_full { result ≢ Err KeeperFault.NumbersFull }
        ensures unchanged { IfErr result (λ fault. (fault ≡ KeeperFault.DeviceFault) ⊎ (self.new.disk ≡ self.old.disk)) }
        ensures extent { D.extent self.new.disk ≡ D.extent self.old.disk }
        ensures faults_ok { OnOk result (D.faults self.new.disk ≡ D.faults self.old.disk) }
        ensures faults_err { IfErr result (λ fault. D.faults self.new.disk ≡ faults_by fault (D.faults self.old.disk)) }
        ensures honest { D.honest self.new.disk ↔ D.honest self.old.disk }
        ensures remembered { (commands : List Change) → Remembers self.old commands → OnOk result (Remembers self.new commands) }

        // As for `copy_some`.
        ensures held { D.honest self.old.disk → (base : Image) (fronts : List (List Change)) (last : List Change) → Holds self.old (D.state self.old.disk) base fronts last
            → OnOk result (Holds self.new (D.state self.new.disk) base fronts last) }
        ensures any_moment { D.honest self.old.disk → (image : Image) (number : ℕ) → Keeps self.old (D.state self.old.disk) image number
            → LeavesOnly (D.state self.old.disk) (D.state self.new.disk) (λ content. StandsFor content image number) }
        ensures header { D.honest self.old.disk → (image : Image) (number : ℕ) → Keeps self.old (D.state self.old.disk) image number
            → LeavesOnly (D.state self.old.disk) (D.state self.new.disk) (HasHeader self.old.geometry self.old.generation) }
    {
        let _one = self.copy_some(1)?;
        Ok(())
    }
}

impl<D: Disk> Keeper<D> {
    /// Takes the next area into use, after those that are: groups go there from now on. It is due if an area isn't in use, and
    /// the last area in use isn't empty.
    ///
    /// The next area's first gate is closed and synced, and then the header changes. It takes memory for the last touches of
    /// the blocks, and for one more checkpoint that waits. Refusals 0 (no memory), 1 (device fault), 9 (numbers full),
    /// 15 (not now) and 16 (failed).
    pub fn rotate(&mut self) -> Result<(), KeeperFault>
        ensures ok { OnOk result (self.new ≡ rotated_by self.old self.new.disk self.new.memory) }
        ensures err { IfErr result (λ fault. self.new ≡ refused_by fault self.old self.new.disk) }
        ensures failed { (result ≡ Err KeeperFault.Failed) ↔ IsTrue self.old.failed }
        ensures not_now { (result ≡ Err KeeperFault.NotNow) ↔ ((self.old.failed ≡ false) × (IsRotateTime self.old → ⊥)) }
        ensures full { (result ≡ Err KeeperFault.NumbersFull)
            ↔ ((self.old.failed ≡ false) × IsRotateTime self.old × (self.old.generation ≡ 18446744073709551615)) }
        ensures only { IfErr result IsStepFault }
        ensures unchanged { IfErr result (λ fault. (fault ≡ KeeperFault.DeviceFault) ⊎ (self.new.disk ≡ self.old.disk)) }
        ensures extent { D.extent self.new.disk ≡ D.extent self.old.disk }
        ensures faults_ok { OnOk result (D.faults self.new.disk ≡ D.faults self.old.disk) }
        ensures faults_err { IfErr result (λ fault. D.faults self.new.disk ≡ faults_by fault (D.faults self.old.disk)) }
        ensures honest { D.honest self.new.disk ↔ D.honest self.old.disk }
        ensures fresh { OnOk result (Remembers self.new []) }
        ensures left { (commands : List Change) → Remembers self.old commands → OnOk result (self.new.lefts ≡ self.old.lefts ++ len (dirty_blocks 0 commands) ∷ []) }
        ensures phase { (commands : List Change) → Remembers self.old commands → OnOk result (self.new.phase ≡ phase_with self.old.phase (len (dirty_blocks 0 commands))) }

        // On an honest device: at `Ok` the commands of the last area stand before an empty list. A crash as for `copy_some`,
        // but that the next header may be in force.
        ensures held { D.honest self.old.disk → (base : Image) (fronts : List (List Change)) (last : List Change) → Holds self.old (D.state self.old.disk) base fronts last
            → OnOk result (Holds self.new (D.state self.new.disk) base (fronts ++ last ∷ []) []) }
        ensures any_moment { D.honest self.old.disk → (image : Image) (number : ℕ) → Keeps self.old (D.state self.old.disk) image number
            → LeavesOnly (D.state self.old.disk) (D.state self.new.disk) (λ content. StandsFor content image number) }
        ensures header { D.honest self.old.disk → (image : Image) (number : ℕ) → Keeps self.old (D.state self.old.disk) image number
            → LeavesOnly (D.state self.old.disk) (D.state self.new.disk) (HasHeaderOrNext self.old.geometry self.old.generation) }
    {
        if self.failed {
            return Err(KeeperFault::Failed);
        }
        if !self.has_spare_area() || self.area.is_empty() {
            return Err(KeeperFault::NotNow);
        }
        let Some(header) = self.header.next(&self.with_next()) else {
            return Err(KeeperFault::NumbersFull);
        };
        let geometry = self.header.geometry;
        let touches = latest_writes(self.alloc, &self.area, geometry.blocks as u32)?;
        self.waiting.reserve(1)?;
        let mut next = self.next_area();
        match start_area(&mut self.disk, &mut next, self.slot, &header) {
            Ok(()) => {
                let last = CopyPlan::new(&self.area, touches);
                self.area = next;
                add_plan(&mut self.plan, &mut self.waiting, last);
                self.header = header;
                self.slot = self.slot.other();
                Ok(())
            }
            Err(fault) => {
                self.failed = true;
                Err(KeeperFault::from(fault))
            }
        }
    }

    // Whether an area isn't in use.
    fn has_spare_area(&self) -> bool
        ensures spare { IsTrue result ↔ (length self.now.turned + 1 < areas_in self.now.geometry) }
        ensures room { IsTrue result → self.now.memory.header.before_last + 1 < areas_in self.now.memory.header.geometry }
    {
        self.header.before_last as u16 + 1 < self.header.geometry.areas() as u16
    }

    // The next area in use too, after those that are.
    fn with_next(&self) -> HeaderChange
        requires { self.now.memory.header.before_last + 1 < areas_in self.now.memory.header.geometry }
        ensures { result ≡ with_next self.now.memory.header }
    {
        HeaderChange {
            before_last: self.header.before_last + 1,
            first_area: self.header.first_area,
            map_slot: self.header.map_slot,
            base: self.header.base,
        }
    }

    // The first area no longer in use, over the other map slot and this base.
    fn without_first(&self, base: u64) -> HeaderChange
        requires { 0 < self.now.memory.header.before_last }
        ensures change { result ≡ without_first self.now.memory.header base }
        ensures few { result.before_last < areas_in self.now.memory.header.geometry }
        ensures first { result.first_area < areas_in self.now.memory.header.geometry }
    {
        let regions = Regions::from_geometry(&self.header.geometry);
        HeaderChange {
            before_last: self.header.before_last - 1,
            first_area: regions.area_after(self.header.first_area, 1),
            map_slot: self.header.map_slot.other(),
            base,
        }
    }

    // The area after those in use, whose list is empty.
    fn next_area(&self) -> Area
        requires { self.now.memory.header.before_last + 1 < areas_in self.now.memory.header.geometry }
        ensures { result ≡ record {
          from = area_at self.now.geometry (behind (areas_in self.now.geometry) (suc self.now.memory.header.before_last) self.now.memory.header.first_area);
          bytes = area_size self.now.geometry;
          blocks = self.now.geometry.blocks;
          next = self.now.memory.area.next;
          gate = 0;
          touched = [];
        } }
    {
        let geometry = self.header.geometry;
        let regions = Regions::from_geometry(&geometry);
        let index = regions.area_after(self.header.first_area, self.header.before_last + 1);
        Area::new(
            self.alloc,
            regions.area_from(index),
            geometry.area_size(),
            geometry.blocks,
            self.area.next(),
        )
    }
}

impl<D: Disk> Keeper<D> {
    /// Writes the map after the first area into the map slot that isn't in force, and syncs. It is due if several areas
    /// are in use, no block is left to copy, and the map isn't written.
    ///
    /// It takes memory for one map. Refusals 0 (no memory), 1 (device fault), 15 (not now) and 16 (failed).
    pub fn write_map(&mut self) -> Result<(), KeeperFault>
        ensures ok { OnOk result (self.new ≡ mapped_by self.old self.new.disk self.new.memory) }
        ensures err { IfErr result (λ fault. self.new ≡ refused_by fault self.old self.new.disk) }
        ensures failed { (result ≡ Err KeeperFault.Failed) ↔ IsTrue self.old.failed }
        ensures not_now { (result ≡ Err KeeperFault.NotNow) ↔ ((self.old.failed ≡ false) × (IsMapTime self.old.phase → ⊥)) }
        ensures full { result ≢ Err KeeperFault.NumbersFull }
        ensures only { IfErr result IsStepFault }
        ensures unchanged { IfErr result (λ fault. (fault ≡ KeeperFault.DeviceFault) ⊎ (self.new.disk ≡ self.old.disk)) }
        ensures extent { D.extent self.new.disk ≡ D.extent self.old.disk }
        ensures faults_ok { OnOk result (D.faults self.new.disk ≡ D.faults self.old.disk) }
        ensures faults_err { IfErr result (λ fault. D.faults self.new.disk ≡ faults_by fault (D.faults self.old.disk)) }
        ensures honest { D.honest self.new.disk ↔ D.honest self.old.disk }
        ensures remembered { (commands : List Change) → Remembers self.old commands → OnOk result (Remembers self.new commands) }

        // As for `copy_some`.
        ensures held { D.honest self.old.disk → (base : Image) (fronts : List (List Change)) (last : List Change) → Holds self.old (D.state self.old.disk) base fronts last
            → OnOk result (Holds self.new (D.state self.new.disk) base fronts last) }
        ensures any_moment { D.honest self.old.disk → (image : Image) (number : ℕ) → Keeps self.old (D.state self.old.disk) image number
            → LeavesOnly (D.state self.old.disk) (D.state self.new.disk) (λ content. StandsFor content image number) }
        ensures header { D.honest self.old.disk → (image : Image) (number : ℕ) → Keeps self.old (D.state self.old.disk) image number
            → LeavesOnly (D.state self.old.disk) (D.state self.new.disk) (HasHeader self.old.geometry self.old.generation) }
    {
        if self.failed {
            return Err(KeeperFault::Failed);
        }
        let Some(plan) = &mut self.plan else {
            return Err(KeeperFault::NotNow);
        };
        if plan.left() > 0 {
            return Err(KeeperFault::NotNow);
        }
        if plan.is_mapped() {
            return Err(KeeperFault::NotNow);
        }
        let map = plan.map_after(self.alloc, &self.map)?;
        let geometry = self.header.geometry;
        let slot = self.header.map_slot.other();
        match store_map(
            &mut self.disk,
            &Regions::from_geometry(&geometry),
            slot,
            &map,
        ) {
            Ok(()) => {
                plan.set_map(map);
                Ok(())
            }
            Err(fault) => {
                self.failed = true;
                Err(KeeperFault::from(fault))
            }
        }
    }

    /// Ends the checkpoint of the first area, which is no longer in use: map and data hold what it held. It is due once the map
    /// is written.
    ///
    /// The header changes. Refusals 1 (device fault), 9 (numbers full), 15 (not now) and 16 (failed).
    pub fn finish(&mut self) -> Result<(), KeeperFault>
        ensures ok { OnOk result (self.new ≡ finished_by self.old self.new.disk self.new.memory) }
        ensures err { IfErr result (λ fault. self.new ≡ refused_by fault self.old self.new.disk) }
        ensures failed { (result ≡ Err KeeperFault.Failed) ↔ IsTrue self.old.failed }
        ensures not_now { (result ≡ Err KeeperFault.NotNow) ↔ ((self.old.failed ≡ false) × (IsFinishTime self.old.phase → ⊥)) }
        ensures full { (result ≡ Err KeeperFault.NumbersFull)
            ↔ ((self.old.failed ≡ false) × IsFinishTime self.old.phase × (self.old.generation ≡ 18446744073709551615)) }
        ensures memory { result ≢ Err KeeperFault.NoMemory }
        ensures only { IfErr result IsStepFault }
        ensures unchanged { IfErr result (λ fault. (fault ≡ KeeperFault.DeviceFault) ⊎ (self.new.disk ≡ self.old.disk)) }
        ensures extent { D.extent self.new.disk ≡ D.extent self.old.disk }
        ensures faults_ok { OnOk result (D.faults self.new.disk ≡ D.faults self.old.disk) }
        ensures faults_err { IfErr result (λ fault. D.faults self.new.disk ≡ faults_by fault (D.faults self.old.disk)) }
        ensures honest { D.honest self.new.disk ↔ D.honest self.old.disk }
        ensures remembered { (commands : List Change) → Remembers self.old commands → OnOk result (Remembers self.new commands) }

        // On an honest device: at `Ok` map and data hold what the commands of the first area made of the image that they held. A
        // crash as for `rotate`.
        ensures held { D.honest self.old.disk → (base : Image) (first : List Change) (others : List (List Change)) (last : List Change)
            → Holds self.old (D.state self.old.disk) base (first ∷ others) last
            → OnOk result (Holds self.new (D.state self.new.disk) (apply_all first base) others last) }
        ensures any_moment { D.honest self.old.disk → (image : Image) (number : ℕ) → Keeps self.old (D.state self.old.disk) image number
            → LeavesOnly (D.state self.old.disk) (D.state self.new.disk) (λ content. StandsFor content image number) }
        ensures header { D.honest self.old.disk → (image : Image) (number : ℕ) → Keeps self.old (D.state self.old.disk) image number
            → LeavesOnly (D.state self.old.disk) (D.state self.new.disk) (HasHeaderOrNext self.old.geometry self.old.generation) }
    {
        if self.failed {
            return Err(KeeperFault::Failed);
        }
        let Some(base) = self.base_after() else {
            return Err(KeeperFault::NotNow);
        };
        let Some(header) = self.header.next(&self.without_first(base)) else {
            return Err(KeeperFault::NumbersFull);
        };
        match change_header(&mut self.disk, self.slot, &header) {
            Ok(()) => {
                self.take_over(header);
                Ok(())
            }
            Err(fault) => {
                self.failed = true;
                Err(KeeperFault::from(fault))
            }
        }
    }

    // The first area is no longer in use, by this header, and map and data hold what it did.
    fn take_over(&mut self, header: Header)
        requires time { IsFinishTime self.old.phase }
        requires geometry { header.geometry ≡ self.old.geometry }
        requires before_last { header.before_last ≡ self.old.memory.header.before_last - 1 }
        requires base { header.base ≡ first_turned self.old.base self.old.turned }
        ensures { self.new ≡ record self.old {
          generation = header.generation;
          base = header.base;
          turned = turned_of (plans_behind self.old.memory.plans);
          lefts = lefts_of (plans_behind self.old.memory.plans);
          phase = phase_of (plans_behind self.old.memory.plans);
          memory = record self.old.memory {
            header = header;
            slot = other_of self.old.memory.slot;
            map = map_after self.old.memory.plans self.old.memory.map;
            plans = plans_behind self.old.memory.plans;
          };
        } }
    {
        if let Some(plan) = self.plan.take()
            && let Some(map) = plan.into_map()
        {
            self.map = map;
        }
        self.plan = take_first(&mut self.waiting);
        self.header = header;
        self.slot = self.slot.other();
    }

    // The number of the last command in the first area, where the map after it is written.
    fn base_after(&self) -> Option<u64>
        ensures some { IfSome result (λ base. IsFinishTime self.now.phase × (base ≡ first_turned self.now.base self.now.turned)) }
        ensures several { IfSome result (λ base. 0 < self.now.memory.header.before_last) }
        ensures none { IfNone result (IsFinishTime self.now.phase → ⊥) }
    {
        match &self.plan {
            Some(plan) if plan.is_mapped() => Some(plan.next().wrapping_sub(1)),
            _ => None,
        }
    }
}
