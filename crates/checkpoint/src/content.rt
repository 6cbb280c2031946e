ghost use Rattle.std.specs.Prelude.{◌≡◌, ◌≤◌, ◌↔◌, None, IfErr, OnOk};
ghost use Rattle.checkpoint.specs.Keeper.{faults_by};
ghost use Rattle.checkpoint.specs.Opening.{IsRefused};
ghost use Rattle.disk_model.specs.Disk.{IsAllSynced};
ghost use Rattle.journal_format.specs.Reading.{IsOnlyRead};

use crate::fault::KeeperFault;
use crate::opening::{Opened, read_parts};
use alloc_map::AllocMap;
use device_image::{CopyPlan, latest_writes};
use disk_model::Disk;
use image_model::{Geometry, Kind};
use journal_format::Touch;
use regions::Regions;
use std::alloc::{AllocError, Global};

/// Where the blocks of the image stand that a device holds: one whose last touch in an area in use is a put there, and otherwise in its
/// place.
#[derive(Drop)]
pub struct Content {
    /// The sizes that the device was formatted with.
    pub geometry: Geometry,
    // The states of the blocks before the commands of the journal.
    map: AllocMap,
    // The last touches of the areas in use, in the order of the ring.
    areas: Vec<CopyPlan>,
}

impl Content {
    /// Reads what a device holds. It doesn't sync the device, or go on with a checkpoint that is under way.
    ///
    /// It keeps memory for one map, and for the last touches of the blocks. Refusals 7 (no header), 8 (bad header), 6 (bad map) and 12
    /// (damaged group), the first of these that applies, 0 (no memory) and 1 (device fault).
    pub fn read<D: Disk>(alloc: Global, disk: &mut D) -> Result<Content, KeeperFault>
        ensures extent { D.extent disk.new ≡ D.extent disk.old }
        ensures faults_ok { OnOk result (D.faults disk.new ≡ D.faults disk.old) }
        ensures faults_err { IfErr result (λ fault. D.faults disk.new ≡ faults_by fault (D.faults disk.old)) }
        ensures honest { D.honest disk.new ↔ D.honest disk.old }

        // On an honest device nothing is written. If nothing is unsynced, a refusal says what is bad of the content.
        ensures only_read { D.honest disk.old → IsOnlyRead (D.state disk.old) (D.state disk.new) }
        ensures refused { D.honest disk.old → IsAllSynced (D.state disk.old) → IfErr result (λ fault. IsRefused fault (D.state disk.new).seen) }
    {
        let Opened {
            header,
            slot: _,
            map,
            plans,
            area,
        } = read_parts(alloc, disk)?;
        let touches = latest_writes(alloc, &area, header.geometry.blocks as u32)?;
        let areas = with_last(plans, CopyPlan::new(&area, touches))?;
        Ok(Content {
            geometry: header.geometry,
            map,
            areas,
        })
    }

    /// The first byte of the device that is one of the block's; None if the block reads as zero, as all do past the last one.
    pub fn place_of(&self, block: u64) -> Option<u64>
        ensures { self.now.geometry.blocks ≤ block → result ≡ None }
    {
        if block >= self.geometry.blocks || block >= self.map.blocks() {
            return None;
        }
        match self.last_touch_of(block as u32) {
            Some(Touch::Put(place)) => Some(place),
            Some(Touch::Clear(_)) => None,
            None => self.base_place_of(block),
        }
    }

    // The same of a block that no command of the journal touches.
    fn base_place_of(&self, block: u64) -> Option<u64> {
        if block < self.geometry.blocks
            && block < self.map.blocks()
            && self.map.state(block) == Kind::Data
        {
            return Some(Regions::from_geometry(&self.geometry).block_from(block));
        }
        None
    }

    // The last touch of a block by the areas in use.
    fn last_touch_of(&self, block: u32) -> Option<Touch> {
        let mut index = self.areas.len();
        while index > 0 {
            index -= 1;
            let touch = self.areas[index].touch_of(block);
            if touch.is_some() {
                return touch;
            }
        }
        None
    }
}

// The plans with one more.
fn with_last(plans: Vec<CopyPlan>, last: CopyPlan) -> Result<Vec<CopyPlan>, AllocError> {
    let mut plans = plans;
    plans.push(last)?;
    Ok(plans)
}
