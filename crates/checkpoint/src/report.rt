ghost use Rattle.std.specs.Prelude.{◌≡◌, ◌≤◌, ◌↔◌, length, IfErr, IfOk, MatchResult, OnOk};
ghost use Rattle.checkpoint.specs.Keeper.{faults_by};
ghost use Rattle.checkpoint.specs.Opening.{IsRefused};
ghost use Rattle.checkpoint.specs.Report.{IsReport};
ghost use Rattle.checkpoint.specs.inner.Report.{AreOf, AreStatesBehind};
ghost use Rattle.disk_model.specs.Disk.{IsAllSynced};
ghost use Rattle.journal_format.specs.Reading.{IsOnlyRead};

use crate::fault::KeeperFault;
use crate::keeper::Keeper;
use crate::opening::{Opened, read_parts};
use alloc_map::AllocMap;
use device_image::{CopyPlan, map_after_area};
use disk_model::Disk;
use image_model::{Kind, Layout};
use journal::Area;
use std::alloc::{AllocError, Global};

/// What a device holds.
#[derive(Clone, Copy, PartialEq, Eq)]
pub struct Report {
    /// Its layout.
    pub layout: Layout,
    /// How many blocks its image has.
    pub blocks: u64,
    /// The number of areas in use before the last.
    pub before_last: u8,
    /// The number of the last command that map and data hold.
    pub base: u64,
    /// The number of the last command stored.
    pub commands: u64,
    /// How many blocks of its image are data.
    pub data_blocks: u64,
    /// How many are allocated and zero.
    pub zero_blocks: u64,
    /// How many are holes.
    pub hole_blocks: u64,
}

impl<D: Disk> Keeper<D> {
    /// Reports what the device holds. It only reads: it doesn't sync the device, or go on with a checkpoint that is under way.
    ///
    /// It takes memory for two maps, for what each command of the journal touched and
    /// the last touches of the blocks, and for 1 MiB while an area is scanned. Refusals 7 (no header), 8 (bad header), 6
    /// (bad map) and 12 (damaged group), the first of these that applies, 0 (no memory) and 1 (device fault).
    pub fn inspect(alloc: Global, disk: &mut D) -> Result<Report, KeeperFault>
        ensures extent { D.extent disk.new ≡ D.extent disk.old }
        ensures faults_ok { OnOk result (D.faults disk.new ≡ D.faults disk.old) }
        ensures faults_err { IfErr result (λ fault. D.faults disk.new ≡ faults_by fault (D.faults disk.old)) }
        ensures honest { D.honest disk.new ↔ D.honest disk.old }

        // On an honest device nothing is written. If nothing is unsynced, the report is of the image that the content
        // stands for, and a refusal says what is bad of the content.
        ensures only_read { D.honest disk.old → IsOnlyRead (D.state disk.old) (D.state disk.new) }
        ensures found { D.honest disk.old → IsAllSynced (D.state disk.old) → MatchResult result
            (λ report. IsReport report (D.state disk.new).seen)
            (λ fault. IsRefused fault (D.state disk.new).seen) }
    {
        let Opened {
            header,
            slot: _,
            map,
            plans,
            area,
        } = read_parts(alloc, disk)?;
        let map = states_after_plans(alloc, map, &plans, &area)?;
        Ok(Report {
            layout: header.geometry.layout,
            blocks: header.geometry.blocks,
            before_last: header.before_last,
            base: header.base,
            commands: area.next().wrapping_sub(1),
            data_blocks: map.count(Kind::Data),
            zero_blocks: map.count(Kind::Zero),
            hole_blocks: map.count(Kind::Hole),
        })
    }
}

// The states of the blocks after all areas in use, where this is the map before them.
fn states_after_plans(
    alloc: Global,
    map: AllocMap,
    plans: &Vec<CopyPlan>,
    area: &Area,
) -> Result<AllocMap, AllocError>
    requires bytes { area.now.bytes ≤ 1073741824 }
    requires blocks { area.now.blocks ≤ 16777216 }
    requires count { length map ≡ area.now.blocks }
    requires plans { AreOf area.now.blocks plans.now.items }
    ensures { IfOk result (AreStatesBehind plans.now.items area.now map) }
{
    let blocks = map.blocks() as u32;
    let mut turned = map;
    for plan in plans {
        turned = plan.map_after(alloc, &turned)?;
    }
    map_after_area(alloc, area, blocks, &turned)
}
