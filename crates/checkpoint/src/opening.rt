ghost use Rattle.std.specs.Prelude.{◌≡◌, ◌⊎◌, ◌<◌, ◌↔◌, List, [], length, false, Err, IfErr, IfOk, MatchResult, OnOk};
ghost use Rattle.checkpoint.specs.Keeper.{AreSized, faults_by};
ghost use Rattle.device_image.specs.Keeps.{HoldsAreas, IsPlaced, Keeps};
ghost use Rattle.device_image.specs.inner.Keeps.{HoldsListed};
ghost use Rattle.device_image.specs.Damage.{IsAreaDamaged};
ghost use Rattle.checkpoint.specs.Opening.{IsRefused, disk_after, faults_after_opening};
ghost use Rattle.checkpoint.specs.inner.Opening.{IsOpened, IsGroupsRefused, IsReadFixed, IsReadFixedOrNot};
ghost use Rattle.checkpoint.specs.inner.Recovery.{IsBegun};
ghost use Rattle.checkpoint.specs.declared.fault.KeeperFault.TheVariants as KeeperFault;
ghost use Rattle.device_image.specs.Keeper.{AreUncopied, IsUncopied, earlier_of, last_turned, turned_of};
ghost use Rattle.journal_format.specs.GroupList.{HoldsList, IsDamaged};
ghost use Rattle.device_image.specs.Stands.{area_of, last_area, next_number};
ghost use Rattle.disk_model.specs.Disk.{IsAllSynced, IsSyncFailed, LeavesOnly, MayLeave};
ghost use Rattle.image_model.specs.Geometry.{device_bytes_of};
ghost use Rattle.image_model.specs.Image.{Image};
ghost use Rattle.journal_format.specs.Reading.{IsOnlyRead};
ghost use Rattle.journal_format.specs.Spelling.{StoredGroup};
ghost use Rattle.regions.specs.Layout.{areas_in};

use crate::fault::KeeperFault;
use crate::keeper::Keeper;
use crate::plans::take_first;
use alloc_map::AllocMap;
use device_image::{CopyPlan, latest_writes};
use disk_model::Disk;
use header_slots::{Header, read_current};
use image_model::{Geometry, Side};
use journal::Area;
use regions::Regions;
use std::alloc::{AllocError, Global};

// What is read of a device: its header in force and the slot of it, the map that the header names, what is to be
// copied of each area in use before the last, and the last one, to which the next group goes.
#[derive(Drop)]
pub struct Opened {
    pub header: Header,
    pub slot: Side,
    pub map: AllocMap,
    pub plans: Vec<CopyPlan>,
    pub area: Area,
}

// The keeper of a device as it stands: it is synced, its header in force is read, its map, and the groups of its areas in
// use. Nothing is written, and a refusal hands the device back.
pub fn load<D: Disk>(alloc: Global, mut disk: D) -> Result<Keeper<D>, (KeeperFault, D)>
    ensures extent { D.extent (disk_after result) ≡ D.extent disk }
    ensures faults { D.faults (disk_after result) ≡ faults_after_opening result (D.faults disk) }
    ensures honest { D.honest (disk_after result) ↔ D.honest disk }
    ensures works { IfOk result (λ keeper. keeper.failed ≡ false) }
    ensures begun { IfOk result (λ keeper. IsBegun keeper.phase) }
    ensures turned { IfOk result (λ keeper. keeper.turned ≡ turned_of keeper.memory.plans) }

    ensures found { D.honest disk → MatchResult result
        (λ keeper. (image : Image) × Keeps keeper (D.state keeper.disk) image keeper.count)
        (λ refused. IsRefused refused.0 (D.state refused.1).seen) }
    ensures fixed { D.honest disk → MayLeave (D.state disk) (D.state (disk_after result)).seen }
    ensures first { D.honest disk → IsReadFixedOrNot (D.state disk) D.state result (D.state (disk_after result)).seen }
    ensures any_moment { D.honest disk → LeavesOnly (D.state disk) (D.state (disk_after result)) (MayLeave (D.state disk)) }
{
    match read_device(alloc, &mut disk) {
        Ok(
            Opened {
                header,
                slot,
                map,
                mut plans,
                area,
            },
        ) => {
            let plan = take_first(&mut plans);
            Ok(Keeper {
                alloc,
                disk,
                header,
                slot,
                count: area.next().wrapping_sub(1),
                map,
                plan,
                waiting: plans,
                area,
                failed: false,
                copied: Vec::new(alloc),
            })
        }
        Err(fault) => Err((fault, disk)),
    }
}

// Syncs the device and reads it.
fn read_device<D: Disk>(alloc: Global, disk: &mut D) -> Result<Opened, KeeperFault>
    ensures extent { D.extent disk.new ≡ D.extent disk.old }
    ensures faults_ok { OnOk result (D.faults disk.new ≡ D.faults disk.old) }
    ensures faults_err { IfErr result (λ fault. D.faults disk.new ≡ faults_by fault (D.faults disk.old)) }
    ensures honest { D.honest disk.new ↔ D.honest disk.old }
    ensures whole { IfOk result (λ opened. D.extent disk.old ≡ device_bytes_of opened.header.geometry.blocks opened.header.geometry.area) }
    ensures placed { IfOk result (λ opened.
        IsPlaced opened.area opened.header.geometry (last_area opened.header)) }
    ensures none { IfOk result (λ opened. opened.area.gate ≡ 0 → (opened.area.touched ≡ []) × (opened.area.next ≡ next_number (last_turned opened.header.base (turned_of opened.plans.items)))) }

    ensures sized { IfOk result (λ opened. AreSized opened.plans.items opened.header.geometry (D.extent disk.old)) }
    ensures blocks { IfOk result (λ opened. length opened.map ≡ opened.header.geometry.blocks) }
    ensures uncopied { IfOk result (λ opened. AreUncopied opened.plans.items) }
    ensures many { IfOk result (λ opened. opened.header.before_last ≡ length opened.plans.items) }

    ensures fixed { D.honest disk.old → MayLeave (D.state disk.old) (D.state disk.new).seen }
    ensures first { D.honest disk.old → IsReadFixed (D.state disk.old) D.state (D.state disk.new) (D.state disk.new).seen
        ⊎ ((result ≡ Err KeeperFault.DeviceFault) × IsSyncFailed (D.state disk.old) (D.state disk.new)) }
    ensures read { D.honest disk.old → MatchResult result
        (λ opened. IsOpened (D.state disk.new) opened.header opened.slot opened.map opened.plans.items opened.area)
        (λ fault. IsRefused fault (D.state disk.new).seen) }
    ensures any_moment { D.honest disk.old → LeavesOnly (D.state disk.old) (D.state disk.new) (MayLeave (D.state disk.old)) }
{
    disk.sync()?;
    read_parts(alloc, disk)
}

// Reads a device as it stands.
pub fn read_parts<D: Disk>(alloc: Global, disk: &mut D) -> Result<Opened, KeeperFault>
    ensures extent { D.extent disk.new ≡ D.extent disk.old }
    ensures faults_ok { OnOk result (D.faults disk.new ≡ D.faults disk.old) }
    ensures faults_err { IfErr result (λ fault. D.faults disk.new ≡ faults_by fault (D.faults disk.old)) }
    ensures honest { D.honest disk.new ↔ D.honest disk.old }
    ensures whole { IfOk result (λ opened. D.extent disk.old ≡ device_bytes_of opened.header.geometry.blocks opened.header.geometry.area) }
    ensures placed { IfOk result (λ opened.
        IsPlaced opened.area opened.header.geometry (last_area opened.header)) }
    ensures none { IfOk result (λ opened. opened.area.gate ≡ 0 → (opened.area.touched ≡ []) × (opened.area.next ≡ next_number (last_turned opened.header.base (turned_of opened.plans.items)))) }
    ensures sized { IfOk result (λ opened. AreSized opened.plans.items opened.header.geometry (D.extent disk.old)) }
    ensures blocks { IfOk result (λ opened. length opened.map ≡ opened.header.geometry.blocks) }
    ensures uncopied { IfOk result (λ opened. AreUncopied opened.plans.items) }
    ensures many { IfOk result (λ opened. opened.header.before_last ≡ length opened.plans.items) }

    ensures only_read { D.honest disk.old → IsOnlyRead (D.state disk.old) (D.state disk.new) }
    ensures read { D.honest disk.old → IsAllSynced (D.state disk.old) → MatchResult result
        (λ opened. IsOpened (D.state disk.new) opened.header opened.slot opened.map opened.plans.items opened.area)
        (λ fault. IsRefused fault (D.state disk.new).seen) }
{
    let (header, slot) = read_current(disk)?;
    let map = Regions::from_geometry(&header.geometry).read_slot(alloc, disk, header.map_slot)?;
    let (plans, area) = read_areas(alloc, disk, &header)?;
    Ok(Opened {
        header,
        slot,
        map,
        plans,
        area,
    })
}

// Reads the areas in use, and answers what is to be copied of each of those before the last, and the last one.
fn read_areas<D: Disk>(
    alloc: Global,
    disk: &mut D,
    header: &Header,
) -> Result<(Vec<CopyPlan>, Area), KeeperFault>
    requires { D.extent disk.old ≡ device_bytes_of header.now.geometry.blocks header.now.geometry.area }
    ensures extent { D.extent disk.new ≡ D.extent disk.old }
    ensures faults_ok { OnOk result (D.faults disk.new ≡ D.faults disk.old) }
    ensures faults_err { IfErr result (λ fault. D.faults disk.new ≡ faults_by fault (D.faults disk.old)) }
    ensures honest { D.honest disk.new ↔ D.honest disk.old }
    ensures placed { IfOk result (λ areas. IsPlaced areas.1 header.now.geometry (last_area header.now)) }
    ensures none { IfOk result (λ areas. areas.1.gate ≡ 0 → (areas.1.touched ≡ []) × (areas.1.next ≡ next_number (last_turned header.now.base (turned_of areas.0.items)))) }
    ensures sized { IfOk result (λ areas. AreSized areas.0.items header.now.geometry (D.extent disk.old)) }
    ensures uncopied { IfOk result (λ areas. AreUncopied areas.0.items) }
    ensures many { IfOk result (λ areas. header.now.before_last ≡ length areas.0.items) }

    ensures only_read { D.honest disk.old → IsOnlyRead (D.state disk.old) (D.state disk.new) }
    ensures read { D.honest disk.old → IsAllSynced (D.state disk.old) → MatchResult result
        (λ areas. (lists : List (List StoredGroup)) × HoldsAreas (D.state disk.new) header.now lists (earlier_of areas.0.items) areas.1)
        (λ fault. IsGroupsRefused fault (IsAreaDamaged (D.state disk.new).seen header.now)) }
{
    let geometry = &header.geometry;
    let regions = Regions::from_geometry(geometry);
    let mut plans = Vec::new(alloc);
    // The number after 2^64 - 1 is 0: no number is left.
    let mut next = header.base.wrapping_add(1);
    for place in 0..header.before_last {
        let index = regions.area_after(header.first_area, place);
        let plan = read_plan(alloc, disk, geometry, index, next)?;
        next = plan.next();
        plans.push(plan).map_err(AllocError::from)?;
    }
    let last = regions.area_after(header.first_area, header.before_last);
    let area = read_area(alloc, disk, geometry, last, next)?;
    Ok((plans, area))
}

// Reads the groups of an area, whose first has to begin with `next`, and makes the checkpoint of it.
fn read_plan<D: Disk>(
    alloc: Global,
    disk: &mut D,
    geometry: &Geometry,
    index: u8,
    next: u64,
) -> Result<CopyPlan, KeeperFault>
    requires size { D.extent disk.old ≡ device_bytes_of geometry.now.blocks geometry.now.area }
    requires index { index < areas_in geometry.now }
    ensures extent { D.extent disk.new ≡ D.extent disk.old }
    ensures faults_ok { OnOk result (D.faults disk.new ≡ D.faults disk.old) }
    ensures faults_err { IfErr result (λ fault. D.faults disk.new ≡ faults_by fault (D.faults disk.old)) }
    ensures honest { D.honest disk.new ↔ D.honest disk.old }
    ensures placed { IfOk result (λ plan. IsPlaced plan.first geometry.now index) }
    ensures uncopied { IfOk result IsUncopied }

    ensures only_read { D.honest disk.old → IsOnlyRead (D.state disk.old) (D.state disk.new) }
    ensures read { D.honest disk.old → IsAllSynced (D.state disk.old) → MatchResult result
        (λ plan. HoldsListed plan.first next (D.state disk.new))
        (λ fault. IsGroupsRefused fault (IsDamaged (area_of geometry.now index) next (D.state disk.new).seen)) }
{
    let area = read_area(alloc, disk, geometry, index, next)?;
    let touches = latest_writes(alloc, &area, geometry.blocks as u32)?;
    Ok(CopyPlan::new(&area, touches))
}

// Reads the groups of an area, whose first has to begin with `next`.
fn read_area<D: Disk>(
    alloc: Global,
    disk: &mut D,
    geometry: &Geometry,
    index: u8,
    next: u64,
) -> Result<Area, KeeperFault>
    requires size { D.extent disk.old ≡ device_bytes_of geometry.now.blocks geometry.now.area }
    requires index { index < areas_in geometry.now }
    ensures extent { D.extent disk.new ≡ D.extent disk.old }
    ensures faults_ok { OnOk result (D.faults disk.new ≡ D.faults disk.old) }
    ensures faults_err { IfErr result (λ fault. D.faults disk.new ≡ faults_by fault (D.faults disk.old)) }
    ensures honest { D.honest disk.new ↔ D.honest disk.old }
    ensures placed { IfOk result (λ area. IsPlaced area geometry.now index) }
    ensures none { IfOk result (λ area. area.gate ≡ 0 → (area.touched ≡ []) × (area.next ≡ next)) }

    ensures only_read { D.honest disk.old → IsOnlyRead (D.state disk.old) (D.state disk.new) }
    ensures read { D.honest disk.old → IsAllSynced (D.state disk.old) → MatchResult result
        (λ area. HoldsList area next (D.state disk.new))
        (λ fault. IsGroupsRefused fault (IsDamaged (area_of geometry.now index) next (D.state disk.new).seen)) }
{
    let from = Regions::from_geometry(geometry).area_from(index);
    let mut area = Area::new(alloc, from, geometry.area_size(), geometry.blocks, next);
    area.scan(alloc, disk)?;
    Ok(area)
}
