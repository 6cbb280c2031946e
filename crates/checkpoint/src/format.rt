ghost use Rattle.std.specs.Prelude.{◌≡◌, ◌≤◌, ◌⊎◌, ◌↔◌, ℕ, List, length, replicate, slice_index, IfErr, OnOk};
ghost use Rattle.checkpoint.specs.Format.{AreClosed, IsFormatted, IsMade, LeavesButGates, LeavesFormat, first_header};
ghost use Rattle.checkpoint.specs.inner.Format.{IsFresh};
ghost use Rattle.checkpoint.specs.Keeper.{faults_by};
ghost use Rattle.checkpoint.specs.declared.fault.KeeperFault.TheVariants as KeeperFault;
ghost use Rattle.device_image.specs.Stands.{stored_image};
ghost use Rattle.disk_model.specs.Disk.{IsAllSynced, IsSteady, LeavesOnly};
ghost use Rattle.disk_model.specs.Faults.{faults_after};
ghost use Rattle.header_slots.specs.Slots.{HoldsNone};
ghost use Rattle.image_model.specs.Geometry.{device_bytes_of};
ghost use Rattle.image_model.specs.declared.command.Kind.{Kind};
ghost use Rattle.image_model.specs.declared.command.Kind.TheVariants as Kind;
ghost use Rattle.image_model.specs.declared.geometry.Geometry.{Geometry};
ghost use Rattle.regions.specs.Layout.{block_at};

use crate::fault::KeeperFault;
use crate::keeper::Keeper;
use alloc_map::AllocMap;
use disk_model::{DeviceFault, Disk};
use header_slots::{Header, close_gate, fill_slot, open_gate};
use image_model::{Geometry, Side};
use journal::Area;
use regions::Regions;
use std::alloc::Global;

impl<D: Disk> Keeper<D> {
    /// Makes the device an image of holes with an empty journal, and header slot 0 its header.
    ///
    /// It syncs first, because after a failed call a gate may read as closed and not be. Then both header gates are closed and
    /// synced; the header's gate is opened last, when all else is stable. Refusals 0 (no memory), before its first call of the
    /// device, and 1 (device fault).
    pub fn format(alloc: Global, disk: &mut D, geometry: Geometry) -> Result<(), KeeperFault>
        requires { D.extent disk.old ≡ device_bytes_of geometry.blocks geometry.area }
        ensures extent { D.extent disk.new ≡ D.extent disk.old }
        ensures faults_ok { OnOk result (D.faults disk.new ≡ D.faults disk.old) }
        ensures faults_err { IfErr result (λ fault. D.faults disk.new ≡ faults_by fault (D.faults disk.old)) }
        ensures honest { D.honest disk.new ↔ D.honest disk.old }
        ensures only { IfErr result (λ fault. (fault ≡ KeeperFault.NoMemory) ⊎ (fault ≡ KeeperFault.DeviceFault)) }
        ensures unchanged { IfErr result (λ fault. (fault ≡ KeeperFault.DeviceFault) ⊎ (disk.new ≡ disk.old)) }

        // On an honest device.
        ensures synced { D.honest disk.old → OnOk result (IsAllSynced (D.state disk.new)) }
        ensures formatted { D.honest disk.old → OnOk result (IsFormatted (D.state disk.new).seen geometry) }
        ensures any_moment { D.honest disk.old
            → LeavesOnly (D.state disk.old) (D.state disk.new) (LeavesFormat (D.state disk.old) geometry) }
    {
        let map = AllocMap::new(alloc, geometry.blocks)?;
        write_device(alloc, disk, geometry, &map)?;
        Ok(())
    }

    /// Syncs, so that no byte is unreliable from an earlier failed call, closes the gates of both headers, which makes the device no
    /// image, and makes that stable. Refusal 1 (device fault).
    pub fn close_headers(disk: &mut D) -> Result<(), DeviceFault>
        requires { 8192 ≤ D.extent disk.old }
        ensures extent { D.extent disk.new ≡ D.extent disk.old }
        ensures faults { D.faults disk.new ≡ faults_after result (D.faults disk.old) }
        ensures honest { D.honest disk.new ↔ D.honest disk.old }

        ensures closed { D.honest disk.old → OnOk result (AreClosed (D.state disk.new)) }
        ensures any_moment { D.honest disk.old → LeavesOnly (D.state disk.old) (D.state disk.new) (LeavesButGates (D.state disk.old)) }
    {
        disk.sync()?;
        close_gates(disk)
    }

    /// Makes a device whose header gates are closed an image: of the states that the map says, with the bytes of the data region as they
    /// stand there, an empty journal, and header slot 0 as its header.
    ///
    /// The header's gate is opened last, when all else is stable. Refusal 1 (device fault).
    pub fn open_header_over(
        alloc: Global,
        disk: &mut D,
        geometry: Geometry,
        map: &AllocMap,
    ) -> Result<(), DeviceFault>
        requires size { D.extent disk.old ≡ device_bytes_of geometry.blocks geometry.area }
        requires blocks { length map.now ≡ geometry.blocks }
        ensures extent { D.extent disk.new ≡ D.extent disk.old }
        ensures faults { D.faults disk.new ≡ faults_after result (D.faults disk.old) }
        ensures honest { D.honest disk.new ↔ D.honest disk.old }

        // On an honest device whose header gates are closed.
        ensures synced { D.honest disk.old → OnOk result (IsAllSynced (D.state disk.new)) }
        ensures made { D.honest disk.old → AreClosed (D.state disk.old)
            → OnOk result (IsMade (D.state disk.new).seen geometry (stored_image (D.state disk.old).seen geometry map.now)) }
        ensures any_moment { D.honest disk.old → AreClosed (D.state disk.old)
            → LeavesOnly (D.state disk.old) (D.state disk.new)
            (λ content. HoldsNone content (length content) ⊎ IsMade content geometry (stored_image (D.state disk.old).seen geometry map.now)) }
    {
        write_parts(alloc, disk, geometry, map)?;
        open_header(disk)
    }
}

// Closes the gates of both headers and makes that stable.
fn close_gates<D: Disk>(disk: &mut D) -> Result<(), DeviceFault>
    requires { 8192 ≤ D.extent disk.old }
    ensures extent { D.extent disk.new ≡ D.extent disk.old }
    ensures faults { D.faults disk.new ≡ faults_after result (D.faults disk.old) }
    ensures honest { D.honest disk.new ↔ D.honest disk.old }

    ensures closed { D.honest disk.old → IsSteady (D.state disk.old) → OnOk result (AreClosed (D.state disk.new)) }
    ensures any_moment { D.honest disk.old → LeavesOnly (D.state disk.old) (D.state disk.new) (LeavesButGates (D.state disk.old)) }
{
    close_gate(disk, Side::Zero)?;
    close_gate(disk, Side::One)?;
    disk.sync()
}

// Writes a fresh device with this map, which is of holes, the header's gate last.
fn write_device<D: Disk>(
    alloc: Global,
    disk: &mut D,
    geometry: Geometry,
    map: &AllocMap,
) -> Result<(), DeviceFault>
    requires size { D.extent disk.old ≡ device_bytes_of geometry.blocks geometry.area }
    requires holes { map.now ≡ replicate geometry.blocks Kind.Hole }
    ensures extent { D.extent disk.new ≡ D.extent disk.old }
    ensures faults { D.faults disk.new ≡ faults_after result (D.faults disk.old) }
    ensures honest { D.honest disk.new ↔ D.honest disk.old }

    ensures synced { D.honest disk.old → OnOk result (IsAllSynced (D.state disk.new)) }
    ensures formatted { D.honest disk.old → OnOk result (IsFormatted (D.state disk.new).seen geometry) }
    ensures any_moment { D.honest disk.old
        → LeavesOnly (D.state disk.old) (D.state disk.new) (LeavesFormat (D.state disk.old) geometry) }
{
    Keeper::close_headers(disk)?;
    Keeper::open_header_over(alloc, disk, geometry, map)
}

// Writes the empty journal, the map and the header's body.
#[tactic(auto, using(image_model::specs::laws::Layouts::areas_some))]
fn write_parts<D: Disk>(
    alloc: Global,
    disk: &mut D,
    geometry: Geometry,
    map: &AllocMap,
) -> Result<(), DeviceFault>
    requires size { D.extent disk.old ≡ device_bytes_of geometry.blocks geometry.area }
    requires blocks { length map.now ≡ geometry.blocks }
    ensures extent { D.extent disk.new ≡ D.extent disk.old }
    ensures faults { D.faults disk.new ≡ faults_after result (D.faults disk.old) }
    ensures honest { D.honest disk.new ↔ D.honest disk.old }

    ensures closed { D.honest disk.old → AreClosed (D.state disk.old) → OnOk result (AreClosed (D.state disk.new)) }
    ensures fresh { D.honest disk.old → AreClosed (D.state disk.old) → OnOk result (IsFresh (D.state disk.new).seen geometry map.now) }
    ensures stays { D.honest disk.old → AreClosed (D.state disk.old) → OnOk result ((place : ℕ) → block_at geometry 0 ≤ place
        → slice_index (D.state disk.new).seen place ≡ slice_index (D.state disk.old).seen place) }
    ensures any_moment { D.honest disk.old → AreClosed (D.state disk.old)
        → LeavesOnly (D.state disk.old) (D.state disk.new) (λ content. HoldsNone content (length content)) }
{
    let regions = Regions::from_geometry(&geometry);
    let mut area = Area::new(
        alloc,
        regions.area_from(0),
        geometry.area_size(),
        geometry.blocks,
        1,
    );
    area.close_first(disk)?;
    disk.write_at(regions.map_from(Side::Zero), map.bytes())?;
    fill_slot(disk, Side::Zero, &first_header(geometry))
}

// The header of a device that was just formatted.
#[tactic(auto, using(image_model::specs::laws::Layouts::areas_some))]
fn first_header(geometry: Geometry) -> Header
    ensures { result ≡ first_header geometry }
{
    Header {
        generation: 1,
        geometry,
        before_last: 0,
        first_area: 0,
        map_slot: Side::Zero,
        base: 0,
    }
}

// Makes what was written stable, and then opens the gate of the header that it belongs to.
fn open_header<D: Disk>(disk: &mut D) -> Result<(), DeviceFault>
    requires { 8192 ≤ D.extent disk.old }
    ensures extent { D.extent disk.new ≡ D.extent disk.old }
    ensures faults { D.faults disk.new ≡ faults_after result (D.faults disk.old) }
    ensures honest { D.honest disk.new ↔ D.honest disk.old }

    ensures synced { D.honest disk.old → OnOk result (IsAllSynced (D.state disk.new)) }
    ensures opened { D.honest disk.old → AreClosed (D.state disk.old) → (geometry : Geometry) (states : List Kind)
        → D.extent disk.old ≡ device_bytes_of geometry.blocks geometry.area → IsFresh (D.state disk.old).seen geometry states
        → OnOk result (IsMade (D.state disk.new).seen geometry (stored_image (D.state disk.old).seen geometry states)) }
    ensures any_moment { D.honest disk.old → AreClosed (D.state disk.old) → (geometry : Geometry) (states : List Kind)
        → D.extent disk.old ≡ device_bytes_of geometry.blocks geometry.area → IsFresh (D.state disk.old).seen geometry states
        → LeavesOnly (D.state disk.old) (D.state disk.new)
        (λ content. HoldsNone content (length content) ⊎ IsMade content geometry (stored_image (D.state disk.old).seen geometry states)) }
{
    disk.sync()?;
    open_gate(disk, Side::Zero)?;
    disk.sync()
}
