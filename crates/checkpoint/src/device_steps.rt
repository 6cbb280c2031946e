ghost use Rattle.std.specs.Prelude.{◌≡◌, ◌+◌, ◌*◌, ◌%◌, ◌<◌, ◌≤◌, ◌↔◌, ◌∷◌, [], length, OnOk};
ghost use Rattle.device_image.specs.inner.Copied.{IsCopiedOver, IsMapStored, IsAreaStarted, LeavesAreaStart};
ghost use Rattle.disk_model.specs.Disk.{IsSteady, IsStored, IsSyncedIn, LeavesOnly, MayLeaveTorn};
ghost use Rattle.disk_model.specs.Faults.{faults_after};
ghost use Rattle.header_slots.specs.Change.{ComesNext};
ghost use Rattle.header_slots.specs.Slots.{HoldsHeader};
ghost use Rattle.header_slots.specs.declared.header.Header.{Header};
ghost use Rattle.image_model.specs.Geometry.{device_bytes_of, map_bytes_of};
ghost use Rattle.image_model.specs.Side.{other_of};
ghost use Rattle.regions.specs.Layout.{block_at, map_at};

use alloc_map::AllocMap;
use disk_model::{DeviceFault, Disk};
use header_slots::{Header, change_header};
use image_model::Side;
use journal::Area;
use regions::Regions;

// Copies as many bytes as the buffer has from a place of the device to the data of whole blocks, in one read and one
// write and without a sync.
pub fn copy_over<D: Disk>(
    disk: &mut D,
    regions: &Regions,
    from: u64,
    first: u64,
    buffer: &mut [u8],
) -> Result<(), DeviceFault>
    requires device { D.extent disk.old ≡ device_bytes_of regions.now.geometry.blocks regions.now.geometry.area }
    requires some { 0 < length buffer.old }
    requires whole { length buffer.old % 4096 ≡ 0 }
    requires inside { 4096 * first + length buffer.old ≤ 4096 * regions.now.geometry.blocks }
    requires source { from + length buffer.old ≤ D.extent disk.old }
    ensures extent { D.extent disk.new ≡ D.extent disk.old }
    ensures faults { D.faults disk.new ≡ faults_after result (D.faults disk.old) }
    ensures honest { D.honest disk.new ↔ D.honest disk.old }

    ensures copied { D.honest disk.old → IsSteady (D.state disk.old)
        → OnOk result (IsCopiedOver (D.state disk.old) from (block_at regions.now.geometry first) (length buffer.old) (D.state disk.new)) }
    ensures any_moment { D.honest disk.old → LeavesOnly (D.state disk.old) (D.state disk.new)
        (MayLeaveTorn (D.state disk.old) (block_at regions.now.geometry first) (length buffer.old)) }
{
    disk.read(from, buffer)?;
    regions.write_blocks(disk, first, buffer)
}

// Writes a map slot and syncs.
pub fn store_map<D: Disk>(
    disk: &mut D,
    regions: &Regions,
    slot: Side,
    map: &AllocMap,
) -> Result<(), DeviceFault>
    requires device { D.extent disk.old ≡ device_bytes_of regions.now.geometry.blocks regions.now.geometry.area }
    requires blocks { length map.now ≡ regions.now.geometry.blocks }
    ensures extent { D.extent disk.new ≡ D.extent disk.old }
    ensures faults { D.faults disk.new ≡ faults_after result (D.faults disk.old) }
    ensures honest { D.honest disk.new ↔ D.honest disk.old }

    ensures stored { D.honest disk.old → IsSteady (D.state disk.old) → OnOk result
        (IsMapStored (D.state disk.old) (map_at regions.now.geometry slot) regions.now.geometry.blocks map.now (D.state disk.new)) }
    ensures any_moment { D.honest disk.old → LeavesOnly (D.state disk.old) (D.state disk.new)
        (MayLeaveTorn (D.state disk.old) (map_at regions.now.geometry slot) (map_bytes_of regions.now.geometry.blocks)) }
{
    regions.write_slot(disk, slot, map)?;
    disk.sync()
}

// Closes the first gate of an area, and makes that stable: its list is empty.
pub fn empty_area<D: Disk>(disk: &mut D, area: &mut Area) -> Result<(), DeviceFault>
    requires { area.old.from + area.old.bytes ≤ D.extent disk.old }
    ensures ok { OnOk result (area.new ≡ record area.old { gate = 0; touched = [] }) }
    ensures extent { D.extent disk.new ≡ D.extent disk.old }
    ensures faults { D.faults disk.new ≡ faults_after result (D.faults disk.old) }
    ensures honest { D.honest disk.new ↔ D.honest disk.old }

    ensures stored { D.honest disk.old → OnOk result (IsStored (D.state disk.old) area.old.from (0 ∷ []) (D.state disk.new)) }
    ensures any_moment { D.honest disk.old → LeavesOnly (D.state disk.old) (D.state disk.new) (MayLeaveTorn (D.state disk.old) area.old.from 1) }
{
    area.close_first(disk)?;
    disk.sync()
}

// Takes an area into use after those of the header that is in force in this slot: its list is empty, and then this header
// is in force.
pub fn start_area<D: Disk>(
    disk: &mut D,
    area: &mut Area,
    slot: Side,
    header: &Header,
) -> Result<(), DeviceFault>
    requires slots { 8192 ≤ D.extent disk.old }
    requires inside { area.old.from + area.old.bytes ≤ D.extent disk.old }
    ensures ok { OnOk result (area.new ≡ record area.old { gate = 0; touched = [] }) }
    ensures extent { D.extent disk.new ≡ D.extent disk.old }
    ensures faults { D.faults disk.new ≡ faults_after result (D.faults disk.old) }
    ensures honest { D.honest disk.new ↔ D.honest disk.old }

    ensures begun { D.honest disk.old → IsSteady (D.state disk.old) → IsSyncedIn (D.state disk.old) 0 8192 → 8192 ≤ area.old.from → (current : Header)
        → HoldsHeader (D.state disk.old).seen (D.extent disk.old) current slot → ComesNext current header.now
        → OnOk result (IsAreaStarted (D.state disk.old) (D.extent disk.old) area.old.from header.now (other_of slot) (D.state disk.new)) }
    ensures any_moment { D.honest disk.old → IsSteady (D.state disk.old) → IsSyncedIn (D.state disk.old) 0 8192 → 8192 ≤ area.old.from → (current : Header)
        → HoldsHeader (D.state disk.old).seen (D.extent disk.old) current slot → ComesNext current header.now
        → LeavesOnly (D.state disk.old) (D.state disk.new) (LeavesAreaStart (D.state disk.old) (D.extent disk.old) area.old.from current slot header.now) }
{
    empty_area(disk, area)?;
    change_header(disk, slot, header)
}
