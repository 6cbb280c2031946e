ghost use Rattle.std.specs.Prelude.{◌≡◌, ◌+◌, ◌*◌, ◌%◌, ◌≤◌, ◌<◌, ◌↔◌, ℕ, length, slice_index, IfOk, OnErr, OnOk};
ghost use Rattle.disk_model.specs.Disk.{MayLeave, MayLeaveTorn, IsKept, IsWriteFailed, IsWritten, LeavesOnly};
ghost use Rattle.disk_model.specs.Faults.{faults_after};
ghost use Rattle.image_model.specs.Geometry.{device_bytes_of, map_bytes_of};
ghost use Rattle.image_model.specs.declared.side.Side.TheVariants as Side;
ghost use Rattle.regions.specs.Layout.{area_at, area_size, areas_in, behind, block_at, map_at};
ghost use Rattle.regions.specs.Map.{HoldsMap, IsMapReading, faults_after_reading};
ghost use Rattle.regions.specs.Writes.{IsMapWritten, IsSameOutside, IsSteadyIn};

use crate::fault::RegionFault;
use alloc_map::AllocMap;
use disk_model::{DeviceFault, Disk};
use image_model::{BLOCK_BYTES, Geometry, Side};
use std::alloc::Global;

/// The places of a device's map slots and data.
#[derive(Clone, Copy)]
pub struct Regions {
    pub geometry: Geometry,
}

impl Regions {
    /// The regions of a device with these sizes.
    pub fn from_geometry(geometry: &Geometry) -> Regions
        ensures { result.geometry ≡ geometry.now }
    {
        Regions {
            geometry: *geometry,
        }
    }

    /// The first byte of an area.
    pub fn area_from(&self, area: u8) -> u64
        requires { area < areas_in self.now.geometry }
        ensures place { result ≡ area_at self.now.geometry area }
        ensures inside { result + area_size self.now.geometry ≤ map_at self.now.geometry Side.Zero }
    {
        8192 + self.geometry.area_size() as u64 * area as u64
    }

    /// The area `places` places after this one in the ring.
    pub fn area_after(&self, area: u8, places: u8) -> u8
        requires area { area < areas_in self.now.geometry }
        requires places { places < areas_in self.now.geometry }
        ensures area { result ≡ behind (areas_in self.now.geometry) places area }
        ensures inside { result < areas_in self.now.geometry }
    {
        let areas = self.geometry.areas() as u16;
        let at = area as u16 + places as u16;
        (if at < areas { at } else { at - areas }) as u8
    }

    /// The first byte of a map slot.
    pub fn map_from(&self, slot: Side) -> u64
        ensures place { result ≡ map_at self.now.geometry slot }
        ensures inside { result + map_bytes_of self.now.geometry.blocks ≤ block_at self.now.geometry 0 }
    {
        8192 + 2 * self.geometry.area as u64 + self.geometry.map_bytes() * slot.index() as u64
    }

    /// The first byte of a block's data.
    pub fn block_from(&self, block: u64) -> u64
        requires { block < self.now.geometry.blocks }
        ensures place { result ≡ block_at self.now.geometry block }
        ensures inside { result + 4096 ≤ device_bytes_of self.now.geometry.blocks self.now.geometry.area }
    {
        8192 + 2 * self.geometry.area as u64 + 2 * self.geometry.map_bytes() + BLOCK_BYTES * block
    }

    /// Reads the map of a map slot, in one call of the device. It takes memory for one map. Refusals 0 (no memory), 1
    /// (device fault) and 6 (bad map).
    pub fn read_slot<D: Disk>(
        &self,
        alloc: Global,
        disk: &mut D,
        slot: Side,
    ) -> Result<AllocMap, RegionFault>
        requires { D.extent disk.old ≡ device_bytes_of self.now.geometry.blocks self.now.geometry.area }
        ensures blocks { IfOk result (λ map. length map ≡ self.now.geometry.blocks) }
        ensures extent { D.extent disk.new ≡ D.extent disk.old }
        ensures faults { D.faults disk.new ≡ faults_after_reading result (D.faults disk.old) }
        ensures honest { D.honest disk.new ↔ D.honest disk.old }

        ensures reading { D.honest disk.old →
            IsMapReading (D.state disk.new).seen (map_at self.now.geometry slot) self.now.geometry.blocks result }
        ensures kept { D.honest disk.old → IsKept (D.state disk.old) (D.state disk.new) }
        ensures any_moment { D.honest disk.old → LeavesOnly (D.state disk.old) (D.state disk.new) (MayLeave (D.state disk.old)) }
    {
        let mut bytes = vec![in alloc; 0; self.geometry.map_bytes() as usize]?;
        disk.read(self.map_from(slot), &mut bytes)?;
        Ok(AllocMap::from_bytes(self.geometry.blocks, bytes)?)
    }

    /// Writes the map of a map slot, in one call of the device and without a sync. Refusal 1 (device fault).
    pub fn write_slot<D: Disk>(
        &self,
        disk: &mut D,
        slot: Side,
        map: &AllocMap,
    ) -> Result<(), DeviceFault>
        requires device { D.extent disk.old ≡ device_bytes_of self.now.geometry.blocks self.now.geometry.area }
        requires blocks { length map.now ≡ self.now.geometry.blocks }
        ensures extent { D.extent disk.new ≡ D.extent disk.old }
        ensures faults { D.faults disk.new ≡ faults_after result (D.faults disk.old) }
        ensures honest { D.honest disk.new ↔ D.honest disk.old }

        // On an honest device the slot then reads as the map, where no place of it is loose, and other bytes stay.
        ensures holds { D.honest disk.old → IsSteadyIn (D.state disk.old) (map_at self.now.geometry slot) (map_bytes_of self.now.geometry.blocks)
            → OnOk result (HoldsMap (D.state disk.new).seen (map_at self.now.geometry slot) self.now.geometry.blocks map.now) }
        ensures written { D.honest disk.old → OnOk result
            (IsMapWritten (D.state disk.old) (map_at self.now.geometry slot) map.now (D.state disk.new)) }
        ensures others { D.honest disk.old → OnOk result
            (IsSameOutside (D.state disk.old) (map_at self.now.geometry slot) (map_bytes_of self.now.geometry.blocks) (D.state disk.new)) }
        ensures failed { D.honest disk.old → OnErr result
            (IsWriteFailed (D.state disk.old) (map_at self.now.geometry slot) (map_bytes_of self.now.geometry.blocks) (D.state disk.new)) }
        ensures any_moment { D.honest disk.old → LeavesOnly (D.state disk.old) (D.state disk.new)
            (MayLeaveTorn (D.state disk.old) (map_at self.now.geometry slot) (map_bytes_of self.now.geometry.blocks)) }
    {
        disk.write_at(self.map_from(slot), map.bytes())
    }

    /// Reads the data of whole blocks from the first one on, as they are stored, whatever their state, in one call of
    /// the device. Refusal 1 (device fault); `into` then holds any bytes.
    pub fn read_blocks<D: Disk>(
        &self,
        disk: &mut D,
        first: u64,
        into: &mut [u8],
    ) -> Result<(), DeviceFault>
        requires device { D.extent disk.old ≡ device_bytes_of self.now.geometry.blocks self.now.geometry.area }
        requires some { 0 < length into.old }
        requires whole { length into.old % 4096 ≡ 0 }
        requires inside { 4096 * first + length into.old ≤ 4096 * self.now.geometry.blocks }
        ensures extent { D.extent disk.new ≡ D.extent disk.old }
        ensures faults { D.faults disk.new ≡ faults_after result (D.faults disk.old) }
        ensures honest { D.honest disk.new ↔ D.honest disk.old }

        ensures bytes { D.honest disk.old → OnOk result ((k : ℕ) → k < length into.new →
            slice_index into.new k ≡ slice_index (D.state disk.new).seen (block_at self.now.geometry first + k)) }
        ensures kept { D.honest disk.old → IsKept (D.state disk.old) (D.state disk.new) }
        ensures any_moment { D.honest disk.old → LeavesOnly (D.state disk.old) (D.state disk.new) (MayLeave (D.state disk.old)) }
    {
        disk.read(self.block_from(first), into)
    }

    /// Writes the data of whole blocks from the first one on, in one call of the device and without a sync. Refusal 1
    /// (device fault).
    pub fn write_blocks<D: Disk>(
        &self,
        disk: &mut D,
        first: u64,
        bytes: &[u8],
    ) -> Result<(), DeviceFault>
        requires device { D.extent disk.old ≡ device_bytes_of self.now.geometry.blocks self.now.geometry.area }
        requires some { 0 < length bytes.now }
        requires whole { length bytes.now % 4096 ≡ 0 }
        requires inside { 4096 * first + length bytes.now ≤ 4096 * self.now.geometry.blocks }
        ensures extent { D.extent disk.new ≡ D.extent disk.old }
        ensures faults { D.faults disk.new ≡ faults_after result (D.faults disk.old) }
        ensures honest { D.honest disk.new ↔ D.honest disk.old }

        ensures written { D.honest disk.old → OnOk result
            (IsWritten (D.state disk.old) (block_at self.now.geometry first) bytes.now (D.state disk.new)) }
        ensures others { D.honest disk.old → OnOk result
            (IsSameOutside (D.state disk.old) (block_at self.now.geometry first) (length bytes.now) (D.state disk.new)) }
        ensures failed { D.honest disk.old → OnErr result
            (IsWriteFailed (D.state disk.old) (block_at self.now.geometry first) (length bytes.now) (D.state disk.new)) }
        ensures any_moment { D.honest disk.old → LeavesOnly (D.state disk.old) (D.state disk.new)
            (MayLeaveTorn (D.state disk.old) (block_at self.now.geometry first) (length bytes.now)) }
    {
        disk.write_at(self.block_from(first), bytes)
    }
}
