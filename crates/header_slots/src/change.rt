ghost use Rattle.std.specs.Prelude.{◌≡◌, ◌+◌, ◌≤◌, ◌<◌, ◌↔◌, ◌∷◌, [], IsTrue, IfOk, IfSome, None, OnOk};
ghost use Rattle.disk_model.specs.Disk.{IsKept, IsStored, IsSyncedIn, LeavesOnly, MayLeave, MayLeaveTorn};
ghost use Rattle.disk_model.specs.Faults.{faults_after};
ghost use Rattle.image_model.specs.Layout.{areas_of};
ghost use Rattle.image_model.specs.Side.{other_of};
ghost use Rattle.image_model.specs.declared.layout.Layout.TheVariants as Layout;
ghost use Rattle.header_slots.specs.Change.{ComesNext, IsRenewed, IsUpgraded, IsBodyStored, IsGateClosed, IsInPlace, LeavesClosing, LeavesEither};
ghost use Rattle.header_slots.specs.Slots.{slot_at, HoldsHeader, IsOpen};
ghost use Rattle.header_slots.specs.declared.header.Header.{Header};

use crate::header::Header;
use crate::slots::slot_from;
use disk_model::{DeviceFault, Disk, write_synced};
use image_model::{CLOSED, Geometry, OPEN, Side};

/// The fields of a header that its successor changes. Its generation is one greater than that of the header in force, and the sizes stay.
#[derive(Clone, Copy)]
pub struct HeaderChange {
    pub before_last: u8,
    pub first_area: u8,
    pub map_slot: Side,
    /// The number of the last command that map and data hold.
    pub base: u64,
}

impl Header {
    /// The next header, with what the change says; none where no generation is greater: refusal 9 (numbers full).
    pub fn next(&self, change: &HeaderChange) -> Option<Header>
        requires few { change.now.before_last < areas_of self.now.geometry.layout }
        requires first { change.now.first_area < areas_of self.now.geometry.layout }
        ensures some { IfSome result (IsRenewed self.now change.now) }
        ensures none { (result ≡ None) ↔ (self.now.generation ≡ 18446744073709551615) }
    {
        let generation = self.generation.checked_add(1)?;
        Some(Header {
            generation,
            geometry: self.geometry,
            before_last: change.before_last,
            first_area: change.first_area,
            map_slot: change.map_slot,
            base: change.base,
        })
    }

    /// The next header, with a geometry of layout 2 in the place of one of layout 1: one area is in use, which begins where
    /// the first one did, and map slot and base stay. None where no generation is greater: refusal 9 (numbers full).
    pub fn upgraded(&self, geometry: Geometry) -> Option<Header>
        requires one { self.now.geometry.layout ≡ Layout.One }
        requires two { geometry.layout ≡ Layout.Two }
        ensures some { IfSome result (IsUpgraded self.now geometry) }
        ensures none { (result ≡ None) ↔ (self.now.generation ≡ 18446744073709551615) }
    {
        if self.generation == u64::MAX {
            return None;
        }
        Some(Header {
            generation: self.generation + 1,
            geometry,
            before_last: 0,
            first_area: 2 * self.first_area,
            map_slot: self.map_slot,
            base: self.base,
        })
    }
}

// Whether a slot's gate is open.
fn is_open<D: Disk>(disk: &mut D, slot: Side) -> Result<bool, DeviceFault>
    requires { 8192 ≤ D.extent disk.old }
    ensures extent { D.extent disk.new ≡ D.extent disk.old }
    ensures faults { D.faults disk.new ≡ faults_after result (D.faults disk.old) }
    ensures honest { D.honest disk.new ↔ D.honest disk.old }

    ensures open { D.honest disk.old → IfOk result (λ found. IsTrue found ↔ IsOpen (D.state disk.new).seen slot) }
    ensures kept { D.honest disk.old → IsKept (D.state disk.old) (D.state disk.new) }
    ensures any_moment { D.honest disk.old → LeavesOnly (D.state disk.old) (D.state disk.new) (MayLeave (D.state disk.old)) }
{
    let mut gate = [0];
    disk.read(slot_from(slot), &mut gate)?;
    Ok(gate[0] == OPEN)
}

/// Closes the gate of the slot that isn't in force, where it is open, and makes that stable.
///
/// A closed gate isn't written, as a crash in the write could open it over a torn header. Refusal 1 (device fault).
pub fn close_other<D: Disk>(disk: &mut D, other: Side) -> Result<(), DeviceFault>
    requires { 8192 ≤ D.extent disk.old }
    ensures extent { D.extent disk.new ≡ D.extent disk.old }
    ensures faults { D.faults disk.new ≡ faults_after result (D.faults disk.old) }
    ensures honest { D.honest disk.new ↔ D.honest disk.old }

    ensures closed { D.honest disk.old → IsSyncedIn (D.state disk.old) (slot_at other) 1
        → OnOk result (IsGateClosed (D.state disk.old) other (D.state disk.new)) }
    ensures any_moment { D.honest disk.old → IsSyncedIn (D.state disk.old) (slot_at other) 1
        → LeavesOnly (D.state disk.old) (D.state disk.new) (LeavesClosing (D.state disk.old) other) }
{
    if !is_open(disk, other)? {
        return Ok(());
    }
    write_synced(disk, slot_from(other), &[CLOSED])
}

/// Writes a header after a slot's gate, which isn't written, and makes it stable. Refusal 1 (device fault).
pub fn write_body<D: Disk>(disk: &mut D, slot: Side, header: &Header) -> Result<(), DeviceFault>
    requires { 8192 ≤ D.extent disk.old }
    ensures extent { D.extent disk.new ≡ D.extent disk.old }
    ensures faults { D.faults disk.new ≡ faults_after result (D.faults disk.old) }
    ensures honest { D.honest disk.new ↔ D.honest disk.old }

    ensures stored { D.honest disk.old → OnOk result (IsBodyStored (D.state disk.old) slot header.now (D.state disk.new)) }
    ensures any_moment { D.honest disk.old → LeavesOnly (D.state disk.old) (D.state disk.new)
        (MayLeaveTorn (D.state disk.old) (slot_at slot + 1) 39) }
{
    write_synced(disk, slot_from(slot) + 1, &header.encode())
}

/// Opens the gate of the slot that isn't in force, and makes that stable; what stands after it has to be stable.
/// Refusal 1 (device fault).
pub fn open_other<D: Disk>(disk: &mut D, other: Side) -> Result<(), DeviceFault>
    requires { 8192 ≤ D.extent disk.old }
    ensures extent { D.extent disk.new ≡ D.extent disk.old }
    ensures faults { D.faults disk.new ≡ faults_after result (D.faults disk.old) }
    ensures honest { D.honest disk.new ↔ D.honest disk.old }

    ensures stored { D.honest disk.old → OnOk result (IsStored (D.state disk.old) (slot_at other) (1 ∷ []) (D.state disk.new)) }
    ensures any_moment { D.honest disk.old → LeavesOnly (D.state disk.old) (D.state disk.new)
        (MayLeaveTorn (D.state disk.old) (slot_at other) 1) }
{
    write_synced(disk, slot_from(other), &[OPEN])
}

/// Puts a header in the place of the one in force, which stands in this slot, as the next one.
///
/// It goes to the other slot: its gate is closed, the header is written, its gate is opened, each made stable before the
/// next. If nothing in the two slots is unsynced, a crash at any moment leaves the old header or the new one in force.
/// Refusal 1 (device fault).
pub fn change_header<D: Disk>(disk: &mut D, slot: Side, header: &Header) -> Result<(), DeviceFault>
    requires { 8192 ≤ D.extent disk.old }
    ensures extent { D.extent disk.new ≡ D.extent disk.old }
    ensures faults { D.faults disk.new ≡ faults_after result (D.faults disk.old) }
    ensures honest { D.honest disk.new ↔ D.honest disk.old }

    ensures in_place { D.honest disk.old → IsSyncedIn (D.state disk.old) 0 8192 → (current : Header)
        → HoldsHeader (D.state disk.old).seen (D.extent disk.old) current slot → ComesNext current header.now
        → OnOk result (IsInPlace (D.state disk.old) (D.extent disk.old) header.now (other_of slot) (D.state disk.new)) }
    ensures any_moment { D.honest disk.old → IsSyncedIn (D.state disk.old) 0 8192 → (current : Header)
        → HoldsHeader (D.state disk.old).seen (D.extent disk.old) current slot → ComesNext current header.now
        → LeavesOnly (D.state disk.old) (D.state disk.new) (LeavesEither (D.state disk.old) (D.extent disk.old) current slot header.now) }
{
    let other = slot.other();
    close_other(disk, other)?;
    write_body(disk, other, header)?;
    open_other(disk, other)
}
