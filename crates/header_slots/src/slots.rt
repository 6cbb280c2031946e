ghost use Rattle.std.specs.Prelude.{◌≡◌, ◌+◌, ◌*◌, ◌≤◌, ◌<◌, ◌≢◌, ◌↔◌, [], ◌∷◌, length, IfOk, OnOk, OnErr};
ghost use Rattle.disk_model.specs.Disk.{MayLeave, MayLeaveTorn, IsKept, IsWritten, IsWriteFailed, LeavesOnly};
ghost use Rattle.disk_model.specs.Faults.{faults_after};
ghost use Rattle.header_slots.specs.Header.{IsBodyOf};
ghost use Rattle.header_slots.specs.Slots.{slot_at, IsBodyWritten, IsReading, faults_after_reading};
ghost use Rattle.header_slots.specs.inner.Slots.{IsChoice};
ghost use Rattle.header_slots.specs.declared.fault.HeaderFault.TheVariants as HeaderFault;
ghost use Rattle.image_model.specs.Geometry.{device_bytes_of};

use crate::fault::HeaderFault;
use crate::header::{HEADER_BYTES, Header, u64_at};
use disk_model::{DeviceFault, Disk};
use image_model::{CLOSED, OPEN, Side};

/// The bytes of a header slot.
pub const SLOT_BYTES: u64 = 4096;

// The bytes of a slot after its gate.
const BODY_BYTES: usize = 4095;

// What is read of both slots: slot 0, and slot 1 up to the end of its header.
const FRONT_BYTES: usize = 4136;

// The first byte of a slot, its gate.
pub(crate) fn slot_from(slot: Side) -> u64
    ensures { result ≡ slot_at slot }
{
    SLOT_BYTES * slot.index() as u64
}

/// Reads the header in force, of a device as long as it says, and says in which slot it stands: one read of 4,136 bytes.
/// Refusals 1 (device fault), 7 (no header) and 8 (bad header).
pub fn read_current<D: Disk>(disk: &mut D) -> Result<(Header, Side), HeaderFault>
    ensures extent { D.extent disk.new ≡ D.extent disk.old }
    ensures faults { D.faults disk.new ≡ faults_after_reading result (D.faults disk.old) }
    ensures honest { D.honest disk.new ↔ D.honest disk.old }
    ensures size { IfOk result (λ current. D.extent disk.old ≡ device_bytes_of current.0.geometry.blocks current.0.geometry.area) }

    ensures reading { D.honest disk.old → IsReading (D.state disk.new).seen (D.extent disk.old) result }
    ensures kept { D.honest disk.old → IsKept (D.state disk.old) (D.state disk.new) }
    ensures any_moment { D.honest disk.old → LeavesOnly (D.state disk.old) (D.state disk.new) (MayLeave (D.state disk.old)) }
{
    if disk.size() < 2 * SLOT_BYTES {
        return Err(HeaderFault::NoHeader);
    }
    let mut front = [0u8; FRONT_BYTES];
    disk.read(0, &mut front)?;
    current_in(&front, disk.size())
}

// The header in force of a device of this many bytes that begins with these.
fn current_in(front: &[u8], size: u64) -> Result<(Header, Side), HeaderFault>
    requires front { length front.now ≡ 4136 }
    requires size { 8192 ≤ size }
    ensures reading { IsReading front.now size result }
    ensures read { result ≢ Err HeaderFault.DeviceFault }
{
    let slot = in_force(front)?;
    let from = slot_from(slot) as usize + 1;
    let Some(header) = Header::decode(&front[from..from + HEADER_BYTES]) else {
        return Err(HeaderFault::BadHeader);
    };
    if header.geometry.device_bytes() != size {
        return Err(HeaderFault::BadHeader);
    }
    Ok((header, slot))
}

// The slot whose header is in force: of those with an open gate the one with the greater generation.
fn in_force(front: &[u8]) -> Result<Side, HeaderFault>
    requires { length front.now ≡ 4136 }
    ensures { IsChoice front.now result }
{
    let generation_zero = u64_at(front, 9);
    let generation_one = u64_at(front, 4105);
    match (front[0] == OPEN, front[4096] == OPEN) {
        (false, false) => Err(HeaderFault::NoHeader),
        (true, false) => Ok(Side::Zero),
        (false, true) => Ok(Side::One),
        (true, true) if generation_zero > generation_one => Ok(Side::Zero),
        (true, true) if generation_zero < generation_one => Ok(Side::One),
        (true, true) => Err(HeaderFault::BadHeader),
    }
}

/// Closes a slot's gate, without a sync. Refusal 1 (device fault).
pub fn close_gate<D: Disk>(disk: &mut D, slot: Side) -> Result<(), DeviceFault>
    requires { 8192 ≤ D.extent disk.old }
    ensures extent { D.extent disk.new ≡ D.extent disk.old }
    ensures faults { D.faults disk.new ≡ faults_after result (D.faults disk.old) }
    ensures honest { D.honest disk.new ↔ D.honest disk.old }

    ensures written { D.honest disk.old → OnOk result
        (IsWritten (D.state disk.old) (slot_at slot) (0 ∷ []) (D.state disk.new)) }
    ensures failed { D.honest disk.old → OnErr result
        (IsWriteFailed (D.state disk.old) (slot_at slot) 1 (D.state disk.new)) }
    ensures any_moment { D.honest disk.old → LeavesOnly (D.state disk.old) (D.state disk.new)
        (MayLeaveTorn (D.state disk.old) (slot_at slot) 1) }
{
    disk.write_at(slot_from(slot), &[CLOSED])
}

/// Writes a header after a slot's gate and zeroes up to the slot's end, without a sync. Refusal 1 (device fault).
pub fn fill_slot<D: Disk>(disk: &mut D, slot: Side, header: &Header) -> Result<(), DeviceFault>
    requires { 8192 ≤ D.extent disk.old }
    ensures extent { D.extent disk.new ≡ D.extent disk.old }
    ensures faults { D.faults disk.new ≡ faults_after result (D.faults disk.old) }
    ensures honest { D.honest disk.new ↔ D.honest disk.old }

    ensures written { D.honest disk.old → OnOk result
        (IsBodyWritten (D.state disk.old) slot header.now (D.state disk.new)) }
    ensures failed { D.honest disk.old → OnErr result
        (IsWriteFailed (D.state disk.old) (slot_at slot + 1) 4095 (D.state disk.new)) }
    ensures any_moment { D.honest disk.old → LeavesOnly (D.state disk.old) (D.state disk.new)
        (MayLeaveTorn (D.state disk.old) (slot_at slot + 1) 4095) }
{
    disk.write_at(slot_from(slot) + 1, &body_of(header))
}

// What stands after the gate of a slot with this header.
fn body_of(header: &Header) -> [u8; BODY_BYTES]
    ensures { IsBodyOf header.now result }
{
    let mut bytes = [0u8; BODY_BYTES];
    bytes[..HEADER_BYTES].copy_from_slice(&header.encode());
    bytes
}

/// Opens a slot's gate, without a sync; what stands after it has to be stable. Refusal 1 (device fault).
pub fn open_gate<D: Disk>(disk: &mut D, slot: Side) -> Result<(), DeviceFault>
    requires { 8192 ≤ D.extent disk.old }
    ensures extent { D.extent disk.new ≡ D.extent disk.old }
    ensures faults { D.faults disk.new ≡ faults_after result (D.faults disk.old) }
    ensures honest { D.honest disk.new ↔ D.honest disk.old }

    ensures written { D.honest disk.old → OnOk result
        (IsWritten (D.state disk.old) (slot_at slot) (1 ∷ []) (D.state disk.new)) }
    ensures failed { D.honest disk.old → OnErr result
        (IsWriteFailed (D.state disk.old) (slot_at slot) 1 (D.state disk.new)) }
    ensures any_moment { D.honest disk.old → LeavesOnly (D.state disk.old) (D.state disk.new)
        (MayLeaveTorn (D.state disk.old) (slot_at slot) 1) }
{
    disk.write_at(slot_from(slot), &[OPEN])
}
