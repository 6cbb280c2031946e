ghost use Rattle.std.specs.Prelude.{◌≡◌, ◌+◌, ◌≤◌, ◌↔◌, length, OnOk};
ghost use Rattle.disk_model.specs.Faults.{faults_after};
ghost use Rattle.disk_model.specs.Disk.{IsStored, LeavesOnly, MayLeaveTorn};

use crate::disk::{DeviceFault, Disk};

/// Writes the bytes at `offset` and syncs. At `Ok` they are stable, and so is all that was written before. Refusal 1
/// (device fault).
pub fn write_synced<D: Disk>(disk: &mut D, offset: u64, from: &[u8]) -> Result<(), DeviceFault>
    requires { offset + length from.now ≤ D.extent disk.old }
    ensures extent { D.extent disk.new ≡ D.extent disk.old }
    ensures faults { D.faults disk.new ≡ faults_after result (D.faults disk.old) }
    ensures honest { D.honest disk.new ↔ D.honest disk.old }

    ensures stored { D.honest disk.old → OnOk result (IsStored (D.state disk.old) offset from.now (D.state disk.new)) }
    ensures any_moment { D.honest disk.old → LeavesOnly (D.state disk.old) (D.state disk.new)
        (MayLeaveTorn (D.state disk.old) offset (length from.now)) }
{
    disk.write_at(offset, from)?;
    disk.sync()
}
