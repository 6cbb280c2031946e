ghost use Rattle.std.specs.Prelude.{◌≡◌, ◌+◌, ◌≤◌, ◌<◌, ◌^◌, ◌↔◌, ℕ, length, slice_index, OnOk, OnErr};
ghost use Rattle.disk_model.specs.Faults.{faults_after};
ghost use Rattle.disk_model.specs.Disk.{State, MayLeave, MayLeaveTorn, IsKept, IsWritten, IsWriteFailed, IsSynced, IsSyncFailed, LeavesOnly, IsSound};

use thiserror::Error;

/// A read, a write or a sync of a device failed.
#[derive(Clone, Copy, Debug, PartialEq, Eq, Error)]
#[error("device fault")]
pub struct DeviceFault;

/// A device of a fixed number of bytes. That a range lies inside it is the caller's condition.
pub trait Disk {
    /// The number of bytes.
    ghost extent: { Self → ℕ };

    /// How many calls have failed.
    ghost faults: { Self → ℕ };

    /// That the device keeps to the disk model. If it doesn't, clauses on content say nothing.
    ghost honest: { Self → Type 0 };

    /// What reads give and what a crash may leave, at this moment.
    ghost state: { Self → State };

    /// The number of bytes.
    fn size(&self) -> u64
        ensures { result ≡ extent self.now };

    /// Reads the bytes from `offset` on. After a fault, refusal 1 (device fault), `into` holds any bytes, and the device is as after a
    /// good read.
    fn read(&mut self, offset: u64, into: &mut [u8]) -> Result<(), DeviceFault>
        requires { offset + length into.old ≤ extent self.old }
        ensures extent { extent self.new ≡ extent self.old }
        ensures faults { faults self.new ≡ faults_after result (faults self.old) }
        ensures honest { honest self.new ↔ honest self.old }

        ensures bytes { honest self.old → OnOk result
            ((k : ℕ) → k < length into.new → slice_index into.new k ≡ slice_index (state self.new).seen (offset + k)) }
        ensures kept { honest self.old → IsKept (state self.old) (state self.new) }
        ensures any_moment { honest self.old → LeavesOnly (state self.old) (state self.new) (MayLeave (state self.old)) };

    /// Writes the bytes at `offset`. Until a later sync is good, a crash may leave any bytes there, also after a fault, refusal 1
    /// (device fault).
    fn write_at(&mut self, offset: u64, from: &[u8]) -> Result<(), DeviceFault>
        requires { offset + length from.now ≤ extent self.old }
        ensures extent { extent self.new ≡ extent self.old }
        ensures faults { faults self.new ≡ faults_after result (faults self.old) }
        ensures honest { honest self.new ↔ honest self.old }

        ensures written { honest self.old → OnOk result (IsWritten (state self.old) offset from.now (state self.new)) }
        ensures failed { honest self.old → OnErr result
            (IsWriteFailed (state self.old) offset (length from.now) (state self.new)) }
        ensures any_moment { honest self.old → LeavesOnly (state self.old) (state self.new)
            (MayLeaveTorn (state self.old) offset (length from.now)) };

    /// Makes stable what was written before. After a fault, refusal 1 (device fault), none of it is promised to be.
    fn sync(&mut self) -> Result<(), DeviceFault>
        ensures extent { extent self.new ≡ extent self.old }
        ensures faults { faults self.new ≡ faults_after result (faults self.old) }
        ensures honest { honest self.new ↔ honest self.old }

        ensures synced { honest self.old → OnOk result (IsSynced (state self.old) (state self.new)) }
        ensures failed { honest self.old → OnErr result (IsSyncFailed (state self.old) (state self.new)) }
        ensures any_moment { honest self.old → LeavesOnly (state self.old) (state self.new) (MayLeave (state self.old)) };

    /// How many calls have failed; at 2^64 - 1 the count stays.
    fn failures(&self) -> u64
        ensures { result ≡ faults self.now };

    /// The size is a 64-bit number.
    ghost extent_fits: { (disk : Self) → extent disk < 2 ^ 64 };

    /// The number of faults is a 64-bit number.
    ghost faults_fit: { (disk : Self) → faults disk < 2 ^ 64 };

    /// What an honest device is at each moment.
    ghost sound: { (disk : Self) → honest disk → IsSound (extent disk) (state disk) };
}
