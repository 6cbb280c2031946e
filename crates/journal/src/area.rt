ghost use Rattle.std.specs.Prelude.{◌≡◌, ◌≢◌, ◌⊎◌, ℕ, ◌+◌, ◌≤◌, ◌<◌, ◌^◌, ◌==◌, ◌↔◌, List, [], ◌∷◌, ◌++◌, length, take, drop, OnOk, IfErr, OnErr, IsErr, IsErrOf, IsErrAnd, vec_capacity};
ghost use Rattle.disk_model.specs.Disk.{IsStored, IsSyncedIn, IsWritten, IsWriteFailed, LeavesOnly, MayLeaveTorn};
ghost use Rattle.disk_model.specs.Faults.{faults_after};
ghost use Rattle.image_model.specs.Change.{AreChanges};
ghost use Rattle.journal.specs.Append.{end_after, grown, IsNext};
ghost use Rattle.journal_format.specs.Faults.{faults_by};
ghost use Rattle.journal_format.specs.Group.{IsGroup};
ghost use Rattle.journal_format.specs.GroupList.{HoldsList, IsDamaged, IsHeld, IsList, IsListStored, LeavesEither};
ghost use Rattle.journal_format.specs.inner.GroupList.{IsOpenBefore, LeavesGateOrBytes};
ghost use Rattle.journal_format.specs.Reading.{IsOnlyRead};
ghost use Rattle.journal_format.specs.Scanning.{IsScanFault};
ghost use Rattle.journal_format.specs.Spelling.{StoredGroup, stored_of};
ghost use Rattle.journal_format.specs.Touches.{AreWithin};

use crate::group::Group;
use disk_model::{DeviceFault, Disk, free_buffer, write_synced};
use image_model::{CLOSED, Command, OPEN};
use journal_format::{GROUP_HEAD_BYTES, JournalFault, Place, TouchedRange};
use std::alloc::Global;
use std::marker::Model;
use std::mem;

/// A part of a device that holds a list of groups.
///
/// After the last group stands a gate that isn't open. A group is written after that gate, with the next gate closed; the
/// group's own gate is opened once the group is stable.
pub struct Area {
    from: u64,
    bytes: u32,
    blocks: u64,
    next: u64,
    gate: u32,
    touched: Vec<TouchedRange>,
    buffer: Vec<u8>,
    // The commands of the last group that was stored.
    stored: Vec<Command>,
}

// Written by hand, it is proved once, and not in each function that drops an area.
impl Drop for Area {
    fn drop(self) {
        let Area {
            from: _,
            bytes: _,
            blocks: _,
            next: _,
            gate: _,
            touched: _,
            buffer,
            stored: _,
        } = self;
        free_buffer(buffer);
    }
}

impl Model for Area {
    ghost use Rattle.std.specs.Prelude.{◌+◌, ◌<◌, ◌^◌};
    ghost use Rattle.journal_format.specs.Area.{AreaState};
    ghost use Rattle.journal_format.specs.Touches.{AreWithin};

    ghost Value = { AreaState };

    ghost view = { λ area. record {
      from = area.from;
      bytes = area.bytes;
      blocks = area.blocks;
      next = area.next;
      gate = area.gate;
      touched = area.touched.items;
    } };

    ghost invariant = { λ area. (area.from + area.bytes < 2 ^ 64) × (area.gate < area.bytes)
        × AreWithin area.from (area.from + area.bytes) area.touched.items };
}

impl Area {
    /// The area of `bytes` bytes from byte `from` of the device on, for an image of `blocks` blocks. Its list is empty until
    /// `scan`, and its first group begins with the number `next`; 0 says that no number is left.
    pub fn new(alloc: Global, from: u64, bytes: u32, blocks: u64, next: u64) -> Area
        requires on_device { from + bytes < 2 ^ 64 }
        requires some { 0 < bytes }
        ensures { result ≡ record { from = from; bytes = bytes; blocks = blocks; next = next; gate = 0; touched = [] } }
    {
        Area {
            from,
            bytes,
            blocks,
            next,
            gate: 0,
            touched: Vec::new(alloc),
            buffer: Vec::new(alloc),
            stored: Vec::new(alloc),
        }
    }

    /// The area's first byte on the device.
    pub fn start(&self) -> u64
        ensures { result ≡ self.now.from }
    {
        self.from
    }

    /// The area's bytes.
    pub fn bytes(&self) -> u32
        ensures { result ≡ self.now.bytes }
    {
        self.bytes
    }

    /// The number that the next group has to begin with; 0 where no number is left.
    pub fn next(&self) -> u64
        ensures { result ≡ self.now.next }
    {
        self.next
    }

    /// The commands of the last group that was stored, for those who use their memory again.
    pub fn take_stored(&mut self) -> Vec<Command>
        ensures { self.new ≡ self.old }
    {
        let alloc = *self.stored.allocator();
        mem::replace(&mut self.stored, Vec::new(alloc))
    }

    /// The memory that is kept for the bytes of a group, for another area or to be freed.
    pub fn take_buffer(&mut self) -> Vec<u8>
        ensures { self.new ≡ self.old }
    {
        let alloc = *self.stored.allocator();
        mem::replace(&mut self.buffer, Vec::new(alloc))
    }

    /// Gives it memory for the bytes of a group.
    pub fn give_buffer(&mut self, buffer: Vec<u8>)
        ensures { self.new ≡ self.old }
    {
        self.buffer = buffer;
    }

    /// Whether the list is empty.
    pub fn is_empty(&self) -> bool
        ensures { result ≡ (self.now.gate == 0) }
    {
        self.gate == 0
    }
}

impl Area {
    /// Empties the area's list by closing its first gate, without a sync. Its next number stays.
    ///
    /// Before the next `append` the device has to be synced. Refusal 1 (device fault).
    pub fn close_first<D: Disk>(&mut self, disk: &mut D) -> Result<(), DeviceFault>
        requires { self.old.from + self.old.bytes ≤ D.extent disk.old }
        ensures closed { OnOk result (self.new ≡ record self.old { gate = 0; touched = [] }) }
        ensures err { OnErr result (self.new ≡ self.old) }
        ensures extent { D.extent disk.new ≡ D.extent disk.old }
        ensures faults { D.faults disk.new ≡ faults_after result (D.faults disk.old) }
        ensures honest { D.honest disk.new ↔ D.honest disk.old }

        // On an honest device the area then reads as one with no group, and only its first byte was written.
        ensures empty { D.honest disk.old → ((D.state disk.old).loose self.old.from → ⊥)
            → OnOk result ((first : ℕ) → IsList self.new first [] (D.state disk.new).seen) }
        ensures written { D.honest disk.old
            → OnOk result (IsWritten (D.state disk.old) self.old.from (0 ∷ []) (D.state disk.new)) }
        ensures failed { D.honest disk.old
            → OnErr result (IsWriteFailed (D.state disk.old) self.old.from 1 (D.state disk.new)) }
        ensures any_moment { D.honest disk.old
            → LeavesOnly (D.state disk.old) (D.state disk.new) (MayLeaveTorn (D.state disk.old) self.old.from 1) }
    {
        disk.write_at(self.from, &[CLOSED])?;
        self.gate = 0;
        self.touched.clear();
        Ok(())
    }

    /// Adds the group at the end of the list and makes it stable.
    ///
    /// Four calls of the device: the group's body and the closed gate after it, sync, its gate, sync. Refusals 0 (no
    /// memory), 1 (device fault), 10 (area full) and 11 (out of order): the group comes back. After a device fault the
    /// area has to be scanned before it is written again.
    pub fn append<D: Disk>(
        &mut self,
        disk: &mut D,
        group: Group,
    ) -> Result<(), (JournalFault, Group)>
        requires { self.old.from + self.old.bytes ≤ D.extent disk.old }
        ensures ok { OnOk result (self.new ≡ grown self.old group) }
        ensures err { OnErr result (self.new ≡ self.old) }
        ensures group_back { IfErr result (λ refused. refused.1 ≡ group) }
        ensures extent { D.extent disk.new ≡ D.extent disk.old }
        ensures honest { D.honest disk.new ↔ D.honest disk.old }

        // When it is refused, and which refusals count as device faults and may have changed the disk.
        ensures full { IsErrAnd result (λ refused. refused.0 ≡ JournalFault.AreaFull) ↔ (self.old.bytes < end_after self.old group) }
        ensures out_of_order { IsErrAnd result (λ refused. refused.0 ≡ JournalFault.OutOfOrder)
            ↔ ((end_after self.old group ≤ self.old.bytes) × (IsNext self.old group → ⊥)) }
        ensures undamaged { IfErr result (λ refused. refused.0 ≢ JournalFault.DamagedGroup) }
        ensures faults_ok { OnOk result (D.faults disk.new ≡ D.faults disk.old) }
        ensures faults_err { IfErr result (λ refused. D.faults disk.new ≡ faults_by refused.0 (D.faults disk.old)) }
        ensures unchanged { IfErr result (λ refused. (refused.0 ≡ JournalFault.DeviceFault) ⊎ (disk.new ≡ disk.old)) }

        // On an honest device, if the area holds these groups and is at their end, and nothing in it is unsynced: at `Ok`
        // the list has the group too; a crash at any moment leaves it with or without the group.
        ensures stored { D.honest disk.old → (first : ℕ) (groups : List StoredGroup) → IsHeld self.old first groups (D.state disk.old)
            → AreChanges self.old.blocks (stored_of group).changes
            → OnOk result (IsListStored self.new first (groups ++ stored_of group ∷ []) (D.state disk.old) (D.state disk.new)) }
        ensures any_moment { D.honest disk.old → (first : ℕ) (groups : List StoredGroup) → IsHeld self.old first groups (D.state disk.old)
            → AreChanges self.old.blocks (stored_of group).changes
            → LeavesOnly (D.state disk.old) (D.state disk.new) (LeavesEither self.old first groups (stored_of group) (D.state disk.old)) }
    {
        let held = self.touched.len();
        let stored = self.store(disk, &group);
        match stored {
            Ok(()) => {
                self.gate += GROUP_HEAD_BYTES + group.body_bytes();
                self.next = group.number_after();
                let (_first, commands) = group.into_parts();
                self.stored = commands;
                Ok(())
            }
            Err(fault) => {
                self.touched.truncate(held);
                Err((fault, group))
            }
        }
    }

    // Writes the group after the list, opens its gate, and notes what it touches. The area's other fields stay as they
    // were.
    fn store<D: Disk>(&mut self, disk: &mut D, group: &Group) -> Result<(), JournalFault>
        requires { self.old.from + self.old.bytes ≤ D.extent disk.old }
        ensures noted { OnOk result (self.new ≡ record self.old { touched = (grown self.old group.now).touched }) }
        ensures same { self.new ≡ record self.old { touched = self.new.touched } }
        ensures begins { take (length self.old.touched) self.new.touched ≡ self.old.touched }
        ensures fits { OnOk result (end_after self.old group.now ≤ self.old.bytes) }
        ensures extent { D.extent disk.new ≡ D.extent disk.old }
        ensures honest { D.honest disk.new ↔ D.honest disk.old }
        ensures full { IsErrOf result JournalFault.AreaFull ↔ (self.old.bytes < end_after self.old group.now) }
        ensures out_of_order { IsErrOf result JournalFault.OutOfOrder
            ↔ ((end_after self.old group.now ≤ self.old.bytes) × (IsNext self.old group.now → ⊥)) }
        ensures undamaged { IfErr result (λ fault. fault ≢ JournalFault.DamagedGroup) }
        ensures faults_ok { OnOk result (D.faults disk.new ≡ D.faults disk.old) }
        ensures faults_err { IfErr result (λ fault. D.faults disk.new ≡ faults_by fault (D.faults disk.old)) }
        ensures unchanged { IfErr result (λ fault. (fault ≡ JournalFault.DeviceFault) ⊎ (disk.new ≡ disk.old)) }
        ensures stored { D.honest disk.old → (first : ℕ) (groups : List StoredGroup) → IsHeld self.old first groups (D.state disk.old)
            → AreChanges self.old.blocks (stored_of group.now).changes
            → OnOk result (IsListStored (grown self.old group.now) first (groups ++ stored_of group.now ∷ []) (D.state disk.old) (D.state disk.new)) }
        ensures any_moment { D.honest disk.old → (first : ℕ) (groups : List StoredGroup) → IsHeld self.old first groups (D.state disk.old)
            → AreChanges self.old.blocks (stored_of group.now).changes
            → LeavesOnly (D.state disk.old) (D.state disk.new) (LeavesEither self.old first groups (stored_of group.now) (D.state disk.old)) }
    {
        self.check_group(group)?;
        let gate = self.from + self.gate as u64;
        group.spell(&mut self.buffer)?;
        group.note(gate + GROUP_HEAD_BYTES as u64, &mut self.touched)?;
        write_group(disk, gate, &self.buffer)?;
        Ok(())
    }
}

impl Area {
    /// Reads the list that the area holds, from its first gate on. Its first group has to begin with the area's next
    /// number.
    ///
    /// It takes memory for what the commands touched, and 1 MiB while it reads. Refusals 0 (no memory), 1 (device fault)
    /// and 12 (damaged group: no whole group with the next numbers stands after an open gate), which change nothing.
    pub fn scan<D: Disk>(&mut self, alloc: Global, disk: &mut D) -> Result<(), JournalFault>
        requires { self.old.from + self.old.bytes ≤ D.extent disk.old }
        ensures err { OnErr result (self.new ≡ self.old) }
        ensures causes { IfErr result IsScanFault }
        ensures same { (self.new.from ≡ self.old.from) × (self.new.bytes ≡ self.old.bytes) × (self.new.blocks ≡ self.old.blocks) }
        ensures none { OnOk result (self.new.gate ≡ 0 → (self.new.touched ≡ []) × (self.new.next ≡ self.old.next)) }
        ensures extent { D.extent disk.new ≡ D.extent disk.old }
        ensures honest { D.honest disk.new ↔ D.honest disk.old }
        ensures faults_ok { OnOk result (D.faults disk.new ≡ D.faults disk.old) }
        ensures faults_err { IfErr result (λ fault. D.faults disk.new ≡ faults_by fault (D.faults disk.old)) }

        // On an honest device nothing is written, and a crash leaves what it might have left before.
        ensures only_read { D.honest disk.old → IsOnlyRead (D.state disk.old) (D.state disk.new) }

        // If nothing of the area is unsynced either: at `Ok` the area is at the end of its list; `DamagedGroup` comes only
        // if the area is damaged; and a damaged area is always refused.
        ensures held { D.honest disk.old → IsSyncedIn (D.state disk.old) self.old.from self.old.bytes
            → OnOk result (HoldsList self.new self.old.next (D.state disk.new)) }
        ensures damaged { D.honest disk.old → IsSyncedIn (D.state disk.old) self.old.from self.old.bytes
            → IsErrOf result JournalFault.DamagedGroup → IsDamaged self.old self.old.next (D.state disk.old).seen }
        ensures damage_found { D.honest disk.old → IsSyncedIn (D.state disk.old) self.old.from self.old.bytes
            → IsDamaged self.old self.old.next (D.state disk.old).seen → IsErr result }
    {
        let place = Place {
            from: self.from,
            bytes: self.bytes,
            blocks: self.blocks,
        };
        let mut touched = Vec::new(alloc);
        let end = place.list_end(alloc, disk, self.next, &mut touched)?;
        self.gate = end.gate;
        self.next = end.next;
        self.touched = touched;
        Ok(())
    }

    /// What the commands of the area's list touched, in their order.
    pub fn touched(&self) -> &[TouchedRange]
        ensures value { result.now ≡ self.now.touched }
        ensures within { (end : ℕ) → self.now.from + self.now.bytes ≤ end → AreWithin self.now.from end self.now.touched }
    {
        &self.touched
    }

    // Whether the group fits and is the next one.
    fn check_group(&self, group: &Group) -> Result<(), JournalFault>
        ensures fits { OnOk result (end_after self.now group.now ≤ self.now.bytes) }
        ensures next { OnOk result (IsNext self.now group.now) }
        ensures full { IsErrOf result JournalFault.AreaFull ↔ (self.now.bytes < end_after self.now group.now) }
        ensures out_of_order { IsErrOf result JournalFault.OutOfOrder
            ↔ ((end_after self.now group.now ≤ self.now.bytes) × (IsNext self.now group.now → ⊥)) }
        ensures sound { IsGroup group.now.first group.now.commands }
        ensures only { IfErr result (λ fault. (fault ≡ JournalFault.AreaFull) ⊎ (fault ≡ JournalFault.OutOfOrder)) }
    {
        if self.bytes - self.gate < GROUP_HEAD_BYTES + 1 + group.body_bytes() {
            return Err(JournalFault::AreaFull);
        }
        if self.next == 0 || self.next != group.first() {
            return Err(JournalFault::OutOfOrder);
        }
        Ok(())
    }
}

// Writes what stands after the gate, syncs, opens the gate, and syncs.
fn write_group<D: Disk>(disk: &mut D, gate: u64, body: &[u8]) -> Result<(), DeviceFault>
    requires { gate + 1 + length body.now ≤ D.extent disk.old }
    ensures extent { D.extent disk.new ≡ D.extent disk.old }
    ensures faults { D.faults disk.new ≡ faults_after result (D.faults disk.old) }
    ensures honest { D.honest disk.new ↔ D.honest disk.old }

    ensures stored { D.honest disk.old → IsSyncedIn (D.state disk.old) gate (1 + length body.now)
        → OnOk result (IsOpenBefore (D.state disk.old) gate body.now (D.state disk.new)) }
    ensures any_moment { D.honest disk.old → IsSyncedIn (D.state disk.old) gate (1 + length body.now)
        → LeavesOnly (D.state disk.old) (D.state disk.new) (LeavesGateOrBytes (D.state disk.old) gate body.now) }
{
    write_synced(disk, gate + 1, body)?;
    open_gate(disk, gate)
}

// Opens the gate, which is stable at `Ok`.
fn open_gate<D: Disk>(disk: &mut D, gate: u64) -> Result<(), DeviceFault>
    requires { gate + 1 ≤ D.extent disk.old }
    ensures extent { D.extent disk.new ≡ D.extent disk.old }
    ensures faults { D.faults disk.new ≡ faults_after result (D.faults disk.old) }
    ensures honest { D.honest disk.new ↔ D.honest disk.old }

    ensures stored { D.honest disk.old → OnOk result (IsStored (D.state disk.old) gate (1 ∷ []) (D.state disk.new)) }
    ensures any_moment { D.honest disk.old → LeavesOnly (D.state disk.old) (D.state disk.new) (MayLeaveTorn (D.state disk.old) gate 1) }
{
    write_synced(disk, gate, &[OPEN])
}
