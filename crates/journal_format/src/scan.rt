ghost use Rattle.std.specs.Prelude.{◌≡◌, ℕ, ◌+◌, ◌*◌, ◌≤◌, ◌<◌, ◌↔◌, ◌^◌, List, [], ◌∷◌, length, slice_index, Some, IfOk, IfErr, IfSome, IfNone, OnOk, IsErrOf, IsTrue};
ghost use Rattle.disk_model.specs.Faults.{faults_after};
ghost use Rattle.journal_format.specs.Faults.{faults_by};
ghost use Rattle.journal_format.specs.GroupList.{IsOpen, StandsAt};
ghost use Rattle.journal_format.specs.Reading.{IsOnlyRead};
ghost use Rattle.journal_format.specs.Scanning.{FoundList, HasNoGroup, IsScanFault, IsScanned, FoundDamage};
ghost use Rattle.journal_format.specs.inner.Scanning.{IsReadAs, FoundChange, FoundChanges, FoundGroup, HasNoChange, HasNoChanges, IsEdgedKind, IsHead, IsNextHead, edges_said, touch_of_head};
ghost use Rattle.journal_format.specs.Spelling.{change_head, group_head};
ghost use Rattle.journal_format.specs.Touches.{AreWithin, edge_ranges, ranges_of, stored_ranges};
ghost use Rattle.image_model.specs.Change.{edge_count, least_blocks};
ghost use Rattle.image_model.specs.declared.command.Edges.{Edges};

use crate::fault::JournalFault;
use crate::spelling::{
    ALLOCATED_ZERO, BOTH, COMMAND_HEAD_BYTES, EDGED_ALLOCATED_ZERO, EDGED_HOLE, GROUP_HEAD_BYTES,
    HEAD, HOLE, MOST_BODY_BYTES, PUT, TAIL,
};
use crate::touch::{CommandTouch, StoredEdges, Touch, TouchedRange};
use crate::window::Window;
use byteorder::{BigEndian, ByteOrder};
use disk_model::{DeviceFault, Disk};
use image_model::{BLOCK_BYTES, Edges, Kind, OPEN};
use std::alloc::Global;

// The most blocks of a put.
const MOST_PUT_BLOCKS: u32 = 257;

/// A part of a device that is read as an area: where it begins, its bytes, the image's blocks.
#[derive(Clone, Copy)]
pub struct Place {
    pub from: u64,
    pub bytes: u32,
    pub blocks: u64,
    ghost blocks_fit: { blocks < 2 ^ 64 },
}

// The head of a group.
#[derive(Clone, Copy)]
struct GroupHead {
    body: u32,
    first: u64,
    count: u32,
    ghost body_fits: { body < 2 ^ 32 },
    ghost first_fits: { first < 2 ^ 64 },
    ghost count_fits: { count < 2 ^ 32 },
}

// The head of a command.
#[derive(Clone, Copy)]
struct CommandHead {
    kind: u8,
    first: u64,
    blocks: u32,
    ghost first_fits: { first < 2 ^ 64 },
    ghost blocks_fit: { blocks < 2 ^ 32 },
}

// A command: what it touches, and where it ends.
#[derive(Clone, Copy)]
struct FoundCommand {
    touch: CommandTouch,
    end: u32,
}

/// The place of the next gate, and the number after the group; 0 if no number is left.
#[derive(Clone, Copy)]
pub struct Behind {
    pub gate: u32,
    pub next: u64,
}

impl Place {
    /// The end of the list whose first group has to begin with `next`; what its commands touch is noted. Refusals 0 (no
    /// memory), 1 (device fault) and 12 (damaged group).
    pub fn list_end<D: Disk>(
        &self,
        alloc: Global,
        disk: &mut D,
        next: u64,
        touched: &mut Vec<TouchedRange>,
    ) -> Result<Behind, JournalFault>
        requires on_disk { self.now.from + self.now.bytes ≤ D.extent disk.old }
        requires some { 0 < self.now.bytes }
        requires none_noted { touched.old.items ≡ [] }
        ensures causes { IfErr result IsScanFault }
        ensures extent { D.extent disk.new ≡ D.extent disk.old }
        ensures faults_ok { OnOk result (D.faults disk.new ≡ D.faults disk.old) }
        ensures faults_err { IfErr result (λ fault. D.faults disk.new ≡ faults_by fault (D.faults disk.old)) }
        ensures honest { D.honest disk.new ↔ D.honest disk.old }
        ensures only_read { D.honest disk.old → IsOnlyRead (D.state disk.old) (D.state disk.new) }
        ensures inside { IfOk result (λ end. end.gate < self.now.bytes) }
        ensures within { OnOk result (AreWithin self.now.from (self.now.from + self.now.bytes) touched.new.items) }
        ensures none { IfOk result (λ end. end.gate ≡ 0 → (touched.new.items ≡ []) × (end.next ≡ next)) }
        ensures found { D.honest disk.old → (content : List ℕ) → IsScanned content (D.state disk.old) self.now.from self.now.bytes
            → IfOk result (λ end. FoundList self.now.blocks content self.now.from next end.gate end.next touched.new.items) }
        ensures damaged { D.honest disk.old → (content : List ℕ) → IsScanned content (D.state disk.old) self.now.from self.now.bytes
            → IsErrOf result JournalFault.DamagedGroup → FoundDamage self.now.blocks content self.now.from self.now.bytes next }
    {
        let mut window = Window::new(alloc)?;
        let mut end = Behind { gate: 0, next };
        while let Some(behind) = self.group_at(disk, &mut window, end, touched)? {
            end = behind;
        }
        window.free();
        Ok(end)
    }

    // What stands after the group at this gate, whose first number has to be `next`; none where the gate is closed.
    fn group_at<D: Disk>(
        &self,
        disk: &mut D,
        window: &mut Window,
        at: Behind,
        touched: &mut Vec<TouchedRange>,
    ) -> Result<Option<Behind>, JournalFault>
        requires on_disk { self.now.from + self.now.bytes ≤ D.extent disk.old }
        requires inside { at.gate < self.now.bytes }
        ensures causes { IfErr result IsScanFault }
        ensures extent { D.extent disk.new ≡ D.extent disk.old }
        ensures faults_ok { OnOk result (D.faults disk.new ≡ D.faults disk.old) }
        ensures faults_err { IfErr result (λ fault. D.faults disk.new ≡ faults_by fault (D.faults disk.old)) }
        ensures honest { D.honest disk.new ↔ D.honest disk.old }
        ensures only_read { D.honest disk.old → IsOnlyRead (D.state disk.old) (D.state disk.new) }
        ensures read_as { D.honest disk.old → (content : List ℕ) → IsReadAs content (D.state disk.old) self.now.from self.now.bytes window.old
            → IsReadAs content (D.state disk.new) self.now.from self.now.bytes window.new }
        ensures later { IfOk result (λ found. IfSome found (λ behind. (at.gate < behind.gate) × (behind.gate < self.now.bytes))) }
        ensures within { OnOk result (AreWithin self.now.from (self.now.from + self.now.bytes) touched.old.items
            → AreWithin self.now.from (self.now.from + self.now.bytes) touched.new.items) }
        ensures same { IfOk result (λ found. IfNone found (touched.new.items ≡ touched.old.items)) }
        ensures closed { D.honest disk.old → (content : List ℕ) → IsReadAs content (D.state disk.old) self.now.from self.now.bytes window.old
            → IfOk result (λ found. IfNone found (IsOpen content (self.now.from + at.gate) → ⊥)) }
        ensures found { D.honest disk.old → (content : List ℕ) → IsReadAs content (D.state disk.old) self.now.from self.now.bytes window.old
            → IfOk result (λ found. IfSome found (λ behind. FoundGroup self.now.blocks content (self.now.from + at.gate) at.next
            (self.now.from + behind.gate) behind.next touched.old.items touched.new.items)) }
        ensures damaged { D.honest disk.old → (content : List ℕ) → IsReadAs content (D.state disk.old) self.now.from self.now.bytes window.old
            → IsErrOf result JournalFault.DamagedGroup
            → HasNoGroup self.now.blocks content (self.now.from + at.gate) at.next (self.now.from + self.now.bytes) }
    {
        if self.byte(disk, window, at.gate)? != OPEN {
            return Ok(None);
        }
        let found = self.open_group(disk, window, at, touched)?;
        Ok(Some(found))
    }

    // What stands after the group at this gate, which is open.
    fn open_group<D: Disk>(
        &self,
        disk: &mut D,
        window: &mut Window,
        at: Behind,
        touched: &mut Vec<TouchedRange>,
    ) -> Result<Behind, JournalFault>
        requires on_disk { self.now.from + self.now.bytes ≤ D.extent disk.old }
        requires inside { at.gate < self.now.bytes }
        ensures causes { IfErr result IsScanFault }
        ensures extent { D.extent disk.new ≡ D.extent disk.old }
        ensures faults_ok { OnOk result (D.faults disk.new ≡ D.faults disk.old) }
        ensures faults_err { IfErr result (λ fault. D.faults disk.new ≡ faults_by fault (D.faults disk.old)) }
        ensures honest { D.honest disk.new ↔ D.honest disk.old }
        ensures only_read { D.honest disk.old → IsOnlyRead (D.state disk.old) (D.state disk.new) }
        ensures read_as { D.honest disk.old → (content : List ℕ) → IsReadAs content (D.state disk.old) self.now.from self.now.bytes window.old
            → IsReadAs content (D.state disk.new) self.now.from self.now.bytes window.new }
        ensures later { IfOk result (λ behind. (at.gate < behind.gate) × (behind.gate < self.now.bytes)) }
        ensures within { OnOk result (AreWithin self.now.from (self.now.from + self.now.bytes) touched.old.items
            → AreWithin self.now.from (self.now.from + self.now.bytes) touched.new.items) }
        ensures found { D.honest disk.old → (content : List ℕ) → IsReadAs content (D.state disk.old) self.now.from self.now.bytes window.old
            → IsOpen content (self.now.from + at.gate)
            → IfOk result (λ behind. FoundGroup self.now.blocks content (self.now.from + at.gate) at.next
            (self.now.from + behind.gate) behind.next touched.old.items touched.new.items) }
        ensures damaged { D.honest disk.old → (content : List ℕ) → IsReadAs content (D.state disk.old) self.now.from self.now.bytes window.old
            → IsOpen content (self.now.from + at.gate) → IsErrOf result JournalFault.DamagedGroup
            → HasNoGroup self.now.blocks content (self.now.from + at.gate) at.next (self.now.from + self.now.bytes) }
    {
        if self.bytes - at.gate < GROUP_HEAD_BYTES + 1 {
            return Err(JournalFault::DamagedGroup);
        }
        let head = self.group_head(disk, window, at.gate)?;
        if !head.is_next(at.next) || self.bytes - at.gate - (GROUP_HEAD_BYTES + 1) < head.body {
            return Err(JournalFault::DamagedGroup);
        }
        let body = at.gate + GROUP_HEAD_BYTES;
        self.commands(disk, window, body, body + head.body, head.count, touched)?;
        Ok(Behind {
            gate: body + head.body,
            next: head.first.wrapping_add(head.count as u64),
        })
    }

    // That exactly this many well formed commands stand between these places; what they touch is noted.
    fn commands<D: Disk>(
        &self,
        disk: &mut D,
        window: &mut Window,
        from: u32,
        end: u32,
        count: u32,
        touched: &mut Vec<TouchedRange>,
    ) -> Result<(), JournalFault>
        requires on_disk { self.now.from + self.now.bytes ≤ D.extent disk.old }
        requires order { from ≤ end }
        requires inside { end ≤ self.now.bytes }
        ensures causes { IfErr result IsScanFault }
        ensures extent { D.extent disk.new ≡ D.extent disk.old }
        ensures faults_ok { OnOk result (D.faults disk.new ≡ D.faults disk.old) }
        ensures faults_err { IfErr result (λ fault. D.faults disk.new ≡ faults_by fault (D.faults disk.old)) }
        ensures honest { D.honest disk.new ↔ D.honest disk.old }
        ensures only_read { D.honest disk.old → IsOnlyRead (D.state disk.old) (D.state disk.new) }
        ensures read_as { D.honest disk.old → (content : List ℕ) → IsReadAs content (D.state disk.old) self.now.from self.now.bytes window.old
            → IsReadAs content (D.state disk.new) self.now.from self.now.bytes window.new }
        ensures within { OnOk result (AreWithin self.now.from (self.now.from + self.now.bytes) touched.old.items
            → AreWithin self.now.from (self.now.from + self.now.bytes) touched.new.items) }
        ensures found { D.honest disk.old → (content : List ℕ) → IsReadAs content (D.state disk.old) self.now.from self.now.bytes window.old
            → OnOk result (FoundChanges self.now.blocks content (self.now.from + from) (self.now.from + end) count
            touched.old.items touched.new.items) }
        ensures damaged { D.honest disk.old → (content : List ℕ) → IsReadAs content (D.state disk.old) self.now.from self.now.bytes window.old
            → IsErrOf result JournalFault.DamagedGroup
            → HasNoChanges self.now.blocks content (self.now.from + from) (self.now.from + end) count }
    {
        let mut place = from;
        for _ in 0..count {
            let found = self.command(disk, window, place, end)?;
            found.touch.note(touched)?;
            place = found.end;
        }
        if place == end {
            Ok(())
        } else {
            Err(JournalFault::DamagedGroup)
        }
    }

    // The command at this place, which is well formed and ends at `end` at the latest.
    fn command<D: Disk>(
        &self,
        disk: &mut D,
        window: &mut Window,
        place: u32,
        end: u32,
    ) -> Result<FoundCommand, JournalFault>
        requires on_disk { self.now.from + self.now.bytes ≤ D.extent disk.old }
        requires order { place ≤ end }
        requires inside { end ≤ self.now.bytes }
        ensures causes { IfErr result IsScanFault }
        ensures extent { D.extent disk.new ≡ D.extent disk.old }
        ensures faults_ok { OnOk result (D.faults disk.new ≡ D.faults disk.old) }
        ensures faults_err { IfErr result (λ fault. D.faults disk.new ≡ faults_by fault (D.faults disk.old)) }
        ensures honest { D.honest disk.new ↔ D.honest disk.old }
        ensures only_read { D.honest disk.old → IsOnlyRead (D.state disk.old) (D.state disk.new) }
        ensures read_as { D.honest disk.old → (content : List ℕ) → IsReadAs content (D.state disk.old) self.now.from self.now.bytes window.old
            → IsReadAs content (D.state disk.new) self.now.from self.now.bytes window.new }
        ensures inside { IfOk result (λ found. (place ≤ found.end) × (found.end ≤ end)) }
        ensures within { IfOk result (λ found. AreWithin self.now.from (self.now.from + found.end) (ranges_of found.touch)) }
        ensures found { D.honest disk.old → (content : List ℕ) → IsReadAs content (D.state disk.old) self.now.from self.now.bytes window.old
            → IfOk result (λ found. FoundChange self.now.blocks content (self.now.from + place) (self.now.from + found.end) (ranges_of found.touch)) }
        ensures damaged { D.honest disk.old → (content : List ℕ) → IsReadAs content (D.state disk.old) self.now.from self.now.bytes window.old
            → IsErrOf result JournalFault.DamagedGroup → HasNoChange self.now.blocks content (self.now.from + place) (self.now.from + end) }
    {
        if end - place < COMMAND_HEAD_BYTES {
            return Err(JournalFault::DamagedGroup);
        }
        let head = self.command_head(disk, window, place)?;
        if end - place < head.bytes() {
            return Err(JournalFault::DamagedGroup);
        }
        let edges = self.edges(disk, window, head, place)?;
        let Some(data) = head.data_bytes(self.blocks, edges) else {
            return Err(JournalFault::DamagedGroup);
        };
        let bytes = place + COMMAND_HEAD_BYTES;
        if end - bytes < data {
            return Err(JournalFault::DamagedGroup);
        }
        Ok(FoundCommand {
            touch: head.touch(self.from + bytes as u64, edges),
            end: bytes + data,
        })
    }

    // Which edges the byte after this head says, where the head is one with edges; none where it says none.
    fn edges<D: Disk>(
        &self,
        disk: &mut D,
        window: &mut Window,
        head: CommandHead,
        place: u32,
    ) -> Result<Option<Edges>, DeviceFault>
        requires on_disk { self.now.from + self.now.bytes ≤ D.extent disk.old }
        requires inside { IsEdgedKind head.kind → place + 14 ≤ self.now.bytes }
        ensures extent { D.extent disk.new ≡ D.extent disk.old }
        ensures faults { D.faults disk.new ≡ faults_after result (D.faults disk.old) }
        ensures honest { D.honest disk.new ↔ D.honest disk.old }
        ensures only_read { D.honest disk.old → IsOnlyRead (D.state disk.old) (D.state disk.new) }
        ensures read_as { D.honest disk.old → (content : List ℕ) → IsReadAs content (D.state disk.old) self.now.from self.now.bytes window.old
            → IsReadAs content (D.state disk.new) self.now.from self.now.bytes window.new }
        ensures said { D.honest disk.old → (content : List ℕ) → IsReadAs content (D.state disk.old) self.now.from self.now.bytes window.old
            → IfOk result (λ edges. IsEdgedKind head.kind → edges_said (slice_index content (self.now.from + place + 13)) ≡ edges) }
    {
        if !head.has_edges() {
            return Ok(None);
        }
        let byte = self.byte(disk, window, place + COMMAND_HEAD_BYTES)?;
        Ok(edges_of(byte))
    }
}

impl Place {
    // The byte at this place.
    fn byte<D: Disk>(
        &self,
        disk: &mut D,
        window: &mut Window,
        place: u32,
    ) -> Result<u8, DeviceFault>
        requires on_disk { self.now.from + self.now.bytes ≤ D.extent disk.old }
        requires inside { place + 1 ≤ self.now.bytes }
        ensures extent { D.extent disk.new ≡ D.extent disk.old }
        ensures faults { D.faults disk.new ≡ faults_after result (D.faults disk.old) }
        ensures honest { D.honest disk.new ↔ D.honest disk.old }
        ensures only_read { D.honest disk.old → IsOnlyRead (D.state disk.old) (D.state disk.new) }
        ensures read_as { D.honest disk.old → (content : List ℕ) → IsReadAs content (D.state disk.old) self.now.from self.now.bytes window.old
            → IsReadAs content (D.state disk.new) self.now.from self.now.bytes window.new }
        ensures bytes { D.honest disk.old → (content : List ℕ) → IsReadAs content (D.state disk.old) self.now.from self.now.bytes window.old
            → IfOk result (λ byte. slice_index content (self.now.from + place) ≡ byte) }
    {
        window.load(disk, self.from, self.bytes, place, 1)?;
        Ok(window.bytes(place, 1)[0])
    }

    // The head of the group whose gate is at this place.
    fn group_head<D: Disk>(
        &self,
        disk: &mut D,
        window: &mut Window,
        place: u32,
    ) -> Result<GroupHead, DeviceFault>
        requires on_disk { self.now.from + self.now.bytes ≤ D.extent disk.old }
        requires inside { place + 17 ≤ self.now.bytes }
        ensures extent { D.extent disk.new ≡ D.extent disk.old }
        ensures faults { D.faults disk.new ≡ faults_after result (D.faults disk.old) }
        ensures honest { D.honest disk.new ↔ D.honest disk.old }
        ensures only_read { D.honest disk.old → IsOnlyRead (D.state disk.old) (D.state disk.new) }
        ensures read_as { D.honest disk.old → (content : List ℕ) → IsReadAs content (D.state disk.old) self.now.from self.now.bytes window.old
            → IsReadAs content (D.state disk.new) self.now.from self.now.bytes window.new }
        ensures bytes { D.honest disk.old → (content : List ℕ) → IsReadAs content (D.state disk.old) self.now.from self.now.bytes window.old
            → IfOk result (λ head. StandsAt content (self.now.from + place + 1) (group_head head.body head.first head.count)) }
    {
        window.load(disk, self.from, self.bytes, place, GROUP_HEAD_BYTES)?;
        Ok(group_head(window.bytes(place, GROUP_HEAD_BYTES)))
    }

    // The head of the command at this place.
    fn command_head<D: Disk>(
        &self,
        disk: &mut D,
        window: &mut Window,
        place: u32,
    ) -> Result<CommandHead, DeviceFault>
        requires on_disk { self.now.from + self.now.bytes ≤ D.extent disk.old }
        requires inside { place + 13 ≤ self.now.bytes }
        ensures extent { D.extent disk.new ≡ D.extent disk.old }
        ensures faults { D.faults disk.new ≡ faults_after result (D.faults disk.old) }
        ensures honest { D.honest disk.new ↔ D.honest disk.old }
        ensures only_read { D.honest disk.old → IsOnlyRead (D.state disk.old) (D.state disk.new) }
        ensures read_as { D.honest disk.old → (content : List ℕ) → IsReadAs content (D.state disk.old) self.now.from self.now.bytes window.old
            → IsReadAs content (D.state disk.new) self.now.from self.now.bytes window.new }
        ensures bytes { D.honest disk.old → (content : List ℕ) → IsReadAs content (D.state disk.old) self.now.from self.now.bytes window.old
            → IfOk result (λ head. StandsAt content (self.now.from + place) (change_head head.kind head.first head.blocks)) }
    {
        window.load(disk, self.from, self.bytes, place, COMMAND_HEAD_BYTES)?;
        Ok(command_head(window.bytes(place, COMMAND_HEAD_BYTES)))
    }
}

impl GroupHead {
    // Whether the next group may have this head, where its first number has to be `next`.
    fn is_next(self, next: u64) -> bool
        ensures { IsTrue result ↔ IsNextHead next self.body self.first self.count }
    {
        self.body <= MOST_BODY_BYTES
            && self.count > 0
            && next > 0
            && self.first == next
            && u64::MAX - self.first >= self.count as u64 - 1
    }
}

impl CommandHead {
    // Whether it is one of a command with edges.
    fn has_edges(self) -> bool
        ensures { IsTrue result ↔ IsEdgedKind self.kind }
    {
        self.kind == EDGED_HOLE || self.kind == EDGED_ALLOCATED_ZERO
    }

    // The bytes of the head, with the one that says which edges there are.
    fn bytes(self) -> u32
        ensures edged { IsEdgedKind self.kind → result ≡ 14 }
        ensures other { (IsEdgedKind self.kind → ⊥) → result ≡ 13 }
    {
        if self.has_edges() {
            COMMAND_HEAD_BYTES + 1
        } else {
            COMMAND_HEAD_BYTES
        }
    }

    // The bytes after the 13 of the head, where it has these edges; none where the command isn't one for an image of so
    // many blocks.
    fn data_bytes(self, image: u64, edges: Option<Edges>) -> Option<u32>
        ensures bounded { IfSome result (λ bytes. bytes ≤ 1052672) }
        ensures some { IfSome result (λ bytes. IsHead image self.kind self.first self.blocks edges bytes) }
        ensures none { IfNone result ((bytes : ℕ) → IsHead image self.kind self.first self.blocks edges bytes → ⊥) }
    {
        if image < self.first || image - self.first < self.blocks as u64 {
            return None;
        }
        match self.kind {
            PUT if 1 <= self.blocks && self.blocks <= MOST_PUT_BLOCKS => Some(
                self.blocks * BLOCK_BYTES as u32,
            ),
            HOLE => Some(0),
            ALLOCATED_ZERO if 1 <= self.blocks => Some(0),
            EDGED_HOLE | EDGED_ALLOCATED_ZERO => edges_bytes(edges, self.blocks),
            _ => None,
        }
    }

    // What the command touches, whose data stand from this place of the device on, with edges after the byte that says
    // which.
    fn touch(self, place: u64, edges: Option<Edges>) -> CommandTouch
        requires on_device { IsEdgedKind self.kind → (own : Edges) → edges ≡ Some own → place + 1 + 4096 * edge_count own < 2 ^ 64 }
        ensures plain { (IsEdgedKind self.kind → ⊥)
            → ranges_of result ≡ record { first = self.first; blocks = self.blocks; touch = touch_of_head self.kind place } ∷ [] }
        ensures edged { IsEdgedKind self.kind → (own : Edges) → edges ≡ Some own
            → ranges_of result ≡ record { first = self.first; blocks = self.blocks; touch = touch_of_head self.kind place }
            ∷ edge_ranges self.first self.blocks own (place + 1) (edge_count own) }
    {
        let range = TouchedRange {
            first: self.first,
            blocks: self.blocks,
            touch: self.own_touch(place),
        };
        if !self.has_edges() {
            return CommandTouch { range, edges: None };
        }
        CommandTouch {
            range,
            edges: stored(edges, place),
        }
    }

    // What the command makes of its blocks but for edges.
    fn own_touch(self, place: u64) -> Touch
        ensures { result ≡ touch_of_head self.kind place }
    {
        match self.kind {
            PUT => Touch::Put(place),
            HOLE | EDGED_HOLE => Touch::Clear(Kind::Hole),
            _ => Touch::Clear(Kind::Zero),
        }
    }
}

// The edges that this byte says; none where it says none.
fn edges_of(byte: u8) -> Option<Edges>
    ensures { result ≡ edges_said byte }
{
    match byte {
        HEAD => Some(Edges::Head),
        TAIL => Some(Edges::Tail),
        BOTH => Some(Edges::Both),
        _ => None,
    }
}

// The bytes after the head of a command with these edges; none where it has none, or fewer blocks than these are.
fn edges_bytes(edges: Option<Edges>, blocks: u32) -> Option<u32>
    ensures some { IfSome result (λ bytes. (own : Edges) × (edges ≡ Some own) × (least_blocks own ≤ blocks) × (bytes ≡ 1 + 4096 * edge_count own)) }
    ensures none { IfNone result ((own : Edges) → edges ≡ Some own → least_blocks own ≤ blocks → ⊥) }
{
    match edges {
        Some(Edges::Head) if 1 <= blocks => Some(4097),
        Some(Edges::Tail) if 2 <= blocks => Some(4097),
        Some(Edges::Both) if 2 <= blocks => Some(8193),
        _ => None,
    }
}

// These edges, whose bytes stand after the byte at this place.
fn stored(edges: Option<Edges>, place: u64) -> Option<StoredEdges>
    requires { (own : Edges) → edges ≡ Some own → place + 1 + 4096 * edge_count own < 2 ^ 64 }
    ensures some { (own : Edges) → edges ≡ Some own → (first blocks : ℕ)
        → stored_ranges first blocks result ≡ edge_ranges first blocks own (place + 1) (edge_count own) }
{
    let edges = edges?;
    Some(StoredEdges {
        edges,
        place: place + 1,
        blocks: edges.count() as u64,
    })
}

// The head of a group from its bytes, the first of which is the gate.
fn group_head(bytes: &[u8]) -> GroupHead
    requires { length bytes.now ≡ 17 }
    ensures { StandsAt bytes.now 1 (group_head result.body result.first result.count) }
{
    GroupHead {
        body: BigEndian::read_u32(&bytes[1..]),
        first: BigEndian::read_u64(&bytes[5..]),
        count: BigEndian::read_u32(&bytes[13..]),
    }
}

// The head of a command from its bytes.
fn command_head(bytes: &[u8]) -> CommandHead
    requires { length bytes.now ≡ 13 }
    ensures { StandsAt bytes.now 0 (change_head result.kind result.first result.blocks) }
{
    CommandHead {
        kind: bytes[0],
        first: BigEndian::read_u64(&bytes[1..]),
        blocks: BigEndian::read_u32(&bytes[9..]),
    }
}
