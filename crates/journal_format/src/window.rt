ghost use Rattle.std.specs.Prelude.{◌≡◌, ℕ, ◌+◌, ◌≤◌, ◌<◌, ◌-◌, min, List, length, slice_index, OnOk, IfOk, IsTrue, ◌↔◌};
ghost use Rattle.disk_model.specs.Faults.{faults_after};
ghost use Rattle.journal_format.specs.Reading.{IsOnlyRead};
ghost use Rattle.journal_format.specs.inner.Scanning.{IsReadAs};

use disk_model::{DeviceFault, Disk, free_buffer};
use std::alloc::{AllocError, Global};
use std::marker::Model;

// The most bytes that one read takes, and those of a read after a jump.
const WINDOW_BYTES: u32 = 1_048_576;

const LEAST_WINDOW_BYTES: u32 = 65_536;

// A part of an area that is held in memory, so that small pieces of it cost few reads.
#[derive(Drop)]
pub struct Window {
    buffer: Vec<u8>,
    from: u32,
    held: u32,
}

impl Model for Window {
    ghost use Rattle.std.specs.Prelude.{◌≡◌, ◌≤◌, length};
    ghost use Rattle.journal_format.specs.Scanning.{WindowState};

    ghost Value = { WindowState };

    ghost view = { λ window. record { from = window.from; held = window.held; buffer = window.buffer.items } };

    ghost invariant = { λ window. (length window.buffer.items ≡ 1048576) × (window.held ≤ 1048576) };
}

impl Window {
    pub fn new(alloc: Global) -> Result<Window, AllocError>
        ensures { IfOk result (λ window. window.held ≡ 0) }
    {
        Ok(Window {
            buffer: vec![in alloc; 0; WINDOW_BYTES as usize]?,
            from: 0,
            held: 0,
        })
    }

    pub fn free(self) {
        let Window {
            buffer,
            from: _,
            held: _,
        } = self;
        free_buffer(buffer);
    }

    // The bytes of a place in the area, which are in memory.
    pub fn bytes(&self, place: u32, count: u32) -> &[u8]
        requires { (self.now.from ≤ place) × (place + count ≤ self.now.from + self.now.held) }
        ensures count { length result.now ≡ count }
        ensures bytes { (k : ℕ) → k < count → slice_index result.now k ≡ slice_index self.now.buffer (place - self.now.from + k) }
    {
        let at = (place - self.from) as usize;
        &self.buffer[at..at + count as usize]
    }

    // Has the bytes of a place in memory, in the area that begins at `area` and has `area_bytes` bytes.
    pub fn load<D: Disk>(
        &mut self,
        disk: &mut D,
        area: u64,
        area_bytes: u32,
        place: u32,
        count: u32,
    ) -> Result<(), DeviceFault>
        requires small { count ≤ 32 }
        requires inside { place + count ≤ area_bytes }
        requires on_disk { area + area_bytes ≤ D.extent disk.old }
        ensures held { OnOk result ((self.new.from ≤ place) × (place + count ≤ self.new.from + self.new.held)) }
        ensures extent { D.extent disk.new ≡ D.extent disk.old }
        ensures faults { D.faults disk.new ≡ faults_after result (D.faults disk.old) }
        ensures honest { D.honest disk.new ↔ D.honest disk.old }
        ensures only_read { D.honest disk.old → IsOnlyRead (D.state disk.old) (D.state disk.new) }
        ensures read_as { D.honest disk.old → (content : List ℕ) → IsReadAs content (D.state disk.old) area area_bytes self.old
            → IsReadAs content (D.state disk.new) area area_bytes self.new }
    {
        if self.holds(place, count) {
            return Ok(());
        }
        self.fill(disk, area, area_bytes, place)
    }
}

impl Window {
    // Whether these bytes are in memory.
    fn holds(&self, place: u32, count: u32) -> bool
        ensures { IsTrue result ↔ ((self.now.from ≤ place) × (place + count ≤ self.now.from + self.now.held)) }
    {
        self.from <= place && count <= self.held && place - self.from <= self.held - count
    }

    // How many bytes the next read takes: twice as many as the last one where it goes on after it, so that a list of short
    // commands is read in long pieces, and of one of long puts little more than their heads.
    fn next_bytes(&self, place: u32) -> u32
        ensures { (65536 ≤ result) × (result ≤ 1048576) }
    {
        if place < self.from || place - self.from > self.held + LEAST_WINDOW_BYTES {
            return LEAST_WINDOW_BYTES;
        }
        (2 * self.held).clamp(LEAST_WINDOW_BYTES, WINDOW_BYTES)
    }

    // Reads the part of the area from this place on.
    fn fill<D: Disk>(
        &mut self,
        disk: &mut D,
        area: u64,
        area_bytes: u32,
        place: u32,
    ) -> Result<(), DeviceFault>
        requires inside { place ≤ area_bytes }
        requires on_disk { area + area_bytes ≤ D.extent disk.old }
        ensures held { OnOk result ((self.new.from ≡ place) × (min 65536 (area_bytes - place) ≤ self.new.held)) }
        ensures extent { D.extent disk.new ≡ D.extent disk.old }
        ensures faults { D.faults disk.new ≡ faults_after result (D.faults disk.old) }
        ensures honest { D.honest disk.new ↔ D.honest disk.old }
        ensures only_read { D.honest disk.old → IsOnlyRead (D.state disk.old) (D.state disk.new) }
        ensures read_as { D.honest disk.old → (content : List ℕ) → IsReadAs content (D.state disk.old) area area_bytes self.old
            → IsReadAs content (D.state disk.new) area area_bytes self.new }
    {
        let most = self.next_bytes(place);
        self.from = place;
        self.held = 0;
        let held = most.min(area_bytes - place);
        read_front(disk, area + place as u64, &mut self.buffer, held)?;
        self.held = held;
        Ok(())
    }
}

// Reads this many bytes into the front of a buffer.
fn read_front<D: Disk>(
    disk: &mut D,
    offset: u64,
    buffer: &mut [u8],
    count: u32,
) -> Result<(), DeviceFault>
    requires room { count ≤ length buffer.old }
    requires on_disk { offset + count ≤ D.extent disk.old }
    ensures extent { D.extent disk.new ≡ D.extent disk.old }
    ensures faults { D.faults disk.new ≡ faults_after result (D.faults disk.old) }
    ensures honest { D.honest disk.new ↔ D.honest disk.old }
    ensures only_read { D.honest disk.old → IsOnlyRead (D.state disk.old) (D.state disk.new) }
    ensures bytes { D.honest disk.old → OnOk result
        ((k : ℕ) → k < count → slice_index buffer.new k ≡ slice_index (D.state disk.new).seen (offset + k)) }
{
    disk.read(offset, &mut buffer[..count as usize])
}
