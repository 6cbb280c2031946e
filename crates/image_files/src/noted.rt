//! What this process has left in the header slots of an image, so that another writer is noticed.

use header_slots::SLOT_BYTES;
use std::io;
use std::os::unix::fs::FileExt;

// A slot's gate, and the header after it.
const USED_BYTES: usize = 40;

/// The bytes up to the end of the header in slot 1.
pub(crate) const FRONT_BYTES: usize = SLOT_BYTES as usize + USED_BYTES;

/// The gates and the headers of both slots.
#[derive(Clone, Copy, PartialEq, Eq)]
pub(crate) struct HeaderSlots {
    zero: [u8; USED_BYTES],
    one: [u8; USED_BYTES],
}

impl HeaderSlots {
    /// Those that one read of a file finds.
    pub(crate) fn read<F: FileExt>(file: &F) -> io::Result<HeaderSlots> {
        let mut front = [0; FRONT_BYTES];
        file.read_exact_at(&mut front, 0)?;
        let mut slots = HeaderSlots {
            zero: [0; USED_BYTES],
            one: [0; USED_BYTES],
        };
        slots.note(0, &front);
        Ok(slots)
    }

    /// These bytes stand at an offset.
    pub(crate) fn note(&mut self, offset: u64, bytes: &[u8]) {
        for (at, byte) in bytes.iter().enumerate() {
            let place = offset.saturating_add(at as u64);
            let slot = if place < SLOT_BYTES {
                &mut self.zero
            } else {
                &mut self.one
            };
            if let Some(noted) = slot.get_mut((place % SLOT_BYTES) as usize) {
                *noted = *byte;
            }
        }
    }
}
