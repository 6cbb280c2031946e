ghost use Rattle.std.specs.Prelude.{◌≡◌, ◌≤◌, [], ◌∷◌, ◌++◌, length, take, OnOk, OnErr};
ghost use Rattle.journal_format.specs.Touches.{edge_ranges, ranges_of};
ghost use Rattle.journal_format.specs.declared.touch.Touch.TheVariants as Touch;

use crate::touch::{CommandTouch, StoredEdges, Touch, TouchedRange};
use image_model::{BLOCK_BYTES, Edges};
use std::alloc::AllocError;

// By how many ranges a short list grows.
const LEAST_GROWTH: usize = 64;

impl CommandTouch {
    /// Notes at the end what the command touched. Refusal 0 (no memory), and then nothing of it is noted.
    pub fn note(self, touched: &mut Vec<TouchedRange>) -> Result<(), AllocError>
        ensures ok { OnOk result (touched.new.items ≡ touched.old.items ++ ranges_of self) }
        ensures err { OnErr result (touched.new.items ≡ touched.old.items) }
    {
        let held = touched.len();
        match self.note_ranges(touched) {
            Ok(()) => Ok(()),
            Err(refused) => {
                touched.truncate(held);
                Err(refused)
            }
        }
    }

    // The same, where what was noted before the refusal stays.
    fn note_ranges(self, touched: &mut Vec<TouchedRange>) -> Result<(), AllocError>
        ensures ok { OnOk result (touched.new.items ≡ touched.old.items ++ ranges_of self) }
        ensures begins { take (length touched.old.items) touched.new.items ≡ touched.old.items }
    {
        note(touched, self.range)?;
        match self.edges {
            None => Ok(()),
            Some(stored) => stored.note(touched, self.range.first, self.range.blocks),
        }
    }
}

impl StoredEdges {
    // Notes the edges of this many blocks.
    fn note(
        self,
        touched: &mut Vec<TouchedRange>,
        first: u64,
        blocks: u32,
    ) -> Result<(), AllocError>
        ensures ok { OnOk result (touched.new.items ≡ touched.old.items ++ edge_ranges first blocks self.edges self.place self.blocks) }
        ensures begins { take (length touched.old.items) touched.new.items ≡ touched.old.items }
    {
        let one = self.blocks.min(1);
        let last = first.wrapping_add(blocks.saturating_sub(1) as u64);
        match self.edges {
            Edges::Head => note(touched, put(first, one, self.place)),
            Edges::Tail => note(touched, put(last, one, self.place)),
            Edges::Both => {
                let other = self.blocks.saturating_sub(1).min(1);
                note(touched, put(first, one, self.place))?;
                note(touched, put(last, other, self.place + BLOCK_BYTES * one))
            }
        }
    }
}

// A block that was put, or none.
fn put(first: u64, blocks: u64, place: u64) -> TouchedRange
    requires { blocks ≤ 1 }
    ensures { result ≡ record { first = first; blocks = blocks; touch = Touch.Put place } }
{
    TouchedRange {
        first,
        blocks: blocks as u32,
        touch: Touch::Put(place),
    }
}

// One more range at the end. The list grows by a quarter and 64 ranges, so that it takes at most 40 bytes a range and
// 2 KiB. Refusal 0 (no memory).
fn note(touched: &mut Vec<TouchedRange>, range: TouchedRange) -> Result<(), AllocError>
    ensures ok { OnOk result (touched.new.items ≡ touched.old.items ++ range ∷ []) }
    ensures err { OnErr result (touched.new.items ≡ touched.old.items) }
{
    if touched.len() == touched.capacity() {
        touched.reserve_exact(touched.len() / 4 + LEAST_GROWTH)?;
    }
    touched.push(range)?;
    Ok(())
}
