//! What the list of an area says of a block.
use journal::Area;
use journal_format::Touch;

// What the last range that covers the block says of its first one.
pub fn last_touch(area: &Area, block: u64) -> Option<Touch> {
    for range in area.touched().iter().rev() {
        if block >= range.first && block - range.first < range.blocks as u64 {
            return Some(range.touch);
        }
    }
    None
}
