//! READs whose blocks are missing overlap in the device: the system is told of those that come next.

use crate::export::Export;
use crate::name::ExportName;
use crate::second_handle::ReadUnlocked;
use disk_model::Disk;
use image_model::BLOCK_BYTES;
use marks::Trust;
use nbd_wire::RequestHead;
use regions::Regions;

impl<B: ExportName, D: Disk, H: ReadUnlocked, T: Trust> Export<B, D, H, T> {
    /// How many READs have found blocks missing so far.
    pub fn misses(&self) -> u64 {
        self.signals.misses()
    }

    /// A READ with this head comes soon: the system may begin to read its blocks from the device. No answer depends on it.
    pub fn prefetch(&self, head: &RequestHead) {
        let Some(handle) = &self.second_handle else {
            return;
        };
        let first = head.offset / BLOCK_BYTES;
        let end = head.offset.saturating_add(u64::from(head.length));
        if first >= self.geometry.blocks {
            return;
        }
        let from = Regions::from_geometry(&self.geometry).block_from(first);
        handle.prefetch(from, end.saturating_sub(first * BLOCK_BYTES));
    }
}
