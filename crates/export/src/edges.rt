//! The blocks of which a write command takes old bytes from the device.

use crate::commit_queue::NotedBase;
use image_model::BLOCK_BYTES;
use marks::BoardName;
use nbd_wire::RequestHead;
use order_book::Order;

/// The first and the last block of a write command, each where the command covers a part of it alone and it isn't in memory.
#[derive(Clone, Copy)]
pub(crate) struct MissingEdges {
    pub first: Option<u64>,
    pub last: Option<u64>,
    /// The base that the order had noted then.
    pub noted_base: NotedBase,
}

impl MissingEdges {
    pub(crate) fn new<B: BoardName>(
        head: &RequestHead,
        order: &Order<B>,
        noted_base: NotedBase,
    ) -> MissingEdges {
        let end = head.offset.saturating_add(u64::from(head.length));
        let first = missing_at(order, head.offset);
        let last = missing_at(order, end);
        MissingEdges {
            first,
            last: if last == first { None } else { last },
            noted_base,
        }
    }
}

// The block that this place cuts in two, where it isn't in memory.
fn missing_at<B: BoardName>(order: &Order<B>, place: u64) -> Option<u64> {
    let block = place / BLOCK_BYTES;
    if place % BLOCK_BYTES == 0 || block >= order.blocks() {
        return None;
    }
    let missing = order.missing(block, 1);
    if missing.first < missing.end {
        Some(block)
    } else {
        None
    }
}
