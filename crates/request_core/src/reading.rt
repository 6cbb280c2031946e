//! Serving of READ and BLOCK_STATUS.

ghost use Rattle.std.specs.Prelude.{◌≡◌, ◌≢◌, ◌⊎◌, ◌↔◌, ◌+◌, ◌*◌, ◌/◌, ◌%◌, ◌^◌, ◌<◌, ◌≤◌, ℕ, None, true, drop, IfErr, IfOk, IfSome, IsErr, OnErr, length, take, vec_len};
ghost use Rattle.image_model.specs.Edit.{blocks_met};
ghost use Rattle.order_book.specs.Reading.{LiesIn};
ghost use Rattle.request_core.specs.Reading.{IsHeldReadServed, IsPlanned, IsReadOverServed, IsReadServed, IsStatusServed};
ghost use Rattle.shared_cache.specs.Cache.{LacksBytes, bytes_seen};

use crate::answers::{bytes_answer, status_answer};
use crate::judgement::judge;
use crate::runs::read_runs;
use crate::serving::{Served, Terms, refuse};
use checkpoint::Keeper;
use disk_model::Disk;
use export_model::Action;
use image_model::BLOCK_BYTES;
use marks::BoardName;
use nbd_wire::{Errno, READ, Reply, RequestHead};
use order_book::{Order, Span};
use std::alloc::Global;

/// The blocks that a request's bytes touch.
#[derive(Clone, Copy)]
pub struct Blocks {
    /// The first of them.
    pub first: u64,
    /// How many there are, at least one.
    pub count: u64,
}

impl Blocks {
    /// Those of a request of at least one byte.
    pub fn from_head(head: &RequestHead) -> Blocks
        requires { head.now.offset + head.now.length < 2 ^ 64 }
        ensures first { result.first ≡ head.now.offset / 4096 }
        ensures count { result.count ≡ blocks_met head.now.offset head.now.length }
    {
        let skip = head.offset % BLOCK_BYTES;
        Blocks {
            first: head.offset / BLOCK_BYTES,
            count: (skip + head.length as u64).div_ceil(BLOCK_BYTES),
        }
    }

    /// Their bytes.
    pub fn bytes(self) -> usize
        requires { self.count ≤ 1048577 }
        ensures { result ≡ 4096 * self.count }
    {
        BLOCK_BYTES as usize * self.count as usize
    }
}

// Leaves of the bytes of the blocks that a READ touches those that it asks for, moved to the front.
fn cut(bytes: &mut Vec<u8>, head: &RequestHead)
    requires { vec_len bytes.old ≡ 4096 * blocks_met head.now.offset head.now.length }
    ensures { bytes.new.items ≡ take head.now.length (drop (head.now.offset % 4096) bytes.old.items) }
{
    let skip = (head.offset % BLOCK_BYTES) as usize;
    let count = head.length as usize;
    if skip > 0 {
        bytes.copy_within(skip..skip + count, 0);
    }
    bytes.truncate(count);
}

// Serves a READ that passes judgement, of blocks that are all in memory, over an order that isn't stopped. Its bytes take the memory
// of `room`, and more if that isn't enough.
pub(crate) fn serve_held_read<B: BoardName>(
    alloc: Global,
    head: &RequestHead,
    room: Vec<u8>,
    order: &Order<B>,
) -> Served
    requires kind { head.now.kind ≡ 0 }
    requires some { 0 < head.now.length }
    requires most { head.now.length ≤ 1048576 }
    requires few { length order.now.cache.states ≤ 16777216 }
    requires inside { head.now.offset + head.now.length ≤ 4096 * length order.now.cache.states }
    requires held { LacksBytes order.now.cache (head.now.offset / 4096) (blocks_met head.now.offset head.now.length) → ⊥ }
    ensures { IsHeldReadServed head.now order.now result }
{
    let Ok(runs) = read_runs(alloc, order, head.offset, head.length) else {
        return refuse(head.cookie, Errno::NoMemory);
    };
    let Ok(bytes) = order.copy_in_memory(room, head.offset, head.length as usize) else {
        return refuse(head.cookie, Errno::NoMemory);
    };
    Served::Ready(Reply {
        cookie: head.cookie,
        answer: bytes_answer(head, order, bytes, runs),
    })
}

// Serves a READ that passes judgement, over an order that isn't stopped. All memory is taken first.
pub(crate) fn serve_read<B: BoardName, D: Disk>(
    alloc: Global,
    head: &RequestHead,
    order: &mut Order<B>,
    keeper: &mut Keeper<D>,
) -> Served
    requires kind { head.now.kind ≡ 0 }
    requires some { 0 < head.now.length }
    requires most { head.now.length ≤ 1048576 }
    requires few { length order.old.cache.states ≤ 16777216 }
    requires inside { head.now.offset + head.now.length ≤ 4096 * length order.old.cache.states }
    requires device { length order.old.cache.states ≡ keeper.old.geometry.blocks }
    ensures read { IsReadServed D.state D.faults D.honest head.now order.old order.new keeper.old keeper.new result }
    ensures hit { (LacksBytes order.old.cache (head.now.offset / 4096) (blocks_met head.now.offset head.now.length) → ⊥) → (order.new ≡ order.old) × (keeper.new ≡ keeper.old) }
    ensures count { keeper.new.count ≡ keeper.old.count }
    ensures extent { D.extent keeper.new.disk ≡ D.extent keeper.old.disk }
    ensures honest { D.honest keeper.new.disk ↔ D.honest keeper.old.disk }
{
    let Ok(runs) = read_runs(alloc, order, head.offset, head.length) else {
        return refuse(head.cookie, Errno::NoMemory);
    };
    let blocks = Blocks::from_head(head);
    let Ok(mut bytes) = vec![in alloc; 0; blocks.bytes()] else {
        return refuse(head.cookie, Errno::NoMemory);
    };
    let Ok(_kept) = order.read_with(keeper, blocks.first, &mut bytes) else {
        order.stop();
        return refuse(head.cookie, Errno::Io);
    };
    cut(&mut bytes, head);
    Served::Ready(Reply {
        cookie: head.cookie,
        answer: bytes_answer(head, order, bytes, runs),
    })
}

// Serves a BLOCK_STATUS that passes judgement, over an order that isn't stopped.
pub(crate) fn serve_status<B: BoardName>(
    alloc: Global,
    head: &RequestHead,
    order: &Order<B>,
) -> Served
    requires kind { head.now.kind ≢ 0 }
    requires some { 0 < head.now.length }
    requires few { length order.now.cache.states ≤ 16777216 }
    requires inside { head.now.offset + head.now.length ≤ 4096 * length order.now.cache.states }
    ensures { IsStatusServed head.now order.now result }
{
    match status_answer(alloc, head, order) {
        Ok(answer) => Served::Ready(Reply {
            cookie: head.cookie,
            answer,
        }),
        Err(_) => refuse(head.cookie, Errno::NoMemory),
    }
}

/// What a READ that passes judgement needs of the device: the span from its first block that isn't in memory to the last,
/// which may be read with no lock held. None for any other request.
pub fn plan_read<B: BoardName>(head: &RequestHead, order: &Order<B>, terms: &Terms) -> Option<Span>
    requires { length order.now.cache.states ≡ terms.now.geometry.blocks }
    ensures planned { IfSome result (IsPlanned head.now terms.now.geometry terms.now.flags) }
    ensures all { IfSome result (λ span. (block : ℕ) → head.now.offset / 4096 ≤ block → block < head.now.offset / 4096 + blocks_met head.now.offset head.now.length
        → bytes_seen order.now.cache block ≡ None → LiesIn block span) }
{
    if head.kind != READ {
        return None;
    }
    match judge(head, &terms.geometry, &terms.flags) {
        Ok(Action::Serve) => {
            let blocks = Blocks::from_head(head);
            Some(order.missing(blocks.first, blocks.count))
        }
        Ok(Action::End) | Err(_) => None,
    }
}

/// Serves a READ for which a span of its blocks was read before, with no lock held: what is in memory by now is put over
/// these bytes. They come back where that isn't enough, as the order is stopped, or another block has left memory.
///
/// That nobody has written what was read, the caller has to know: each block that isn't in memory is as at the base.
pub fn serve_read_over<B: BoardName>(
    alloc: Global,
    head: &RequestHead,
    order: &mut Order<B>,
    span: Span,
    bytes: Vec<u8>,
    terms: &Terms,
) -> Result<Served, Vec<u8>>
    requires planned { IsPlanned head.now terms.now.geometry terms.now.flags span }
    requires blocks { length order.old.cache.states ≡ terms.now.geometry.blocks }
    requires size { vec_len bytes ≡ 4096 * blocks_met head.now.offset head.now.length }
    ensures read { IfOk result (λ served. IsReadOverServed head.now span bytes.items order.old order.new served) }
    ensures blocks { length order.new.cache.states ≡ length order.old.cache.states }
    ensures stopped { order.old.stopped ≡ true → IsErr result }
    ensures size { IfErr result (λ back. vec_len back ≡ 4096 * blocks_met head.now.offset head.now.length) }
    ensures unchanged { OnErr result (order.new ≡ order.old) }
    ensures back { IsErr result → (order.old.stopped ≡ true)
        ⊎ ((j : ℕ) × (j < blocks_met head.now.offset head.now.length) × (bytes_seen order.old.cache (head.now.offset / 4096 + j) ≡ None) × (LiesIn (head.now.offset / 4096 + j) span → ⊥)) }
{
    if order.is_stopped() {
        return Err(bytes);
    }
    let Ok(runs) = read_runs(alloc, order, head.offset, head.length) else {
        return Ok(refuse(head.cookie, Errno::NoMemory));
    };
    let mut bytes = bytes;
    if !order.read_over(head.offset / BLOCK_BYTES, span, &mut bytes) {
        return Err(bytes);
    }
    cut(&mut bytes, head);
    Ok(Served::Ready(Reply {
        cookie: head.cookie,
        answer: bytes_answer(head, order, bytes, runs),
    }))
}
