//! Runs of the blocks that a request touches, cut to its bytes.

ghost use Rattle.std.specs.Prelude.{◌≡◌, ◌+◌, ◌*◌, ◌-◌, ◌/◌, ◌%◌, ◌≤◌, ◌<◌, ◌^◌, IfOk, length, slice_index_or, take};
ghost use Rattle.alloc_map.specs.Codes.{state_at};
ghost use Rattle.export_model.specs.Shown.{cut_behind, cut_front, cut_to, read_status_of, runs_from, runs_met, status_of};

use image_model::Kind;
use marks::BoardName;
use nbd_wire::{DATA, HOLE, Run};
use order_book::Order;
use std::alloc::{AllocError, Global};

// The bytes of a block.
const BLOCK: u32 = 4_096;

// The status of blocks that are allocated and read as zero: bit 1 of the context `base:allocation`.
const ZERO: u32 = 2;

// The status of a block whose bytes are read.
fn read_status(kind: Kind) -> u32
    ensures { result ≡ read_status_of kind }
{
    match kind {
        Kind::Data => DATA,
        Kind::Zero | Kind::Hole => HOLE,
    }
}

// The status of a block in the context `base:allocation`.
fn status(kind: Kind) -> u32
    ensures { result ≡ status_of kind }
{
    match kind {
        Kind::Data => DATA,
        Kind::Zero => ZERO,
        Kind::Hole => HOLE,
    }
}

// The runs of data and holes of this many blocks from the first one on.
fn runs_of_blocks<B: BoardName>(
    alloc: Global,
    order: &Order<B>,
    first: u64,
    blocks: u64,
) -> Result<Vec<Run>, AllocError>
    requires some { 1 ≤ blocks }
    requires few { blocks ≤ 257 }
    requires inside { first + blocks ≤ length order.now.cache.states }
    requires fits { first + blocks < 2 ^ 64 }
    ensures { IfOk result (λ runs. runs.items ≡ runs_from (λ block. read_status_of (state_at order.now.cache.states block)) first blocks) }
{
    let mut runs = Vec::new(alloc);
    let mut last = Run {
        length: BLOCK,
        status: read_status(order.state(first)),
    };
    for block in first + 1..first + blocks {
        let status = read_status(order.state(block));
        if status == last.status {
            last.length += BLOCK;
        } else {
            runs.push(last)?;
            last = Run {
                length: BLOCK,
                status,
            };
        }
    }
    runs.push(last)?;
    Ok(runs)
}

// Cuts runs, of which there is one at least, to this many bytes after the first ones.
fn cut(runs: &mut Vec<Run>, skip: u32, count: u32)
    requires some { 0 < length runs.old.items }
    requires within { skip ≤ (slice_index_or runs.old.items 0 (record { length = 0; status = 0 })).length }
    ensures { runs.new.items ≡ cut_behind count (cut_front skip runs.old.items) }
{
    runs[0].length -= skip;
    let mut left = count;
    for at in 0..runs.len() {
        let size = runs[at].length;
        if left <= size {
            runs[at].length = left;
            runs.truncate(at + 1);
            return;
        }
        left -= size;
    }
}

// The runs of data and holes of this many bytes from the offset on.
pub(crate) fn read_runs<B: BoardName>(
    alloc: Global,
    order: &Order<B>,
    offset: u64,
    count: u32,
) -> Result<Vec<Run>, AllocError>
    requires some { 0 < count }
    requires most { count ≤ 1048576 }
    requires few { length order.now.cache.states ≤ 16777216 }
    requires inside { offset + count ≤ 4096 * length order.now.cache.states }
    ensures { IfOk result (λ runs. runs.items ≡ cut_to offset count (runs_met (λ block. read_status_of (state_at order.now.cache.states block)) offset count)) }
{
    let skip = offset % BLOCK as u64;
    let blocks = (skip + count as u64).div_ceil(BLOCK as u64);
    let mut runs = runs_of_blocks(alloc, order, offset / BLOCK as u64, blocks)?;
    cut(&mut runs, skip as u32, count);
    Ok(runs)
}

// The longest runs of one status of the blocks that this many bytes from the offset on touch, the first `limit` of them, cut to
// these bytes.
pub(crate) fn status_runs<B: BoardName>(
    alloc: Global,
    order: &Order<B>,
    offset: u64,
    count: u32,
    limit: usize,
) -> Result<Vec<Run>, AllocError>
    requires some { 0 < count }
    requires few { length order.now.cache.states ≤ 16777216 }
    requires inside { offset + count ≤ 4096 * length order.now.cache.states }
    ensures { IfOk result (λ runs. runs.items ≡ cut_to offset count (take limit (runs_met (λ block. status_of (state_at order.now.cache.states block)) offset count))) }
{
    let first = offset / BLOCK as u64;
    let mut skip = offset % BLOCK as u64;
    let blocks = (skip + count as u64).div_ceil(BLOCK as u64);
    let found = order.status(alloc, first, first + blocks, limit)?;
    let mut left = count as u64;
    let mut runs = Vec::new(alloc);
    for run in &found {
        let status = status(run.kind);
        let size = run.blocks * BLOCK as u64 - skip;
        if left <= size {
            runs.push(Run {
                length: left as u32,
                status,
            })?;
            return Ok(runs);
        }
        runs.push(Run {
            length: size as u32,
            status,
        })?;
        left -= size;
        skip = 0;
    }
    Ok(runs)
}
